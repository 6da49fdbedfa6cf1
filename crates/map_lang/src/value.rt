//! The values of expressions.

ghost use Rattle.std.specs.Prelude.{◌≡◌, IfOk, Some, None, option_map, map};
ghost use Rattle.json_terms.specs.Seen.{json};
ghost use Rattle.map_lang.specs.Syntax.{exprs_of};
ghost use Rattle.map_lang.specs.SeenExpressions.{expr_of};
ghost use Rattle.map_lang.specs.Meaning.{value_of, values_of, value_of_name, walked, stepped, element_at, elements, literal_value};
ghost use Rattle.map_lang.specs.Bound.{scope_of};

use crate::syntax::{Expression, Literal, Step};
use json_terms::{Chars, NoMemory, Term, Terms, copy_term, member};
use std::alloc::Global;

/// A variable and its value.
#[derive(Drop)]
pub struct Variable {
    pub name: Chars,
    pub value: Term,
}

/// The value of an expression, where it has one. The one error is want of memory.
#[cycle(evaluate)]
pub fn evaluate(
    alloc: Global,
    document: &Term,
    bound: &[Variable],
    expression: &Expression,
) -> Result<Option<Term>, NoMemory>
    ensures { IfOk result (λ value. option_map json value ≡ value_of
        (scope_of document.now bound.now) (expr_of expression.now)) }
{
    match expression {
        Expression::Path(name, steps) => {
            match walk(
                find_variable(document, bound, name.as_str()),
                steps.as_slice(),
            ) {
                Some(term) => Ok(Some(copy_term(alloc, term)?)),
                None => Ok(None),
            }
        }
        Expression::Literal(literal) => Ok(Some(constant(alloc, literal)?)),
        Expression::Array(parts) => match evaluate_all(alloc, document, bound, parts.as_slice())? {
            Some(terms) => Ok(Some(Term::Array(terms))),
            None => Ok(None),
        },
    }
}

// The values of the parts of an array, where all have one.
#[cycle(evaluate)]
fn evaluate_all(
    alloc: Global,
    document: &Term,
    bound: &[Variable],
    parts: &[Expression],
) -> Result<Option<Terms>, NoMemory>
    ensures { IfOk result (λ values. values ≡ values_of (scope_of document.now bound.now)
        (exprs_of (map expr_of parts.now))) }
{
    let mut terms = Terms::with_capacity(alloc, parts.len())?;
    for part in parts {
        match evaluate(alloc, document, bound, part)? {
            Some(term) => terms.push(term)?,
            None => return Ok(None),
        }
    }
    Ok(Some(terms))
}

// The value of a literal.
fn constant(alloc: Global, literal: &Literal) -> Result<Term, NoMemory>
    ensures { IfOk result (λ term. json term ≡ literal_value literal.now) }
{
    match literal {
        Literal::Integer(number) => Ok(Term::Int(*number)),
        Literal::Text(text) => Ok(Term::Text(text.copy(alloc)?)),
        Literal::True => Ok(Term::True),
        Literal::False => Ok(Term::False),
        Literal::Null => Ok(Term::Null),
    }
}

// The value of the variable with this name. The document is the first.
fn find_variable<'a>(document: &'a Term, bound: &'a [Variable], name: &str) -> Option<&'a Term>
    ensures { option_map (λ t. json t.now) result ≡ value_of_name name.now
        (scope_of document.now bound.now) }
{
    if "doc" == name {
        return Some(document);
    }
    for variable in bound {
        if variable.name.as_str() == name {
            return Some(&variable.value);
        }
    }
    None
}

// Where the steps lead, one after another.
fn walk<'a>(from: Option<&'a Term>, steps: &[Step]) -> Option<&'a Term>
    ensures { option_map (λ t. json t.now) result ≡ walked steps.now
        (option_map (λ t. json t.now) from.entry) }
{
    let Some(mut term) = from else {
        return None;
    };
    for step in steps {
        let Some(next) = follow(term, step) else {
            return None;
        };
        term = next;
    }
    Some(term)
}

// Where a step leads from a term.
fn follow<'a>(term: &'a Term, step: &Step) -> Option<&'a Term>
    ensures { option_map (λ t. json t.now) result ≡ stepped step.now (json term.now) }
{
    match step {
        Step::Member(name) => member(term, name.as_str()),
        Step::Key(name) => member(term, name.as_str()),
        Step::Element(place) => element(term, *place),
    }
}

// The element of an array at this place, counted from 0.
fn element(term: &Term, place: i64) -> Option<&Term>
    ensures { option_map (λ t. json t.now) result ≡ element_at place (elements (json term.now)) }
{
    let Term::Array(terms) = term else {
        return None;
    };
    if place < 0 {
        return None;
    }
    let items = terms.as_slice();
    let index = place as usize;
    if index >= items.len() {
        return None;
    }
    Some(&items[index])
}
