//! Reading expressions.

ghost use Rattle.std.specs.Prelude.{◌≡◌, ℕ, ◌∷◌, List, IfOk, MatchOption, None, Some};
ghost use Rattle.map_lang.specs.declared.token.Token.{Token};
ghost use Rattle.map_lang.specs.declared.syntax.Step.{Step};
ghost use Rattle.map_lang.specs.Syntax.{Expr, Exprs, exprs_of};
ghost use Rattle.map_lang.specs.SeenExpressions.{expr_of};
ghost use Rattle.map_lang.specs.Grammar.{is_among, step_before};
ghost use Rattle.map_lang.specs.Readings.{begins_step, ReadsSteps, ReadsExpr, ReadsExprs};
ghost use Rattle.map_lang.specs.Refusing.{IfRefused, ReadsNone};

use crate::cursor::{begins_step, take};
use crate::fault::ParseFault;
use crate::syntax::{Expression, Expressions, Literal, Step};
use crate::token::{Keyword, Mark, Token, keyword_of};
use json_terms::Chars;
use std::alloc::Global;
use std::collections::VecDeque;

/// Reads an expression, in which arrays may nest `room` deep.
#[cycle(read)]
pub fn expression(
    alloc: Global,
    bound: &[Chars],
    tokens: &mut VecDeque<Token>,
    room: u32,
) -> Result<Expression, ParseFault>
    ensures found { IfOk result (λ e. ReadsExpr bound.now room tokens.old.items
        (expr_of e) tokens.new.items) }
    ensures refused { IfRefused result (ReadsNone (ReadsExpr bound.now room tokens.old.items)) }
{
    match tokens.pop_front() {
        Some(Token::Word(word)) => worded(alloc, bound, tokens, word),
        Some(Token::Integer(number)) => Ok(Expression::Literal(Literal::Integer(number))),
        Some(Token::Text(text)) => Ok(Expression::Literal(Literal::Text(text))),
        Some(Token::Mark(Mark::OpenBracket)) => {
            if room == 0 {
                return Err(ParseFault::Refused);
            }
            let parts = parts(alloc, bound, tokens, room - 1)?;
            Ok(Expression::Array(parts))
        }
        _ => Err(ParseFault::Refused),
    }
}

// Reads the parts of an array behind its opening bracket, and the closing bracket.
#[cycle(read)]
fn parts(
    alloc: Global,
    bound: &[Chars],
    tokens: &mut VecDeque<Token>,
    room: u32,
) -> Result<Expressions, ParseFault>
    ensures found { IfOk result (λ es. ReadsExprs bound.now room tokens.old.items
        (exprs_of es) tokens.new.items) }
    ensures refused { IfRefused result (ReadsNone (ReadsExprs bound.now room tokens.old.items)) }
{
    let mut items = Expressions::new(alloc);
    if take(tokens, Mark::CloseBracket) {
        return Ok(items);
    }
    'parts: loop {
        let part = expression(alloc, bound, tokens, room)?;
        items.push(part)?;
        if take(tokens, Mark::CloseBracket) {
            return Ok(items);
        }
        if !take(tokens, Mark::Comma) {
            return Err(ParseFault::Refused);
        }
    }
}

// Reads an expression behind the word that it begins with: a constant, or a variable and its steps.
fn worded(
    alloc: Global,
    bound: &[Chars],
    tokens: &mut VecDeque<Token>,
    word: Chars,
) -> Result<Expression, ParseFault>
    ensures found { IfOk result (λ e. (room : ℕ) → ReadsExpr bound.now room
        (Token.Word word ∷ tokens.old.items) (expr_of e) tokens.new.items) }
    ensures refused { IfRefused result ((room : ℕ) → ReadsNone
        (ReadsExpr bound.now room (Token.Word word ∷ tokens.old.items))) }
{
    match keyword_of(word.as_str()) {
        Some(Keyword::True) => Ok(Expression::Literal(Literal::True)),
        Some(Keyword::False) => Ok(Expression::Literal(Literal::False)),
        Some(Keyword::Null) => Ok(Expression::Literal(Literal::Null)),
        Some(_) => Err(ParseFault::Refused),
        None => {
            if !is_among(word.as_str(), bound) {
                return Err(ParseFault::Refused);
            }
            let steps = steps(alloc, tokens)?;
            Ok(Expression::Path(word, steps))
        }
    }
}

/// Whether the name is among these.
pub fn is_among(name: &str, names: &[Chars]) -> bool
    ensures { result ≡ is_among name.now names.now }
{
    for bound in names {
        if bound.as_str() == name {
            return true;
        }
    }
    false
}

// Reads all steps that stand first.
fn steps(alloc: Global, tokens: &mut VecDeque<Token>) -> Result<Vec<Step>, ParseFault>
    ensures found { IfOk result (λ steps.
        ReadsSteps tokens.old.items steps.items tokens.new.items) }
    ensures refused { IfRefused result (ReadsNone (ReadsSteps tokens.old.items)) }
{
    let mut steps = Vec::new(alloc);
    'steps: while begins_step(tokens) {
        let Some(step) = step(tokens) else {
            return Err(ParseFault::Refused);
        };
        steps.push(step)?;
    }
    Ok(steps)
}

// Reads one step.
fn step(tokens: &mut VecDeque<Token>) -> Option<Step>
    ensures { MatchOption result ((s : Step) (rest : List Token)
        → tokens.old.items ≡ step_before s rest → ⊥) (λ s.
        tokens.old.items ≡ step_before s tokens.new.items) }
{
    if take(tokens, Mark::Dot) {
        let Some(Token::Word(name)) = tokens.pop_front() else {
            return None;
        };
        return Some(Step::Member(name));
    }
    if !take(tokens, Mark::OpenBracket) {
        return None;
    }
    let step = match tokens.pop_front() {
        Some(Token::Integer(place)) => Step::Element(place),
        Some(Token::Text(name)) => Step::Key(name),
        _ => return None,
    };
    if !take(tokens, Mark::CloseBracket) {
        return None;
    }
    Some(step)
}
