//! Copies of terms.

ghost use Rattle.std.specs.Prelude.{◌≡◌, map, IfOk};
ghost use Rattle.json_terms.specs.Seen.{json};

use crate::fault::NoMemory;
use crate::term::{Members, Term, Terms};
use std::alloc::Global;

/// An equal term, with each list allocated once. The one error is want of memory.
#[cycle(copy)]
pub fn copy_term(alloc: Global, term: &Term) -> Result<Term, NoMemory>
    ensures { IfOk result (λ t. t ≡ term.now) }
{
    match term {
        Term::Int(n) => Ok(Term::Int(*n)),
        Term::False => Ok(Term::False),
        Term::Null => Ok(Term::Null),
        Term::True => Ok(Term::True),
        Term::Object(members) => Ok(Term::Object(copy_members(alloc, members)?)),
        Term::Array(terms) => Ok(Term::Array(copy_terms(alloc, terms.as_slice())?)),
        Term::Text(chars) => Ok(Term::Text(chars.copy(alloc)?)),
    }
}

#[cycle(copy)]
fn copy_terms(alloc: Global, terms: &[Term]) -> Result<Terms, NoMemory>
    ensures { IfOk result (λ ts. ts ≡ map json terms.now) }
{
    let mut copies = Terms::with_capacity(alloc, terms.len())?;
    for term in terms {
        copies.push(copy_term(alloc, term)?)?;
    }
    Ok(copies)
}

#[cycle(copy)]
fn copy_members(alloc: Global, members: &Members) -> Result<Members, NoMemory>
    ensures { IfOk result (λ ms. ms ≡ members.now) }
{
    members.validity();
    let entries = members.as_slice();
    let mut copies = Members::with_capacity(alloc, entries.len())?;
    for member in entries {
        let value = copy_term(alloc, &member.value)?;
        copies.push(member.name.copy(alloc)?, value)?;
    }
    Ok(copies)
}
