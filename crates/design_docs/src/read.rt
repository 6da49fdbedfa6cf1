//! Reading the design of a document.

ghost use Rattle.std.specs.Prelude.{◌≡◌, IfOk, map};
ghost use Rattle.json_terms.specs.Json.{members_of};
ghost use Rattle.json_terms.specs.Seen.{json, pair_of};
ghost use Rattle.design_docs.specs.Design as spec;
ghost use Rattle.design_docs.specs.Faults.{design_fault, Finds};
ghost use Rattle.design_docs.specs.Reduces.{reduce_of};

use crate::check::check_design;
use crate::design::{Design, Reduce, View, Views};
use crate::fault::DesignFault;
use crate::reduce::read_builtin;
use json_terms::{Chars, Member, Members, NoMemory, Term, Terms, copy_term, member};
use std::alloc::Global;

/// The design of a document, or its first fault. An absent language counts as `javascript`, and absent views as none. Members
/// that are no part of a design have no effect. Want of memory may come at any time.
pub fn read_design(alloc: Global, document: &Term) -> Result<Design, DesignFault>
    ensures fault { Finds (design_fault (json document.now)) result }
    ensures design { IfOk result (λ design. spec.IsDesignOf (json document.now) design) }
{
    check_design(alloc, document)?;
    Ok(read_parts(alloc, document)?)
}

/// The parts of a design, where there is no fault.
fn read_parts(alloc: Global, document: &Term) -> Result<Design, NoMemory>
    ensures { IfOk result (λ design. spec.IsDesignOf (json document.now) design) }
{
    let language = Chars::from_text(alloc, language_of(document))?;
    let views = read_views(alloc, document)?;
    let object = copy_views(alloc, document)?;
    let term = language_and_views(alloc, &language, object)?;
    Ok(Design {
        language,
        views,
        term,
    })
}

fn language_of(document: &Term) -> &str
    ensures { result.now ≡ spec.language_of (json document.now) }
{
    match member(document, "language") {
        Some(Term::Text(language)) => language.as_str(),
        _ => "javascript",
    }
}

fn read_views(alloc: Global, document: &Term) -> Result<Views, NoMemory>
    ensures { IfOk result (λ views. views ≡ spec.views_of (json document.now)) }
{
    match member(document, "views") {
        Some(Term::Object(views)) => read_each(alloc, views.as_slice()),
        _ => Ok(Views::new(Vec::new(alloc))),
    }
}

fn read_each(alloc: Global, members: &[Member]) -> Result<Views, NoMemory>
    ensures { IfOk result
        (λ views. views ≡ spec.views_in (members_of (map pair_of members.now))) }
{
    let mut views = Vec::with_capacity(alloc, members.len())?;
    for member in members {
        views.push(read_view(alloc, member)?)?;
    }
    Ok(Views::new(views))
}

fn read_view(alloc: Global, member: &Member) -> Result<View, NoMemory>
    ensures { IfOk result (λ view. view ≡ spec.view_of member.now.name (json member.now.value)) }
{
    let name = member.name.copy(alloc)?;
    let map = Chars::from_text(alloc, map_of(&member.value))?;
    let reduce = read_reduce(alloc, &member.value)?;
    Ok(View { name, map, reduce })
}

fn read_reduce(alloc: Global, view: &Term) -> Result<Reduce, NoMemory>
    ensures { IfOk result (λ reduce. reduce ≡ reduce_of (json view.now)) }
{
    match member(view, "reduce") {
        Some(Term::Text(source)) => match read_builtin(source.as_str()) {
            Some(builtin) => Ok(Reduce::Builtin(builtin)),
            None => Ok(Reduce::Source(source.copy(alloc)?)),
        },
        _ => Ok(Reduce::Absent),
    }
}

fn map_of(view: &Term) -> &str
    ensures { result.now ≡ spec.map_of (json view.now) }
{
    match member(view, "map") {
        Some(Term::Text(source)) => source.as_str(),
        _ => "",
    }
}

/// The views as they stand in the document.
fn copy_views(alloc: Global, document: &Term) -> Result<Term, NoMemory>
    ensures { IfOk result (λ views. json views ≡ spec.views_object (json document.now)) }
{
    match member(document, "views") {
        Some(views) => copy_term(alloc, views),
        None => Ok(Term::Object(Members::new(alloc))),
    }
}

fn language_and_views(alloc: Global, language: &Chars, views: Term) -> Result<Term, NoMemory>
    ensures { IfOk result
        (λ pair. json pair ≡ spec.language_and_views language.now (json views)) }
{
    let mut parts = Terms::with_capacity(alloc, 2)?;
    parts.push(Term::Text(language.copy(alloc)?))?;
    parts.push(views)?;
    Ok(Term::Array(parts))
}
