//! Looking for the first fault of a design document. Memory is taken for the name in a fault alone.

ghost use Rattle.std.specs.Prelude.{◌≡◌, map, option_map};
ghost use Rattle.json_terms.specs.Json.{members_of};
ghost use Rattle.json_terms.specs.Seen.{json, pair_of};
ghost use Rattle.design_docs.specs.Faults as spec;
ghost use Rattle.design_docs.specs.Faults.{Finds};

use crate::document::is_special;
use crate::fault::DesignFault;
use crate::reduce::read_builtin;
use json_terms::{Chars, Member, Term, member};
use std::alloc::Global;

/// The most views of a design document.
const VIEW_LIMIT: usize = 32;

/// Gives the first fault of a document, if it has one.
pub(crate) fn check_design(alloc: Global, document: &Term) -> Result<(), DesignFault>
    ensures { Finds (spec.design_fault (json document.now)) result }
{
    check_language(member(document, "language"))?;
    check_shape(member(document, "views"))?;
    check_options(alloc, member(document, "options"))?;
    check_views(alloc, member(document, "views"))
}

fn check_language(language: Option<&Term>) -> Result<(), DesignFault>
    ensures { Finds (spec.language_fault (option_map (λ t. json t.now) language.entry)) result }
{
    match language {
        None => Ok(()),
        Some(Term::Text(language)) => {
            if language.as_str().is_empty() {
                return Err(DesignFault::BadLanguage);
            }
            Ok(())
        }
        Some(_) => Err(DesignFault::BadLanguage),
    }
}

fn check_shape(views: Option<&Term>) -> Result<(), DesignFault>
    ensures { Finds (spec.shape_fault (option_map (λ t. json t.now) views.entry)) result }
{
    match views {
        None | Some(Term::Object(_)) => Ok(()),
        Some(_) => Err(DesignFault::BadViews),
    }
}

fn check_options(alloc: Global, options: Option<&Term>) -> Result<(), DesignFault>
    ensures { Finds (spec.options_fault (option_map (λ t. json t.now) options.entry)) result }
{
    match options {
        None => Ok(()),
        Some(Term::Object(options)) => check_each_option(alloc, options.as_slice()),
        Some(_) => Err(DesignFault::BadOption(Chars::from_text(alloc, "options")?)),
    }
}

fn check_each_option(alloc: Global, options: &[Member]) -> Result<(), DesignFault>
    ensures { Finds (spec.option_fault (members_of (map pair_of options.now))) result }
{
    for option in options {
        if !is_option(option.name.as_str(), &option.value) {
            return Err(DesignFault::BadOption(option.name.copy(alloc)?));
        }
    }
    Ok(())
}

/// Whether an option is one that may be given.
fn is_option(name: &str, value: &Term) -> bool
    ensures { result ≡ spec.is_option name.now (json value.now) }
{
    match value {
        Term::Text(value) => name == "collation" && value.as_str() == "raw",
        Term::False => name == "include_design" || name == "local_seq" || name == "partitioned",
        _ => false,
    }
}

fn check_views(alloc: Global, views: Option<&Term>) -> Result<(), DesignFault>
    ensures { Finds (spec.views_fault (option_map (λ t. json t.now) views.entry)) result }
{
    match views {
        Some(Term::Object(views)) => check_each_view(alloc, views.as_slice()),
        _ => Ok(()),
    }
}

fn check_each_view(alloc: Global, views: &[Member]) -> Result<(), DesignFault>
    ensures { Finds (spec.fault_from 0 (members_of (map pair_of views.now))) result }
{
    for (place, view) in views.iter().enumerate() {
        check_view(alloc, place, &view.name, &view.value)?;
    }
    Ok(())
}

/// Gives the first fault of the view in this place, if it has one.
fn check_view(alloc: Global, place: usize, name: &Chars, view: &Term) -> Result<(), DesignFault>
    ensures { Finds (spec.view_fault place name.now (json view.now)) result }
{
    if place >= VIEW_LIMIT || !is_view(name.as_str(), view) {
        return Err(DesignFault::BadView(name.copy(alloc)?));
    }
    check_options(alloc, member(view, "options"))?;
    check_reduce(alloc, name, member(view, "reduce"))
}

fn is_view(name: &str, view: &Term) -> bool
    ensures { result ≡ spec.is_view name.now (json view.now) }
{
    name != "lib"
        && is_text(member(view, "map"))
        && (member(view, "reduce").is_none() || is_text(member(view, "reduce")))
}

fn is_text(value: Option<&Term>) -> bool
    ensures { result ≡ spec.is_text (option_map (λ t. json t.now) value.entry) }
{
    matches!(value, Some(Term::Text(_)))
}

fn check_reduce(alloc: Global, name: &Chars, reduce: Option<&Term>) -> Result<(), DesignFault>
    ensures { Finds (spec.builtin_fault name.now
        (option_map (λ t. json t.now) reduce.entry)) result }
{
    match reduce {
        Some(Term::Text(reduce)) => {
            if is_unknown(reduce.as_str()) {
                return Err(DesignFault::UnknownBuiltin(name.copy(alloc)?));
            }
            Ok(())
        }
        _ => Ok(()),
    }
}

/// Whether a reduce has a name that is kept for built-in ones, and is none.
fn is_unknown(reduce: &str) -> bool
    ensures { result ≡ spec.is_unknown reduce.now }
{
    is_special(reduce) && read_builtin(reduce).is_none()
}
