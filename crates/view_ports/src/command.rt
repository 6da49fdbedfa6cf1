//! The lines that a query server is sent, read.

ghost use Rattle.std.specs.Prelude.{◌≡◌, ◌≢◌, ◌≤◌, IfOk, IfSome, Option, option_map, option_and_then, map};
ghost use Rattle.json_terms.specs.Json.{Json, depth, object, items_of, members_of};
ghost use Rattle.json_terms.specs.Kinds.{one_in, two_in, text_in, items_in};
ghost use Rattle.json_terms.specs.Seen.{json};
ghost use Rattle.view_ports.specs.ReduceRow.{json2};
ghost use Rattle.view_ports.specs.Commands as spec;

use crate::reduce_rows::ReduceRows;
use json_terms::{
    Chars, DOCUMENT_DEPTH, Members, NoMemory, Term, TermFault, Terms, depth_within, read_term,
};
use std::alloc::Global;

/// What a line asks of a query server.
#[derive(Drop)]
pub enum Command {
    /// `["reset",...]`: forget the functions that were added.
    Reset,
    /// `["add_fun",SOURCE]`: add a map function.
    AddFun { source: Chars },
    /// `["map_doc",DOC]`: run each map function on the document.
    MapDoc { document: Members },
    /// `["reduce",[SOURCE],[[[KEY,ID],VALUE],...]]`: reduce rows, of which there is one at least.
    Reduce { source: Chars, rows: ReduceRows },
    /// `["rereduce",[SOURCE],[VALUE,...]]`: reduce the results of earlier reductions, of which there is one at least.
    Rereduce { source: Chars, values: Terms },
    /// No proper command: another form, a document deeper than 64, or an empty list.
    Other,
}

/// The command that the line is. The one error is want of memory.
pub fn read_command(alloc: Global, line: &[u8]) -> Result<Command, NoMemory>
    ensures command { IfOk result (λ c. c ≡ spec.command line.now) }
    ensures shallow { IfOk result spec.IsShallow }
{
    match read_term(alloc, line) {
        Ok(term) => command_of(alloc, term),
        Err(fault) => unread(fault),
    }
}

/// What is no term is no proper command.
fn unread(fault: TermFault) -> Result<Command, NoMemory>
    ensures { IfOk result (λ c. (fault ≢ TermFault.NoMemory) × (c ≡ Command.Other)) }
{
    match fault {
        TermFault::NotJson | TermFault::NotWhole | TermFault::TooDeep => Ok(Command::Other),
        TermFault::NoMemory => Err(NoMemory),
    }
}

fn command_of(alloc: Global, term: Term) -> Result<Command, NoMemory>
    ensures command { IfOk result (λ c. c ≡ spec.command_of (json term)) }
    ensures shallow { IfOk result spec.IsShallow }
{
    let Term::Array(terms) = term else {
        return Ok(Command::Other);
    };
    let mut terms = terms.into_vec();
    if terms.is_empty() {
        return Ok(Command::Other);
    }
    let Term::Text(name) = terms.remove(0) else {
        return Ok(Command::Other);
    };
    named(alloc, name.as_str(), terms)
}

/// The command of this name with these elements behind it.
fn named(alloc: Global, name: &str, terms: Vec<Term>) -> Result<Command, NoMemory>
    ensures command { IfOk result (λ c. c ≡ spec.or_other
        (spec.named name.now (items_of (map json terms.items)))) }
    ensures shallow { IfOk result spec.IsShallow }
{
    match name {
        "reset" => Ok(Command::Reset),
        "add_fun" => Ok(add_fun(one(terms))),
        "map_doc" => Ok(map_doc(one(terms))),
        "reduce" => reduce(alloc, two(terms)),
        "rereduce" => Ok(rereduce(two(terms))),
        _ => Ok(Command::Other),
    }
}

fn add_fun(term: Option<Term>) -> Command
    ensures shallow { spec.IsShallow result }
    ensures command { result ≡ spec.or_other (option_map Command.AddFun
        (option_and_then text_in (option_map json term))) }
{
    match term {
        Some(Term::Text(source)) => Command::AddFun { source },
        _ => Command::Other,
    }
}

fn map_doc(term: Option<Term>) -> Command
    ensures shallow { spec.IsShallow result }
    ensures command { result ≡ spec.or_other (option_map Command.MapDoc
        (option_and_then spec.document_in (option_map json term))) }
{
    let Some(term) = term else {
        return Command::Other;
    };
    let Some(document) = document_in(term) else {
        return Command::Other;
    };
    Command::MapDoc { document }
}

/// A document: an object of depth 64 at most.
fn document_in(term: Term) -> Option<Members>
    ensures document { result ≡ spec.document_in (json term) }
    ensures shallow { IfSome result (λ d. depth (object (members_of d)) ≤ spec.document_depth) }
{
    match shallow(term)? {
        Term::Object(document) => Some(document),
        _ => None,
    }
}

/// The term, where it isn't deeper than a document may be.
fn shallow(term: Term) -> Option<Term>
    ensures term { option_map json result ≡ spec.unless_deep (json term) }
    ensures within { IfSome result (λ t. depth (json t) ≤ spec.document_depth) }
{
    if depth_within(&term, DOCUMENT_DEPTH) {
        Some(term)
    } else {
        None
    }
}

fn reduce(alloc: Global, terms: Option<(Term, Term)>) -> Result<Command, NoMemory>
    ensures shallow { IfOk result spec.IsShallow }
    ensures command { IfOk result (λ c. c ≡ spec.or_other
        (spec.reduce_in (option_map json2 terms))) }
{
    let Some((source, rows)) = terms else {
        return Ok(Command::Other);
    };
    let Some(source) = source_in(source) else {
        return Ok(Command::Other);
    };
    let Some(rows) = ReduceRows::read(alloc, &rows)? else {
        return Ok(Command::Other);
    };
    Ok(Command::Reduce { source, rows })
}

fn rereduce(terms: Option<(Term, Term)>) -> Command
    ensures shallow { spec.IsShallow result }
    ensures command { result ≡ spec.or_other (spec.rereduce_in (option_map json2 terms)) }
{
    let Some((source, values)) = terms else {
        return Command::Other;
    };
    let Some(source) = source_in(source) else {
        return Command::Other;
    };
    let Some(values) = values_in(values) else {
        return Command::Other;
    };
    Command::Rereduce { source, values }
}

/// The source in an array of its own.
fn source_in(term: Term) -> Option<Chars>
    ensures { result ≡ spec.source_in (json term) }
{
    let Term::Array(terms) = term else {
        return None;
    };
    match one(terms.into_vec()) {
        Some(Term::Text(source)) => Some(source),
        _ => None,
    }
}

/// The elements of an array that isn't empty.
fn values_in(term: Term) -> Option<Terms>
    ensures { result ≡ spec.values_in (json term) }
{
    let Term::Array(values) = term else {
        return None;
    };
    if values.is_empty() {
        return None;
    }
    Some(values)
}

/// The element, where there is exactly one.
fn one(mut terms: Vec<Term>) -> Option<Term>
    ensures { option_map json result ≡ one_in (items_of (map json terms.items)) }
{
    if terms.len() != 1 {
        return None;
    }
    terms.pop()
}

/// The elements, where there are exactly two.
fn two(mut terms: Vec<Term>) -> Option<(Term, Term)>
    ensures { option_map json2 result ≡ two_in (items_of (map json terms.items)) }
{
    if terms.len() != 2 {
        return None;
    }
    let second = terms.pop()?;
    let first = terms.pop()?;
    Some((first, second))
}
