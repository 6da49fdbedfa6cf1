//! Map functions: programs of the language `pick` with their sources.

ghost use Rattle.std.specs.Prelude.{◌≡◌, Some, None, map, IfOk, option_map, if◌then◌else◌};
ghost use Rattle.json_terms.specs.Json.{object, members_of};
ghost use Rattle.json_terms.specs.Seen.{json};
ghost use Rattle.json_terms.specs.Emitted.{key_value};
ghost use Rattle.map_lang.specs.Meaning.{rows_of};
ghost use Rattle.view_ports.specs.Functions.{pair_term, rows_term};
ghost use Rattle.map_server.specs.Programs.{program_of};

use json_terms::{Chars, Emission, NoMemory, Term, Terms};
use map_lang::{ParseFault, Program, parse, run_map};
use std::alloc::Global;

/// A map function, which is compiled once.
#[derive(Drop)]
pub struct MapFunction {
    pub source: Chars,
    pub program: Program,
    ghost compiled: { program_of source ≡ Some program },
}

impl MapFunction {
    ghost use Rattle.map_server.specs.PickFunctions.{pick_compiles, pick_map};

    /// The function of a source, or none where the source doesn't compile. The one error is want of memory.
    pub fn compile(alloc: Global, source: Chars) -> Result<Option<MapFunction>, NoMemory>
        ensures { IfOk result (λ function. option_map (λ f. f.source) function ≡
            (if pick_compiles source then Some source else None)) }
    {
        match parse(alloc, source.as_str()) {
            Ok(program) => Ok(Some(MapFunction { source, program })),
            Err(ParseFault::Refused) => Ok(None),
            Err(ParseFault::NoMemory) => Err(NoMemory),
        }
    }

    /// The rows of a document, as `[[KEY,VALUE],...]`. The one error is want of memory.
    pub fn rows(&self, alloc: Global, document: &Term) -> Result<Term, NoMemory>
        ensures { IfOk result (λ rows. (members : _) → json document.now ≡ object
            (members_of members) → json rows ≡ rows_term (pick_map self.now.source members)) }
    {
        rows_of_program(alloc, &self.program, document)
    }
}

/// The rows that a program gives of a document.
fn rows_of_program(alloc: Global, program: &Program, document: &Term) -> Result<Term, NoMemory>
    ensures { IfOk result (λ rows. json rows ≡ rows_term
        (rows_of program.now (json document.now))) }
{
    let mut lists = run_map(alloc, program, document)?.into_vec();
    let Some(emissions) = lists.pop() else {
        unreachable!();
    };
    pairs(alloc, emissions.into_vec())
}

/// Keys and values as an array of pairs.
fn pairs(alloc: Global, emissions: Vec<Emission>) -> Result<Term, NoMemory>
    ensures { IfOk result (λ rows. json rows ≡ rows_term (map key_value emissions.items)) }
{
    let mut rows = Terms::with_capacity(alloc, emissions.len())?;
    for emission in emissions {
        rows.push(pair(alloc, emission)?)?;
    }
    Ok(Term::Array(rows))
}

/// `[KEY,VALUE]`.
fn pair(alloc: Global, emission: Emission) -> Result<Term, NoMemory>
    ensures { IfOk result (λ row. json row ≡ pair_term (key_value emission)) }
{
    let Emission { key, value } = emission;
    let mut row = Terms::with_capacity(alloc, 2)?;
    row.push(key)?;
    row.push(value)?;
    Ok(Term::Array(row))
}
