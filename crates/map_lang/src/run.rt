//! Running programs on documents.

ghost use Rattle.std.specs.Prelude.{◌≡◌, ◌∷◌, ◌++◌, [], IfOk, OnOk, Some, map, Ok, true, false};
ghost use Rattle.json_terms.specs.Seen.{json};
ghost use Rattle.map_lang.specs.Syntax.{stmts_of};
ghost use Rattle.map_lang.specs.SeenExpressions.{expr_of};
ghost use Rattle.map_lang.specs.SeenStatements.{stmt_of};
ghost use Rattle.map_lang.specs.Meaning.{turn, emission, step, after, emitted, events_of, all_events, each_turn, are_equal, turns_of, value_of, rows_of, text_length};
ghost use Rattle.map_lang.specs.Bound.{scope_of};
ghost use Rattle.map_lang.specs.Running.{run_of};

use crate::syntax::{Block, Expression, Program, Statement};
use crate::value::{Variable, evaluate};
use json_terms::{Chars, Emissions, NoMemory, RowLists, Term, depth_within, write_term};
use raw_collation::raw_cmp;
use std::alloc::Global;

// How many bytes the texts of all keys and values of a run may have together.
const BYTES: usize = 1_048_576;

// How deep an emitted key or value may be.
const DEPTH: u32 = 96;

// How many turns all loops of a run may take together.
const TURNS: u32 = 100_000;

/// A run so far.
#[derive(Drop)]
pub struct Progress {
    pub rows: Emissions,
    pub bytes: usize,
    pub turns: u32,
    pub ended: bool,
    /// Where texts are written, to be counted.
    pub text: Vec<u8>,
}

/// The rows that a program gives of a document, as the one list. A run ends before the emission with which the texts of
/// its keys and values would have more than 1,048,576 bytes together, before an emission of a key or a value that is
/// deeper than 96, and before the 100,001st turn of a `for`, those of inner loops counted. The one error is want of
/// memory.
pub fn run_map(alloc: Global, program: &Program, document: &Term) -> Result<RowLists, NoMemory>
    ensures { IfOk result (λ lists. lists ≡ rows_of program.now (json document.now) ∷ []) }
{
    let mut bound = Vec::new(alloc);
    let mut progress = Progress {
        rows: Emissions::new(alloc),
        bytes: 0,
        turns: 0,
        ended: false,
        text: Vec::new(alloc),
    };
    run_block(
        alloc,
        document,
        program.block().as_slice(),
        &mut bound,
        &mut progress,
    )?;
    let Progress {
        rows,
        bytes: _,
        turns: _,
        ended: _,
        text: _,
    } = progress;
    let mut lists = RowLists::new(alloc);
    lists.push(rows)?;
    Ok(lists)
}

// Does the statements in turn, until the run ends.
#[cycle(run)]
fn run_block(
    alloc: Global,
    document: &Term,
    statements: &[Statement],
    bound: &mut Vec<Variable>,
    progress: &mut Progress,
) -> Result<(), NoMemory>
    ensures run { OnOk result (run_of progress.new ≡ after (run_of progress.old)
        (all_events (stmts_of (map stmt_of statements.now))
        (scope_of document.now bound.old.items))) }
    ensures bound { OnOk result (bound.new.items ≡ bound.old.items) }
{
    for statement in statements {
        run_statement(alloc, document, statement, bound, progress)?;
    }
    Ok(())
}

#[cycle(run)]
fn run_statement(
    alloc: Global,
    document: &Term,
    statement: &Statement,
    bound: &mut Vec<Variable>,
    progress: &mut Progress,
) -> Result<(), NoMemory>
    ensures run { OnOk result (run_of progress.new ≡ after (run_of progress.old)
        (events_of (stmt_of statement.now) (scope_of document.now bound.old.items))) }
    ensures bound { OnOk result (bound.new.items ≡ bound.old.items) }
{
    if progress.ended {
        return Ok(());
    }
    match statement {
        Statement::Emit(key, value) => emit(alloc, document, bound, key, value, progress),
        Statement::If(left, right, block) => {
            if are_equal(alloc, document, bound, left, right)? {
                run_block(alloc, document, block.as_slice(), bound, progress)?;
            }
            Ok(())
        }
        Statement::For(name, source, block) => {
            let values = elements_of(alloc, document, bound, source)?;
            repeat(
                alloc,
                document,
                name,
                values,
                block.as_slice(),
                bound,
                progress,
            )
        }
    }
}

// Does the block for each of the values, which the variable names.
#[cycle(run)]
fn repeat(
    alloc: Global,
    document: &Term,
    name: &Chars,
    mut values: Vec<Term>,
    block: &[Statement],
    bound: &mut Vec<Variable>,
    progress: &mut Progress,
) -> Result<(), NoMemory>
    ensures run { OnOk result (run_of progress.new ≡ after (run_of progress.old) (each_turn
        (λ v. all_events (stmts_of (map stmt_of block.now))
        (scope_of document.now bound.old.items ++ (name.now, v) ∷ []))
        (map json values.items))) }
    ensures bound { OnOk result (bound.new.items ≡ bound.old.items) }
{
    values.reverse();
    'values: while let Some(value) = values.pop() {
        progress.turn();
        if progress.ended {
            return Ok(());
        }
        bound.push(Variable {
            name: name.copy(alloc)?,
            value,
        })?;
        run_block(alloc, document, block, bound, progress)?;
        let _ = bound.pop();
    }
    Ok(())
}

// The elements of a value, if it is there and is an array.
fn elements_of(
    alloc: Global,
    document: &Term,
    bound: &[Variable],
    source: &Expression,
) -> Result<Vec<Term>, NoMemory>
    ensures { IfOk result (λ values. map json values.items ≡ turns_of
        (value_of (scope_of document.now bound.now) (expr_of source.now))) }
{
    match evaluate(alloc, document, bound, source)? {
        Some(Term::Array(terms)) => Ok(terms.into_vec()),
        _ => Ok(Vec::new(alloc)),
    }
}

// Whether both values are there and are equal.
fn are_equal(
    alloc: Global,
    document: &Term,
    bound: &[Variable],
    left: &Expression,
    right: &Expression,
) -> Result<bool, NoMemory>
    ensures { IfOk result (λ equal.
        equal ≡ are_equal (value_of (scope_of document.now bound.now) (expr_of left.now))
        (value_of (scope_of document.now bound.now) (expr_of right.now))) }
{
    let Some(left) = evaluate(alloc, document, bound, left)? else {
        return Ok(false);
    };
    let Some(right) = evaluate(alloc, document, bound, right)? else {
        return Ok(false);
    };
    Ok(raw_cmp(&left, &right).is_eq())
}

// Gives a row, where both parts are there.
fn emit(
    alloc: Global,
    document: &Term,
    bound: &[Variable],
    key: &Expression,
    value: &Expression,
    progress: &mut Progress,
) -> Result<(), NoMemory>
    ensures { OnOk result (run_of progress.new ≡ after (run_of progress.old) (emitted
        (value_of (scope_of document.now bound.now) (expr_of key.now))
        (value_of (scope_of document.now bound.now) (expr_of value.now)))) }
{
    let Some(key) = evaluate(alloc, document, bound, key)? else {
        return Ok(());
    };
    let Some(value) = evaluate(alloc, document, bound, value)? else {
        return Ok(());
    };
    progress.emit(alloc, key, value)
}

// How many bytes the texts of a key and a value have together. They are written to `text`.
fn text_length(
    alloc: Global,
    key: &Term,
    value: &Term,
    text: &mut Vec<u8>,
) -> Result<usize, NoMemory>
    ensures { IfOk result (λ length. length ≡ text_length (json key.now) (json value.now)) }
{
    text.clear();
    write_term(alloc, key, text)?;
    write_term(alloc, value, text)?;
    Ok(text.len())
}

impl Progress {
    // A turn of a `for`, or the end of the run in its place.
    fn turn(&mut self)
        ensures { run_of self.new ≡ step (run_of self.old) turn }
    {
        if self.ended {
            return;
        }
        if self.turns < TURNS {
            self.turns += 1;
        } else {
            self.ended = true;
        }
    }

    // An emission, or the end of the run in its place.
    fn emit(&mut self, alloc: Global, key: Term, value: Term) -> Result<(), NoMemory>
        ensures { OnOk result (run_of self.new ≡ step (run_of self.old)
            (emission (json key) (json value))) }
    {
        if self.ended {
            return Ok(());
        }
        if !depth_within(&key, DEPTH) || !depth_within(&value, DEPTH) {
            self.ended = true;
            return Ok(());
        }
        let length = text_length(alloc, &key, &value, &mut self.text)?;
        if length <= BYTES && self.bytes <= BYTES - length {
            self.bytes += length;
            self.rows.push(key, value)?;
        } else {
            self.ended = true;
        }
        Ok(())
    }
}
