//! The replies to commands other than `map_doc`.

ghost use Rattle.std.specs.Prelude.{◌≡◌, ◌≤◌, List, ℕ, IfOk};
ghost use Rattle.json_terms.specs.Json.{depth, is_true};
ghost use Rattle.json_terms.specs.Seen.{json};
ghost use Rattle.view_ports.specs.Honest.{IsTextOf};
ghost use Rattle.view_ports.specs.declared.command.Command.TheVariants as command;
ghost use Rattle.map_server.specs.declared.change.Change.TheVariants as change;
ghost use Rattle.map_server.specs.Changes.{changed};
ghost use Rattle.map_server.specs.Replies.{IsReducible, answer_of, result_depth, result_term, sources_then};

use crate::change::{Change, Reply};
use crate::map_function::MapFunction;
use json_terms::{Chars, NoMemory, Term, Terms};
use map_lang::{parse_reduce, run_reduce, run_rereduce};
use std::alloc::Global;
use view_ports::{ReduceRows, answer_text, compilation_error_text, true_text};

/// The reply to `reset`.
pub fn forget(alloc: Global) -> Result<Reply, NoMemory>
    ensures { IfOk result (λ reply. IsTextOf is_true reply.text.items
        × (reply.change ≡ change.Clear)) }
{
    Ok(Reply {
        text: true_text(alloc)?,
        change: Change::Clear,
    })
}

/// The reply to `add_fun`.
pub fn add(alloc: Global, source: Chars) -> Result<Reply, NoMemory>
    ensures text { IfOk result (λ reply. (sources : List (List ℕ))
        → IsTextOf (answer_of sources (command.AddFun source)) reply.text.items) }
    ensures change { IfOk result (λ reply. (sources : List (List ℕ))
        → changed sources reply.change ≡ sources_then sources (command.AddFun source)) }
{
    match MapFunction::compile(alloc, source)? {
        Some(function) => Ok(Reply {
            text: true_text(alloc)?,
            change: Change::Add(function),
        }),
        None => Ok(Reply {
            text: compilation_error_text(alloc)?,
            change: Change::Nothing,
        }),
    }
}

/// The answer to `reduce`.
pub fn reduce(alloc: Global, source: Chars, rows: ReduceRows) -> Result<Vec<u8>, NoMemory>
    requires { IsReducible (command.Reduce source rows) }
    ensures { IfOk result (λ text. (sources : List (List ℕ))
        → IsTextOf (answer_of sources (command.Reduce source rows)) text.items) }
{
    let Some(how) = parse_reduce(source.as_str()) else {
        return compilation_error_text(alloc);
    };
    result_text(alloc, run_reduce(alloc, how, rows.as_slice())?)
}

/// The answer to `rereduce`.
pub fn rereduce(alloc: Global, source: Chars, values: Terms) -> Result<Vec<u8>, NoMemory>
    requires { IsReducible (command.Rereduce source values) }
    ensures { IfOk result (λ text. (sources : List (List ℕ))
        → IsTextOf (answer_of sources (command.Rereduce source values)) text.items) }
{
    let Some(how) = parse_reduce(source.as_str()) else {
        return compilation_error_text(alloc);
    };
    result_text(alloc, run_rereduce(alloc, how, values.as_slice())?)
}

/// `[true,[RESULT]]`.
fn result_text(alloc: Global, value: Term) -> Result<Vec<u8>, NoMemory>
    requires { depth (json value) ≤ result_depth }
    ensures { IfOk result (λ text. IsTextOf (result_term (json value)) text.items) }
{
    let mut results = Terms::with_capacity(alloc, 1)?;
    results.push(value)?;
    let mut answer = Terms::with_capacity(alloc, 2)?;
    answer.push(Term::True)?;
    answer.push(Term::Array(results))?;
    answer_text(alloc, &Term::Array(answer))
}
