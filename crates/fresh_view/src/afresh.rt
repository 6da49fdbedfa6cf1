//! The answer to a query by mapping every document.

ghost use Rattle.std.specs.Prelude.{◌≡◌, ◌++◌, Some, Err, IfOk, OnErr, OnOk, false, map, true};
ghost use Rattle.doc_file.specs.Changes.{numbered};
ghost use Rattle.map_server.specs.Pick.{pick};
ghost use Rattle.map_server.specs.Programs.{program_of};
ghost use Rattle.view_model.specs.Answer as print;
ghost use Rattle.view_model.specs.Values.{builtin_text};
ghost use Rattle.fresh_view.specs.Fresh.{fresh_rows};

use crate::fault::AfreshFault;
use crate::rows::rows_of_changes;
use design_docs::Builtin;
use doc_file::Change;
use map_lang::{ParseFault, Program, parse};
use query_args::Query;
use std::alloc::Global;
use view_model::plain_answer;

/// Appends the answer to a query of the view whose map source this is, without a newline. The changes are the last writes of
/// all ids in the order of their numbers, as `Docs::changed_since` gives them from 0, and `seq` is the sequence that is printed
/// where the query asks for it. Deletions and design documents give no rows. A change whose document is no object, which
/// no database has, is mapped as the object without members.
///
/// `DoesNotCompile` comes only where the source is no program of `pick`, and `NoMemory` where memory runs out. After both `out`
/// is as it was.
pub fn answer_afresh(
    alloc: Global,
    source: &str,
    reduce: Builtin,
    query: &Query,
    seq: u64,
    changes: &[Change],
    out: &mut Vec<u8>,
) -> Result<(), AfreshFault>
    ensures answers { OnOk result (out.new.items ≡ out.old.items
        ++ print.answer (builtin_text reduce) query.now seq (fresh_rows source.now (map numbered changes.now))) }
    ensures compiles { OnOk result (pick.compiles source.now ≡ true) }
    ensures refused { result ≡ Err AfreshFault.DoesNotCompile → pick.compiles source.now ≡ false }
    ensures silent { OnErr result (out.new.items ≡ out.old.items) }
{
    let program = compile(alloc, source)?;
    let rows = rows_of_changes(alloc, &program, changes)?;
    plain_answer(alloc, rows.as_slice(), Some(reduce), query, seq, out)?;
    Ok(())
}

/// The program that a map source compiles as.
fn compile(alloc: Global, source: &str) -> Result<Program, AfreshFault>
    ensures program { IfOk result (λ program. program_of source.now ≡ Some program) }
    ensures refused { result ≡ Err AfreshFault.DoesNotCompile → pick.compiles source.now ≡ false }
{
    match parse(alloc, source) {
        Ok(program) => Ok(program),
        Err(ParseFault::Refused) => Err(AfreshFault::DoesNotCompile),
        Err(ParseFault::NoMemory) => Err(AfreshFault::NoMemory),
    }
}
