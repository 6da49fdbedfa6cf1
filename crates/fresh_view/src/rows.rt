//! The rows that a program gives of documents.

ghost use Rattle.std.specs.Prelude.{◌≡◌, ◌∷◌, ◌++◌, [], IfOk, OnOk, map};
ghost use Rattle.std.specs.List.{flat_map};
ghost use Rattle.json_terms.specs.Json.{members_of, no_members, object};
ghost use Rattle.json_terms.specs.Seen.{json};
ghost use Rattle.doc_file.specs.Changes.{numbered};
ghost use Rattle.query_protocol.specs.CommandLines.{document_of};
ghost use Rattle.view_model.specs.Rows.{rows_from};
ghost use Rattle.view_model.specs.Since.{mapped_of};
ghost use Rattle.fresh_view.specs.Programs.{emitted_by_program, program_rows};

use design_docs::is_design_id;
use doc_file::Change;
use json_terms::{Chars, Emission, Emissions, Members, NoMemory, Row, Term};
use map_lang::{Program, run_map};
use std::alloc::Global;

/// The rows of all documents that these changes leave to be mapped, in the order of the changes.
pub(crate) fn rows_of_changes(
    alloc: Global,
    program: &Program,
    changes: &[Change],
) -> Result<Vec<Row>, NoMemory>
    ensures { IfOk result (λ rows. rows.items ≡ flat_map (program_rows program.now)
        (mapped_of (map numbered changes.now))) }
{
    let mut rows = Vec::new(alloc);
    for change in changes {
        add_change(alloc, program, change, &mut rows)?;
    }
    Ok(rows)
}

/// Adds the rows of the document that a change leaves to be mapped, if it leaves one.
fn add_change(
    alloc: Global,
    program: &Program,
    change: &Change,
    rows: &mut Vec<Row>,
) -> Result<(), NoMemory>
    ensures { OnOk result (rows.new.items ≡ rows.old.items ++ flat_map (program_rows program.now)
        (mapped_of (numbered change.now ∷ []))) }
{
    match &change.doc {
        Some(document) if !is_design_id(change.id.as_str()) => {
            let emissions = emissions_of(alloc, program, document)?;
            add_rows(alloc, change.id.as_str(), emissions, rows)
        }
        _ => Ok(()),
    }
}

/// What a program emits for a document. What is no object is mapped as the object without members.
fn emissions_of(alloc: Global, program: &Program, document: &Term) -> Result<Emissions, NoMemory>
    ensures { IfOk result (λ emissions. emissions ≡ emitted_by_program program.now (json document.now)) }
{
    let empty = Term::Object(Members::new(alloc));
    let mut lists = run_map(alloc, program, object_of(document, &empty))?.into_vec();
    let Some(emissions) = lists.pop() else {
        unreachable!();
    };
    Ok(emissions)
}

/// The document, or the object without members where it is no object.
fn object_of<'a>(document: &'a Term, empty: &'a Term) -> &'a Term
    requires { json empty.now ≡ object no_members }
    ensures { json result.now ≡ object (members_of (document_of (json document.now))) }
{
    match document {
        Term::Object(_) => document,
        _ => empty,
    }
}

/// Adds the rows of a document, numbered by place. A program emits fewer than 2^32.
fn add_rows(
    alloc: Global,
    id: &str,
    emissions: Emissions,
    rows: &mut Vec<Row>,
) -> Result<(), NoMemory>
    ensures { OnOk result (rows.new.items ≡ rows.old.items ++ rows_from 0 id.now emissions) }
{
    let mut place: u32 = 0;
    for emission in emissions.into_vec() {
        let Emission { key, value } = emission;
        rows.push(Row {
            key,
            id: Chars::from_text(alloc, id)?,
            place,
            value,
        })?;
        place = place.checked_add(1).ok_or(NoMemory)?;
    }
    Ok(())
}
