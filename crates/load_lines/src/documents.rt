//! The documents as terms.

ghost use Rattle.std.specs.Prelude.{◌≡◌, ◌+◌, IfOk};
ghost use Rattle.design_docs.specs.Revision.{revision};
ghost use Rattle.json_terms.specs.Seen.{json};
ghost use Rattle.load_lines.specs.Documents.{document_id, document_of, raised_of};
ghost use Rattle.load_lines.specs.Documents.{load_map as map_source};

use doc_file::Rev;
use json_terms::{Chars, Members, NoMemory, Term};
use std::alloc::Global;

/// The source of the view's map function, in the language `pick`.
const LOAD_MAP: &str = "emit [doc.group, doc.amount], doc.amount";

/// The source of the map function of the load's one view, in the language `pick`.
pub fn load_map() -> &'static str
    ensures { result.now ≡ map_source }
{
    LOAD_MAP
}

/// Document `k` of this value. The one error is want of memory.
pub(crate) fn document(alloc: Global, k: u32, value: u32) -> Result<Term, NoMemory>
    ensures { IfOk result (λ t. json t ≡ document_of k value) }
{
    let mut members = Members::with_capacity(alloc, 3)?;
    members.push(Chars::from_text(alloc, "_id")?, Term::Text(id(alloc, k)?))?;
    members.push(
        Chars::from_text(alloc, "amount")?,
        Term::Int(i64::from(value / 10)),
    )?;
    members.push(
        Chars::from_text(alloc, "group")?,
        Term::Int(i64::from(value % 10)),
    )?;
    Ok(Term::Object(members))
}

/// The same document with its amount one greater, over the revision of its first write. The one error is want of memory.
pub(crate) fn raised(alloc: Global, k: u32, value: u32) -> Result<Term, NoMemory>
    ensures { IfOk result (λ t. json t ≡ raised_of k value) }
{
    let mut members = Members::with_capacity(alloc, 4)?;
    members.push(Chars::from_text(alloc, "_id")?, Term::Text(id(alloc, k)?))?;
    members.push(
        Chars::from_text(alloc, "_rev")?,
        Term::Text(first_revision(alloc, k)?),
    )?;
    members.push(
        Chars::from_text(alloc, "amount")?,
        Term::Int(i64::from(value / 10) + 1),
    )?;
    members.push(
        Chars::from_text(alloc, "group")?,
        Term::Int(i64::from(value % 10)),
    )?;
    Ok(Term::Object(members))
}

/// The revision of the first write of document `k`. The design document is write 1.
fn first_revision(alloc: Global, k: u32) -> Result<Chars, NoMemory>
    ensures { IfOk result (λ text. text ≡ revision 1 (k + 1)) }
{
    let rev = Rev {
        generation: 1,
        seq: u64::from(k) + 1,
    };
    Ok(Chars::new(rev.text(alloc)?))
}

/// `doc`, and `k` in six decimal digits. The one error is want of memory.
fn id(alloc: Global, k: u32) -> Result<Chars, NoMemory>
    ensures { IfOk result (λ text. text ≡ document_id k) }
{
    Ok(Chars::new(format!(in alloc; "doc{k:06}")?))
}
