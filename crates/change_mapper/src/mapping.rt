//! The rows of what was written since a sequence.

ghost use Rattle.std.specs.Prelude.{◌<◌, ◌^◌, length, Vec};
ghost use Rattle.change_mapper.specs.Mapped.{listed, outer, MapsChanges};
ghost use Rattle.change_mapper.specs.Pages.{MapsPage, ReadsPage};

use crate::changed::{add_rows, changed_of};
use crate::fault::MappingFault;
use child_pool::Pool;
use design_docs::Design;
use doc_file::{Changes, Docs};
use row_exchange::DocRows;
use std::alloc::Global;
use view_ports::{Folder, Servers};

/// How many last writes are read and mapped at once: 64 MiB of documents at most.
const PAGE: u32 = 128;

/// How far the writes are mapped.
#[derive(Clone, Copy)]
struct Progress {
    // The writes up to this number are mapped.
    after: u64,
    // Whether any of them left a document to be mapped.
    begun: bool,
}

/// The rows of the documents whose last write came after a sequence, in the order of these writes: what each view of the design emits
/// for a document, and nothing for a deletion or a design document. No other document is mapped; where none was written nothing is
/// asked.
///
/// The writes are taken in pages of 128, so that no more documents than these are held at once, and the rows of all.
///
/// `Pool` hands on why the query servers gave up, and `Docs` why the documents could not be read: the disk failed, or the body of a
/// last write is damaged, which never comes over documents that are at a history. The other error is want of memory. The pool's
/// languages and width never change.
pub fn map_changes<F: Folder, C: Servers>(
    alloc: Global,
    folder: &mut F,
    servers: &mut C,
    pool: &mut Pool,
    docs: &Docs,
    design: &Design,
    seq: u64,
) -> Result<Vec<DocRows>, MappingFault>
    requires few { length design.now.views < 2 ^ 32 }
    ensures { MapsChanges F.Folder C.Servers docs.now design.now seq
        (outer folder.old servers.old pool.old) (outer folder.new servers.new pool.new) (listed result) }
{
    let mut rows = Vec::new(alloc);
    let mut progress = Progress {
        after: seq,
        begun: false,
    };
    while let Some(next) = map_page(
        alloc, folder, servers, pool, docs, design, progress, &mut rows,
    )? {
        progress = next;
    }
    Ok(rows)
}

/// Maps the documents of the next page of writes, and adds their rows. There is no further page behind one that isn't full.
fn map_page<F: Folder, C: Servers>(
    alloc: Global,
    folder: &mut F,
    servers: &mut C,
    pool: &mut Pool,
    docs: &Docs,
    design: &Design,
    progress: Progress,
    rows: &mut Vec<DocRows>,
) -> Result<Option<Progress>, MappingFault>
    requires few { length design.now.views < 2 ^ 32 }
    ensures { MapsPage F.Folder C.Servers docs.now design.now
        (outer folder.old servers.old pool.old) (outer folder.new servers.new pool.new) progress rows.old.items rows.new.items result }
{
    let page = read_page(alloc, folder, docs, progress.after)?;
    let count = page.len();
    let after = page.last_seq(progress.after);
    let changed = changed_of(alloc, page)?;
    let documents = changed.documents.as_slice();
    let begun = progress.begun | !documents.is_empty();
    let lists = pool.map_next(alloc, servers, design, documents, progress.begun)?;
    add_rows(alloc, changed.written, lists, design.views.len(), rows)?;
    if count < PAGE as usize {
        return Ok(None);
    }
    Ok(Some(Progress { after, begun }))
}

/// The next page of last writes since a sequence.
fn read_page<F: Folder>(
    alloc: Global,
    folder: &mut F,
    docs: &Docs,
    seq: u64,
) -> Result<Changes, MappingFault>
    ensures { ReadsPage F.Folder docs.now folder.old folder.new seq PAGE result }
{
    Ok(docs.changed_since(alloc, folder, seq, PAGE)?)
}
