//! Documents, query servers and an index in memory: what is written, what is asked, and what the index shows after an update.

use change_mapper::{DocRows, MappingFault, map_changes};
use child_pool::{Pool, PoolFault};
use crash_disk::MemoryFolder;
use design_docs::{Design, DesignFault, read_design};
use doc_file::{DocFault, Docs, Rev};
use json_terms::{NoMemory, Row, Term, read_term, write_term};
use node_file::NodeCache;
use std::alloc::Global;
use std::sync::ledger::Ledger;
use std::test::Fail;
use test_tools::same_text;
use tree_groups::Groups;
use tree_index::{Index, IndexFault};
use tree_laws::Steps;
use tree_updater::{UpdateFault, update};
use view_ports::FieldServers;
use view_signature::signature;

/// Two views, of the members `a` and `b`.
const DESIGN: &str =
    r#"{"_id":"_design/d","language":"field","views":{"v":{"map":"a"},"w":{"map":"b"}}}"#;

/// More views than any design here has.
const MANY: usize = 32;

/// A document: its id, its other members, each behind a comma, and the revision that it is put over.
#[derive(Clone, Copy)]
pub struct Doc<'a> {
    pub id: &'a str,
    pub members: &'a str,
    pub over: Option<Rev>,
}

/// What an index is brought up to date from.
#[derive(Drop)]
pub struct Bench {
    pub folder: MemoryFolder,
    servers: FieldServers,
    pool: Pool,
    design: Design,
}

fn design_of(alloc: Global) -> Result<Design, NoMemory> {
    let document = read_term(alloc, DESIGN.as_bytes()).unwrap_or(Term::Null);
    match read_design(alloc, &document) {
        Ok(design) => Ok(design),
        Err(_fault) => Err(NoMemory),
    }
}

/// The text of a document.
fn text_of(alloc: Global, doc: &Doc) -> Result<String, NoMemory> {
    let mut text = String::new(alloc);
    text.push_str("{\"_id\":\"")?;
    text.push_str(doc.id)?;
    text.push_str("\"")?;
    if let Some(rev) = doc.over {
        text.push_str(",\"_rev\":\"")?;
        text.push_str(rev.text(alloc)?.as_str())?;
        text.push_str("\"")?;
    }
    text.push_str(doc.members)?;
    text.push_str("}")?;
    Ok(text)
}

/// Appends the key, the id and the place of each row.
fn put_rows(alloc: Global, rows: &[Row], text: &mut Vec<u8>) -> Result<(), NoMemory> {
    text.push(b'[')?;
    for row in rows {
        write_term(alloc, &row.key, text)?;
        text.push(b' ')?;
        text.extend_from_slice(row.id.as_str().as_bytes())?;
        text.push(b' ')?;
        text.extend_from_slice(row.place.to_string(alloc)?.as_bytes())?;
        text.push(b';')?;
    }
    text.push(b']')?;
    Ok(())
}

/// The sequence of an index, and the rows of its views.
fn text_shown<L: Ledger>(
    alloc: Global,
    folder: &mut MemoryFolder,
    cache: &mut NodeCache,
    index: &Index,
    steps: &mut Steps<L>,
) -> Result<Vec<u8>, IndexFault> {
    let mut text = Vec::new(alloc);
    text.extend_from_slice(index.seq().to_string(alloc)?.as_bytes())?;
    for view in 0..index.views() {
        if view < MANY {
            let rows = index.rows(alloc, folder, cache, view as u32, steps)?;
            put_rows(alloc, &rows, &mut text)?;
        }
    }
    Ok(text)
}

impl Bench {
    /// A folder, and servers of which the calls with these numbers fail.
    pub fn new(alloc: Global, folder: MemoryFolder, fail: &[u64]) -> Result<Bench, NoMemory> {
        Ok(Bench {
            folder,
            servers: FieldServers::new(alloc, fail.to_vec(alloc)?)?,
            pool: Pool::new(alloc, 1, &[])?,
            design: design_of(alloc)?,
        })
    }

    /// Puts a document, or deletes it where its member `_deleted` is true.
    pub fn put(&mut self, alloc: Global, doc: &Doc) -> Result<(), DocFault> {
        let text = text_of(alloc, doc)?;
        let mut docs = Docs::open(alloc, &mut self.folder)?;
        let document = read_term(alloc, text.as_str().as_bytes()).unwrap_or(Term::Null);
        docs.put(alloc, &mut self.folder, document)?;
        Ok(())
    }

    /// How many writes the documents have had.
    pub fn written(&mut self, alloc: Global) -> Result<u64, DocFault> {
        let docs = Docs::open(alloc, &mut self.folder)?;
        Ok(docs.info().update_seq)
    }

    /// Opens the documents and the index of the design, and updates it. What it shows then is in `shown`, also where the query servers
    /// refuse the update.
    pub fn update<L: Ledger>(
        &mut self,
        alloc: Global,
        cache: &mut NodeCache,
        steps: &mut Steps<L>,
        shown: &mut Vec<u8>,
    ) -> Result<(), UpdateFault> {
        let docs = match Docs::open(alloc, &mut self.folder) {
            Ok(docs) => docs,
            Err(fault) => return Err(UpdateFault::from(MappingFault::from(fault))),
        };
        let Ok(sig) = self.signature(alloc) else {
            return Err(UpdateFault::NoMemory);
        };
        let views = self.design.views.len();
        if views > MANY {
            return Err(UpdateFault::NoMemory);
        }
        let newest = docs.info().update_seq;
        let mut index = Index::open(alloc, &mut self.folder, sig, views as u32, newest)?;
        let done = update(
            alloc,
            &mut self.folder,
            cache,
            &mut self.servers,
            &mut self.pool,
            &docs,
            &self.design,
            &mut index,
            steps,
        );
        *shown = text_shown(alloc, &mut self.folder, cache, &index, steps)?;
        done
    }

    /// The signature of the design.
    pub fn signature(&self, alloc: Global) -> Result<[u8; 32], NoMemory> {
        signature(alloc, &self.design)
    }

    /// Opens the documents, and brings the index of the design up to date, of which none is open before. What it shows then is answered.
    pub fn bring<L: Ledger>(
        &mut self,
        alloc: Global,
        cache: &mut NodeCache,
        steps: &mut Steps<L>,
    ) -> Result<Vec<u8>, Fail> {
        let docs = Docs::open(alloc, &mut self.folder)?;
        if self.design.views.len() > MANY {
            return Err(Fail::from(NoMemory));
        }
        let mut groups = Groups::new(alloc);
        let place = groups.update(
            alloc,
            &mut self.folder,
            cache,
            &mut self.servers,
            &mut self.pool,
            &docs,
            &self.design,
            steps,
        )?;
        let index = groups.index(place);
        Ok(text_shown(alloc, &mut self.folder, cache, index, steps)?)
    }

    /// What the index of the design shows as it is opened.
    pub fn found<L: Ledger>(
        &mut self,
        alloc: Global,
        cache: &mut NodeCache,
        steps: &mut Steps<L>,
    ) -> Result<Vec<u8>, Fail> {
        let docs = Docs::open(alloc, &mut self.folder)?;
        if self.design.views.len() > MANY {
            return Err(Fail::from(NoMemory));
        }
        let mut groups = Groups::new(alloc);
        let place = groups.open(alloc, &mut self.folder, &docs, &self.design)?;
        let index = groups.index(place);
        Ok(text_shown(alloc, &mut self.folder, cache, index, steps)?)
    }

    /// Removes the indexes of all signatures but these.
    pub fn clean_up(&mut self, alloc: Global, kept: &[[u8; 32]]) -> Result<(), Fail> {
        let mut groups = Groups::new(alloc);
        groups.clean_up(alloc, &mut self.folder, kept)?;
        Ok(())
    }

    /// Maps the documents that were written since a sequence.
    pub fn map_since(
        &mut self,
        alloc: Global,
        docs: &Docs,
        seq: u64,
    ) -> Result<Vec<DocRows>, MappingFault> {
        if self.design.views.len() > MANY {
            return Err(MappingFault::NoMemory);
        }
        map_changes(
            alloc,
            &mut self.folder,
            &mut self.servers,
            &mut self.pool,
            docs,
            &self.design,
            seq,
        )
    }
}

/// Updates the index, and answers whether the servers' fault refuses that. Then it shows what it did before, and a further update isn't
/// refused.
pub fn is_refused<L: Ledger>(
    alloc: Global,
    bench: &mut Bench,
    cache: &mut NodeCache,
    steps: &mut Steps<L>,
    texts: [&str; 2],
) -> Result<bool, Fail> {
    let [before, after] = texts;
    let mut shown = Vec::new(alloc);
    let refused = match bench.update(alloc, cache, steps, &mut shown) {
        Ok(()) => false,
        Err(UpdateFault::Pool(PoolFault::ServerFault)) => true,
        Err(fault) => return Err(Fail::from(fault)),
    };
    if refused {
        same_text(Ok(String::from_utf8(shown)?), before, "refused")?;
        shown = Vec::new(alloc);
        bench.update(alloc, cache, steps, &mut shown)?;
    }
    same_text(Ok(String::from_utf8(shown)?), after, "updated")?;
    Ok(refused)
}
