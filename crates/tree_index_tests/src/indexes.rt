//! An index of three views in a folder in memory: what is asked of it, and what it shows.

ghost use Rattle.std.specs.Prelude.{◌≡◌, ◌<◌, IfOk, OnOk};
ghost use Rattle.crash_disk.specs.State.{told};
ghost use Rattle.tree_index_tests.specs.Indexes.{IsHeld};

use child_pool::{Pool, ReduceSlot, Summers};
use crash_disk::MemoryFolder;
use design_docs::{Design, DesignFault, read_design};
use gate_file::GateFault;
use json_terms::{Chars, Emissions, NoMemory, Row, RowLists, copy_term, read_term, write_term};
use node_file::NodeCache;
use std::alloc::Global;
use std::mem::replace;
use std::sync::ledger::{Blank, Ledger};
use std::test::Fail;
use tree_index::{DocRows, Index, IndexFault};
use tree_laws::Steps;
use view_ports::{Answer, FieldServers, FileName, Folder, ScriptServers, Servers, Stem};

pub const SIG: [u8; 32] = *b"0123456789abcdef0123456789abcdef";

/// The file that has the rows: the other side of the pair is never made.
pub const FILE: FileName = FileName {
    stem: Stem::View(SIG),
    side: false,
};

/// A view with a reduce that is built in, one without a reduce, and one whose reduce a query server runs.
const DESIGN: &str =
    r#"{"_id":"_design/d","language":"field","views":{"v":{"map":"a","reduce":"_sum"},"w":{"map":"b"},"x":{"map":"c","reduce":"rows"}}}"#;

pub const VIEWS: u32 = 3;

/// A document, and for each view the text of the keys and values that it has there.
pub type Doc = (&'static str, [&'static str; 3]);

/// What is asked of an index.
pub enum Request {
    /// To be opened again, with this newest write.
    Open(u64),
    /// To exchange the rows of these documents, where query servers give these lines.
    Replace(&'static [Doc], &'static [&'static str]),
    /// The same through query servers by which no reduce compiles.
    ReplaceByField(&'static [Doc]),
    /// A commit at this sequence.
    Commit(u64),
    RollBack,
    /// To be removed, and opened again.
    Remove,
}

/// A request, what the index shows then, and how long its file is. The first is the sequence and the rows of each view, each behind a
/// bar, and before them a refusal, if there was one.
pub type Turn = (Request, &'static str, u64);

/// What is seen of a turn: how many calls on the folder were noted before the request and behind it, what the index shows, and how long
/// its file is.
#[derive(Drop)]
pub struct Seen {
    pub before: u64,
    pub behind: u64,
    pub text: Vec<u8>,
    pub length: u64,
}

/// A folder, and what requests on an index need beside it.
#[derive(Drop)]
pub struct Bench<L: Ledger> {
    pub folder: MemoryFolder,
    design: Design,
    cache: NodeCache,
    steps: Steps<L>,
}

fn design_of(alloc: Global) -> Result<Design, Fail> {
    let document = read_term(alloc, DESIGN.as_bytes())?;
    match read_design(alloc, &document) {
        Ok(design) => Ok(design),
        Err(DesignFault::NoMemory) => Err(Fail::from(NoMemory)),
        Err(_fault) => Err(Fail::from("no design")),
    }
}

impl<L: Ledger> Bench<L> {
    /// A new folder in memory.
    pub fn new(alloc: Global, blank: Blank) -> Result<Bench<L>, Fail>
        requires name { blank.name ≡ L.name }
        requires parts { blank.parts ≡ L.parts }
        requires some { 0 < L.parts }
    {
        Ok(Bench {
            folder: MemoryFolder::new(alloc, Vec::new(alloc), false)?,
            design: design_of(alloc)?,
            cache: NodeCache::new(alloc, 16)?,
            steps: Steps::<L>::new(blank),
        })
    }

    /// Takes another folder, and gives the one that it had.
    pub fn take(&mut self, folder: MemoryFolder) -> MemoryFolder {
        self.cache.forget();
        replace(&mut self.folder, folder)
    }
}

/// The keys and values of a text such as `[["a",1],["b",2]]`. A text of another kind is told as want of memory.
fn emissions_of(alloc: Global, text: &str) -> Result<Emissions, NoMemory> {
    let Ok(list) = read_term(alloc, text.as_bytes()) else {
        return Err(NoMemory);
    };
    let mut emissions = Emissions::new(alloc);
    for pair in list.as_array().unwrap_or(&[]) {
        let Some([key, value]) = pair.as_array() else {
            return Err(NoMemory);
        };
        emissions.push(copy_term(alloc, key)?, copy_term(alloc, value)?)?;
    }
    Ok(emissions)
}

/// The rows of a document, by a text for each view.
pub fn change_of(alloc: Global, id: &str, lists: &[&str; 3]) -> Result<DocRows, NoMemory> {
    let mut rows = RowLists::new(alloc);
    for text in lists {
        rows.push(emissions_of(alloc, text)?)?;
    }
    Ok(DocRows {
        id: Chars::from_text(alloc, id)?,
        rows,
    })
}

pub fn changes_of(alloc: Global, docs: &[Doc]) -> Result<Vec<DocRows>, NoMemory> {
    let mut changes = Vec::new(alloc);
    for (id, lists) in docs {
        changes.push(change_of(alloc, id, lists)?)?;
    }
    Ok(changes)
}

/// Query servers that give these lines.
pub fn servers_of(alloc: Global, lines: &[&str]) -> Result<ScriptServers, NoMemory> {
    let mut answers = Vec::new(alloc);
    for line in lines {
        answers.push(Answer::Line(Chars::from_text(alloc, line)?))?;
    }
    ScriptServers::new(alloc, answers)
}

/// Opens the index.
pub fn open<L: Ledger>(
    alloc: Global,
    bench: &mut Bench<L>,
    newest: u64,
) -> Result<Index, IndexFault>
    ensures { IfOk result (λ index. IsHeld index (told bench.new.folder)) }
{
    Index::open(alloc, &mut bench.folder, SIG, VIEWS, newest)
}

/// Exchanges the rows, and answers why a reduce gave up, or nothing.
pub fn exchange<C: Servers, L: Ledger>(
    alloc: Global,
    bench: &mut Bench<L>,
    index: &mut Index,
    changes: &[DocRows],
    servers: &mut C,
) -> Result<String, IndexFault>
    requires { IsHeld index.old (told bench.old.folder) }
    ensures { OnOk result (IsHeld index.new (told bench.new.folder)) }
{
    let mut pool = Pool::new(alloc, 1, &[])?;
    let mut summers = Summers {
        slot: ReduceSlot::over(&mut pool, servers),
        design: &bench.design,
        view: 0,
    };
    let done = index.replace(
        alloc,
        &mut bench.folder,
        &mut bench.cache,
        &mut summers,
        changes,
        &mut bench.steps,
    );
    match done {
        Ok(()) => Ok(String::new(alloc)),
        Err(IndexFault::Summer(fault)) => Ok(format!(in alloc; "{fault}|")?),
        Err(fault) => Err(fault),
    }
}

pub fn commit<L: Ledger>(
    alloc: Global,
    bench: &mut Bench<L>,
    index: &mut Index,
    seq: u64,
) -> Result<(), IndexFault>
    requires { IsHeld index.old (told bench.old.folder) }
    ensures { OnOk result (IsHeld index.new (told bench.new.folder)) }
{
    index.commit(alloc, &mut bench.folder, seq)
}

fn roll_back<L: Ledger>(bench: &Bench<L>, index: &mut Index)
    requires { IsHeld index.old (told bench.now.folder) }
    ensures { IsHeld index.new (told bench.now.folder) }
{
    index.roll_back();
}

/// Makes a request, and answers why it was refused, or nothing.
fn act<L: Ledger>(
    alloc: Global,
    bench: &mut Bench<L>,
    index: &mut Index,
    request: &Request,
) -> Result<String, IndexFault>
    requires { IsHeld index.old (told bench.old.folder) }
    ensures { OnOk result (IsHeld index.new (told bench.new.folder)) }
{
    match request {
        Request::Replace(docs, lines) => {
            let changes = changes_of(alloc, docs)?;
            let mut servers = servers_of(alloc, lines)?;
            return exchange(alloc, bench, index, &changes, &mut servers);
        }
        Request::ReplaceByField(docs) => {
            let changes = changes_of(alloc, docs)?;
            let mut servers = FieldServers::new(alloc, Vec::new(alloc))?;
            return exchange(alloc, bench, index, &changes, &mut servers);
        }
        Request::Open(newest) => *index = open(alloc, bench, *newest)?,
        Request::Commit(seq) => commit(alloc, bench, index, *seq)?,
        Request::RollBack => roll_back(bench, index),
        Request::Remove => {
            Index::remove(&mut bench.folder, SIG)?;
            *index = open(alloc, bench, u64::MAX)?;
        }
    }
    Ok(String::new(alloc))
}

/// Appends the key, the document, the place and the value of each row.
fn put_rows(alloc: Global, rows: &[Row], text: &mut Vec<u8>) -> Result<(), NoMemory> {
    for row in rows {
        write_term(alloc, &row.key, text)?;
        let place = format!(in alloc; " {} {} ", row.id.as_str(), row.place)?;
        text.extend_from_slice(place.as_bytes())?;
        write_term(alloc, &row.value, text)?;
        text.push(b';')?;
    }
    Ok(())
}

/// Appends the rows of a view, or nothing where there is no such view.
pub fn put_view<L: Ledger>(
    alloc: Global,
    bench: &mut Bench<L>,
    index: &Index,
    view: u32,
    text: &mut Vec<u8>,
) -> Result<(), IndexFault>
    requires { IsHeld index.now (told bench.old.folder) }
    ensures { OnOk result (IsHeld index.now (told bench.new.folder)) }
{
    if view as usize >= index.views() {
        return Ok(());
    }
    let rows = index.rows(
        alloc,
        &mut bench.folder,
        &mut bench.cache,
        view,
        &mut bench.steps,
    )?;
    put_rows(alloc, &rows, text)?;
    Ok(())
}

/// Appends the sequence and the rows of each view, each behind a bar.
pub fn put_shown<L: Ledger>(
    alloc: Global,
    bench: &mut Bench<L>,
    index: &Index,
    text: &mut Vec<u8>,
) -> Result<(), IndexFault>
    requires { IsHeld index.now (told bench.old.folder) }
    ensures { OnOk result (IsHeld index.now (told bench.new.folder)) }
{
    let seq = index.seq().to_string(alloc)?;
    text.extend_from_slice(seq.as_bytes())?;
    for view in 0..VIEWS {
        text.push(b'|')?;
        put_view(alloc, bench, index, view, text)?;
    }
    Ok(())
}

/// Opens the index, and answers what is seen of each turn.
pub fn play<L: Ledger>(
    alloc: Global,
    bench: &mut Bench<L>,
    turns: &[Turn],
) -> Result<Vec<Seen>, IndexFault> {
    let mut index = open(alloc, bench, u64::MAX)?;
    let mut all = Vec::new(alloc);
    for (request, ..) in turns {
        let before = bench.folder.calls_noted();
        let refusal = act(alloc, bench, &mut index, request)?;
        let behind = bench.folder.calls_noted();
        let mut text = Vec::from_slice(alloc, refusal.as_bytes())?;
        put_shown(alloc, bench, &index, &mut text)?;
        all.push(Seen {
            before,
            behind,
            text,
            length: length(bench, &index)?,
        })?;
    }
    Ok(all)
}

/// How long the file of the index is.
pub fn length<L: Ledger>(bench: &mut Bench<L>, index: &Index) -> Result<u64, IndexFault>
    requires { IsHeld index.now (told bench.old.folder) }
    ensures { OnOk result (IsHeld index.now (told bench.new.folder)) }
{
    match bench.folder.len(index.name()) {
        Ok(length) => Ok(length),
        Err(fault) => Err(IndexFault::from(GateFault::from(fault))),
    }
}
