//! Files of documents, calls on documents that are opened anew, and their outcomes as bytes.

use crash_disk::MemoryFolder;
use doc_file::{Changes, DocFault, Docs, Rev};
use gate_file::{GateFault, GateFile};
use json_terms::{NoMemory, read_term, write_term};
use std::alloc::Global;
use std::test::Fail;
use view_ports::{FileName, Folder, Stem};

pub const DOCS: FileName = FileName {
    stem: Stem::Docs,
    side: false,
};

/// A file with bodies at 8,192 and then a root record.
fn commit<F: Folder>(folder: &mut F, bodies: &[u8], root: &[u8]) -> Result<(), GateFault> {
    let mut file = GateFile::open(folder, Stem::Docs)?;
    file.append(folder, bodies)?;
    let at = file.append(folder, root)?;
    file.commit(folder, at, root.len() as u64)
}

/// A folder whose file has the bodies and the root record.
pub fn folder_of(alloc: Global, bodies: &[u8], root: &[u8]) -> Result<MemoryFolder, Fail> {
    let mut folder = MemoryFolder::new(alloc, Vec::new(alloc), false)?;
    commit(&mut folder, bodies, root)?;
    Ok(folder)
}

/// The bytes that a call answered, or the fault as it is printed, and of damage its place in the file.
pub fn told(alloc: Global, outcome: Result<Vec<u8>, DocFault>) -> Result<Vec<u8>, Fail> {
    match outcome {
        Ok(bytes) => Ok(bytes),
        Err(DocFault::Gate(GateFault::Damaged { name, offset })) if name == DOCS => {
            Ok(format!(in alloc; "damaged at {offset}")?.into_bytes())
        }
        Err(fault) => Ok(format!(in alloc; "{fault:?}")?.into_bytes()),
    }
}

/// Puts the document with this text.
pub fn put<F: Folder>(alloc: Global, folder: &mut F, text: &str) -> Result<Rev, DocFault> {
    let mut docs = Docs::open(alloc, folder)?;
    match read_term(alloc, text.as_bytes()) {
        Ok(document) => docs.put(alloc, folder, document),
        Err(_fault) => Err(DocFault::NoMemory),
    }
}

pub fn delete<F: Folder>(
    alloc: Global,
    folder: &mut F,
    id: &str,
    rev: Option<&str>,
) -> Result<Rev, DocFault> {
    let mut docs = Docs::open(alloc, folder)?;
    docs.delete(alloc, folder, id, rev)
}

/// Each change as its number, its id, and its document or a dash.
fn text_of(alloc: Global, changes: Changes) -> Result<Vec<u8>, NoMemory> {
    let mut text = Vec::new(alloc);
    for change in changes.as_slice() {
        text.extend_from_slice(change.seq.to_string(alloc)?.as_bytes())?;
        text.extend_from_slice(change.id.as_str().as_bytes())?;
        match &change.doc {
            Some(document) => write_term(alloc, document, &mut text)?,
            None => text.push(b'-')?,
        }
    }
    Ok(text)
}

/// The text of the next changes since a write.
pub fn since<F: Folder>(
    alloc: Global,
    folder: &mut F,
    seq: u64,
    n: u32,
) -> Result<Vec<u8>, DocFault> {
    let docs = Docs::open(alloc, folder)?;
    Ok(text_of(alloc, docs.changed_since(alloc, folder, seq, n)?)?)
}
