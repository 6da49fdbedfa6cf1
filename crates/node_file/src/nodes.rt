//! Putting nodes into a file, and getting them.

ghost use Rattle.std.specs.Prelude.{◌≡◌, ◌≢◌, ◌↔◌, ◌+◌, ◌<◌, ◌≤◌, ◌^◌, None, Some, length, IfErr, IfOk, IsTrue, OnErr, OnOk};
ghost use Rattle.gate_file.specs.Calls.{too_long, Appends, IsCounted, IsReadFault, KeepsIn, Moved, ReadsUpTo, Told};
ghost use Rattle.gate_file.specs.GateFile.{appended, start_of};
ghost use Rattle.gate_file.specs.Publish.{IsTooLong};
ghost use Rattle.view_ports.specs.Disk.{MovesNone};
ghost use Rattle.tree_laws.specs.Nodes.{sized};
ghost use Rattle.node_file.specs.Cache.{NotesGet, NotesPut};
ghost use Rattle.node_file.specs.Puts.{IsPutFault, Puts};
ghost use Rattle.node_file.specs.Records.{node_at};

use crate::cache::NodeCache;
use crate::record::{find_record, record_of};
use gate_file::{GateFault, GateFile, MAX_LENGTH};
use std::alloc::Global;
use view_ports::{FileName, Folder};

/// Adds a record of these bytes at the end of the file, by one write, and answers where it stands: at the end of the file, or
/// behind the slots of a new one, which is first made with 8,192 bytes that come on top. At each moment a crash leaves the root
/// and what was durable. It reads nothing.
///
/// `Full` comes with the file's length exactly where the record, its bytes and 8 more, would make it pass 2^40 bytes, and
/// `DiskFault` where the folder failed; after that one the object is not to be used again. The other error is want of memory.
/// Nothing was done where it isn't the folder that failed.
pub fn put_node<F: Folder>(
    alloc: Global,
    cache: &mut NodeCache,
    folder: &mut F,
    file: &mut GateFile,
    bytes: &[u8],
) -> Result<u64, GateFault>
    requires { Told F.Folder folder.old (KeepsIn file.old) }
    ensures place { IfOk result (λ at. at ≡ start_of file.old) }
    ensures done { OnOk result (file.new ≡ appended file.old (length bytes.now + 8)) }
    ensures disk { Moved F.Folder folder.old folder.new (Appends file.old (sized bytes.now) result) }
    ensures nodes { Moved F.Folder folder.old folder.new (Puts file.old bytes.now result) }

    // It fails exactly where the file would be too long, where the disk fails and where memory runs out.
    ensures full { IsTooLong file.old (length bytes.now + 8) ↔ (result ≡ Err (too_long file.old)) }
    ensures faults { IfErr result (IsPutFault file.old) }
    ensures cause { IsCounted F.Folder folder.old folder.new result }

    ensures err { OnErr result (file.new ≡ file.old) }
    ensures untouched { IfErr result (λ e. e ≢ GateFault.DiskFault → folder.new ≡ folder.old) }
    ensures reads { F.reads folder.new ≡ F.reads folder.old }
    ensures cache { NotesPut bytes.now cache.old cache.new }
{
    cache.note_put(bytes);
    if !has_room(file, bytes.len() as u64) {
        return Err(GateFault::Full {
            name: file.name(),
            length: Some(file.length()),
        });
    }
    let record = record_of(alloc, bytes)?;
    file.append(folder, record.as_slice())
}

// Whether the file may get a record of so many bytes.
fn has_room(file: &GateFile, count: u64) -> bool
    ensures { IsTrue result ↔ (start_of file.now + (count + 8) ≤ 2 ^ 40) }
{
    let start = file.start();
    start <= MAX_LENGTH - 8 && count <= MAX_LENGTH - 8 - start
}

/// The bytes of the record at a place of a file. The folder's number of reads rises by two at most.
///
/// The file is `Damaged` at this place exactly where no whole record stands there: before the slots end, or where the file has
/// fewer bytes than the record's length and the bytes behind it. `DiskFault` comes where the folder failed, and the other error
/// is want of memory, which is taken only for a record that is whole.
pub fn get_node<F: Folder>(
    alloc: Global,
    cache: &mut NodeCache,
    folder: &mut F,
    name: FileName,
    at: u64,
) -> Result<Vec<u8>, GateFault>
    ensures bytes { Told F.Folder folder.old
        (λ d. IfOk result (λ bytes. node_at (d.now name).seen at ≡ Some bytes.items)) }
    ensures damaged { Told F.Folder folder.old
        (λ d. result ≡ Err (GateFault.Damaged name at) → node_at (d.now name).seen at ≡ None) }
    ensures faults { IfErr result (IsReadFault name at) }
    ensures disk { Moved F.Folder folder.old folder.new MovesNone }
    ensures cause { IsCounted F.Folder folder.old folder.new result }
    ensures reads { ReadsUpTo F.Folder 2 folder.old folder.new }
    ensures cache { NotesGet at cache.old cache.new }
{
    cache.note_get(at);
    match find_record(alloc, folder, name, at)? {
        Some(bytes) => Ok(bytes),
        None => Err(GateFault::Damaged { name, offset: at }),
    }
}
