//! Records of a file: bytes behind their length.

ghost use Rattle.std.specs.Prelude.{◌≡◌, ◌⊎◌, ◌+◌, ◌≤◌, Some, IfErr, IfOk, drop, length, option_map, take};
ghost use Rattle.gate_file.specs.Calls.{IsCounted, Moved, ReadsUpTo, Told};
ghost use Rattle.view_ports.specs.Causes.{one_more};
ghost use Rattle.view_ports.specs.Disk.{MovesNone};
ghost use Rattle.view_ports.specs.Faults.{CountsOnce, HasCause};
ghost use Rattle.view_ports.specs.FolderCalls.{Passes};
ghost use Rattle.tree_laws.specs.Nodes.{sized};
ghost use Rattle.node_file.specs.Records.{node_at, size_in};

use gate_file::GateFault;
use json_terms::NoMemory;
use std::alloc::Global;
use view_ports::{FileName, Folder, PortFault};

/// Where the records of a file begin: behind its slots.
const FIRST: u64 = 8192;

/// How many bytes the length of a record takes.
const HEAD: u64 = 8;

/// The bytes of a record.
pub(crate) fn record_of(alloc: Global, bytes: &[u8]) -> Result<Vec<u8>, NoMemory>
    ensures { IfOk result (λ put. put.items ≡ sized bytes.now) }
{
    let length = bytes.len() as u64;
    let mut record = Vec::new(alloc);
    record.extend_from_slice(&length.to_le_bytes())?;
    record.extend_from_slice(bytes)?;
    Ok(record)
}

/// The bytes of the record at a place of a file, or none where no whole record stands there.
pub(crate) fn find_record<F: Folder>(
    alloc: Global,
    folder: &mut F,
    name: FileName,
    at: u64,
) -> Result<Option<Vec<u8>>, GateFault>
    ensures found { Told F.Folder folder.old (λ d. IfOk result
        (λ found. option_map (λ bytes. bytes.items) found ≡ node_at (d.now name).seen at)) }
    ensures faults { IfErr result (λ e. (e ≡ GateFault.DiskFault) ⊎ (e ≡ GateFault.NoMemory)) }
    ensures disk { Moved F.Folder folder.old folder.new MovesNone }
    ensures cause { IsCounted F.Folder folder.old folder.new result }
    ensures reads { ReadsUpTo F.Folder 2 folder.old folder.new }
{
    let size = folder.len(name)?;
    if at < FIRST {
        return Ok(None);
    }
    if size.saturating_sub(at) < HEAD {
        return Ok(None);
    }
    read_record(alloc, folder, name, at, size)
}

/// The same in a file of this size, which has the record's length.
fn read_record<F: Folder>(
    alloc: Global,
    folder: &mut F,
    name: FileName,
    at: u64,
    size: u64,
) -> Result<Option<Vec<u8>>, GateFault>
    requires behind { 8192 ≤ at }
    requires within { at + 8 ≤ size }
    requires size { Told F.Folder folder.old (λ d. size ≡ length (d.now name).seen) }
    ensures found { Told F.Folder folder.old (λ d. IfOk result
        (λ found. option_map (λ bytes. bytes.items) found ≡ node_at (d.now name).seen at)) }
    ensures faults { IfErr result (λ e. (e ≡ GateFault.DiskFault) ⊎ (e ≡ GateFault.NoMemory)) }
    ensures disk { Moved F.Folder folder.old folder.new MovesNone }
    ensures cause { IsCounted F.Folder folder.old folder.new result }
    ensures reads { ReadsUpTo F.Folder 2 folder.old folder.new }
{
    let start = at + HEAD;
    match length_at(folder, name, at)? {
        Some(length) => {
            if length > size - start {
                return Ok(None);
            }
            bytes_at(alloc, folder, name, start, length)
        }
        None => Ok(None),
    }
}

/// The length of the record at a place of a file that has so many bytes there.
fn length_at<F: Folder>(folder: &mut F, name: FileName, at: u64) -> Result<Option<u64>, PortFault>
    requires { Told F.Folder folder.old (λ d. at + 8 ≤ length (d.now name).seen) }
    ensures length { Told F.Folder folder.old (λ d. IfOk result
        (λ found. found ≡ Some (size_in (drop at (d.now name).seen)))) }
    ensures disk { Moved F.Folder folder.old folder.new Passes }
    ensures cause { HasCause (F.faults folder.old) (F.faults folder.new) result }
    ensures counted { CountsOnce (F.faults folder.old) (F.faults folder.new) result }
    ensures reads { F.reads folder.new ≡ one_more (F.reads folder.old) }
{
    let mut head = [0; 8];
    let count = folder.read_at(name, at, &mut head)?;
    if count < 8 {
        return Ok(None);
    }
    Ok(Some(u64::from_le_bytes(head)))
}

/// So many bytes from a place of a file on that has them there.
fn bytes_at<F: Folder>(
    alloc: Global,
    folder: &mut F,
    name: FileName,
    at: u64,
    count: u64,
) -> Result<Option<Vec<u8>>, GateFault>
    requires { Told F.Folder folder.old (λ d. at + count ≤ length (d.now name).seen) }
    ensures bytes { Told F.Folder folder.old (λ d. IfOk result
        (λ found. option_map (λ bytes. bytes.items) found ≡ Some (take count (drop at (d.now name).seen)))) }
    ensures faults { IfErr result (λ e. (e ≡ GateFault.DiskFault) ⊎ (e ≡ GateFault.NoMemory)) }
    ensures disk { Moved F.Folder folder.old folder.new MovesNone }
    ensures cause { IsCounted F.Folder folder.old folder.new result }
    ensures reads { ReadsUpTo F.Folder 1 folder.old folder.new }
{
    let mut bytes = vec![in alloc; 0; count as usize]?;
    let got = folder.read_at(name, at, &mut bytes)?;
    if (got as u64) < count {
        return Ok(None);
    }
    Ok(Some(bytes))
}
