//! The calls on a folder from which those on a gate file are made: each leaves the file synced, or
//! only adds bytes behind those that are there.

ghost use Rattle.std.specs.Prelude.{◌≡◌, ◌+◌, ◌≤◌, ◌^◌, [], length, OnOk};
ghost use Rattle.view_ports.specs.Disk.{MovesFile};
ghost use Rattle.view_ports.specs.Faults.{CountsOnce, HasCause};
ghost use Rattle.view_ports.specs.File.{grew, settled, wrote};
ghost use Rattle.gate_file.specs.Append.{IsZeros, IsGrown};
ghost use Rattle.gate_file.specs.Calls.{Moved, Told};
ghost use Rattle.gate_file.specs.Opens.{Empties};
ghost use Rattle.gate_file.specs.Steps.{Adds, SyncsStep};

use view_ports::{FileName, Folder, PortFault};

/// Writes bytes over those at a place, and syncs the file.
pub(crate) fn put_synced<F: Folder>(
    folder: &mut F,
    name: FileName,
    at: u64,
    bytes: &[u8],
) -> Result<(), PortFault>
    requires { Told F.Folder folder.old (λ d. at + length bytes.now ≤ length (d.now name).seen) }
    ensures disk { Moved F.Folder folder.old folder.new (SyncsStep name (wrote at bytes.now) result) }
    ensures cause { HasCause (F.faults folder.old) (F.faults folder.new) result }
    ensures counted { CountsOnce (F.faults folder.old) (F.faults folder.new) result }
    ensures reads { F.reads folder.new ≡ F.reads folder.old }
{
    folder.write_at(name, at, bytes)?;
    folder.sync(name)?;
    Ok(())
}

/// Adds zero bytes at the end, and syncs the file.
pub(crate) fn grow_synced<F: Folder>(
    folder: &mut F,
    name: FileName,
    by: u64,
) -> Result<(), PortFault>
    requires { Told F.Folder folder.old (λ d. length (d.now name).seen + by ≤ 2 ^ 40) }
    ensures disk { Moved F.Folder folder.old folder.new (SyncsStep name (grew by) result) }
    ensures cause { HasCause (F.faults folder.old) (F.faults folder.new) result }
    ensures counted { CountsOnce (F.faults folder.old) (F.faults folder.new) result }
    ensures reads { F.reads folder.new ≡ F.reads folder.old }
{
    folder.grow(name, by)?;
    folder.sync(name)?;
    Ok(())
}

/// Makes a file of so many zero bytes, and syncs it.
pub(crate) fn grow_new<F: Folder>(
    folder: &mut F,
    name: FileName,
    size: u64,
) -> Result<(), PortFault>
    requires few { size ≤ 2 ^ 40 }
    requires new { Told F.Folder folder.old (λ d. d.now name ≡ settled []) }
    ensures disk { Moved F.Folder folder.old folder.new
        (MovesFile name (λ file image. IsZeros image) (λ file now. OnOk result (IsGrown size now))) }
    ensures cause { HasCause (F.faults folder.old) (F.faults folder.new) result }
    ensures counted { CountsOnce (F.faults folder.old) (F.faults folder.new) result }
    ensures reads { F.reads folder.new ≡ F.reads folder.old }
{
    grow_synced(folder, name, size)?;
    Ok(())
}

/// Adds bytes at the end, which is at this place.
pub(crate) fn add<F: Folder>(
    folder: &mut F,
    name: FileName,
    at: u64,
    bytes: &[u8],
) -> Result<(), PortFault>
    requires { Told F.Folder folder.old
        (λ d. (length (d.now name).seen ≡ at) × (at + length bytes.now ≤ 2 ^ 40)) }
    ensures disk { Moved F.Folder folder.old folder.new (Adds name at bytes.now result) }
    ensures cause { HasCause (F.faults folder.old) (F.faults folder.new) result }
    ensures counted { CountsOnce (F.faults folder.old) (F.faults folder.new) result }
    ensures reads { F.reads folder.new ≡ F.reads folder.old }
{
    folder.grow(name, bytes.len() as u64)?;
    folder.write_at(name, at, bytes)?;
    Ok(())
}

/// Takes all bytes away, and syncs the file.
pub(crate) fn cut_synced<F: Folder>(folder: &mut F, name: FileName) -> Result<(), PortFault>
    ensures disk { Moved F.Folder folder.old folder.new (Empties name result) }
    ensures cause { HasCause (F.faults folder.old) (F.faults folder.new) result }
    ensures counted { CountsOnce (F.faults folder.old) (F.faults folder.new) result }
    ensures reads { F.reads folder.new ≡ F.reads folder.old }
{
    folder.cut_to_zero(name)?;
    folder.sync(name)?;
    Ok(())
}
