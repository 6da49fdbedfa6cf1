//! Opening a pair of files, by what its slots say.

ghost use Rattle.std.specs.Prelude.{◌≡◌, ◌⊎◌, ℕ, ◌<◌, ◌-◌, length, IfOk, IfErr, OnOk};
ghost use Rattle.view_ports.specs.Causes.{one_more};
ghost use Rattle.view_ports.specs.Disk.{MovesNone};
ghost use Rattle.view_ports.specs.FolderCalls.{Passes};
ghost use Rattle.gate_file.specs.GateFile.{name_of, IsOfStem};
ghost use Rattle.gate_file.specs.Header.{IsDamaged};
ghost use Rattle.gate_file.specs.Calls.{IsCounted, IsDamageOf, IsOpenFault, IsReadFault, Moved, ReadsUpTo, Told};
ghost use Rattle.gate_file.specs.Opens.{Empties, HasRoot, IsFoundAs, Opens, Syncs, SyncsPair};
ghost use Rattle.gate_file.specs.Open.{found_from, opened, AreFitSlots, IsFirstDamage, IsFirstIn, IsPair, IsPart};

use super::GateFile;
use crate::fault::GateFault;
use crate::root::{Root, newer, place_of};
use crate::slot::{SLOT, Slot, found_in};
use crate::steps::cut_synced;
use std::alloc::Global;
use view_ports::{FileName, Folder, Stem};

/// Reads the slot at a place of a file with this length, and answers its root where it is open.
fn read_slot<F: Folder>(
    folder: &mut F,
    name: FileName,
    at: u64,
    size: u64,
) -> Result<Option<Root>, GateFault>
    requires { Told F.Folder folder.old (λ d. size ≡ length (d.now name).seen) }
    ensures root { Told F.Folder folder.old (λ d. IfOk result (HasRoot (d.now name).seen at)) }
    ensures damaged { Told F.Folder folder.old
        (λ d. result ≡ Err (GateFault.Damaged name at) → IsDamaged at (d.now name).seen) }
    ensures faults { IfErr result (λ e. (e ≡ GateFault.DiskFault) ⊎ (e ≡ GateFault.Damaged name at)) }
    ensures disk { Moved F.Folder folder.old folder.new Passes }
    ensures cause { IsCounted F.Folder folder.old folder.new result }
    ensures reads { F.reads folder.new ≡ one_more (F.reads folder.old) }
{
    let mut slot = [0; SLOT];
    let count = folder.read_at(name, at, &mut slot)?;
    if count < SLOT {
        return Ok(None);
    }
    match found_in(&slot, at, size) {
        Slot::Closed => Ok(None),
        Slot::Open(root) => Ok(Some(root)),
        Slot::Damaged => Err(GateFault::Damaged { name, offset: at }),
    }
}

/// What a file is with these roots in its open slots.
fn found_with(name: FileName, size: u64, low: Option<Root>, high: Option<Root>) -> GateFile
    ensures { result ≡ found_from name size low high }
{
    match newer(low, high) {
        None => GateFile {
            name,
            length: size,
            commits: 0,
            root: None,
            next_is_open: false,
        },
        Some(root) => GateFile {
            name,
            length: size,
            commits: root.number,
            root: Some(root),
            next_is_open: if place_of(root.number) == 0 {
                high.is_some()
            } else {
                low.is_some()
            },
        },
    }
}

/// Syncs a file of a pair, and answers what it is by its slots.
fn look<F: Folder>(folder: &mut F, name: FileName) -> Result<GateFile, GateFault>
    ensures named { IfOk result (λ gate. name_of gate ≡ name) }
    ensures found { Told F.Folder folder.old (λ d. IfOk result (IsFoundAs name (d.now name).seen)) }
    ensures damaged { Told F.Folder folder.old
        (λ d. IsDamageOf (λ n at. (n ≡ name) × IsFirstIn (d.now name).seen at) result) }
    ensures faults { IfErr result (λ e. (e ≡ GateFault.DiskFault) ⊎ ((at : ℕ) × (e ≡ GateFault.Damaged name at))) }
    ensures disk { Moved F.Folder folder.old folder.new (Syncs name result) }
    ensures cause { IsCounted F.Folder folder.old folder.new result }
    ensures reads { ReadsUpTo F.Folder 2 folder.old folder.new }
{
    folder.sync(name)?;
    let size = folder.len(name)?;
    let low = read_slot(folder, name, 0, size)?;
    let high = read_slot(folder, name, 4096, size)?;
    Ok(found_with(name, size, low, high))
}

/// Both files of a pair.
struct Pair {
    first: GateFile,
    second: GateFile,
}

/// Syncs both files of a pair, and answers what they are by their slots.
fn look_at_both<F: Folder>(folder: &mut F, stem: Stem) -> Result<Pair, GateFault>
    ensures named { IfOk result (λ pair. IsOfStem stem pair.first × IsOfStem stem pair.second) }
    ensures found { Told F.Folder folder.old
        (λ d. IfOk result (λ pair. IsPair stem d.now pair.first pair.second)) }
    ensures sound { Told F.Folder folder.old (λ d. OnOk result (AreFitSlots stem d.now)) }
    ensures damaged { Told F.Folder folder.old (λ d. IsDamageOf (IsFirstDamage stem d.now) result) }
    ensures faults { IfErr result IsOpenFault }
    ensures disk { Moved F.Folder folder.old folder.new (SyncsPair stem result) }
    ensures cause { IsCounted F.Folder folder.old folder.new result }
    ensures reads { ReadsUpTo F.Folder 4 folder.old folder.new }
{
    let first = look(folder, FileName { stem, side: false })?;
    let second = look(folder, FileName { stem, side: true })?;
    Ok(Pair { first, second })
}

impl GateFile {
    /// Opens a pair of files: syncs both, takes the one whose open gate has the greater commit number,
    /// and empties the other. Where neither has an open gate, both are emptied, and the file is new.
    /// At each moment a crash leaves what it might have left before, or, once both are synced, the file
    /// that is taken as it is.
    pub fn open<F: Folder>(folder: &mut F, stem: Stem) -> Result<GateFile, GateFault>
        ensures named { IfOk result (IsOfStem stem) }
        ensures opened { Told F.Folder folder.old (λ d. IfOk result (λ gate. gate ≡ opened stem d.now)) }
        ensures disk { Moved F.Folder folder.old folder.new (Opens stem result) }

        // It fails exactly where a slot is damaged, and where the disk fails.
        ensures sound { Told F.Folder folder.old (λ d. OnOk result (AreFitSlots stem d.now)) }
        ensures damaged { Told F.Folder folder.old (λ d. IsDamageOf (IsFirstDamage stem d.now) result) }
        ensures faults { IfErr result IsOpenFault }
        ensures cause { IsCounted F.Folder folder.old folder.new result }

        ensures reads { ReadsUpTo F.Folder 4 folder.old folder.new }
    {
        let Pair { first, second } = look_at_both(folder, stem)?;
        if first.commits < second.commits {
            GateFile::clear(folder, first.name)?;
            return Ok(second);
        }
        GateFile::clear(folder, second.name)?;
        if first.root.is_some() {
            return Ok(first);
        }
        GateFile::clear(folder, first.name)?;
        Ok(GateFile { length: 0, ..first })
    }

    /// Takes all bytes of a file away, and syncs it.
    pub fn clear<F: Folder>(folder: &mut F, name: FileName) -> Result<(), GateFault>
        ensures disk { Moved F.Folder folder.old folder.new (Empties name result) }
        ensures faults { IfErr result (λ e. e ≡ GateFault.DiskFault) }
        ensures cause { IsCounted F.Folder folder.old folder.new result }
        ensures reads { F.reads folder.new ≡ F.reads folder.old }
    {
        cut_synced(folder, name)?;
        Ok(())
    }

    /// Reads so many bytes of a file from a place on. The file is `Damaged` at that place exactly
    /// where it has fewer.
    pub fn read<F: Folder>(
        alloc: Global,
        folder: &mut F,
        name: FileName,
        offset: u64,
        len: u64,
    ) -> Result<Vec<u8>, GateFault>
        ensures bytes { Told F.Folder folder.old
            (λ d. IfOk result (λ bytes. IsPart (d.now name).seen offset len bytes.items)) }
        ensures damaged { Told F.Folder folder.old
            (λ d. result ≡ Err (GateFault.Damaged name offset) → length (d.now name).seen - offset < len) }
        ensures faults { IfErr result (IsReadFault name offset) }
        ensures disk { Moved F.Folder folder.old folder.new MovesNone }
        ensures cause { IsCounted F.Folder folder.old folder.new result }
        ensures reads { ReadsUpTo F.Folder 1 folder.old folder.new }
    {
        let size = folder.len(name)?;
        if size.saturating_sub(offset) < len {
            return Err(GateFault::Damaged { name, offset });
        }
        let mut bytes = vec![in alloc; 0; len as usize]?;
        let count = folder.read_at(name, offset, &mut bytes)?;
        if (count as u64) < len {
            return Err(GateFault::Damaged { name, offset });
        }
        Ok(bytes)
    }
}
