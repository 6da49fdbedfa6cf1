//! A file whose commits are all or nothing.

mod open;
mod publish;

use crate::fault::GateFault;
use crate::root::{DATA, MAX_COMMITS, MAX_LENGTH, Root, place_of};
use crate::slot::{GATE, header_of};
use crate::steps::{add, grow_new, put_synced};
use view_ports::{FileName, Folder, PortFault};

/// One side of a pair of files, with the root of its last commit.
#[derive(Debug, Drop)]
pub struct GateFile {
    name: FileName,
    // 0 where the file isn't made yet.
    length: u64,
    // The number of the last commit of the pair, which may be one of the other side.
    commits: u64,
    root: Option<Root>,
    // Whether the gate of the slot of the next commit is open.
    next_is_open: bool,
}

impl GateFile {
    ghost use Rattle.std.specs.Prelude.{◌≡◌, ◌↔◌, ◌⊎◌, ◌+◌, ◌<◌, ◌≤◌, ◌^◌, Some, length, OnOk, OnErr, IfOk, IfErr, IfSome, IsTrue};
    ghost use Rattle.view_ports.specs.Faults.{CountsOnce, HasCause};
    ghost use Rattle.gate_file.specs.Header.{data_start, place_of};
    ghost use Rattle.gate_file.specs.GateFile.{name_of, length_of, commits_of, root_record, start_of, appended, next_root, committed};
    ghost use Rattle.gate_file.specs.Append.{IsMade};
    ghost use Rattle.gate_file.specs.Calls.{too_long, used_up, Appends, Commits, IsCounted, KeepsIn, KeepsRoot, Moved, Told};
    ghost use Rattle.gate_file.specs.Commit.{Continues, IsNext, IsReady, IsStaged};

    /// The place and the length of the root record of the last commit, where there is one.
    pub fn root(&self) -> Option<(u64, u64)>
        ensures { result ≡ root_record self.now }
    {
        self.root.map(|root| (root.offset, root.length))
    }

    /// The number of the last commit of the pair of files, 0 where there is none.
    pub fn commits(&self) -> u64
        ensures { result ≡ commits_of self.now }
    {
        self.commits
    }

    /// The name of the file.
    pub fn name(&self) -> FileName
        ensures { result ≡ name_of self.now }
    {
        self.name
    }

    /// The length of the file in bytes. It is 0 until the first bytes are appended to a new file.
    pub fn length(&self) -> u64
        ensures { result ≡ length_of self.now }
    {
        self.length
    }

    /// The place of the next bytes that are appended: the end of the file, or behind the slots of a
    /// new one, which is 8,192.
    pub fn start(&self) -> u64
        ensures { result ≡ start_of self.now }
    {
        self.length.max(DATA)
    }

    /// Makes room for the slots, where the file is new.
    fn make<F: Folder>(&self, folder: &mut F) -> Result<(), PortFault>
        requires { Told F.Folder folder.old (KeepsIn self.now) }
        ensures disk { Moved F.Folder folder.old folder.new
            (KeepsRoot self.now result (IsMade self.now)) }
        ensures cause { HasCause (F.faults folder.old) (F.faults folder.new) result }
        ensures counted { CountsOnce (F.faults folder.old) (F.faults folder.new) result }
        ensures reads { F.reads folder.new ≡ F.reads folder.old }
    {
        if self.length > 0 {
            return Ok(());
        }
        grow_new(folder, self.name, DATA)?;
        Ok(())
    }

    /// Whether the file may get so many bytes more.
    fn has_room(&self, count: u64) -> bool
        ensures { IsTrue result ↔ (start_of self.now + count ≤ 2 ^ 40) }
    {
        let start = self.start();
        start <= MAX_LENGTH && count <= MAX_LENGTH - start
    }

    /// Adds bytes at the end of the file, and answers where they stand. A new file is made first, with
    /// 8,192 bytes that come on top. At each moment a crash leaves the root and what was durable. After
    /// a fault the object is not to be used again.
    pub fn append<F: Folder>(&mut self, folder: &mut F, bytes: &[u8]) -> Result<u64, GateFault>
        requires { Told F.Folder folder.old (KeepsIn self.old) }
        ensures place { IfOk result (λ at. at ≡ start_of self.old) }
        ensures done { OnOk result (self.new ≡ appended self.old (length bytes.now)) }
        ensures disk { Moved F.Folder folder.old folder.new (Appends self.old bytes.now result) }

        // It fails exactly where the file would be too long, and where the disk fails.
        ensures full { (2 ^ 40 < start_of self.old + length bytes.now) ↔ (result ≡ Err (too_long self.old)) }
        ensures faults { IfErr result (λ e. (e ≡ GateFault.DiskFault) ⊎ (e ≡ too_long self.old)) }
        ensures cause { IsCounted F.Folder folder.old folder.new result }

        ensures err { OnErr result (self.new ≡ self.old) }
        ensures untouched { 2 ^ 40 < start_of self.old + length bytes.now → folder.new ≡ folder.old }
        ensures reads { F.reads folder.new ≡ F.reads folder.old }
    {
        let start = self.start();
        let count = bytes.len() as u64;
        if !self.has_room(count) {
            return Err(GateFault::Full {
                name: self.name,
                length: Some(self.length),
            });
        }
        self.make(folder)?;
        add(folder, self.name, start, bytes)?;
        self.length = start + count;
        Ok(start)
    }

    /// The place of the slot of the next commit.
    fn next_place(&self) -> u64
        requires { self.now.commits < 2 ^ 50 }
        ensures { result ≡ place_of (self.now.commits + 1) }
    {
        place_of(self.commits + 1)
    }

    /// Closes the gate of the slot of the next commit, where it is open.
    fn shut<F: Folder>(&self, folder: &mut F) -> Result<(), PortFault>
        requires few { self.now.commits < 2 ^ 50 }
        requires made { 0 < self.now.length }
        requires keeps { Told F.Folder folder.old (KeepsIn self.now) }
        ensures disk { Moved F.Folder folder.old folder.new
            (KeepsRoot self.now result (λ file now. IsReady self.now now × Continues file now)) }
        ensures cause { HasCause (F.faults folder.old) (F.faults folder.new) result }
        ensures counted { CountsOnce (F.faults folder.old) (F.faults folder.new) result }
        ensures reads { F.reads folder.new ≡ F.reads folder.old }
    {
        if !self.next_is_open {
            return Ok(());
        }
        put_synced(folder, self.name, self.next_place() + GATE, &[0])?;
        Ok(())
    }

    /// Writes the header of the next commit behind its closed gate, and syncs it with all that was
    /// appended.
    fn stage<F: Folder>(&self, folder: &mut F, root: Root) -> Result<(), PortFault>
        requires few { self.now.commits < 2 ^ 50 }
        requires ready { Told F.Folder folder.old (λ d. IsReady self.now (d.now self.now.name)) }
        ensures disk { Moved F.Folder folder.old folder.new
            (KeepsRoot self.now result (λ file now. IsStaged self.now root now × Continues file now)) }
        ensures cause { HasCause (F.faults folder.old) (F.faults folder.new) result }
        ensures counted { CountsOnce (F.faults folder.old) (F.faults folder.new) result }
        ensures reads { F.reads folder.new ≡ F.reads folder.old }
    {
        put_synced(folder, self.name, self.next_place(), &header_of(root))?;
        Ok(())
    }

    /// Opens the gate of the next commit.
    fn open_gate<F: Folder>(&mut self, folder: &mut F, root: Root) -> Result<(), PortFault>
        requires few { self.old.commits < 2 ^ 50 }
        requires next { IsNext self.old root }
        requires known { Told F.Folder folder.old
            (λ d. IfSome self.old.root (λ r. r.number ≡ self.old.commits)) }
        requires staged { Told F.Folder folder.old (λ d. IsStaged self.old root (d.now self.old.name)) }
        ensures done { OnOk result (self.new ≡ committed self.old root) }
        ensures err { OnErr result (self.new ≡ self.old) }
        ensures disk { Moved F.Folder folder.old folder.new (Commits self.old root result) }
        ensures cause { HasCause (F.faults folder.old) (F.faults folder.new) result }
        ensures counted { CountsOnce (F.faults folder.old) (F.faults folder.new) result }
        ensures reads { F.reads folder.new ≡ F.reads folder.old }
    {
        put_synced(folder, self.name, self.next_place() + GATE, &[1])?;
        self.commits = root.number;
        self.next_is_open = self.root.is_some();
        self.root = Some(root);
        Ok(())
    }

    /// Makes a record of the file the root, by one commit: at each moment a crash leaves the old root
    /// with all that was durable before, or the new root with all that was appended. Nothing is
    /// pending after it. After a fault the object is not to be used again.
    pub fn commit<F: Folder>(
        &mut self,
        folder: &mut F,
        root: u64,
        len: u64,
    ) -> Result<(), GateFault>
        requires keeps { Told F.Folder folder.old (KeepsIn self.old) }
        requires inside { (data_start ≤ root) × (root + len ≤ length_of self.old) }
        ensures done { OnOk result (self.new ≡ committed self.old (next_root self.old root len)) }
        ensures disk { Moved F.Folder folder.old folder.new
            (Commits self.old (next_root self.old root len) result) }

        // It fails exactly where the file has all of its commits, and where the disk fails.
        ensures full { (2 ^ 50 ≤ commits_of self.old) ↔ (result ≡ Err (used_up self.old)) }
        ensures faults { IfErr result (λ e. (e ≡ GateFault.DiskFault) ⊎ (e ≡ used_up self.old)) }
        ensures cause { IsCounted F.Folder folder.old folder.new result }

        ensures err { OnErr result (self.new ≡ self.old) }
        ensures untouched { 2 ^ 50 ≤ commits_of self.old → folder.new ≡ folder.old }
        ensures reads { F.reads folder.new ≡ F.reads folder.old }
    {
        if self.commits >= MAX_COMMITS {
            return Err(GateFault::Full {
                name: self.name,
                length: None,
            });
        }
        let next = Root {
            number: self.commits + 1,
            offset: root,
            length: len,
        };
        self.shut(folder)?;
        self.stage(folder, next)?;
        self.open_gate(folder, next)?;
        Ok(())
    }
}
