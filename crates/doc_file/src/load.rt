//! Reading what the documents' file holds.

ghost use Rattle.std.specs.Prelude.{◌≡◌, ◌⊎◌, ℕ, List, Err, IfOk, IfErr, IsTrue};
ghost use Rattle.std.specs.List.{list_all};
ghost use Rattle.json_terms.specs.Json.{Json};
ghost use Rattle.json_terms.specs.Seen.{json};
ghost use Rattle.view_ports.specs.Disk.{MovesNone};
ghost use Rattle.gate_file.specs.Calls.{Moved, ReadsUpTo, Told};
ghost use Rattle.gate_file.specs.GateFile.{commits_of};
ghost use Rattle.gate_file.specs.RootPlace.{IsRootPlace};
ghost use Rattle.doc_file.specs.declared.entry.Entry.{Entry as EntryValue};
ghost use Rattle.doc_file.specs.Counts.{are_counted, has_room};
ghost use Rattle.doc_file.specs.Held.{HasBody, HoldsIn, IsBodyOf};
ghost use Rattle.doc_file.specs.Record.{rise};
ghost use Rattle.doc_file.specs.Reads.{FindsDamage, IsCounted, IsReadFault};

use crate::body::read_body;
use crate::entry::LastWrite;
use crate::fault::DocFault;
use crate::record::{RootRecord, read_root};
use gate_file::{GateFault, GateFile};
use json_terms::Term;
use std::alloc::Global;
use view_ports::{FileName, Folder};

/// What the root record of an open file holds. The file is `Damaged` at the place of the record exactly where it spells no
/// root record, or one whose counts are those of no history.
pub fn load_root<F: Folder>(
    alloc: Global,
    folder: &mut F,
    file: &GateFile,
) -> Result<RootRecord, DocFault>
    ensures counted { IfOk result (λ root. IsTrue (are_counted (commits_of file.now) root.seq root.entries.items)
        × IsTrue (list_all has_room root.entries.items)) }
    ensures order { IfOk result (λ root. IsTrue (rise root.entries.items)) }
    ensures held { Told F.Folder folder.old
        (λ d. IfOk result (λ root. HoldsIn file.now d.now root.seq root.entries.items)) }
    ensures damaged { Told F.Folder folder.old (λ d. FindsDamage
        (λ name at. (seq : ℕ) (entries : List EntryValue) → HoldsIn file.now d.now seq entries → ⊥) result) }
    ensures place { FindsDamage (IsRootPlace file.now) result }
    ensures faults { IfErr result IsReadFault }
    ensures disk { Moved F.Folder folder.old folder.new MovesNone }
    ensures cause { IsCounted F.Folder folder.old folder.new result }
    ensures reads { ReadsUpTo F.Folder 1 folder.old folder.new }
{
    match file.root() {
        Some((offset, length)) => {
            let name = file.name();
            let bytes = GateFile::read(alloc, folder, name, offset, length)?;
            match read_root(alloc, bytes.as_slice())? {
                Some(root) if root.is_counted(file.commits()) => Ok(root),
                _ => Err(DocFault::Gate(GateFault::Damaged { name, offset })),
            }
        }
        None => Ok(RootRecord {
            seq: 0,
            entries: Vec::new(alloc),
        }),
    }
}

/// The stored document of an id's last write. The file is `Damaged` at the place of the body exactly where no document is spelled
/// there.
pub fn load_body<F: Folder>(
    alloc: Global,
    folder: &mut F,
    name: FileName,
    id: &str,
    last: LastWrite,
) -> Result<Term, DocFault>
    ensures body { IfOk result (λ t. IsBodyOf id.now (json t)) }
    ensures held { Told F.Folder folder.old
        (λ d. IfOk result (λ t. HasBody id.now (d.now name).seen last (json t))) }
    ensures damaged { Told F.Folder folder.old
        (λ d. result ≡ Err (DocFault.Gate (GateFault.Damaged name last.offset)) →
        (t : Json) → HasBody id.now (d.now name).seen last t → ⊥) }
    ensures faults { IfErr result (λ e. (e ≡ DocFault.Gate GateFault.DiskFault) ⊎ (e ≡ DocFault.NoMemory)
        ⊎ (e ≡ DocFault.Gate (GateFault.Damaged name last.offset))) }
    ensures disk { Moved F.Folder folder.old folder.new MovesNone }
    ensures cause { IsCounted F.Folder folder.old folder.new result }
    ensures reads { ReadsUpTo F.Folder 1 folder.old folder.new }
{
    let bytes = GateFile::read(alloc, folder, name, last.offset, u64::from(last.length))?;
    match read_body(alloc, id, bytes.as_slice())? {
        Some(document) => Ok(document),
        None => Err(DocFault::Gate(GateFault::Damaged {
            name,
            offset: last.offset,
        })),
    }
}
