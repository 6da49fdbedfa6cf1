//! Which writes are accepted, by the last write of the id and the revision that was given.

ghost use Rattle.std.specs.Prelude.{◌≡◌, ◌⊎◌, None, Some, true, false, IfOk, OnOk, IfErr, option_map, bytes_eq};
ghost use Rattle.design_docs.specs.Revision.{revision};
ghost use Rattle.doc_file.specs.Accepted.{put_conflicts, delete_refusal, state_in};

use crate::entry::LastWrite;
use crate::fault::DocFault;
use crate::rev::Rev;
use json_terms::NoMemory;
use std::alloc::Global;

/// Whether a document may be put. It is a `Conflict` exactly where another revision than the present one is given, where one
/// is given for an id that was never written, and where none is given for a live document. Want of memory may come where a
/// revision is given.
pub fn may_put(alloc: Global, last: Option<LastWrite>, given: Option<&str>) -> Result<(), DocFault>
    ensures ok { OnOk result
        (put_conflicts (state_in last) (option_map (λ text. text.now) given.entry) ≡ false) }
    ensures err { IfErr result (λ e. ((e ≡ DocFault.Conflict)
        × (put_conflicts (state_in last) (option_map (λ text. text.now) given.entry) ≡ true))
        ⊎ (e ≡ DocFault.NoMemory)) }
{
    match last {
        Some(last) => match given {
            Some(given) => {
                if !is_present(alloc, last, given)? {
                    return Err(DocFault::Conflict);
                }
                Ok(())
            }
            None => {
                if !last.deleted {
                    return Err(DocFault::Conflict);
                }
                Ok(())
            }
        },
        None => match given {
            Some(_) => Err(DocFault::Conflict),
            None => Ok(()),
        },
    }
}

/// Whether a document may be deleted. It is `Missing` exactly where the id was never written, `Deleted` exactly where its last
/// write was a deletion, and a `Conflict` exactly where it is live and the present revision isn't given. Want of memory may
/// come where it is live and a revision is given.
pub fn may_delete(
    alloc: Global,
    last: Option<LastWrite>,
    given: Option<&str>,
) -> Result<(), DocFault>
    ensures ok { OnOk result
        (delete_refusal (state_in last) (option_map (λ text. text.now) given.entry) ≡ None) }
    ensures err { IfErr result
        (λ e. (delete_refusal (state_in last) (option_map (λ text. text.now) given.entry) ≡ Some e)
        ⊎ (e ≡ DocFault.NoMemory)) }
{
    match last {
        Some(last) => {
            if last.deleted {
                return Err(DocFault::Deleted);
            }
            match given {
                Some(given) => {
                    if !is_present(alloc, last, given)? {
                        return Err(DocFault::Conflict);
                    }
                    Ok(())
                }
                None => Err(DocFault::Conflict),
            }
        }
        None => Err(DocFault::Missing),
    }
}

/// Whether the text is the revision of the write.
fn is_present(alloc: Global, last: LastWrite, given: &str) -> Result<bool, NoMemory>
    ensures { IfOk result (λ present. present ≡ bytes_eq given.now (revision last.generation last.seq)) }
{
    let rev = Rev {
        generation: last.generation,
        seq: last.seq,
    };
    let present = rev.text(alloc)?;
    Ok(given == present.as_str())
}
