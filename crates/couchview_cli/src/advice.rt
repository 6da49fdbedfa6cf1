//! What to do after a run that ended before its input did.

/// What to do after a run with this exit status, in a sentence or two: of `load`, or of another command. `None` where the
/// status says all.
pub fn advice(status: u8, loads: bool) -> Option<&'static str> {
    match status {
        3 if loads => Some(
            "a call on the folder failed, and the load ended: mend what is named above, and load in a new folder",
        ),
        3 => Some(
            "a call on the folder failed, and the run ended; all that was answered is kept: mend what is named above, and \
            start again in the same folder",
        ),
        6 if loads => Some(
            "memory ran out, and the load ended: load in a new folder with more memory, or fewer documents",
        ),
        6 => Some(
            "memory ran out, and the run ended; all that was answered is kept: start again with more memory, or with \
            shorter lines",
        ),
        7 => Some(
            "a file is damaged, at the offset that the last line names, and the run ended: copy the whole folder before \
            you try anything, and go back to a backup of the whole folder; of an index, whose files have names of 32 \
            digits, both files may be removed, and the next view builds it anew",
        ),
        9 => Some(
            "a file is full, and the run ended; that of the documents can still be read: put them into a new folder; of an \
            index, whose files have names of 32 digits, both files may be removed, and the next view builds it anew",
        ),
        10 => Some("the folder has had writes, so nothing was loaded: load in a new folder"),
        _ => None,
    }
}
