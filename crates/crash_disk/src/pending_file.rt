//! A file by its name, with what is pending on it.

use crate::pending::Pending;
use view_ports::FileName;

#[derive(Drop)]
pub struct PendingFile {
    pub name: FileName,
    pub pending: Pending,
}
