//! One file in memory.

use view_ports::FileName;

/// A file with its bytes.
#[derive(Drop)]
pub struct HeldFile {
    pub name: FileName,
    pub bytes: Vec<u8>,
}
