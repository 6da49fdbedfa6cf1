//! The piece of the input that one read takes.

ghost use Rattle.std.specs.Prelude.{◌<◌, IfOk, vec_len};

use crate::limits::PIECE;
use std::alloc::{AllocError, Global};

/// Room for the bytes that one read takes, 65,536 at most.
pub fn new_piece(alloc: Global) -> Result<Vec<u8>, AllocError>
    ensures { IfOk result (λ piece. 0 < vec_len piece) }
{
    vec![in alloc; 0; PIECE]
}
