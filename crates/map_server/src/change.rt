//! What a line does to a session.

ghost use Rattle.std.specs.Prelude.{◌≡◌};

use crate::map_function::MapFunction;

/// What becomes of the functions of a session.
#[derive(Drop)]
pub enum Change {
    /// They stay.
    Nothing,
    /// They are forgotten.
    Clear,
    /// One more is there.
    Add(MapFunction),
}

/// The answer to a line, and what becomes of the functions.
#[derive(Drop)]
pub struct Reply {
    pub text: Vec<u8>,
    pub change: Change,
}

impl Reply {
    /// A reply with which the functions stay.
    pub fn kept(text: Vec<u8>) -> Reply
        ensures text { result.text ≡ text }
        ensures change { result.change ≡ Change.Nothing }
    {
        Reply {
            text,
            change: Change::Nothing,
        }
    }
}
