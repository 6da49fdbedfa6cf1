//! What a call on a child's output comes to.

ghost use Rattle.std.specs.Prelude.{◌≡◌};
ghost use Rattle.child_pool.specs.Answered.{answer_of};

use query_protocol::Reply;

/// What one `receive` came to.
#[derive(Drop)]
pub enum Heard {
    /// The call failed.
    Failed,
    /// A log line.
    Log,
    /// An answer, which is no log line.
    Answer(Reply),
}

impl Heard {
    /// A log line, or an answer.
    pub fn of(reply: Reply) -> Heard
        ensures { result ≡ answer_of reply }
    {
        match reply {
            Reply::Log => Heard::Log,
            Reply::Yes => Heard::Answer(Reply::Yes),
            Reply::Rows(rows) => Heard::Answer(Reply::Rows(rows)),
            Reply::Value(value) => Heard::Answer(Reply::Value(value)),
            Reply::Compile => Heard::Answer(Reply::Compile),
        }
    }
}
