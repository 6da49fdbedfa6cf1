//! An engine over a folder in memory, and what a stop within a call on it leaves.

ghost use Rattle.std.specs.Prelude.{◌<◌};
ghost use Rattle.crash_disk.specs.State.{calls_told, told};

use crash_disk::MemoryFolder;
use std::alloc::Global;
use std::test::Fail;
use view_engine::Engine;
use view_ports::Servers;

/// Appends what an engine that is opened over the folder replies to these lines.
pub fn put_replies<C: Servers>(
    alloc: Global,
    folder: &mut MemoryFolder,
    servers: &mut C,
    lines: &str,
    out: &mut Vec<u8>,
) -> Result<(), Fail> {
    let mut engine = Engine::open(alloc, folder, 1, &[])?;
    for line in lines.lines() {
        engine.step(alloc, folder, servers, line.as_bytes(), out)?;
    }
    engine.finish(servers);
    Ok(())
}

/// Lines, and the replies that a stop may leave to them: those before some request, and those behind it.
#[derive(Drop)]
pub struct Left {
    pub lines: String,
    pub before: String,
    pub behind: String,
}

impl Left {
    pub fn new(alloc: Global) -> Left {
        Left {
            lines: String::new(alloc),
            before: String::new(alloc),
            behind: String::new(alloc),
        }
    }

    /// Whether the replies over what is left are those behind the request. If not, they are those before it.
    pub fn is_behind<C: Servers>(
        &self,
        alloc: Global,
        folder: &mut MemoryFolder,
        servers: &mut C,
    ) -> Result<bool, Fail> {
        let mut given = Vec::new(alloc);
        put_replies(alloc, folder, servers, self.lines.as_str(), &mut given)?;
        let is_behind = given.as_slice() == self.behind.as_bytes();
        if !is_behind && given.as_slice() != self.before.as_bytes() {
            let Left { before, behind, .. } = self;
            let given = String::from_utf8(given)?;
            return Err(Fail::new(format_args!("{given} is neither {before} nor {behind}")));
        }
        Ok(is_behind)
    }
}

/// How many choices there are of what a stop within a call leaves.
pub const CHOICES: u64 = 6;

/// Nothing that wasn't synced, all of it, 255 in each place that was written, and mixtures.
pub fn choice_of(call: u64, turn: u64) -> u64 {
    if turn < 3 {
        turn
    } else {
        3 + call.wrapping_mul(turn) % 648
    }
}

/// Looks at what a stop within the call leaves.
pub fn look_at<C: Servers>(
    alloc: Global,
    folder: &MemoryFolder,
    servers: &mut C,
    call: u64,
    choices: u64,
    left: &Left,
) -> Result<(), Fail>
    requires { call < calls_told (told folder.now) }
{
    for turn in 0..choices {
        let mut image = folder.image_at(alloc, call, choice_of(call, turn))?;
        left.is_behind(alloc, &mut image, servers)?;
    }
    Ok(())
}
