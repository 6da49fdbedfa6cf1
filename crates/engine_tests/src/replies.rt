//! The replies of the engine.

use crash_disk::MemoryFolder;
use std::alloc::Global;
use std::test::Fail;
use view_engine::Engine;
use view_ports::Servers;

/// The reply line to a request line over a folder and these query servers, which are also those of the language `script`. The
/// documents are opened anew.
pub fn reply_in<C: Servers>(
    alloc: Global,
    folder: &mut MemoryFolder,
    servers: &mut C,
    line: &str,
) -> Result<Vec<u8>, Fail> {
    let languages = [String::from_str(alloc, "script=sh")?];
    let mut engine = Engine::open(alloc, folder, 1, &languages)?;
    let mut out = Vec::new(alloc);
    engine.step(alloc, folder, servers, line.as_bytes(), &mut out)?;
    engine.finish(servers);
    Ok(out)
}
