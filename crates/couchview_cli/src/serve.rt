//! Serving a source's request lines.
ghost use Rattle.std.specs.Prelude.{◌≡◌, ◌≢◌, ◌≤◌, [], map, string_bytes};
ghost use Rattle.std.specs.Io.KnownBytes.{IsAtEnd};
ghost use Rattle.view_ports.specs.Disk.{IfTold};
ghost use Rattle.view_ports.specs.Faults.{Rose};
ghost use Rattle.child_pool.specs.Languages.{languages_in};
ghost use Rattle.view_engine.specs.World.{World};
ghost use Rattle.line_loop.specs.Loops.{HasEnded, HasSinkFailed, HasSourceFailed};
ghost use Rattle.view_engine.specs.Calls.{scene};
ghost use Rattle.view_engine.specs.Disks.{LiesOpen};
ghost use Rattle.view_engine.specs.Worlds.{update_seq, width as width_of, IsOpen};
ghost use Rattle.couchview_cli.specs.Ends.{Comes};
ghost use Rattle.couchview_cli.specs.Reading.{AnswersLines, HasReplied};
ghost use Rattle.couchview_cli.specs.Serving.{AreLeft, Begins, Serves, outside};
ghost use Rattle.couchview_cli.specs.Session.{IsAtOrigin, Origin};

use crate::closing::close;
use crate::session::Session;
use line_loop::LoopEnd;
use std::alloc::Global;
use view_engine::{Engine, StepFault};
use view_ports::{Folder, Servers, Sink, Source};

/// How many children map documents.
pub const WIDTH: u32 = 1;

/// Reads request lines and answers them, until the input ends or the run can't go on, and then ends the
/// children and answers the exit status. The words LANG=PATH name the query servers of languages.
pub fn serve<S: Source, K: Sink, F: Folder, C: Servers>(
    alloc: Global,
    words: &[String],
    source: &mut S,
    sink: &mut K,
    folder: &mut F,
    servers: &mut C,
) -> u8
    requires { C.may_follow servers.old [] }
    ensures serves { (opening : World) → Begins C.functions C.honest (languages_in (map string_bytes words.now)) (F.disk folder.old) opening
        → Serves C.functions C.honest (languages_in (map string_bytes words.now)) opening
        (outside S.Source K.Sink F.Folder C.Servers source.old sink.old folder.old servers.old)
        (outside S.Source K.Sink F.Folder C.Servers source.new sink.new folder.new servers.new)
        (AreLeft (C.may_follow servers.new)) result }
    ensures lines { AnswersLines
        (outside S.Source K.Sink F.Folder C.Servers source.old sink.old folder.old servers.old)
        (outside S.Source K.Sink F.Folder C.Servers source.new sink.new folder.new servers.new) result }
    ensures no_usage { result ≢ 2 }
    ensures no_load { result ≢ 10 }
    ensures ended { result ≡ 0 → IsAtEnd (S.left source.new) }
    ensures disk_failed { result ≡ 3 → Rose (F.faults folder.old) (F.faults folder.new) }
    ensures disk_spared { result ≢ 3 → result ≢ 4 → F.faults folder.new ≡ F.faults folder.old }
    ensures sink_failed { result ≡ 4 → Rose (K.faults sink.old) (K.faults sink.new) }
    ensures source_failed { result ≡ 5 → Rose (S.faults source.old) (S.faults source.new) }
    ensures source_count { S.faults source.old ≤ S.faults source.new }
    ensures sink_count { K.faults sink.old ≤ K.faults sink.new }
    ensures disk_count { F.faults folder.old ≤ F.faults folder.new }
    ensures server_count { C.faults servers.old ≤ C.faults servers.new }
{
    let mut engine = match Engine::open(alloc, folder, WIDTH, words) {
        Ok(engine) => engine,
        Err(fault) => return close(sink, fault),
    };
    let mut reply = Vec::new(alloc);
    let end = run(
        alloc,
        &mut engine,
        &mut reply,
        source,
        sink,
        folder,
        servers,
    );
    engine.finish(servers);
    match end {
        LoopEnd::Run(end) => end.status(),
        LoopEnd::Stopped(fault) => close(sink, fault),
    }
}

/// Has the engine answer request lines until the run ends. A reply is made in `reply`.
pub fn run<S: Source, K: Sink, F: Folder, C: Servers>(
    alloc: Global,
    engine: &mut Engine,
    reply: &mut Vec<u8>,
    source: &mut S,
    sink: &mut K,
    folder: &mut F,
    servers: &mut C,
) -> LoopEnd<StepFault>
    requires { IfTold (F.disk folder.old) (λ d. IsOpen engine.old d.now) }
    ensures comes { (origin : Origin) → IsAtOrigin F.Folder C.Servers origin
        (scene engine.old folder.old servers.old)
        → Comes F.Folder C.Servers origin (scene engine.new folder.new servers.new)
        (S.left source.old) (S.left source.new) (K.held sink.old) (K.held sink.new) result }
    ensures replies { HasReplied (S.left source.old) (S.left source.new)
        (K.held sink.old) (K.held sink.new) (F.disk folder.old) (F.disk folder.new)
        (update_seq engine.old) (C.faults servers.old) (C.faults servers.new) result }
    ensures wide { width_of engine.new ≡ width_of engine.old }
    ensures open { HasEnded result → LiesOpen F.Folder engine.new folder.new }
    ensures ended { HasEnded result → IsAtEnd (S.left source.new) }
    ensures disk_failed { result ≡ LoopEnd.Stopped StepFault.DiskFault
        → Rose (F.faults folder.old) (F.faults folder.new) }
    ensures disk_spared { result ≢ LoopEnd.Stopped StepFault.DiskFault
        → F.faults folder.new ≡ F.faults folder.old }
    ensures sink_failed { HasSinkFailed result → Rose (K.faults sink.old) (K.faults sink.new) }
    ensures source_failed { HasSourceFailed result
        → Rose (S.faults source.old) (S.faults source.new) }
    ensures source_count { S.faults source.old ≤ S.faults source.new }
    ensures sink_count { K.faults sink.old ≤ K.faults sink.new }
    ensures disk_count { F.faults folder.old ≤ F.faults folder.new }
    ensures server_count { C.faults servers.old ≤ C.faults servers.new }
{
    let mut session = Session {
        alloc,
        engine,
        folder,
        servers,
        reply,
        ran_out: false,
    };
    session.run(source, sink)
}
