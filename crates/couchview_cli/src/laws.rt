//! The laws of runs. Their function does nothing.

ghost use Rattle.couchview_cli.specs.Laws.{RunsGoOn, RunsGoOnBehindStops};
ghost use Rattle.couchview_cli.specs.Serving.{AreLeft};

use view_ports::Servers;

/// A run over the disk that a finished run left begins with the world at that run's end, also where it has other servers. One over what
/// a crash left of a folder begins with a world that this stands for.
pub fn runs_go_on<C: Servers, D: Servers>(_servers: &C, _later: &D)
    ensures finished { RunsGoOn C.functions D.functions C.honest D.honest
        (AreLeft (C.may_follow _servers.now)) (AreLeft (D.may_follow _later.now)) }
    ensures stopped { RunsGoOnBehindStops D.functions D.honest (AreLeft (D.may_follow _later.now)) }
{}
