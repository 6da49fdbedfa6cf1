//! Random scripts, with a stop within each call.

ghost use Rattle.std.specs.Prelude.{codes};

use crate::left::CHOICES;
use crate::maps::Map;
use crate::requests::{Body, Request};
use crate::scripts::{Design, Dice, Script};
use crate::stage::Stage;
use map_server::PickServers;
use real_ports::{BuiltInPath, Switch};
use std::alloc::Global;
use std::test::Fail;
use view_ports::{FieldServers, Servers};

const RUNS: usize = 30;

/// Plays a script, and answers within how many calls it stopped.
fn play<C: Servers>(
    alloc: Global,
    servers: &mut C,
    script: Script,
    probes: &[Request],
    choices: u64,
) -> Result<u64, Fail> {
    let mut stage = Stage::new(alloc, script)?;
    let mut calls = 0_u64;
    for _ in 0..RUNS {
        stage.run(alloc, servers)?;
        calls = calls.saturating_add(stage.look(alloc, servers, probes, choices)?);
        stage.stop(alloc, servers)?;
    }
    Ok(calls)
}

const FIELD: Design = ("_design/s", [Map::K, Map::M, Map::N]);

const PICK: Design = ("_design/t", [Map::Both, Map::Each, Map::Nulls]);

/// In either language, with map functions of the others.
const EITHER: Design = ("_design/u", [Map::K, Map::Both, Map::Each]);

/// What shows the documents, and each index that a script may have made: first those of the language `field`.
const PROBES: [Request; 17] = [
    Request::Info,
    Request::Get("d1"),
    Request::View("_design/s"),
    Request::Put("_design/f", None, Body::Design(Map::K)),
    Request::View("_design/f"),
    Request::Put("_design/g", None, Body::Design(Map::M)),
    Request::View("_design/g"),
    Request::Put("_design/h", None, Body::Design(Map::N)),
    Request::View("_design/h"),
    Request::View("_design/t"),
    Request::View("_design/u"),
    Request::Put("_design/p", None, Body::Design(Map::Both)),
    Request::View("_design/p"),
    Request::Put("_design/q", None, Body::Design(Map::Each)),
    Request::View("_design/q"),
    Request::Put("_design/r", None, Body::Design(Map::Nulls)),
    Request::View("_design/r"),
];

#[test]
fn a_stop_leaves_what_was_answered(rt: HostRuntime) -> Result<(), Fail> {
    let alloc = rt.alloc();
    let mut servers = FieldServers::new(alloc, Vec::new(alloc))?;
    let script = Script {
        dice: Dice::new(1),
        designs: [FIELD, FIELD, FIELD],
    };
    let calls = play(alloc, &mut servers, script, &PROBES[..9], CHOICES)?;
    assert!(rt; calls > 2000, "{calls}");
    Ok(())
}

/// The path of the language `pick`.
#[derive(Drop)]
struct PickPath;

impl BuiltInPath for PickPath {
    ghost bytes = { codes "builtin:pick" };

    fn path() -> &'static str {
        "builtin:pick"
    }
}

type BothServers = Switch<PickPath, PickServers, FieldServers>;

#[test]
fn a_stop_leaves_what_two_languages_answered(rt: HostRuntime) -> Result<(), Fail> {
    let alloc = rt.alloc();
    let pick = PickServers::new(alloc, Vec::new(alloc))?;
    let mut servers = BothServers::over(pick, FieldServers::new(alloc, Vec::new(alloc))?);
    let script = Script {
        dice: Dice::new(2),
        designs: [FIELD, PICK, EITHER],
    };
    let calls = play(alloc, &mut servers, script, &PROBES, 3)?;
    assert!(rt; calls > 2000, "{calls}");
    Ok(())
}
