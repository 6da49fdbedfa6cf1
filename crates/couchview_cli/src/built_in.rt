//! Query servers of which some are built in.

ghost use Rattle.std.specs.Prelude.{◌≡◌, ◌↔◌, ℕ, List, codes, [], IfOk, false};
ghost use Rattle.view_ports.specs.Field.{field};
ghost use Rattle.map_server.specs.Pick.{pick};
ghost use Rattle.couchview_cli.specs.BuiltIn as spec;

use json_terms::NoMemory;
use map_server::PickServers;
use real_ports::{BuiltInPath, Switch};
use std::alloc::Global;
use view_ports::{FieldServers, Servers, ServersFault};

/// `builtin:field`, the path of the servers of the language `field`.
#[derive(Drop)]
pub struct FieldPath;

impl BuiltInPath for FieldPath {
    ghost bytes = { codes "builtin:field" };

    fn path() -> &'static str {
        "builtin:field"
    }
}

/// `builtin:pick`, the path of the servers of the language `pick`.
#[derive(Drop)]
pub struct PickPath;

impl BuiltInPath for PickPath {
    ghost bytes = { codes "builtin:pick" };

    fn path() -> &'static str {
        "builtin:pick"
    }
}

/// Whether this is the path of servers in the process.
pub fn is_built_in(path: &str) -> bool
    ensures { result ≡ spec.is_built_in path.now }
{
    path == FieldPath::path() || path == PickPath::path()
}

/// The servers of `builtin:pick`, those of `builtin:field`, and those of every other path.
type ByPath<C> = Switch<PickPath, PickServers, Switch<FieldPath, FieldServers, C>>;

/// Query servers of which those of the paths `builtin:field` and `builtin:pick` run in the process, and those of every
/// other path are of another kind.
#[derive(Drop)]
pub struct Mixed<C> {
    servers: ByPath<C>,
}

impl<C: Servers + Drop> Mixed<C> {
    /// The servers in the process beside these others. None has a child, if the others have none, and of those in the process
    /// no calls are to fail.
    pub fn new(alloc: Global, others: C) -> Result<Mixed<C>, NoMemory>
        ensures calls { IfOk result (λ m. C.may_follow others []
            → ⟦<Mixed<C> as Servers>⟧.may_follow m []) }
        ensures field { ⟦<Mixed<C> as Servers>⟧.functions (codes "builtin:field") ≡ field }
        ensures pick { ⟦<Mixed<C> as Servers>⟧.functions (codes "builtin:pick") ≡ pick }
        ensures honest { ⟦<Mixed<C> as Servers>⟧.honest (codes "builtin:field")
            × ⟦<Mixed<C> as Servers>⟧.honest (codes "builtin:pick") }
        ensures elsewhere { (path : List ℕ) → spec.is_built_in path ≡ false
            → (⟦<Mixed<C> as Servers>⟧.functions path ≡ C.functions path)
            × (⟦<Mixed<C> as Servers>⟧.honest path ↔ C.honest path) }
        ensures others { IfOk result (λ m. m.servers.others.others ≡ others) }
        ensures unfailing { IfOk result (λ m. (m.servers.built_in.fail.items ≡ [])
            × (m.servers.others.built_in.fail.items ≡ [])) }
    {
        let field = Switch::over(FieldServers::new(alloc, Vec::new(alloc))?, others);
        let servers = Switch::over(PickServers::new(alloc, Vec::new(alloc))?, field);
        Ok(Mixed { servers })
    }
}

impl<C: Servers> Servers for Mixed<C> {
    ghost may_follow = { λ m. ⟦<ByPath<C> as Servers>⟧.may_follow m.servers };

    ghost faults = { λ m. ⟦<ByPath<C> as Servers>⟧.faults m.servers };

    ghost functions = { ⟦<ByPath<C> as Servers>⟧.functions };

    ghost honest = { ⟦<ByPath<C> as Servers>⟧.honest };

    fn start(&mut self, alloc: Global, slot: u32, path: &str) -> Result<(), ServersFault> {
        self.servers.start(alloc, slot, path)
    }

    fn send(&mut self, alloc: Global, slot: u32, line: &[u8]) -> Result<(), ServersFault> {
        self.servers.send(alloc, slot, line)
    }

    fn receive(&mut self, alloc: Global, slot: u32) -> Result<Vec<u8>, ServersFault> {
        self.servers.receive(alloc, slot)
    }

    fn stop(&mut self, slot: u32) {
        self.servers.stop(slot);
    }
}
