//! Laws of refusals and of updates that come page by page. Each holds for all values, and its function does nothing.
ghost use Rattle.std.specs.Prelude.{ℕ, List};
ghost use Rattle.view_ports.specs.Calls.{Call};
ghost use Rattle.child_pool.specs.Firsts.{BeginWithNone, EndWithAll};
ghost use Rattle.child_pool.specs.Honesty.{ComplainsRightly, GivesNoBadReply, MapsComplainRightly};
ghost use Rattle.child_pool.specs.Jobs.{Job};

use view_ports::Servers;

/// The children of an honest path give no bad reply, and complain only of a source that doesn't compile.
pub fn honest_paths_are_refused_rightly<C: Servers>()
    ensures replies { (job : Job) (added before : List Call) (text : List ℕ) → GivesNoBadReply C.functions C.honest job added before text }
    ensures complaints { (job : Job) (added before : List Call) → ComplainsRightly C.functions C.honest job added before }
    ensures maps { MapsComplainRightly C.functions C.honest }
{}

/// An update page by page begins with no document, and where the first ones are all, it is one by `Pool::map_all`.
pub fn updates_go_in_pages<C: Servers>()
    ensures none { BeginWithNone C.Servers }
    ensures all { EndWithAll C.Servers }
{}
