//! Getting nodes on the way down a tree.

ghost use Rattle.std.specs.Prelude.{◌≡◌, ◌∷◌, IfErr, IfOk, OnOk};
ghost use Rattle.tree_laws.specs.Fetching.{IsBadAt};
ghost use Rattle.tree_laws.specs.Fitting.{IsFitFor};
ghost use Rattle.tree_laws.specs.Reaching.{Reaches, StandsFit};
ghost use Rattle.tree_laws.specs.Stores.{WhereTold};
ghost use Rattle.tree_laws.specs.declared.tree.Tree.{Tree};
ghost use Rattle.tree_query.specs.Calls.{Caused, OnlyReads, Ran};
ghost use Rattle.tree_query.specs.Leading.{Blames};

use std::alloc::Global;
use std::sync::ledger::Ledger;
use tree_laws::{Fill, Item, Node, NodeSource, Steps, TreeFault, fetch_node};

/// `fetch_node`, with what it did in the words of this crate. The node at a place of a level, where so many items are to stand.
/// `BadNode(at)` is answered exactly where no node that fits stands there.
pub(crate) fn fetch<S: NodeSource, T: Item, M, L: Ledger>(
    alloc: Global,
    store: &mut S,
    at: u64,
    level: u32,
    count: u64,
    fill: Fill,
    steps: &mut Steps<L>,
) -> Result<Node<T>, TreeFault<S::Fault, M>>
    requires { S.is_ready store.old }
    ensures fit { IfOk result (IsFitFor level count fill) }
    ensures stands { WhereTold (S.nodes store.old) (λ there. IfOk result (StandsFit T.Item there at level count fill)) }
    ensures reads { OnlyReads S.NodeSource 1 store.old store.new steps.old steps.new }
    ensures ran { (tree : Tree) → WhereTold (S.nodes store.old) (λ there. Reaches T.Item there tree at level count fill)
        → Ran T.Item S.NodeSource tree store.old store.new result }
    ensures bad { WhereTold (S.nodes store.old) (λ there. IfErr result (Blames (λ place. (place ≡ at) × IsBadAt T.Item level count fill there at))) }
    ensures cause { Caused S.NodeSource store.old store.new result }
    ensures gets { S.gets store.new ≡ at ∷ S.gets store.old }
    ensures ready { OnOk result (S.is_ready store.new) }
{
    let node = fetch_node(alloc, store, at, level, count, fill, steps)?;
    Ok(node)
}
