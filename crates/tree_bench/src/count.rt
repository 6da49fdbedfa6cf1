//! How many nodes a tree has, and how many entries stand in them.

ghost use Rattle.std.specs.Prelude.{OnOk};

use builtin_reduces::RowItem;
use json_terms::NoMemory;
use std::alloc::Global;
use std::sync::ledger::Ledger;
use tree_laws::{Fill, Node, NodeSource, Steps, Tree, TreeFault, fetch_node};

/// The nodes of a tree.
#[derive(Clone, Copy, Debug, Default)]
pub struct Nodes {
    pub leaves: u64,
    pub inner: u64,
    /// How many children the inner nodes have together.
    pub children: u64,
}

/// Counts the nodes of the tree.
pub fn count_nodes<S: NodeSource, L: Ledger>(
    alloc: Global,
    store: &mut S,
    tree: Tree,
    steps: &mut Steps<L>,
) -> Result<Nodes, TreeFault<S::Fault, NoMemory>>
    requires { S.is_ready store.old }
    ensures { OnOk result (S.is_ready store.new) }
{
    let mut nodes = Nodes::default();
    if tree.height > 0 {
        let level = tree.height - 1;
        let root = fetch_node(
            alloc,
            store,
            tree.root,
            level,
            tree.count,
            Fill::Root,
            steps,
        )?;
        add_node(alloc, store, level, root, steps, &mut nodes)?;
    }
    Ok(nodes)
}

// Counts a node of a level and those below it.
fn add_node<S: NodeSource, L: Ledger>(
    alloc: Global,
    store: &mut S,
    level: u32,
    node: Node<RowItem>,
    steps: &mut Steps<L>,
    nodes: &mut Nodes,
) -> Result<(), TreeFault<S::Fault, NoMemory>>
    requires { S.is_ready store.old }
    ensures { OnOk result (S.is_ready store.new) }
{
    let children = match node {
        Node::Leaf(_) => {
            nodes.leaves = nodes.leaves.saturating_add(1);
            return Ok(());
        }
        Node::Inner(children) => children,
    };
    if level == 0 {
        return Ok(());
    }
    nodes.inner = nodes.inner.saturating_add(1);
    let low = level - 1;
    for child in children.as_slice() {
        nodes.children = nodes.children.saturating_add(1);
        let below = fetch_node(alloc, store, child.at, low, child.count, Fill::Below, steps)?;
        add_node(alloc, store, low, below, steps, nodes)?;
    }
    Ok(())
}
