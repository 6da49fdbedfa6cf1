//! All items of a tree from left to right, where each node fits and each entry says what stands below it.

ghost use Rattle.std.specs.Prelude.{OnOk};

use builtin_reduces::{BuiltinSummer, RowItem};
use json_terms::{NoMemory, Term};
use std::alloc::Global;
use std::sync::ledger::Ledger;
use std::test::Fail;
use tree_laws::{Child, Fill, Item, Node, NodeSource, Steps, Summer, Tree, TreeFault, fetch_node};

/// The items of the tree.
pub fn items_in<S: NodeSource, L: Ledger>(
    alloc: Global,
    store: &mut S,
    summer: &mut BuiltinSummer,
    tree: Tree,
    steps: &mut Steps<L>,
) -> Result<Vec<RowItem>, Fail>
    requires { S.is_ready store.old }
{
    let mut items = Vec::new(alloc);
    if tree.height > 0 {
        let level = tree.height - 1;
        add_items(
            alloc,
            store,
            summer,
            tree.root,
            level,
            tree.count,
            Fill::Root,
            steps,
            &mut items,
        )?;
    }
    Ok(items)
}

fn add_items<S: NodeSource, L: Ledger>(
    alloc: Global,
    store: &mut S,
    summer: &mut BuiltinSummer,
    at: u64,
    level: u32,
    count: u64,
    fill: Fill,
    steps: &mut Steps<L>,
    items: &mut Vec<RowItem>,
) -> Result<(), Fail>
    requires { S.is_ready store.old }
    ensures { OnOk result (S.is_ready store.new) }
{
    match fetch_node::<S, RowItem, NoMemory, L>(alloc, store, at, level, count, fill, steps) {
        Ok(Node::Leaf(own)) => {
            for item in own.as_slice() {
                items.push(item.copy_item(alloc)?)?;
            }
            Ok(())
        }
        Ok(Node::Inner(children)) => {
            if level == 0 {
                return Err(Fail::from("an inner node where leaves stand"));
            }
            for child in children.as_slice() {
                let start = items.len();
                add_items(
                    alloc,
                    store,
                    summer,
                    child.at,
                    level - 1,
                    child.count,
                    Fill::Below,
                    steps,
                    items,
                )?;
                match items.as_slice().get(start..) {
                    Some(own) => are_told(alloc, summer, child, own)?,
                    None => return Err(Fail::from("items were lost")),
                }
            }
            Ok(())
        }
        Err(TreeFault::BadNode(at)) => Err(Fail::from(format!(in alloc; "bad node at {at}")?)),
        Err(_) => Err(Fail::from("a node isn't fetched")),
    }
}

/// The entry of a child has the number, the last and the value of the items below it.
fn are_told(
    alloc: Global,
    summer: &mut BuiltinSummer,
    child: &Child<RowItem>,
    own: &[RowItem],
) -> Result<(), Fail> {
    let Some(last) = own.last() else {
        return Err(Fail::from("a child without items"));
    };
    if own.len() as u64 != child.count || !same_item(last, &child.last) {
        return Err(Fail::from("an entry with another number or last item"));
    }
    let sum = summer.leaf(alloc, own)?;
    let mut bytes = Vec::new(alloc);
    summer.encode_sum(alloc, &sum, &mut bytes)?;
    if bytes.as_slice() != child.sum.as_slice() {
        return Err(Fail::from("an entry with another summary"));
    }
    Ok(())
}

/// The numbers of a row that has two.
pub fn pair_of(item: &RowItem) -> Option<(i64, i64)> {
    match (&item.row.key, &item.row.value) {
        (Term::Int(key), Term::Int(value)) => Some((*key, *value)),
        _ => None,
    }
}

/// Whether two items are the same row of two numbers.
pub fn same_item(a: &RowItem, b: &RowItem) -> bool {
    pair_of(a).is_some() && pair_of(a) == pair_of(b)
}
