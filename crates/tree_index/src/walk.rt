//! Reading the rows of a tree.

ghost use Rattle.std.specs.Prelude.{◌≡◌, ◌++◌, ◌∷◌, [], OnOk};
ghost use Rattle.tree_laws.specs.Trees.{IsTreeSize};
ghost use Rattle.tree_index.specs.Walks.{WalksRows, listed};

use builtin_reduces::RowItem;
use json_terms::{NoMemory, Row};
use std::alloc::Global;
use std::sync::ledger::Ledger;
use tree_laws::{NodeSource, Steps, Tree, TreeFault};
use tree_query::Walk;

/// The rows of a tree, in order. It takes `(n + 1) * h` steps at most for `n` rows and a height of `h`.
pub(crate) fn walk_rows<S: NodeSource, L: Ledger>(
    alloc: Global,
    store: &mut S,
    tree: Tree,
    steps: &mut Steps<L>,
) -> Result<Vec<Row>, TreeFault<S::Fault, NoMemory>>
    requires ready { S.is_ready store.old }
    requires size { IsTreeSize tree }
    ensures { WalksRows S.NodeSource tree store.old store.new steps.old steps.new (listed result) }
{
    let mut walk: Walk<RowItem> = Walk::start(alloc, store, tree, 0, tree.count, false, steps)?;
    let mut rows = Vec::new(alloc);
    for _row in 0..tree.count {
        match walk.next(alloc, store, steps)? {
            Some(item) => add_row(&mut rows, item.row)?,
            None => return Ok(rows),
        }
    }
    Ok(rows)
}

fn add_row(rows: &mut Vec<Row>, row: Row) -> Result<(), NoMemory>
    ensures { OnOk result (rows.new.items ≡ rows.old.items ++ row ∷ []) }
{
    rows.push(row)?;
    Ok(())
}
