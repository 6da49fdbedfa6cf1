//! Where the rows of documents stood, read from the tree of the back-index.

ghost use Rattle.std.specs.Prelude.{◌≡◌, ◌+◌, ◌*◌, ◌<◌, ◌∷◌, ◌++◌, ℕ, List, [], Some, IfOk, OnOk, MatchOption, bytes_eq, if◌then◌else◌, length};
ghost use Rattle.json_terms.specs.declared.term.Row.{Row};
ghost use Rattle.tree_laws.specs.Stores.{Places};
ghost use Rattle.tree_laws.specs.Trees.{IsTreeSize};
ghost use Rattle.tree_query.specs.Bare.{HoldsItems};
ghost use Rattle.tree_query.specs.Calls.{OnlyReads, Ran};
ghost use Rattle.index_items.specs.BackIndex.{IsBackIndex, places_in};
ghost use Rattle.index_items.specs.BackItem.{BackEntry};
ghost use Rattle.index_trees.specs.Edits as edits;
ghost use Rattle.index_trees.specs.Trees.{back_items};

use index_items::{BackItem, BackRows, BeforeId};
use json_terms::{Chars, NoMemory};
use row_exchange::DocRows;
use std::alloc::Global;
use std::sync::ledger::Ledger;
use tree_laws::{NodeSource, Steps, Tree, TreeFault};
use tree_query::{Walk, count_before};

// The rows of the item, where there is one and it is that of the document.
fn rows_of(alloc: Global, item: Option<BackItem>, id: &Chars) -> BackRows
    ensures { MatchOption item (result ≡ []) (λ entry. result ≡ (if bytes_eq entry.id id.now then entry.rows else [])) }
{
    let Some(item) = item else {
        return BackRows::from_vec(Vec::new(alloc));
    };
    if item.id.as_str() == id.as_str() {
        item.rows
    } else {
        BackRows::from_vec(Vec::new(alloc))
    }
}

// The item with this number. It takes `height` steps at most.
fn item_at<S: NodeSource, L: Ledger>(
    alloc: Global,
    store: &mut S,
    back: Tree,
    number: u64,
    steps: &mut Steps<L>,
) -> Result<Option<BackItem>, TreeFault<S::Fault, NoMemory>>
    requires ready { S.is_ready store.old }
    requires size { IsTreeSize back }
    requires within { number < back.count }
    ensures item { (there : Places) (front rest : List BackEntry) (entry : BackEntry) → S.nodes store.old ≡ Some there
        → HoldsItems back_items there back (front ++ entry ∷ rest) → number ≡ length front → IfOk result (λ got. got ≡ Some entry) }
    ensures reads { OnlyReads S.NodeSource back.height store.old store.new steps.old steps.new }
    ensures ran { Ran back_items S.NodeSource back store.old store.new result }
    ensures ready { OnOk result (S.is_ready store.new) }
{
    let mut walk: Walk<BackItem> = Walk::start(
        alloc,
        store,
        back,
        number,
        number + 1,
        false,
        steps,
    )?;
    walk.next(alloc, store, steps)
}

/// Where the rows of a document stand by the back-index, or nothing where it has no item for it.
///
/// It takes twice the tree's height in steps at most, and each of them gets a node. It gives up at once: each node that it got before
/// the last fits in any case. `Store` hands on what the store answered in this call, and after each other answer the store goes on.
/// `BadNode` names the last place that it got, where no node stands that fits there, and never comes where the tree has items.
/// `NoMemory` comes where memory runs out, and `Summer` never.
pub(crate) fn old_places<S: NodeSource, L: Ledger>(
    alloc: Global,
    store: &mut S,
    back: Tree,
    id: &Chars,
    steps: &mut Steps<L>,
) -> Result<BackRows, TreeFault<S::Fault, NoMemory>>
    requires ready { S.is_ready store.old }
    requires size { IsTreeSize back }
    ensures places { (there : Places) (entries : List BackEntry) (views : List (List Row)) → S.nodes store.old ≡ Some there
        → HoldsItems back_items there back entries → IsBackIndex views entries → IfOk result (λ places. places ≡ places_in views id.now) }
    ensures reads { OnlyReads S.NodeSource (2 * back.height) store.old store.new steps.old steps.new }
    ensures ran { Ran back_items S.NodeSource back store.old store.new result }
    ensures sound { (there : Places) (entries : List BackEntry) (at : ℕ) → S.nodes store.old ≡ Some there → HoldsItems back_items there back entries
        → result ≡ Err (TreeFault.BadNode at) → ⊥ }
    ensures ready { OnOk result (S.is_ready store.new) }
{
    let bound = BeforeId::new(id.as_str());
    let before = count_before(alloc, store, back, &bound, steps)?;
    if before == back.count {
        return Ok(BackRows::from_vec(Vec::new(alloc)));
    }
    let item = item_at(alloc, store, back, before, steps)?;
    Ok(rows_of(alloc, item, id))
}

fn push_rows(list: &mut Vec<BackRows>, rows: BackRows) -> Result<(), NoMemory>
    ensures { OnOk result (list.new.items ≡ list.old.items ++ rows ∷ []) }
{
    list.push(rows)?;
    Ok(())
}

/// The same of each of these documents, in their order.
pub(crate) fn all_old_places<S: NodeSource, L: Ledger>(
    alloc: Global,
    store: &mut S,
    back: Tree,
    changes: &[DocRows],
    steps: &mut Steps<L>,
) -> Result<Vec<BackRows>, TreeFault<S::Fault, NoMemory>>
    requires ready { S.is_ready store.old }
    requires size { IsTreeSize back }
    ensures places { (there : Places) (entries : List BackEntry) (views : List (List Row)) → S.nodes store.old ≡ Some there
        → HoldsItems back_items there back entries → IsBackIndex views entries → IfOk result (λ olds. olds.items ≡ edits.old_places changes.now views) }
    ensures number { IfOk result (λ olds. length olds.items ≡ length changes.now) }
    ensures reads { OnlyReads S.NodeSource (length changes.now * (2 * back.height)) store.old store.new steps.old steps.new }
    ensures ran { Ran back_items S.NodeSource back store.old store.new result }
    ensures sound { (there : Places) (entries : List BackEntry) (at : ℕ) → S.nodes store.old ≡ Some there → HoldsItems back_items there back entries
        → result ≡ Err (TreeFault.BadNode at) → ⊥ }
    ensures ready { OnOk result (S.is_ready store.new) }
{
    let mut olds = Vec::new(alloc);
    for change in changes {
        let rows = old_places(alloc, store, back, &change.id, steps)?;
        push_rows(&mut olds, rows)?;
    }
    Ok(olds)
}
