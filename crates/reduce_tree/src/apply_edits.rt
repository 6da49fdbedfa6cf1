//! Edits of a tree.

ghost use Rattle.reduce_tree.specs.Given.{Takes};
ghost use Rattle.reduce_tree.specs.Pieces.{AreAmong, InsertAmong, AreTreePieces};
ghost use Rattle.reduce_tree.specs.Halted.{WerePieces};
ghost use Rattle.reduce_tree.specs.Applied.{applied, AreEdits, insertions, RemoveNone};
ghost use Rattle.reduce_tree.specs.Counts.{ReadsFor, node_size};
ghost use Rattle.reduce_tree.specs.Sums.{PutsKnown};
ghost use Rattle.reduce_tree.specs.Calls.{places, Ran, PutNone, BlamesNone, UnlessStore};
ghost use Rattle.std.specs.Prelude.{ℕ, ◌≡◌, ◌+◌, ◌*◌, ◌≤◌, ◌^◌, List, IfOk, OnOk, length, max, Some, ◌<◌, IfErr, MatchResult, All};
ghost use Rattle.tree_laws.specs.Stores.{KeepsPlaces, Places, WhereTold};
ghost use Rattle.tree_laws.specs.SummerTrees.{IsTree, IsTreeSize};

use crate::edit::Edit;
use crate::root::{edit_root, raise};
use std::alloc::Global;
use std::sync::ledger::Ledger;
use tree_laws::{Item, NodeStore, Steps, Summer, Tree, TreeFault};

/// The tree with the edits made, which name their items in order, each once: an item that is removed is there no more, and one
/// that is inserted takes the place of the one that compares equal to it, if there is one. Nodes are put into the store, and the
/// old tree stays as it is. Where each edit removes an item that is not there nothing is put, and the answer is the tree itself.
///
/// A step makes two reads of the store at most, whatever is answered. Where `h` levels are enough, which are the tree's height at
/// least and take all its items and those inserted below `8^h`, each edit takes `8 * (h + 1)` steps and `4 * (h + 1)` puts at most,
/// whatever is answered; a put at which the store fails counts too. The store grows by 8 bytes at least for each item inserted, and
/// items are inserted only where the summer is usable. Where no item of the old tree or inserted is spelled in more than `longest`
/// bytes, it grows by `4 * (h + 1)` times what a node of 32 such items takes at most for each edit, whatever is answered. Where a
/// tree is answered, `h` may be the greater of the two trees' heights in all of this.
///
/// No bad node is passed over. Each place that was got is reached from the tree's root, and a node that fits stands there, of which
/// each summary has the bytes of a value; or this call put such a node there, and its entries lead to such places alone. Only the
/// place got last may be another: the bad one that `BadNode` names, and where the store failed or memory ran out any that is reached
/// so. After `Store` that is by what stood in the store when the call on it began that failed, and else by what stands there after the
/// call.
///
/// Each piece put, before a refusal too, is a node of 32 entries at most. A leaf is put only where the summer was usable, and in this
/// call `leaf` was given exactly its items. Each summary in an inner node is that of a value that fits. The summer answered it in this
/// call, where the summer notes that, or it stood, where the store tells that, in a node at a place that this call got before it put
/// this one. All this holds too of a piece at which the store fails. Over a tree each piece has 8 entries at least but for the root,
/// and its items are those of the old tree and those inserted; it stands in the store after the call, and after `Store`, but for one at
/// which the store failed, it stood there when the call on the store began that failed.
///
/// `Store` and `Summer` hand on what the store and the summer answered in this call, and the other of the two went on. The place that
/// `BadNode` names is reached from the tree's root, and no node that fits stands there, or one that keeps a summary with the bytes of
/// no value: over a tree none is found. `NoMemory` is answered where memory runs out. After each refusal but `Store` the store is
/// ready and keeps what stood in it, and after `BadNode` and `NoMemory` both went on.
pub fn apply<S: NodeStore, M: Summer, L: Ledger>(
    alloc: Global,
    store: &mut S,
    summer: &mut M,
    tree: Tree,
    edits: &[Edit<M::Unit>],
    steps: &mut Steps<L>,
) -> Result<Tree, TreeFault<S::Fault, M::Fault>>
    requires ready { S.is_ready store.old }
    requires size { IsTreeSize tree }
    requires few { tree.count + insertions edits.now ≤ 2 ^ 40 }
    ensures tree { (first : M) (there : Places) (items : List M.Unit) → S.nodes store.old ≡ Some there → M.goes first summer.old
        → AreEdits M.Unit.order edits.now → IsTree M.Unit.Item M.Summer first there tree items
        → IfOk result (λ after. IsTree M.Unit.Item M.Summer first (places (S.nodes store.new)) after (applied M.Unit.order edits.now items)) }
    ensures kept { UnlessStore result (KeepsPlaces (S.nodes store.old) (S.nodes store.new)) }
    ensures size { IfOk result IsTreeSize }
    ensures count { IfOk result (λ after. after.count ≤ tree.count + insertions edits.now) }
    ensures puts { IfOk result (λ after. length (S.puts store.new) ≤ length (S.puts store.old) + length edits.now * (4 * (max tree.height after.height + 1))) }
    ensures steps { IfOk result (λ after. steps.new ≤ steps.old + length edits.now * (8 * (max tree.height after.height + 1))) }
    ensures most_puts { (h : ℕ) → tree.height ≤ h → tree.count + insertions edits.now < 8 ^ h → length (S.puts store.new) ≤ length (S.puts store.old) + length edits.now * (4 * (h + 1)) }
    ensures most_steps { (h : ℕ) → tree.height ≤ h → tree.count + insertions edits.now < 8 ^ h → steps.new ≤ steps.old + length edits.now * (8 * (h + 1)) }
    ensures pieces { (first : M) (there : Places) (items among : List M.Unit) → S.nodes store.old ≡ Some there → M.goes first summer.old → IsTree M.Unit.Item M.Summer first there tree items
        → AreAmong among items → InsertAmong among edits.now → MatchResult result (λ _. AreTreePieces M.Unit.Item M.Summer first among (places (S.nodes store.new)) (S.puts store.old) (S.puts store.new)) (λ fault. WerePieces M.Unit.Item S.NodeSource M.Summer first among store.old store.new fault) }
    ensures grows { OnOk result (S.size store.old + 8 * insertions edits.now ≤ S.size store.new) }
    ensures usable { 0 < insertions edits.now → OnOk result (M.usable summer.old) }
    ensures none { (first : M) (there : Places) (items : List M.Unit) → S.nodes store.old ≡ Some there → M.goes first summer.old → IsTree M.Unit.Item M.Summer first there tree items
        → RemoveNone M.Unit.order edits.now items → IfOk result (λ after. (after ≡ tree) × PutNone S.NodeSource store.old store.new) }
    ensures met { WhereTold (S.nodes store.old) (λ _. Takes M.Unit.Item S.NodeSource M.Summer summer.old tree (S.puts store.old) store.old store.new result) }
    ensures bytes { (first : M) (there : Places) (items among : List M.Unit) (longest h : ℕ) → S.nodes store.old ≡ Some there → M.goes first summer.old → IsTree M.Unit.Item M.Summer first there tree items → AreAmong among items → InsertAmong among edits.now
        → All (λ x. length (M.Unit.spelled x) ≤ longest) among → tree.height ≤ h → tree.count + insertions edits.now < 8 ^ h → S.size store.new ≤ S.size store.old + (length edits.now * (4 * (h + 1))) * node_size longest }
    ensures done_bytes { (first : M) (there : Places) (items among : List M.Unit) (longest : ℕ) → S.nodes store.old ≡ Some there → M.goes first summer.old → IsTree M.Unit.Item M.Summer first there tree items → AreAmong among items → InsertAmong among edits.now
        → All (λ x. length (M.Unit.spelled x) ≤ longest) among → IfOk result (λ after. S.size store.new ≤ S.size store.old + (length edits.now * (4 * (max tree.height after.height + 1))) * node_size longest) }
    ensures reads { ReadsFor (S.reads store.old) (S.reads store.new) steps.old steps.new }
    ensures sound { (first : M) (there : Places) (items : List M.Unit) → S.nodes store.old ≡ Some there → M.goes first summer.old → IsTree M.Unit.Item M.Summer first there tree items → IfErr result BlamesNone }
    ensures sums { PutsKnown M.Unit.Item S.NodeSource M.Summer summer.old store.old summer.new store.new (S.puts store.old) result }
    ensures ran { Ran M.Unit.Item S.NodeSource M.Summer store.old store.new summer.old summer.new result }
    ensures ready { UnlessStore result (S.is_ready store.new) }
{
    if edits.is_empty() {
        return Ok(tree);
    }
    let row = edit_root(alloc, store, summer, tree, edits, steps)?;
    if row.same {
        return Ok(tree);
    }
    let after = raise(alloc, store, summer, row.level, row.node, steps)?;
    Ok(after)
}
