//! Edits of the nodes of a tree in one pass.

ghost use Rattle.tree_laws.specs.declared.tree.Tree.{Tree};
ghost use Rattle.reduce_tree.specs.Given.{AllGiven, Given, IsUnderWay, Took};
ghost use Rattle.tree_laws.specs.declared.tree.Fill.TheVariants.{Below};
ghost use Rattle.reduce_tree.specs.Pieces.{ArePieces, AreAmong, InsertAmong};
ghost use Rattle.reduce_tree.specs.Halted.{WerePieces};
ghost use Rattle.reduce_tree.specs.Applied.{applied, edit_key, insertions, RemoveNone};
ghost use Rattle.reduce_tree.specs.Charges.{slack, ready, pending, rounding, ArePut, Spent};
ghost use Rattle.reduce_tree.specs.Counts.{ReadsFor};
ghost use Rattle.reduce_tree.specs.Sums.{IsOnTheWay, KnowsNode, PutsKnown, KnowsRow, KnowsSum};
ghost use Rattle.reduce_tree.specs.Calls.{places, IsKnown, Ran, PutNone, BlamesNone, IfSound};
ghost use Rattle.reduce_tree.specs.Rows.{IsAtLevel, Carries, leaf_items};
ghost use Rattle.reduce_tree.specs.declared.edit.Edit.{Edit};
ghost use Rattle.std.specs.List.Sorted.{IsStrictlySortedBy};
ghost use Rattle.std.specs.Prelude.{true, false, ◌≡◌, ◌≢◌, ◌+◌, ◌*◌, ◌<◌, ◌≤◌, ◌^◌, ◌∷◌, ◌++◌, List, [], IfOk, OnOk, All, length, vec_len, take, slice_index_or, IfErr, OnErr, MatchResult, ℕ};
ghost use Rattle.std.specs.declared.cmp.Ordering.TheVariants.{Less};
ghost use Rattle.tree_laws.specs.Fitting.{AreLarge, item_count};
ghost use Rattle.tree_laws.specs.Nodes.{entries};
ghost use Rattle.tree_laws.specs.SummerTrees.{Has, IsChild, AreChildren, Stands};
ghost use Rattle.tree_laws.specs.declared.node.Node.TheVariants.{Leaf, Inner};

use crate::edit::Edit;
use crate::fetch::fetch;
use crate::leaf::merge;
use crate::parts::{add_all, add_last, take_first};
use crate::place::place_row;
use crate::row::{Row, join_rows};
use std::alloc::Global;
use std::sync::ledger::Ledger;
use tree_laws::{Child, Children, Fill, Item, Items, Node, NodeStore, Steps, Summer, TreeFault};

/// How many edits from the front are not after an item.
fn count_upto<T: Item>(edits: &[Edit<T>], last: &T) -> usize
    ensures within { result ≤ length edits.now }
    ensures upto { All (λ e. T.order last.now (edit_key e) ≢ Less) (take result edits.now) }
    ensures stops { (d : Edit T) → result < length edits.now → T.order last.now (edit_key (slice_index_or edits.now result d)) ≡ Less }
{
    for (i, edit) in edits.iter().enumerate() {
        if last.cmp_item(edit.key()).is_lt() {
            return i;
        }
    }
    edits.len()
}

/// The edits below a child, and those of the children after it. The last child takes all.
fn share<'a, T: Item>(
    edits: &'a [Edit<T>],
    child: &Child<T>,
    is_last: bool,
) -> (&'a [Edit<T>], &'a [Edit<T>])
    ensures whole { edits.now ≡ result.0.now ++ result.1.now }
    ensures below { is_last ≡ false → All (λ e. T.order child.now.last (edit_key e) ≢ Less) result.0.now }
    ensures above { (f : Edit T) (gs : List (Edit T)) → result.1.now ≡ f ∷ gs → T.order child.now.last (edit_key f) ≡ Less }
    ensures all { is_last ≡ true → length result.1.now ≡ 0 }
{
    let at = if is_last {
        edits.len()
    } else {
        count_upto(edits, &child.last)
    };
    edits.split_at(at)
}

/// Whether the entries of a row can be put as they are, as children of the level above.
fn is_ready<T>(low: u32, row: &Row<T>) -> bool
    ensures least { result ≡ true → 0 < entries row.now.node → 8 ≤ entries row.now.node }
    ensures level { result ≡ true → 0 < entries row.now.node → row.now.level ≡ low }
    ensures ready { result ≡ ready low row.now.level (entries row.now.node) }
{
    row.node.is_empty() || (row.level == low && row.node.len() >= 8)
}

/// Puts the entries of a row, if it has some, and adds their nodes to the children before.
fn settle<S: NodeStore, M: Summer, L: Ledger>(
    alloc: Global,
    store: &mut S,
    summer: &mut M,
    low: u32,
    done: &mut Vec<Child<M::Unit>>,
    row: Row<M::Unit>,
    steps: &mut Steps<L>,
) -> Result<(), TreeFault<S::Fault, M::Fault>>
    requires ready { S.is_ready store.old }
    requires settled { ready low row.level (entries row.node) ≡ true }
    requires kind { IsAtLevel row.level row.node }
    requires large { AreLarge row.level row.node }
    requires done { AreLarge (low + 1) (Inner done.old.items) }
    requires few { item_count (Inner done.old.items) + item_count row.node ≤ 2 ^ 40 }
    ensures items { (first : M) (items : List M.Unit) → IsKnown M.Unit.Item S.NodeSource M.Summer first summer.old store.old → Carries M.Unit.Item M.Summer first (places (S.nodes store.old)) low done.old.items row.level row.node items
        → IfOk result (λ _. AreChildren M.Unit.Item M.Summer first (Stands M.Unit.Item M.Summer first (places (S.nodes store.new)) low) done.new.items items) }
    ensures done { OnOk result (AreLarge (low + 1) (Inner done.new.items)) }
    ensures count { OnOk result (item_count (Inner done.new.items) ≡ item_count (Inner done.old.items) + item_count row.node) }
    ensures none { entries row.node ≡ 0 → OnOk result (done.new.items ≡ done.old.items) }
    ensures steps { OnOk result (31 * steps.new + vec_len done.new ≤ 31 * steps.old + (vec_len done.old + (entries row.node + rounding (entries row.node)))) }
    ensures once { OnOk result (93 * length (S.puts store.new) + (vec_len done.new + 62 * steps.old) ≤ 93 * length (S.puts store.old) + (62 * steps.new + (vec_len done.old + (entries row.node + rounding (entries row.node))))) }
    ensures spent { OnErr result (Spent steps.old steps.new (length (S.puts store.old)) (length (S.puts store.new)) (vec_len done.old + (entries row.node + rounding (entries row.node))) (vec_len done.old + (entries row.node + rounding (entries row.node)))) }
    ensures pieces { (first : M) (items among : List M.Unit) → IsKnown M.Unit.Item S.NodeSource M.Summer first summer.old store.old → Carries M.Unit.Item M.Summer first (places (S.nodes store.old)) low done.old.items row.level row.node items → AreAmong among items → MatchResult result (λ _. ArePieces M.Unit.Item M.Summer first among (places (S.nodes store.new)) Below (S.puts store.old) (S.puts store.new)) (λ fault. WerePieces M.Unit.Item S.NodeSource M.Summer first among store.old store.new fault) }
    ensures leaf { OnOk result (ArePut (S.size store.old) (S.size store.new) (M.usable summer.old) (leaf_items row.node) 0) }
    ensures unput { entries row.node ≡ 0 → OnOk result (PutNone S.NodeSource store.old store.new) }
    ensures gets { S.gets store.new ≡ S.gets store.old }
    ensures given { (first : M) (tree : Tree) (pieces : List (List ℕ)) → IsUnderWay M.Unit.Item S.NodeSource M.Summer first pieces summer.old store.old → All (Given M.Unit.Item S.NodeSource M.Summer first tree pieces store.old low) done.old.items → AllGiven M.Unit.Item S.NodeSource M.Summer first tree pieces store.old row.level row.node → OnOk result (All (Given M.Unit.Item S.NodeSource M.Summer first tree pieces store.new low) done.new.items) }
    ensures reads { ReadsFor (S.reads store.old) (S.reads store.new) steps.old steps.new }
    ensures sound { IfErr result BlamesNone }
    ensures sums { (first : M) (begun : S) → KnowsNode M.Unit.Item S.NodeSource M.Summer first begun summer.old store.old row.node → PutsKnown M.Unit.Item S.NodeSource M.Summer first begun summer.new store.new (S.puts store.old) result }
    ensures known { (first : M) (begun : S) → M.goes first summer.old → KnowsRow M.Unit.Item S.NodeSource M.Summer first begun summer.old store.old done.old.items → OnOk result (KnowsRow M.Unit.Item S.NodeSource M.Summer first begun summer.new store.new done.new.items) }
    ensures ran { Ran M.Unit.Item S.NodeSource M.Summer store.old store.new summer.old summer.new result }
    ensures ready { OnOk result (S.is_ready store.new) }
{
    if row.node.is_empty() {
        return Ok(());
    }
    let placed = place_row(alloc, store, summer, row.node, steps)?;
    add_all(done, placed)?;
    Ok(())
}

/// Adds a child as it is, behind the nodes of the entries carried.
fn keep_child<S: NodeStore, M: Summer, L: Ledger>(
    alloc: Global,
    store: &mut S,
    summer: &mut M,
    low: u32,
    done: &mut Vec<Child<M::Unit>>,
    carry: Row<M::Unit>,
    child: Child<M::Unit>,
    steps: &mut Steps<L>,
) -> Result<Row<M::Unit>, TreeFault<S::Fault, M::Fault>>
    requires ready { S.is_ready store.old }
    requires settled { ready low carry.level (entries carry.node) ≡ true }
    requires kind { IsAtLevel carry.level carry.node }
    requires large { AreLarge carry.level carry.node }
    requires done { AreLarge (low + 1) (Inner done.old.items) }
    requires child { 8 ^ (low + 1) ≤ child.count }
    requires few { item_count (Inner done.old.items) + (item_count carry.node + child.count) ≤ 2 ^ 40 }
    requires still { carry.same ≡ true → entries carry.node ≡ 0 }
    ensures none { IfOk result (λ row. row.node ≡ Leaf []) }
    ensures level { IfOk result (λ row. row.level ≡ 0) }
    ensures items { (first : M) (items mid : List M.Unit) → IsKnown M.Unit.Item S.NodeSource M.Summer first summer.old store.old → Carries M.Unit.Item M.Summer first (places (S.nodes store.old)) low done.old.items carry.level carry.node items
        → IsChild M.Unit.Item M.Summer first (Stands M.Unit.Item M.Summer first (places (S.nodes store.old)) low) child mid → IfOk result (λ row. Carries M.Unit.Item M.Summer first (places (S.nodes store.new)) low done.new.items row.level row.node (items ++ mid)) }
    ensures done { OnOk result (AreLarge (low + 1) (Inner done.new.items)) }
    ensures count { OnOk result (item_count (Inner done.new.items) ≡ item_count (Inner done.old.items) + (item_count carry.node + child.count)) }
    ensures same { IfOk result (λ row. row.same ≡ carry.same) }
    ensures still { IfOk result (λ row. row.same ≡ true → done.new.items ≡ done.old.items ++ child ∷ []) }
    ensures steps { OnOk result (31 * steps.new + vec_len done.new ≤ 31 * steps.old + (vec_len done.old + (1 + (entries carry.node + rounding (entries carry.node))))) }
    ensures once { OnOk result (93 * length (S.puts store.new) + (vec_len done.new + 62 * steps.old) ≤ 93 * length (S.puts store.old) + (62 * steps.new + (vec_len done.old + (1 + (entries carry.node + rounding (entries carry.node)))))) }
    ensures spent { OnErr result (Spent steps.old steps.new (length (S.puts store.old)) (length (S.puts store.new)) (vec_len done.old + (1 + (entries carry.node + rounding (entries carry.node)))) (vec_len done.old + (1 + (entries carry.node + rounding (entries carry.node))))) }
    ensures pieces { (first : M) (items among : List M.Unit) → IsKnown M.Unit.Item S.NodeSource M.Summer first summer.old store.old → Carries M.Unit.Item M.Summer first (places (S.nodes store.old)) low done.old.items carry.level carry.node items → AreAmong among items → MatchResult result (λ _. ArePieces M.Unit.Item M.Summer first among (places (S.nodes store.new)) Below (S.puts store.old) (S.puts store.new)) (λ fault. WerePieces M.Unit.Item S.NodeSource M.Summer first among store.old store.new fault) }
    ensures leaf { OnOk result (ArePut (S.size store.old) (S.size store.new) (M.usable summer.old) (leaf_items carry.node) 0) }
    ensures unput { IfOk result (λ row. row.same ≡ true → PutNone S.NodeSource store.old store.new) }
    ensures gets { S.gets store.new ≡ S.gets store.old }
    ensures given { (first : M) (tree : Tree) (pieces : List (List ℕ)) → IsUnderWay M.Unit.Item S.NodeSource M.Summer first pieces summer.old store.old → All (Given M.Unit.Item S.NodeSource M.Summer first tree pieces store.old low) done.old.items → AllGiven M.Unit.Item S.NodeSource M.Summer first tree pieces store.old carry.level carry.node → Given M.Unit.Item S.NodeSource M.Summer first tree pieces store.old low child → OnOk result (All (Given M.Unit.Item S.NodeSource M.Summer first tree pieces store.new low) done.new.items) }
    ensures reads { ReadsFor (S.reads store.old) (S.reads store.new) steps.old steps.new }
    ensures sound { IfErr result BlamesNone }
    ensures sums { (first : M) (begun : S) → KnowsNode M.Unit.Item S.NodeSource M.Summer first begun summer.old store.old carry.node → PutsKnown M.Unit.Item S.NodeSource M.Summer first begun summer.new store.new (S.puts store.old) result }
    ensures known { (first : M) (begun : S) → M.goes first summer.old → KnowsRow M.Unit.Item S.NodeSource M.Summer first begun summer.old store.old done.old.items → KnowsSum M.Unit.Item S.NodeSource M.Summer first begun summer.old store.old child.sum → OnOk result (KnowsRow M.Unit.Item S.NodeSource M.Summer first begun summer.new store.new done.new.items) }
    ensures ran { Ran M.Unit.Item S.NodeSource M.Summer store.old store.new summer.old summer.new result }
    ensures ready { OnOk result (S.is_ready store.new) }
{
    let same = carry.same;
    settle(alloc, store, summer, low, done, carry, steps)?;
    add_last(done, child)?;
    Ok(Row::empty(alloc, same))
}

/// Takes one child in: as it is where nothing changes, and else its entries, edited, behind those carried.
#[cycle(batch)]
fn edit_child<S: NodeStore, M: Summer, L: Ledger>(
    alloc: Global,
    store: &mut S,
    summer: &mut M,
    low: u32,
    done: &mut Vec<Child<M::Unit>>,
    carry: Row<M::Unit>,
    child: Child<M::Unit>,
    edits: &[Edit<M::Unit>],
    steps: &mut Steps<L>,
) -> Result<Row<M::Unit>, TreeFault<S::Fault, M::Fault>>
    requires ready { S.is_ready store.old }
    requires low { low < 2 ^ 31 }
    requires most { carry.level ≤ low }
    requires kind { IsAtLevel carry.level carry.node }
    requires large { AreLarge carry.level carry.node }
    requires done { AreLarge (low + 1) (Inner done.old.items) }
    requires child { 8 ^ (low + 1) ≤ child.count }
    requires few { item_count (Inner done.old.items) + (item_count carry.node + (child.count + insertions edits.now)) ≤ 2 ^ 40 }
    requires still { carry.same ≡ true → entries carry.node ≡ 0 }
    ensures kind { IfOk result (λ row. IsAtLevel row.level row.node) }
    ensures large { IfOk result (λ row. AreLarge row.level row.node) }
    ensures done { OnOk result (AreLarge (low + 1) (Inner done.new.items)) }
    ensures count { IfOk result (λ row. item_count (Inner done.new.items) + item_count row.node ≤ item_count (Inner done.old.items) + (item_count carry.node + (child.count + insertions edits.now))) }
    ensures items { (first : M) (items mid : List M.Unit) → IsKnown M.Unit.Item S.NodeSource M.Summer first summer.old store.old → IsStrictlySortedBy M.Unit.order mid
        → Carries M.Unit.Item M.Summer first (places (S.nodes store.old)) low done.old.items carry.level carry.node items → IsChild M.Unit.Item M.Summer first (Stands M.Unit.Item M.Summer first (places (S.nodes store.old)) low) child mid
        → IfSound result (λ row. Carries M.Unit.Item M.Summer first (places (S.nodes store.new)) low done.new.items row.level row.node (items ++ applied M.Unit.order edits.now mid)) }
    ensures most { IfOk result (λ row. row.level ≤ low) }
    ensures still { IfOk result (λ row. row.same ≡ true → carry.same ≡ true) }
    ensures kept { IfOk result (λ row. row.same ≡ true → done.new.items ≡ done.old.items ++ child ∷ []) }
    ensures empty { IfOk result (λ row. row.same ≡ true → entries row.node ≡ 0) }
    ensures steps { IfOk result (λ row. 31 * steps.new + (vec_len done.new + (entries row.node + (rounding (entries row.node) + 93 * pending low row.level (entries row.node)))) ≤ 31 * steps.old + (vec_len done.old + (1 + (entries carry.node + (rounding (entries carry.node) + (93 * pending low carry.level (entries carry.node) + (length edits.now + 186 * ((low + 1) * length edits.now)))))))) }
    ensures once { IfOk result (λ row. 93 * length (S.puts store.new) + (vec_len done.new + (entries row.node + (rounding (entries row.node) + 62 * steps.old))) ≤ 93 * length (S.puts store.old) + (vec_len done.old + (1 + (entries carry.node + (rounding (entries carry.node) + (62 * steps.new + length edits.now)))))) }
    ensures spent { OnErr result (Spent steps.old steps.new (length (S.puts store.old)) (length (S.puts store.new)) (vec_len done.old + (1 + (entries carry.node + (rounding (entries carry.node) + (93 * pending low carry.level (entries carry.node) + (length edits.now + 186 * ((low + 1) * length edits.now))))))) (vec_len done.old + (1 + (entries carry.node + (rounding (entries carry.node) + length edits.now))))) }
    ensures pieces { (first : M) (items mid among : List M.Unit) → IsKnown M.Unit.Item S.NodeSource M.Summer first summer.old store.old → IsStrictlySortedBy M.Unit.order mid → Carries M.Unit.Item M.Summer first (places (S.nodes store.old)) low done.old.items carry.level carry.node items
        → IsChild M.Unit.Item M.Summer first (Stands M.Unit.Item M.Summer first (places (S.nodes store.old)) low) child mid → AreAmong among items → AreAmong among mid → InsertAmong among edits.now → MatchResult result (λ _. ArePieces M.Unit.Item M.Summer first among (places (S.nodes store.new)) Below (S.puts store.old) (S.puts store.new)) (λ fault. WerePieces M.Unit.Item S.NodeSource M.Summer first among store.old store.new fault) }
    ensures leaf { IfOk result (λ row. ArePut (S.size store.old) (S.size store.new) (M.usable summer.old) (leaf_items carry.node + insertions edits.now) (leaf_items row.node)) }
    ensures unput { IfOk result (λ row. row.same ≡ true → PutNone S.NodeSource store.old store.new) }
    ensures inserts { IfOk result (λ row. row.same ≡ true → insertions edits.now ≡ 0) }
    ensures quiet { (first : M) (mid : List M.Unit) → IsKnown M.Unit.Item S.NodeSource M.Summer first summer.old store.old → IsChild M.Unit.Item M.Summer first (Stands M.Unit.Item M.Summer first (places (S.nodes store.old)) low) child mid → RemoveNone M.Unit.order edits.now mid
        → carry.same ≡ true → IfOk result (λ row. row.same ≡ true) }
    ensures met { (first : M) (tree : Tree) (pieces : List (List ℕ)) → IsUnderWay M.Unit.Item S.NodeSource M.Summer first pieces summer.old store.old → All (Given M.Unit.Item S.NodeSource M.Summer first tree pieces store.old low) done.old.items → AllGiven M.Unit.Item S.NodeSource M.Summer first tree pieces store.old carry.level carry.node → Given M.Unit.Item S.NodeSource M.Summer first tree pieces store.old low child
        → Took M.Unit.Item S.NodeSource M.Summer first tree pieces store.old store.new result (λ row. All (Given M.Unit.Item S.NodeSource M.Summer first tree pieces store.new low) done.new.items × AllGiven M.Unit.Item S.NodeSource M.Summer first tree pieces store.new row.level row.node) }
    ensures reads { ReadsFor (S.reads store.old) (S.reads store.new) steps.old steps.new }
    ensures sums { (first : M) (begun : S) → IsOnTheWay S.NodeSource M.Summer first begun summer.old store.old → KnowsNode M.Unit.Item S.NodeSource M.Summer first begun summer.old store.old carry.node → PutsKnown M.Unit.Item S.NodeSource M.Summer first begun summer.new store.new (S.puts store.old) result }
    ensures known { (first : M) (begun : S) → IsOnTheWay S.NodeSource M.Summer first begun summer.old store.old → KnowsRow M.Unit.Item S.NodeSource M.Summer first begun summer.old store.old done.old.items → KnowsNode M.Unit.Item S.NodeSource M.Summer first begun summer.old store.old carry.node → KnowsSum M.Unit.Item S.NodeSource M.Summer first begun summer.old store.old child.sum → IfOk result (λ row. KnowsRow M.Unit.Item S.NodeSource M.Summer first begun summer.new store.new done.new.items × KnowsNode M.Unit.Item S.NodeSource M.Summer first begun summer.new store.new row.node) }
    ensures ran { Ran M.Unit.Item S.NodeSource M.Summer store.old store.new summer.old summer.new result }
    ensures ready { OnOk result (S.is_ready store.new) }
{
    if edits.is_empty() && is_ready(low, &carry) {
        let row = keep_child(alloc, store, summer, low, done, carry, child, steps)?;
        return Ok(row);
    }
    let node = fetch(
        alloc,
        store,
        summer,
        child.at,
        low,
        child.count,
        Fill::Below,
        steps,
    )?;
    let row = edit_row(alloc, store, summer, low, node, edits, steps)?;
    if row.same && is_ready(low, &carry) {
        let row = keep_child(alloc, store, summer, low, done, carry, child, steps)?;
        return Ok(row);
    }
    let joined = join_rows(alloc, store, summer, carry, row, steps)?;
    Ok(joined)
}

/// The children with the edits made below them.
#[cycle(batch)]
fn edit_children<S: NodeStore, M: Summer, L: Ledger>(
    alloc: Global,
    store: &mut S,
    summer: &mut M,
    low: u32,
    children: Vec<Child<M::Unit>>,
    edits: &[Edit<M::Unit>],
    steps: &mut Steps<L>,
) -> Result<Row<M::Unit>, TreeFault<S::Fault, M::Fault>>
    requires ready { S.is_ready store.old }
    requires low { low < 2 ^ 31 }
    requires some { 0 < vec_len children }
    requires large { AreLarge (low + 1) (Inner children.items) }
    requires few { item_count (Inner children.items) + insertions edits.now ≤ 2 ^ 40 }
    ensures kind { IfOk result (λ row. IsAtLevel row.level row.node) }
    ensures large { IfOk result (λ row. AreLarge row.level row.node) }
    ensures count { IfOk result (λ row. item_count row.node ≤ item_count (Inner children.items) + insertions edits.now) }
    ensures items { (first : M) (items : List M.Unit) → IsKnown M.Unit.Item S.NodeSource M.Summer first summer.old store.old → IsStrictlySortedBy M.Unit.order items
        → AreChildren M.Unit.Item M.Summer first (Stands M.Unit.Item M.Summer first (places (S.nodes store.old)) low) children.items items
        → IfSound result (λ row. Has M.Unit.Item M.Summer first (places (S.nodes store.new)) row.level row.node (applied M.Unit.order edits.now items)) }
    ensures most { IfOk result (λ row. row.level ≤ low + 1) }
    ensures level { IfOk result (λ row. row.same ≡ true → row.level ≡ low + 1) }
    ensures node { IfOk result (λ row. row.same ≡ true → row.node ≡ Inner children.items) }
    ensures steps { IfOk result (λ row. 31 * steps.new + (entries row.node + 93 * slack (low + 1) row.level (entries row.node)) ≤ 31 * steps.old + (vec_len children + (length edits.now + 186 * ((low + 1) * length edits.now)))) }
    ensures once { IfOk result (λ row. 93 * length (S.puts store.new) + (entries row.node + 62 * steps.old) ≤ 93 * length (S.puts store.old) + (62 * steps.new + (vec_len children + length edits.now))) }
    ensures spent { OnErr result (Spent steps.old steps.new (length (S.puts store.old)) (length (S.puts store.new)) (vec_len children + (length edits.now + 186 * ((low + 1) * length edits.now))) (vec_len children + length edits.now)) }
    ensures pieces { (first : M) (items among : List M.Unit) → IsKnown M.Unit.Item S.NodeSource M.Summer first summer.old store.old → IsStrictlySortedBy M.Unit.order items → AreChildren M.Unit.Item M.Summer first (Stands M.Unit.Item M.Summer first (places (S.nodes store.old)) low) children.items items
        → AreAmong among items → InsertAmong among edits.now → MatchResult result (λ _. ArePieces M.Unit.Item M.Summer first among (places (S.nodes store.new)) Below (S.puts store.old) (S.puts store.new)) (λ fault. WerePieces M.Unit.Item S.NodeSource M.Summer first among store.old store.new fault) }
    ensures leaf { IfOk result (λ row. ArePut (S.size store.old) (S.size store.new) (M.usable summer.old) (insertions edits.now) (leaf_items row.node)) }
    ensures unput { IfOk result (λ row. row.same ≡ true → PutNone S.NodeSource store.old store.new) }
    ensures inserts { IfOk result (λ row. row.same ≡ true → insertions edits.now ≡ 0) }
    ensures quiet { (first : M) (items : List M.Unit) → IsKnown M.Unit.Item S.NodeSource M.Summer first summer.old store.old → AreChildren M.Unit.Item M.Summer first (Stands M.Unit.Item M.Summer first (places (S.nodes store.old)) low) children.items items → RemoveNone M.Unit.order edits.now items
        → IfOk result (λ row. row.same ≡ true) }
    ensures met { (first : M) (tree : Tree) (pieces : List (List ℕ)) → IsUnderWay M.Unit.Item S.NodeSource M.Summer first pieces summer.old store.old → All (Given M.Unit.Item S.NodeSource M.Summer first tree pieces store.old low) children.items → Took M.Unit.Item S.NodeSource M.Summer first tree pieces store.old store.new result (λ row. AllGiven M.Unit.Item S.NodeSource M.Summer first tree pieces store.new row.level row.node) }
    ensures reads { ReadsFor (S.reads store.old) (S.reads store.new) steps.old steps.new }
    ensures sums { (first : M) (begun : S) → IsOnTheWay S.NodeSource M.Summer first begun summer.old store.old → KnowsRow M.Unit.Item S.NodeSource M.Summer first begun summer.old store.old children.items → PutsKnown M.Unit.Item S.NodeSource M.Summer first begun summer.new store.new (S.puts store.old) result }
    ensures known { (first : M) (begun : S) → IsOnTheWay S.NodeSource M.Summer first begun summer.old store.old → KnowsRow M.Unit.Item S.NodeSource M.Summer first begun summer.old store.old children.items → IfOk result (λ row. KnowsNode M.Unit.Item S.NodeSource M.Summer first begun summer.new store.new row.node) }
    ensures ran { Ran M.Unit.Item S.NodeSource M.Summer store.old store.new summer.old summer.new result }
    ensures ready { OnOk result (S.is_ready store.new) }
{
    let mut rest = children;
    let mut left = edits;
    let mut done = Vec::new(alloc);
    let mut carry = Row::empty(alloc, true);
    while !rest.is_empty() {
        let child = take_first(&mut rest);
        let (own, others) = share(left, &child, rest.is_empty());
        let next = edit_child(
            alloc, store, summer, low, &mut done, carry, child, own, steps,
        )?;
        carry = next;
        left = others;
    }
    let row = finish(alloc, store, summer, low, done, carry, steps)?;
    Ok(row)
}

/// The row of the children done and the entries carried behind them.
fn finish<S: NodeStore, M: Summer, L: Ledger>(
    alloc: Global,
    store: &mut S,
    summer: &mut M,
    low: u32,
    mut done: Vec<Child<M::Unit>>,
    carry: Row<M::Unit>,
    steps: &mut Steps<L>,
) -> Result<Row<M::Unit>, TreeFault<S::Fault, M::Fault>>
    requires ready { S.is_ready store.old }
    requires low { low < 2 ^ 31 }
    requires most { carry.level ≤ low }
    requires kind { IsAtLevel carry.level carry.node }
    requires large { AreLarge carry.level carry.node }
    requires done { AreLarge (low + 1) (Inner done.items) }
    requires few { item_count (Inner done.items) + item_count carry.node ≤ 2 ^ 40 }
    requires still { carry.same ≡ true → entries carry.node ≡ 0 }
    ensures kind { IfOk result (λ row. IsAtLevel row.level row.node) }
    ensures large { IfOk result (λ row. AreLarge row.level row.node) }
    ensures count { IfOk result (λ row. item_count row.node ≡ item_count (Inner done.items) + item_count carry.node) }
    ensures items { (first : M) (items : List M.Unit) → IsKnown M.Unit.Item S.NodeSource M.Summer first summer.old store.old → Carries M.Unit.Item M.Summer first (places (S.nodes store.old)) low done.items carry.level carry.node items
        → IfSound result (λ row. Has M.Unit.Item M.Summer first (places (S.nodes store.new)) row.level row.node items) }
    ensures most { IfOk result (λ row. row.level ≤ low + 1) }
    ensures still { IfOk result (λ row. row.same ≡ true → carry.same ≡ true) }
    ensures level { IfOk result (λ row. row.same ≡ true → row.level ≡ low + 1) }
    ensures node { IfOk result (λ row. row.same ≡ true → row.node ≡ Inner done.items) }
    ensures steps { IfOk result (λ row. 31 * steps.new + (entries row.node + 93 * slack (low + 1) row.level (entries row.node)) ≤ 31 * steps.old + (vec_len done + (entries carry.node + (rounding (entries carry.node) + 93 * pending low carry.level (entries carry.node))))) }
    ensures once { IfOk result (λ row. 93 * length (S.puts store.new) + (entries row.node + 62 * steps.old) ≤ 93 * length (S.puts store.old) + (62 * steps.new + (vec_len done + (entries carry.node + rounding (entries carry.node))))) }
    ensures spent { OnErr result (Spent steps.old steps.new (length (S.puts store.old)) (length (S.puts store.new)) (vec_len done + (entries carry.node + (rounding (entries carry.node) + 93 * pending low carry.level (entries carry.node)))) (vec_len done + (entries carry.node + rounding (entries carry.node)))) }
    ensures pieces { (first : M) (items among : List M.Unit) → IsKnown M.Unit.Item S.NodeSource M.Summer first summer.old store.old → Carries M.Unit.Item M.Summer first (places (S.nodes store.old)) low done.items carry.level carry.node items → AreAmong among items → MatchResult result (λ _. ArePieces M.Unit.Item M.Summer first among (places (S.nodes store.new)) Below (S.puts store.old) (S.puts store.new)) (λ fault. WerePieces M.Unit.Item S.NodeSource M.Summer first among store.old store.new fault) }
    ensures leaf { IfOk result (λ row. ArePut (S.size store.old) (S.size store.new) (M.usable summer.old) (leaf_items carry.node) (leaf_items row.node)) }
    ensures unput { IfOk result (λ row. row.same ≡ true → PutNone S.NodeSource store.old store.new) }
    ensures quiet { carry.same ≡ true → IfOk result (λ row. row.same ≡ true) }
    ensures met { (first : M) (tree : Tree) (pieces : List (List ℕ)) → IsUnderWay M.Unit.Item S.NodeSource M.Summer first pieces summer.old store.old → All (Given M.Unit.Item S.NodeSource M.Summer first tree pieces store.old low) done.items → AllGiven M.Unit.Item S.NodeSource M.Summer first tree pieces store.old carry.level carry.node → Took M.Unit.Item S.NodeSource M.Summer first tree pieces store.old store.new result (λ row. AllGiven M.Unit.Item S.NodeSource M.Summer first tree pieces store.new row.level row.node) }
    ensures reads { ReadsFor (S.reads store.old) (S.reads store.new) steps.old steps.new }
    ensures sums { (first : M) (begun : S) → IsOnTheWay S.NodeSource M.Summer first begun summer.old store.old → KnowsRow M.Unit.Item S.NodeSource M.Summer first begun summer.old store.old done.items → KnowsNode M.Unit.Item S.NodeSource M.Summer first begun summer.old store.old carry.node → PutsKnown M.Unit.Item S.NodeSource M.Summer first begun summer.new store.new (S.puts store.old) result }
    ensures known { (first : M) (begun : S) → IsOnTheWay S.NodeSource M.Summer first begun summer.old store.old → KnowsRow M.Unit.Item S.NodeSource M.Summer first begun summer.old store.old done.items → KnowsNode M.Unit.Item S.NodeSource M.Summer first begun summer.old store.old carry.node → IfOk result (λ row. KnowsNode M.Unit.Item S.NodeSource M.Summer first begun summer.new store.new row.node) }
    ensures ran { Ran M.Unit.Item S.NodeSource M.Summer store.old store.new summer.old summer.new result }
    ensures ready { OnOk result (S.is_ready store.new) }
{
    if is_ready(low, &carry) {
        let same = carry.same;
        settle(alloc, store, summer, low, &mut done, carry, steps)?;
        return Ok(Row {
            level: low + 1,
            node: Node::Inner(Children::from_vec(done)),
            same,
        });
    }
    let front = Row {
        level: low + 1,
        node: Node::Inner(Children::from_vec(done)),
        same: false,
    };
    let joined = join_rows(alloc, store, summer, front, carry, steps)?;
    Ok(joined)
}

/// The entries of a node with the edits made below it.
#[cycle(batch)]
pub(crate) fn edit_row<S: NodeStore, M: Summer, L: Ledger>(
    alloc: Global,
    store: &mut S,
    summer: &mut M,
    level: u32,
    node: Node<M::Unit>,
    edits: &[Edit<M::Unit>],
    steps: &mut Steps<L>,
) -> Result<Row<M::Unit>, TreeFault<S::Fault, M::Fault>>
    requires ready { S.is_ready store.old }
    requires kind { IsAtLevel level node }
    requires level { level < 2 ^ 31 }
    requires some { 0 < level → 0 < entries node }
    requires large { AreLarge level node }
    requires few { item_count node + insertions edits.now ≤ 2 ^ 40 }
    ensures kind { IfOk result (λ row. IsAtLevel row.level row.node) }
    ensures large { IfOk result (λ row. AreLarge row.level row.node) }
    ensures count { IfOk result (λ row. item_count row.node ≤ item_count node + insertions edits.now) }
    ensures items { (first : M) (items : List M.Unit) → IsKnown M.Unit.Item S.NodeSource M.Summer first summer.old store.old → IsStrictlySortedBy M.Unit.order items → Has M.Unit.Item M.Summer first (places (S.nodes store.old)) level node items
        → IfSound result (λ row. Has M.Unit.Item M.Summer first (places (S.nodes store.new)) row.level row.node (applied M.Unit.order edits.now items)) }
    ensures most { IfOk result (λ row. row.level ≤ level) }
    ensures same { length edits.now ≡ 0 → IfOk result (λ row. row.same ≡ true) }
    ensures level { IfOk result (λ row. row.same ≡ true → row.level ≡ level) }
    ensures node { IfOk result (λ row. row.same ≡ true → row.node ≡ node) }
    ensures steps { IfOk result (λ row. 31 * steps.new + (entries row.node + 93 * slack level row.level (entries row.node)) ≤ 31 * steps.old + (entries node + (length edits.now + 186 * (level * length edits.now)))) }
    ensures once { IfOk result (λ row. 93 * length (S.puts store.new) + (entries row.node + 62 * steps.old) ≤ 93 * length (S.puts store.old) + (62 * steps.new + (entries node + length edits.now))) }
    ensures spent { OnErr result (Spent steps.old steps.new (length (S.puts store.old)) (length (S.puts store.new)) (entries node + (length edits.now + 186 * (level * length edits.now))) (entries node + length edits.now)) }
    ensures pieces { (first : M) (items among : List M.Unit) → IsKnown M.Unit.Item S.NodeSource M.Summer first summer.old store.old → IsStrictlySortedBy M.Unit.order items → Has M.Unit.Item M.Summer first (places (S.nodes store.old)) level node items → AreAmong among items → InsertAmong among edits.now → MatchResult result (λ _. ArePieces M.Unit.Item M.Summer first among (places (S.nodes store.new)) Below (S.puts store.old) (S.puts store.new)) (λ fault. WerePieces M.Unit.Item S.NodeSource M.Summer first among store.old store.new fault) }
    ensures leaf { IfOk result (λ row. ArePut (S.size store.old) (S.size store.new) (M.usable summer.old) (insertions edits.now) (leaf_items row.node)) }
    ensures unput { IfOk result (λ row. row.same ≡ true → PutNone S.NodeSource store.old store.new) }
    ensures inserts { IfOk result (λ row. row.same ≡ true → insertions edits.now ≡ 0) }
    ensures quiet { (first : M) (items : List M.Unit) → IsKnown M.Unit.Item S.NodeSource M.Summer first summer.old store.old → Has M.Unit.Item M.Summer first (places (S.nodes store.old)) level node items → RemoveNone M.Unit.order edits.now items → IfOk result (λ row. row.same ≡ true) }
    ensures met { (first : M) (tree : Tree) (pieces : List (List ℕ)) → IsUnderWay M.Unit.Item S.NodeSource M.Summer first pieces summer.old store.old → AllGiven M.Unit.Item S.NodeSource M.Summer first tree pieces store.old level node → Took M.Unit.Item S.NodeSource M.Summer first tree pieces store.old store.new result (λ row. AllGiven M.Unit.Item S.NodeSource M.Summer first tree pieces store.new row.level row.node) }
    ensures reads { ReadsFor (S.reads store.old) (S.reads store.new) steps.old steps.new }
    ensures sums { (first : M) (begun : S) → IsOnTheWay S.NodeSource M.Summer first begun summer.old store.old → KnowsNode M.Unit.Item S.NodeSource M.Summer first begun summer.old store.old node → PutsKnown M.Unit.Item S.NodeSource M.Summer first begun summer.new store.new (S.puts store.old) result }
    ensures known { (first : M) (begun : S) → IsOnTheWay S.NodeSource M.Summer first begun summer.old store.old → KnowsNode M.Unit.Item S.NodeSource M.Summer first begun summer.old store.old node → IfOk result (λ row. KnowsNode M.Unit.Item S.NodeSource M.Summer first begun summer.new store.new row.node) }
    ensures ran { Ran M.Unit.Item S.NodeSource M.Summer store.old store.new summer.old summer.new result }
    ensures ready { OnOk result (S.is_ready store.new) }
{
    if edits.is_empty() {
        return Ok(Row {
            level,
            node,
            same: true,
        });
    }
    match node {
        Node::Leaf(items) => {
            let (after, same) = merge(alloc, items.into_vec(), edits)?;
            Ok(Row {
                level,
                node: Node::Leaf(Items::from_vec(after)),
                same,
            })
        }
        Node::Inner(children) => {
            let row = edit_children(
                alloc,
                store,
                summer,
                level - 1,
                children.into_vec(),
                edits,
                steps,
            )?;
            Ok(row)
        }
    }
}
