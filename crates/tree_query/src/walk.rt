//! Walks over the items of a range of a tree.

ghost use Rattle.std.specs.Prelude.{◌≡◌, ◌↔◌, ℕ, ◌+◌, ◌-◌, ◌==◌, ◌<◌, ◌≤◌, ◌∷◌, ◌++◌, Bool, List, Option, Some, None, IfErr, IfOk, OnErr, OnOk, drop, vec_capacity, vec_len, if◌then◌else◌};
ghost use Rattle.std.specs.List.{sum_by};
ghost use Rattle.tree_laws.specs.Fitting.{item_count};
ghost use Rattle.tree_laws.specs.Nodes.{is_leaf};
ghost use Rattle.tree_laws.specs.Reaching.{IsMet};
ghost use Rattle.tree_laws.specs.Stores.{Extends, Places, WhereTold};
ghost use Rattle.tree_laws.specs.Trees.{IsTreeSize};
ghost use Rattle.tree_laws.specs.declared.tree.Tree.{Tree};
ghost use Rattle.tree_query.specs.Bare.{HasItems, HoldsItems, StandItems};
ghost use Rattle.tree_query.specs.Calls.{Caused, OnlyReads, Ran};
ghost use Rattle.tree_query.specs.Leading.{Blames, GoesDown, IsGap};
ghost use Rattle.tree_query.specs.Numbers.{AreNext, BringsFrom, FindsNext, GoesFrom, HasNumber, IsAtEdge, IsLedByAll, IsPast, RowsNext, edge_after, first_edge, lower, number_at};
ghost use Rattle.tree_query.specs.Ranges.{numbered};
ghost use Rattle.tree_query.specs.Reaching.{AreReached};
ghost use Rattle.tree_query.specs.Walking.{Ahead, AreOver, AreTurned, Brings, BringsOn, Finds, FindsReached, IsAt, IsOver, IsRest, count_at_hand, height_of, is_descending, left_of, turned};
ghost use Rattle.tree_query.specs.declared.walk.Walk.{Walk};
ghost use Rattle.tree_query.specs.declared.walk.WalkRow.{WalkRow};

use crate::fetch::fetch;
use crate::range::{count_within, within};
use json_terms::NoMemory;
use std::alloc::Global;
use std::sync::ledger::Ledger;
use tree_laws::{Child, Children, Fill, Item, Node, NodeSource, Steps, Tree, TreeFault};

/// The children of a level that a walk has still to go down, in its order.
#[derive(Drop)]
pub(crate) struct WalkRow<T> {
    level: u32,
    children: Children<T>,
}

/// The child of a level that a walk goes down next.
#[derive(Drop)]
pub(crate) struct NextChild<T> {
    level: u32,
    child: Child<T>,
}

/// A walk over the items of a range, upward or downward: those at hand, and the children on its path that come later, so that it
/// gets each node once. The first of these stands apart, so that going on to it takes nothing away before all is there.
#[derive(Drop)]
pub struct Walk<T> {
    leaf: Vec<T>,
    next: Option<NextChild<T>>,
    rows: Vec<WalkRow<T>>,
    left: u64,
    height: u32,
    descending: bool,
}

fn turn<X>(list: Vec<X>, descending: bool) -> Vec<X>
    ensures { result.items ≡ turned descending list.items }
{
    let mut list = list;
    if descending {
        list.reverse();
    }
    list
}

fn take_first<X>(list: &mut Vec<X>) -> X
    requires { 0 < vec_len list.old }
    ensures { list.old.items ≡ result ∷ list.new.items }
{
    list.remove(0)
}

// The children left after the first `n` items, and how many of these items are among theirs.
fn rest_of<T: Drop>(list: Vec<Child<T>>, n: u64) -> Result<(Vec<Child<T>>, u64), NoMemory>
    requires { n < sum_by (λ child. child.count) list.items }
    ensures rest { IfOk result (λ rest. IsRest list.items n rest.0.items rest.1) }
    ensures some { IfOk result (λ rest. 0 < vec_len rest.0) }
{
    let mut front = list;
    let (at, offset) = count_within(front.as_slice(), n);
    let rest = front.split_off(at)?;
    Ok((rest, offset))
}

fn items_from<X: Drop>(list: Vec<X>, n: u64) -> Result<Vec<X>, NoMemory>
    ensures { IfOk result (λ rest. rest.items ≡ drop n list.items) }
{
    let mut front = list;
    let at = within(n, front.len());
    let rest = front.split_off(at)?;
    Ok(rest)
}

fn push_row<T: Item>(
    rows: &mut Vec<WalkRow<T>>,
    level: u32,
    children: Vec<Child<T>>,
) -> Result<(), NoMemory>
    ensures items { (there : Places) (flag : Bool) (xs ys : List T) → AreTurned flag (StandItems T.Item there level) children.items xs → Ahead T.Item flag there rows.old.items ys
        → OnOk result (Ahead T.Item flag there rows.new.items (xs ++ ys)) }
    ensures over { (there : Places) (tree : Tree) → AreReached T.Item there tree level children.items → AreOver T.Item there tree rows.old.items
        → OnOk result (AreOver T.Item there tree rows.new.items) }
    ensures edge { (there : Places) (tree : Tree) (flag : Bool) (from mid to : ℕ) → AreNext T.Item there tree flag level children.items from mid
        → RowsNext T.Item there tree flag rows.old.items mid to → OnOk result (RowsNext T.Item there tree flag rows.new.items from to) }
{
    rows.push(WalkRow {
        level,
        children: Children::from_vec(children),
    })?;
    Ok(())
}

// Goes down to the leaf of the item after the first `skip`, and keeps the children that come after it.
fn go_to<S: NodeSource, T: Item, L: Ledger>(
    alloc: Global,
    store: &mut S,
    level: u32,
    node: Node<T>,
    skip: u64,
    descending: bool,
    rows: &mut Vec<WalkRow<T>>,
    steps: &mut Steps<L>,
) -> Result<Vec<T>, TreeFault<S::Fault, NoMemory>>
    requires ready { S.is_ready store.old }
    requires kind { is_leaf node ≡ (level == 0) }
    requires inside { skip < item_count node }
    ensures items { (there : Places) (items later : List T) → S.nodes store.old ≡ Some there → HasItems T.Item there level node (turned descending items) → Ahead T.Item descending there rows.old.items later
        → IfOk result (λ leaf. Brings T.Item descending there leaf.items rows.new.items (drop skip items ++ later)) }
    ensures some { IfOk result (λ leaf. 0 < vec_len leaf) }
    ensures reads { OnlyReads S.NodeSource level store.old store.new steps.old steps.new }
    ensures over { (tree : Tree) (at : ℕ) (there : Places) → S.nodes store.old ≡ Some there → IsMet T.Item there tree at level node → AreOver T.Item there tree rows.old.items
        → OnOk result (AreOver T.Item there tree rows.new.items) }
    ensures ran { (tree : Tree) (at : ℕ) → WhereTold (S.nodes store.old) (λ there. IsMet T.Item there tree at level node)
        → Ran T.Item S.NodeSource tree store.old store.new result }
    ensures edge { (tree : Tree) (there : Places) (at from to edge after : ℕ) → S.nodes store.old ≡ Some there
        → IsLedByAll T.Item there tree at level (lower descending from to) node → IsPast descending from (item_count node) to
        → IsPast descending from skip edge → RowsNext T.Item there tree descending rows.old.items to after
        → IfOk result (λ leaf. BringsFrom T.Item there tree descending leaf.items rows.new.items edge after) }
    ensures gap { (tree : Tree) (there : Places) (at from to edge : ℕ) → S.nodes store.old ≡ Some there
        → IsLedByAll T.Item there tree at level (lower descending from to) node → IsPast descending from (item_count node) to
        → IsPast descending from skip edge → IfErr result (Blames (IsGap T.Item there tree (HasNumber (number_at descending edge)))) }
    ensures cause { Caused S.NodeSource store.old store.new result }
    ensures ready { OnOk result (S.is_ready store.new) }
{
    match node {
        Node::Leaf(items) => {
            let list = turn(items.into_vec(), descending);
            let leaf = items_from(list, skip)?;
            Ok(leaf)
        }
        Node::Inner(children) => {
            let list = turn(children.into_vec(), descending);
            let (found, offset) = rest_of(list, skip)?;
            let mut rest = found;
            let child = take_first(&mut rest);
            let low = level - 1;
            push_row(rows, low, rest)?;
            let below = fetch(alloc, store, child.at, low, child.count, Fill::Below, steps)?;
            go_to(alloc, store, low, below, offset, descending, rows, steps)
        }
    }
}

// The first child that comes, taken out of its row. It takes no memory.
fn next_child<T: Item>(rows: &mut Vec<WalkRow<T>>) -> Option<NextChild<T>>
    ensures items { (there : Places) (flag : Bool) (items : List T) → Ahead T.Item flag there rows.old.items items → Finds T.Item flag there result rows.new.items items }
    ensures over { (there : Places) (tree : Tree) → AreOver T.Item there tree rows.old.items → FindsReached T.Item there tree result rows.new.items }
    ensures edge { (there : Places) (tree : Tree) (flag : Bool) (from to : ℕ) → RowsNext T.Item there tree flag rows.old.items from to
        → FindsNext T.Item there tree flag result rows.new.items from to }
{
    let row = match rows.pop() {
        Some(row) => row,
        None => return None,
    };
    let level = row.level;
    let mut rest = row.children.into_vec();
    if rest.is_empty() {
        return next_child(rows);
    }
    let child = take_first(&mut rest);
    rows.push_reserved(WalkRow {
        level,
        children: Children::from_vec(rest),
    });
    Some(NextChild { level, child })
}

// A list with no rows, and room for so many.
fn room_for<T: Item>(alloc: Global, count: usize) -> Result<Vec<WalkRow<T>>, NoMemory>
    ensures empty { IfOk result (λ room. vec_len room ≡ 0) }
    ensures room { IfOk result (λ room. count ≤ vec_capacity room) }
{
    let room = Vec::with_capacity(alloc, count)?;
    Ok(room)
}

// The rows, and the fresh ones behind them, in a list that has room for all.
fn join_rows<T: Item>(
    room: Vec<WalkRow<T>>,
    rows: Vec<WalkRow<T>>,
    fresh: Vec<WalkRow<T>>,
) -> Vec<WalkRow<T>>
    requires empty { vec_len room ≡ 0 }
    requires room { vec_len rows + vec_len fresh ≤ vec_capacity room }
    ensures { result.items ≡ rows.items ++ fresh.items }
{
    let mut all = room;
    let mut rows = rows;
    let mut fresh = fresh;
    let _ = all.append(&mut rows);
    let _ = all.append(&mut fresh);
    all
}

// The next leaf, and the rows below the next child. Where no child comes, or one that doesn't lie below the height or has no items,
// `NoMemory` is answered: it doesn't come to that on what `start` and `next` left.
fn refill<S: NodeSource, T: Item, L: Ledger>(
    alloc: Global,
    store: &mut S,
    height: u32,
    descending: bool,
    next: &Option<NextChild<T>>,
    steps: &mut Steps<L>,
) -> Result<(Vec<T>, Vec<WalkRow<T>>), TreeFault<S::Fault, NoMemory>>
    requires { S.is_ready store.old }
    ensures items { (there : Places) (later : List (WalkRow T)) (items : List T) → S.nodes store.old ≡ Some there → Finds T.Item descending there next.now later items
        → IfOk result (λ fresh. Brings T.Item descending there fresh.0.items (later ++ fresh.1.items) items) }
    ensures some { IfOk result (λ fresh. 0 < vec_len fresh.0) }
    ensures reads { OnlyReads S.NodeSource height store.old store.new steps.old steps.new }
    ensures over { (tree : Tree) (there : Places) (later : List (WalkRow T)) → S.nodes store.old ≡ Some there → FindsReached T.Item there tree next.now later
        → IfOk result (λ fresh. AreOver T.Item there tree (later ++ fresh.1.items)) }
    ensures ran { (tree : Tree) (later : List (WalkRow T)) → WhereTold (S.nodes store.old) (λ there. FindsReached T.Item there tree next.now later)
        → Ran T.Item S.NodeSource tree store.old store.new result }
    ensures edge { (tree : Tree) (there : Places) (later : List (WalkRow T)) (from to : ℕ) → S.nodes store.old ≡ Some there
        → FindsNext T.Item there tree descending next.now later from to
        → IfOk result (λ fresh. BringsFrom T.Item there tree descending fresh.0.items (later ++ fresh.1.items) from to) }
    ensures gap { (tree : Tree) (there : Places) (later : List (WalkRow T)) (from to : ℕ) → S.nodes store.old ≡ Some there
        → FindsNext T.Item there tree descending next.now later from to
        → IfErr result (Blames (IsGap T.Item there tree (HasNumber (number_at descending from)))) }
    ensures cause { Caused S.NodeSource store.old store.new result }
    ensures ready { OnOk result (S.is_ready store.new) }
{
    let found = match next {
        Some(found) => found,
        None => return Err(TreeFault::NoMemory),
    };
    let level = found.level;
    let count = found.child.count;
    if level >= height {
        return Err(TreeFault::NoMemory);
    }
    if count == 0 {
        return Err(TreeFault::NoMemory);
    }
    let at = found.child.at;
    let node = fetch(alloc, store, at, level, count, Fill::Below, steps)?;
    let mut rows = Vec::new(alloc);
    let leaf = go_to(alloc, store, level, node, 0, descending, &mut rows, steps)?;
    Ok((leaf, rows))
}

// How many items of the tree come before the range in the order of the walk.
fn skipped(count: u64, from: u64, to: u64, descending: bool) -> u64
    requires { to ≤ count }
    ensures { result ≡ (if descending then count - to else from) }
{
    if descending { count - to } else { from }
}

impl<T: Item> Walk<T> {
    /// A walk over the items with the numbers `from` to `to - 1` of a tree, from the last to the first where `descending`.
    ///
    /// The number of an item leads to the root, and on from each node that fits to the child that has the item of this number. It takes
    /// `height` steps at most. Unless the range is empty it answers a walk only where a node that fits stands wherever the number of the
    /// first item leads, at the level and with the number of items that are wanted there. It gives up at once: each node that it got
    /// before the last fits in any case. `Store` hands on what the store answered in this call, at a place on the way down from the
    /// root. `BadNode` names the last place that it got, to which this number leads and where no node stands that fits there, and never
    /// comes where the tree has items. `NoMemory` comes where memory runs out, and `Summer` never.
    pub fn start<S: NodeSource, L: Ledger>(
        alloc: Global,
        store: &mut S,
        tree: Tree,
        from: u64,
        to: u64,
        descending: bool,
        steps: &mut Steps<L>,
    ) -> Result<Walk<T>, TreeFault<S::Fault, NoMemory>>
        requires ready { S.is_ready store.old }
        requires size { IsTreeSize tree }
        requires range { from ≤ to }
        requires within { to ≤ tree.count }
        ensures items { (there : Places) (items : List T) → S.nodes store.old ≡ Some there → HoldsItems T.Item there tree items
            → IfOk result (λ walk. IsAt T.Item there walk (turned descending (numbered from to items))) }
        ensures left { IfOk result (λ walk. left_of walk ≡ to - from) }
        ensures at_hand { IfOk result (λ walk. 0 < left_of walk → 0 < count_at_hand walk) }
        ensures height { IfOk result (λ walk. height_of walk ≡ tree.height) }
        ensures order { IfOk result (λ walk. is_descending walk ≡ descending) }
        ensures reads { OnlyReads S.NodeSource tree.height store.old store.new steps.old steps.new }
        ensures over { (there : Places) → S.nodes store.old ≡ Some there → IfOk result (IsOver T.Item there tree) }
        ensures ran { Ran T.Item S.NodeSource tree store.old store.new result }
        ensures edge { (there : Places) → S.nodes store.old ≡ Some there
            → IfOk result (λ walk. IsAtEdge T.Item there tree walk (first_edge descending from to)) }
        ensures down { (there : Places) → S.nodes store.old ≡ Some there → from < to
            → GoesDown T.Item there tree (HasNumber (number_at descending (first_edge descending from to))) result }
        ensures sound { (there : Places) (items : List T) (at : ℕ) → S.nodes store.old ≡ Some there → HoldsItems T.Item there tree items
            → result ≡ Err (TreeFault.BadNode at) → ⊥ }
        ensures ready { OnOk result (S.is_ready store.new) }
    {
        let mut rows = Vec::new(alloc);
        if from == to {
            return Ok(Walk {
                leaf: Vec::new(alloc),
                next: None,
                rows,
                left: 0,
                height: tree.height,
                descending,
            });
        }
        let level = tree.height - 1;
        let root = fetch(
            alloc,
            store,
            tree.root,
            level,
            tree.count,
            Fill::Root,
            steps,
        )?;
        let skip = skipped(tree.count, from, to, descending);
        let leaf = go_to(
            alloc, store, level, root, skip, descending, &mut rows, steps,
        )?;
        let next = next_child(&mut rows);
        Ok(Walk {
            leaf,
            next,
            rows,
            left: to - from,
            height: tree.height,
            descending,
        })
    }

    // Sees to it that an item is at hand.
    fn advance<S: NodeSource, L: Ledger>(
        &mut self,
        alloc: Global,
        store: &mut S,
        steps: &mut Steps<L>,
    ) -> Result<(), TreeFault<S::Fault, NoMemory>>
        requires { S.is_ready store.old }
        ensures brings { (there : Places) (items : List T) → S.nodes store.old ≡ Some there → BringsOn T.Item self.old.descending there self.old.leaf.items self.old.next self.old.rows.items items
            → OnOk result (BringsOn T.Item self.old.descending there self.new.leaf.items self.new.next self.new.rows.items items) }
        ensures some { OnOk result (0 < count_at_hand self.new) }
        ensures left { left_of self.new ≡ left_of self.old }
        ensures height { height_of self.new ≡ height_of self.old }
        ensures order { self.new.descending ≡ self.old.descending }
        ensures kept { OnErr result (self.new ≡ self.old) }
        ensures at_hand { 0 < count_at_hand self.old → steps.new ≡ steps.old }
        ensures reads { OnlyReads S.NodeSource (height_of self.old) store.old store.new steps.old steps.new }
        ensures over { (tree : Tree) (there : Places) → S.nodes store.old ≡ Some there → IsOver T.Item there tree self.old → OnOk result (IsOver T.Item there tree self.new) }
        ensures ran { (tree : Tree) → WhereTold (S.nodes store.old) (λ there. IsOver T.Item there tree self.old)
            → Ran T.Item S.NodeSource tree store.old store.new result }
        ensures edge { (tree : Tree) (there : Places) (from to : ℕ) → S.nodes store.old ≡ Some there
            → GoesFrom T.Item there tree self.old.descending self.old.leaf.items self.old.next self.old.rows.items from to
            → OnOk result (GoesFrom T.Item there tree self.old.descending self.new.leaf.items self.new.next self.new.rows.items from to) }
        ensures gap { (tree : Tree) (there : Places) (from to : ℕ) → S.nodes store.old ≡ Some there
            → GoesFrom T.Item there tree self.old.descending self.old.leaf.items self.old.next self.old.rows.items from to
            → IfErr result (Blames (IsGap T.Item there tree (HasNumber (number_at self.old.descending from)))) }
        ensures cause { Caused S.NodeSource store.old store.new result }
        ensures ready { OnOk result (S.is_ready store.new) }
    {
        if !self.leaf.is_empty() {
            return Ok(());
        }
        let (leaf, fresh) = refill(
            alloc,
            store,
            self.height,
            self.descending,
            &self.next,
            steps,
        )?;
        let count = self.rows.len() + fresh.len();
        let room = room_for(alloc, count)?;
        let rows = std::mem::replace(&mut self.rows, Vec::new(alloc));
        let mut all = join_rows(room, rows, fresh);
        self.next = next_child(&mut all);
        self.rows = all;
        self.leaf = leaf;
        Ok(())
    }

    /// The next item, and `None` exactly after the last of the range. On a fault the walk is as it was, and the call may be made
    /// again.
    ///
    /// It takes no step while there is an item at hand, as at first, or none is left, and else `height` at most. It answers an item
    /// only where a node that fits stands wherever the number of this item leads: the first is that of the range in the order of the
    /// walk, and each item answered brings the walk one number on (`IsAtEdge`). It gives up at once: each node that it got before the
    /// last fits in any case. `Store` hands on what the store answered in this call, at a place below the root; after each other answer
    /// the store goes on, wherever the walk went. `BadNode` names the last place that it got, to which the number of the next item leads
    /// and where no node stands that fits there, and never comes where the tree has items. `NoMemory` comes where memory runs out, and
    /// `Summer` never.
    pub fn next<S: NodeSource, L: Ledger>(
        &mut self,
        alloc: Global,
        store: &mut S,
        steps: &mut Steps<L>,
    ) -> Result<Option<T>, TreeFault<S::Fault, NoMemory>>
        requires { S.is_ready store.old }
        ensures item { (there : Places) (x : T) (xs : List T) → S.nodes store.old ≡ Some there → IsAt T.Item there self.old (x ∷ xs) → IfOk result (λ got. got ≡ Some x) }
        ensures rest { (there : Places) (x : T) (xs : List T) → S.nodes store.old ≡ Some there → IsAt T.Item there self.old (x ∷ xs) → OnOk result (IsAt T.Item there self.new xs) }
        ensures none { IfOk result (λ got. (got ≡ None) ↔ (left_of self.old ≡ 0)) }
        ensures left { OnOk result (left_of self.new ≡ left_of self.old - 1) }
        ensures kept { OnErr result (self.new ≡ self.old) }
        ensures at_hand { 0 < count_at_hand self.old → steps.new ≡ steps.old }
        ensures last { left_of self.old ≡ 0 → steps.new ≡ steps.old }
        ensures height { height_of self.new ≡ height_of self.old }
        ensures reads { OnlyReads S.NodeSource (height_of self.old) store.old store.new steps.old steps.new }
        ensures over { (tree : Tree) (there : Places) → S.nodes store.old ≡ Some there → IsOver T.Item there tree self.old → OnOk result (IsOver T.Item there tree self.new) }
        ensures ran { (tree : Tree) → WhereTold (S.nodes store.old) (λ there. IsOver T.Item there tree self.old)
            → Ran T.Item S.NodeSource tree store.old store.new result }
        ensures edge { (tree : Tree) (there : Places) (edge : ℕ) → S.nodes store.old ≡ Some there → IsAtEdge T.Item there tree self.old edge
            → IfOk result (λ got. IsAtEdge T.Item there tree self.new (edge_after (is_descending self.old) edge got)) }
        ensures down { (tree : Tree) (there : Places) (edge : ℕ) → S.nodes store.old ≡ Some there → IsAtEdge T.Item there tree self.old edge
            → 0 < left_of self.old → GoesDown T.Item there tree (HasNumber (number_at (is_descending self.old) edge)) result }
        ensures order { is_descending self.new ≡ is_descending self.old }
        ensures cause { Caused S.NodeSource store.old store.new result }
        ensures sound { (tree : Tree) (there : Places) (items : List T) (at : ℕ) → S.nodes store.old ≡ Some there → IsOver T.Item there tree self.old → HoldsItems T.Item there tree items
            → result ≡ Err (TreeFault.BadNode at) → ⊥ }
        ensures ready { OnOk result (S.is_ready store.new) }
    {
        if self.left == 0 {
            return Ok(None);
        }
        self.advance(alloc, store, steps)?;
        self.left -= 1;
        let item = take_first(&mut self.leaf);
        Ok(Some(item))
    }
}

/// A walk stays right where more is put into the store.
pub fn walks_stay<T: Item>()
    ensures at { (old new : Places) (walk : Walk T) (items : List T) → Extends old new → IsAt T.Item old walk items → IsAt T.Item new walk items }
    ensures over { (old new : Places) (tree : Tree) (walk : Walk T) → Extends old new → IsOver T.Item old tree walk → IsOver T.Item new tree walk }
    ensures edge { (old new : Places) (tree : Tree) (walk : Walk T) (edge : ℕ) → Extends old new → IsAtEdge T.Item old tree walk edge
        → IsAtEdge T.Item new tree walk edge }
{}
