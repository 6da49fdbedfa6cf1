//! Building a tree of items that come in order.

ghost use Rattle.reduce_tree.specs.Built.{HoldsNothing, row_items, pushed, waiting, levels_of, AreRows, IsWhole, IsPopped, Stacked, Built, IsCutting, ReadsForPuts, HasEntries, ArePutFull, ArePutPacked};
ghost use Rattle.reduce_tree.specs.Calls.{places, IsKnown, Ran, BlamesNone, UnlessStore};
ghost use Rattle.reduce_tree.specs.Packed.{Grown, StandsAt, ArePacked, IsCut, Climbs, PacksAt, IsPackedTree};
ghost use Rattle.reduce_tree.specs.Rows.{IsAtLevel, leaf_items};
ghost use Rattle.reduce_tree.specs.Sums.{ArePiecesHad, IsSumGiven, IsSumHad, KeepsHad, RowsHad, sums_of};
ghost use Rattle.reduce_tree.specs.declared.builder.Builder.{Builder};
ghost use Rattle.std.specs.List.Sorted.{IsStrictlySortedBy};
ghost use Rattle.std.specs.Prelude.{Contains, All, ℕ, ◌≡◌, ◌+◌, ◌*◌, ◌<◌, ◌≤◌, ◌^◌, ◌∷◌, ◌++◌, true, false, List, [], Some, IfErr, IfOk, OnOk, OnErr, length, vec_len};
ghost use Rattle.tree_laws.specs.Fitting.{AreLarge, item_count};
ghost use Rattle.tree_laws.specs.Nodes.{entries, spelled_node};
ghost use Rattle.tree_laws.specs.Packing.{packed_size};
ghost use Rattle.tree_laws.specs.Stores.{EachSince, Extends, KeepsPlaces, Places, pieces_size};
ghost use Rattle.tree_laws.specs.Values.{PassFor, values_of};
ghost use Rattle.tree_laws.specs.SummerTrees.{AreChildren, Has, HasRoot, IsChild, IsTree, IsTreeSize, Stands};
ghost use Rattle.tree_laws.specs.declared.node.Child.{Child};
ghost use Rattle.tree_laws.specs.declared.node.Node.TheVariants.{Leaf, Inner};
ghost use Rattle.tree_laws.specs.declared.tree.Tree.{Tree};

use crate::parts::{add_all, add_last, list_of_one, split_node};
use crate::put::put_node;
use json_terms::NoMemory;
use std::alloc::Global;
use tree_laws::{Child, Children, Item, Items, Node, NodeStore, Summer, Tree, TreeFault};

/// A tree in the making. It keeps the last items pushed, and of each level of the tree the last entries: fewer than 40 of each, so
/// that it takes the memory of one path however many items are pushed. Of the values it keeps the bytes.
#[derive(Debug, Drop)]
pub struct Builder<T> {
    leaf: Vec<T>,
    // the lowest level last
    rows: Vec<Children<T>>,
}

/// Where a row of more than 32 entries is cut: 24 where fewer than 8 would be left.
fn cut_at(len: usize) -> usize
    requires { 32 < len }
    ensures least { 8 ≤ result }
    ensures most { result ≤ 32 }
    ensures rest { result + 8 ≤ len }
    ensures short { len < 40 → result ≡ 24 }
    ensures long { 40 ≤ len → result ≡ 32 }
{
    if len < 40 { 24 } else { 32 }
}

fn with_first<T: Drop>(alloc: Global, first: T, rest: Vec<T>) -> Result<Vec<T>, NoMemory>
    ensures { IfOk result (λ list. list.items ≡ first ∷ rest.items) }
{
    let mut list = list_of_one(alloc, first)?;
    add_all(&mut list, rest)?;
    Ok(list)
}

/// The first 32 of a list, and the others.
fn cut_full<T: Drop>(list: Vec<T>) -> Result<(Vec<T>, Vec<T>), NoMemory>
    requires { 32 ≤ vec_len list }
    ensures whole { IfOk result (λ parts. list.items ≡ parts.0.items ++ parts.1.items) }
    ensures full { IfOk result (λ parts. length parts.0.items ≡ 32) }
{
    let mut full = list;
    let rest = full.split_off(32)?;
    Ok((full, rest))
}

/// Puts the entries of a node of any length in packed nodes.
fn pack_row<S: NodeStore, M: Summer>(
    alloc: Global,
    store: &mut S,
    summer: &mut M,
    node: Node<M::Unit>,
) -> Result<Vec<Child<M::Unit>>, TreeFault<S::Fault, M::Fault>>
    requires ready { S.is_ready store.old }
    requires least { 8 ≤ entries node }
    requires few { item_count node ≤ 2 ^ 40 }
    ensures children { (first : M) (level : ℕ) (items : List M.Unit) → IsKnown M.Unit.Item S.NodeSource M.Summer first summer.old store.old → Has M.Unit.Item M.Summer first (places (S.nodes store.old)) level node items
        → IfOk result (λ children. AreChildren M.Unit.Item M.Summer first (Stands M.Unit.Item M.Summer first (places (S.nodes store.new)) level) children.items items) }
    ensures large { (level : ℕ) → IsAtLevel level node → AreLarge level node → IfOk result (λ children. AreLarge (level + 1) (Inner children.items)) }
    ensures count { IfOk result (λ children. item_count (Inner children.items) ≡ item_count node) }
    ensures some { IfOk result (λ children. 0 < vec_len children) }
    ensures two { 32 < entries node → IfOk result (λ children. 2 ≤ vec_len children) }
    ensures packed { (there : Places) → S.nodes store.old ≡ Some there → IfOk result (λ children. Grown (S.size store.old) (S.size store.new) 0 (ArePacked M.Unit.Item (places (S.nodes store.new)) node children.items)) }
    ensures leaf { OnOk result (S.size store.old + 8 * leaf_items node ≤ S.size store.new) }
    ensures usable { 0 < leaf_items node → OnOk result (M.usable summer.old) }
    ensures gets { S.gets store.new ≡ S.gets store.old }
    ensures reads { ReadsForPuts (S.reads store.old) (S.reads store.new) (S.puts store.old) (S.puts store.new) }
    ensures pieces { IfOk result (λ children. 32 * vec_len children ≤ entries node + 31) }
    ensures puts { 32 * length (S.puts store.new) ≤ 32 * length (S.puts store.old) + (entries node + 31) }
    ensures filled { EachSince (HasEntries M.Unit.Item 8 32) (S.puts store.old) (S.puts store.new) }
    ensures sums { (first : M) (had : List (List ℕ)) → KeepsHad M.Unit.Item M.Summer (Contains had) first summer.old node → ArePiecesHad M.Unit.Item M.Summer (Contains had) first summer.new (S.puts store.old) (S.puts store.new) }
    ensures given { (first : M) → M.goes first summer.old → IfOk result (λ children. All (λ child. IsSumGiven M.Summer first summer.new child.sum) children.items) }
    ensures sound { IfErr result BlamesNone }
    ensures ran { Ran M.Unit.Item S.NodeSource M.Summer store.old store.new summer.old summer.new result }
    ensures ready { OnOk result (S.is_ready store.new) }
{
    if node.len() <= 32 {
        let child = put_node(alloc, store, summer, node)?;
        return Ok(list_of_one(alloc, child)?);
    }
    let at = cut_at(node.len());
    let (left, right) = split_node(node, at)?;
    let first = put_node(alloc, store, summer, left)?;
    let rest = pack_row(alloc, store, summer, right)?;
    Ok(with_first(alloc, first, rest)?)
}

fn pop_row<T: Drop>(alloc: Global, rows: &mut Vec<Children<T>>) -> Children<T>
    ensures items { IsPopped rows.old.items rows.new.items result }
    ensures less { 0 < length result → vec_len rows.new < vec_len rows.old }
{
    match rows.pop() {
        Some(row) => row,
        None => Children::from_vec(Vec::new(alloc)),
    }
}

fn stack_row<T: Drop>(rows: &mut Vec<Children<T>>, row: Vec<Child<T>>) -> Result<(), NoMemory>
    ensures { IfOk result (λ _. rows.new.items ≡ rows.old.items ++ row.items ∷ []) }
{
    rows.push(Children::from_vec(row))?;
    Ok(())
}

fn added<T: Drop>(row: Children<T>, child: Child<T>) -> Result<Vec<Child<T>>, NoMemory>
    ensures { IfOk result (λ list. list.items ≡ row ++ child ∷ []) }
{
    let mut list = row.into_vec();
    add_last(&mut list, child)?;
    Ok(list)
}

/// Hands a child to the row of its level, which puts its first 32 where it has 40.
fn hand<S: NodeStore, M: Summer>(
    alloc: Global,
    store: &mut S,
    summer: &mut M,
    rows: &mut Vec<Children<M::Unit>>,
    child: Child<M::Unit>,
) -> Result<(), TreeFault<S::Fault, M::Fault>>
    requires ready { S.is_ready store.old }
    requires few { row_items rows.old.items + child.count ≤ 2 ^ 40 }
    ensures items { (first : M) (low : ℕ) (xs mid : List M.Unit) → IsKnown M.Unit.Item S.NodeSource M.Summer first summer.old store.old → Stacked M.Unit.Item M.Summer first (places (S.nodes store.old)) low rows.old.items xs
        → IsChild M.Unit.Item M.Summer first (Stands M.Unit.Item M.Summer first (places (S.nodes store.old)) low) child mid → IfOk result (λ _. Stacked M.Unit.Item M.Summer first (places (S.nodes store.new)) low rows.new.items (xs ++ mid)) }
    ensures climbs { (there : Places) (below : List (Child M.Unit)) (taken : ℕ) → S.nodes store.old ≡ Some there → Climbs M.Unit.Item (places (S.nodes store.old)) rows.old.items [] below taken
        → IfOk result (λ _. Grown (S.size store.old) (S.size store.new) taken (Climbs M.Unit.Item (places (S.nodes store.new)) rows.new.items [] (below ++ child ∷ []))) }
    ensures rows { (low : ℕ) → AreRows low rows.old.items → 8 ^ (low + 1) ≤ child.count → OnOk result (AreRows low rows.new.items) }
    ensures count { OnOk result (row_items rows.new.items ≡ row_items rows.old.items + child.count) }
    ensures grows { OnOk result (S.size store.old ≤ S.size store.new) }
    ensures gets { S.gets store.new ≡ S.gets store.old }
    ensures reads { ReadsForPuts (S.reads store.old) (S.reads store.new) (S.puts store.old) (S.puts store.new) }
    ensures puts { length (S.puts store.new) ≤ length (S.puts store.old) + length rows.old.items }
    ensures filled { ArePutFull M.Unit.Item (S.puts store.old) (S.puts store.new) }
    ensures sums { (first : M) (had : List (List ℕ)) → M.goes first summer.old → RowsHad M.Unit.Item M.Summer (Contains had) first summer.old rows.old.items → IsSumHad M.Unit.Item M.Summer (Contains had) first summer.old child.sum → ArePiecesHad M.Unit.Item M.Summer (Contains had) first summer.new (S.puts store.old) (S.puts store.new) }
    ensures held { (first : M) (had : List (List ℕ)) → M.goes first summer.old → RowsHad M.Unit.Item M.Summer (Contains had) first summer.old rows.old.items → IsSumHad M.Unit.Item M.Summer (Contains had) first summer.old child.sum → OnOk result (RowsHad M.Unit.Item M.Summer (Contains had) first summer.new rows.new.items) }
    ensures sound { IfErr result BlamesNone }
    ensures ran { Ran M.Unit.Item S.NodeSource M.Summer store.old store.new summer.old summer.new result }
    ensures ready { OnOk result (S.is_ready store.new) }
{
    let row = pop_row(alloc, rows);
    let list = added(row, child)?;
    if list.len() < 40 {
        stack_row(rows, list)?;
        return Ok(());
    }
    let (full, rest) = cut_full(list)?;
    let node = Node::Inner(Children::from_vec(full));
    let parent = put_node(alloc, store, summer, node)?;
    hand(alloc, store, summer, rows, parent)?;
    stack_row(rows, rest)?;
    Ok(())
}

/// Whether one node takes all that waits: no rows, and so many entries.
fn fits_root(rows: usize, entries: usize) -> bool
    ensures none { result ≡ true → rows ≡ 0 }
    ensures few { result ≡ true → entries ≤ 32 }
    ensures more { result ≡ false → rows ≡ 0 → 32 < entries }
{
    if rows > 0 {
        return false;
    }
    entries <= 32
}

/// Puts a node as the root of a tree. Of none there is no node.
fn put_top<S: NodeStore, M: Summer>(
    alloc: Global,
    store: &mut S,
    summer: &mut M,
    level: u32,
    node: Node<M::Unit>,
) -> Result<Tree, TreeFault<S::Fault, M::Fault>>
    requires ready { S.is_ready store.old }
    requires kind { IsAtLevel level node }
    requires level { level < 2 ^ 31 }
    requires large { AreLarge level node }
    requires two { 0 < level → 2 ≤ entries node }
    requires most { entries node ≤ 32 }
    requires few { item_count node ≤ 2 ^ 40 }
    ensures root { (first : M) (items : List M.Unit) → IsKnown M.Unit.Item S.NodeSource M.Summer first summer.old store.old → Has M.Unit.Item M.Summer first (places (S.nodes store.old)) level node items → IfOk result (λ tree. HasRoot M.Unit.Item M.Summer first (places (S.nodes store.new)) tree.root tree.height items) }
    ensures count { IfOk result (λ tree. tree.count ≡ item_count node) }
    ensures size { IfOk result IsTreeSize }
    ensures height { 0 < entries node → IfOk result (λ tree. tree.height ≡ level + 1) }
    ensures stored { (there : Places) → S.nodes store.old ≡ Some there → 0 < entries node → IfOk result (λ tree. StandsAt M.Unit.Item (places (S.nodes store.new)) tree.root node) }
    ensures takes { 0 < entries node → OnOk result (S.size store.new ≡ S.size store.old + pieces_size (spelled_node M.Unit.spelled node ∷ [])) }
    ensures none { entries node ≡ 0 → OnOk result (S.size store.new ≡ S.size store.old) }
    ensures leaf { OnOk result (S.size store.old + 8 * leaf_items node ≤ S.size store.new) }
    ensures usable { 0 < leaf_items node → OnOk result (M.usable summer.old) }
    ensures gets { S.gets store.new ≡ S.gets store.old }
    ensures reads { ReadsForPuts (S.reads store.old) (S.reads store.new) (S.puts store.old) (S.puts store.new) }
    ensures puts { length (S.puts store.new) ≤ length (S.puts store.old) + 1 }
    ensures filled { EachSince (HasEntries M.Unit.Item 1 32) (S.puts store.old) (S.puts store.new) }
    ensures refused { OnErr result (UnlessStore result (S.puts store.new ≡ S.puts store.old)) }
    ensures sums { (first : M) (had : List (List ℕ)) → KeepsHad M.Unit.Item M.Summer (Contains had) first summer.old node → ArePiecesHad M.Unit.Item M.Summer (Contains had) first summer.new (S.puts store.old) (S.puts store.new) }
    ensures sound { IfErr result BlamesNone }
    ensures ran { Ran M.Unit.Item S.NodeSource M.Summer store.old store.new summer.old summer.new result }
    ensures ready { OnOk result (S.is_ready store.new) }
{
    if node.is_empty() {
        return Ok(Tree {
            root: 0,
            height: 0,
            count: 0,
        });
    }
    let top = put_node(alloc, store, summer, node)?;
    Ok(Tree {
        root: top.at,
        height: level + 1,
        count: top.count,
    })
}

/// Puts the last entries of each level, from one level up, until one node takes what is there.
fn rise<S: NodeStore, M: Summer>(
    alloc: Global,
    store: &mut S,
    summer: &mut M,
    level: u32,
    node: Node<M::Unit>,
    rows: Vec<Children<M::Unit>>,
) -> Result<Tree, TreeFault<S::Fault, M::Fault>>
    requires ready { S.is_ready store.old }
    requires kind { IsAtLevel level node }
    requires level { level < 2 ^ 31 }
    requires large { AreLarge level node }
    requires two { 0 < level → 2 ≤ entries node }
    requires rows { AreRows level rows.items }
    requires least { 0 < length rows.items → 8 ≤ entries node }
    requires few { row_items rows.items + item_count node ≤ 2 ^ 40 }
    ensures root { (first : M) (xs ys : List M.Unit) → IsKnown M.Unit.Item S.NodeSource M.Summer first summer.old store.old → Stacked M.Unit.Item M.Summer first (places (S.nodes store.old)) level rows.items xs
        → Has M.Unit.Item M.Summer first (places (S.nodes store.old)) level node ys → IfOk result (λ tree. HasRoot M.Unit.Item M.Summer first (places (S.nodes store.new)) tree.root tree.height (xs ++ ys)) }
    ensures count { IfOk result (λ tree. tree.count ≡ row_items rows.items + item_count node) }
    ensures size { IfOk result IsTreeSize }
    ensures leaf { (there : Places) (given ws : List M.Unit) (above : List (Child M.Unit)) (own more : ℕ) → S.nodes store.old ≡ Some there → node ≡ Leaf ws → 0 < length given → IsCut M.Unit.Item (places (S.nodes store.old)) Leaf given ws above own
        → Climbs M.Unit.Item (places (S.nodes store.old)) rows.items [] above more → IfOk result (λ tree. Grown (S.size store.old) (S.size store.new) (own + more) (PacksAt M.Unit.Item (places (S.nodes store.new)) Leaf level tree given)) }
    ensures inner { (there : Places) (given ws above : List (Child M.Unit)) (own more : ℕ) → S.nodes store.old ≡ Some there → node ≡ Inner ws → 2 ≤ length given → IsCut M.Unit.Item (places (S.nodes store.old)) Inner given ws above own
        → Climbs M.Unit.Item (places (S.nodes store.old)) rows.items [] above more → IfOk result (λ tree. Grown (S.size store.old) (S.size store.new) (own + more) (PacksAt M.Unit.Item (places (S.nodes store.new)) Inner level tree given)) }
    ensures none { length rows.items ≡ 0 → entries node ≡ 0 → OnOk result (S.size store.new ≡ S.size store.old) }
    ensures grows { OnOk result (S.size store.old + 8 * leaf_items node ≤ S.size store.new) }
    ensures usable { 0 < leaf_items node → OnOk result (M.usable summer.old) }
    ensures gets { S.gets store.new ≡ S.gets store.old }
    ensures reads { ReadsForPuts (S.reads store.old) (S.reads store.new) (S.puts store.old) (S.puts store.new) }
    ensures once { length rows.items ≡ 0 → entries node ≤ 32 → length (S.puts store.new) ≤ length (S.puts store.old) + 1 }
    ensures puts { entries node ≤ 41 → length (S.puts store.new) ≤ length (S.puts store.old) + (2 * length rows.items + 3) }
    ensures filled { ArePutPacked M.Unit.Item (S.puts store.old) (S.puts store.new) }
    ensures refused { OnErr result (UnlessStore result (EachSince (HasEntries M.Unit.Item 8 32) (S.puts store.old) (S.puts store.new))) }
    ensures sums { (first : M) (had : List (List ℕ)) → M.goes first summer.old → RowsHad M.Unit.Item M.Summer (Contains had) first summer.old rows.items → KeepsHad M.Unit.Item M.Summer (Contains had) first summer.old node → ArePiecesHad M.Unit.Item M.Summer (Contains had) first summer.new (S.puts store.old) (S.puts store.new) }
    ensures sound { IfErr result BlamesNone }
    ensures ran { Ran M.Unit.Item S.NodeSource M.Summer store.old store.new summer.old summer.new result }
    ensures ready { OnOk result (S.is_ready store.new) }
{
    if fits_root(rows.len(), node.len()) {
        let tree = put_top(alloc, store, summer, level, node)?;
        return Ok(tree);
    }
    let mut above = rows;
    let placed = pack_row(alloc, store, summer, node)?;
    let row = pop_row(alloc, &mut above);
    let mut list = row.into_vec();
    add_all(&mut list, placed)?;
    let node = Node::Inner(Children::from_vec(list));
    let tree = rise(alloc, store, summer, level + 1, node, above)?;
    Ok(tree)
}

impl<T: Item> Builder<T> {
    /// A builder to which nothing was pushed. It takes memory for the items of one leaf; `NoMemory` comes where there is none.
    pub fn new(alloc: Global) -> Result<Builder<T>, NoMemory>
        ensures nothing { IfOk result HoldsNothing }
        ensures whole { IfOk result IsWhole }
        ensures pushed { IfOk result (λ builder. pushed builder ≡ 0) }
        ensures waiting { IfOk result (λ builder. waiting builder ≡ 0) }
        ensures cut { (there : Places) → IfOk result (λ builder. IsCutting T.Item there builder [] 0) }
    {
        Ok(Builder {
            leaf: Vec::with_capacity(alloc, 40)?,
            rows: Vec::new(alloc),
        })
    }

    /// Adds an item after those pushed before. Up to 2^40 items can be pushed, and after a refusal none. Nodes are put into the store
    /// as they are full, and those that are there stay.
    ///
    /// All summers that one builder is given are to have the same values and the same spelling of them: each is a later state of one
    /// that was there first. Nothing is got from the store. Its reads never fall, and rise by two at most for each piece put, whatever is
    /// answered. For each item pushed that does not wait any more the store grew by 8 bytes at least, and it was given to a summer that
    /// was usable. The store grows by what the nodes that are put take, their bytes and 8 more for each, and by nothing else.
    ///
    /// Each piece put, before a refusal too, is a node of exactly 32 entries. Whatever is answered there is one at most for each level
    /// at which entries wait, the items' own among them. A leaf is put only where the summer was usable, and in this call `leaf` was
    /// given exactly its items. Each summary in an inner node is that of a value that fits, and the builder kept it before, or the
    /// summer answered its value in this call; and so with each summary that the builder keeps afterwards. A piece at which the store
    /// fails is such a node too, and counts.
    ///
    /// `Store` and `Summer` hand on what the store and the summer answered in this call, and the other of the two has gone on, as
    /// both have where memory runs out. `BadNode` never comes. After each refusal but `Store` the store is ready and keeps what stood
    /// in it.
    pub fn push<S: NodeStore, M: Summer<Unit = T>>(
        &mut self,
        alloc: Global,
        store: &mut S,
        summer: &mut M,
        item: T,
    ) -> Result<(), TreeFault<S::Fault, M::Fault>>
        requires ready { S.is_ready store.old }
        requires whole { IsWhole self.old }
        requires few { pushed self.old < 2 ^ 40 }
        ensures items { (first : M) (there : Places) (items : List T) → S.nodes store.old ≡ Some there → M.goes first summer.old
            → Built T.Item M.Summer first there self.old items
            → IfOk result (λ _. Built T.Item M.Summer first (places (S.nodes store.new)) self.new (items ++ item ∷ [])) }
        ensures cut { (there : Places) (items : List T) (taken : ℕ) → S.nodes store.old ≡ Some there → IsCutting T.Item there self.old items taken
            → IfOk result (λ _. Grown (S.size store.old) (S.size store.new) taken (IsCutting T.Item (places (S.nodes store.new)) self.new (items ++ item ∷ []))) }
        ensures whole { OnOk result (IsWhole self.new) }
        ensures pushed { OnOk result (pushed self.new ≡ pushed self.old + 1) }
        ensures kept { UnlessStore result (KeepsPlaces (S.nodes store.old) (S.nodes store.new)) }
        ensures grows { OnOk result (S.size store.old + 8 * (waiting self.old + 1) ≤ S.size store.new + 8 * waiting self.new) }
        ensures usable { OnOk result (waiting self.new ≤ waiting self.old → M.usable summer.old) }
        ensures gets { S.gets store.new ≡ S.gets store.old }
        ensures reads { ReadsForPuts (S.reads store.old) (S.reads store.new) (S.puts store.old) (S.puts store.new) }
        ensures puts { length (S.puts store.new) ≤ length (S.puts store.old) + levels_of self.old }
        ensures filled { ArePutFull T.Item (S.puts store.old) (S.puts store.new) }
        ensures sums { ArePiecesHad T.Item M.Summer (Contains (sums_of self.old)) summer.old summer.new (S.puts store.old) (S.puts store.new) }
        ensures held { OnOk result (RowsHad T.Item M.Summer (Contains (sums_of self.old)) summer.old summer.new self.new.rows.items) }
        ensures sound { IfErr result BlamesNone }
        ensures ran { Ran T.Item S.NodeSource M.Summer store.old store.new summer.old summer.new result }
        ensures ready { UnlessStore result (S.is_ready store.new) }
    {
        add_last(&mut self.leaf, item)?;
        if self.leaf.len() < 40 {
            return Ok(());
        }
        let list = std::mem::replace(&mut self.leaf, Vec::new(alloc));
        let (full, rest) = cut_full(list)?;
        self.leaf = rest;
        let node = Node::Leaf(Items::from_vec(full));
        let child = put_node(alloc, store, summer, node)?;
        hand(alloc, store, summer, &mut self.rows, child)?;
        Ok(())
    }

    /// The tree of the items pushed, packed: each level is cut into nodes of 32, and where 1 to 7 entries remain, the last full node
    /// gives up its last 8 to them. It holds them where they rise strictly. The conditions, the reads, the faults and what they leave
    /// are those of `push`, and nothing is got either; the store grows by 8 bytes at least for each item that waits. Over all pushes
    /// and this call the store grows by exactly what the nodes of this tree take: no other node is put.
    ///
    /// Each piece put, before a refusal too, is a node of 8 to 32 entries, but for the newest, which may be the root and have fewer.
    /// After a refusal but `Store` none has fewer. Whatever is answered there are two pieces at most for each of the levels, and one
    /// more. The rest is as with `push`: of leaves, of summaries, and of a piece at which the store fails.
    pub fn finish<S: NodeStore, M: Summer<Unit = T>>(
        self,
        alloc: Global,
        store: &mut S,
        summer: &mut M,
    ) -> Result<Tree, TreeFault<S::Fault, M::Fault>>
        requires ready { S.is_ready store.old }
        requires whole { IsWhole self }
        requires few { pushed self ≤ 2 ^ 40 }
        ensures tree { (first : M) (there : Places) (items : List T) → S.nodes store.old ≡ Some there → M.goes first summer.old
            → IsStrictlySortedBy T.order items → Built T.Item M.Summer first there self items
            → IfOk result (λ tree. IsTree T.Item M.Summer first (places (S.nodes store.new)) tree items) }
        ensures packed { (there : Places) (items : List T) (taken : ℕ) → S.nodes store.old ≡ Some there → IsCutting T.Item there self items taken
            → IfOk result (λ tree. Grown (S.size store.old) (S.size store.new) taken (IsPackedTree T.Item (places (S.nodes store.new)) tree items)) }
        ensures size { IfOk result IsTreeSize }
        ensures count { IfOk result (λ tree. tree.count ≡ pushed self) }
        ensures kept { UnlessStore result (KeepsPlaces (S.nodes store.old) (S.nodes store.new)) }
        ensures grows { OnOk result (S.size store.old + 8 * waiting self ≤ S.size store.new) }
        ensures usable { 0 < pushed self → OnOk result (M.usable summer.old) }
        ensures gets { S.gets store.new ≡ S.gets store.old }
        ensures reads { ReadsForPuts (S.reads store.old) (S.reads store.new) (S.puts store.old) (S.puts store.new) }
        ensures puts { length (S.puts store.new) ≤ length (S.puts store.old) + (2 * levels_of self + 1) }
        ensures filled { ArePutPacked T.Item (S.puts store.old) (S.puts store.new) }
        ensures refused { OnErr result (UnlessStore result (EachSince (HasEntries T.Item 8 32) (S.puts store.old) (S.puts store.new))) }
        ensures sums { ArePiecesHad T.Item M.Summer (Contains (sums_of self)) summer.old summer.new (S.puts store.old) (S.puts store.new) }
        ensures sound { IfErr result BlamesNone }
        ensures ran { Ran T.Item S.NodeSource M.Summer store.old store.new summer.old summer.new result }
        ensures ready { UnlessStore result (S.is_ready store.new) }
    {
        let Builder { leaf, rows } = self;
        let node = Node::Leaf(Items::from_vec(leaf));
        let tree = rise(alloc, store, summer, 0, node, rows)?;
        Ok(tree)
    }
}

/// A builder that holds nothing has no items, over whatever stands in a store and for any summer.
pub fn new_builders_are_empty<M: Summer>()
    ensures { (first : M) (there : Places) (builder : Builder M.Unit) → HoldsNothing builder → Built M.Unit.Item M.Summer first there builder [] }
{}

/// What a builder holds, and what was packed, stays where more is put into its store.
pub fn builders_stay<M: Summer>()
    ensures items { (first : M) (old new : Places) (builder : Builder M.Unit) (items : List M.Unit) → Extends old new
        → Built M.Unit.Item M.Summer first old builder items → Built M.Unit.Item M.Summer first new builder items }
    ensures cut { (old new : Places) (builder : Builder M.Unit) (items : List M.Unit) (taken : ℕ) → Extends old new
        → IsCutting M.Unit.Item old builder items taken → IsCutting M.Unit.Item new builder items taken }
    ensures packed { (old new : Places) (tree : Tree) (items : List M.Unit) (size : ℕ) → Extends old new
        → IsPackedTree M.Unit.Item old tree items size → IsPackedTree M.Unit.Item new tree items size }
{}

/// What a builder holds with the values of a summer it holds with those of another that means the same, as with the same one made
/// anew.
pub fn builders_pass<M: Summer, N: Summer<Unit = M::Unit, Sum = M::Sum>>()
    ensures { (first : M) (other : N) (there : Places) (builder : Builder M.Unit) (items : List M.Unit) → PassFor (values_of M.Summer first) (values_of N.Summer other)
        → Built M.Unit.Item M.Summer first there builder items → Built M.Unit.Item N.Summer other there builder items }
{}

/// A packed tree whose summaries are spelled from lawful values takes exactly the packed length of its items, wherever its nodes stand.
pub fn packed_trees_have_their_size<M: Summer>()
    ensures { (first : M) (there : Places) (tree : Tree) (items : List M.Unit) (size : ℕ) → M.lawful first
        → IsTree M.Unit.Item M.Summer first there tree items → IsPackedTree M.Unit.Item there tree items size
        → size ≡ packed_size M.Unit.spelled (M.meaning first) items }
{}
