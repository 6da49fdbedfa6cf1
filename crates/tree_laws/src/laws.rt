//! Laws of nodes and of trees. Each holds for all of them, and its function does nothing.
//!
//! A tree of a summer in some state is one whose summaries have the bytes of its values. A bare tree has any bytes for
//! summaries: its laws are for calls without a summer, as those that count or walk.

ghost use Rattle.std.specs.Prelude.{◌≡◌, ◌<◌, ◌≤◌, ◌-◌, ◌^◌, ℕ, List, Some, length};
ghost use Rattle.tree_laws.specs.declared.node.Node.{Node};
ghost use Rattle.tree_laws.specs.declared.tree.Fill.{Fill};
ghost use Rattle.tree_laws.specs.declared.tree.Fill.TheVariants.{Root, Below};
ghost use Rattle.tree_laws.specs.declared.tree.Tree.{Tree};
ghost use Rattle.tree_laws.specs.Fetching.{HasBadSum, IsBadAt};
ghost use Rattle.tree_laws.specs.Fitting.{IsFilled};
ghost use Rattle.tree_laws.specs.Nodes.{FitsNode, spelled_node};
ghost use Rattle.tree_laws.specs.Reaching.{Reaches, StandsFit};
ghost use Rattle.tree_laws.specs.Spelled.{IsPrefixFree, IsSpelledOnce};
ghost use Rattle.tree_laws.specs.Stores.{Extends, Places};
ghost use Rattle.tree_laws.specs.Trees.{Has, IsTree, IsTreeSize, Stands, StandsAs};
ghost use Rattle.tree_laws.specs.Values.{PassFor, no_values, values_of};

use crate::item::Item;
use crate::summer::Summer;

/// No two nodes have the same bytes.
pub fn nodes_are_spelled_once<T: Item>()
    ensures { IsSpelledOnce (FitsNode T.fits T.spelled) (spelled_node T.spelled) }
{}

/// The bytes of no node begin those of another.
pub fn nodes_are_prefix_free<T: Item>()
    ensures { IsPrefixFree (FitsNode T.fits T.spelled) (spelled_node T.spelled) }
{}

/// A tree keeps its items where more is put into its store.
pub fn trees_stay<M: Summer>()
    ensures { (first : M) (old new : Places) (tree : Tree) (items : List M.Unit) → Extends old new
        → IsTree M.Unit.Item (values_of M.Summer first) old tree items
        → IsTree M.Unit.Item (values_of M.Summer first) new tree items }
{}

/// A tree of a summer is one of another too, or of the same in another state, for which its values pass: one that spells each
/// value that fits in the same way, has it too, and is lawful only where the first is, with the same values of items.
pub fn trees_pass<M: Summer, N: Summer<Unit = M::Unit, Sum = M::Sum>>()
    ensures { (first : M) (other : N) (there : Places) (tree : Tree) (items : List M.Unit)
        → PassFor (values_of M.Summer first) (values_of N.Summer other)
        → IsTree M.Unit.Item (values_of M.Summer first) there tree items
        → IsTree M.Unit.Item (values_of N.Summer other) there tree items }
{}

/// Each tree of a summer is a bare tree.
pub fn trees_are_bare<M: Summer>()
    ensures tree { (first : M) (there : Places) (tree : Tree) (items : List M.Unit)
        → IsTree M.Unit.Item (values_of M.Summer first) there tree items
        → IsTree M.Unit.Item no_values there tree items }
    ensures below { (first : M) (there : Places) (level at : ℕ) (items : List M.Unit)
        → Stands M.Unit.Item (values_of M.Summer first) there level at items
        → Stands M.Unit.Item no_values there level at items }
{}

/// Each node of a tree fits its place, so none of them is found to be bad.
pub fn nodes_of_trees_fit<M: Summer>()
    ensures root { (first : M) (there : Places) (tree : Tree) (items : List M.Unit)
        → IsTree M.Unit.Item (values_of M.Summer first) there tree items → 0 < tree.height
        → IsBadAt M.Unit.Item (tree.height - 1) tree.count Root there tree.root → ⊥ }
    ensures below { (first : M) (there : Places) (level at : ℕ) (items : List M.Unit)
        → Stands M.Unit.Item (values_of M.Summer first) there level at items
        → IsBadAt M.Unit.Item level (length items) Below there at → ⊥ }
{}

/// Each summary in a node of a tree has the bytes of a value that fits.
pub fn sums_of_trees_fit<M: Summer>()
    ensures root { (first : M) (there : Places) (tree : Tree) (items : List M.Unit)
        → IsTree M.Unit.Item (values_of M.Summer first) there tree items → 0 < tree.height
        → HasBadSum M.Unit.Item (values_of M.Summer first) there tree.root → ⊥ }
    ensures below { (first : M) (there : Places) (level at : ℕ) (items : List M.Unit)
        → Stands M.Unit.Item (values_of M.Summer first) there level at items
        → HasBadSum M.Unit.Item (values_of M.Summer first) there at → ⊥ }
{}

/// What is fetched where a node of a tree stands is that node: it has the items, and is filled so.
pub fn nodes_of_trees_are_fetched<M: Summer>()
    ensures { (first : M) (there : Places) (fill : Fill) (level at : ℕ) (items : List M.Unit) (node : Node M.Unit)
        → StandsAs M.Unit.Item (values_of M.Summer first) there fill level at items
        → FitsNode M.Unit.fits M.Unit.spelled node → there at ≡ Some (spelled_node M.Unit.spelled node)
        → Has M.Unit.Item (values_of M.Summer first) there level node items × IsFilled fill node }
{}

/// At each place that is reached over a tree stands a node that fits there, with as many items as are wanted.
pub fn places_of_trees_have_nodes<M: Summer>()
    ensures fit { (first : M) (there : Places) (tree : Tree) (items : List M.Unit) (at level count : ℕ) (fill : Fill)
        → IsTree M.Unit.Item (values_of M.Summer first) there tree items
        → Reaches M.Unit.Item there tree at level count fill
        → ((node : Node M.Unit) × StandsFit M.Unit.Item there at level count fill node) }
    ensures items { (first : M) (there : Places) (tree : Tree) (items : List M.Unit) (at level count : ℕ) (fill : Fill)
        → IsTree M.Unit.Item (values_of M.Summer first) there tree items
        → Reaches M.Unit.Item there tree at level count fill
        → ((own : List M.Unit) × (length own ≡ count) × StandsAs M.Unit.Item (values_of M.Summer first) there fill level at own) }
{}

/// The numbers of a tree of 2^40 items at most are those that a call may be given.
pub fn trees_have_sizes<M: Summer>()
    ensures { (first : M) (there : Places) (tree : Tree) (items : List M.Unit)
        → IsTree M.Unit.Item (values_of M.Summer first) there tree items → length items ≤ 2 ^ 40
        → IsTreeSize tree }
{}

/// A bare tree keeps its items where more is put into its store.
pub fn bare_trees_stay<T: Item>()
    ensures { (old new : Places) (tree : Tree) (items : List T) → Extends old new
        → IsTree T.Item no_values old tree items → IsTree T.Item no_values new tree items }
{}

/// Each node of a bare tree fits its place, so none of them is found to be bad.
pub fn nodes_of_bare_trees_fit<T: Item>()
    ensures root { (there : Places) (tree : Tree) (items : List T)
        → IsTree T.Item no_values there tree items → 0 < tree.height
        → IsBadAt T.Item (tree.height - 1) tree.count Root there tree.root → ⊥ }
    ensures below { (there : Places) (level at : ℕ) (items : List T)
        → Stands T.Item no_values there level at items
        → IsBadAt T.Item level (length items) Below there at → ⊥ }
{}

/// What is fetched where a node of a bare tree stands is that node: it has the items, and is filled so.
pub fn nodes_of_bare_trees_are_fetched<T: Item>()
    ensures { (there : Places) (fill : Fill) (level at : ℕ) (items : List T) (node : Node T)
        → StandsAs T.Item no_values there fill level at items
        → FitsNode T.fits T.spelled node → there at ≡ Some (spelled_node T.spelled node)
        → Has T.Item no_values there level node items × IsFilled fill node }
{}

/// At each place that is reached over a bare tree stands a node that fits there, with as many items as are wanted.
pub fn places_of_bare_trees_have_nodes<T: Item>()
    ensures fit { (there : Places) (tree : Tree) (items : List T) (at level count : ℕ) (fill : Fill)
        → IsTree T.Item no_values there tree items
        → Reaches T.Item there tree at level count fill
        → ((node : Node T) × StandsFit T.Item there at level count fill node) }
    ensures items { (there : Places) (tree : Tree) (items : List T) (at level count : ℕ) (fill : Fill)
        → IsTree T.Item no_values there tree items
        → Reaches T.Item there tree at level count fill
        → ((own : List T) × (length own ≡ count) × StandsAs T.Item no_values there fill level at own) }
{}

/// The numbers of a bare tree of 2^40 items at most are those that a call may be given.
pub fn bare_trees_have_sizes<T: Item>()
    ensures { (there : Places) (tree : Tree) (items : List T)
        → IsTree T.Item no_values there tree items → length items ≤ 2 ^ 40 → IsTreeSize tree }
{}
