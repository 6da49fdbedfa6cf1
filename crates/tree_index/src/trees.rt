//! Trees that are copied.

ghost use Rattle.std.specs.Prelude.{◌≡◌, IfOk, length, replicate};
ghost use Rattle.index_trees.specs.Laws.{no_tree};
ghost use Rattle.tree_index.specs.Trees.{seen};

use index_trees::IndexTrees;
use json_terms::NoMemory;
use std::alloc::Global;
use tree_laws::Tree;

/// A tree without items.
pub(crate) fn no_tree() -> Tree
    ensures { result ≡ no_tree }
{
    Tree {
        root: 0,
        height: 0,
        count: 0,
    }
}

/// So many trees without items.
pub(crate) fn no_trees(alloc: Global, count: usize) -> Result<Vec<Tree>, NoMemory>
    ensures { IfOk result (λ trees. trees.items ≡ replicate count no_tree) }
{
    let mut trees = Vec::new(alloc);
    for _view in 0..count {
        trees.push(no_tree())?;
    }
    Ok(trees)
}

/// The same trees again.
pub(crate) fn copied(alloc: Global, trees: &IndexTrees) -> Result<IndexTrees, NoMemory>
    ensures { IfOk result (λ copy. seen copy ≡ seen trees.now) }
{
    let mut views = Vec::new(alloc);
    views.extend_from_slice(trees.views.as_slice())?;
    Ok(IndexTrees {
        views,
        back: trees.back,
    })
}

/// Makes the trees these, of as many views, without taking memory.
pub(crate) fn set_trees(trees: &mut IndexTrees, these: &IndexTrees)
    requires { length trees.old.views.items ≡ length these.now.views.items }
    ensures { seen trees.new ≡ seen these.now }
{
    trees
        .views
        .as_mut_slice()
        .copy_from_slice(these.views.as_slice());
    trees.back = these.back;
}
