//! The trees of indexes: documents by the texts of their rows, exchanges, and what the trees show then.

ghost use Rattle.std.specs.Prelude.{◌≡◌, ◌<◌, ◌^◌, OnOk, vec_len};
ghost use Rattle.index_trees.specs.Trees.{AreSizes};
ghost use Rattle.tree_laws.specs.Trees.{IsTreeSize};

use builtin_reduces::RowItem;
use child_pool::{Pool, PoolFault, ReduceSlot, Summers, print_view_sum};
use design_docs::{Design, DesignFault, read_design};
use index_items::BackItem;
use index_trees::{IndexTrees, exchange};
use json_terms::{Chars, Emissions, NoMemory, RowLists, Term, copy_term, read_term};
use row_exchange::DocRows;
use std::alloc::Global;
use std::marker::Model;
use std::sync::ledger::Ledger;
use std::test::Fail;
use test_tools::text_of;
use tree_laws::{Item, NodeSource, NodeStore, Steps, Tree, TreeFault};
use tree_query::{Walk, reduce_range};
use tree_tools::SizedTree;
use view_ports::ScriptServers;

/// A document, and for each view the text of the keys and values that it has there.
pub type Doc = (&'static str, &'static [&'static str]);

/// The trees of an index that a call may be given.
#[derive(Drop)]
pub struct SizedTrees {
    trees: IndexTrees,
}

impl Model for SizedTrees {
    ghost use Rattle.std.specs.Prelude.{◌<◌, ◌^◌, vec_len};
    ghost use Rattle.index_trees.specs.declared.trees.IndexTrees.{IndexTrees};
    ghost use Rattle.index_trees.specs.Trees.{AreSizes};

    ghost Value = { IndexTrees };

    ghost view = { λ sized. sized.trees };

    ghost invariant = { λ sized. AreSizes sized.trees × (vec_len sized.trees.views < 2 ^ 16) };
}

impl SizedTrees {
    /// Trees of so many views without a row.
    pub fn empty(alloc: Global, views: u8) -> Result<SizedTrees, NoMemory> {
        let none = Tree {
            root: 0,
            height: 0,
            count: 0,
        };
        let views = vec![in alloc; none; views as usize]?;
        Ok(SizedTrees {
            trees: IndexTrees { views, back: none },
        })
    }

    fn of(trees: IndexTrees) -> SizedTrees
        requires sizes { AreSizes trees }
        requires few { vec_len trees.views < 2 ^ 16 }
        ensures { result ≡ trees }
    {
        SizedTrees { trees }
    }

    fn trees(&self) -> &IndexTrees
        ensures same { result.now ≡ self.now }
        ensures sizes { AreSizes result.now }
        ensures few { vec_len result.now.views < 2 ^ 16 }
    {
        &self.trees
    }

    /// The tree of a view, or one without items where there is no such view.
    pub fn view(&self, number: usize) -> SizedTree {
        match self.trees.views.get(number) {
            Some(tree) => SizedTree::of(*tree),
            None => SizedTree::empty(),
        }
    }

    /// The tree of the back-index.
    pub fn back(&self) -> SizedTree {
        SizedTree::of(self.trees.back)
    }
}

/// The design of a document's text.
pub fn design_of(alloc: Global, text: &str) -> Result<Design, Fail> {
    let document = read_term(alloc, text.as_bytes())?;
    match read_design(alloc, &document) {
        Ok(design) => Ok(design),
        Err(DesignFault::NoMemory) => Err(Fail::from(NoMemory)),
        Err(_fault) => Err(Fail::from("no design")),
    }
}

/// The keys and values of a text such as `[["a",1],["b",2]]`.
fn emissions_of(alloc: Global, text: &str) -> Result<Emissions, Fail> {
    let list = read_term(alloc, text.as_bytes())?;
    let mut emissions = Emissions::new(alloc);
    for pair in list.as_array().unwrap_or(&[]) {
        let Some([key, value]) = pair.as_array() else {
            return Err(Fail::from("no key and value"));
        };
        emissions.push(copy_term(alloc, key)?, copy_term(alloc, value)?)?;
    }
    Ok(emissions)
}

/// The rows of a document, by a text for each view.
pub fn change_of(alloc: Global, id: &str, lists: &[&str]) -> Result<DocRows, Fail> {
    let mut rows = RowLists::new(alloc);
    for text in lists {
        rows.push(emissions_of(alloc, text)?)?;
    }
    Ok(DocRows {
        id: Chars::from_text(alloc, id)?,
        rows,
    })
}

pub fn changes_of(alloc: Global, docs: &[Doc]) -> Result<Vec<DocRows>, Fail> {
    let mut changes = Vec::new(alloc);
    for (id, lists) in docs {
        changes.push(change_of(alloc, id, lists)?)?;
    }
    Ok(changes)
}

/// The trees with the rows of these documents exchanged, where no query server is needed.
pub fn exchanged<S: NodeStore, L: Ledger>(
    alloc: Global,
    store: &mut S,
    design: &Design,
    trees: &SizedTrees,
    changes: &[DocRows],
    steps: &mut Steps<L>,
) -> Result<SizedTrees, TreeFault<S::Fault, PoolFault>>
    requires { S.is_ready store.old }
    ensures ready { OnOk result (S.is_ready store.new) }
    ensures goes { OnOk result (S.goes store.old store.new) }
{
    let mut servers = ScriptServers::new(alloc, Vec::new(alloc))?;
    let mut pool = Pool::new(alloc, 1, &[])?;
    let mut summers = Summers {
        slot: ReduceSlot::over(&mut pool, &mut servers),
        design,
        view: 0,
    };
    let after = exchange(alloc, store, &mut summers, trees.trees(), changes, steps)?;
    Ok(SizedTrees::of(after))
}

/// The items of a tree, by a walk over all of it.
pub fn walked<S: NodeSource, T: Item, L: Ledger>(
    alloc: Global,
    store: &mut S,
    tree: &SizedTree,
    steps: &mut Steps<L>,
) -> Result<Vec<T>, TreeFault<S::Fault, NoMemory>>
    requires { S.is_ready store.old }
    ensures { OnOk result (S.is_ready store.new) }
{
    let tree = tree.tree();
    let mut walk: Walk<T> = Walk::start(alloc, store, tree, 0, tree.count, false, steps)?;
    let mut items = Vec::new(alloc);
    for _ in 0..tree.count {
        match walk.next(alloc, store, steps)? {
            Some(item) => push_item(&mut items, item)?,
            None => return Err(TreeFault::NoMemory),
        }
    }
    Ok(items)
}

fn push_item<T: Drop>(items: &mut Vec<T>, item: T) -> Result<(), NoMemory> {
    items.push(item)?;
    Ok(())
}

/// The key, the document, the place and the value of each row.
pub fn rows_text(alloc: Global, rows: &[RowItem]) -> Result<String, Fail> {
    let mut text = String::new(alloc);
    for item in rows {
        let row = &item.row;
        let key = text_of(alloc, &row.key)?;
        let value = text_of(alloc, &row.value)?;
        let id = row.id.as_str();
        text.push_str(&format!(in alloc; "{key} {id} {} {value};", row.place)?)?;
    }
    Ok(text)
}

/// Each document, and of each row the number of its view, its key and its place.
pub fn entries_text(alloc: Global, entries: &[BackItem]) -> Result<String, Fail> {
    let mut text = String::new(alloc);
    for entry in entries {
        text.push_str(&format!(in alloc; "{}:", entry.id.as_str())?)?;
        for row in entry.rows.as_slice() {
            let key = text_of(alloc, &row.key)?;
            text.push_str(&format!(in alloc; " {} {key} {},", row.view, row.place)?)?;
        }
        text.push_str(";")?;
    }
    Ok(text)
}

/// The value of all rows of the first view, or nothing where it has no row.
pub fn sum_text<S: NodeSource, L: Ledger>(
    alloc: Global,
    store: &mut S,
    design: &Design,
    tree: &SizedTree,
    steps: &mut Steps<L>,
) -> Result<String, Fail>
    requires { S.is_ready store.old }
{
    let tree = tree.tree();
    let mut servers = ScriptServers::new(alloc, Vec::new(alloc))?;
    let mut pool = Pool::new(alloc, 1, &[])?;
    let mut summers = Summers {
        slot: ReduceSlot::over(&mut pool, &mut servers),
        design,
        view: 0,
    };
    let mut text = Vec::new(alloc);
    match reduce_range(alloc, store, tree, &mut summers, 0, tree.count, steps) {
        Ok(Some(sum)) => print_view_sum(alloc, &sum, &mut text)?,
        Ok(None) => {}
        Err(_) => return Err(Fail::from("no value")),
    }
    Ok(String::from_utf8(text)?)
}
