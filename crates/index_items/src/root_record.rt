//! The root record of an index in bytes.

ghost use Rattle.std.specs.Prelude.{◌≡◌, ◌↔◌, ◌++◌, ◌<◌, ◌≤◌, ◌^◌, ◌-◌, ℕ, All, Ok, None, IfOk, IfSome, IsTrue, OnErr, OnOk, length, option_map};
ghost use Rattle.std.specs.List.{flat_map};
ghost use Rattle.tree_laws.specs.Reading.{AreCounted};
ghost use Rattle.tree_laws.specs.Trees.{IsTreeSize};
ghost use Rattle.tree_laws.specs.Nodes.{sized};
ghost use Rattle.index_items.specs.RootRecord.{IsBodyOf, IsFitTree, IsNoBody, IsNoRoot, IsOneRoot, IsRootOf, IsTreeAt, IsTypedTree, body_bytes, root_bytes, tree_bytes};
ghost use Rattle.index_items.specs.Taken.{IsBehindLength, IsTaken};

use json_terms::NoMemory;
use std::alloc::Global;
use term_codec::{put_count, put_short, put_whole, read_count, read_short, read_whole};
use tree_laws::Tree;

/// How many items a tree has at most.
const ITEM_LIMIT: u64 = 1 << 40;

/// What the root record of an index says.
#[derive(Drop)]
pub struct IndexRoot {
    /// The sequence that the index stands at.
    pub seq: u64,
    /// The tree of each view, in order.
    pub views: Vec<Tree>,
    /// The tree of the back-index.
    pub back: Tree,
}

/// Appends the bytes of the root record of at most 65,535 views, which are 38 and 20 for each view. The one error is want of
/// memory, and `out` is then as it was.
///
/// Where each tree fits the offset at which the bytes come to stand, `read_root` reads there what was written.
pub fn write_root(
    alloc: Global,
    seq: u64,
    views: &[Tree],
    back: Tree,
    out: &mut Vec<u8>,
) -> Result<(), NoMemory>
    requires { length views.now < 2 ^ 16 }
    ensures bytes { OnOk result (out.new.items ≡ out.old.items ++ root_bytes seq views.now back) }
    ensures is_root { OnOk result ((offset : ℕ) → All (IsFitTree offset) views.now → IsFitTree offset back
        → IsRootOf (length views.now) offset (root_bytes seq views.now back) seq views.now back) }
    ensures err { OnErr result (out.new.items ≡ out.old.items) }
{
    let mut body = Vec::new(alloc);
    put_body(seq, views, &back, &mut body)?;
    let mut bytes = Vec::new(alloc);
    put_sized(body.as_slice(), &mut bytes)?;
    out.extend_from_slice(bytes.as_slice())?;
    Ok(())
}

// Where memory runs out, some bytes may be written, here and below.
fn put_sized(body: &[u8], out: &mut Vec<u8>) -> Result<(), NoMemory>
    ensures { OnOk result (out.new.items ≡ out.old.items ++ sized body.now) }
{
    put_whole(body.len() as u64, out)?;
    out.extend_from_slice(body)?;
    Ok(())
}

fn put_body(seq: u64, views: &[Tree], back: &Tree, out: &mut Vec<u8>) -> Result<(), NoMemory>
    requires { length views.now < 2 ^ 16 }
    ensures bytes { OnOk result (out.new.items ≡ out.old.items ++ body_bytes seq views.now back.now) }
    ensures typed { OnOk result (All IsTypedTree views.now) }
    ensures back_typed { OnOk result (IsTypedTree back.now) }
{
    put_whole(seq, out)?;
    put_short(views.len() as u16, out)?;
    put_trees(views, out)?;
    put_tree(back, out)
}

fn put_trees(trees: &[Tree], out: &mut Vec<u8>) -> Result<(), NoMemory>
    ensures bytes { OnOk result (out.new.items ≡ out.old.items ++ flat_map tree_bytes trees.now) }
    ensures typed { OnOk result (All IsTypedTree trees.now) }
{
    for tree in trees {
        put_tree(tree, out)?;
    }
    Ok(())
}

fn put_tree(tree: &Tree, out: &mut Vec<u8>) -> Result<(), NoMemory>
    ensures bytes { OnOk result (out.new.items ≡ out.old.items ++ tree_bytes tree.now) }
    ensures typed { OnOk result (IsTypedTree tree.now) }
{
    put_whole(tree.root, out)?;
    put_count(tree.height as usize, out)?;
    put_whole(tree.count, out)
}

/// The root record that the bytes are, which stand at this offset of a file, of an index of so many views; or none exactly where
/// they are none, whole: where the length in front isn't that of all that follows, the number of views is another, or a tree
/// doesn't fit there. The height of a tree that fits is 0 exactly where it has no items, and else it has 8^(height - 1) items at
/// least. It has 2^40 items at most, and 8 times their number is at most the offset.
///
/// The one error is want of memory. Memory is taken only for trees that the bytes hold.
pub fn read_root(
    alloc: Global,
    bytes: &[u8],
    views: u32,
    offset: u64,
) -> Result<Option<IndexRoot>, NoMemory>
    ensures some { IfOk result (λ found. IfSome found (λ root.
        IsRootOf views offset bytes.now root.seq root.views.items root.back)) }
    ensures only { IfOk result (λ found. IfSome found (λ root.
        IsOneRoot views offset bytes.now root.seq root.views.items root.back)) }
    ensures none { result ≡ Ok None → IsNoRoot views offset bytes.now }
{
    match behind_length(bytes) {
        Some(body) => read_body(alloc, body, views, offset),
        None => Ok(None),
    }
}

// All that stands behind a length, which is its own.
fn behind_length(bytes: &[u8]) -> Option<&[u8]>
    ensures { IsBehindLength bytes.now result }
{
    let Some((count, rest)) = read_whole(bytes) else {
        return None;
    };
    if rest.len() as u64 != count {
        return None;
    }
    Some(rest)
}

fn read_body(
    alloc: Global,
    bytes: &[u8],
    views: u32,
    offset: u64,
) -> Result<Option<IndexRoot>, NoMemory>
    ensures some { IfOk result (λ found. IfSome found (λ root.
        IsBodyOf views offset bytes.now root.seq root.views.items root.back)) }
    ensures none { result ≡ Ok None → IsNoBody views offset bytes.now }
{
    let Some((seq, rest)) = read_whole(bytes) else {
        return Ok(None);
    };
    let Some((count, rest)) = read_short(rest) else {
        return Ok(None);
    };
    if count as u32 != views {
        return Ok(None);
    }
    let Some((views, rest)) = read_trees(alloc, count, offset, rest)? else {
        return Ok(None);
    };
    let Some((back, rest)) = read_tree(offset, rest) else {
        return Ok(None);
    };
    if !rest.is_empty() {
        return Ok(None);
    }
    Ok(Some(IndexRoot { seq, views, back }))
}

// So many trees from the front.
fn read_trees(
    alloc: Global,
    count: u16,
    offset: u64,
    bytes: &[u8],
) -> Result<Option<(Vec<Tree>, &[u8])>, NoMemory>
    ensures { IfOk result (λ found. IsTaken (AreCounted count (IsTreeAt offset)) (flat_map tree_bytes)
        bytes.now (option_map (λ taken. (taken.0.items, taken.1)) found)) }
{
    let mut trees = Vec::new(alloc);
    let mut rest = bytes;
    for _tree in 0..count {
        match read_tree(offset, rest) {
            Some((tree, behind)) => {
                trees.push(tree)?;
                rest = behind;
            }
            None => return Ok(None),
        }
    }
    Ok(Some((trees, rest)))
}

// A tree that fits.
fn read_tree(offset: u64, bytes: &[u8]) -> Option<(Tree, &[u8])>
    ensures { IsTaken (IsTreeAt offset) tree_bytes bytes.now result }
{
    let Some((tree, rest)) = read_numbers(bytes) else {
        return None;
    };
    if !is_fit(tree, offset) {
        return None;
    }
    Some((tree, rest))
}

// A tree, whether it fits or not.
fn read_numbers(bytes: &[u8]) -> Option<(Tree, &[u8])>
    ensures { IsTaken IsTypedTree tree_bytes bytes.now result }
{
    let Some((root, rest)) = read_whole(bytes) else {
        return None;
    };
    let Some((height, rest)) = read_count(rest) else {
        return None;
    };
    let Some((count, rest)) = read_whole(rest) else {
        return None;
    };
    let height = height as u32;
    let tree = Tree {
        root,
        height,
        count,
    };
    Some((tree, rest))
}

fn is_fit(tree: Tree, offset: u64) -> bool
    ensures { IsTrue result ↔ IsFitTree offset tree }
{
    is_tree_size(tree) && 8 * tree.count <= offset
}

fn is_tree_size(tree: Tree) -> bool
    ensures { IsTrue result ↔ IsTreeSize tree }
{
    if tree.height == 0 {
        return tree.count == 0;
    }
    tree.count <= ITEM_LIMIT && is_large(tree.count, tree.height - 1)
}

fn is_large(count: u64, level: u32) -> bool
    ensures { IsTrue result ↔ (8 ^ level ≤ count) }
{
    match 8u64.checked_pow(level) {
        Some(least) => least <= count,
        None => false,
    }
}
