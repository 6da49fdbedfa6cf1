//! Nodes cut and joined, and lists taken apart.

ghost use Rattle.reduce_tree.specs.Rows.{IsSplit, lone};
ghost use Rattle.std.specs.Prelude.{true, ◌≡◌, ◌+◌, ◌<◌, ◌≤◌, ◌∷◌, ◌++◌, [], IfOk, vec_len};
ghost use Rattle.tree_laws.specs.Nodes.{entries, is_leaf};

use json_terms::NoMemory;
use std::alloc::Global;
use tree_laws::{Children, Items, Node};

/// The first `at` entries, and the rest.
pub(crate) fn split_node<T: Drop>(node: Node<T>, at: usize) -> Result<(Node<T>, Node<T>), NoMemory>
    requires { at ≤ entries node }
    ensures split { IfOk result (λ halves. IsSplit node halves.0 halves.1) }
    ensures left { IfOk result (λ halves. entries halves.0 ≡ at) }
    ensures right { IfOk result (λ halves. entries halves.1 + at ≡ entries node) }
{
    match node {
        Node::Leaf(items) => {
            let mut front = items.into_vec();
            let back = front.split_off(at)?;
            Ok((
                Node::Leaf(Items::from_vec(front)),
                Node::Leaf(Items::from_vec(back)),
            ))
        }
        Node::Inner(children) => {
            let mut front = children.into_vec();
            let back = front.split_off(at)?;
            Ok((
                Node::Inner(Children::from_vec(front)),
                Node::Inner(Children::from_vec(back)),
            ))
        }
    }
}

/// One node with the entries of both, which are of one kind.
pub(crate) fn join_nodes<T: Drop>(left: Node<T>, right: Node<T>) -> Result<Node<T>, NoMemory>
    requires { is_leaf left ≡ is_leaf right }
    ensures split { IfOk result (λ node. IsSplit node left right) }
    ensures kind { IfOk result (λ node. is_leaf node ≡ is_leaf left) }
    ensures entries { IfOk result (λ node. entries node ≡ entries left + entries right) }
{
    match (left, right) {
        (Node::Leaf(left), Node::Leaf(right)) => {
            let mut all = left.into_vec();
            let mut back = right.into_vec();
            all.append(&mut back)?;
            Ok(Node::Leaf(Items::from_vec(all)))
        }
        (Node::Inner(left), Node::Inner(right)) => {
            let mut all = left.into_vec();
            let mut back = right.into_vec();
            all.append(&mut back)?;
            Ok(Node::Inner(Children::from_vec(all)))
        }
        // Nodes of two kinds don't come.
        (left, _) => Ok(left),
    }
}

/// The place and the number of items of the child of an inner node that has no other.
pub(crate) fn lone_child<T>(node: &Node<T>) -> Option<(u64, u64)>
    ensures { result ≡ lone node.now }
{
    match node {
        Node::Leaf(_) => None,
        Node::Inner(children) => match children.as_slice() {
            [child] => Some((child.at, child.count)),
            _ => None,
        },
    }
}

pub(crate) fn take_first<T>(list: &mut Vec<T>) -> T
    requires { 0 < vec_len list.old }
    ensures { list.old.items ≡ result ∷ list.new.items }
{
    list.remove(0)
}

pub(crate) fn take_last<T>(list: &mut Vec<T>) -> T
    requires { 0 < vec_len list.old }
    ensures { list.old.items ≡ list.new.items ++ result ∷ [] }
{
    let last = list.len() - 1;
    list.remove(last)
}

pub(crate) fn add_last<T: Drop>(list: &mut Vec<T>, item: T) -> Result<(), NoMemory>
    ensures { IfOk result (λ _. list.new.items ≡ list.old.items ++ item ∷ []) }
{
    list.push(item)?;
    Ok(())
}

pub(crate) fn add_all<T: Drop>(list: &mut Vec<T>, mut more: Vec<T>) -> Result<(), NoMemory>
    ensures { IfOk result (λ _. list.new.items ≡ list.old.items ++ more.items) }
{
    list.append(&mut more)?;
    Ok(())
}

pub(crate) fn list_of_one<T: Drop>(alloc: Global, first: T) -> Result<Vec<T>, NoMemory>
    ensures { IfOk result (λ list. list.items ≡ first ∷ []) }
{
    let mut list = Vec::new(alloc);
    list.push(first)?;
    Ok(list)
}

pub(crate) fn list_of_two<T: Drop>(alloc: Global, first: T, second: T) -> Result<Vec<T>, NoMemory>
    ensures { IfOk result (λ list. list.items ≡ first ∷ second ∷ []) }
{
    let mut list = Vec::new(alloc);
    list.push(first)?;
    list.push(second)?;
    Ok(list)
}

/// Whether both hold.
pub(crate) fn both(first: bool, second: bool) -> bool
    ensures first { result ≡ true → first ≡ true }
    ensures second { result ≡ true → second ≡ true }
    ensures both { first ≡ true → second ≡ true → result ≡ true }
{
    if first {
        return second;
    }
    false
}
