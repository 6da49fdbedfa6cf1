//! Nodes of trees.

ghost use Rattle.std.specs.Prelude.{◌≡◌, ◌==◌};
ghost use Rattle.tree_laws.specs.Nodes.{entries, is_leaf as is_leaf_node};

use std::marker::Model;

/// Items in order, seen as a list.
#[derive(Debug, Drop)]
pub struct Items<T> {
    list: Vec<T>,
}

impl<T> Model for Items<T> {
    ghost use Rattle.std.specs.Prelude.{List};

    ghost Value = { List T };

    ghost view = { λ items. items.list.items };
}

impl<T> Items<T> {
    /// The items of a list, which takes no memory.
    pub fn from_vec(list: Vec<T>) -> Items<T>
        ensures { result ≡ list.items }
    {
        Items { list }
    }

    /// The items as a list of their own, which takes no memory.
    pub fn into_vec(self) -> Vec<T>
        ensures { result.items ≡ self }
    {
        let Items { list } = self;
        list
    }

    /// The items.
    pub fn as_slice(&self) -> &[T]
        ensures { result.now ≡ self.now }
    {
        self.list.as_slice()
    }
}

/// The bytes of a summary, seen as a list.
#[derive(Debug, Drop)]
pub struct SumBytes {
    list: Vec<u8>,
}

impl Model for SumBytes {
    ghost use Rattle.std.specs.Prelude.{List, ℕ};

    ghost Value = { List ℕ };

    ghost view = { λ bytes. bytes.list.items };
}

impl SumBytes {
    /// These bytes as those of a summary, which takes no memory.
    pub fn from_vec(list: Vec<u8>) -> SumBytes
        ensures { result ≡ list.items }
    {
        SumBytes { list }
    }

    /// The bytes as a list of their own, which takes no memory.
    pub fn into_vec(self) -> Vec<u8>
        ensures { result.items ≡ self }
    {
        let SumBytes { list } = self;
        list
    }

    /// The bytes.
    pub fn as_slice(&self) -> &[u8]
        ensures { result.now ≡ self.now }
    {
        self.list.as_slice()
    }
}

/// What an inner node keeps of a child.
#[derive(Debug, Drop)]
pub struct Child<T> {
    /// The place of the child in its store.
    pub at: u64,
    /// How many items stand in and below the child.
    pub count: u64,
    /// The last of these items.
    pub last: T,
    /// The bytes of the value of these items.
    pub sum: SumBytes,
}

/// The children of an inner node in order, seen as a list.
#[derive(Debug, Drop)]
pub struct Children<T> {
    list: Vec<Child<T>>,
}

impl<T> Model for Children<T> {
    ghost use Rattle.std.specs.Prelude.{List};
    ghost use Rattle.tree_laws.specs.declared.node.Child.{Child};

    ghost Value = { List (Child T) };

    ghost view = { λ children. children.list.items };
}

impl<T> Children<T> {
    /// The children of a list, which takes no memory.
    pub fn from_vec(list: Vec<Child<T>>) -> Children<T>
        ensures { result ≡ list.items }
    {
        Children { list }
    }

    /// The children as a list of their own, which takes no memory.
    pub fn into_vec(self) -> Vec<Child<T>>
        ensures { result.items ≡ self }
    {
        let Children { list } = self;
        list
    }

    /// The children.
    pub fn as_slice(&self) -> &[Child<T>]
        ensures { result.now ≡ self.now }
    {
        self.list.as_slice()
    }
}

/// A node of a tree: a leaf keeps items, and an inner node what it knows of its children.
#[derive(Debug, Drop)]
pub enum Node<T> {
    /// Its items, in order.
    Leaf(Items<T>),
    /// What it keeps of its children, in order.
    Inner(Children<T>),
}

impl<T> Node<T> {
    /// How many entries there are: the items of a leaf, or the children of an inner node.
    pub fn len(&self) -> usize
        ensures { result ≡ entries self.now }
    {
        match self {
            Node::Leaf(items) => items.as_slice().len(),
            Node::Inner(children) => children.as_slice().len(),
        }
    }

    /// Whether there is no entry.
    pub fn is_empty(&self) -> bool
        ensures { result ≡ (entries self.now == 0) }
    {
        self.len() == 0
    }

    /// Whether the node is a leaf.
    pub fn is_leaf(&self) -> bool
        ensures { result ≡ is_leaf_node self.now }
    {
        match self {
            Node::Leaf(_) => true,
            Node::Inner(_) => false,
        }
    }
}
