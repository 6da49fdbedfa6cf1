//! Taking the parts of a node from the front of bytes.

ghost use Rattle.std.specs.Prelude.{◌≡◌, ◌↔◌, [], IsTrue};
ghost use Rattle.std.specs.List.{flat_map};
ghost use Rattle.std.specs.Result.{result_map_both};
ghost use Rattle.tree_laws.specs.declared.reader.ReadFault.TheVariants.{NoMemory as OutOfMemory};
ghost use Rattle.tree_laws.specs.Nodes.{FitsChild, FitsItem, IsNumber, IsSized, child_entry, item_entry, number_bytes, sized};
ghost use Rattle.tree_laws.specs.Reading.{AreCounted, IsByte, IsTaken, one_byte};

use crate::item::Item;
use crate::node::{Child, Children, Items, SumBytes};
use json_terms::NoMemory;
use std::alloc::{AllocError, AllocFailed, Global};
use std::marker::Model;

/// Why nothing is taken.
#[derive(Clone, Copy, Debug, PartialEq, Eq)]
pub(crate) enum ReadFault {
    /// The bytes begin with no value of this kind.
    NotThere,
    /// Memory ran out.
    NoMemory,
}

impl From<NoMemory> for ReadFault {
    ghost from_gives = { λ _ e. e ≡ OutOfMemory };

    fn from(_error: NoMemory) -> ReadFault {
        ReadFault::NoMemory
    }
}

impl From<AllocError> for ReadFault {
    ghost from_gives = { λ _ e. e ≡ OutOfMemory };

    fn from(_error: AllocError) -> ReadFault {
        ReadFault::NoMemory
    }
}

impl<T: Drop> From<AllocFailed<T>> for ReadFault {
    ghost from_gives = { λ _ e. e ≡ OutOfMemory };

    fn from(_failed: AllocFailed<T>) -> ReadFault {
        ReadFault::NoMemory
    }
}

/// The bytes that are left to read.
#[derive(Drop)]
pub(crate) struct Reader<'a> {
    left: &'a [u8],
}

impl<'a> Model for Reader<'a> {
    ghost use Rattle.std.specs.Prelude.{List, ℕ};

    ghost Value = { List ℕ };

    ghost view = { λ reader. reader.left.now };
}

impl<'a> Reader<'a> {
    pub(crate) fn new(bytes: &'a [u8]) -> Reader<'a>
        ensures { result ≡ bytes.now }
    {
        Reader { left: bytes }
    }

    /// Whether all bytes were taken.
    pub(crate) fn is_done(&self) -> bool
        ensures { IsTrue result ↔ (self.now ≡ []) }
    {
        self.left.is_empty()
    }

    pub(crate) fn byte(&mut self) -> Result<u8, ReadFault>
        ensures { IsTaken IsByte one_byte self.old self.new result }
    {
        match self.left.split_first() {
            Some((byte, rest)) => {
                self.left = rest;
                Ok(*byte)
            }
            None => Err(ReadFault::NotThere),
        }
    }

    fn number(&mut self) -> Result<u64, ReadFault>
        ensures { IsTaken IsNumber number_bytes self.old self.new result }
    {
        match self.left.split_first_chunk::<8>() {
            Some((head, rest)) => {
                self.left = rest;
                Ok(number_of(*head))
            }
            None => Err(ReadFault::NotThere),
        }
    }

    /// Bytes behind their length.
    fn sized(&mut self) -> Result<&'a [u8], ReadFault>
        ensures { IsTaken IsSized sized self.old self.new
            (result_map_both (λ bytes. bytes.now) (λ fault. fault) result) }
    {
        let count = self.number()?;
        if count > self.left.len() as u64 {
            return Err(ReadFault::NotThere);
        }
        let (bytes, rest) = self.left.split_at(count as usize);
        self.left = rest;
        Ok(bytes)
    }

    fn item<T: Item>(&mut self, alloc: Global) -> Result<T, ReadFault>
        ensures { IsTaken (FitsItem T.fits T.spelled) (item_entry T.spelled) self.old self.new result }
    {
        let bytes = self.sized()?;
        match T::decode(alloc, bytes)? {
            Ok(item) => Ok(item),
            Err(_) => Err(ReadFault::NotThere),
        }
    }

    fn sum(&mut self, alloc: Global) -> Result<SumBytes, ReadFault>
        ensures { IsTaken IsSized sized self.old self.new result }
    {
        let bytes = self.sized()?;
        Ok(SumBytes::from_vec(bytes.to_vec(alloc)?))
    }

    fn child<T: Item>(&mut self, alloc: Global) -> Result<Child<T>, ReadFault>
        ensures { IsTaken (FitsChild T.fits T.spelled) (child_entry T.spelled) self.old self.new result }
    {
        let at = self.number()?;
        let count = self.number()?;
        let last = self.item(alloc)?;
        let sum = self.sum(alloc)?;
        Ok(Child {
            at,
            count,
            last,
            sum,
        })
    }

    /// So many items.
    pub(crate) fn items<T: Item>(&mut self, alloc: Global, count: u8) -> Result<Items<T>, ReadFault>
        ensures { IsTaken (AreCounted count (FitsItem T.fits T.spelled))
            (flat_map (item_entry T.spelled)) self.old self.new result }
    {
        let mut items = Vec::new(alloc);
        for _index in 0..count {
            items.push(self.item(alloc)?)?;
        }
        Ok(Items::from_vec(items))
    }

    /// What is kept of so many children.
    pub(crate) fn children<T: Item>(
        &mut self,
        alloc: Global,
        count: u8,
    ) -> Result<Children<T>, ReadFault>
        ensures { IsTaken (AreCounted count (FitsChild T.fits T.spelled))
            (flat_map (child_entry T.spelled)) self.old self.new result }
    {
        let mut children = Vec::new(alloc);
        for _index in 0..count {
            children.push(self.child(alloc)?)?;
        }
        Ok(Children::from_vec(children))
    }
}

// The number with these bytes.
fn number_of(bytes: [u8; 8]) -> u64
    ensures { number_bytes result ≡ bytes }
{
    u64::from_le_bytes(bytes)
}
