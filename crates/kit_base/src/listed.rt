//! One list type, and the lists of octets and of words made of it.

ghost use Rattle.std.specs.Prelude.{◌≡◌, [], ◌∷◌, ◌++◌, ◌<◌, length, slice_get, slice_set, Some, IfOk, OnOk, OnErr};
ghost use Rattle.std.specs.Option.{option_copied};

use crate::NoMemory;
use std::alloc::Global;
use std::marker::Model;

/// The items from which on a vector doubles its room: it takes room for so many at its first item.
const FEW: usize = 4;

/// Makes room for one item more in a vector that has room for a few, and has none left.
#[inline(always)]
pub fn make_room<T>(items: &mut Vec<T>) -> Result<(), NoMemory>
    ensures { items.new.items ≡ items.old.items }
{
    if items.capacity() < FEW {
        return add_room(items);
    }
    Ok(())
}

/// Makes room for one item more in a vector that has none left.
#[cold]
fn add_room<T>(items: &mut Vec<T>) -> Result<(), NoMemory>
    ensures { items.new.items ≡ items.old.items }
{
    if items.len() == items.capacity() {
        items.reserve_exact(1)?;
    }
    Ok(())
}

/// A list over a vector, which contracts see as the list of its items.
#[derive(Debug, Drop)]
pub struct Listed<T> {
    items: Vec<T>,
}

impl<T> Model for Listed<T> {
    ghost use Rattle.std.specs.Prelude.{List};
    ghost use Rattle.std.specs.Coded.{coded_list};

    ghost Value = { List T };

    ghost coded = { coded_list T.code };

    ghost view = { λ a. a.items.items };
}

impl<T> Listed<T> {
    /// A list without items, which takes no memory.
    pub fn new(alloc: Global) -> Listed<T>
        ensures { result ≡ [] }
    {
        Listed {
            items: Vec::new(alloc),
        }
    }

    /// A list without items that has room for `items` of them.
    pub fn with_room(alloc: Global, items: usize) -> Result<Listed<T>, NoMemory>
        ensures { IfOk result (λ list. list ≡ []) }
    {
        Ok(Listed {
            items: Vec::with_capacity(alloc, items)?,
        })
    }

    /// How many items there are.
    pub fn len(&self) -> usize
        ensures { result ≡ length self.now }
    {
        self.items.len()
    }

    /// The item at a place, counted from 0.
    pub fn get(&self, i: usize) -> Option<&T>
        ensures { option_copied result ≡ slice_get self.now i }
    {
        self.items.get(i)
    }

    /// Exchanges the item at a place, counted from 0, with `item`.
    pub fn exchange(&mut self, at: usize, item: &mut T)
        requires { at < length self.old }
        ensures items { self.new ≡ slice_set self.old at item.old }
        ensures item { slice_get self.old at ≡ Some item.new }
    {
        std::mem::swap(&mut self.items[at], item);
    }

    /// The items.
    pub fn as_slice(&self) -> &[T]
        ensures { result.now ≡ self.now }
    {
        self.items.as_slice()
    }

    /// The vector of the items, for those who take each of them.
    pub fn into_items(self) -> Vec<T>
        ensures { result.items ≡ self }
    {
        self.items
    }
}

impl<T: Drop> Listed<T> {
    /// Appends an item. Where memory runs out the item is dropped, and the list is as it was.
    pub fn push(&mut self, item: T) -> Result<(), NoMemory>
        ensures ok { OnOk result (self.new ≡ self.old ++ item ∷ []) }
        ensures err { OnErr result (self.new ≡ self.old) }
    {
        make_room(&mut self.items)?;
        self.items.push(item)?;
        Ok(())
    }

    /// Drops all items, and keeps the memory.
    pub fn clear(&mut self)
        ensures { self.new ≡ [] }
    {
        self.items.clear();
    }
}

impl<T: Copy> Listed<T> {
    /// A list of copies of these items.
    pub fn from_slice(alloc: Global, items: &[T]) -> Result<Listed<T>, NoMemory>
        ensures { IfOk result (λ list. list ≡ items.now) }
    {
        let mut list = Listed::new(alloc);
        list.append(items)?;
        Ok(list)
    }

    /// Appends copies of all items of a piece, or of none where memory runs out.
    pub fn append(&mut self, piece: &[T]) -> Result<(), NoMemory>
        ensures ok { OnOk result (self.new ≡ self.old ++ piece.now) }
        ensures err { OnErr result (self.new ≡ self.old) }
    {
        self.items.extend_from_slice(piece)?;
        Ok(())
    }
}

/// Octets, in order.
pub type Octets = Listed<u8>;

/// The octets of a name.
pub type Name = Octets;

/// Words, each a list of octets.
pub type Words = Listed<Octets>;
