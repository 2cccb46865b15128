//! Values that are kept once for several owners.

ghost use Rattle.std.specs.Prelude.{◌≡◌, length, IfOk};

use kit_base::{Listed, Name, NoMemory};
use std::alloc::Global;
use std::marker::Model;
use std::rc::Rc;

/// A value that is kept once for all its owners, which contracts see as the value.
#[derive(Debug, Drop)]
pub struct Shared<T> {
    held: Rc<T>,
}

impl<T> Model for Shared<T> {
    ghost Value = { T };

    ghost coded = { T.code };

    ghost view = { λ s. s.held.value };
}

impl<T> Shared<T> {
    /// The value.
    pub fn get(&self) -> &T
        ensures { result.now ≡ self.now }
    {
        self.held.as_ref()
    }
}

impl<T: Drop> Shared<T> {
    /// The first owner of a value.
    pub fn new(alloc: Global, value: T) -> Result<Shared<T>, NoMemory>
        ensures { IfOk result (λ s. s ≡ value) }
    {
        Ok(Shared {
            held: Rc::new(alloc, value)?,
        })
    }

    /// One more owner of the value, which takes no memory: owners are counted, and there is no memory for more than
    /// the count holds.
    pub fn share(&self) -> Result<Shared<T>, NoMemory>
        ensures { IfOk result (λ s. s ≡ self.now) }
    {
        Ok(Shared {
            held: self.held.clone()?,
        })
    }
}

impl<T> Shared<Listed<T>> {
    /// How many items there are.
    pub fn len(&self) -> usize
        ensures { result ≡ length self.now }
    {
        self.get().len()
    }

    /// The items.
    pub fn as_slice(&self) -> &[T]
        ensures { result.now ≡ self.now }
    {
        self.get().as_slice()
    }
}

/// Names, each of which may have more owners.
pub type SharedNames = Listed<Shared<Name>>;
