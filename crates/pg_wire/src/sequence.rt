ghost use Rattle.std.specs.Prelude.{◌≡◌, ◌↔◌, ◌∷◌, ◌++◌, [], length, IsTrue, OnOk, OnErr};

use std::alloc::{AllocError, Global};
use std::marker::Model;

/// Values in order, in a field of a public type: contracts see the list of them.
#[derive(Debug)]
pub struct Sequence<T> {
    items: Vec<T>,
}

// By hand, so that whoever lets one go makes one call, and doesn't go through its parts.
impl<T: Drop> Drop for Sequence<T> {
    fn drop(self) {
        let Sequence { items: _ } = self;
    }
}

impl<T> Model for Sequence<T> {
    ghost use Rattle.std.specs.Prelude.{List};

    ghost Value = { List T };

    ghost view = { λ s. s.items.items };
}

impl<T> Sequence<T> {
    /// No values, which takes no memory.
    pub fn new(alloc: Global) -> Self
        ensures { result ≡ [] }
    {
        Sequence {
            items: Vec::new(alloc),
        }
    }

    /// The values of a `Vec`, without taking memory.
    pub fn from_vec(items: Vec<T>) -> Self
        ensures { result ≡ items.items }
    {
        Sequence { items }
    }

    /// Gives the `Vec` back, without taking memory.
    pub fn into_vec(self) -> Vec<T>
        ensures { result.items ≡ self }
    {
        let Sequence { items } = self;
        items
    }

    pub fn len(&self) -> usize
        ensures { result ≡ length self.now }
    {
        self.items.len()
    }

    pub fn is_empty(&self) -> bool
        ensures { IsTrue result ↔ (length self.now ≡ 0) }
    {
        self.items.is_empty()
    }

    pub fn as_slice(&self) -> &[T]
        ensures { result.now ≡ self.now }
    {
        self.items.as_slice()
    }
}

impl<T: Drop> Sequence<T> {
    /// Adds a value at the end.
    pub fn push(&mut self, value: T) -> Result<(), AllocError>
        ensures ok { OnOk result (self.new ≡ self.old ++ value ∷ []) }
        ensures err { OnErr result (self.new ≡ self.old) }
    {
        self.items.reserve(1)?;
        self.items.push_reserved(value);
        Ok(())
    }
}
