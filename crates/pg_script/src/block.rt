ghost use Rattle.std.specs.Prelude.{◌≡◌, IfOk};

use std::alloc::{AllocError, Global};
use std::marker::Model;

/// A value in a block of its own: where few of many have one, the others take no room for it.
#[derive(Debug, Drop)]
pub struct InBlock<T> {
    block: Box<T>,
}

impl<T> Model for InBlock<T> {
    ghost Value = { T };

    ghost view = { λ b. b.block.value };
}

impl<T: Drop> InBlock<T> {
    pub(crate) fn new(alloc: Global, value: T) -> Result<Self, AllocError>
        ensures { IfOk result (λ b. b ≡ value) }
    {
        Ok(InBlock {
            block: Box::new(alloc, value)?,
        })
    }

    pub fn get(&self) -> &T
        ensures { result.now ≡ self.now }
    {
        &self.block
    }
}
