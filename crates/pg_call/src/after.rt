//! What comes behind an exchange: behind the close of a statement, and behind a lookup.
ghost use Rattle.std.specs.Prelude.{◌≡◌, IfOk, IfErr};
ghost use Rattle.pg_call.specs.Requests.{after_kind, request_behind};

use crate::{Bound, Extended, Kind, Prepared, Request};
use pg_wire::{Error, StatementId, Text};
use std::alloc::Global;

/// What comes behind the close of a statement.
#[derive(Debug)]
pub enum After {
    Run(Bound),
    /// Types within its arguments are looked up first.
    Fill(Filling),
    Prepare(Prepared),
}

// By hand, so that whoever lets one go makes one call, and doesn't go through its parts.
impl Drop for After {
    fn drop(self) {
        match self {
            After::Run(_) | After::Fill(_) | After::Prepare(_) => {}
        }
    }
}

impl After {
    /// The kind of the call.
    pub fn kind(&self) -> Kind
        ensures { result ≡ after_kind self.now }
    {
        match self {
            After::Run(bound) => Kind::Run(bound.how),
            After::Fill(filling) => Kind::Run(filling.bound.how),
            After::Prepare(_) => Kind::Prepare,
        }
    }

    /// What asks it.
    pub fn request(self) -> Request
        ensures { result ≡ request_behind self }
    {
        match self {
            After::Run(bound) => Request::Run(bound),
            After::Fill(filling) => Request::Fill(filling),
            After::Prepare(prepared) => Request::Prepare(prepared.told()),
        }
    }

    /// The same again. Only want of memory refuses it.
    pub fn to_copy(&self, alloc: Global) -> Result<Self, Error>
        ensures copy { IfOk result (λ x. x ≡ self.now) }
        ensures memory { IfErr result (λ e. e ≡ Error.OutOfMemory) }
    {
        Ok(match self {
            After::Run(bound) => After::Run(bound.to_copy(alloc)?),
            After::Fill(filling) => After::Fill(filling.to_copy(alloc)?),
            After::Prepare(prepared) => After::Prepare(prepared.to_copy(alloc)?),
        })
    }
}

/// The close of the statement that was used longest ago, and what comes behind it.
#[derive(Debug)]
pub struct Eviction {
    pub statement: StatementId,
    pub after: After,
}

// By hand, so that whoever lets one go makes one call, and doesn't go through its parts.
impl Drop for Eviction {
    fn drop(self) {
        let Eviction {
            statement: _,
            after: _,
        } = self;
    }
}

impl Eviction {
    /// What comes behind the close.
    pub(crate) fn into_after(self) -> After
        ensures { result ≡ self.after }
    {
        let Eviction {
            statement: _,
            after,
        } = self;
        after
    }

    /// The same again. Only want of memory refuses it.
    pub fn to_copy(&self, alloc: Global) -> Result<Self, Error>
        ensures copy { IfOk result (λ x. x ≡ self.now) }
        ensures memory { IfErr result (λ e. e ≡ Error.OutOfMemory) }
    {
        let after = self.after.to_copy(alloc)?;
        Ok(Eviction {
            statement: self.statement,
            after,
        })
    }
}

/// A lookup of types or of the names of columns, and the statement for which they are looked up.
#[derive(Debug)]
pub struct Lookup {
    pub text: Text,
    pub extended: Extended,
}

// By hand, so that whoever lets one go makes one call, and doesn't go through its parts.
impl Drop for Lookup {
    fn drop(self) {
        let Lookup {
            text: _,
            extended: _,
        } = self;
    }
}

impl Lookup {
    /// The statement for which something is looked up.
    pub(crate) fn into_extended(self) -> Extended
        ensures { result ≡ self.extended }
    {
        let Lookup { text: _, extended } = self;
        extended
    }

    /// The same again. Only want of memory refuses it.
    pub fn to_copy(&self, alloc: Global) -> Result<Self, Error>
        ensures copy { IfOk result (λ x. x ≡ self.now) }
        ensures memory { IfErr result (λ e. e ≡ Error.OutOfMemory) }
    {
        let text = self.text.to_copy(alloc)?;
        let extended = self.extended.to_copy(alloc)?;
        Ok(Lookup { text, extended })
    }
}

/// A lookup of types whose OIDs are open within the arguments of a statement, which is run behind it.
#[derive(Debug)]
pub struct Filling {
    pub text: Text,
    pub bound: Bound,
}

// By hand, so that whoever lets one go makes one call, and doesn't go through its parts.
impl Drop for Filling {
    fn drop(self) {
        let Filling { text: _, bound: _ } = self;
    }
}

impl Filling {
    /// What is run behind the lookup.
    pub(crate) fn into_bound(self) -> Bound
        ensures { result ≡ self.bound }
    {
        let Filling { text: _, bound } = self;
        bound
    }

    /// The same again. Only want of memory refuses it.
    pub fn to_copy(&self, alloc: Global) -> Result<Self, Error>
        ensures copy { IfOk result (λ x. x ≡ self.now) }
        ensures memory { IfErr result (λ e. e ≡ Error.OutOfMemory) }
    {
        let text = self.text.to_copy(alloc)?;
        let bound = self.bound.to_copy(alloc)?;
        Ok(Filling { text, bound })
    }
}

/// What an exchange hands on, or answers, at its end.
#[derive(Drop)]
pub enum Rest {
    Nothing,
    /// The statement that it describes.
    Describe(Extended),
    /// What comes behind a close.
    After(After),
    /// The statement for which something was looked up.
    Look(Extended),
    /// The statement for whose arguments something was looked up.
    Fill(Bound),
    /// What it tells.
    Tell(Prepared),
}
