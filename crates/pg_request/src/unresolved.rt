//! What has to be looked up for arguments.
ghost use Rattle.std.specs.Prelude.{◌≡◌, [], IfOk, IfErr};
ghost use Rattle.pg_request.specs.Queries.{nothing_open};

use crate::naming::{Declared, copy_declared};
use pg_arguments::PgArguments;
use pg_wire::{Error, Sequence};
use std::alloc::Global;
use std::marker::Model;

/// The types as they were declared, where one of them is known by its name alone; those whose OIDs are open within values; and the arguments as they were given, where one
/// is.
#[derive(Debug, Drop)]
pub(crate) struct Open {
    pub(crate) names: Sequence<Declared>,
    pub(crate) holes: Sequence<Declared>,
    pub(crate) given: Option<PgArguments>,
}

/// What is open, in a block of its own, which is made only where something is: most arguments have nothing to be looked up, and are moved often.
#[derive(Debug)]
pub(crate) struct Unresolved {
    parts: Option<Box<Open>>,
}

// By hand, so that whoever lets one go makes one call, and doesn't go through its parts.
impl Drop for Unresolved {
    fn drop(self) {
        let Unresolved { parts: _ } = self;
    }
}

impl Model for Unresolved {
    ghost use Rattle.pg_request.specs.Queries.{OpenOf, opened};

    ghost Value = { OpenOf };

    ghost view = { λ u. opened u.parts };
}

// The same arguments, where they were given.
fn copied_given(given: &Option<PgArguments>, alloc: Global) -> Result<Option<PgArguments>, Error>
    ensures copy { IfOk result (λ a. a ≡ given.now) }
    ensures memory { IfErr result (λ e. e ≡ Error.OutOfMemory) }
{
    match given {
        Some(arguments) => Ok(Some(arguments.to_copy(alloc)?)),
        None => Ok(None),
    }
}

impl Unresolved {
    /// Nothing is open.
    pub(crate) fn none() -> Self
        ensures { result ≡ nothing_open }
    {
        Unresolved { parts: None }
    }

    /// This is open. Only want of memory refuses it.
    pub(crate) fn of(alloc: Global, parts: Open) -> Result<Self, Error>
        ensures ok { IfOk result (λ u. u ≡ parts) }
        ensures memory { IfErr result (λ e. e ≡ Error.OutOfMemory) }
    {
        match (parts.names.as_slice(), parts.holes.as_slice(), &parts.given) {
            ([], [], None) => Ok(Unresolved::none()),
            _ => Ok(Unresolved {
                parts: Some(Box::new(alloc, parts)?),
            }),
        }
    }

    /// The types as they were declared, where one of them is known by its name alone.
    pub(crate) fn names(&self) -> &[Declared]
        ensures { result.now ≡ self.now.names }
    {
        match &self.parts {
            Some(open) => open.names.as_slice(),
            None => &[],
        }
    }

    /// The types whose OIDs are open within values, in the order of their places.
    pub(crate) fn holes(&self) -> &[Declared]
        ensures { result.now ≡ self.now.holes }
    {
        match &self.parts {
            Some(open) => open.holes.as_slice(),
            None => &[],
        }
    }

    /// What is open, apart.
    pub(crate) fn into_open(self, alloc: Global) -> Open
        ensures { result ≡ self }
    {
        let Unresolved { parts } = self;
        match parts {
            Some(open) => Box::into_inner(open),
            None => Open {
                names: Sequence::new(alloc),
                holes: Sequence::new(alloc),
                given: None,
            },
        }
    }

    /// The same, once the OID of each type is known.
    pub(crate) fn without_names(self, alloc: Global) -> Self
        ensures { result ≡ record self { names = [] } }
    {
        let Unresolved { parts } = self;
        match parts {
            Some(mut open) => {
                open.names = Sequence::new(alloc);
                Unresolved { parts: Some(open) }
            }
            None => Unresolved::none(),
        }
    }

    /// The same again. Only want of memory refuses it.
    pub(crate) fn to_copy(&self, alloc: Global) -> Result<Self, Error>
        ensures copy { IfOk result (λ u. u ≡ self.now) }
        ensures memory { IfErr result (λ e. e ≡ Error.OutOfMemory) }
    {
        let Some(open) = &self.parts else {
            return Ok(Unresolved::none());
        };
        let names = copy_declared(alloc, open.names.as_slice())?;
        let holes = copy_declared(alloc, open.holes.as_slice())?;
        let given = copied_given(&open.given, alloc)?;
        let copy = Open {
            names,
            holes,
            given,
        };
        Ok(Unresolved {
            parts: Some(Box::new(alloc, copy)?),
        })
    }
}
