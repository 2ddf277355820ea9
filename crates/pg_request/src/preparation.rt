ghost use Rattle.std.specs.Prelude.{◌≡◌, [], map, IfOk, IfErr};
ghost use Rattle.pg_request.specs.Asked.{declared_as};

use crate::naming::{Declared, all_declared, copy_declared};
use pg_arguments::PgTypeInfo;
use pg_wire::{Error, Sequence, Text};
use std::alloc::Global;

/// A text of SQL to prepare, and the types of its first parameters as far as the caller says them; the server finds the others.
/// (PostgreSQL manual, "Message Flow", "Extended Query".)
#[derive(Debug)]
pub struct Preparation {
    pub sql: Text,
    pub types: Sequence<Declared>,
}

// By hand, so that whoever lets one go makes one call, and doesn't go through its parts.
impl Drop for Preparation {
    fn drop(self) {
        let Preparation { sql: _, types: _ } = self;
    }
}

impl Preparation {
    /// A text of whose parameters no type is said.
    pub fn untyped(alloc: Global, sql: Text) -> Self
        ensures { result ≡ record { sql = sql; types = [] } }
    {
        Preparation {
            sql,
            types: Sequence::new(alloc),
        }
    }

    /// A text of whose first parameters these are the types. Only want of memory refuses it.
    pub fn typed(alloc: Global, sql: Text, types: &[PgTypeInfo]) -> Result<Self, Error>
        ensures typed { IfOk result (λ p. p ≡ record { sql = sql; types = map declared_as types.now }) }
        ensures memory { IfErr result (λ e. e ≡ Error.OutOfMemory) }
    {
        let types = all_declared(alloc, types)?;
        Ok(Preparation { sql, types })
    }

    /// An equal value. Only want of memory refuses it.
    pub fn to_copy(&self, alloc: Global) -> Result<Self, Error>
        ensures copy { IfOk result (λ p. p ≡ self.now) }
        ensures memory { IfErr result (λ e. e ≡ Error.OutOfMemory) }
    {
        let sql = self.sql.to_copy(alloc)?;
        let types = copy_declared(alloc, self.types.as_slice())?;
        Ok(Preparation { sql, types })
    }
}
