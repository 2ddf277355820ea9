//! The arguments of the statements: each is added behind those before it, where these could be added.

ghost use Rattle.std.specs.Prelude.{◌≡◌, ◌∷◌, ◌++◌, [], List};
ghost use Rattle.pg_migrate.specs.Orders.{Bound};
ghost use Rattle.pg_migrating.specs.Requests.{Binds, bound_bytes, bound_oid};

use pg_arguments::{PgArguments, PgTypeInfo};
use pg_migrate::Migration;
use pg_wire::{Error, Oid};
use std::alloc::Global;

// The types of the arguments (pg_type.dat of PostgreSQL's sources).
pub(crate) const BYTEA: u32 = 17;

pub(crate) const INT8: u32 = 20;

pub(crate) const TEXT: u32 = 25;

/// No arguments.
pub(crate) fn none(alloc: Global) -> Result<PgArguments, Error>
    ensures { Binds [] result }
{
    Ok(PgArguments::new(alloc))
}

/// An argument of this type behind these, by the bytes of its encoding.
pub(crate) fn bind(
    alloc: Global,
    arguments: Result<PgArguments, Error>,
    oid: u32,
    image: &[u8],
) -> Result<PgArguments, Error>
    ensures { (before : List Bound) (b : Bound) → bound_oid b ≡ oid → bound_bytes b ≡ image.now → Binds before arguments → Binds (before ++ b ∷ []) result }
{
    let mut arguments = match arguments {
        Ok(arguments) => arguments,
        Err(e) => return Err(e),
    };
    let of = match PgTypeInfo::under_oid(alloc, Oid(oid)) {
        Ok(of) => of,
        Err(_) => return Err(Error::OutOfMemory),
    };
    match arguments.add_image(of, image) {
        Ok(()) => Ok(arguments),
        Err(e) => Err(e),
    }
}

/// The version of a migration, whose range a caller then knows.
pub(crate) fn version_of(migration: &Migration) -> i64
    ensures { result ≡ migration.now.version }
{
    migration.version
}
