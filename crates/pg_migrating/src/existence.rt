//! Whether there is a database.

ghost use Rattle.pg_call.specs.declared.kind.How.TheVariants as hows;
ghost use Rattle.pg_migrating.specs.Databases.{HidesBool, Says};

use crate::database_statement::DatabaseCall;
use crate::reading::Reading;
use pg_call::Turn;
use pg_wire::Error;
use std::alloc::Global;

/// Whether the database is there, as the first value of the row says.
#[derive(Clone, Copy)]
pub struct Exists;

/// The state of `MigrateDatabase::database_exists`.
pub type DatabaseExists<'d, D> = DatabaseCall<'d, D, Exists>;

impl Reading for Exists {
    type Value = bool;

    ghost how = { hows.FetchOne };

    ghost reads = { Says };

    ghost misreads = { HidesBool };

    fn read(alloc: Global, turn: Turn) -> Result<bool, Error> {
        match turn.into_one() {
            Ok(row) => row.try_get(alloc, 0),
            Err(e) => Err(e),
        }
    }
}
