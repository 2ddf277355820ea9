//! Which migration did not end well.

ghost use Rattle.pg_call.specs.declared.kind.How.TheVariants as hows;
ghost use Rattle.pg_migrating.specs.Answers.{HidesDirty, IsDirty};

use crate::reading::Reading;
use crate::statement::MigrateCall;
use pg_call::Turn;
use pg_wire::Error;
use std::alloc::Global;

/// The version in the first row, if there is one.
#[derive(Clone, Copy)]
pub struct Dirty;

/// The state of `Migrate::dirty_version`.
pub type DirtyVersion<C> = MigrateCall<C, Dirty>;

impl Reading for Dirty {
    type Value = Option<i64>;

    ghost how = { hows.FetchOptional };

    ghost reads = { IsDirty };

    ghost misreads = { HidesDirty };

    fn read(alloc: Global, turn: Turn) -> Result<Option<i64>, Error> {
        match turn.into_optional() {
            Ok(None) => Ok(None),
            Ok(Some(row)) => match row.try_get(alloc, 0) {
                Ok(version) => Ok(Some(version)),
                Err(e) => Err(e),
            },
            Err(e) => Err(e),
        }
    }
}
