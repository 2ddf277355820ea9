//! Which migrations were applied.

ghost use Rattle.std.specs.Prelude.{IfOk, IfErr};
ghost use Rattle.pg_call.specs.declared.kind.How.TheVariants as hows;
ghost use Rattle.pg_migrating.specs.Answers.{AllApplied, AreApplied, HideApplied, HidesApplied, HidesSome, IsApplied};

use crate::reading::Reading;
use crate::statement::MigrateCall;
use pg_call::Turn;
use pg_migrate::AppliedMigration;
use pg_rows::PgRow;
use pg_wire::Error;
use std::alloc::Global;

/// Version and checksum of each row, in order.
#[derive(Clone, Copy)]
pub struct Applied;

/// The state of `Migrate::list_applied_migrations`.
pub type ListAppliedMigrations<C> = MigrateCall<C, Applied>;

// The migration that a row tells of.
fn applied_in(alloc: Global, row: &PgRow) -> Result<AppliedMigration, Error>
    ensures ok { IfOk result (IsApplied row.now) }
    ensures err { IfErr result (HidesApplied row.now) }
{
    let version = row.try_get(alloc, 0)?;
    let checksum = row.try_get(alloc, 1)?;
    Ok(AppliedMigration { version, checksum })
}

// The same of each row.
fn all_applied(alloc: Global, rows: &[PgRow]) -> Result<Vec<AppliedMigration>, Error>
    ensures ok { IfOk result (λ applied. AllApplied rows.now applied.items) }
    ensures err { IfErr result (HidesSome rows.now) }
{
    let mut applied = Vec::new(alloc);
    for row in rows {
        applied.push(applied_in(alloc, row)?)?;
    }
    Ok(applied)
}

impl Reading for Applied {
    type Value = Vec<AppliedMigration>;

    ghost how = { hows.FetchAll };

    ghost reads = { λ answer applied. AreApplied answer applied.items };

    ghost misreads = { HideApplied };

    fn read(alloc: Global, turn: Turn) -> Result<Vec<AppliedMigration>, Error> {
        match turn.into_rows() {
            Ok(rows) => all_applied(alloc, rows.as_slice()),
            Err(e) => Err(e),
        }
    }
}
