//! What a caller knows of what holds a connection once a migration on it is given up: each law as the contract of the shortest user.

ghost use Rattle.std.specs.Prelude.{◌≡◌};
ghost use Rattle.pg_conn.specs.Connections.{ConnOf};
ghost use Rattle.pg_migrating.specs.Asking.{left_of, no_question};
ghost use Rattle.pg_migrating.specs.Migrating.{TellsRun};
ghost use Rattle.pg_migrating.specs.declared.course.Course as declared_course;
ghost use Rattle.pg_migrating.specs.declared.course.Way.TheVariants as ways;

use crate::Migrate;
use pg_guards::PgExecutor;
use pg_migrate::{Clock, MigrateError, Migration};
use pg_wire::Poll;
use std::alloc::Global;

/// A migration that is never polled leaves what holds the connection as it was.
pub fn a_migration_that_is_never_polled<C: PgExecutor, K: Clock>(
    alloc: Global,
    conn: C,
    table: &str,
    migration: &Migration,
    clock: &mut K,
) -> C
    ensures { result ≡ conn }
{
    Migrate::apply(alloc, conn, table, migration, clock).into_conn()
}

/// A migration that is given up behind its first poll: the connection is what that poll has left of it, and is rolled back where a transaction was
/// opened and not committed, which is while its script, its row or its commit is asked.
pub fn a_migration_that_is_polled_once<C: PgExecutor, K: Clock>(
    alloc: Global,
    conn: C,
    table: &str,
    migration: &Migration,
    clock: &mut K,
) -> (C, Poll<Result<u64, MigrateError>>)
    ensures { (b : ConnOf C.L) × (course : declared_course.Course) × (k : K) × TellsRun C.L.seen K.seen K.tells (record { way = ways.Apply; table = table.now; migration = migration.now }) (C.conn conn) clock.old course b k result.1 × (result.0 ≡ C.with_conn conn (left_of course.is_open no_question b)) }
{
    let mut state = Migrate::apply(alloc, conn, table, migration, clock);
    let answer = state.poll();
    (state.into_conn(), answer)
}
