//! The calls of migrations.

ghost use Rattle.std.specs.Prelude.{◌≡◌, ◌∷◌, [], true, false, is_some};
ghost use Rattle.pg_call.specs.declared.kind.How.TheVariants as hows;
ghost use Rattle.pg_call.specs.declared.kind.Kind.TheVariants as kinds;
ghost use Rattle.pg_migrate.specs.Orders.{Prepared, Script, row_of};
ghost use Rattle.pg_migrate.specs.Texts.{create_schema_text, create_table_text, dirty_version_text, list_text};
ghost use Rattle.pg_migrating.specs.Asking.{CallsFor, CallsQuietly, is_asked};
ghost use Rattle.pg_migrating.specs.Locks.{CallsLock, StandsLock};
ghost use Rattle.pg_migrating.specs.Migrating.{StandsIn};
ghost use Rattle.pg_migrating.specs.Requests.{Asks};
ghost use Rattle.pg_migrating.specs.declared.course.Way.TheVariants as ways;
ghost use Rattle.pg_migrating.specs.declared.lock.LockWay.TheVariants as lock_ways;

use crate::asking::Asking;
use crate::binding::none;
use crate::course::Way;
use crate::lock::LockWay;
use crate::requests::{insert_row, named, named_script};
use crate::texts::Wording;
use crate::{
    DirtyVersion, ListAppliedMigrations, MigrateCall, MigrateStatement, MigrationLock, RunMigration,
};
use pg_call::How;
use pg_guards::PgExecutor;
use pg_migrate::{Clock, Migration};
use std::alloc::Global;
use std::marker::PhantomData;

/// The calls of migrations, on whatever holds a connection: each is a state, which is polled. The table of migrations and a schema are named as
/// they stand in SQL.
#[derive(Clone, Copy)]
pub struct Migrate;

impl Migrate {
    /// Makes a schema, unless it is there. (PostgreSQL manual, "SQL Commands", CREATE SCHEMA.)
    pub fn create_schema_if_not_exists<C: PgExecutor>(
        alloc: Global,
        conn: C,
        schema: &str,
    ) -> MigrateStatement<C>
        ensures conn { result.asking.conn ≡ conn }
        ensures asks { Asks hows.Execute 0 (Script (create_schema_text schema.now)) result.asking.question }
        ensures goes { is_asked result.asking.question (C.conn result.asking.conn).call ≡ true }
        ensures calling { CallsFor (kinds.Run hows.Execute) result.asking.question (C.conn result.asking.conn) }
    {
        MigrateCall {
            alloc,
            asking: Asking {
                conn,
                question: Some(named_script(alloc, Wording::CreateSchema, schema)),
            },
            reading: PhantomData,
        }
    }

    /// Makes the table of migrations, unless it is there. (PostgreSQL manual, "SQL Commands", CREATE TABLE.)
    pub fn ensure_migrations_table<C: PgExecutor>(
        alloc: Global,
        conn: C,
        table: &str,
    ) -> MigrateStatement<C>
        ensures conn { result.asking.conn ≡ conn }
        ensures asks { Asks hows.Execute 0 (Script (create_table_text table.now)) result.asking.question }
        ensures goes { is_asked result.asking.question (C.conn result.asking.conn).call ≡ true }
        ensures calling { CallsFor (kinds.Run hows.Execute) result.asking.question (C.conn result.asking.conn) }
    {
        MigrateCall {
            alloc,
            asking: Asking {
                conn,
                question: Some(named_script(alloc, Wording::CreateTable, table)),
            },
            reading: PhantomData,
        }
    }

    /// Asks for the first version whose migration did not end well: there is none where all did.
    pub fn dirty_version<C: PgExecutor>(alloc: Global, conn: C, table: &str) -> DirtyVersion<C>
        ensures conn { result.asking.conn ≡ conn }
        ensures asks { Asks hows.FetchOptional 0 (Prepared (dirty_version_text table.now) []) result.asking.question }
        ensures goes { is_asked result.asking.question (C.conn result.asking.conn).call ≡ true }
        ensures calling { CallsFor (kinds.Run hows.FetchOptional) result.asking.question (C.conn result.asking.conn) }
    {
        let wording = Wording::DirtyVersion;
        let question = named(alloc, How::FetchOptional, wording, table, none(alloc));
        MigrateCall {
            alloc,
            asking: Asking {
                conn,
                question: Some(question),
            },
            reading: PhantomData,
        }
    }

    /// Asks for version and checksum of each migration that was applied, by their versions.
    pub fn list_applied_migrations<C: PgExecutor>(
        alloc: Global,
        conn: C,
        table: &str,
    ) -> ListAppliedMigrations<C>
        ensures conn { result.asking.conn ≡ conn }
        ensures asks { Asks hows.FetchAll 0 (Prepared (list_text table.now) []) result.asking.question }
        ensures goes { is_asked result.asking.question (C.conn result.asking.conn).call ≡ true }
        ensures calling { CallsFor (kinds.Run hows.FetchAll) result.asking.question (C.conn result.asking.conn) }
    {
        let question = named(alloc, How::FetchAll, Wording::List, table, none(alloc));
        MigrateCall {
            alloc,
            asking: Asking {
                conn,
                question: Some(question),
            },
            reading: PhantomData,
        }
    }

    /// Adds the row of a migration without running its script. A description or a checksum of more than 2147483647 bytes is `Error::Encode`.
    pub fn skip<C: PgExecutor>(
        alloc: Global,
        conn: C,
        table: &str,
        migration: &Migration,
    ) -> MigrateStatement<C>
        ensures conn { result.asking.conn ≡ conn }
        ensures asks { Asks hows.Execute 0 (row_of table.now migration.now) result.asking.question }
        ensures goes { is_asked result.asking.question (C.conn result.asking.conn).call ≡ true }
        ensures calling { CallsFor (kinds.Run hows.Execute) result.asking.question (C.conn result.asking.conn) }
    {
        MigrateCall {
            alloc,
            asking: Asking {
                conn,
                question: Some(insert_row(alloc, table, migration)),
            },
            reading: PhantomData,
        }
    }

    /// Takes the lock of migrations of the database that the connection is on, and waits for it.
    pub fn lock<C: PgExecutor>(alloc: Global, conn: C) -> MigrationLock<C>
        ensures conn { result.asking.conn ≡ conn }
        ensures way { result.way ≡ lock_ways.Lock }
        ensures stands { StandsLock C.L.seen lock_ways.Lock (C.conn conn) result.is_named result.asking.question (C.conn result.asking.conn) }
        ensures goes { is_asked result.asking.question (C.conn result.asking.conn).call ≡ true }
        ensures calling { CallsLock result.is_named result.asking.question (C.conn result.asking.conn) }
    {
        MigrationLock::new(alloc, conn, LockWay::Lock)
    }

    /// Gives it back.
    pub fn unlock<C: PgExecutor>(alloc: Global, conn: C) -> MigrationLock<C>
        ensures conn { result.asking.conn ≡ conn }
        ensures way { result.way ≡ lock_ways.Unlock }
        ensures stands { StandsLock C.L.seen lock_ways.Unlock (C.conn conn) result.is_named result.asking.question (C.conn result.asking.conn) }
        ensures goes { is_asked result.asking.question (C.conn result.asking.conn).call ≡ true }
        ensures calling { CallsLock result.is_named result.asking.question (C.conn result.asking.conn) }
    {
        MigrationLock::new(alloc, conn, LockWay::Unlock)
    }

    /// Runs the script of a migration and adds its row, both in a transaction unless the migration wants none, and then notes how long that took. It
    /// answers the nanoseconds between two readings of the clock: at the first poll, and behind the commit.
    pub fn apply<'m, C: PgExecutor, K: Clock>(
        alloc: Global,
        conn: C,
        table: &'m str,
        migration: &'m Migration,
        clock: &'m mut K,
    ) -> RunMigration<'m, C, K>
        ensures conn { result.asking.conn ≡ conn }
        ensures clock { result.clock.now ≡ clock.old }
        ensures same { result.clock.ghost_name ≡ clock.entry.ghost_name }
        ensures work { result.work ≡ record { way = ways.Apply; table = table.now; migration = migration.now } }
        ensures stands { StandsIn C.L.seen K.seen K.tells result.work (C.conn conn) clock.old result.course result.asking.question (C.conn result.asking.conn) result.clock.now }
        ensures new { is_some result.asking.question ≡ true }
        ensures open { result.course.is_open ≡ false }
        ensures goes { is_asked result.asking.question (C.conn result.asking.conn).call ≡ true }
        ensures calling { CallsQuietly result.asking.question (C.conn result.asking.conn) }
    {
        RunMigration::new(alloc, conn, Way::Apply, table, migration, clock)
    }

    /// Runs the script of a migration that takes back what another one did, and takes its row away. It answers as `apply` does, and notes no time.
    pub fn revert<'m, C: PgExecutor, K: Clock>(
        alloc: Global,
        conn: C,
        table: &'m str,
        migration: &'m Migration,
        clock: &'m mut K,
    ) -> RunMigration<'m, C, K>
        ensures conn { result.asking.conn ≡ conn }
        ensures clock { result.clock.now ≡ clock.old }
        ensures same { result.clock.ghost_name ≡ clock.entry.ghost_name }
        ensures work { result.work ≡ record { way = ways.Revert; table = table.now; migration = migration.now } }
        ensures stands { StandsIn C.L.seen K.seen K.tells result.work (C.conn conn) clock.old result.course result.asking.question (C.conn result.asking.conn) result.clock.now }
        ensures new { is_some result.asking.question ≡ true }
        ensures open { result.course.is_open ≡ false }
        ensures goes { is_asked result.asking.question (C.conn result.asking.conn).call ≡ true }
        ensures calling { CallsQuietly result.asking.question (C.conn result.asking.conn) }
    {
        RunMigration::new(alloc, conn, Way::Revert, table, migration, clock)
    }
}
