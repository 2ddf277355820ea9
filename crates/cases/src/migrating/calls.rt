//! Each call of migrations by its own state: it is polled, and dropped.

ghost use Rattle.std.specs.Prelude.{◌≡◌, true};
ghost use Rattle.pg_call.specs.declared.kind.Kind.TheVariants as kinds;
ghost use Rattle.pg_migrating.specs.Asking.{CallsFor, CallsQuietly, is_asked};
ghost use Rattle.pg_migrating.specs.Locks.{CallsLock};

use crate::migrating::telling::{Told, push, push_call, push_waits};
use case_tools::flush;
use pg_guards::PgExecutor;
use pg_migrate::{Clock, Migration};
use pg_migrating::{Migrate, MigrateCall, MigrationLock, Reading, RunMigration};
use pg_wire::Poll;
use std::alloc::Global;

const TABLE: &str = "m";

// How often a flush is polled.
const FLUSH_POLLS: u64 = 100;

// Polls a migration, so often at most, and tells what it answered.
fn run<C: PgExecutor + Drop, K: Clock>(
    mut state: RunMigration<'_, C, K>,
    polls: u64,
    word: &str,
    told: &mut String,
)
    requires over { is_asked state.asking.question (C.conn state.asking.conn).call ≡ true }
    requires calling { CallsQuietly state.asking.question (C.conn state.asking.conn) }
{
    for _ in 0..polls {
        match state.poll() {
            Poll::Pending => {}
            answer => return push_call(told, word, answer),
        }
    }
    push_waits(told, word);
}

// Polls a call of one statement once, and tells what it answered.
fn once<C: PgExecutor + Drop, R: Reading>(
    mut state: MigrateCall<C, R>,
    word: &str,
    told: &mut String,
)
where
    R::Value: Told,
    requires over { is_asked state.asking.question (C.conn state.asking.conn).call ≡ true }
    requires calling { CallsFor (kinds.Run R.how) state.asking.question (C.conn state.asking.conn) }
{
    let answer = state.poll();
    drop(state);
    push_call(told, word, answer);
}

// The same of the lock.
fn lock_once<C: PgExecutor + Drop>(mut state: MigrationLock<C>, word: &str, told: &mut String)
    requires over { is_asked state.asking.question (C.conn state.asking.conn).call ≡ true }
    requires calling { CallsLock state.is_named state.asking.question (C.conn state.asking.conn) }
{
    let answer = state.poll();
    drop(state);
    push_call(told, word, answer);
}

// Sends what is unsent, and reads what is owed.
fn push_flush<C: PgExecutor + Drop>(mut conn: C, told: &mut String) {
    let answer = flush(conn.conn_mut(), FLUSH_POLLS);
    drop(conn);
    let line = match &answer {
        Poll::Pending => "  flush: waits\n",
        Poll::Ready(Ok(())) => "  flush: ok\n",
        Poll::Ready(Err(_)) => "  flush: failed\n",
    };
    push(told, line);
    drop(answer);
}

/// Makes a call on what holds a connection, and tells what it answered.
pub(crate) fn call<C: PgExecutor + Drop, K: Clock>(
    alloc: Global,
    conn: C,
    word: &str,
    migration: &Migration,
    clock: &mut K,
    polls: u64,
    told: &mut String,
) {
    match word {
        "schema" => {
            let state = Migrate::create_schema_if_not_exists(alloc, conn, TABLE);
            once(state, word, told)
        }
        "table" => once(
            Migrate::ensure_migrations_table(alloc, conn, TABLE),
            word,
            told,
        ),
        "skip" => once(Migrate::skip(alloc, conn, TABLE, migration), word, told),
        "dirty" => once(Migrate::dirty_version(alloc, conn, TABLE), word, told),
        "list" => once(
            Migrate::list_applied_migrations(alloc, conn, TABLE),
            word,
            told,
        ),
        "lock" => lock_once(Migrate::lock(alloc, conn), word, told),
        "unlock" => lock_once(Migrate::unlock(alloc, conn), word, told),
        "apply" => {
            let state = Migrate::apply(alloc, conn, TABLE, migration, clock);
            run(state, polls, word, told)
        }
        "revert" => {
            let state = Migrate::revert(alloc, conn, TABLE, migration, clock);
            run(state, polls, word, told)
        }
        _ => push_flush(conn, told),
    }
}
