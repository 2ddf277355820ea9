//! A guard whose connection is exchanged for another one.

use crate::migrating::case::{connect, key};
use crate::migrating::locks::calls::{push_short, take};
use crate::migrating::locks::telling::push_progress;
use crate::migrating::telling::push;
use case_tools::push_sent;
use pg_conn::PgConnection;
use pg_guards::PgExecutor;
use pg_locking::{PgAdvisoryLock, PgAdvisoryLockGuard, PgAdvisoryLockKey};
use pg_stream::MemoryLink;
use pg_wire::{Error, Poll};
use std::alloc::Global;
use std::mem;

type Connection = PgConnection<MemoryLink>;

fn push_one(mark: &str, conn: &Connection, told: &mut String) {
    push(told, mark);
    push_progress(conn, told);
    push(told, "\n");
    drop(push_sent(told, conn));
}

// Takes the lock by one poll.
fn polled_once<C: PgExecutor + Drop>(
    conn: C,
    key: PgAdvisoryLockKey,
) -> Poll<Result<PgAdvisoryLockGuard<C>, Error>> {
    let lock = PgAdvisoryLock::with_key(key);
    take(PgAdvisoryLockGuard::acquire(&lock, conn), 1)
}

// Takes the lock, puts the other connection in its place, and drops the guard there.
fn exchange(conn: Connection, other: Connection, key: PgAdvisoryLockKey, told: &mut String) {
    match polled_once(conn, key) {
        Poll::Ready(Ok(mut guard)) => {
            let first = mem::replace(guard.conn_mut(), other);
            let second = guard.into_conn();
            push_one("  first", &first, told);
            push_one("  other", &second, told);
            drop(first);
            drop(second);
        }
        answer => {
            drop(other);
            push(told, "  ");
            push_short(answer, told);
            push(told, "\n");
        }
    }
}

// The two connections of a case.
fn both(alloc: Global, case: &str) -> Result<(Connection, Connection), Error> {
    let conn = connect(alloc, case, "server")?;
    match connect(alloc, case, "other") {
        Ok(other) => Ok((conn, other)),
        Err(error) => {
            drop(conn);
            Err(error)
        }
    }
}

/// Plays a case, and tells of both connections.
pub(crate) fn play(alloc: Global, case: &str, told: &mut String) {
    match both(alloc, case) {
        Ok((conn, other)) => exchange(conn, other, key(case), told),
        Err(error) => {
            drop(error);
            push(told, "  no connection\n");
        }
    }
}
