//! Locks on a server: two connections contend for one, and whatever is dropped leaves none behind the next call.

use crate::migrating::locks::calls::{force, take, try_take};
use either::Either;
use pg_conn::{PgConnection, PgRow, Query};
use pg_guards::PgExecutor;
use pg_locking::{PgAdvisoryLock, PgAdvisoryLockGuard, PgAdvisoryLockKey};
use pg_stream::Link;
use pg_wire::{Error, Poll};
use std::fmt::Write;

// A poll that answers `Pending` has waited for the socket's own timeout.
const POLLS: u64 = 1000;

const HELD: &str = "SELECT count(*) FROM pg_locks WHERE locktype = 'advisory'";

fn lock() -> PgAdvisoryLock {
    PgAdvisoryLock::with_key(PgAdvisoryLockKey::IntPair(5, -5))
}

// The next call on a connection: it sends what is unsent, and reads what is owed.
fn ping<C: PgExecutor>(conn: &mut C) -> Result<(), Error> {
    ready(case_tools::ping(conn.conn_mut(), POLLS))
}

fn row<L: Link>(conn: &mut PgConnection<L>, query: Query) -> Result<PgRow, Error> {
    let mut call = conn.fetch_one(query);
    for _ in 0..POLLS {
        match call.poll() {
            Poll::Pending => {}
            Poll::Ready(row) => return row,
        }
    }
    Err(Error::StartupPending)
}

// How many advisory locks are held in the server, or waited for.
fn count<C: PgExecutor>(conn: &mut C) -> Result<i64, Error> {
    let alloc = conn.conn_ref().allocator();
    let query = Query::new(alloc, HELD)?;
    let row = row(conn.conn_mut(), query)?;
    let count = row.try_get(alloc, 0);
    drop(row);
    count
}

fn ready<T: Drop>(answer: Poll<Result<T, Error>>) -> Result<T, Error> {
    match answer {
        Poll::Ready(told) => told,
        Poll::Pending => Err(Error::StartupPending),
    }
}

fn hold<C: PgExecutor + Drop>(conn: C) -> Result<PgAdvisoryLockGuard<C>, Error> {
    ready(take(PgAdvisoryLockGuard::acquire(&lock(), conn), POLLS))
}

// Takes the lock within so many polls, and drops its guard, or what asks for it.
fn take_and_drop<C: PgExecutor + Drop>(conn: C, polls: u64) -> Result<bool, Error> {
    match take(PgAdvisoryLockGuard::acquire(&lock(), conn), polls) {
        Poll::Ready(Ok(guard)) => {
            drop(guard);
            Ok(true)
        }
        Poll::Ready(Err(error)) => Err(error),
        Poll::Pending => Ok(false),
    }
}

// The same where nobody waits for it.
fn try_and_drop<C: PgExecutor + Drop>(conn: C) -> Result<bool, Error> {
    match try_take(PgAdvisoryLockGuard::try_acquire(&lock(), conn), POLLS) {
        Poll::Ready(Ok(Either::Left(guard))) => {
            drop(guard);
            Ok(true)
        }
        Poll::Ready(Ok(Either::Right(conn))) => {
            drop(conn);
            Ok(false)
        }
        Poll::Ready(Err(error)) => Err(error),
        Poll::Pending => Err(Error::StartupPending),
    }
}

// Whether the session held it.
fn was_held<C: PgExecutor + Drop>(conn: C) -> Result<bool, Error> {
    let (conn, held) = ready(force(PgAdvisoryLockGuard::force_release(&lock(), conn), POLLS))?;
    drop(conn);
    Ok(held)
}

// One that is free, and dropped behind so many polls.
fn alone<C: PgExecutor>(
    conn: &mut C,
    other: &mut C,
    polls: u64,
    told: &mut String,
) -> Result<(), Error> {
    let taken = take_and_drop(&mut *conn, polls)?;
    ping(conn)?;
    let left = count(other)?;
    let _ = write!(
        told,
        "free, dropped at poll {polls}: taken {taken}, {left} left\n"
    );
    Ok(())
}

// What a connection comes to while somebody holds the lock: whether it is free, whether its own session holds it, and whether it is taken within so many
// polls.
fn without_it<C: PgExecutor>(conn: &mut C, polls: u64) -> Result<(bool, bool, bool), Error> {
    let free = try_and_drop(&mut *conn)?;
    let held = was_held(&mut *conn)?;
    let taken = take_and_drop(conn, polls)?;
    Ok((free, held, taken))
}

// The same while the other connection is the one that holds it.
fn held_meanwhile<C: PgExecutor>(
    conn: &mut C,
    other: &mut C,
    polls: u64,
) -> Result<(bool, bool, bool), Error> {
    let guard = hold(other)?;
    let seen = without_it(conn, polls);
    drop(guard);
    seen
}

// One that the other connection holds meanwhile.
fn contend<C: PgExecutor>(
    conn: &mut C,
    other: &mut C,
    polls: u64,
    told: &mut String,
) -> Result<(), Error> {
    let (free, held, taken) = held_meanwhile(conn, other, polls)?;
    ping(other)?;
    ping(conn)?;
    let left = count(other)?;
    let _ = write!(
        told,
        "held, dropped at poll {polls}: free {free}, its own {held}, taken {taken}, {left} left\n"
    );
    Ok(())
}

/// Takes and drops locks on these connections, and tells what came of each.
pub(crate) fn live<C: PgExecutor>(
    conn: &mut C,
    other: &mut C,
    told: &mut String,
) -> Result<(), Error> {
    for polls in 1..12 {
        alone(conn, other, polls, told)?;
        contend(conn, other, polls, told)?;
    }
    Ok(())
}
