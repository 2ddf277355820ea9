//! What a caller knows of a connection once a guard or a state that held it is given up: each law as the contract of the shortest user.
ghost use Rattle.std.specs.Prelude.{◌≡◌, IsSome, Some};
ghost use Rattle.pg_conn.specs.Connections.{ConnOf};
ghost use Rattle.pg_conn.specs.Holding.{took_held};
ghost use Rattle.pg_locks.specs.Locks.{unlock_query};
ghost use Rattle.pg_locking.specs.Giving.{given_back};
ghost use Rattle.pg_locking.specs.Locking.{PollsLock, left_locking};
ghost use Rattle.pg_locking.specs.declared.lock_call.Stage as declared_stage;
ghost use Rattle.pg_locking.specs.declared.lock_call.Stage.TheVariants as stages;

use crate::{AcquireLock, PgAdvisoryLockGuard};
use pg_conn::PgConnection;
use pg_guards::PgExecutor;
use pg_locks::PgAdvisoryLock;
use pg_stream::Link;
use pg_wire::{Error, Poll};
use std::mem;

/// A lock that is never asked for leaves what holds the connection as it was.
pub fn a_lock_that_is_never_asked_for<C: PgExecutor>(lock: &PgAdvisoryLock, conn: C) -> Option<C>
    ensures { result ≡ Some conn }
{
    PgAdvisoryLockGuard::acquire(lock, conn).into_conn()
}

// What a state holds that has not handed the guard on.
fn held<C: PgExecutor>(state: AcquireLock<C>) -> C
    requires { IsSome state.conn }
    ensures { (c : C) → state.conn ≡ Some c → result ≡ C.with_conn c (left_locking state.call.key state.call.stage (C.conn c)) }
{
    match state.into_conn() {
        Some(conn) => conn,
        None => unreachable!(),
    }
}

/// A lock that is asked for by one poll, and given up with what that answers: the connection is what the poll has left of it. Behind an Ok the lock is
/// released; else it is released exactly where the statement that locks was asked to run, and no error of the server has answered that.
pub fn a_lock_that_is_given_up<C: PgExecutor>(
    lock: &PgAdvisoryLock,
    conn: C,
) -> (C, Poll<Result<(), Error>>)
    ensures { (b : ConnOf C.L) × (stage : declared_stage.Stage) × PollsLock C.L.seen lock.now.key stages.Asked (C.conn conn) b stage result.1 × (result.0 ≡ C.with_conn conn (given_back lock.now.key stage result.1 b)) }
{
    let mut state = PgAdvisoryLockGuard::acquire(lock, conn);
    match state.poll() {
        Poll::Ready(Ok(guard)) => {
            match state.into_conn() {
                Some(_conn) => unreachable!(),
                None => {}
            }
            (guard.into_conn(), Poll::Ready(Ok(())))
        }
        Poll::Ready(Err(e)) => (held(state), Poll::Ready(Err(e))),
        Poll::Pending => (held(state), Poll::Pending),
    }
}

/// A release that is never polled does what the drop of the guard does.
pub fn a_release_that_is_never_polled<C: PgExecutor>(guard: PgAdvisoryLockGuard<C>) -> Option<C>
    ensures { result ≡ Some (C.with_conn guard.conn (took_held (Some (unlock_query guard.lock.key)) (C.conn guard.conn))) }
{
    guard.release_now().into_conn()
}

/// A guard whose connection was exchanged for one on which no lock is held leaves that one as it was: nothing is queued there.
pub fn a_guard_on_another_connection<L: Link>(
    guard: PgAdvisoryLockGuard<PgConnection<L>>,
    other: PgConnection<L>,
) -> (PgConnection<L>, PgConnection<L>)
    requires { other.held ≡ 0 }
    ensures first { result.0 ≡ guard.conn }
    ensures other { result.1 ≡ other }
{
    let mut guard = guard;
    let first = mem::replace(guard.conn_mut(), other);
    (first, guard.into_conn())
}
