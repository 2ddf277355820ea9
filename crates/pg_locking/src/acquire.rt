ghost use Rattle.std.specs.Prelude.{◌≡◌, None, Some, IsSome, option_map};
ghost use Rattle.pg_guards.specs.Holders.{HeldBy};
ghost use Rattle.pg_locking.specs.Held.{GuardsKey, OnHeld, StaysHeld, end_of};
ghost use Rattle.pg_locking.specs.Locking.{IsLocking, PollsLock, left_locking};

use crate::PgAdvisoryLockGuard;
use crate::held_calls::{leave_lock, poll_lock};
use crate::lock_call::{LockCall, Stage};
use pg_guards::PgExecutor;
use pg_locks::PgAdvisoryLockKey;
use pg_wire::{Error, Poll};

/// The state of `PgAdvisoryLockGuard::acquire`, which owns what holds the connection until it hands the guard on. It does nothing before its first poll.
/// Where it fails or is dropped, no lock stays held: the text that releases it is queued exactly where the lock was asked for, and no error of the server has
/// answered that. (PostgreSQL manual, "Advisory Lock Functions", pg_advisory_lock.)
pub struct AcquireLock<C: PgExecutor> {
    conn: Option<C>,
    call: LockCall,
}

impl<C: PgExecutor> AcquireLock<C> {
    /// The state that takes the lock of this key on what is held.
    pub(crate) fn new(conn: C, key: PgAdvisoryLockKey) -> Self
        ensures { result ≡ record { conn = Some conn; call = record { key = key; stage = Stage.Asked } } }
    {
        AcquireLock {
            conn: Some(conn),
            call: LockCall::new(key),
        }
    }

    // Hands the guard on.
    fn hand_on(&mut self) -> PgAdvisoryLockGuard<C>
        requires { IsSome self.old.conn }
        ensures guard { self.old.conn ≡ Some result.conn }
        ensures lock { result.lock.key ≡ self.old.call.key }
        ensures conn { self.new.conn ≡ None }
        ensures call { self.new.call ≡ self.old.call }
    {
        match self.conn.take() {
            Some(conn) => PgAdvisoryLockGuard::over(conn, self.call.key),
            None => unreachable!(),
        }
    }

    /// Moves the call on, and hands the guard on at its end.
    pub fn poll(&mut self) -> Poll<Result<PgAdvisoryLockGuard<C>, Error>>
        requires { OnHeld C.conn (IsLocking self.old.call.stage) self.old.conn }
        ensures key { self.new.call.key ≡ self.old.call.key }
        ensures guards { GuardsKey (λ guard. guard.lock.key) self.old.call.key result }
        ensures polls { (c : C) → self.old.conn ≡ Some c → ((d : C) × HeldBy (λ guard. guard.conn) self.new.conn result d × (d ≡ C.with_conn c (C.conn d)) × PollsLock C.L.seen self.old.call.key self.old.call.stage (C.conn c) (C.conn d) self.new.call.stage (end_of result)) }
        ensures calling { StaysHeld C.conn (IsLocking self.new.call.stage) self.new.conn result }
    {
        let Some(conn) = &mut self.conn else {
            unreachable!()
        };
        match poll_lock(conn, &mut self.call) {
            Poll::Pending => Poll::Pending,
            Poll::Ready(Err(e)) => Poll::Ready(Err(e)),
            Poll::Ready(Ok(())) => Poll::Ready(Ok(self.hand_on())),
        }
    }

    /// Hands back what holds the connection, as the drop of the state leaves it. It is gone exactly where a poll has handed the guard on.
    pub fn into_conn(self) -> Option<C>
        ensures { result ≡ option_map (λ c. C.with_conn c (left_locking self.call.key self.call.stage (C.conn c))) self.conn }
    {
        let AcquireLock { conn, call } = self;
        match conn {
            Some(conn) => Some(leave_lock(conn, call)),
            None => None,
        }
    }
}

impl<C: PgExecutor + Drop> Drop for AcquireLock<C> {
    fn drop(self) {
        let conn = self.into_conn();
        let _ = conn;
    }
}
