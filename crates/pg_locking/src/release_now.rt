ghost use Rattle.std.specs.Prelude.{◌≡◌, None, Some, IsSome, option_map, false, Bool, Result};
ghost use Rattle.futures.specs.declared.task.Poll.{Poll};
ghost use Rattle.pg_guards.specs.Holders.{HeldBy};
ghost use Rattle.pg_locking.specs.Flags.{IsAsking, PollsFlag, forgot_if, left_releasing};
ghost use Rattle.pg_locking.specs.Held.{OnHeld, StaysHeld, end_of};

use crate::PgAdvisoryLockGuard;
use crate::flag_call::{Asking, FlagCall};
use crate::held_calls::{leave_release, poll_release};
use pg_guards::PgExecutor;
use pg_wire::{Error, Poll};

/// The state of `PgAdvisoryLockGuard::release_now`, which owns what holds the connection until it hands it on. Its first poll gives the guard's room up, and
/// then it goes on as `force_release`. Where it is dropped before, it does what the drop of the guard does.
/// (PostgreSQL manual, "Advisory Lock Functions", pg_advisory_unlock.)
pub struct ReleaseNow<C: PgExecutor> {
    conn: Option<C>,
    call: FlagCall,
}

impl<C: PgExecutor> ReleaseNow<C> {
    /// The state that releases the lock of this guard.
    pub(crate) fn new(guard: PgAdvisoryLockGuard<C>) -> Self
        ensures conn { result.conn ≡ Some guard.conn }
        ensures call { result.call ≡ record { key = guard.lock.key; holds = false; asking = Asking.Asked } }
    {
        let (conn, lock) = guard.into_parts();
        ReleaseNow {
            conn: Some(conn),
            call: FlagCall::new(lock.into_key(), false),
        }
    }

    // Hands on what holds the connection.
    fn hand_on(&mut self) -> C
        requires { IsSome self.old.conn }
        ensures holder { self.old.conn ≡ Some result }
        ensures conn { self.new.conn ≡ None }
        ensures call { self.new.call ≡ self.old.call }
    {
        match self.conn.take() {
            Some(conn) => conn,
            None => unreachable!(),
        }
    }

    /// Moves the call on, and hands on what holds the connection at its end, whether or not the session held the lock. An answer without a truth value is
    /// `ColumnDecode` with the place 0.
    pub fn poll(&mut self) -> Poll<Result<C, Error>>
        requires { OnHeld C.conn (IsAsking self.old.call.asking) self.old.conn }
        ensures same { self.new.call ≡ record self.old.call { asking = self.new.call.asking } }
        ensures polls { (c : C) → self.old.conn ≡ Some c → ((d : C) × (told : Poll (Result Bool Error)) × (end_of told ≡ end_of result) × HeldBy (λ holder. holder) self.new.conn result d × (d ≡ C.with_conn c (C.conn d)) × PollsFlag C.L.seen self.old.call.key self.old.call.holds self.old.call.asking (forgot_if self.old.call.asking (C.conn c)) (C.conn d) self.new.call.asking told) }
        ensures calling { StaysHeld C.conn (IsAsking self.new.call.asking) self.new.conn result }
    {
        let Some(conn) = &mut self.conn else {
            unreachable!()
        };
        match poll_release(conn, &mut self.call) {
            Poll::Pending => Poll::Pending,
            Poll::Ready(Err(e)) => Poll::Ready(Err(e)),
            Poll::Ready(Ok(_)) => Poll::Ready(Ok(self.hand_on())),
        }
    }

    /// Hands back what holds the connection, as the drop of the state leaves it. It is gone exactly where a poll has handed it on.
    pub fn into_conn(self) -> Option<C>
        ensures { result ≡ option_map (λ c. C.with_conn c (left_releasing self.call.key self.call.asking (C.conn c))) self.conn }
    {
        let ReleaseNow { conn, call } = self;
        match conn {
            Some(conn) => Some(leave_release(conn, call)),
            None => None,
        }
    }
}

impl<C: PgExecutor + Drop> Drop for ReleaseNow<C> {
    fn drop(self) {
        let conn = self.into_conn();
        let _ = conn;
    }
}
