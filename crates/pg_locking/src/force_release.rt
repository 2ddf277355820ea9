ghost use Rattle.std.specs.Prelude.{◌≡◌, None, Some, IsSome, option_map, false};
ghost use Rattle.pg_guards.specs.Holders.{HeldBy};
ghost use Rattle.pg_locking.specs.Flags.{IsAsking, PollsFlag, left_asking};
ghost use Rattle.pg_locking.specs.Held.{OnHeld, StaysHeld, answer_by};

use crate::flag_call::{Asking, FlagCall};
use crate::held_calls::{leave_flag, poll_flag};
use pg_guards::PgExecutor;
use pg_locks::PgAdvisoryLockKey;
use pg_wire::{Error, Poll};

/// The state of `PgAdvisoryLockGuard::force_release`, which owns what holds the connection until it hands it on, with whether the session held the lock. It
/// does nothing before its first poll. (PostgreSQL manual, "Advisory Lock Functions", pg_advisory_unlock.)
pub struct ForceRelease<C: PgExecutor> {
    conn: Option<C>,
    call: FlagCall,
}

impl<C: PgExecutor> ForceRelease<C> {
    /// The state that releases the lock of this key on what is held.
    pub(crate) fn new(conn: C, key: PgAdvisoryLockKey) -> Self
        ensures { result ≡ record { conn = Some conn; call = record { key = key; holds = false; asking = Asking.Asked } } }
    {
        ForceRelease {
            conn: Some(conn),
            call: FlagCall::new(key, false),
        }
    }

    // Hands on what holds the connection.
    fn hand_on(&mut self) -> C
        requires { IsSome self.old.conn }
        ensures holder { self.old.conn ≡ Some result }
        ensures conn { self.new.conn ≡ None }
        ensures call { self.new.call ≡ self.old.call }
    {
        match self.conn.take() {
            Some(conn) => conn,
            None => unreachable!(),
        }
    }

    /// Moves the call on, and hands on what holds the connection at its end. An answer without a truth value is `ColumnDecode` with the place 0.
    pub fn poll(&mut self) -> Poll<Result<(C, bool), Error>>
        requires { OnHeld C.conn (IsAsking self.old.call.asking) self.old.conn }
        ensures same { self.new.call ≡ record self.old.call { asking = self.new.call.asking } }
        ensures polls { (c : C) → self.old.conn ≡ Some c → ((d : C) × HeldBy (λ told. told.0) self.new.conn result d × (d ≡ C.with_conn c (C.conn d)) × PollsFlag C.L.seen self.old.call.key self.old.call.holds self.old.call.asking (C.conn c) (C.conn d) self.new.call.asking (answer_by (λ told. told.1) result)) }
        ensures calling { StaysHeld C.conn (IsAsking self.new.call.asking) self.new.conn result }
    {
        let Some(conn) = &mut self.conn else {
            unreachable!()
        };
        match poll_flag(conn, &mut self.call) {
            Poll::Pending => Poll::Pending,
            Poll::Ready(Err(e)) => Poll::Ready(Err(e)),
            Poll::Ready(Ok(held)) => Poll::Ready(Ok((self.hand_on(), held))),
        }
    }

    /// Hands back what holds the connection, as the drop of the state leaves it: a call that runs is given up. It is gone exactly where a poll has handed it
    /// on.
    pub fn into_conn(self) -> Option<C>
        ensures { result ≡ option_map (λ c. C.with_conn c (left_asking self.call.holds self.call.asking (C.conn c))) self.conn }
    {
        let ForceRelease { conn, call } = self;
        match conn {
            Some(conn) => Some(leave_flag(conn, call)),
            None => None,
        }
    }
}

impl<C: PgExecutor + Drop> Drop for ForceRelease<C> {
    fn drop(self) {
        let conn = self.into_conn();
        let _ = conn;
    }
}
