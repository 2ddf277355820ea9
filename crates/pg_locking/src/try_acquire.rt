ghost use Rattle.std.specs.Prelude.{◌≡◌, None, Some, IsSome, option_map, true, false};
ghost use Rattle.pg_guards.specs.Holders.{HeldBy};
ghost use Rattle.pg_locking.specs.Flags.{IsAsking, PollsFlag, left_asking};
ghost use Rattle.pg_locking.specs.Held.{MayGuardKey, OnHeld, StaysHeld, answer_by, holder_in, is_taken};

use crate::PgAdvisoryLockGuard;
use crate::flag_call::{Asking, FlagCall};
use crate::held_calls::{leave_flag, poll_flag};
use either::Either;
use pg_guards::PgExecutor;
use pg_locks::PgAdvisoryLockKey;
use pg_wire::{Error, Poll};

/// The state of `PgAdvisoryLockGuard::try_acquire`, which owns what holds the connection until it hands it on: in a guard where the lock is taken, and alone
/// where somebody else holds it. It does nothing before its first poll.
/// (PostgreSQL manual, "Advisory Lock Functions", pg_try_advisory_lock.)
pub struct TryAcquireLock<C: PgExecutor> {
    conn: Option<C>,
    call: FlagCall,
}

impl<C: PgExecutor> TryAcquireLock<C> {
    /// The state that asks for the lock of this key on what is held.
    pub(crate) fn new(conn: C, key: PgAdvisoryLockKey) -> Self
        ensures { result ≡ record { conn = Some conn; call = record { key = key; holds = true; asking = Asking.Asked } } }
    {
        TryAcquireLock {
            conn: Some(conn),
            call: FlagCall::new(key, true),
        }
    }

    // Hands on what holds the connection, in a guard where the lock is taken.
    fn hand_on(&mut self, taken: bool) -> Either<PgAdvisoryLockGuard<C>, C>
        requires { IsSome self.old.conn }
        ensures holder { self.old.conn ≡ Some (holder_in (λ guard. guard.conn) result) }
        ensures taken { is_taken result ≡ taken }
        ensures lock { MayGuardKey (λ guard. guard.lock.key) self.old.call.key (Poll.Ready (Ok result)) }
        ensures conn { self.new.conn ≡ None }
        ensures call { self.new.call ≡ self.old.call }
    {
        match self.conn.take() {
            Some(conn) => {
                if taken {
                    Either::Left(PgAdvisoryLockGuard::over(conn, self.call.key))
                } else {
                    Either::Right(conn)
                }
            }
            None => unreachable!(),
        }
    }

    /// Moves the call on, and hands on what holds the connection at its end. An answer without a truth value is `ColumnDecode` with the place 0.
    pub fn poll(&mut self) -> Poll<Result<Either<PgAdvisoryLockGuard<C>, C>, Error>>
        requires { OnHeld C.conn (IsAsking self.old.call.asking) self.old.conn }
        ensures same { self.new.call ≡ record self.old.call { asking = self.new.call.asking } }
        ensures guards { MayGuardKey (λ guard. guard.lock.key) self.old.call.key result }
        ensures polls { (c : C) → self.old.conn ≡ Some c → ((d : C) × HeldBy (holder_in (λ guard. guard.conn)) self.new.conn result d × (d ≡ C.with_conn c (C.conn d)) × PollsFlag C.L.seen self.old.call.key self.old.call.holds self.old.call.asking (C.conn c) (C.conn d) self.new.call.asking (answer_by is_taken result)) }
        ensures calling { StaysHeld C.conn (IsAsking self.new.call.asking) self.new.conn result }
    {
        let Some(conn) = &mut self.conn else {
            unreachable!()
        };
        match poll_flag(conn, &mut self.call) {
            Poll::Pending => Poll::Pending,
            Poll::Ready(Err(e)) => Poll::Ready(Err(e)),
            Poll::Ready(Ok(taken)) => Poll::Ready(Ok(self.hand_on(taken))),
        }
    }

    /// Hands back what holds the connection, as the drop of the state leaves it: a call that runs is given up. It is gone exactly where a poll has handed it
    /// on.
    pub fn into_conn(self) -> Option<C>
        ensures { result ≡ option_map (λ c. C.with_conn c (left_asking self.call.holds self.call.asking (C.conn c))) self.conn }
    {
        let TryAcquireLock { conn, call } = self;
        match conn {
            Some(conn) => Some(leave_flag(conn, call)),
            None => None,
        }
    }
}

impl<C: PgExecutor + Drop> Drop for TryAcquireLock<C> {
    fn drop(self) {
        let conn = self.into_conn();
        let _ = conn;
    }
}
