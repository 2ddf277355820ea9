ghost use Rattle.std.specs.Prelude.{◌≡◌, false, None, Some, option_map};
ghost use Rattle.pg_call.specs.Answers.{unit_turn};
ghost use Rattle.pg_conn.specs.Connections.{rollback_of, seen_by, begun_by, is_over, left_by};
ghost use Rattle.pg_conn.specs.States.{IsCallingPlainly, KeepsCallingPlainly, PollFitsPlainly, ends_call, turn_of};
ghost use Rattle.pg_conn.specs.Turns.{PollsCall};

use crate::{Asks, PgConnection, Request};
use pg_call::Kind;
use pg_stream::Link;
use pg_wire::{Error, Poll};

/// The call `rollback`: it ends once the transaction is rolled back, or all behind the last savepoint is.
/// (PostgreSQL manual, "SQL Commands", ROLLBACK, ROLLBACK TO SAVEPOINT.)
pub struct Rollback<'c, L, R: Asks = Request> {
    conn: &'c mut PgConnection<L>,
    request: Option<R>,
    ghost calling: { KeepsCallingPlainly (option_map R.asked request) conn.now },
}

/// What a rollback asks where so many transactions and savepoints are open.
pub fn rollback_request(depth: u64) -> Request
    ensures { result ≡ rollback_of depth }
{
    match depth {
        0 => Request::Flush,
        depth => Request::Rollback(depth - 1),
    }
}

impl<L> PgConnection<L> {
    /// Rolls the transaction back, or to the last savepoint. Where none is open it only reads what is owed.
    pub fn rollback(&mut self) -> Rollback<'_, L>
        ensures same { result.conn.ghost_name ≡ self.entry.ghost_name }
        ensures conn { result.conn.now ≡ self.old }
        ensures request { result.request ≡ Some (rollback_of self.old.rule.depth) }
        ensures calling { IsCallingPlainly (begun_by result.request result.conn.now) }
    {
        let request = rollback_request(self.transaction_depth());
        Rollback {
            conn: self,
            request: Some(request),
        }
    }
}

impl<L, R: Asks + Drop> Drop for Rollback<'_, L, R> {
    fn drop(self)
        ensures { self.exit.0.now ≡ left_by self.entry.request self.entry.conn.now }
    {
        let Rollback { conn, request } = self;
        conn.leave(request);
    }
}

impl<L> Rollback<'_, L> {
    /// Whether a poll has ended the call.
    pub fn is_finished(&self) -> bool
        ensures { result ≡ is_over self.now.request self.now.conn.now.call }
    {
        self.request.is_none() && !self.conn.is_running()
    }
}

impl<L: Link> Rollback<'_, L> {
    /// Moves the call on.
    pub fn poll(&mut self) -> Poll<Result<(), Error>>
        requires over { is_over self.old.request self.old.conn.now.call ≡ false }
        ensures same { self.new.conn.ghost_name ≡ self.old.conn.ghost_name }
        ensures asked { self.new.request ≡ None }
        ensures polls { PollsCall (seen_by L.seen (begun_by self.old.request self.old.conn.now)) (seen_by L.seen self.new.conn.now) (turn_of unit_turn result) }
        ensures over { is_over self.new.request self.new.conn.now.call ≡ ends_call (turn_of unit_turn result) }
        ensures calling { IsCallingPlainly (begun_by self.old.request self.old.conn.now) → PollFitsPlainly self.new.conn.now (turn_of unit_turn result) }
    {
        match self.conn.poll_with(&mut self.request) {
            Poll::Pending => Poll::Pending,
            Poll::Ready(turn) => Poll::Ready(turn.into_unit(Kind::Flush)),
        }
    }
}
