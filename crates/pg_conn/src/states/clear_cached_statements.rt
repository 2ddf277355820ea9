ghost use Rattle.std.specs.Prelude.{◌≡◌, [], false, None, Some, option_map};
ghost use Rattle.pg_call.specs.Answers.{unit_turn};
ghost use Rattle.pg_conn.specs.Connections.{seen_by, begun_by, is_over, left_by};
ghost use Rattle.pg_conn.specs.States.{IsCallingPlainly, KeepsCallingPlainly, PollFitsPlainly, ends_call, turn_of};
ghost use Rattle.pg_conn.specs.Turns.{PollsCall};

use crate::{Asks, PgConnection, Request};
use pg_call::Kind;
use pg_stream::Link;
use pg_wire::{Error, Poll, Sequence};

/// The call `clear_cached_statements`: it ends once the server has closed all statements that were kept.
/// (PostgreSQL manual, "Message Flow", "Extended Query".)
pub struct ClearCachedStatements<'c, L, R: Asks = Request> {
    conn: &'c mut PgConnection<L>,
    request: Option<R>,
    ghost calling: { KeepsCallingPlainly (option_map R.asked request) conn.now },
}

impl<L> PgConnection<L> {
    /// Closes all statements that are kept. Where none is kept it only reads what is owed. Its first poll forgets the OIDs that names of types have, however the call ends.
    pub fn clear_cached_statements(&mut self) -> ClearCachedStatements<'_, L>
        ensures same { result.conn.ghost_name ≡ self.entry.ghost_name }
        ensures conn { result.conn.now ≡ self.old }
        ensures request { result.request ≡ Some (Request.Clear []) }
        ensures calling { IsCallingPlainly (begun_by result.request result.conn.now) }
    {
        let statements = Sequence::new(self.alloc);
        ClearCachedStatements {
            conn: self,
            request: Some(Request::Clear(statements)),
        }
    }
}

impl<L, R: Asks + Drop> Drop for ClearCachedStatements<'_, L, R> {
    fn drop(self)
        ensures { self.exit.0.now ≡ left_by self.entry.request self.entry.conn.now }
    {
        let ClearCachedStatements { conn, request } = self;
        conn.leave(request);
    }
}

impl<L> ClearCachedStatements<'_, L> {
    /// Whether a poll has ended the call.
    pub fn is_finished(&self) -> bool
        ensures { result ≡ is_over self.now.request self.now.conn.now.call }
    {
        self.request.is_none() && !self.conn.is_running()
    }
}

impl<L: Link> ClearCachedStatements<'_, L> {
    /// Moves the call on.
    pub fn poll(&mut self) -> Poll<Result<(), Error>>
        requires over { is_over self.old.request self.old.conn.now.call ≡ false }
        ensures same { self.new.conn.ghost_name ≡ self.old.conn.ghost_name }
        ensures asked { self.new.request ≡ None }
        ensures polls { PollsCall (seen_by L.seen (begun_by self.old.request self.old.conn.now)) (seen_by L.seen self.new.conn.now) (turn_of unit_turn result) }
        ensures over { is_over self.new.request self.new.conn.now.call ≡ ends_call (turn_of unit_turn result) }
        ensures calling { IsCallingPlainly (begun_by self.old.request self.old.conn.now) → PollFitsPlainly self.new.conn.now (turn_of unit_turn result) }
    {
        match self.conn.poll_with(&mut self.request) {
            Poll::Pending => Poll::Pending,
            Poll::Ready(turn) => Poll::Ready(turn.into_unit(Kind::Flush)),
        }
    }
}
