ghost use Rattle.std.specs.Prelude.{◌≡◌, false, None, Some, option_map};
ghost use Rattle.futures.specs.declared.task.Poll.TheVariants.{Pending};
ghost use Rattle.pg_call.specs.declared.kind.How.TheVariants as hows;
ghost use Rattle.pg_call.specs.declared.kind.Kind.TheVariants as kinds;
ghost use Rattle.pg_call.specs.Answers.{optional_turn};
ghost use Rattle.pg_conn.specs.Connections.{seen_by, begun_by, is_over, left_by};
ghost use Rattle.pg_conn.specs.States.{IsCalling, KeepsCalling, PollFits, ends_call, turn_of};
ghost use Rattle.pg_conn.specs.Turns.{PollsCall};

use crate::{Asks, PgConnection, PgRow, Query, Request};
use pg_stream::Link;
use pg_wire::{Error, Poll};

/// The call `fetch_optional`: it answers the first row of the query, or that there is none, once the reply has come to its end.
pub struct FetchOptional<'c, L, R: Asks = Request> {
    conn: &'c mut PgConnection<L>,
    request: Option<R>,
    ghost calling: { KeepsCalling (kinds.Run hows.FetchOptional) (option_map R.asked request) conn.now },
}

impl<L> PgConnection<L> {
    /// Runs a query, and gives its first row, if there is one.
    pub fn fetch_optional(&mut self, query: Query) -> FetchOptional<'_, L>
        ensures same { result.conn.ghost_name ≡ self.entry.ghost_name }
        ensures conn { result.conn.now ≡ self.old }
        ensures request { result.request ≡ Some (Request.FetchOptional query) }
        ensures calling { IsCalling (kinds.Run hows.FetchOptional) (begun_by result.request result.conn.now) }
    {
        FetchOptional {
            conn: self,
            request: Some(Request::FetchOptional(query)),
        }
    }
}

impl<L, R: Asks + Drop> Drop for FetchOptional<'_, L, R> {
    fn drop(self)
        ensures { self.exit.0.now ≡ left_by self.entry.request self.entry.conn.now }
    {
        let FetchOptional { conn, request } = self;
        conn.leave(request);
    }
}

impl<L> FetchOptional<'_, L> {
    /// Whether a poll has ended the call.
    pub fn is_finished(&self) -> bool
        ensures { result ≡ is_over self.now.request self.now.conn.now.call }
    {
        self.request.is_none() && !self.conn.is_running()
    }
}

impl<L: Link> FetchOptional<'_, L> {
    /// Moves the call on.
    pub fn poll(&mut self) -> Poll<Result<Option<PgRow>, Error>>
        requires over { is_over self.old.request self.old.conn.now.call ≡ false }
        ensures same { self.new.conn.ghost_name ≡ self.old.conn.ghost_name }
        ensures asked { self.new.request ≡ None }
        ensures polls { PollsCall (seen_by L.seen (begun_by self.old.request self.old.conn.now)) (seen_by L.seen self.new.conn.now) (turn_of optional_turn result) }
        ensures over { is_over self.new.request self.new.conn.now.call ≡ ends_call (turn_of optional_turn result) }
        ensures calling { IsCalling (kinds.Run hows.FetchOptional) (begun_by self.old.request self.old.conn.now) → PollFits (kinds.Run hows.FetchOptional) self.new.conn.now (turn_of optional_turn result) }
    {
        match self.conn.poll_with(&mut self.request) {
            Poll::Pending => Poll::Pending,
            Poll::Ready(turn) => Poll::Ready(turn.into_optional()),
        }
    }
}
