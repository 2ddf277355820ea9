ghost use Rattle.std.specs.Prelude.{◌≡◌, false, None, Some, option_map};
ghost use Rattle.futures.specs.declared.task.Poll.TheVariants.{Pending};
ghost use Rattle.pg_call.specs.declared.kind.How.TheVariants as hows;
ghost use Rattle.pg_call.specs.declared.kind.Kind.TheVariants as kinds;
ghost use Rattle.pg_call.specs.Answers.{rows_turn};
ghost use Rattle.pg_conn.specs.Connections.{seen_by, begun_by, is_over, left_by};
ghost use Rattle.pg_conn.specs.States.{IsCalling, KeepsCalling, PollFits, ends_call, turn_of};
ghost use Rattle.pg_conn.specs.Turns.{PollsCall};

use crate::{Asks, PgConnection, PgRow, Query, Request};
use pg_stream::Link;
use pg_wire::{Error, Poll, Sequence};

/// The call `fetch_all`: it answers all rows of the query.
pub struct FetchAll<'c, L, R: Asks = Request> {
    conn: &'c mut PgConnection<L>,
    request: Option<R>,
    ghost calling: { KeepsCalling (kinds.Run hows.FetchAll) (option_map R.asked request) conn.now },
}

impl<L> PgConnection<L> {
    /// Runs a query, and gives all of its rows.
    pub fn fetch_all(&mut self, query: Query) -> FetchAll<'_, L>
        ensures same { result.conn.ghost_name ≡ self.entry.ghost_name }
        ensures conn { result.conn.now ≡ self.old }
        ensures request { result.request ≡ Some (Request.FetchAll query) }
        ensures calling { IsCalling (kinds.Run hows.FetchAll) (begun_by result.request result.conn.now) }
    {
        FetchAll {
            conn: self,
            request: Some(Request::FetchAll(query)),
        }
    }
}

impl<L, R: Asks + Drop> Drop for FetchAll<'_, L, R> {
    fn drop(self)
        ensures { self.exit.0.now ≡ left_by self.entry.request self.entry.conn.now }
    {
        let FetchAll { conn, request } = self;
        conn.leave(request);
    }
}

impl<L> FetchAll<'_, L> {
    /// Whether a poll has ended the call.
    pub fn is_finished(&self) -> bool
        ensures { result ≡ is_over self.now.request self.now.conn.now.call }
    {
        self.request.is_none() && !self.conn.is_running()
    }
}

impl<L: Link> FetchAll<'_, L> {
    /// Moves the call on.
    pub fn poll(&mut self) -> Poll<Result<Sequence<PgRow>, Error>>
        requires over { is_over self.old.request self.old.conn.now.call ≡ false }
        ensures same { self.new.conn.ghost_name ≡ self.old.conn.ghost_name }
        ensures asked { self.new.request ≡ None }
        ensures polls { PollsCall (seen_by L.seen (begun_by self.old.request self.old.conn.now)) (seen_by L.seen self.new.conn.now) (turn_of rows_turn result) }
        ensures over { is_over self.new.request self.new.conn.now.call ≡ ends_call (turn_of rows_turn result) }
        ensures calling { IsCalling (kinds.Run hows.FetchAll) (begun_by self.old.request self.old.conn.now) → PollFits (kinds.Run hows.FetchAll) self.new.conn.now (turn_of rows_turn result) }
    {
        match self.conn.poll_with(&mut self.request) {
            Poll::Pending => Poll::Pending,
            Poll::Ready(turn) => Poll::Ready(turn.into_rows()),
        }
    }
}
