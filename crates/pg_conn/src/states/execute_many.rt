ghost use Rattle.std.specs.Prelude.{◌≡◌, false, None, Some, option_map};
ghost use Rattle.futures.specs.declared.task.Poll.TheVariants.{Pending};
ghost use Rattle.pg_call.specs.declared.kind.How.TheVariants as hows;
ghost use Rattle.pg_call.specs.declared.kind.Kind.TheVariants as kinds;
ghost use Rattle.pg_call.specs.Answers.{count_turn};
ghost use Rattle.pg_conn.specs.Connections.{seen_by, begun_by, is_over, left_by};
ghost use Rattle.pg_conn.specs.States.{IsCalling, KeepsCalling, PollFits, ends_call, turn_of};
ghost use Rattle.pg_conn.specs.Turns.{PollsCall};

use crate::{Asks, PgConnection, PgQueryResult, Query, Request};
use pg_stream::Link;
use pg_wire::{Error, Poll};

/// The call `execute_many`: it gives the rows that each statement of the query counts, as they come.
pub struct ExecuteMany<'c, L, R: Asks = Request> {
    conn: &'c mut PgConnection<L>,
    request: Option<R>,
    ghost calling: { KeepsCalling (kinds.Run hows.ExecuteMany) (option_map R.asked request) conn.now },
}

impl<L> PgConnection<L> {
    /// Runs the statements of a query, and tells the rows of each as it comes.
    pub fn execute_many(&mut self, query: Query) -> ExecuteMany<'_, L>
        ensures same { result.conn.ghost_name ≡ self.entry.ghost_name }
        ensures conn { result.conn.now ≡ self.old }
        ensures request { result.request ≡ Some (Request.ExecuteMany query) }
        ensures calling { IsCalling (kinds.Run hows.ExecuteMany) (begun_by result.request result.conn.now) }
    {
        ExecuteMany {
            conn: self,
            request: Some(Request::ExecuteMany(query)),
        }
    }
}

impl<L, R: Asks + Drop> Drop for ExecuteMany<'_, L, R> {
    fn drop(self)
        ensures { self.exit.0.now ≡ left_by self.entry.request self.entry.conn.now }
    {
        let ExecuteMany { conn, request } = self;
        conn.leave(request);
    }
}

impl<L> ExecuteMany<'_, L> {
    /// Whether a poll has ended the call.
    pub fn is_finished(&self) -> bool
        ensures { result ≡ is_over self.now.request self.now.conn.now.call }
    {
        self.request.is_none() && !self.conn.is_running()
    }
}

impl<L: Link> ExecuteMany<'_, L> {
    /// Moves the call on to its next item. None ends it.
    pub fn poll_next(&mut self) -> Poll<Option<Result<PgQueryResult, Error>>>
        requires over { is_over self.old.request self.old.conn.now.call ≡ false }
        ensures same { self.new.conn.ghost_name ≡ self.old.conn.ghost_name }
        ensures asked { self.new.request ≡ None }
        ensures polls { PollsCall (seen_by L.seen (begun_by self.old.request self.old.conn.now)) (seen_by L.seen self.new.conn.now) (turn_of count_turn result) }
        ensures over { is_over self.new.request self.new.conn.now.call ≡ ends_call (turn_of count_turn result) }
        ensures calling { IsCalling (kinds.Run hows.ExecuteMany) (begun_by self.old.request self.old.conn.now) → PollFits (kinds.Run hows.ExecuteMany) self.new.conn.now (turn_of count_turn result) }
    {
        match self.conn.poll_with(&mut self.request) {
            Poll::Pending => Poll::Pending,
            Poll::Ready(turn) => Poll::Ready(turn.into_count()),
        }
    }
}
