ghost use Rattle.std.specs.Prelude.{◌≡◌, ◌<◌, false, None, Some, IfOk, OnOk, IfErr, option_map};
ghost use Rattle.pg_request.specs.Queries.{plain_text};
ghost use Rattle.pg_call.specs.Answers.{unit_turn};
ghost use Rattle.pg_conn.specs.Connections.{seen_by, begun_by, is_over, left_by};
ghost use Rattle.pg_conn.specs.States.{IsCallingPlainly, KeepsCallingPlainly, PollFitsPlainly, ends_call, turn_of};
ghost use Rattle.pg_conn.specs.Turns.{PollsCall};

use crate::{Asks, PgConnection, Query, Request};
use pg_call::Kind;
use pg_stream::Link;
use pg_wire::{Error, Poll, Text};

/// The calls `begin` and `begin_with`: they end once a transaction or a savepoint is open. A begin that is dropped or refused leaves no transaction
/// open. (PostgreSQL manual, "SQL Commands", BEGIN, SAVEPOINT.)
pub struct Begin<'c, L, R: Asks = Request> {
    conn: &'c mut PgConnection<L>,
    request: Option<R>,
    ghost calling: { KeepsCallingPlainly (option_map R.asked request) conn.now },
}

impl<L> PgConnection<L> {
    /// Opens a transaction, or a savepoint where one is open.
    pub fn begin(&mut self) -> Begin<'_, L>
        ensures same { result.conn.ghost_name ≡ self.entry.ghost_name }
        ensures conn { result.conn.now ≡ self.old }
        ensures request { result.request ≡ Some (Request.Begin self.old.rule.depth) }
        ensures calling { IsCallingPlainly (begun_by result.request result.conn.now) }
    {
        let request = Request::Begin(self.transaction_depth());
        Begin {
            conn: self,
            request: Some(request),
        }
    }

    /// Opens a transaction by this text. Where one is open it is refused, since a savepoint has no text of its own.
    pub fn begin_with(&mut self, sql: Text) -> Result<Begin<'_, L>, Error>
        ensures same { IfOk result (λ call. call.conn.ghost_name ≡ self.entry.ghost_name) }
        ensures conn { IfOk result (λ call. call.conn.now ≡ self.old) }
        ensures request { IfOk result (λ call. call.request ≡ Some (Request.BeginWith (plain_text sql))) }
        ensures calling { IfOk result (λ call. IsCallingPlainly (begun_by call.request call.conn.now)) }
        ensures outside { OnOk result (self.old.rule.depth ≡ 0) }
        ensures err { IfErr result (λ e. (e ≡ Error.InvalidSavePointStatement) × (0 < self.old.rule.depth)) }
    {
        if self.transaction_depth() > 0 {
            return Err(Error::InvalidSavePointStatement);
        }
        Ok(Begin {
            conn: self,
            request: Some(Request::BeginWith(Query::from_text(sql))),
        })
    }
}

impl<L, R: Asks + Drop> Drop for Begin<'_, L, R> {
    fn drop(self)
        ensures { self.exit.0.now ≡ left_by self.entry.request self.entry.conn.now }
    {
        let Begin { conn, request } = self;
        conn.leave(request);
    }
}

impl<L> Begin<'_, L> {
    /// Whether a poll has ended the call.
    pub fn is_finished(&self) -> bool
        ensures { result ≡ is_over self.now.request self.now.conn.now.call }
    {
        self.request.is_none() && !self.conn.is_running()
    }
}

impl<L: Link> Begin<'_, L> {
    /// Moves the call on.
    pub fn poll(&mut self) -> Poll<Result<(), Error>>
        requires over { is_over self.old.request self.old.conn.now.call ≡ false }
        ensures same { self.new.conn.ghost_name ≡ self.old.conn.ghost_name }
        ensures asked { self.new.request ≡ None }
        ensures polls { PollsCall (seen_by L.seen (begun_by self.old.request self.old.conn.now)) (seen_by L.seen self.new.conn.now) (turn_of unit_turn result) }
        ensures over { is_over self.new.request self.new.conn.now.call ≡ ends_call (turn_of unit_turn result) }
        ensures calling { IsCallingPlainly (begun_by self.old.request self.old.conn.now) → PollFitsPlainly self.new.conn.now (turn_of unit_turn result) }
    {
        match self.conn.poll_with(&mut self.request) {
            Poll::Pending => Poll::Pending,
            Poll::Ready(turn) => Poll::Ready(turn.into_unit(Kind::Flush)),
        }
    }
}
