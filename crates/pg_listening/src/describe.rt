//! The call `describe` of a listener.
ghost use Rattle.std.specs.Prelude.{◌≡◌, ◌≤◌, false, [], None, Some};
ghost use Rattle.pg_call.specs.declared.kind.How.TheVariants as hows;
ghost use Rattle.pg_call.specs.declared.kind.Kind.TheVariants as kinds;
ghost use Rattle.pg_conn.specs.States.{to_prepare, untyped};
ghost use Rattle.pg_listening.specs.Hearing.{HearsBy};
ghost use Rattle.pg_listening.specs.Querying.{IsQuerying};
ghost use Rattle.pg_listening.specs.Waiting.{NotesBy};
ghost use Rattle.pg_listening.specs.Describing.{DescribesIn, GoesOn, IsDescribing, PollsNulls, PollsPrepare, StaysDescribing};
ghost use Rattle.pg_listening.specs.Listeners.{is_answered};

use crate::answering::is_answered;
use crate::{ConnectionSource, Listener, PgListener};
use pg_call::Request;
use pg_conn::{PgStatement, Preparation, prepare_request};
use pg_describe::Describe;
use pg_describe::telling::hear;
use pg_nullable::nulls_query;
use pg_wire::{Error, Poll, Text};
use std::sync::Wait;

/// The state of `PgListener::describe`, which is made of two calls. It does nothing before its first poll. Dropped before its end it leaves the listener as it
/// stands, and what was read of notifications is buffered.
pub type Describing<'l, G, P, S, D> = DescribingBy<
    'l,
    PgListener<G, P, S, D>,
    Request,
    PgStatement,
>;

/// That state, over whatever listens.
pub struct DescribingBy<'l, W, Q, T> {
    listener: &'l mut W,
    request: Option<Q>,
    // The statement, once it is prepared.
    told: Option<T>,
    is_over: bool,
}

impl<W, Q: Drop, T: Drop> Drop for DescribingBy<'_, W, Q, T> {
    fn drop(self)
        ensures { self.exit.0.now ≡ self.entry.listener.now }
    {
        let DescribingBy {
            listener: _,
            request,
            told,
            is_over: _,
        } = self;
        drop(request);
        drop(told);
    }
}

impl<W, Q, T> DescribingBy<'_, W, Q, T> {
    /// Whether a poll has ended the call.
    pub fn is_finished(&self) -> bool
        ensures { result ≡ self.now.is_over }
    {
        self.is_over
    }
}

impl<B: ConnectionSource> Listener<B> {
    /// Describes a statement in full: what `prepare_with` tells of it, and of each column whether it may be null, which the catalog is asked for. More than 21845
    /// columns are `TooMany` behind the preparation, which stands. It takes up a connection where none is held. An error of the link is answered, and no loss:
    /// that is told by the next call of `try_recv`. (PostgreSQL manual, "Message Flow", "Extended Query"; "System Catalogs", pg_attribute.)
    pub fn describe(&mut self, sql: Text) -> DescribingBy<'_, Self, Request, PgStatement>
        ensures same { result.listener.ghost_name ≡ self.entry.ghost_name }
        ensures listener { result.listener.now ≡ self.old }
        ensures request { result.request ≡ Some (to_prepare (untyped sql)) }
        ensures told { result.told ≡ None }
        ensures over { result.is_over ≡ false }
    {
        let alloc = self.allocator();
        let request = prepare_request(alloc, Preparation::untyped(alloc, sql));
        DescribingBy {
            listener: self,
            request: Some(request),
            told: None,
            is_over: false,
        }
    }
}

impl<B: ConnectionSource> DescribingBy<'_, Listener<B>, Request, PgStatement>
where
    B::L: Drop,
{
    // One poll of the query on nulls, of a statement that is prepared.
    fn poll_nulls<R: Wait>(
        &mut self,
        rt: &R,
        statement: PgStatement,
        left: &mut u16,
    ) -> Poll<Result<Describe, Error>>
        requires left { left.old ≤ 256 }
        requires querying { IsQuerying B.Held.conn (kinds.Run hows.FetchAll) self.old.request self.old.listener.now.hearing }
        ensures same { self.new.listener.ghost_name ≡ self.old.listener.ghost_name }
        ensures hears { HearsBy B.L.seen B.Held.conn self.old.listener.now.hearing self.new.listener.now.hearing [] }
        ensures channels { self.new.listener.now.hearing.listening.channels ≡ self.old.listener.now.hearing.listening.channels }
        ensures left { left.new ≤ left.old }
        ensures nulls { PollsNulls B.L.seen B.Held.conn B.Held.with_conn B.filling B.now left.old left.new statement self.old.request self.new.request self.old.listener.now self.new.listener.now result self.new.told }
        ensures stays { StaysDescribing B.Held.conn self.new.told self.new.request self.new.listener.now.hearing result }
        ensures closed { NotesBy B.L (B.now self.old.listener.now.source).most (B.now self.new.listener.now.source).seat result }
    {
        let answer = self.listener.poll_query(rt, &mut self.request, left);
        let (answer, told) = hear(self.listener.allocator(), statement, answer);
        self.told = told;
        answer
    }

    // The first poll of the query on nulls, behind the preparation. Where there is no column, nothing is asked.
    fn go_on<R: Wait>(
        &mut self,
        rt: &R,
        statement: PgStatement,
        left: &mut u16,
    ) -> Poll<Result<Describe, Error>>
        requires left { left.old ≤ 256 }
        requires told { self.old.told ≡ None }
        requires asked { self.old.request ≡ None }
        ensures same { self.new.listener.ghost_name ≡ self.old.listener.ghost_name }
        ensures hears { HearsBy B.L.seen B.Held.conn self.old.listener.now.hearing self.new.listener.now.hearing [] }
        ensures channels { self.new.listener.now.hearing.listening.channels ≡ self.old.listener.now.hearing.listening.channels }
        ensures left { left.new ≤ left.old }
        ensures goes { GoesOn B.L.seen B.Held.conn B.Held.with_conn B.filling B.now left.old left.new statement self.new.request self.old.listener.now self.new.listener.now result self.new.told }
        ensures stays { StaysDescribing B.Held.conn self.new.told self.new.request self.new.listener.now.hearing result }
        ensures closed { NotesBy B.L (B.now self.old.listener.now.source).most (B.now self.new.listener.now.source).seat result }
    {
        let alloc = self.listener.allocator();
        match nulls_query(alloc, statement.columns()) {
            Ok(Some(query)) => {
                self.request = Some(Request::FetchAll(query));
                self.poll_nulls(rt, statement, left)
            }
            Ok(None) => Poll::Ready(Ok(Describe::new(statement, Vec::new(alloc)))),
            Err(e) => Poll::Ready(Err(e)),
        }
    }

    // One poll of the preparation, and of what comes behind it.
    fn poll_prepare<R: Wait>(&mut self, rt: &R, left: &mut u16) -> Poll<Result<Describe, Error>>
        requires left { left.old ≤ 256 }
        requires told { self.old.told ≡ None }
        requires querying { IsQuerying B.Held.conn kinds.Prepare self.old.request self.old.listener.now.hearing }
        ensures same { self.new.listener.ghost_name ≡ self.old.listener.ghost_name }
        ensures hears { HearsBy B.L.seen B.Held.conn self.old.listener.now.hearing self.new.listener.now.hearing [] }
        ensures channels { self.new.listener.now.hearing.listening.channels ≡ self.old.listener.now.hearing.listening.channels }
        ensures left { left.new ≤ left.old }
        ensures prepares { PollsPrepare B.L.seen B.Held.conn B.Held.with_conn B.filling B.now left.old left.new self.old.request self.new.request self.old.listener.now self.new.listener.now result self.new.told }
        ensures stays { StaysDescribing B.Held.conn self.new.told self.new.request self.new.listener.now.hearing result }
        ensures closed { NotesBy B.L (B.now self.old.listener.now.source).most (B.now self.new.listener.now.source).seat result }
    {
        match self.listener.poll_query(rt, &mut self.request, left) {
            Poll::Pending => Poll::Pending,
            Poll::Ready(turn) => match self.listener.statement_told(turn) {
                Ok(statement) => self.go_on(rt, statement, left),
                Err(e) => Poll::Ready(Err(e)),
            },
        }
    }

    /// Moves the call on, by at most 256 calls of the link. A row of the catalog without a truth value is `ColumnDecode` with the place 0.
    pub fn poll<R: Wait>(&mut self, rt: &R) -> Poll<Result<Describe, Error>>
        requires over { self.old.is_over ≡ false }
        requires calling { IsDescribing B.Held.conn self.old.told self.old.request self.old.listener.now.hearing }
        ensures over { self.new.is_over ≡ is_answered result }
        ensures same { self.new.listener.ghost_name ≡ self.old.listener.ghost_name }
        ensures hears { HearsBy B.L.seen B.Held.conn self.old.listener.now.hearing self.new.listener.now.hearing [] }
        ensures channels { self.new.listener.now.hearing.listening.channels ≡ self.old.listener.now.hearing.listening.channels }
        ensures describes { DescribesIn B.L.seen B.Held.conn B.Held.with_conn B.filling B.now self.old.told self.old.request self.new.request self.old.listener.now self.new.listener.now result self.new.told }
        ensures calling { StaysDescribing B.Held.conn self.new.told self.new.request self.new.listener.now.hearing result }
        ensures closed { NotesBy B.L (B.now self.old.listener.now.source).most (B.now self.new.listener.now.source).seat result }
    {
        let mut left = 256;
        match self.told.take() {
            Some(statement) => {
                let answer = self.poll_nulls(rt, statement, &mut left);
                self.is_over = is_answered(&answer);
                answer
            }
            None => {
                let answer = self.poll_prepare(rt, &mut left);
                self.is_over = is_answered(&answer);
                answer
            }
        }
    }
}
