//! One call on what holds a connection.

ghost use Rattle.std.specs.Prelude.{◌≡◌, ◌≤◌, true, None, Some, Result};
ghost use Rattle.pg_wire.specs.declared.error.Error as declared_error;
ghost use Rattle.pg_call.specs.declared.kind.Kind as declared_kind;
ghost use Rattle.pg_call.specs.declared.request.Request as declared_request;
ghost use Rattle.pg_conn.specs.Connections.{ConnOf};
ghost use Rattle.pg_conn.specs.States.{PollFits};
ghost use Rattle.pg_migrating.specs.Asking.{CallsFor, CallsQuietly, StandsAt, StaysQuiet, Tells, TellsEnd, is_asked, left_of};

use crate::demand::Demand;
use pg_call::Turn;
use pg_guards::{PgExecutor, holding};
use pg_wire::{Error, Poll};

/// What a call asks, or why there is no request for that.
pub type Question = Result<Demand, Error>;

/// A call on what is held, which does nothing before its first poll. Its question is a parameter, since what doesn't look at it is cheaper to prove so.
pub(crate) struct Asking<C: PgExecutor, Q> {
    pub(crate) conn: C,
    pub(crate) question: Option<Q>,
}

impl<C: PgExecutor, Q> Asking<C, Q> {
    /// Whether it is still to be polled.
    pub(crate) fn is_asked(&self) -> bool
        ensures { result ≡ is_asked self.now.question (C.conn self.now.conn).call }
    {
        self.question.is_some() || self.conn.conn_ref().is_running()
    }
}

impl<C: PgExecutor, Q: Drop> Asking<C, Q> {
    /// Another call comes behind one that has ended.
    pub(crate) fn ask(&mut self, question: Q)
        ensures { self.new ≡ record { conn = self.old.conn; question = Some question } }
    {
        drop(self.question.replace(question));
    }

    /// Hands back what holds the connection: a call that runs is given up, and what was opened is rolled back where that is due.
    pub(crate) fn into_conn(self, is_open: bool) -> C
        ensures { result ≡ C.with_conn self.conn (left_of is_open self.question (C.conn self.conn)) }
    {
        let Asking { mut conn, question } = self;
        let is_begun = question.is_none();
        drop(question);
        if is_open {
            holding::start_rollback(&mut conn);
            return conn;
        }
        if is_begun {
            holding::abandon(&mut conn);
            return conn;
        }
        conn
    }
}

impl<C: PgExecutor> Asking<C, Question> {
    /// Moves the call on, within so many calls of the link, which it takes off. It begins the call where it was not, or tells why it can't be asked.
    pub(crate) fn poll(&mut self, left: &mut u16) -> Poll<Turn>
        requires asked { is_asked self.old.question (C.conn self.old.conn).call ≡ true }
        requires left { left.old ≤ 256 }
        ensures holder { self.new.conn ≡ C.with_conn self.old.conn (C.conn self.new.conn) }
        ensures question { self.new.question ≡ None }
        ensures left { left.new ≤ left.old }
        ensures tells { (asked : Result declared_request.Request declared_error.Error) (first : ConnOf C.L) → StandsAt C.L.seen asked first self.old.question (C.conn self.old.conn) → Tells C.L.seen asked first (C.conn self.new.conn) result }
        ensures fits { (kind : declared_kind.Kind) → CallsFor kind self.old.question (C.conn self.old.conn) → PollFits kind (C.conn self.new.conn) result }
    {
        match self.question.take() {
            None => holding::poll_within(&mut self.conn, left),
            Some(Ok(demand)) => {
                holding::start(&mut self.conn, demand.into_request());
                holding::poll_within(&mut self.conn, left)
            }
            Some(Err(e)) => {
                holding::abandon(&mut self.conn);
                Poll::Ready(Turn::Err(e))
            }
        }
    }

    /// The same of a call that shows no items.
    pub(crate) fn poll_end(&mut self, left: &mut u16) -> Poll<Result<(), Error>>
        requires asked { is_asked self.old.question (C.conn self.old.conn).call ≡ true }
        requires left { left.old ≤ 256 }
        requires quiet { CallsQuietly self.old.question (C.conn self.old.conn) }
        ensures holder { self.new.conn ≡ C.with_conn self.old.conn (C.conn self.new.conn) }
        ensures question { self.new.question ≡ None }
        ensures left { left.new ≤ left.old }
        ensures tells { (asked : Result declared_request.Request declared_error.Error) (first : ConnOf C.L) → StandsAt C.L.seen asked first self.old.question (C.conn self.old.conn) → TellsEnd C.L.seen asked first (C.conn self.new.conn) result }
        ensures quiet { StaysQuiet (C.conn self.new.conn) result }
    {
        match self.poll(left) {
            Poll::Pending => Poll::Pending,
            Poll::Ready(turn) => match turn {
                Turn::Ok(_) => Poll::Ready(Ok(())),
                Turn::Err(e) => Poll::Ready(Err(e)),
                Turn::Item(_) | Turn::Opened(_) => unreachable!(),
            },
        }
    }
}
