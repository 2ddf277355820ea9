//! A session that is opened for one call.

ghost use Rattle.std.specs.Prelude.{◌≡◌, ◌≤◌, None, Some, Result, option_copied, option_map};
ghost use Rattle.pg_wire.specs.declared.error.Error as declared_error;
ghost use Rattle.pg_call.specs.declared.kind.Kind as declared_kind;
ghost use Rattle.pg_conn.specs.Connections.{started_call};
ghost use Rattle.pg_migrating.specs.Sessions.{ConnRuns, Goes, GoesOn, IsGoing, IsNewSession, OpensSession, PollsSession, StartGoes, Stands, Tells, is_over, without_conn};
ghost use Rattle.pg_migrating.specs.declared.errand.Errand as declared_errand;

use crate::demand::Demand;
use crate::errand::Errand;
use crate::opening::{Connected, Sessions};
use pg_call::Turn;
use pg_guards::{PgExecutor, holding};
use pg_wire::{Error, Poll};
use std::alloc::Global;
use std::marker::Model;

/// A session on its way: what has no connection yet, or its connection, on which the call runs. Once it has ended, neither is there.
pub(crate) struct Session<S, C: PgExecutor> {
    start: Option<S>,
    conn: Option<C>,
}

/// The session of a dial.
pub(crate) type SessionOf<D> = Session<<D as Sessions>::Start, <D as Sessions>::Conn>;

impl<S, C: PgExecutor> Model for Session<S, C> {
    ghost use Rattle.std.specs.Prelude.{option_map};
    ghost use Rattle.pg_migrating.specs.Sessions.{SessionSeen};

    ghost Value = { SessionSeen S C.L };

    ghost view = { λ s. record { start = s.start; conn = option_map C.conn s.conn } };
}

// By hand, so that whoever lets one go makes one call.
impl<S: Drop, C: PgExecutor + Drop> Drop for Session<S, C> {
    fn drop(self) {
        let Session { start, conn } = self;
        drop(start);
        drop(conn);
    }
}

impl<S, C: PgExecutor> Session<S, C> {
    /// What holds the connection, once the start-up has come to it.
    pub(crate) fn conn(&self) -> Option<&C>
        ensures { option_map C.conn (option_copied result) ≡ self.now.conn }
    {
        self.conn.as_ref()
    }

    /// Whether nothing is left to be polled.
    pub(crate) fn is_over(&self) -> bool
        ensures { result ≡ is_over self.now }
    {
        self.start.is_none() && self.conn.is_none()
    }

    /// Begins another call on the connection, behind one that has ended.
    pub(crate) fn ask(&mut self, demand: Demand)
        ensures { self.new ≡ record self.old { conn = option_map (started_call demand) self.old.conn } }
    {
        match &mut self.conn {
            Some(conn) => holding::start(conn, demand.into_request()),
            None => drop(demand),
        }
    }

    /// Moves the call on that runs on the connection.
    pub(crate) fn poll_call(&mut self, left: &mut u16) -> Poll<Turn>
        requires runs { ConnRuns self.old.conn }
        requires left { left.old ≤ 256 }
        ensures left { left.new ≤ left.old }
        ensures polls { PollsSession C.L.seen left.old self.old.conn self.old self.new result }
    {
        match &mut self.conn {
            Some(conn) => holding::poll_within(conn, left),
            None => unreachable!(),
        }
    }
}

impl<S: Drop, C: PgExecutor + Drop> Session<S, C> {
    /// Lets the connection go.
    pub(crate) fn close(&mut self)
        ensures { self.new ≡ without_conn self.old }
    {
        self.conn = None;
    }
}

/// A session for an errand, or for why there is none.
pub(crate) fn session_for<D: Sessions>(errand: Result<Errand, Error>) -> SessionOf<D>
    ensures { IsNewSession D.opens errand result }
{
    Session {
        start: Some(D::new_session(errand)),
        conn: None,
    }
}

// Opens it further, where it has no connection yet.
fn connect<D: Sessions>(
    alloc: Global,
    session: &mut SessionOf<D>,
    dial: &mut D,
    left: &mut u16,
) -> Poll<Result<(), Error>>
    requires goes { StartGoes D.opens session.old.start }
    requires left { left.old ≤ 256 }
    ensures left { left.new ≤ left.old }
    ensures connects { OpensSession D.L.seen D.opens session.old.start session.old session.new dial.old dial.new result }
{
    match session.start.take() {
        None => Poll::Ready(Ok(())),
        Some(start) => match dial.open_session(alloc, start, left) {
            Connected::Waits(start) => {
                session.start = Some(start);
                Poll::Pending
            }
            Connected::Opens(conn) => {
                session.conn = Some(conn);
                Poll::Ready(Ok(()))
            }
            Connected::Fails(e) => Poll::Ready(Err(e)),
        },
    }
}

/// Moves a session on, within so many calls of the link, which it takes off: it is opened over the dial, and then its call is polled.
pub(crate) fn poll<D: Sessions>(
    alloc: Global,
    session: &mut SessionOf<D>,
    dial: &mut D,
    left: &mut u16,
) -> Poll<Turn>
    requires left { left.old ≤ 256 }
    requires goes { IsGoing D.opens session.old }
    ensures left { left.new ≤ left.old }
    ensures goes { (kind : declared_kind.Kind) → Goes D.opens kind session.old → GoesOn D.opens kind session.new result }
    ensures tells { (asked : Result declared_errand.Errand declared_error.Error) (first : D) → Stands D.L.seen D.opens asked first session.old dial.old → Tells D.L.seen D.opens asked first session.new dial.new result }
{
    match connect(alloc, session, dial, left) {
        Poll::Ready(Ok(())) => session.poll_call(left),
        Poll::Ready(Err(e)) => Poll::Ready(Turn::Err(e)),
        Poll::Pending => Poll::Pending,
    }
}
