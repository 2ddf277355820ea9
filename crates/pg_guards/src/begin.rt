ghost use Rattle.std.specs.Prelude.{◌≡◌, true, false, None, Some, IsSome, option_map, Err};
ghost use Rattle.futures.specs.declared.task.Poll.TheVariants.{Ready};
ghost use Rattle.pg_conn.specs.Connections.{left_by};
ghost use Rattle.pg_conn.specs.States.{is_ready};
ghost use Rattle.pg_guards.specs.Holders.{IsBeginning, KeepsBeginning, PollsBegin, StaysBeginning, is_done, is_misplaced};

use crate::holding::{leave, poll_held};
use crate::{PgExecutor, Transaction};
use pg_conn::{Query, Request};
use pg_wire::{Error, Poll};

/// The state of `Transaction::begin` and `Transaction::begin_with`, which owns what holds the connection until it hands the guard on. It does nothing
/// before its first poll. Where the begin is refused, or the state dropped, no transaction stays open: a ROLLBACK is queued behind a begin that
/// was sent. (PostgreSQL manual, "SQL Commands", BEGIN, SAVEPOINT.)
pub struct BeginTransaction<C: PgExecutor> {
    pub(crate) conn: Option<C>,
    pub(crate) request: Option<Request>,
    pub(crate) is_refused: bool,
    ghost calling: { KeepsBeginning C.conn request conn },
}

// Whether a savepoint would be opened by a text.
fn is_misplaced(request: &Option<Request>, depth: u64) -> bool
    ensures { result ≡ is_misplaced request.now depth }
{
    match request {
        Some(Request::BeginWith(_)) => depth > 0,
        _ => false,
    }
}

impl<C: PgExecutor> BeginTransaction<C> {
    /// Whether a poll has ended the call.
    pub fn is_finished(&self) -> bool
        ensures { result ≡ is_done C.conn self.now.is_refused self.now.request self.now.conn }
    {
        match &self.conn {
            Some(conn) => {
                self.is_refused || (self.request.is_none() && !conn.conn_ref().is_running())
            }
            None => true,
        }
    }

    // Whether the text is refused, since a transaction is open.
    fn is_misplaced(&self) -> bool
        ensures { (c : C) → self.now.conn ≡ Some c → result ≡ is_misplaced self.now.request (C.conn c).rule.depth }
    {
        match &self.conn {
            Some(conn) => is_misplaced(&self.request, conn.conn_ref().transaction_depth()),
            None => false,
        }
    }

    // Hands the guard on.
    fn hand_on(&mut self) -> Transaction<C>
        requires { IsSome self.old.conn }
        ensures guard { self.old.conn ≡ Some result.conn }
        ensures conn { self.new.conn ≡ None }
        ensures request { self.new.request ≡ self.old.request }
        ensures refused { self.new.is_refused ≡ self.old.is_refused }
    {
        match self.conn.take() {
            Some(conn) => Transaction::over(conn),
            None => unreachable!(),
        }
    }

    // One poll of a begin that is not refused for its text.
    fn poll_begin(&mut self) -> Poll<Result<Transaction<C>, Error>>
        requires over { is_done C.conn self.old.is_refused self.old.request self.old.conn ≡ false }
        ensures asked { self.new.request ≡ None }
        ensures refused { self.new.is_refused ≡ self.old.is_refused }
        ensures polls { (c : C) → self.old.conn ≡ Some c → PollsBegin C.conn C.with_conn C.L.seen (λ guard. guard.conn) self.old.request c self.new.conn result }
        ensures over { is_done C.conn self.new.is_refused self.new.request self.new.conn ≡ is_ready result }
        ensures calling { IsBeginning C.conn self.old.request self.old.conn → StaysBeginning C.conn self.new.request self.new.conn result }
    {
        let Some(conn) = &mut self.conn else {
            unreachable!()
        };
        match poll_held(conn, &mut self.request) {
            Poll::Pending => Poll::Pending,
            Poll::Ready(Err(e)) => Poll::Ready(Err(e)),
            Poll::Ready(Ok(())) => Poll::Ready(Ok(self.hand_on())),
        }
    }

    // Refuses its text.
    fn refuse(&mut self) -> Poll<Result<Transaction<C>, Error>>
        ensures conn { self.new.conn ≡ self.old.conn }
        ensures request { self.new.request ≡ self.old.request }
        ensures refused { self.new.is_refused ≡ true }
        ensures answer { result ≡ Ready (Err Error.InvalidSavePointStatement) }
    {
        self.is_refused = true;
        Poll::Ready(Err(Error::InvalidSavePointStatement))
    }

    /// Moves the call on, and hands the guard on at its end. A begin by a text where a transaction is open is refused by its first poll with
    /// `Error::InvalidSavePointStatement`, and nothing else is done: a savepoint has no text of its own.
    pub fn poll(&mut self) -> Poll<Result<Transaction<C>, Error>>
        requires over { is_done C.conn self.old.is_refused self.old.request self.old.conn ≡ false }
        ensures refuses { (c : C) → self.old.conn ≡ Some c → is_misplaced self.old.request (C.conn c).rule.depth ≡ true → (self.new.conn ≡ Some c) × (self.new.request ≡ self.old.request) × (self.new.is_refused ≡ true) × (result ≡ Ready (Err Error.InvalidSavePointStatement)) }
        ensures asked { (c : C) → self.old.conn ≡ Some c → is_misplaced self.old.request (C.conn c).rule.depth ≡ false → (self.new.request ≡ None) × (self.new.is_refused ≡ self.old.is_refused) }
        ensures polls { (c : C) → self.old.conn ≡ Some c → is_misplaced self.old.request (C.conn c).rule.depth ≡ false → PollsBegin C.conn C.with_conn C.L.seen (λ guard. guard.conn) self.old.request c self.new.conn result }
        ensures over { is_done C.conn self.new.is_refused self.new.request self.new.conn ≡ is_ready result }
        ensures calling { IsBeginning C.conn self.old.request self.old.conn → StaysBeginning C.conn self.new.request self.new.conn result }
    {
        if self.is_misplaced() {
            return self.refuse();
        }
        self.poll_begin()
    }

    /// Hands back what holds the connection, as the drop of the state leaves it: a call that runs is given up. It is gone exactly where a poll has
    /// handed the guard on.
    pub fn into_conn(self) -> Option<C>
        ensures { result ≡ option_map (λ c. C.with_conn c (left_by self.request (C.conn c))) self.conn }
    {
        let BeginTransaction {
            conn,
            request,
            is_refused: _,
        } = self;
        match conn {
            Some(conn) => Some(leave(conn, request)),
            None => None,
        }
    }
}

impl<C: PgExecutor + Drop> Drop for BeginTransaction<C> {
    fn drop(self) {
        let conn = self.into_conn();
        let _ = conn;
    }
}
