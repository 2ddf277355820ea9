ghost use Rattle.std.specs.Prelude.{◌≡◌, true, false, None, Some};
ghost use Rattle.pg_call.specs.Answers.{unit_turn};
ghost use Rattle.pg_conn.specs.Connections.{begun_by, is_over, seen_by};
ghost use Rattle.pg_conn.specs.States.{IsCallingPlainly, KeepsCallingPlainly, PollFitsPlainly, ends_call, turn_of};
ghost use Rattle.pg_conn.specs.Turns.{PollsCall};
ghost use Rattle.pg_guards.specs.Holders.{left_due, stays_due};

use crate::PgExecutor;
use crate::holding::{poll_held, roll_back};
use pg_conn::Request;
use pg_wire::{Error, Poll};

/// The state of `Transaction::commit` and `Transaction::rollback`, which owns what holds the connection. It does nothing before its first poll.
/// Until it has answered Ok the transaction is still open: where the state is dropped before, it rolls back what the guard had opened, once, as the
/// guard would have. Behind an Ok it does nothing more.
///
/// A commit of a savepoint that was sent, and is dropped before its answer, is followed by a rollback to that savepoint. If it was released by then, the
/// server refuses that, and the transaction around it is aborted. (PostgreSQL manual, "SQL Commands", ROLLBACK TO SAVEPOINT.)
pub struct EndTransaction<C: PgExecutor> {
    pub(crate) conn: C,
    pub(crate) request: Option<Request>,
    pub(crate) is_due: bool,
    ghost calling: { KeepsCallingPlainly request (C.conn conn) },
}

// Whether a rollback stays due behind this answer.
fn stays_due(is_due: bool, answer: &Poll<Result<(), Error>>) -> bool
    ensures { result ≡ stays_due is_due answer.now }
{
    match answer {
        Poll::Pending | Poll::Ready(Err(_)) => is_due,
        Poll::Ready(Ok(())) => false,
    }
}

impl<C: PgExecutor> EndTransaction<C> {
    /// Whether a poll has ended the call.
    pub fn is_finished(&self) -> bool
        ensures { result ≡ is_over self.now.request (C.conn self.now.conn).call }
    {
        self.request.is_none() && !self.conn.conn_ref().is_running()
    }

    /// Moves the call on.
    pub fn poll(&mut self) -> Poll<Result<(), Error>>
        requires over { is_over self.old.request (C.conn self.old.conn).call ≡ false }
        ensures holder { self.new.conn ≡ C.with_conn self.old.conn (C.conn self.new.conn) }
        ensures asked { self.new.request ≡ None }
        ensures due { self.new.is_due ≡ stays_due self.old.is_due result }
        ensures polls { PollsCall (seen_by C.L.seen (begun_by self.old.request (C.conn self.old.conn))) (seen_by C.L.seen (C.conn self.new.conn)) (turn_of unit_turn result) }
        ensures over { is_over self.new.request (C.conn self.new.conn).call ≡ ends_call (turn_of unit_turn result) }
        ensures calling { IsCallingPlainly (begun_by self.old.request (C.conn self.old.conn)) → PollFitsPlainly (C.conn self.new.conn) (turn_of unit_turn result) }
    {
        let answer = poll_held(&mut self.conn, &mut self.request);
        self.is_due = stays_due(self.is_due, &answer);
        answer
    }

    /// Hands back what holds the connection, as the drop of the state leaves it: where no poll has answered Ok, the call is given up, and what the
    /// guard had opened is rolled back without waiting. (PostgreSQL manual, "SQL Commands", ROLLBACK, ROLLBACK TO SAVEPOINT.)
    pub fn into_conn(self) -> C
        ensures { result ≡ C.with_conn self.conn (left_due self.is_due (C.conn self.conn)) }
    {
        let EndTransaction {
            conn,
            request,
            is_due,
        } = self;
        drop(request);
        if is_due { roll_back(conn) } else { conn }
    }
}

impl<C: PgExecutor + Drop> Drop for EndTransaction<C> {
    fn drop(self) {
        let conn = self.into_conn();
        let _ = conn;
    }
}
