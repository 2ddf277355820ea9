//! What a caller knows of a connection once a guard or a state that held it is given up: each law as the contract of the shortest user.
ghost use Rattle.std.specs.Prelude.{◌≡◌, true, IsSome, Some};
ghost use Rattle.pg_request.specs.Queries.{plain_text};
ghost use Rattle.pg_call.specs.Answers.{piece_turn, unit_turn};
ghost use Rattle.pg_call.specs.declared.request.Request.TheVariants as requests;
ghost use Rattle.pg_conn.specs.Connections.{ConnOf, commit_of, left, left_by, rolled_back, seen_by, started_call};
ghost use Rattle.pg_conn.specs.States.{turn_of};
ghost use Rattle.pg_conn.specs.Turns.{PollsCall};
ghost use Rattle.pg_guards.specs.Holders.{given_up, left_due, stays_due};

use crate::{BeginTransaction, PgExecutor, Transaction, copy_out_raw};
use pg_conn::PgConnection;
use pg_stream::Link;
use pg_wire::{Blob, Error, Poll, Text};

/// A begin that is never polled leaves a connection that was lent to it as it was.
pub fn a_begin_that_is_never_polled<L: Link>(conn: &mut PgConnection<L>)
    ensures { conn.new ≡ conn.old }
{
    match Transaction::begin(conn).into_conn() {
        Some(_conn) => {}
        None => {}
    }
}

/// The same of a savepoint in a transaction.
pub fn a_savepoint_that_is_never_polled<C: PgExecutor>(guard: &mut Transaction<C>)
    ensures { guard.new ≡ guard.old }
{
    match Transaction::begin(guard).into_conn() {
        Some(_guard) => {}
        None => {}
    }
}

/// A commit that is never polled does what the guard's drop does.
pub fn a_commit_that_is_never_polled<C: PgExecutor>(guard: Transaction<C>) -> C
    ensures { result ≡ C.with_conn guard.conn (rolled_back (C.conn guard.conn)) }
{
    guard.commit().into_conn()
}

/// A commit that is given up behind its first poll: the connection is what that poll has left of it, and is rolled back where the answer was not Ok.
pub fn a_commit_that_is_polled_once<C: PgExecutor>(
    guard: Transaction<C>,
) -> (C, Poll<Result<(), Error>>)
    ensures { (b : ConnOf C.L) × PollsCall (seen_by C.L.seen (started_call (commit_of (C.conn guard.conn).rule.depth) (C.conn guard.conn))) (seen_by C.L.seen b) (turn_of unit_turn result.1) × (result.0 ≡ C.with_conn guard.conn (left_due (stays_due true result.1) b)) }
{
    let mut state = guard.commit();
    let answer = state.poll();
    (state.into_conn(), answer)
}

// What a begin holds that has not handed the guard on.
fn held<C: PgExecutor>(state: BeginTransaction<C>) -> C
    requires { IsSome state.conn }
    ensures { (c : C) → state.conn ≡ Some c → result ≡ C.with_conn c (left_by state.request (C.conn c)) }
{
    match state.into_conn() {
        Some(conn) => conn,
        None => unreachable!(),
    }
}

/// A begin that is polled once, and given up with what it answers: the connection is what that poll has left of it, and is rolled back behind an Ok.
pub fn a_transaction_that_is_given_up<C: PgExecutor>(conn: C) -> (C, Poll<Result<(), Error>>)
    ensures { (b : ConnOf C.L) × PollsCall (seen_by C.L.seen (started_call (requests.Begin (C.conn conn).rule.depth) (C.conn conn))) (seen_by C.L.seen b) (turn_of unit_turn result.1) × (result.0 ≡ C.with_conn conn (given_up result.1 b)) }
{
    let mut state = Transaction::begin(conn);
    match state.poll() {
        Poll::Ready(Ok(guard)) => {
            match state.into_conn() {
                Some(_conn) => unreachable!(),
                None => {}
            }
            (guard.into_conn(), Poll::Ready(Ok(())))
        }
        Poll::Ready(Err(e)) => (held(state), Poll::Ready(Err(e))),
        Poll::Pending => (held(state), Poll::Pending),
    }
}

/// A copy to the client that is polled once, and given up with what it answers: the connection is what that poll has left of it, and no call runs on it. What was
/// sent stays owed.
pub fn a_copy_out_that_is_polled_once<C: PgExecutor>(
    conn: C,
    statement: Text,
) -> (C, Poll<Option<Result<Blob, Error>>>)
    ensures { (b : ConnOf C.L) × PollsCall (seen_by C.L.seen (started_call (requests.CopyOut (plain_text statement)) (C.conn conn))) (seen_by C.L.seen b) (turn_of piece_turn result.1) × (result.0 ≡ C.with_conn conn (left b)) }
{
    let mut state = copy_out_raw(conn, statement);
    let answer = state.poll_next();
    (state.into_conn(), answer)
}

/// What must be spent goes through a whole transaction, and comes back.
pub fn a_transaction_of_what_must_be_spent<C: PgExecutor>(conn: C) -> Option<C>
    ensures { IsSome result }
{
    let mut state = Transaction::begin(conn);
    match state.poll() {
        Poll::Ready(Ok(guard)) => {
            match state.into_conn() {
                Some(_conn) => unreachable!(),
                None => {}
            }
            let mut last = guard.commit();
            let _ = last.poll();
            Some(last.into_conn())
        }
        _ => state.into_conn(),
    }
}
