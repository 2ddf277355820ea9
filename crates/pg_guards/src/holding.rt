//! What a state does with the connection that is held: it lends the connection once for each.
ghost use Rattle.std.specs.Prelude.{◌≡◌, ◌≤◌, true, false, None};
ghost use Rattle.pg_call.specs.Answers.{unit_turn};
ghost use Rattle.pg_conn.specs.Connections.{begun_by, is_over, left, left_by, rolled_back, runs, seen_by, started_call, started_next};
ghost use Rattle.pg_conn.specs.States.{IsCalling, IsCallingPlainly, KeepsCallingPlainly, PollFits, PollFitsPlainly, ends_call, turn_of};
ghost use Rattle.pg_conn.specs.Turns.{PollsCall, PollsMore, PollsWithin};
ghost use Rattle.pg_call.specs.declared.kind.Kind as declared_kind;

use crate::PgExecutor;
use pg_call::{Kind, Request};
use pg_conn::{PgConnection, Turn};
use pg_stream::Link;
use pg_wire::{Error, Poll};

// One poll of a call without an answer of its own.
fn poll_unit<L: Link>(
    conn: &mut PgConnection<L>,
    request: &mut Option<Request>,
) -> Poll<Result<(), Error>>
    requires over { is_over request.old conn.old.call ≡ false }
    requires calling { KeepsCallingPlainly request.old conn.old }
    ensures asked { request.new ≡ None }
    ensures polls { PollsCall (seen_by L.seen (begun_by request.old conn.old)) (seen_by L.seen conn.new) (turn_of unit_turn result) }
    ensures over { is_over request.new conn.new.call ≡ ends_call (turn_of unit_turn result) }
    ensures keeps { KeepsCallingPlainly request.new conn.new }
    ensures calling { IsCallingPlainly (begun_by request.old conn.old) → PollFitsPlainly conn.new (turn_of unit_turn result) }
{
    match conn.poll_with(request) {
        Poll::Pending => Poll::Pending,
        Poll::Ready(turn) => Poll::Ready(turn.into_unit(Kind::Flush)),
    }
}

/// One poll of a call without an answer of its own, on the connection that is held. It begins the call where this is its first.
pub(crate) fn poll_held<C: PgExecutor>(
    holder: &mut C,
    request: &mut Option<Request>,
) -> Poll<Result<(), Error>>
    requires over { is_over request.old (C.conn holder.old).call ≡ false }
    requires calling { KeepsCallingPlainly request.old (C.conn holder.old) }
    ensures holder { holder.new ≡ C.with_conn holder.old (C.conn holder.new) }
    ensures asked { request.new ≡ None }
    ensures polls { PollsCall (seen_by C.L.seen (begun_by request.old (C.conn holder.old))) (seen_by C.L.seen (C.conn holder.new)) (turn_of unit_turn result) }
    ensures over { is_over request.new (C.conn holder.new).call ≡ ends_call (turn_of unit_turn result) }
    ensures keeps { KeepsCallingPlainly request.new (C.conn holder.new) }
    ensures calling { IsCallingPlainly (begun_by request.old (C.conn holder.old)) → PollFitsPlainly (C.conn holder.new) (turn_of unit_turn result) }
{
    poll_unit(holder.conn_mut(), request)
}

/// One poll of a call on the connection that is held. It begins the call where this is its first.
pub fn poll_turn<C: PgExecutor>(holder: &mut C, request: &mut Option<Request>) -> Poll<Turn>
    requires { is_over request.old (C.conn holder.old).call ≡ false }
    ensures holder { holder.new ≡ C.with_conn holder.old (C.conn holder.new) }
    ensures asked { request.new ≡ None }
    ensures polls { PollsCall (seen_by C.L.seen (begun_by request.old (C.conn holder.old))) (seen_by C.L.seen (C.conn holder.new)) result }
    ensures fits { (kind : declared_kind.Kind) → IsCalling kind (begun_by request.old (C.conn holder.old)) → PollFits kind (C.conn holder.new) result }
{
    holder.conn_mut().poll_with(request)
}

// The first poll of a call behind one that ended, with the calls of the link that are left.
fn poll_behind<L: Link>(conn: &mut PgConnection<L>, request: Request) -> Poll<Turn>
    ensures polls { PollsMore (seen_by L.seen (started_next request conn.old)) (seen_by L.seen conn.new) result }
    ensures fits { (kind : declared_kind.Kind) → IsCalling kind (started_next request conn.old) → PollFits kind conn.new result }
{
    conn.start_next(request);
    conn.poll_more()
}

/// The first poll of a call behind one that ended, on the connection that is held, with the calls of the link that are left.
pub fn poll_next<C: PgExecutor>(holder: &mut C, request: Request) -> Poll<Turn>
    ensures holder { holder.new ≡ C.with_conn holder.old (C.conn holder.new) }
    ensures polls { PollsMore (seen_by C.L.seen (started_next request (C.conn holder.old))) (seen_by C.L.seen (C.conn holder.new)) result }
    ensures fits { (kind : declared_kind.Kind) → IsCalling kind (started_next request (C.conn holder.old)) → PollFits kind (C.conn holder.new) result }
{
    poll_behind(holder.conn_mut(), request)
}

/// Begins a call, which does nothing before its first poll. One that still runs is given up.
pub fn start<C: PgExecutor>(holder: &mut C, request: Request)
    ensures { holder.new ≡ C.with_conn holder.old (started_call request (C.conn holder.old)) }
{
    holder.conn_mut().start(request);
}

/// One poll of the call that runs, within so many calls of the link, which it takes off.
pub fn poll_within<C: PgExecutor>(holder: &mut C, left: &mut u16) -> Poll<Turn>
    requires runs { runs (C.conn holder.old).call ≡ true }
    requires left { left.old ≤ 256 }
    ensures holder { holder.new ≡ C.with_conn holder.old (C.conn holder.new) }
    ensures polls { PollsWithin left.old (seen_by C.L.seen (C.conn holder.old)) (seen_by C.L.seen (C.conn holder.new)) result }
    ensures left { left.new ≤ left.old }
{
    holder.conn_mut().poll_call_within(left)
}

/// Gives up the call that runs.
pub fn abandon<C: PgExecutor>(holder: &mut C)
    ensures { holder.new ≡ C.with_conn holder.old (left (C.conn holder.old)) }
{
    holder.conn_mut().abandon();
}

/// Rolls back without waiting on the connection that is held.
pub fn start_rollback<C: PgExecutor>(holder: &mut C)
    ensures { holder.new ≡ C.with_conn holder.old (rolled_back (C.conn holder.old)) }
{
    holder.conn_mut().start_rollback();
}

/// The same, of what is owned.
pub(crate) fn roll_back<C: PgExecutor>(holder: C) -> C
    ensures { result ≡ C.with_conn holder (rolled_back (C.conn holder)) }
{
    let mut holder = holder;
    start_rollback(&mut holder);
    holder
}

/// What the drop of a call's state does, on the connection that is held.
pub fn leave<C: PgExecutor>(holder: C, request: Option<Request>) -> C
    ensures { result ≡ C.with_conn holder (left_by request (C.conn holder)) }
{
    let mut holder = holder;
    holder.conn_mut().leave(request);
    holder
}
