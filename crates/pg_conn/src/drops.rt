//! What a caller knows of a connection once the state of a call on it is dropped: each law as the contract of the shortest user.
ghost use Rattle.std.specs.Prelude.{◌≡◌};
ghost use Rattle.pg_call.specs.Answers.{total_turn};
ghost use Rattle.pg_conn.specs.Connections.{ConnOf, seen_by, started_call, left};
ghost use Rattle.pg_conn.specs.States.{PollsPrepare, to_prepare, turn_of};
ghost use Rattle.pg_conn.specs.Turns.{PollsCall};

use crate::{PgConnection, PgQueryResult, PgStatement, Preparation, Query, Request};
use pg_stream::Link;
use pg_wire::{Error, Poll};

/// A call that is never polled leaves the connection as it was.
pub fn a_call_that_is_never_polled<L: Link>(conn: &mut PgConnection<L>, query: Query)
    ensures { conn.new ≡ conn.old }
{
    let _call = conn.execute(query);
}

/// A call that is dropped behind its first poll is given up: the connection is what that poll has left of it, and no call runs on it.
pub fn a_call_that_is_polled_once<L: Link>(
    conn: &mut PgConnection<L>,
    query: Query,
) -> Poll<Result<PgQueryResult, Error>>
    ensures { (b : ConnOf L) × PollsCall (seen_by L.seen (started_call (Request.Execute query) conn.old)) (seen_by L.seen b) (turn_of total_turn result) × (conn.new ≡ left b) }
{
    let mut call = conn.execute(query);
    call.poll()
}

/// The same of a prepare: the connection is what its one poll has left of it, and no call runs on it.
pub fn a_prepare_that_is_polled_once<L: Link>(
    conn: &mut PgConnection<L>,
    preparation: Preparation,
) -> Poll<Result<PgStatement, Error>>
    ensures { (b : ConnOf L) × PollsPrepare (seen_by L.seen (started_call (to_prepare preparation) conn.old)) (seen_by L.seen b) result × (conn.new ≡ left b) }
{
    let mut call = conn.prepare_with(preparation);
    call.poll()
}
