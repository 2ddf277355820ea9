//! What a caller knows of a connection and of a copy on it, each law as the contract of the shortest user.
ghost use Rattle.std.specs.Prelude.{◌≡◌, ◌++◌, ◌∷◌, [], true, Ok};
ghost use Rattle.futures.specs.declared.task.Poll.TheVariants.{Ready};
ghost use Rattle.pg_call.specs.Requests.{copy_fail, spelled};
ghost use Rattle.pg_conn.specs.Connections.{copies, has_fed};
ghost use Rattle.pg_conn.specs.Feeding.{IsFed};
ghost use Rattle.pg_copying.specs.Copies.{IsFinishing};

use crate::{CopyFinish, PgCopyIn, copy_in_raw};
use pg_conn::PgConnection;
use pg_guards::PgExecutor;
use pg_stream::Link;
use pg_wire::{Error, Poll, Text};

/// A copy that is never polled leaves a connection that was lent to it as it was.
pub fn a_copy_that_is_never_polled<L: Link>(conn: &mut PgConnection<L>, statement: Text)
    ensures { conn.new ≡ conn.old }
{
    match copy_in_raw(conn, statement).into_conn() {
        Some(_conn) => {}
        None => {}
    }
}

/// One that is open and is dropped queues one CopyFail, and nothing else, and no call runs behind it.
pub fn a_copy_that_is_dropped<C: PgExecutor>(copy: PgCopyIn<C>) -> C
    requires open { IsFed (C.conn copy.conn) }
    requires queued { copies (C.conn copy.conn).change (C.conn copy.conn).groups ≡ true }
    ensures { (C.conn result).stream.unsent ≡ (C.conn copy.conn).stream.unsent ++ spelled (copy_fail ∷ []) }
{
    copy.into_conn()
}

/// Behind the end of its data nothing is queued any more.
pub fn a_copy_that_is_dropped_behind_its_end<C: PgExecutor>(state: CopyFinish<C>) -> C
    requires calling { IsFinishing true (C.conn state.conn) }
    requires fed { has_fed (C.conn state.conn).change (C.conn state.conn).groups ≡ true }
    ensures { (C.conn result).stream ≡ (C.conn state.conn).stream }
{
    state.into_conn()
}

/// A send that is never polled leaves the copy as it was.
pub fn a_send_that_is_never_polled<C: PgExecutor>(copy: &mut PgCopyIn<C>, bytes: &[u8])
    ensures { copy.new ≡ copy.old }
{
    let _send = copy.send(bytes);
}

/// A send of no bytes is Ok at once: it queues no frame, makes no call of the link, and leaves the copy as it was.
pub fn a_send_of_no_bytes<C: PgExecutor>(copy: &mut PgCopyIn<C>) -> Poll<Result<(), Error>>
    requires open { IsFed (C.conn copy.old.conn) }
    ensures copy { copy.new ≡ copy.old }
    ensures ok { result ≡ Ready (Ok tt) }
{
    let mut send = copy.send(&[]);
    send.poll()
}
