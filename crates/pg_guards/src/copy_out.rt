ghost use Rattle.std.specs.Prelude.{◌≡◌, false, None, Some};
ghost use Rattle.pg_request.specs.Queries.{plain_text};
ghost use Rattle.pg_call.specs.declared.kind.Kind.TheVariants as kinds;
ghost use Rattle.pg_call.specs.declared.request.Request.TheVariants as requests;
ghost use Rattle.pg_call.specs.Answers.{piece_turn};
ghost use Rattle.pg_conn.specs.Connections.{begun_by, is_over, left_by, seen_by};
ghost use Rattle.pg_conn.specs.States.{IsCalling, KeepsCalling, PollFits, ends_call, turn_of};
ghost use Rattle.pg_conn.specs.Turns.{PollsCall};

use crate::PgExecutor;
use crate::holding::{leave, poll_turn};
use pg_conn::{Query, Request};
use pg_wire::{Blob, Error, Poll, Text};

/// The state of `copy_out_raw`, which owns what holds the connection. It does nothing before its first poll, and gives the data of the copy in pieces, as the
/// server sends them. Where it is dropped before its end, what was sent stays owed: the next call on the connection reads it away.
/// (PostgreSQL manual, "Message Flow", "COPY Operations".)
pub struct CopyOut<C: PgExecutor> {
    conn: C,
    request: Option<Request>,
    ghost calling: { KeepsCalling kinds.CopyOut request (C.conn conn) },
}

/// Copies to the client by this text, such as `COPY t TO STDOUT`. A text that copies nothing to the client, or goes on behind its copy, ends the call with
/// `ProtocolFault::Reply` and the tag of what came instead. (PostgreSQL manual, "SQL Commands", COPY.)
pub fn copy_out_raw<C: PgExecutor>(conn: C, statement: Text) -> CopyOut<C>
    ensures conn { result.conn ≡ conn }
    ensures request { result.request ≡ Some (requests.CopyOut (plain_text statement)) }
    ensures calling { IsCalling kinds.CopyOut (begun_by result.request (C.conn result.conn)) }
{
    CopyOut {
        conn,
        request: Some(Request::CopyOut(Query::from_text(statement))),
    }
}

impl<C: PgExecutor> CopyOut<C> {
    /// Whether a poll has ended the call.
    pub fn is_finished(&self) -> bool
        ensures { result ≡ is_over self.now.request (C.conn self.now.conn).call }
    {
        self.request.is_none() && !self.conn.conn_ref().is_running()
    }

    /// Moves the call on to its next piece: the bytes of one message, any number of them. None ends it.
    pub fn poll_next(&mut self) -> Poll<Option<Result<Blob, Error>>>
        requires over { is_over self.old.request (C.conn self.old.conn).call ≡ false }
        ensures holder { self.new.conn ≡ C.with_conn self.old.conn (C.conn self.new.conn) }
        ensures asked { self.new.request ≡ None }
        ensures polls { PollsCall (seen_by C.L.seen (begun_by self.old.request (C.conn self.old.conn))) (seen_by C.L.seen (C.conn self.new.conn)) (turn_of piece_turn result) }
        ensures over { is_over self.new.request (C.conn self.new.conn).call ≡ ends_call (turn_of piece_turn result) }
        ensures calling { IsCalling kinds.CopyOut (begun_by self.old.request (C.conn self.old.conn)) → PollFits kinds.CopyOut (C.conn self.new.conn) (turn_of piece_turn result) }
    {
        match poll_turn(&mut self.conn, &mut self.request) {
            Poll::Pending => Poll::Pending,
            Poll::Ready(turn) => Poll::Ready(turn.into_piece()),
        }
    }

    /// Hands back what holds the connection, as the drop of the state leaves it: a call that runs is given up.
    pub fn into_conn(self) -> C
        ensures { result ≡ C.with_conn self.conn (left_by self.request (C.conn self.conn)) }
    {
        let CopyOut { conn, request } = self;
        leave(conn, request)
    }
}

impl<C: PgExecutor + Drop> Drop for CopyOut<C> {
    fn drop(self) {
        let conn = self.into_conn();
        let _ = conn;
    }
}
