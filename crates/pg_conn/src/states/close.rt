ghost use Rattle.std.specs.Prelude.{◌≡◌, false, None, Some, IsSome, option_map};
ghost use Rattle.pg_conn.specs.Connections.{ConnOf, begun_by, left_by};
ghost use Rattle.pg_conn.specs.States.{IsClosing, KeepsClosing, PollsClose, is_closed, is_ready};

use crate::{PgConnection, Request};
use pg_call::Kind;
use pg_stream::Link;
use pg_wire::{Error, Poll};

/// The call `close`, which owns its connection: it hands the link back once the frame that ends the session is sent.
/// (PostgreSQL manual, "Message Flow", "Termination".)
#[derive(Drop)]
pub struct Close<L> {
    conn: Option<PgConnection<L>>,
    request: Option<Request>,
    ghost closing: { KeepsClosing request conn },
}

impl<L> PgConnection<L> {
    /// Reads the replies that are owed, ends the session, and hands the link back.
    pub fn close(self) -> Close<L>
        ensures conn { result.conn ≡ Some self }
        ensures request { result.request ≡ Some Request.Close }
        ensures closing { IsClosing result.request result.conn }
    {
        Close {
            conn: Some(self),
            request: Some(Request::Close),
        }
    }
}

impl<L> Close<L> {
    /// Whether a poll has ended the call.
    pub fn is_finished(&self) -> bool
        ensures { result ≡ is_closed self.now.request self.now.conn }
    {
        match &self.conn {
            Some(conn) => self.request.is_none() && !conn.is_running(),
            None => true,
        }
    }

    /// The connection, with the call given up if it has not ended. It is gone exactly where a poll has answered the link.
    pub fn into_conn(self) -> Option<PgConnection<L>>
        ensures { result ≡ option_map (left_by self.request) self.conn }
    {
        let Close { conn, request } = self;
        match conn {
            Some(mut conn) => {
                conn.leave(request);
                Some(conn)
            }
            None => None,
        }
    }

    // Takes the connection apart.
    fn hand_out(&mut self) -> L
        requires { IsSome self.old.conn }
        ensures link { (c : ConnOf L) → self.old.conn ≡ Some c → result ≡ c.stream.link }
        ensures conn { self.new.conn ≡ None }
        ensures request { self.new.request ≡ self.old.request }
    {
        match self.conn.take() {
            Some(conn) => conn.close_hard(),
            None => unreachable!(),
        }
    }
}

impl<L: Link> Close<L> {
    /// Moves the call on, and hands the link back at its end.
    pub fn poll(&mut self) -> Poll<Result<L, Error>>
        requires over { is_closed self.old.request self.old.conn ≡ false }
        ensures asked { self.new.request ≡ None }
        ensures over { is_closed self.new.request self.new.conn ≡ is_ready result }
        ensures polls { (c : ConnOf L) → self.old.conn ≡ Some c → PollsClose L.seen (begun_by self.old.request c) self.new.conn result }
    {
        let Some(conn) = &mut self.conn else {
            unreachable!()
        };
        match conn.poll_with(&mut self.request) {
            Poll::Pending => Poll::Pending,
            Poll::Ready(turn) => match turn.into_unit(Kind::Close) {
                Ok(()) => Poll::Ready(Ok(self.hand_out())),
                Err(e) => Poll::Ready(Err(e)),
            },
        }
    }
}
