ghost use Rattle.std.specs.Prelude.{◌≡◌, ◌<◌, true, false, None, Some, IsSome, length, option_map, slice_index_or, ℤ, pos};
ghost use Rattle.pg_call.specs.declared.request.Request.TheVariants as requests;
ghost use Rattle.pg_conn.specs.Connections.{left, left_by};
ghost use Rattle.pg_conn.specs.Feeding.{IsFed};
ghost use Rattle.pg_guards.specs.Holders.{is_done};
ghost use Rattle.pg_copying.specs.declared.copy_abort.Stage.TheVariants as stages;
ghost use Rattle.pg_copying.specs.Copies.{BeginsAs, HandsOpen, IsOpening, OpensCopy, StaysOpening, unfed_copy};

use crate::{CopyAbort, CopyFinish};
use pg_call::Feed;
use pg_conn::{Query, Request, Turn};
use pg_guards::PgExecutor;
use pg_guards::holding::{leave, poll_turn};
use pg_wire::{CopyResponseData, Error, Poll, ProtocolFault, Text};

/// The state of `copy_in_raw`, which owns what holds the connection until it hands the copy on. It does nothing before its first poll. Where it is dropped before its
/// end, a CopyFail ends the copy that it asked for. (PostgreSQL manual, "Message Flow", "COPY Operations".)
pub struct BeginCopyIn<C: PgExecutor> {
    conn: Option<C>,
    request: Option<Request>,
}

/// A copy from the client that is open on the connection which `C` holds: its data is awaited. Only a server that has begun the copy makes one. It is ended by `finish`
/// or `abort`; where it is dropped instead, a CopyFail is queued, which takes no memory, and the next call on the connection sends it.
/// (PostgreSQL manual, "Message Flow", "COPY Operations".)
pub struct PgCopyIn<C: PgExecutor> {
    pub(crate) conn: C,
    response: CopyResponseData,
}

/// Begins a copy from the client by this text, such as `COPY t FROM STDIN`. A text that copies nothing from the client ends the call with `ProtocolFault::Reply` and the
/// tag of what came instead. (PostgreSQL manual, "SQL Commands", COPY.)
pub fn copy_in_raw<C: PgExecutor>(conn: C, statement: Text) -> BeginCopyIn<C>
    ensures conn { result.conn ≡ Some conn }
    ensures request { result.request ≡ Some (requests.CopyIn (unfed_copy statement)) }
    ensures calling { IsOpening C.conn result.request result.conn }
{
    let feed = Feed::new(conn.conn_ref().allocator(), Query::from_text(statement));
    BeginCopyIn {
        conn: Some(conn),
        request: Some(Request::CopyIn(feed)),
    }
}

// What a turn says of a copy that begins: it is open, or has failed. What ends without having been open is another reply.
fn begun(turn: Turn) -> Result<CopyResponseData, Error>
    ensures { BeginsAs turn result }
{
    match turn {
        Turn::Opened(response) => Ok(response),
        Turn::Err(e) => Err(e),
        Turn::Ok(_) | Turn::Item(_) => Err(Error::Protocol(ProtocolFault::Reply { tag: b'C' })),
    }
}

impl<C: PgExecutor> BeginCopyIn<C> {
    /// Whether a poll has ended the call.
    pub fn is_finished(&self) -> bool
        ensures { result ≡ is_done C.conn false self.now.request self.now.conn }
    {
        match &self.conn {
            Some(conn) => self.request.is_none() && !conn.conn_ref().is_running(),
            None => true,
        }
    }

    // Hands the copy on.
    fn hand_on(&mut self, response: CopyResponseData) -> PgCopyIn<C>
        requires { IsSome self.old.conn }
        ensures copy { self.old.conn ≡ Some result.conn }
        ensures response { result.response ≡ response }
        ensures conn { self.new.conn ≡ None }
        ensures request { self.new.request ≡ self.old.request }
    {
        match self.conn.take() {
            Some(conn) => PgCopyIn { conn, response },
            None => unreachable!(),
        }
    }

    /// Moves the call on, and hands the copy on once the server awaits its data.
    pub fn poll(&mut self) -> Poll<Result<PgCopyIn<C>, Error>>
        requires { IsOpening C.conn self.old.request self.old.conn }
        ensures asked { self.new.request ≡ None }
        ensures polls { (c : C) → self.old.conn ≡ Some c → OpensCopy C.conn C.with_conn C.L.seen (λ copy. copy.conn) (λ copy. copy.response) self.old.request c self.new.conn result }
        ensures calling { StaysOpening C.conn self.new.request self.new.conn result }
        ensures open { HandsOpen C.conn (λ copy. copy.conn) result }
    {
        let Some(conn) = &mut self.conn else {
            unreachable!()
        };
        match poll_turn(conn, &mut self.request) {
            Poll::Pending => Poll::Pending,
            Poll::Ready(turn) => match begun(turn) {
                Ok(response) => Poll::Ready(Ok(self.hand_on(response))),
                Err(e) => Poll::Ready(Err(e)),
            },
        }
    }

    /// Hands back what holds the connection, as the drop of the state leaves it: a call that runs is given up. It is gone exactly where a poll has handed the copy on.
    pub fn into_conn(self) -> Option<C>
        ensures { result ≡ option_map (λ c. C.with_conn c (left_by self.request (C.conn c))) self.conn }
    {
        let BeginCopyIn { conn, request } = self;
        match conn {
            Some(conn) => Some(leave(conn, request)),
            None => None,
        }
    }
}

impl<C: PgExecutor + Drop> Drop for BeginCopyIn<C> {
    fn drop(self) {
        let conn = self.into_conn();
        let _ = conn;
    }
}

impl<C: PgExecutor> PgCopyIn<C> {
    /// Whether the whole copy is of texts, and not binary. (PostgreSQL manual, "Message Formats", CopyInResponse.)
    pub fn is_textual(&self) -> bool
        ensures yes { result ≡ true → self.now.response.format ≡ pos 0 }
        ensures no { result ≡ false → self.now.response.format ≡ pos 0 → ⊥ }
    {
        self.response.format == 0
    }

    /// How many columns are copied.
    pub fn num_columns(&self) -> usize
        ensures { result ≡ length self.now.response.format_codes }
    {
        self.response.format_codes.len()
    }

    /// Whether a column is of texts, and not binary.
    pub fn column_is_textual(&self, index: usize) -> bool
        requires { index < length self.now.response.format_codes }
        ensures yes { (other : ℤ) → result ≡ true → slice_index_or self.now.response.format_codes index other ≡ pos 0 }
        ensures no { (other : ℤ) → result ≡ false → slice_index_or self.now.response.format_codes index other ≡ pos 0 → ⊥ }
    {
        self.response.format_codes.as_slice()[index] == 0
    }

    /// Ends the data: the state answers how many rows were copied.
    pub fn finish(self) -> CopyFinish<C>
        ensures { result ≡ record { conn = self.conn; is_ended = false } }
    {
        let PgCopyIn { conn, response: _ } = self;
        CopyFinish::new(conn)
    }

    /// Gives the data up by a message, which the server tells in its log and in its error: the state answers once that has come.
    pub fn abort(self, message: Text) -> CopyAbort<C>
        ensures conn { result.conn ≡ self.conn }
        ensures message { result.message ≡ message }
        ensures stage { result.stage ≡ stages.Open }
    {
        let PgCopyIn { conn, response: _ } = self;
        CopyAbort::new(conn, message)
    }

    /// Hands back what holds the connection, as the drop leaves it: a CopyFail ends the copy. (PostgreSQL manual, "Message Flow", "COPY Operations".)
    pub fn into_conn(self) -> C
        ensures { result ≡ C.with_conn self.conn (left (C.conn self.conn)) }
    {
        let PgCopyIn { conn, response: _ } = self;
        leave(conn, None)
    }
}

impl<C: PgExecutor + Drop> Drop for PgCopyIn<C> {
    fn drop(self) {
        let conn = self.into_conn();
        let _ = conn;
    }
}
