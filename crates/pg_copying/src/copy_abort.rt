ghost use Rattle.std.specs.Prelude.{◌≡◌, true, false, None, OnErr, OnOk, IfErr};
ghost use Rattle.pg_call.specs.Answers.{TurnFits, unit_turn};
ghost use Rattle.pg_call.specs.declared.kind.Kind.TheVariants as kinds;
ghost use Rattle.pg_call.specs.declared.request.Request.TheVariants as requests;
ghost use Rattle.pg_conn.specs.Connections.{begun, copy_aborted, left, seen_by, started_next};
ghost use Rattle.pg_conn.specs.States.{PollFits, turn_of};
ghost use Rattle.pg_conn.specs.Turns.{PollsCall, PollsMore};
ghost use Rattle.pg_copying.specs.Aborts.{EndsAbort, HearsFailure, IsAborting, PollsAbort, RefusesAbort, StaysAborting, TellsFailure, is_aborted, is_cancel};

use pg_call::{Kind, Request, Turn};
use pg_conn::PgConnection;
use pg_guards::PgExecutor;
use pg_guards::holding::{leave, poll_next, poll_turn};
use pg_wire::{Error, Poll, Text};

// How far a copy is given up.
#[derive(Clone, Copy)]
enum Stage {
    // The CopyFail is not queued yet.
    Open,
    // The server's error is awaited.
    Failing,
    // It has come, and the end of the reply is awaited.
    Failed,
}

/// The state of `PgCopyIn::abort`, which owns what holds the connection. Its first poll queues a CopyFail of the message. Where that is refused the copy stays open, and
/// the drop of the state ends it as that of the copy does. Dropped behind that it queues nothing more, and the next call reads the reply away.
/// (PostgreSQL manual, "Message Flow", "COPY Operations".)
pub struct CopyAbort<C: PgExecutor> {
    conn: C,
    message: Text,
    stage: Stage,
}

// Queues the CopyFail, and begins a poll.
fn abort_on<L>(conn: &mut PgConnection<L>, message: &str) -> Result<(), Error>
    ensures ok { OnOk result (conn.new ≡ begun (copy_aborted message.now conn.old)) }
    ensures err { OnErr result (conn.new ≡ conn.old) }
    ensures cause { IfErr result (RefusesAbort message.now) }
{
    conn.abort_copy(message)?;
    conn.begin_feeding();
    Ok(())
}

// The same, on the connection that is held.
fn abort_held<C: PgExecutor>(holder: &mut C, message: &str) -> Result<(), Error>
    ensures ok { OnOk result (holder.new ≡ C.with_conn holder.old (begun (copy_aborted message.now (C.conn holder.old)))) }
    ensures err { OnErr result (holder.new ≡ holder.old) }
    ensures cause { IfErr result (RefusesAbort message.now) }
{
    abort_on(holder.conn_mut(), message)
}

// Whether the server tells that the client has given the copy up.
fn is_canceled(error: &Error) -> bool
    ensures { result ≡ is_cancel error.now }
{
    match error {
        Error::Database(details) => details.code() == "57014",
        _ => false,
    }
}

// What the end of a flush says: the reply is read to its end, or up to that error, or another error ended it.
fn heard(turn: Turn) -> Result<bool, Error>
    requires { TurnFits kinds.Flush turn }
    ensures { TellsFailure turn result }
{
    match turn.into_unit(Kind::Flush) {
        Ok(()) => Ok(true),
        Err(e) if is_canceled(&e) => Ok(false),
        Err(e) => Err(e),
    }
}

impl<C: PgExecutor> CopyAbort<C> {
    pub(crate) fn new(conn: C, message: Text) -> Self
        ensures conn { result.conn ≡ conn }
        ensures message { result.message ≡ message }
        ensures stage { result.stage ≡ Stage.Open }
    {
        CopyAbort {
            conn,
            message,
            stage: Stage::Open,
        }
    }

    /// Whether a poll has ended the call.
    pub fn is_finished(&self) -> bool
        ensures { result ≡ is_aborted self.now.stage (C.conn self.now.conn) }
    {
        match self.stage {
            Stage::Open => false,
            Stage::Failing => !self.conn.conn_ref().is_running(),
            Stage::Failed => !self.conn.conn_ref().is_running(),
        }
    }

    // The first poll of the flush behind the server's error.
    fn go_on(&mut self) -> Poll<Result<(), Error>>
        ensures holder { self.new.conn ≡ C.with_conn self.old.conn (C.conn self.new.conn) }
        ensures message { self.new.message ≡ self.old.message }
        ensures stage { self.new.stage ≡ Stage.Failed }
        ensures polls { PollsMore (seen_by C.L.seen (started_next requests.Flush (C.conn self.old.conn))) (seen_by C.L.seen (C.conn self.new.conn)) (turn_of unit_turn result) }
        ensures calling { StaysAborting Stage.Failed (C.conn self.new.conn) result }
    {
        self.stage = Stage::Failed;
        match poll_next(&mut self.conn, Request::Flush) {
            Poll::Pending => Poll::Pending,
            Poll::Ready(turn) => Poll::Ready(turn.into_unit(Kind::Flush)),
        }
    }

    // What a poll of the flush that awaits the error has come to.
    fn hear(&mut self, answer: Poll<Turn>) -> Poll<Result<(), Error>>
        requires stage { self.old.stage ≡ Stage.Failing }
        requires fits { PollFits kinds.Flush (C.conn self.old.conn) answer }
        ensures holder { self.new.conn ≡ C.with_conn self.old.conn (C.conn self.new.conn) }
        ensures message { self.new.message ≡ self.old.message }
        ensures hears { HearsFailure C.L.seen (C.conn self.old.conn) (C.conn self.new.conn) answer result self.new.stage }
        ensures calling { StaysAborting self.new.stage (C.conn self.new.conn) result }
    {
        match answer {
            Poll::Pending => Poll::Pending,
            Poll::Ready(turn) => match heard(turn) {
                Ok(true) => Poll::Ready(Ok(())),
                Ok(false) => self.go_on(),
                Err(e) => Poll::Ready(Err(e)),
            },
        }
    }

    // The first poll: the CopyFail is queued, and the reply read behind it.
    fn poll_open(&mut self) -> Poll<Result<(), Error>>
        requires stage { self.old.stage ≡ Stage.Open }
        requires calling { IsAborting Stage.Open (C.conn self.old.conn) }
        ensures holder { self.new.conn ≡ C.with_conn self.old.conn (C.conn self.new.conn) }
        ensures message { self.new.message ≡ self.old.message }
        ensures polls { PollsAbort C.L.seen self.old.message Stage.Open (C.conn self.old.conn) (C.conn self.new.conn) result self.new.stage }
        ensures calling { StaysAborting self.new.stage (C.conn self.new.conn) result }
    {
        match abort_held(&mut self.conn, self.message.as_str()) {
            Ok(()) => self.stage = Stage::Failing,
            Err(e) => return Poll::Ready(Err(e)),
        }
        let answer = poll_next(&mut self.conn, Request::Flush);
        self.hear(answer)
    }

    // A poll that awaits the server's error.
    fn poll_failing(&mut self) -> Poll<Result<(), Error>>
        requires stage { self.old.stage ≡ Stage.Failing }
        requires calling { IsAborting Stage.Failing (C.conn self.old.conn) }
        ensures holder { self.new.conn ≡ C.with_conn self.old.conn (C.conn self.new.conn) }
        ensures message { self.new.message ≡ self.old.message }
        ensures polls { PollsAbort C.L.seen self.old.message Stage.Failing (C.conn self.old.conn) (C.conn self.new.conn) result self.new.stage }
        ensures calling { StaysAborting self.new.stage (C.conn self.new.conn) result }
    {
        let answer = poll_turn(&mut self.conn, &mut None);
        self.hear(answer)
    }

    // A poll that awaits the end of the reply.
    fn poll_failed(&mut self) -> Poll<Result<(), Error>>
        requires stage { self.old.stage ≡ Stage.Failed }
        requires calling { IsAborting Stage.Failed (C.conn self.old.conn) }
        ensures holder { self.new.conn ≡ C.with_conn self.old.conn (C.conn self.new.conn) }
        ensures message { self.new.message ≡ self.old.message }
        ensures polls { PollsAbort C.L.seen self.old.message Stage.Failed (C.conn self.old.conn) (C.conn self.new.conn) result self.new.stage }
        ensures calling { StaysAborting self.new.stage (C.conn self.new.conn) result }
    {
        match poll_turn(&mut self.conn, &mut None) {
            Poll::Pending => Poll::Pending,
            Poll::Ready(turn) => Poll::Ready(turn.into_unit(Kind::Flush)),
        }
    }

    /// Moves the call on: Ok once the server has told that the copy was given up, and its reply is read to its end. Another error of the server ends it instead. A message
    /// with a zero byte, or too long for a frame, is refused.
    pub fn poll(&mut self) -> Poll<Result<(), Error>>
        requires { IsAborting self.old.stage (C.conn self.old.conn) }
        ensures holder { self.new.conn ≡ C.with_conn self.old.conn (C.conn self.new.conn) }
        ensures message { self.new.message ≡ self.old.message }
        ensures polls { PollsAbort C.L.seen self.old.message self.old.stage (C.conn self.old.conn) (C.conn self.new.conn) result self.new.stage }
        ensures calling { StaysAborting self.new.stage (C.conn self.new.conn) result }
    {
        match self.stage {
            Stage::Open => self.poll_open(),
            Stage::Failing => self.poll_failing(),
            Stage::Failed => self.poll_failed(),
        }
    }

    /// Hands back what holds the connection, as the drop of the state leaves it: a call that runs is given up, and a copy for which no CopyFail is queued is ended by one.
    pub fn into_conn(self) -> C
        ensures { result ≡ C.with_conn self.conn (left (C.conn self.conn)) }
    {
        let CopyAbort {
            conn,
            message: _,
            stage: _,
        } = self;
        leave(conn, None)
    }
}

impl<C: PgExecutor + Drop> Drop for CopyAbort<C> {
    fn drop(self) {
        let conn = self.into_conn();
        let _ = conn;
    }
}
