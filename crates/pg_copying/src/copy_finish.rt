ghost use Rattle.std.specs.Prelude.{◌≡◌, true, false, None, OnErr, OnOk, IfErr};
ghost use Rattle.pg_call.specs.declared.kind.Kind.TheVariants as kinds;
ghost use Rattle.pg_call.specs.Answers.{TurnFits};
ghost use Rattle.pg_conn.specs.Connections.{copied, left};
ghost use Rattle.pg_copying.specs.Copies.{CountsAs, FinishesCopy, IsFinishing, PollsCount, StaysFinishing, is_counted};

use pg_call::CallAnswer;
use pg_conn::Turn;
use pg_guards::PgExecutor;
use pg_guards::holding::{leave, poll_turn};
use pg_wire::{Error, Poll, ProtocolFault};

/// The state of `PgCopyIn::finish`, which owns what holds the connection. Its first poll queues the end of the data; want of memory for that leaves the copy open. Where it
/// is dropped behind that, nothing more is queued, and the next call reads the reply away. (PostgreSQL manual, "Message Flow", "COPY Operations".)
pub struct CopyFinish<C: PgExecutor> {
    conn: C,
    is_ended: bool,
}

// The end of the data is queued, on the connection that is held.
fn end_held<C: PgExecutor>(holder: &mut C) -> Result<(), Error>
    ensures ok { OnOk result (holder.new ≡ C.with_conn holder.old (copied (C.conn holder.old))) }
    ensures err { OnErr result (holder.new ≡ holder.old) }
    ensures cause { IfErr result (λ e. e ≡ Error.OutOfMemory) }
{
    holder.conn_mut().end_copy()
}

// What a turn says of a copy that is ended. One that were open again would be another reply.
fn counted(turn: Turn) -> Result<u64, Error>
    requires { TurnFits kinds.CopyIn turn }
    ensures { CountsAs turn result }
{
    match turn {
        Turn::Ok(CallAnswer::Total(total)) => Ok(total.rows_affected()),
        Turn::Err(e) => Err(e),
        Turn::Opened(_) => Err(Error::Protocol(ProtocolFault::Reply { tag: b'G' })),
        Turn::Ok(_) | Turn::Item(_) => unreachable!(),
    }
}

impl<C: PgExecutor> CopyFinish<C> {
    pub(crate) fn new(conn: C) -> Self
        ensures { result ≡ record { conn = conn; is_ended = false } }
    {
        CopyFinish {
            conn,
            is_ended: false,
        }
    }

    /// Whether a poll has ended the call.
    pub fn is_finished(&self) -> bool
        ensures { result ≡ is_counted self.now.is_ended (C.conn self.now.conn) }
    {
        self.is_ended && !self.conn.conn_ref().is_running()
    }

    // Polls the call whose data is ended.
    fn poll_ended(&mut self) -> Poll<Result<u64, Error>>
        requires { IsFinishing true (C.conn self.old.conn) }
        ensures holder { self.new.conn ≡ C.with_conn self.old.conn (C.conn self.new.conn) }
        ensures ended { self.new.is_ended ≡ self.old.is_ended }
        ensures polls { PollsCount C.L.seen (C.conn self.old.conn) (C.conn self.new.conn) result }
        ensures calling { StaysFinishing true (C.conn self.new.conn) result }
    {
        match poll_turn(&mut self.conn, &mut None) {
            Poll::Pending => Poll::Pending,
            Poll::Ready(turn) => Poll::Ready(counted(turn)),
        }
    }

    /// Moves the call on. It answers how many rows were copied.
    pub fn poll(&mut self) -> Poll<Result<u64, Error>>
        requires { IsFinishing self.old.is_ended (C.conn self.old.conn) }
        ensures holder { self.new.conn ≡ C.with_conn self.old.conn (C.conn self.new.conn) }
        ensures polls { FinishesCopy C.L.seen self.old.is_ended self.new.is_ended (C.conn self.old.conn) (C.conn self.new.conn) result }
        ensures calling { StaysFinishing self.new.is_ended (C.conn self.new.conn) result }
    {
        if self.is_ended {
            return self.poll_ended();
        }
        match end_held(&mut self.conn) {
            Ok(()) => {}
            Err(e) => return Poll::Ready(Err(e)),
        }
        self.is_ended = true;
        self.poll_ended()
    }

    /// Hands back what holds the connection, as the drop of the state leaves it: the call is given up, and a copy whose data is not ended is ended by a CopyFail.
    pub fn into_conn(self) -> C
        ensures { result ≡ C.with_conn self.conn (left (C.conn self.conn)) }
    {
        let CopyFinish { conn, is_ended: _ } = self;
        leave(conn, None)
    }
}

impl<C: PgExecutor + Drop> Drop for CopyFinish<C> {
    fn drop(self) {
        let conn = self.into_conn();
        let _ = conn;
    }
}
