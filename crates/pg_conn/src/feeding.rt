//! A copy from the client that is open: its data is queued and sent, and not answered. (PostgreSQL manual, "Message Flow", "COPY Operations".)
ghost use Rattle.std.specs.Prelude.{◌≡◌, true, false, length, OnOk, OnErr, IfErr};
ghost use Rattle.pg_wire.specs.Bytes.{HasNoNul};
ghost use Rattle.pg_wire.specs.Encoding.{Refuses};
ghost use Rattle.pg_wire.specs.Frontend.{CopyFail, frontend_frame};
ghost use Rattle.pg_call.specs.Hearing.{IsOpen};
ghost use Rattle.pg_conn.specs.Connections.{begun, copied, copy_aborted, piece_of, seen_by, with_messages};
ghost use Rattle.pg_conn.specs.Feeding.{FeedsMore, PollsFed};

use crate::PgConnection;
use pg_stream::Link;
use pg_wire::{
    Blob, Error, Poll, ProtocolFault, encode_copy_bytes, encode_copy_done, encode_copy_fail,
};

impl<L> PgConnection<L> {
    /// Whether a copy from the client is open: its data is awaited.
    pub fn is_copying(&self) -> bool
        ensures yes { result ≡ true → IsOpen self.now.call }
        ensures no { result ≡ false → IsOpen self.now.call → ⊥ }
    {
        self.running.is_open()
    }

    /// Queues a piece of the data of the copy that is open, as one message; none where it is empty. An `Err` leaves the connection as it was: the piece is too long for a
    /// message, or memory is wanting.
    pub fn feed(&mut self, piece: &[u8]) -> Result<(), Error>
        ensures ok { OnOk result (self.new ≡ with_messages (piece_of piece.now) self.old) }
        ensures err { OnErr result (self.new ≡ self.old) }
        ensures cause { IfErr result (Refuses 0 (Unit {0}) (length piece.now)) }
    {
        let mut frames = Blob::new(self.alloc);
        if !piece.is_empty() {
            encode_copy_bytes(&mut frames, piece)?;
        }
        self.stream.queue(&frames)
    }

    /// Queues the end of the data of the copy that is open. What comes of it is told by the next polls of its call. An `Err` is want of memory, and leaves the copy open.
    pub fn end_copy(&mut self) -> Result<(), Error>
        ensures ok { OnOk result (self.new ≡ copied self.old) }
        ensures err { OnErr result (self.new ≡ self.old) }
        ensures cause { IfErr result (λ e. e ≡ Error.OutOfMemory) }
    {
        let mut frames = Blob::new(self.alloc);
        encode_copy_done(&mut frames)?;
        self.stream.queue(&frames)?;
        self.end_feed();
        Ok(())
    }

    /// Queues a CopyFail of this message, and gives up the call of the copy that is open: its reply stays owed, an error by which the server tells the message. An
    /// `Err` leaves the copy open: the message has a zero byte or is too long, or memory is wanting.
    pub fn abort_copy(&mut self, message: &str) -> Result<(), Error>
        ensures ok { OnOk result (self.new ≡ copy_aborted message.now self.old) }
        ensures err { OnErr result (self.new ≡ self.old) }
        ensures cause { IfErr result (Refuses 0 (HasNoNul message.now) (length (frontend_frame (CopyFail message.now)).body)) }
    {
        let mut frames = Blob::new(self.alloc);
        encode_copy_fail(&mut frames, message)?;
        self.stream.queue(&frames)?;
        self.give_up_copy();
        Ok(())
    }
}

impl<L> PgConnection<L> {
    /// Begins a poll of what feeds the copy that is open: it has 256 calls of the link, which `poll_fed_more` makes.
    pub fn begin_feeding(&mut self)
        ensures { self.new ≡ begun self.old }
    {
        self.allow(256);
    }
}

impl<L: Link> PgConnection<L> {
    /// Sends what is queued, by the calls of the link that the last poll has left. It reads nothing, and the copy stays open whatever it answers.
    pub fn poll_fed_more(&mut self) -> Poll<Result<(), Error>>
        ensures { FeedsMore (seen_by L.seen self.old) (seen_by L.seen self.new) result }
    {
        match self.broken {
            Some(fault) => Poll::Ready(Err(Error::Protocol(ProtocolFault::Server(fault)))),
            None => self.stream.poll_send(),
        }
    }

    /// Sends what is queued, by at most 256 calls of the link. It reads nothing, and the copy stays open whatever it answers.
    pub fn poll_fed(&mut self) -> Poll<Result<(), Error>>
        ensures { PollsFed (seen_by L.seen self.old) (seen_by L.seen self.new) result }
    {
        self.begin_feeding();
        self.poll_fed_more()
    }
}
