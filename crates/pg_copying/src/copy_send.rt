ghost use Rattle.std.specs.Prelude.{◌≡◌, ◌≤◌, length};
ghost use Rattle.pg_conn.specs.Feeding.{IsFed};
ghost use Rattle.pg_copying.specs.Feeds.{PollsSending};

use crate::PgCopyIn;
use crate::feeding::poll_send;
use pg_guards::PgExecutor;
use pg_wire::{Error, Poll};

/// The state of `PgCopyIn::send`. It does nothing before its first poll. Dropped or refused it leaves the copy open, and what it has queued stands.
pub struct CopySend<'a, C: PgExecutor> {
    copy: &'a mut PgCopyIn<C>,
    bytes: &'a [u8],
    queued: usize,
}

impl<C: PgExecutor> Drop for CopySend<'_, C> {
    fn drop(self)
        ensures { self.exit.0.now ≡ self.entry.copy.now }
    {
        let CopySend {
            copy: _,
            bytes: _,
            queued: _,
        } = self;
    }
}

// One poll of a send, on the connection that is held.
fn send_held<C: PgExecutor>(
    holder: &mut C,
    bytes: &[u8],
    queued: usize,
) -> (usize, Poll<Result<(), Error>>)
    requires within { queued ≤ length bytes.now }
    requires open { IsFed (C.conn holder.old) }
    ensures holder { holder.new ≡ C.with_conn holder.old (C.conn holder.new) }
    ensures within { result.0 ≤ length bytes.now }
    ensures polls { PollsSending C.L.seen (C.conn holder.old) (C.conn holder.new) bytes.now queued result.0 result.1 }
    ensures open { IsFed (C.conn holder.new) }
{
    poll_send(holder.conn_mut(), bytes, queued)
}

impl<C: PgExecutor> PgCopyIn<C> {
    /// Sends bytes of the data, as one message or, where they are more than `PG_COPY_MAX_DATA_LEN`, as several: each is sent before the next is queued. No bytes are no
    /// message, and make no call of the link. (PostgreSQL manual, "Message Formats", CopyData.)
    pub fn send<'a>(&'a mut self, bytes: &'a [u8]) -> CopySend<'a, C>
        ensures same { result.copy.ghost_name ≡ self.entry.ghost_name }
        ensures copy { result.copy.now ≡ self.old }
        ensures bytes { result.bytes.now ≡ bytes.now }
        ensures queued { result.queued ≡ 0 }
    {
        CopySend {
            copy: self,
            bytes,
            queued: 0,
        }
    }
}

impl<C: PgExecutor> CopySend<'_, C> {
    /// Moves the call on: Ok once all of the bytes are sent. A poll makes at most 256 calls of the link.
    pub fn poll(&mut self) -> Poll<Result<(), Error>>
        requires within { self.old.queued ≤ length self.old.bytes.now }
        requires open { IsFed (C.conn self.old.copy.now.conn) }
        ensures same { self.new.copy.ghost_name ≡ self.old.copy.ghost_name }
        ensures bytes { self.new.bytes ≡ self.old.bytes }
        ensures response { self.new.copy.now.response ≡ self.old.copy.now.response }
        ensures holder { self.new.copy.now.conn ≡ C.with_conn self.old.copy.now.conn (C.conn self.new.copy.now.conn) }
        ensures within { self.new.queued ≤ length self.new.bytes.now }
        ensures polls { PollsSending C.L.seen (C.conn self.old.copy.now.conn) (C.conn self.new.copy.now.conn) self.old.bytes.now self.old.queued self.new.queued result }
        ensures open { IsFed (C.conn self.new.copy.now.conn) }
    {
        let (queued, answer) = send_held(&mut self.copy.conn, self.bytes, self.queued);
        self.queued = queued;
        answer
    }
}
