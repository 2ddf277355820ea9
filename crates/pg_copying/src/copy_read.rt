ghost use Rattle.std.specs.Prelude.{◌≡◌, false};
ghost use Rattle.pg_conn.specs.Connections.{begun, seen_by};
ghost use Rattle.pg_conn.specs.Feeding.{IsFed};
ghost use Rattle.pg_copying.specs.Feeds.{ReadsOn, is_read};

use crate::PgCopyIn;
use crate::feeding::poll_read;
use pg_guards::PgExecutor;
use pg_stream::Source;
use pg_wire::{Error, Poll};

/// The state of `PgCopyIn::read_from`. It does nothing before its first poll. Dropped or refused it leaves the copy open, and what it has queued stands.
pub struct CopyRead<'a, C: PgExecutor, S> {
    copy: &'a mut PgCopyIn<C>,
    source: &'a mut S,
    is_ended: bool,
}

impl<C: PgExecutor, S> Drop for CopyRead<'_, C, S> {
    fn drop(self)
        ensures copy { self.exit.0.now ≡ self.entry.copy.now }
        ensures source { self.exit.1.0.now ≡ self.entry.source.now }
    {
        let CopyRead {
            copy: _,
            source: _,
            is_ended: _,
        } = self;
    }
}

// One poll of it, on the connection that is held.
fn read_held<C: PgExecutor, S: Source>(holder: &mut C, source: &mut S) -> Poll<Result<(), Error>>
    requires open { IsFed (C.conn holder.old) }
    ensures holder { holder.new ≡ C.with_conn holder.old (C.conn holder.new) }
    ensures polls { ReadsOn (begun (seen_by C.L.seen (C.conn holder.old))) (seen_by C.L.seen (C.conn holder.new)) (S.seen source.old) (S.seen source.new) result }
    ensures open { IsFed (C.conn holder.new) }
{
    poll_read(holder.conn_mut(), source)
}

impl<C: PgExecutor> PgCopyIn<C> {
    /// Sends what a source gives, up to its end. It is read by at most 8192 bytes at a time, and each of these pieces is one message, which is sent before the next is
    /// read. (PostgreSQL manual, "Message Formats", CopyData.)
    pub fn read_from<'a, S: Source>(&'a mut self, source: &'a mut S) -> CopyRead<'a, C, S>
        ensures same { result.copy.ghost_name ≡ self.entry.ghost_name }
        ensures copy { result.copy.now ≡ self.old }
        ensures same_source { result.source.ghost_name ≡ source.entry.ghost_name }
        ensures source { result.source.now ≡ source.old }
        ensures ended { result.is_ended ≡ false }
    {
        CopyRead {
            copy: self,
            source,
            is_ended: false,
        }
    }
}

impl<C: PgExecutor, S> CopyRead<'_, C, S> {
    /// Whether the source has said its end, and all of it is sent.
    pub fn is_finished(&self) -> bool
        ensures { result ≡ self.now.is_ended }
    {
        self.is_ended
    }
}

impl<C: PgExecutor, S: Source> CopyRead<'_, C, S> {
    /// Moves the call on: Ok once the source has said its end and all that it gave is sent. `Io(Source)` is a failure of the source; want of memory loses the piece that
    /// was read last. A poll makes at most 256 calls of the link.
    pub fn poll(&mut self) -> Poll<Result<(), Error>>
        requires over { self.old.is_ended ≡ false }
        requires open { IsFed (C.conn self.old.copy.now.conn) }
        ensures same { self.new.copy.ghost_name ≡ self.old.copy.ghost_name }
        ensures same_source { self.new.source.ghost_name ≡ self.old.source.ghost_name }
        ensures response { self.new.copy.now.response ≡ self.old.copy.now.response }
        ensures holder { self.new.copy.now.conn ≡ C.with_conn self.old.copy.now.conn (C.conn self.new.copy.now.conn) }
        ensures ended { self.new.is_ended ≡ is_read result }
        ensures polls { ReadsOn (begun (seen_by C.L.seen (C.conn self.old.copy.now.conn))) (seen_by C.L.seen (C.conn self.new.copy.now.conn)) (S.seen self.old.source.now) (S.seen self.new.source.now) result }
        ensures open { IsFed (C.conn self.new.copy.now.conn) }
    {
        match read_held(&mut self.copy.conn, self.source) {
            Poll::Pending => Poll::Pending,
            Poll::Ready(Ok(())) => {
                self.is_ended = true;
                Poll::Ready(Ok(()))
            }
            Poll::Ready(Err(e)) => Poll::Ready(Err(e)),
        }
    }
}
