//! The call `prepare_with` of a listener.
ghost use Rattle.std.specs.Prelude.{◌≡◌, false, [], None, Some};
ghost use Rattle.pg_call.specs.declared.kind.Kind.TheVariants as kinds;
ghost use Rattle.pg_conn.specs.States.{to_prepare};
ghost use Rattle.pg_listening.specs.Hearing.{HearsBy};
ghost use Rattle.pg_listening.specs.Querying.{IsQuerying};
ghost use Rattle.pg_listening.specs.Waiting.{NotesBy};
ghost use Rattle.pg_listening.specs.Describing.{PreparesIn, StaysQuerying};
ghost use Rattle.pg_listening.specs.Listeners.{beside_by, is_answered};

use crate::answering::is_answered;
use crate::{ConnectionSource, Listener, PgListener};
use pg_call::Request;
use pg_conn::{PgStatement, Preparation, prepare_request};
use pg_wire::{Error, Poll};
use std::sync::Wait;

/// The state of `PgListener::prepare_with`. It does nothing before its first poll. Dropped before its end it leaves the listener as it stands, and what was
/// read of notifications is buffered.
pub type PrepareWith<'l, G, P, S, D> = Preparing<'l, PgListener<G, P, S, D>, Request>;

/// That state, over whatever listens.
pub struct Preparing<'l, W, Q> {
    listener: &'l mut W,
    request: Option<Q>,
    is_over: bool,
}

impl<W, Q: Drop> Drop for Preparing<'_, W, Q> {
    fn drop(self)
        ensures { self.exit.0.now ≡ self.entry.listener.now }
    {
        let Preparing {
            listener: _,
            request,
            is_over: _,
        } = self;
        drop(request);
    }
}

impl<W, Q> Preparing<'_, W, Q> {
    /// Whether a poll has ended the call.
    pub fn is_finished(&self) -> bool
        ensures { result ≡ self.now.is_over }
    {
        self.is_over
    }
}

impl<B: ConnectionSource> Listener<B> {
    /// Prepares a statement, of which the caller says the types of the first parameters; the server finds each that the caller doesn't say. It takes up a
    /// connection where none is held. An error of the link is answered, and no loss: that is told by the next call of `try_recv`.
    /// (PostgreSQL manual, "Message Flow", "Extended Query".)
    pub fn prepare_with(&mut self, preparation: Preparation) -> Preparing<'_, Self, Request>
        ensures same { result.listener.ghost_name ≡ self.entry.ghost_name }
        ensures listener { result.listener.now ≡ self.old }
        ensures request { result.request ≡ Some (to_prepare preparation) }
        ensures over { result.is_over ≡ false }
    {
        let request = prepare_request(self.allocator(), preparation);
        Preparing {
            listener: self,
            request: Some(request),
            is_over: false,
        }
    }
}

impl<B: ConnectionSource> Preparing<'_, Listener<B>, Request>
where
    B::L: Drop,
{
    /// Moves the call on, by at most 256 calls of the link.
    pub fn poll<R: Wait>(&mut self, rt: &R) -> Poll<Result<PgStatement, Error>>
        requires over { self.old.is_over ≡ false }
        requires querying { IsQuerying B.Held.conn kinds.Prepare self.old.request self.old.listener.now.hearing }
        ensures over { self.new.is_over ≡ is_answered result }
        ensures same { self.new.listener.ghost_name ≡ self.old.listener.ghost_name }
        ensures hears { HearsBy B.L.seen B.Held.conn self.old.listener.now.hearing self.new.listener.now.hearing [] }
        ensures channels { self.new.listener.now.hearing.listening.channels ≡ self.old.listener.now.hearing.listening.channels }
        ensures prepares { PreparesIn B.L.seen B.Held.conn B.Held.with_conn B.filling (beside_by B.now self.old.listener.now self.new.listener.now) self.old.request self.new.request self.old.listener.now.hearing self.new.listener.now.hearing result }
        ensures querying { StaysQuerying B.Held.conn kinds.Prepare self.new.request self.new.listener.now.hearing result }
        ensures closed { NotesBy B.L (B.now self.old.listener.now.source).most (B.now self.new.listener.now.source).seat result }
    {
        let mut left = 256;
        match self.listener.poll_query(rt, &mut self.request, &mut left) {
            Poll::Pending => Poll::Pending,
            Poll::Ready(turn) => {
                self.is_over = true;
                Poll::Ready(self.listener.statement_told(turn))
            }
        }
    }
}
