//! The call `fetch_optional` of a listener.
ghost use Rattle.std.specs.Prelude.{◌≡◌, false, [], None, Some};
ghost use Rattle.pg_call.specs.Answers.{optional_turn};
ghost use Rattle.pg_call.specs.declared.kind.How.TheVariants as hows;
ghost use Rattle.pg_call.specs.declared.kind.Kind.TheVariants as kinds;
ghost use Rattle.pg_conn.specs.States.{ends_call, turn_of};
ghost use Rattle.pg_listening.specs.Hearing.{HearsBy};
ghost use Rattle.pg_listening.specs.Querying.{IsQuerying, NotesTurn, QueriesOn};
ghost use Rattle.pg_listening.specs.Listeners.{QueriesIn, beside_by};

use crate::answering::ends_call;
use crate::{ConnectionSource, Listener, PgListener};
use pg_call::Request;
use pg_conn::{PgRow, Query};
use pg_wire::{Error, Poll};
use std::sync::Wait;

/// The state of `PgListener::fetch_optional`. It does nothing before its first poll. Dropped before its end it leaves the listener as it stands, and what was
/// read of notifications is buffered.
pub type FetchOptional<'l, G, P, S, D> = FetchingOptional<'l, PgListener<G, P, S, D>, Request>;

/// That state, over whatever listens.
pub struct FetchingOptional<'l, W, Q> {
    listener: &'l mut W,
    request: Option<Q>,
    is_over: bool,
}

impl<W, Q: Drop> Drop for FetchingOptional<'_, W, Q> {
    fn drop(self)
        ensures { self.exit.0.now ≡ self.entry.listener.now }
    {
        let FetchingOptional {
            listener: _,
            request,
            is_over: _,
        } = self;
        drop(request);
    }
}

impl<W, Q> FetchingOptional<'_, W, Q> {
    /// Whether a poll has ended the call.
    pub fn is_finished(&self) -> bool
        ensures { result ≡ self.now.is_over }
    {
        self.is_over
    }
}

impl<B: ConnectionSource> Listener<B> {
    /// Runs a query, and gives its first row, if there is one. It takes up a connection where none is held. An error of the link is
    /// answered, and no loss: that is told by the next call of `try_recv`.
    pub fn fetch_optional(&mut self, query: Query) -> FetchingOptional<'_, Self, Request>
        ensures same { result.listener.ghost_name ≡ self.entry.ghost_name }
        ensures listener { result.listener.now ≡ self.old }
        ensures request { result.request ≡ Some (Request.FetchOptional query) }
        ensures over { result.is_over ≡ false }
    {
        FetchingOptional {
            listener: self,
            request: Some(Request::FetchOptional(query)),
            is_over: false,
        }
    }
}

impl<B: ConnectionSource> FetchingOptional<'_, Listener<B>, Request>
where
    B::L: Drop,
{
    /// Moves the call on, by at most 256 calls of the link.
    pub fn poll<R: Wait>(&mut self, rt: &R) -> Poll<Result<Option<PgRow>, Error>>
        requires over { self.old.is_over ≡ false }
        requires querying { IsQuerying B.Held.conn (kinds.Run hows.FetchOptional) self.old.request self.old.listener.now.hearing }
        ensures over { self.new.is_over ≡ ends_call (turn_of optional_turn result) }
        ensures same { self.new.listener.ghost_name ≡ self.old.listener.ghost_name }
        ensures hears { HearsBy B.L.seen B.Held.conn self.old.listener.now.hearing self.new.listener.now.hearing [] }
        ensures channels { self.new.listener.now.hearing.listening.channels ≡ self.old.listener.now.hearing.listening.channels }
        ensures queries { QueriesIn B.L.seen B.Held.conn B.Held.with_conn B.filling (beside_by B.now self.old.listener.now self.new.listener.now) self.old.request self.new.request self.old.listener.now.hearing self.new.listener.now.hearing (turn_of optional_turn result) }
        ensures querying { QueriesOn B.Held.conn (kinds.Run hows.FetchOptional) self.new.request self.new.listener.now.hearing (turn_of optional_turn result) }
        ensures closed { NotesTurn B.L (B.now self.old.listener.now.source).most (B.now self.new.listener.now.source).seat (turn_of optional_turn result) }
    {
        let mut left = 256;
        match self.listener.poll_query(rt, &mut self.request, &mut left) {
            Poll::Pending => Poll::Pending,
            Poll::Ready(turn) => {
                self.is_over = ends_call(&turn);
                Poll::Ready(turn.into_optional())
            }
        }
    }
}
