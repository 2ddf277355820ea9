//! The calls `recv` and `try_recv` of a listener.
ghost use Rattle.std.specs.Prelude.{◌≡◌, true, false, []};
ghost use Rattle.pg_conn.specs.News.{given};
ghost use Rattle.pg_listening.specs.Buffers.{buffered};
ghost use Rattle.pg_listening.specs.Failing.{OnFailed};
ghost use Rattle.pg_listening.specs.Hearing.{GivesOldest, HearsBy, TellsLoss, buffers_of, gave_by};
ghost use Rattle.pg_listening.specs.Waiting.{AsksClosed, NotesBy, OnNone, OnPending, ReadiesBy};
ghost use Rattle.pg_listening.specs.Listeners.{Caused, FailsWithin, WaitsOrSpent, beside_by, is_answered};

use crate::answering::is_answered;
use crate::{ConnectionSource, Listener, PgListener, PgNotification};
use pg_wire::{Error, Poll};
use std::sync::Wait;

/// The state of `PgListener::try_recv`. Dropped before its end it leaves the listener as it stands, and what was read is buffered.
pub type TryRecv<'l, G, P, S, D> = TryReceiving<'l, PgListener<G, P, S, D>>;

/// That state, over whatever listens.
pub struct TryReceiving<'l, W> {
    listener: &'l mut W,
    is_over: bool,
}

/// The state of `PgListener::recv`. Dropped before its end it leaves the listener as it stands, and what was read is buffered.
pub type Recv<'l, G, P, S, D> = Receiving<'l, PgListener<G, P, S, D>>;

/// That state, over whatever listens.
pub struct Receiving<'l, W> {
    listener: &'l mut W,
    is_over: bool,
}

impl<W> Drop for TryReceiving<'_, W> {
    fn drop(self)
        ensures { self.exit.0.now ≡ self.entry.listener.now }
    {
        let TryReceiving {
            listener: _,
            is_over: _,
        } = self;
    }
}

impl<W> TryReceiving<'_, W> {
    /// Whether a poll has ended the call.
    pub fn is_finished(&self) -> bool
        ensures { result ≡ self.now.is_over }
    {
        self.is_over
    }
}

impl<W> Drop for Receiving<'_, W> {
    fn drop(self)
        ensures { self.exit.0.now ≡ self.entry.listener.now }
    {
        let Receiving {
            listener: _,
            is_over: _,
        } = self;
    }
}

impl<W> Receiving<'_, W> {
    /// Whether a poll has ended the call.
    pub fn is_finished(&self) -> bool
        ensures { result ≡ self.now.is_over }
    {
        self.is_over
    }
}

impl<B: ConnectionSource> Listener<B> {
    /// Waits for a notification, or for a loss of the connection, which is told once.
    pub fn try_recv(&mut self) -> TryReceiving<'_, Self>
        ensures same { result.listener.ghost_name ≡ self.entry.ghost_name }
        ensures listener { result.listener.now ≡ record self.old { hearing = record self.old.hearing { is_lost = false } } }
        ensures over { result.is_over ≡ false }
    {
        self.hearing.set_lost(false);
        TryReceiving {
            listener: self,
            is_over: false,
        }
    }

    /// Waits for a notification, over lost connections.
    pub fn recv(&mut self) -> Receiving<'_, Self>
        ensures same { result.listener.ghost_name ≡ self.entry.ghost_name }
        ensures listener { result.listener.now ≡ record self.old { hearing = record self.old.hearing { is_lost = false } } }
        ensures over { result.is_over ≡ false }
    {
        self.hearing.set_lost(false);
        Receiving {
            listener: self,
            is_over: false,
        }
    }
}

impl<B: ConnectionSource> TryReceiving<'_, Listener<B>>
where
    B::L: Drop,
{
    /// Moves the call on, by at most 256 calls of links. `None` tells that the connection was lost in this call.
    pub fn poll<R: Wait>(&mut self, rt: &R) -> Poll<Result<Option<PgNotification>, Error>>
        requires over { self.old.is_over ≡ false }
        ensures over { self.new.is_over ≡ is_answered result }
        ensures same { self.new.listener.ghost_name ≡ self.old.listener.ghost_name }
        ensures hears { HearsBy B.L.seen B.Held.conn self.old.listener.now.hearing self.new.listener.now.hearing (gave_by result) }
        ensures channels { self.new.listener.now.hearing.listening.channels ≡ self.old.listener.now.hearing.listening.channels }
        ensures loss { TellsLoss B.L.seen B.Held.conn self.old.listener.now.hearing self.new.listener.now.hearing result }
        ensures oldest { self.old.listener.now.hearing.is_lost ≡ false → GivesOldest (buffered (buffers_of B.L.seen B.Held.conn self.old.listener.now.hearing)) result }
        ensures again { OnNone result (self.old.listener.now.hearing.is_eager ≡ true → ReadiesBy B.L.seen B.Held.conn B.Held.with_conn self.old.listener.now.hearing self.new.listener.now.hearing) }
        ensures causes { Caused B.L.seen B.Held.conn B.Held.with_conn B.filling (beside_by B.now self.old.listener.now self.new.listener.now) self.old.listener.now.hearing self.new.listener.now.hearing result }
        ensures closed { NotesBy B.L (B.now self.old.listener.now.source).most (B.now self.new.listener.now.source).seat result }
        ensures asks { self.old.listener.now.hearing.is_lost ≡ false → buffered (buffers_of B.L.seen B.Held.conn self.old.listener.now.hearing) ≡ [] → self.old.listener.now.hearing.ignores_close ≡ false → AsksClosed B.L (B.now self.old.listener.now.source).most (B.now self.old.listener.now.source).seat result }
    {
        let mut left = 256;
        let answer = self.listener.poll_try_recv(rt, &mut left);
        self.is_over = is_answered(&answer);
        answer
    }
}

impl<B: ConnectionSource> Receiving<'_, Listener<B>>
where
    B::L: Drop,
{
    /// Moves the call on, by at most 256 calls of links.
    pub fn poll<R: Wait>(&mut self, rt: &R) -> Poll<Result<PgNotification, Error>>
        requires over { self.old.is_over ≡ false }
        ensures over { self.new.is_over ≡ is_answered result }
        ensures same { self.new.listener.ghost_name ≡ self.old.listener.ghost_name }
        ensures hears { HearsBy B.L.seen B.Held.conn self.old.listener.now.hearing self.new.listener.now.hearing (given result) }
        ensures channels { self.new.listener.now.hearing.listening.channels ≡ self.old.listener.now.hearing.listening.channels }
        ensures pending { OnPending result (WaitsOrSpent B.L.seen B.Held.conn B.filling self.old.listener.now.hearing self.new.listener.now.hearing) }
        ensures fails { OnFailed (FailsWithin B.L.seen B.Held.conn B.Held.with_conn B.filling (beside_by B.now self.old.listener.now self.new.listener.now) self.old.listener.now.hearing self.new.listener.now.hearing) result }
        ensures closed { NotesBy B.L (B.now self.old.listener.now.source).most (B.now self.new.listener.now.source).seat result }
    {
        let mut left = 256;
        let answer = self.listener.poll_recv(rt, &mut left);
        self.is_over = is_answered(&answer);
        answer
    }
}
