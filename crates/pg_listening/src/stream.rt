//! The notifications of a listener, one after another.
ghost use Rattle.std.specs.Prelude.{◌≡◌, [], false, is_some};
ghost use Rattle.pg_listening.specs.Hearing.{HearsBy};
ghost use Rattle.pg_listening.specs.Leaving.{NotesClosed, OnReleased};
ghost use Rattle.pg_listening.specs.Waiting.{OnPending};
ghost use Rattle.pg_listening.specs.Listeners.{AnswersNone, FailsWithin, OnTold, WaitsOrSpent, beside_by, ends_by, told_by};

use crate::{ConnectionSource, Listener, PgNotification};
use pg_listen::Released;
use pg_wire::{Error, Poll};
use std::sync::Wait;

/// The notifications of a listener, over lost connections. It must be spent, by `into_released`.
pub struct NotificationStream<B: ConnectionSource> {
    listener: Listener<B>,
    is_over: bool,
}

impl<B: ConnectionSource> Listener<B> {
    /// Its notifications, one after another.
    pub fn into_stream(self) -> NotificationStream<B>
        ensures { result ≡ record { listener = self; is_over = false } }
    {
        NotificationStream {
            listener: self,
            is_over: false,
        }
    }
}

impl<B: ConnectionSource> NotificationStream<B> {
    /// The links of lost connections and of failed reconnects, in order.
    pub fn lost(&self) -> &[B::L]
        ensures { result.now ≡ self.now.listener.hearing.lost }
    {
        self.listener.lost()
    }

    /// Takes them.
    pub fn take_lost(&mut self) -> Vec<B::L>
        ensures lost { result.items ≡ self.old.listener.hearing.lost }
        ensures rest { self.new ≡ record self.old { listener = record self.old.listener { hearing = record self.old.listener.hearing { lost = [] } } } }
    {
        self.listener.take_lost()
    }

    /// Lets its connection go as it stands, or gives the leave to make one back. There is no answer exactly where no connection is held.
    pub fn into_released<R: Wait>(self, rt: &R) -> Option<Released<B::L>>
    where
        B: Drop,
        B::L: Drop,
        ensures some { is_some result ≡ is_some self.listener.hearing.listening.conn }
        ensures releases { OnReleased B.handed B.Held.conn B.Held.with_conn (B.now self.listener.source).most self.listener.hearing.listening.conn result }
    {
        let NotificationStream {
            listener,
            is_over: _,
        } = self;
        listener.into_released(rt)
    }
}

impl<B: ConnectionSource> NotificationStream<B>
where
    B::L: Drop,
{
    /// Waits for the next one, as `PgListener::recv`, by at most 256 calls of links. It answers `None` exactly where an earlier poll has answered an error.
    pub fn poll_next<R: Wait>(&mut self, rt: &R) -> Poll<Option<Result<PgNotification, Error>>>
        ensures hears { HearsBy B.L.seen B.Held.conn self.old.listener.hearing self.new.listener.hearing (told_by result) }
        ensures over { self.new.is_over ≡ ends_by self.old.is_over result }
        ensures none { AnswersNone self.old.is_over result }
        ensures channels { self.new.listener.hearing.listening.channels ≡ self.old.listener.hearing.listening.channels }
        ensures pending { OnPending result (WaitsOrSpent B.L.seen B.Held.conn B.filling self.old.listener.hearing self.new.listener.hearing) }
        ensures fails { OnTold (FailsWithin B.L.seen B.Held.conn B.Held.with_conn B.filling (beside_by B.now self.old.listener self.new.listener) self.old.listener.hearing self.new.listener.hearing) result }
        ensures closed { OnTold (NotesClosed B.L (B.now self.old.listener.source).most (B.now self.new.listener.source).seat) result }
    {
        if self.is_over {
            return Poll::Ready(None);
        }
        let mut left = 256;
        match self.listener.poll_recv(rt, &mut left) {
            Poll::Pending => Poll::Pending,
            Poll::Ready(Ok(notification)) => Poll::Ready(Some(Ok(notification))),
            Poll::Ready(Err(e)) => {
                self.is_over = true;
                Poll::Ready(Some(Err(e)))
            }
        }
    }
}
