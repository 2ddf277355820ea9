//! How a listener ends.
ghost use Rattle.std.specs.Prelude.{◌≡◌, true, false, None, Some};
ghost use Rattle.pg_listening.specs.Listeners.{Releases, goes_on_in, is_answered};

use crate::{ChannelChange, ConnectionSource, Listener, PgListener};
use pg_listen::Released;
use pg_wire::{Error, Poll};
use std::sync::Wait;

/// The state of `PgListener::release`. It does nothing before its first poll, and must be spent, by `into_listener`.
pub type Release<G, P, S, D> = Releasing<PgListener<G, P, S, D>>;

/// That state, over whatever listens.
pub struct Releasing<W> {
    listener: Option<W>,
    change: Option<ChannelChange>,
    is_over: bool,
}

impl<W> Releasing<W> {
    /// The listener, which is gone exactly where a poll has answered Ok.
    pub fn into_listener(self) -> Option<W>
        ensures { result ≡ self.listener }
    {
        let Releasing {
            listener,
            change,
            is_over: _,
        } = self;
        drop(change);
        listener
    }

    /// Whether a poll has ended the call.
    pub fn is_finished(&self) -> bool
        ensures { result ≡ self.now.is_over }
    {
        self.is_over
    }
}

impl<B: ConnectionSource> Listener<B> {
    /// Listens to no channel any longer, and gives the connection back to its pool. Where none is held nothing is sent.
    pub fn release(self) -> Releasing<Self>
        ensures { result ≡ record { listener = Some self; change = Some ChannelChange.UnlistenAll; is_over = false } }
    {
        Releasing {
            listener: Some(self),
            change: Some(ChannelChange::UnlistenAll),
            is_over: false,
        }
    }
}

impl<B: ConnectionSource + Drop> Releasing<Listener<B>>
where
    B::L: Drop,
{
    /// Moves the call on, by at most 256 calls of the link. It answers what became of the connection, or `None` where none was held.
    pub fn poll<R: Wait>(&mut self, rt: &R) -> Poll<Result<Option<Released<B::L>>, Error>>
        requires over { self.old.is_over ≡ false }
        requires goes { goes_on_in self.old.change self.old.listener ≡ true }
        ensures over { self.new.is_over ≡ is_answered result }
        ensures releases { Releases B.L.seen B.Held.conn B.Held.with_conn B.handed B.filling B.now self.old.listener self.new.listener result }
        ensures begun { self.new.change ≡ None }
    {
        let Some(listener) = &mut self.listener else {
            unreachable!()
        };
        let mut left = 256;
        match listener.poll_asking(rt, &mut self.change, &mut left) {
            Poll::Pending => Poll::Pending,
            Poll::Ready(Err(e)) => {
                self.is_over = true;
                Poll::Ready(Err(e))
            }
            Poll::Ready(Ok(())) => {
                self.is_over = true;
                match self.listener.take() {
                    Some(listener) => Poll::Ready(Ok(listener.into_released(rt))),
                    None => unreachable!(),
                }
            }
        }
    }
}
