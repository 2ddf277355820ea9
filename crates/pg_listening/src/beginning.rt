//! How a listener begins.
ghost use Rattle.std.specs.Prelude.{◌≡◌, true, false, None, Some, IsSome, is_some, option_map};
ghost use Rattle.pg_listening.specs.Hearing.{fresh_hearing};
ghost use Rattle.pg_listening.specs.Sources.{pool_source};
ghost use Rattle.pg_listening.specs.Listeners.{Connects, HandsOn, LetsGo, holds, ignoring_close, is_answered};

use crate::{ConnectionSource, Hearing, Listener, PgListener, PoolHolder, PoolSource, SeatHolder};
use pg_conn::Dial;
use pg_listen::{PoolLedger, PoolSeat, Released};
use pg_wire::{Error, Poll};
use std::alloc::Global;
use std::sync::Wait;

/// The state of `connect_with`. It must be spent, by `into_released`.
pub type Connect<G, P, S, D> = Connecting<PgListener<G, P, S, D>>;

/// That state, over whatever listens.
pub struct Connecting<W> {
    listener: Option<W>,
    is_over: bool,
}

/// A listener on a pool that it is lent, with a participant of it.
pub fn connect_with<
    G: PoolLedger,
    P: PoolHolder<G, D::L>,
    S: SeatHolder<Seat = PoolSeat<G>>,
    D: Dial,
>(alloc: Global, pool: P, seat: S, dial: D) -> Connect<G, P, S, D>
    requires { (S.seat seat).name ≡ (P.pool pool).name }
    ensures listener { result.listener ≡ Some (record { source = pool_source P.pool S.seat D.seen G.most pool seat dial; hearing = fresh_hearing (P.pool pool).name false }) }
    ensures over { result.is_over ≡ false }
{
    let hearing = Hearing::new(alloc, pool.pool_ref().name(), false);
    let source = PoolSource::new(pool, seat, dial);
    Connecting {
        listener: Some(Listener { source, hearing }),
        is_over: false,
    }
}

impl<W> Connecting<W> {
    /// Whether a poll has ended the call.
    pub fn is_finished(&self) -> bool
        ensures { result ≡ self.now.is_over }
    {
        self.is_over
    }

    // The listener is handed on, and the call is over.
    fn hand_on(&mut self) -> Poll<Result<W, Error>>
        requires { IsSome self.old.listener }
        ensures hands { HandsOn self.old.listener self.new.listener result }
        ensures over { self.new.is_over ≡ true }
    {
        self.is_over = true;
        match self.listener.take() {
            Some(listener) => Poll::Ready(Ok(listener)),
            None => unreachable!(),
        }
    }
}

impl<B: ConnectionSource> Connecting<Listener<B>> {
    // It is to listen on where its pool was closed.
    pub(crate) fn ignore_close(&mut self)
        ensures { self.new ≡ record self.old { listener = option_map ignoring_close self.old.listener } }
    {
        match &mut self.listener {
            Some(listener) => listener.ignore_pool_close_event(true),
            None => {}
        }
    }

    /// Gives it up: lets a connection go as it stands, or gives the leave to make one back. There is no answer exactly where no connection is held.
    pub fn into_released<R: Wait>(self, rt: &R) -> Option<Released<B::L>>
    where
        B: Drop,
        B::L: Drop,
        ensures some { is_some result ≡ holds self.listener }
        ensures releases { LetsGo B.handed B.Held.conn B.Held.with_conn B.now self.listener result }
    {
        let Connecting {
            listener,
            is_over: _,
        } = self;
        match listener {
            Some(listener) => listener.into_released(rt),
            None => None,
        }
    }
}

impl<B: ConnectionSource> Connecting<Listener<B>>
where
    B::L: Drop,
{
    /// Moves the call on, by at most 256 calls of the link.
    pub fn poll<R: Wait>(&mut self, rt: &R) -> Poll<Result<Listener<B>, Error>>
        requires over { self.old.is_over ≡ false }
        requires listener { IsSome self.old.listener }
        ensures over { self.new.is_over ≡ is_answered result }
        ensures connects { Connects B.L.seen B.Held.conn B.Held.with_conn B.filling B.now self.old.listener self.new.listener result }
    {
        let Some(listener) = &mut self.listener else {
            unreachable!()
        };
        let mut left = 256;
        match listener.poll_connect(rt, &mut left) {
            Poll::Pending => Poll::Pending,
            Poll::Ready(Err(e)) => {
                self.is_over = true;
                Poll::Ready(Err(e))
            }
            Poll::Ready(Ok(())) => self.hand_on(),
        }
    }
}
