//! Connections of a pool, with what holds it and its participant.
ghost use Rattle.std.specs.Prelude.{◌≡◌, refl};
ghost use Rattle.pg_listening.specs.Sources.{pool_source};

use crate::dialling::fill;
use crate::handing::{as_refusal, link_back};
use crate::starting::{give_up, with_link};
use crate::{ConnectionSource, Found, PoolHolder, SeatHolder};
use pg_conn::Dial;
use pg_listen::{Acquired, EstablishPooled, PoolConnection, PoolLedger, PoolSeat, Released};
use pg_wire::{Error, Poll};
use std::alloc::Global;
use std::marker::{Model, PhantomData};
use std::sync::Wait;

/// A pool and a participant of it, each by what holds it, and a dial.
pub struct PoolSource<
    G: PoolLedger,
    P: PoolHolder<G, D::L>,
    S: SeatHolder<Seat = PoolSeat<G>>,
    D: Dial,
> {
    pool: P,
    seat: S,
    dial: D,
    ledger: PhantomData<G>,
}

// By hand, so that whoever lets one go makes one call.
impl<
    G: PoolLedger,
    P: PoolHolder<G, D::L> + Drop,
    S: SeatHolder<Seat = PoolSeat<G>> + Drop,
    D: Dial + Drop,
> Drop for PoolSource<G, P, S, D> {
    fn drop(self) {
        let PoolSource {
            pool: _,
            seat: _,
            dial: _,
            ledger: _,
        } = self;
    }
}

impl<G: PoolLedger, P: PoolHolder<G, D::L>, S: SeatHolder<Seat = PoolSeat<G>>, D: Dial> Model
    for PoolSource<G, P, S, D> {
    ghost use Rattle.std.specs.Prelude.{◌≡◌};
    ghost use Rattle.pg_listening.specs.Sources.{PoolSourceOf, pool_source};

    ghost Value = { PoolSourceOf P S D };

    ghost view = { λ s. pool_source P.pool S.seat D.seen G.most s.pool s.seat s.dial };

    ghost invariant = { λ s. (S.seat s.seat).name ≡ (P.pool s.pool).name };
}

impl<G: PoolLedger, P: PoolHolder<G, D::L>, S: SeatHolder<Seat = PoolSeat<G>>, D: Dial> PoolSource<
    G,
    P,
    S,
    D,
> {
    pub fn new(pool: P, seat: S, dial: D) -> Self
        requires { (S.seat seat).name ≡ (P.pool pool).name }
        ensures { result ≡ pool_source P.pool S.seat D.seen G.most pool seat dial }
    {
        PoolSource {
            pool,
            seat,
            dial,
            ledger: PhantomData,
        }
    }
}

impl<
    G: PoolLedger,
    P: PoolHolder<G, D::L>,
    S: SeatHolder<Seat = PoolSeat<G>>,
    D: Dial,
> ConnectionSource for PoolSource<G, P, S, D> {
    type L = D::L;

    type Held = PoolConnection<D::L>;

    type Startup = EstablishPooled<D::L>;

    ghost handed = { λ h. h };

    ghost filling = { λ f. f };

    ghost now = { λ s. s.now };

    ghost handed_with = { λ _ _. refl };

    fn find<R: Wait>(
        &mut self,
        rt: &R,
        alloc: Global,
    ) -> Result<Found<PoolConnection<D::L>, EstablishPooled<D::L>>, (Error, Option<D::L>)> {
        let pool = self.pool.pool_ref();
        let seat = self.seat.seat_mut();
        match pool.acquire(rt, seat) {
            Ok(Acquired::Idle(held)) => Ok(Found::Held(held)),
            Ok(Acquired::New(ticket)) => fill(rt, alloc, pool, seat, ticket, &mut self.dial),
            Err(e) => Err((e, None)),
        }
    }

    fn poll_startup<R: Wait>(
        &mut self,
        rt: &R,
        startup: &mut Option<EstablishPooled<D::L>>,
        left: &mut u16,
    ) -> Poll<Result<PoolConnection<D::L>, (Error, Option<D::L>)>>
    where
        D::L: Drop,
    {
        let Some(state) = startup else { unreachable!() };
        match state.poll_within(left) {
            Poll::Pending => Poll::Pending,
            Poll::Ready(answer) => {
                let pool = self.pool.pool_ref();
                let seat = self.seat.seat_mut();
                let link = give_up(rt, startup.take(), pool, seat);
                Poll::Ready(with_link(answer, link))
            }
        }
    }

    fn give_up<R: Wait>(
        &mut self,
        rt: &R,
        startup: &mut Option<EstablishPooled<D::L>>,
    ) -> Option<D::L> {
        let pool = self.pool.pool_ref();
        let seat = self.seat.seat_mut();
        give_up(rt, startup.take(), pool, seat)
    }

    fn close<R: Wait>(&mut self, rt: &R, held: &mut Option<PoolConnection<D::L>>) -> Option<D::L> {
        let Some(conn) = held else { return None };
        conn.close_on_drop();
        link_back(self.release(rt, held))
    }

    fn release<R: Wait>(
        &mut self,
        rt: &R,
        held: &mut Option<PoolConnection<D::L>>,
    ) -> Option<Released<D::L>> {
        match held.take() {
            Some(held) => {
                let pool = self.pool.pool_ref();
                let seat = self.seat.seat_mut();
                Some(held.release(rt, pool, seat))
            }
            None => None,
        }
    }

    fn refuse_closed<R: Wait>(&mut self, rt: &R) -> Result<(), Error> {
        let pool = self.pool.pool_ref();
        let seat = self.seat.seat_mut();
        as_refusal(pool.closed_place(rt, seat))
    }
}
