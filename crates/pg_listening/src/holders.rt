//! What holds a pool, and a participant of it: itself, or a reference to it. A listener that is generic over both works on a pool that it is lent, and on
//! one of its own.
ghost use Rattle.std.specs.Prelude.{◌≡◌, refl};
ghost use Rattle.std.specs.Borrow.{sem, Lends};
ghost use denote.Ref.{at_last};

use pg_listen::{PgPool, PoolLedger, PoolSeat};

/// What holds a pool.
pub trait PoolHolder<G: PoolLedger, L> {
    ghost use Rattle.pg_listen.specs.Handed.{PoolSeen};

    /// The pool that it holds.
    ghost pool: { Self → PoolSeen };

    fn pool_ref(&self) -> &PgPool<G, L>
        ensures { result.now ≡ pool self.now };
}

impl<G: PoolLedger, L> PoolHolder<G, L> for PgPool<G, L> {
    ghost pool = { λ p. p };

    fn pool_ref(&self) -> &PgPool<G, L> {
        self
    }
}

impl<G: PoolLedger, L, P: PoolHolder<G, L>> PoolHolder<G, L> for &P {
    ghost pool = { λ r. P.pool r.now };

    fn pool_ref(&self) -> &PgPool<G, L> {
        (**self).pool_ref()
    }
}

/// What holds a participant of a pool.
pub trait SeatHolder {
    /// The participant, a `PoolSeat`.
    type Seat;

    /// The participant that it holds.
    ghost seat: { Self → Self.Seat };

    /// The same holder, of another state of the participant.
    ghost with_seat: { Self → Self.Seat → Self };

    /// The participant, to work with: nothing else of the holder changes.
    fn seat_mut(&mut self) -> &mut Self::Seat
        ensures* lends { sem 𝓛 (Lends Self.row Self.Seat.row self.entry result (with_seat self.old)) }
        ensures value { result.now ≡ seat self.old };

    ghost written: { (x : Self) (w : Self.Seat) → seat (with_seat x w) ≡ w };
}

impl<G: PoolLedger> SeatHolder for PoolSeat<G> {
    type Seat = PoolSeat<G>;

    ghost seat = { λ s. s };

    ghost with_seat = { λ _ w. w };

    ghost written = { λ _ _. refl };

    fn seat_mut(&mut self) -> &mut PoolSeat<G> {
        self
    }
}

impl<S: SeatHolder> SeatHolder for &mut S {
    type Seat = S::Seat;

    ghost seat = { λ r. S.seat r.now };

    ghost with_seat = { λ r w. at_last r (S.with_seat r.now w) };

    ghost written = { λ r w. S.written r.now w };

    fn seat_mut(&mut self) -> &mut S::Seat {
        (**self).seat_mut()
    }
}
