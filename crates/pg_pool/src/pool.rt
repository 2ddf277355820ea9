ghost use Rattle.std.specs.Prelude.{◌≡◌, ◌<◌, [], IfOk, IfErr, vec_len};
ghost use Rattle.pg_wire.specs.declared.error.Error.TheVariants.{OutOfMemory};
ghost use Rattle.pg_wire.specs.declared.pool.PoolAct.TheVariants.{Close};
ghost use Rattle.pg_pool.specs.Audits.{Audits};
ghost use Rattle.pg_pool.specs.PoolHistory.{state_of};
ghost use Rattle.pg_pool.specs.Pools.{Section, new_seats, pool_of, told_seats};
ghost use Rattle.pg_pool.specs.Sections.{Acquires, ClosedAt, GivesBack, IsAdded, IsLeft, Releases};

use crate::{Acquired, PoolConnection, PoolCore, PoolLedger, PoolSeat, Pooled, Released, Ticket};
use pg_wire::Error;
use std::alloc::{AllocError, Global};
use std::marker::Model;
use std::sync::ledger::{Blank, Ledger, Share};
use std::sync::{Mutex, Wait};

/// Connections up to a maximum, under one lock, and how they are made. Each participant has a `PoolSeat`, and shows it at each call.
///
/// No call holds the lock while it waits for a server: the polls of a connection's calls take no runtime, so they can take no lock.
pub struct Pool<G: PoolLedger, C: Pooled, O> {
    name: u64,
    options: O,
    core: Mutex<PoolCore<G, C>>,
}

impl<G: PoolLedger, C: Pooled + Drop, O: Drop> Drop for Pool<G, C, O> {
    fn drop(self) {
        let Pool {
            name: _,
            options: _,
            core: _,
        } = self;
    }
}

impl<G: PoolLedger, C: Pooled, O> Model for Pool<G, C, O> {
    ghost use Rattle.pg_pool.specs.Pools.{PoolSeen};

    ghost Value = { PoolSeen O };

    ghost view = { λ p. record { name = p.name; options = p.options } };
}

impl<G: PoolLedger, C: Pooled, O: Drop> Pool<G, C, O> {
    /// A pool of this name without a connection, of this maximum, and so many participants. The ledger has a part for each.
    pub fn build(
        alloc: Global,
        name: u64,
        options: O,
        most: u32,
        seats: u32,
        blank: Blank,
    ) -> Result<(Self, Vec<PoolSeat<G>>), AllocError>
        requires most { most ≡ G.most }
        requires ledger { blank.name ≡ G.name }
        requires parts { (blank.parts ≡ G.parts) × (blank.parts ≡ seats) }
        ensures pool { IfOk result (λ r. r.0 ≡ record { name = name; options = options }) }
        ensures seats { IfOk result (λ r. (told_seats r.1.items ≡ new_seats name seats) × (vec_len r.1 ≡ seats)) }
    {
        let (calls, all) = blank.open::<G>();
        let seats = participants(alloc, name, seats, all)?;
        let core = Mutex::new(PoolCore::new(alloc, most, calls));
        Ok((
            Pool {
                name,
                options,
                core,
            },
            seats,
        ))
    }
}

impl<G: PoolLedger, C: Pooled, O> Pool<G, C, O> {
    pub fn name(&self) -> u64
        ensures { result ≡ self.now.name }
    {
        self.name
    }

    /// How its connections are made.
    pub fn connect_options(&self) -> &O
        ensures { result.now ≡ self.now.options }
    {
        &self.options
    }

    /// Hands out the longest idle connection, or leave to make one. It waits for the lock alone: where the maximum is out it answers
    /// `PoolTimedOut`, and in a closed pool `PoolClosed`, with the place of that entry.
    pub fn acquire(&self, rt: &impl Wait, seat: &mut PoolSeat<G>) -> Result<Acquired<C>, Error>
        requires { seat.old.name ≡ self.now.name }
        ensures named { IfOk result (λ acquired. pool_of acquired ≡ self.now.name) }
        ensures seat { seat.new.name ≡ seat.old.name }
        ensures acquires { Section C.clean G.most (λ a b. Acquires C.clean seat.old seat.new a b result) }
    {
        let mut core = self.core.lock(rt);
        core.promises();
        let acquired = core.acquire(seat);
        core.promises();
        acquired
    }

    /// Notes that the pool was found closed, and answers the place of that entry. Of an open pool nothing is noted.
    pub fn closed_place(&self, rt: &impl Wait, seat: &mut PoolSeat<G>) -> Result<Option<u64>, Error>
        requires { seat.old.name ≡ self.now.name }
        ensures seat { seat.new.name ≡ seat.old.name }
        ensures tells { Section C.clean G.most (λ a b. ClosedAt seat.old seat.new a b result) }
    {
        let mut core = self.core.lock(rt);
        core.promises();
        let place = core.closed_place(seat);
        core.promises();
        place
    }

    /// Closes the pool, and hands out what is idle. What is out is let go once it comes back.
    pub fn close(
        &self,
        rt: &impl Wait,
        alloc: Global,
        seat: &mut PoolSeat<G>,
    ) -> Result<Vec<C>, Error>
        requires { seat.old.name ≡ self.now.name }
        ensures seat { seat.new.name ≡ seat.old.name }
        ensures closes { Section C.clean G.most (λ a b. IfOk result (λ conns. (conns.items ≡ a.kept) × IsAdded seat.old seat.new a b Close seat.old.ids []) × IfErr result (λ e. (e ≡ OutOfMemory) × IsLeft seat.old seat.new a b)) }
    {
        let mut core = self.core.lock(rt);
        core.promises();
        let conns = core.close(alloc, seat);
        core.promises();
        conns
    }

    pub fn is_closed(&self, rt: &impl Wait) -> bool
        ensures { Section C.clean G.most (λ a b. (b ≡ a) × (result ≡ (state_of a.history).closed)) }
    {
        let core = self.core.lock(rt);
        core.promises();
        core.is_closed()
    }

    /// Compares the receipts of all participants with the history, and answers the number of entries.
    pub fn audit(&self, rt: &impl Wait, seats: Vec<PoolSeat<G>>) -> Result<u64, Error>
        requires all { vec_len seats ≡ G.parts }
        requires some { 0 < vec_len seats }
        ensures { Section C.clean G.most (λ a b. (b ≡ a) × Audits a.history seats.items result) }
    {
        let mut core = self.core.lock(rt);
        core.promises();
        core.audit(seats)
    }
}

impl<C: Pooled> PoolConnection<C> {
    /// Gives it back to its pool, which keeps it where it is clean. It takes no memory.
    pub fn release<G: PoolLedger, O>(
        self,
        rt: &impl Wait,
        pool: &Pool<G, C, O>,
        seat: &mut PoolSeat<G>,
    ) -> Released<C>
        requires mine { self.name ≡ pool.now.name }
        requires theirs { seat.old.name ≡ pool.now.name }
        ensures seat { seat.new.name ≡ seat.old.name }
        ensures releases { Section C.clean G.most (λ a b. Releases C.clean seat.old seat.new a b self result) }
    {
        let mut core = pool.core.lock(rt);
        core.promises();
        let released = core.release(self, seat);
        core.promises();
        released
    }
}

impl Ticket {
    /// Gives the leave back to its pool. It takes no memory. The participant that doesn't hold it is answered false, and nothing is noted.
    pub fn give_back<G: PoolLedger, C: Pooled, O>(
        self,
        rt: &impl Wait,
        pool: &Pool<G, C, O>,
        seat: &mut PoolSeat<G>,
    ) -> bool
        requires mine { self.name ≡ pool.now.name }
        requires theirs { seat.old.name ≡ pool.now.name }
        ensures seat { seat.new.name ≡ seat.old.name }
        ensures gives_back { Section C.clean G.most (λ a b. GivesBack seat.old seat.new a b self result) }
    {
        let mut core = pool.core.lock(rt);
        core.promises();
        let is_held = core.give_back(self, seat);
        core.promises();
        is_held
    }
}

// A participant for each part of the ledger.
#[tactic(auto, using(crate::proofs::SeatLaws::told_seats_more))]
fn participants<G: Ledger>(
    alloc: Global,
    name: u64,
    count: u32,
    all: Share<G>,
) -> Result<Vec<PoolSeat<G>>, AllocError>
    requires parts { all.parts ≡ count }
    requires amount { all.amount ≡ 0 }
    ensures { IfOk result (λ seats. (told_seats seats.items ≡ new_seats name count) × (vec_len seats ≡ count)) }
{
    let mut rest = all;
    let mut seats = Vec::new(alloc);
    for number in 0..count {
        let share = rest.split_off(1, 0);
        seats.push(PoolSeat::new(alloc, number, name, share))?;
    }
    Ok(seats)
}
