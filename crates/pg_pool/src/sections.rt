ghost use Rattle.std.specs.Prelude.{◌≡◌, ◌+◌, ◌<◌, ◌≤◌, ◌++◌, ◌∷◌, [], true, IfOk, IfErr, length, vec_len};
ghost use Rattle.pg_wire.specs.declared.error.Error.TheVariants.{OutOfMemory};
ghost use Rattle.pg_wire.specs.declared.pool.PoolAct.TheVariants.{Close};
ghost use Rattle.pg_pool.specs.PoolHistory.{state_of, may, after};
ghost use Rattle.pg_pool.specs.PoolLogs.{log_state, log_has_places, UnlessReturn};
ghost use Rattle.pg_pool.specs.Seats.{Becomes};
ghost use Rattle.pg_pool.specs.Pools.{IsPool};
ghost use Rattle.pg_pool.specs.Sections.{Acquires, Releases, GivesBack, ClosedAt, IsAdded, IsLeft};
ghost use Rattle.pg_pool.specs.Audits.{Audits};

use crate::log::PoolLog;
use crate::receipts::{merged, seats_refusal};
use crate::{Acquired, PoolConnection, PoolLedger, PoolSeat, Pooled, Receipt, Released, Ticket};
use pg_wire::{Error, PoolAct, PoolEntry};
use std::alloc::Global;
use std::collections::VecDeque;
use std::marker::Model;
use std::mem;
use std::sync::ledger::{Book, Ledger};

/// What lies under a pool's lock. Each method that takes a participant is one critical section.
#[derive(Drop)]
pub struct PoolCore<G: PoolLedger, C: Pooled> {
    log: PoolLog,
    conns: VecDeque<C>,
    calls: Book<G>,
}

impl<G: PoolLedger, C: Pooled> Model for PoolCore<G, C> {
    ghost use Rattle.std.specs.Prelude.{◌≡◌, ◌+◌, ◌≤◌, length};
    ghost use Rattle.std.specs.VecDeque.{deque_len, deque_capacity};
    ghost use Rattle.pg_pool.specs.PoolLogs.{log_state};
    ghost use Rattle.pg_pool.specs.Sections.{PoolOf, InStep};

    ghost Value = { PoolOf C };

    ghost view = { λ p. record { history = p.log.history; most = p.log.most; kept = p.conns.items } };

    ghost invariant = { λ p. InStep C.clean p.log p.conns.items p.calls.total × (deque_len p.conns + length (log_state p.log).out ≤ deque_capacity p.conns) × (p.log.most ≡ G.most) };
}

impl<G: PoolLedger, C: Pooled> PoolCore<G, C> {
    /// A pool of this maximum, in which nothing was done.
    pub fn new(alloc: Global, most: u32, calls: Book<G>) -> Self
        requires most { most ≡ G.most }
        requires none { calls.total ≡ 0 }
        ensures { (result.history ≡ []) × (result.most ≡ most) × (result.kept ≡ []) }
    {
        PoolCore {
            log: PoolLog::new(alloc, most),
            conns: VecDeque::new(alloc),
            calls,
        }
    }

    /// Hands out the longest idle connection, or leave to make one, or tells why not. A refusal is noted too.
    pub fn acquire(&mut self, seat: &mut PoolSeat<G>) -> Result<Acquired<C>, Error>
        ensures { Acquires C.clean seat.old seat.new self.old self.new result }
    {
        self.log.make_room()?;
        self.conns.reserve(self.log.out_len() + 1)?;
        seat.prepare()?;
        let act = self.log.next_act();
        let name = seat.pool_name();
        let place = noted(&mut self.log, &mut self.calls, seat, act);
        match act {
            PoolAct::GotIdle { id } => match self.conns.pop_front() {
                Some(conn) => {
                    seat.gain(id);
                    Ok(Acquired::Idle(PoolConnection {
                        conn,
                        id,
                        name,
                        close: false,
                    }))
                }
                None => unreachable!(),
            },
            PoolAct::GotNew { id } => {
                seat.gain(id);
                Ok(Acquired::New(Ticket { id, name }))
            }
            PoolAct::Full { .. } => Err(Error::PoolTimedOut { place }),
            PoolAct::WasClosed => Err(Error::PoolClosed { place }),
            PoolAct::Kept { .. } | PoolAct::Dropped { .. } | PoolAct::Close => unreachable!(),
        }
    }

    /// Takes a connection back, and keeps it where it is clean. It takes no memory.
    pub fn release(&mut self, held: PoolConnection<C>, seat: &mut PoolSeat<G>) -> Released<C>
        ensures { Releases C.clean seat.old seat.new self.old self.new held result }
    {
        let PoolConnection {
            conn,
            id,
            name: _,
            close,
        } = held;
        let is_held = seat.has(id) && self.log.is_out(id);
        if !is_held {
            return Released::Foreign(conn);
        }
        let is_kept = !self.log.is_closed() && !close && conn.is_clean();
        seat.lose(id);
        if is_kept {
            noted(&mut self.log, &mut self.calls, seat, PoolAct::Kept { id });
            self.conns.push_back_reserved(conn);
            Released::Kept
        } else {
            noted(
                &mut self.log,
                &mut self.calls,
                seat,
                PoolAct::Dropped { id },
            );
            Released::Closed(conn)
        }
    }

    /// Takes leave to make a connection back. It takes no memory.
    pub fn give_back(&mut self, ticket: Ticket, seat: &mut PoolSeat<G>) -> bool
        ensures { GivesBack seat.old seat.new self.old self.new ticket result }
    {
        let Ticket { id, name: _ } = ticket;
        let is_held = seat.has(id) && self.log.is_out(id);
        if is_held {
            seat.lose(id);
            noted(
                &mut self.log,
                &mut self.calls,
                seat,
                PoolAct::Dropped { id },
            );
        }
        is_held
    }

    /// Closes the pool, and hands out what is idle.
    pub fn close(&mut self, alloc: Global, seat: &mut PoolSeat<G>) -> Result<Vec<C>, Error>
        ensures ok { IfOk result (λ conns. (conns.items ≡ self.old.kept) × IsAdded seat.old seat.new self.old self.new Close seat.old.ids []) }
        ensures err { IfErr result (λ e. (e ≡ OutOfMemory) × IsLeft seat.old seat.new self.old self.new) }
    {
        self.log.make_room()?;
        seat.prepare()?;
        let none = VecDeque::with_capacity(alloc, self.log.out_len())?;
        noted(&mut self.log, &mut self.calls, seat, PoolAct::Close);
        let conns = mem::replace(&mut self.conns, none);
        Ok(conns.into_vec())
    }

    /// Notes that the pool was found closed, and answers the place of that entry. Of an open pool nothing is noted.
    pub fn closed_place(&mut self, seat: &mut PoolSeat<G>) -> Result<Option<u64>, Error>
        ensures { ClosedAt seat.old seat.new self.old self.new result }
    {
        if !self.log.is_closed() {
            return Ok(None);
        }
        self.log.make_room()?;
        seat.prepare()?;
        let place = noted(&mut self.log, &mut self.calls, seat, PoolAct::WasClosed);
        Ok(Some(place))
    }

    /// How many are idle.
    pub fn idle_len(&self) -> usize
        ensures { result ≡ length self.now.kept }
    {
        self.conns.len()
    }

    pub fn is_closed(&self) -> bool
        ensures { result ≡ (state_of self.now.history).closed }
    {
        self.log.is_closed()
    }

    /// What was done, in order.
    pub fn history(&self) -> &[PoolEntry]
        ensures { result.now ≡ self.now.history }
    {
        self.log.entries()
    }

    /// Compares the receipts of all participants with the history, and answers the number of entries.
    pub fn audit(&mut self, seats: Vec<PoolSeat<G>>) -> Result<u64, Error>
        requires all { vec_len seats ≡ G.parts }
        requires some { 0 < vec_len seats }
        ensures audits { Audits self.old.history seats.items result }
        ensures same { self.new ≡ self.old }
    {
        if let Some(error) = seats_refusal(self.log.entries(), seats.as_slice()) {
            return Err(error);
        }
        let mut all = merged(seats);
        self.calls.audit(&mut all);
        Ok(self.log.len())
    }

    /// Every history is one that one thread could have made, no more than the maximum are out or idle, and what is idle is clean.
    pub fn promises(&self)
        ensures { IsPool C.clean G.most self.now }
    {
        self.log.promises();
    }
}

// Adds an entry, of which the participant keeps a receipt, and answers its place.
fn noted<G: Ledger>(
    log: &mut PoolLog,
    calls: &mut Book<G>,
    seat: &mut PoolSeat<G>,
    act: PoolAct,
) -> u64
    requires legal { may log.old.most (log_state log.old) act ≡ true }
    requires room { UnlessReturn act (log_has_places log.old) }
    requires receipt { length seat.old.ids < seat.old.room }
    ensures place { result ≡ length log.old.history }
    ensures history { log.new.history ≡ log.old.history ++ record { seat = seat.old.number; act = act } ∷ [] }
    ensures state { log_state log.new ≡ after (log_state log.old) act }
    ensures most { log.new.most ≡ log.old.most }
    ensures seat { Becomes seat.old seat.new (seat.old.receipts ++ record { place = length log.old.history; entry = record { seat = seat.old.number; act = act } } ∷ []) seat.old.ids }
    ensures seat_room { seat.new.room + 1 ≡ seat.old.room }
    ensures seat_ids { seat.new.id_places ≡ seat.old.id_places }
    ensures total { calls.new.total ≡ calls.old.total + 1 }
{
    let place = log.len();
    let entry = PoolEntry {
        seat: seat.number(),
        act,
    };
    log.note(entry);
    seat.count(calls, Receipt { place, entry });
    place
}
