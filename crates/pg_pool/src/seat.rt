ghost use Rattle.std.specs.Prelude.{◌≡◌, ◌+◌, ◌<◌, ◌≤◌, ◌++◌, ◌∷◌, [], true, OnOk, length};
ghost use Rattle.pg_pool.specs.PoolHistory.{has, without};
ghost use Rattle.pg_pool.specs.Seats.{Becomes};

use crate::ids::take_out;
use pg_wire::PoolEntry;
use std::alloc::{AllocError, Global};
use std::marker::Model;
use std::sync::ledger::{Book, Ledger, Share};

/// What a participant was told of one of its calls: the entry that the call added to the pool's history, and its place.
#[derive(Clone, Copy, Debug, PartialEq, Eq)]
pub struct Receipt {
    pub place: u64,
    pub entry: PoolEntry,
}

/// One participant of a pool: its receipts, and the ids that it acquired and hasn't given back.
#[derive(Drop)]
pub struct PoolSeat<G: Ledger> {
    number: u32,
    name: u64,
    share: Share<G>,
    receipts: Vec<Receipt>,
    ids: Vec<u64>,
}

impl<G: Ledger> Model for PoolSeat<G> {
    ghost use Rattle.std.specs.Prelude.{◌≡◌, ◌-◌, ◌≤◌, length, vec_len, vec_capacity};
    ghost use Rattle.pg_pool.specs.Seats.{SeatSeen};

    ghost Value = { SeatSeen };

    ghost view = { λ s. record { number = s.number; name = s.name; receipts = s.receipts.items; ids = s.ids.items; room = vec_capacity s.receipts - vec_len s.receipts; id_places = vec_capacity s.ids } };

    ghost invariant = { λ s. (s.share.amount ≡ length s.receipts.items) × (s.share.parts ≡ 1) × (vec_len s.ids ≤ vec_capacity s.receipts - vec_len s.receipts) };
}

impl<G: Ledger> PoolSeat<G> {
    /// A participant of the pool of this name, with one part of the pool's ledger.
    pub fn new(alloc: Global, number: u32, name: u64, share: Share<G>) -> Self
        requires part { share.parts ≡ 1 }
        requires nothing { share.amount ≡ 0 }
        ensures named { (result.number ≡ number) × (result.name ≡ name) }
        ensures empty { (result.receipts ≡ []) × (result.ids ≡ []) }
    {
        PoolSeat {
            number,
            name,
            share,
            receipts: Vec::new(alloc),
            ids: Vec::new(alloc),
        }
    }

    pub fn number(&self) -> u32
        ensures { result ≡ self.now.number }
    {
        self.number
    }

    /// The name of the pool.
    pub fn pool_name(&self) -> u64
        ensures { result ≡ self.now.name }
    {
        self.name
    }

    /// The calls that added an entry, in order.
    pub fn receipts(&self) -> &[Receipt]
        ensures { result.now ≡ self.now.receipts }
    {
        self.receipts.as_slice()
    }

    /// The ids that the participant acquired and hasn't given back.
    pub fn ids(&self) -> &[u64]
        ensures { result.now ≡ self.now.ids }
    {
        self.ids.as_slice()
    }

    pub(crate) fn has(&self, id: u64) -> bool
        ensures { result ≡ has id self.now.ids }
    {
        self.ids.as_slice().contains(&id)
    }

    // Room for the receipt of one more call, and for those of the returns.
    pub(crate) fn prepare(&mut self) -> Result<(), AllocError>
        ensures same { Becomes self.old self.new self.old.receipts self.old.ids }
        ensures room { OnOk result (length self.new.ids + 1 < self.new.room) }
        ensures ids { OnOk result (length self.new.ids < self.new.id_places) }
    {
        let held = self.ids.len();
        self.receipts.reserve(held + 2)?;
        self.ids.reserve(1)?;
        Ok(())
    }

    // Counts a call that added an entry, and keeps its receipt.
    pub(crate) fn count(&mut self, calls: &mut Book<G>, receipt: Receipt)
        requires { length self.old.ids < self.old.room }
        ensures seat { Becomes self.old self.new (self.old.receipts ++ receipt ∷ []) self.old.ids }
        ensures room { self.new.room + 1 ≡ self.old.room }
        ensures ids { self.new.id_places ≡ self.old.id_places }
        ensures total { calls.new.total ≡ calls.old.total + 1 }
    {
        calls.add(&mut self.share, 1);
        self.receipts.push_reserved(receipt);
    }

    // A connection with this id, or leave to make it, was handed out.
    pub(crate) fn gain(&mut self, id: u64)
        requires room { length self.old.ids < self.old.room }
        requires ids { length self.old.ids < self.old.id_places }
        ensures { Becomes self.old self.new self.old.receipts (self.old.ids ++ id ∷ []) }
    {
        self.ids.push_reserved(id);
    }

    // It came back.
    pub(crate) fn lose(&mut self, id: u64)
        requires { has id self.old.ids ≡ true }
        ensures seat { Becomes self.old self.new self.old.receipts (without id self.old.ids) }
        ensures room { length self.new.ids < self.new.room }
    {
        take_out(&mut self.ids, id);
    }

    // What the participant counted.
    pub(crate) fn into_share(self) -> Share<G>
        ensures amount { result.amount ≡ length self.receipts }
        ensures parts { result.parts ≡ 1 }
    {
        let PoolSeat {
            number: _,
            name: _,
            share,
            receipts,
            ids,
        } = self;
        drop(receipts);
        drop(ids);
        share
    }
}
