ghost use Rattle.std.specs.Prelude.{◌≡◌, ◌+◌, ◌<◌, vec_len};
ghost use Rattle.std.specs.List.{slice_get};
ghost use Rattle.pg_pool.specs.Audits.{numbers, same_entry, is_kept_as, difference, receipts_difference, seats_difference, receipts_in};

use crate::{PoolSeat, Receipt};
use pg_wire::{Error, PoolAct, PoolEntry};
use std::sync::ledger::{Ledger, Share};

// An act as three numbers, which tell it.
fn numbers(act: PoolAct) -> (u64, u64, u64)
    ensures { result ≡ numbers act }
{
    match act {
        PoolAct::GotIdle { id } => (0, id, 0),
        PoolAct::GotNew { id } => (1, id, 0),
        PoolAct::Full { out, idle } => (2, out, idle),
        PoolAct::WasClosed => (3, 0, 0),
        PoolAct::Kept { id } => (4, id, 0),
        PoolAct::Dropped { id } => (5, id, 0),
        PoolAct::Close => (6, 0, 0),
    }
}

fn is_same(one: &PoolEntry, other: &PoolEntry) -> bool
    ensures { result ≡ same_entry one.now other.now }
{
    let a = numbers(one.act);
    let b = numbers(other.act);
    one.seat == other.seat && a.0 == b.0 && a.1 == b.1 && a.2 == b.2
}

fn is_kept_as(held: &PoolEntry, kept: &Option<PoolEntry>) -> bool
    ensures { result ≡ is_kept_as held.now kept.now }
{
    match kept {
        Some(entry) => is_same(entry, held),
        None => false,
    }
}

fn entry_at(history: &[PoolEntry], place: u64) -> Option<PoolEntry>
    ensures { result ≡ slice_get history.now place }
{
    history.get(place as usize).copied()
}

// What this receipt is refused for.
fn refusal(history: &[PoolEntry], seat: u32, receipt: &Receipt) -> Option<Error>
    ensures { result ≡ difference history.now seat receipt.now }
{
    let kept = entry_at(history, receipt.place);
    if is_kept_as(&receipt.entry, &kept) {
        None
    } else {
        Some(Error::Audit {
            seat,
            place: receipt.place,
            held: receipt.entry,
            kept,
        })
    }
}

fn receipts_refusal(history: &[PoolEntry], seat: u32, receipts: &[Receipt]) -> Option<Error>
    ensures { result ≡ receipts_difference history.now seat receipts.now }
{
    for receipt in receipts {
        if let Some(error) = refusal(history, seat, receipt) {
            return Some(error);
        }
    }
    None
}

// The first receipt that does not stand in the history.
pub(crate) fn seats_refusal<G: Ledger>(
    history: &[PoolEntry],
    seats: &[PoolSeat<G>],
) -> Option<Error>
    ensures { result ≡ seats_difference history.now seats.now }
{
    for seat in seats {
        if let Some(error) = receipts_refusal(history, seat.number(), seat.receipts()) {
            return Some(error);
        }
    }
    None
}

// What all participants counted.
pub(crate) fn merged<G: Ledger>(mut seats: Vec<PoolSeat<G>>) -> Share<G>
    requires { 0 < vec_len seats }
    ensures parts { result.parts ≡ vec_len seats }
    ensures amount { result.amount ≡ receipts_in seats.items }
{
    let mut all = match seats.pop() {
        Some(seat) => seat.into_share(),
        None => unreachable!(),
    };
    while let Some(seat) = seats.pop() {
        all.merge(seat.into_share());
    }
    all
}
