use crate::{Pool, PoolConnection, PoolLedger, PoolSeat, Pooled, Ticket};
use std::sync::ledger::Ledger;

// What several threads may use at once.
fn shared<T: Sync>(_x: &T) {}

// What may move to another thread.
fn sent<T: Send>(x: T) -> T {
    x
}

/// Threads share a pool where what it keeps moves between threads.
pub fn share_pool<G, C, O>(pool: &Pool<G, C, O>)
where
    G: PoolLedger + Send + Sync,
    C: Pooled + Send,
    O: Sync,
{
    shared(pool)
}

pub fn send_seat<G: Ledger + Send + Sync>(seat: PoolSeat<G>) -> PoolSeat<G> {
    sent(seat)
}

pub fn send_connection<C: Send>(held: PoolConnection<C>) -> PoolConnection<C> {
    sent(held)
}

pub fn send_ticket(ticket: Ticket) -> Ticket {
    sent(ticket)
}
