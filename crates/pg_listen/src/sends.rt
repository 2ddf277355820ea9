use crate::{EstablishPooled, PgPool, PoolConnection, PoolLedger, Ticket};

// What may move to another thread.
fn sent<T: Send>(x: T) -> T {
    x
}

/// Threads share a pool, whose connections move between them.
pub fn share_pool<G: PoolLedger + Send + Sync, L: Send>(pool: &PgPool<G, L>) {
    pg_pool::share_pool(pool)
}

pub fn send_connection<L: Send>(held: PoolConnection<L>) -> PoolConnection<L> {
    pg_pool::send_connection(held)
}

pub fn send_ticket(ticket: Ticket) -> Ticket {
    pg_pool::send_ticket(ticket)
}

pub fn send_establishing<L: Send>(state: EstablishPooled<L>) -> EstablishPooled<L> {
    sent(state)
}
