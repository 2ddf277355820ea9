//! A pool of connections under one lock.
//!
//! Begin with `PgPoolOptions`, which builds a `PgPool` and its participants, each a `PoolSeat`. What a pool hands out must be spent: a
//! `PoolConnection` by `release`, and a `Ticket`, the leave to make a connection, by `establish` (of `TicketExt`) or `give_back`.
#![tactic(auto)]

mod handed;
mod options;
mod sends;
mod starting;

pub use handed::{Acquired, PgPool, PoolConnection, Released};
pub use options::PgPoolOptions;
pub use pg_pool::{PoolLedger, PoolSeat, Receipt, Ticket};
pub use pg_wire::{PoolAct, PoolEntry};
pub use sends::{send_connection, send_establishing, send_ticket, share_pool};
pub use starting::{EstablishPooled, TicketExt};
