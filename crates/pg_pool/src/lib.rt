//! A pool of whatever it keeps, under one lock, and the history of what was done with it.
//!
//! Begin with `Pool`, with `PoolSeat`, one participant, and with `PoolCore`, whose methods are the critical sections.
#![tactic(auto)]

mod handed;
mod ids;
mod laws;
mod ledger;
mod log;
mod pool;
mod pooled;
mod receipts;
mod seat;
mod sections;
mod sends;

pub use handed::{Acquired, PoolConnection, Released, Ticket};
pub use laws::an_audit_finds_each_receipt_at_its_place;
pub use ledger::PoolLedger;
pub use pool::Pool;
pub use pooled::Pooled;
pub use seat::{PoolSeat, Receipt};
pub use sections::PoolCore;
pub use sends::{send_connection, send_seat, send_ticket, share_pool};
