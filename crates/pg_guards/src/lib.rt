//! Transactions as guards: what holds a connection is lent to a guard, which rolls back what it opened where it is dropped. And copies to the client, over
//! whatever holds a connection.
#![tactic(auto)]

mod begin;
mod copy_out;
pub mod drops;
mod executor;
mod finish;
pub mod holding;
mod manager;
mod pooled;
mod transaction;

pub use begin::BeginTransaction;
pub use copy_out::{CopyOut, copy_out_raw};
pub use executor::PgExecutor;
pub use finish::EndTransaction;
pub use manager::PgTransactionManager;
pub use transaction::{PgTransaction, Transaction};
