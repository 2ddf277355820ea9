//! Advisory locks on a connection, and the guards that hold them.
//!
//! `pg_locks` has the keys and the texts; here each call is a state over what holds a connection, which is polled, and whoever drops a guard releases its
//! lock. Begin with `PgAdvisoryLockGuard`.
#![tactic(auto)]

mod acquire;
pub mod drops;
mod flag_call;
mod force_release;
mod guard;
mod held_calls;
mod holding;
pub mod laws;
mod lock_call;
mod release_now;
mod try_acquire;

pub use acquire::AcquireLock;
pub use force_release::ForceRelease;
pub use guard::{HeldLock, PgAdvisoryLockGuard};
pub use pg_locks::{PgAdvisoryLock, PgAdvisoryLockKey};
pub use release_now::ReleaseNow;
pub use try_acquire::TryAcquireLock;
