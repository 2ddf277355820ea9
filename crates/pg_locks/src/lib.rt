//! Keys of advisory locks, and the texts that take and release them.
//!
//! Nothing is sent here and no lock is held: a key is a value, and each text is a function of it. Begin with `PgAdvisoryLockKey`.
#![tactic(auto)]

mod key;
mod keyed;
mod line;
mod lock;
mod queries;

pub use key::PgAdvisoryLockKey;
pub use keyed::key_query;
pub use line::key_line;
pub use lock::PgAdvisoryLock;
