//! Which groups of frames a call queues, and what of the session decides it, as plain data that needs no connection.
//!
//! Begin with `Rule`, what is known of the session, and with `Asks` of `specs/Rows.antt`, the table of the calls and their groups. What comes in
//! the response to a group is told by `pg_exchanges`.
//!
//! A statement that was described is held first, and room is taken for it. It is put among those that are kept once the next group was queued, or
//! forgotten: neither takes memory, so a call that is let go can do both.
//!
//! | Call | Its group | Then |
//! |---|---|---|
//! | a query without arguments | Query | |
//! | begin at depth 0 | Query `BEGIN`, or of the caller's own text | depth 1 at Ok; Query `ROLLBACK` follows where it isn't Ok |
//! | begin at depth d above 0 | Query `SAVEPOINT _sqlx_savepoint_d`; no text of the caller's own | one deeper at Ok |
//! | commit | Query `COMMIT` at depth 1, `RELEASE SAVEPOINT` above, nothing at depth 0 | one less deep at Ok |
//! | rollback, and one without a call | Query `ROLLBACK` at depth 1, `ROLLBACK TO SAVEPOINT` above, nothing at depth 0 | one less deep at Ok; at once |
//! | clear | Close of each kept statement, and Sync; nothing where none is kept | none is kept |
//! | ping | Sync | |
//! | flush, close | nothing; a close sends Terminate | |
#![tactic(auto)]

mod cache;
pub mod laws;
mod rule;

pub use cache::{Cache, Entry};
pub use rule::Rule;
