//! Copies from the client, over whatever holds a connection: data goes in by pieces or from a source, and a copy may be dropped at any moment.
//!
//! Begin with `copy_in_raw`. (Copies to the client are `copy_out_raw` of `pg_guards`.) Over a pool begin with `PgPoolCopyExt`, which a `PgPool` of `pg_listen`
//! has. What it hands out must be spent: a copy by its `into_conn`, whose connection goes back by `release`, and a `Ticket` by `establish` or `give_back`.
#![tactic(auto)]

mod copy_abort;
mod copy_finish;
mod copy_in;
mod copy_read;
mod copy_send;
pub mod drops;
mod feeding;
mod pool_copy;
pub mod pool_drops;

pub use copy_abort::CopyAbort;
pub use copy_finish::CopyFinish;
pub use copy_in::{BeginCopyIn, PgCopyIn, copy_in_raw};
pub use copy_read::CopyRead;
pub use copy_send::CopySend;
pub use feeding::PG_COPY_MAX_DATA_LEN;
pub use pool_copy::{PgPoolCopyExt, PoolCopy};
