//! Migrations: what they are, the texts that they run, and the order of these texts, as plain data that needs no connection.
//!
//! Begin with `Migration`, with the texts of `specs/Texts.antt`, and with their order in `specs/Orders.antt`. A `Clock` that is handed in tells
//! how long a migration takes.
#![tactic(auto)]

mod checksum;
mod clock;
mod clock_counts;
pub mod laws;
mod memory_clock;
mod migration;
mod quoting;
mod spans;
mod system_clock;
mod texts;

pub use checksum::generate_lock_id;
pub use clock::Clock;
pub use memory_clock::MemoryClock;
pub use migration::{AppliedMigration, MigrateError, Migration};
pub use quoting::put_quoted;
pub use spans::{as_int8, elapsed};
pub use system_clock::SystemClock;
pub use texts::{
    current_database_text, database_exists_text, lock_text, put_create_database, put_create_schema,
    put_create_table, put_delete_row, put_dirty_version, put_drop_database, put_insert_row,
    put_list, put_terminate, put_update_time, unlock_text, version_text,
};
