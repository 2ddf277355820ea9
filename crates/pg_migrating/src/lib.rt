//! Migrations on a connection: what runs them. And databases that are made, asked for and dropped, each over a connection of its own.
//!
//! `pg_migrate` has their texts and the order of these; here each call of `Migrate` is a state over what holds a connection, and each of
//! `MigrateDatabase` one over a `Dial`, which is polled. Begin with `Migrate`, or with `MigrateDatabase`.
#![tactic(auto)]

mod asking;
mod binding;
mod course;
mod database_requests;
mod database_statement;
mod databases;
mod demand;
mod dirty_version;
pub mod drops;
mod errand;
mod existence;
mod forcing;
mod holding;
mod listing;
mod lock;
mod migrate;
mod names;
mod opening;
mod reading;
mod requests;
mod running;
mod session;
mod statement;
mod texts;

pub use database_statement::{DatabaseCall, DatabaseStatement};
pub use databases::MigrateDatabase;
pub use demand::Demand;
pub use dirty_version::{Dirty, DirtyVersion};
pub use existence::{DatabaseExists, Exists};
pub use forcing::ForceDropDatabase;
pub use listing::{Applied, ListAppliedMigrations};
pub use lock::MigrationLock;
pub use migrate::Migrate;
pub use opening::Sessions;
pub use reading::Reading;
pub use running::RunMigration;
pub use statement::{Done, MigrateCall, MigrateStatement};
