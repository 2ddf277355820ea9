//! The query that asks the catalog of a statement's columns whether they may be null, with its arguments. (PostgreSQL manual, "System Catalogs", pg_attribute.)
#![tactic(auto)]

mod nulls;

pub use nulls::nulls_query;
