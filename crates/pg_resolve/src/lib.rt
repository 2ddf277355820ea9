//! User-defined types: what the database's catalog says of them, read by lookups and kept for a connection.
//!
//! A connection pushes the types that it doesn't know to a `Resolver`, sends the text of each round and hands every row of the answers
//! to `take_row`, which keeps what they describe in a `TypeCache`. Each type that is kept is what the catalog means by its OID,
//! in whatever order the rows come. What a query's plan tells of its outputs is read by `plan_walk`.
#![tactic(auto)]

mod cache;
mod codes;
mod columns;
mod entering;
mod entry;
mod found;
pub mod laws;
mod listing;
mod map;
mod marking;
mod nullable;
mod plan;
mod resolver;
mod row;
mod tables;
mod texts;

pub use cache::TypeCache;
pub use codes::{TypCategory, TypType};
pub use columns::ColumnResolver;
pub use entry::Wanted;
pub use marking::plan_walk;
pub use nullable::nullable_query;
pub use plan::Plan;
pub use resolver::Resolver;
pub use row::{ColumnResolverRow, TypeResolverRow};
pub use tables::TableCache;
