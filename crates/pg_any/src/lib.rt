//! Rows and results in the generic forms that drivers of several databases have in common.
//!
//! A program that knows no type of PostgreSQL's reads a row by `any_row`: its columns by their kinds, and its values as one enum. Begin with
//! `AnyKind`.
#![tactic(auto)]

mod column;
mod kind;
mod row;
mod value;

pub use column::{AnyColumn, any_column};
pub use kind::{AnyKind, any_kind};
pub use row::{AnyRow, any_row};
pub use value::AnyValue;
