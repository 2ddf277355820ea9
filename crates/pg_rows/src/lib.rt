//! The rows that a query gives, and their values by the columns that describe them.
//!
//! Begin with `PgRow`.
#![tactic(auto)]

mod heading;
mod row;

pub use heading::Heading;
pub use row::PgRow;
