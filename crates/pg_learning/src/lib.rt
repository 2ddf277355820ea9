//! What a connection has learnt of types and of the names of columns, by lookups of the catalogs, and the lookup that is under way.
//!
//! A lookup is a simple Query, so each of its values is in the text format. `type_row` and `column_row` read a row by the places of its
//! columns, from left to right, and name the first column of which nothing can be read.
#![tactic(auto)]

mod codes;
mod column;
mod from_text;
mod items;
pub mod laws;
mod learnt;
mod naming;
mod numbers;
mod pairs;
mod parts;
mod pushing;
mod rows;
mod telling;

pub use learnt::{Learnt, Seeking};
pub use rows::{column_row, type_row};
