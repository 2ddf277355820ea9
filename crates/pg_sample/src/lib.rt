//! A script of any number of steps, made and not read: a usual session in memory, long enough to measure it.
//!
//! The server answers step k, which fetches all rows of `SELECT k`, by one row of k. Before each third answer the link gives
//! nothing once, and since a step has one poll, that step is dropped, and its answer is read in the next one.
//!
//! Begin with `sample_script`. `count_of` reads the number of steps from a word.
#![tactic(auto)]

mod answering;
mod asking;
mod counting;
mod scripting;

pub use counting::count_of;
pub use scripting::sample_script;
