//! Statements that are described in full: what the server takes and gives, and which of the columns may be null.
//!
//! Begin with `describe`, which is a call over whatever holds a connection.
#![tactic(auto)]

mod describing;
mod description;
mod flags;
pub mod telling;

pub use describing::{Describing, describe};
pub use description::Describe;
