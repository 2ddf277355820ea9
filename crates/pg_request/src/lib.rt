//! What is asked of a connection and how a call comes along, as plain data that needs no connection.
//!
//! Begin with `Query`, what a caller runs, with `Preparation`, what a caller prepares, and with `Progress`, what a call tells of itself. `begin_text` and those beside it are the texts of transactions.
#![tactic(auto)]

mod arguments;
mod naming;
mod preparation;
mod progress;
mod query;
mod texts;
mod unresolved;

pub use arguments::Arguments;
pub use naming::{Declared, copy_declared, declared_names};
pub use preparation::Preparation;
pub use progress::{CacheStep, Progress};
pub use query::Query;
pub use texts::{begin_text, commit_text, rollback_text};
