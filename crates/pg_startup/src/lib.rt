//! How a session with a PostgreSQL server begins: whether TLS is asked for, what the client says first, and how it proves who it is.
//!
//! It opens no socket and waits for nothing: a caller hands in a `Link` and polls. Begin with `establish`, and with `Stage`, which
//! says what each message of the server makes of a start-up.
#![tactic(auto)]

mod asking;
mod client;
mod establishing;
mod greeting;
mod hearing;
pub mod laws;
mod nul;
mod parameters;
mod reply;
mod stage;
mod starting;

pub use establishing::establish;
pub use stage::{Session, Stage};
pub use starting::{Establish, Ready};
