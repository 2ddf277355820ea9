//! What the programs that play cases share: the lines of a case, connections over links in memory and over a server, two calls, and what is written of
//! answers. No crate of the product stands on it.
#![tactic(auto)]

mod calls;
mod dialling;
mod lines;
mod links;
mod opening;
mod shown;
mod telling;

pub use calls::{flush, ping};
pub use dialling::{connect_over, connect_to, dialled};
pub use lines::{behind, bytes, entry, number, read_event, reads};
pub use links::{link, push_link};
pub use opening::{accepted, connect, one_link, one_piece, open, options, start};
pub use shown::Shown;
pub use telling::{push_byte, push_bytes, push_error, push_sent, sent, word};
