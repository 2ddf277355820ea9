//! Plays of scripts, and the top call of the program.
//!
//! `play` runs a start-up and then steps over any link. `top` is the whole program, but for its source, sink and dial: it
//! reads a script, plays it over a link in memory, or its steps over a link that it dials, and writes the report; or it plays a script
//! that it makes, of as many steps as its words say, and writes one line; or it shows the connect options that a URL says, or the key of
//! the advisory lock of a text.
#![tactic(auto)]

mod asking;
mod chaining;
mod command;
mod connecting;
mod copying;
mod ending;
mod flags;
mod guards;
pub mod laws;
mod live;
mod locking;
mod played;
mod playing;
mod program;
mod sampling;
mod showing;
mod showing_key;
mod showing_options;
mod starting;
mod stepping;
mod tally;

pub use pg_report::{Answer, End, Item, Outcome, Started};
pub use pg_script::{Call, Chain, Step};
pub use played::{Played, Ran};
pub use playing::play;
pub use program::top;
