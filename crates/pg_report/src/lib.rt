//! Outcomes of a play, and the report of them as text.
//!
//! A report is lines, each ended by a line feed:
//!
//! - `start ok SENT READ`, the bytes sent and read up to the end of start-up, or `start error ERROR`.
//! - For each item of a step, before the step's own line: `item K row V V`, with `null`, `-` for no bytes, or the bytes in
//!   hexadecimal for each value; `item K count N`; or `item K piece V`. Steps are numbered from 1.
//! - `step K groups G heard H cache C waits W moved M END`, where C is `same`, `hit`, `put` or `putevicting`, and END is `ok`,
//!   `ok total N`, `ok described P F` (the OIDs of the parameters joined by commas, or `-`, and the number of fields),
//!   `ok held t`, `ok held f`, `dropped` or `error ERROR`.
//! - `sent HEX`, all bytes that were sent, or `sent -`.
//!
//! A summary is one line in place of all these. The lines of connect options stand at `option_lines`.
//!
//! Begin with `Outcome`, what came of one step, and with `report`. The words of an ERROR stand at `put_error`.
#![tactic(auto)]

mod bytes;
mod errors;
mod lines;
mod options;
mod outcome;
mod steps;
mod summing;

pub use errors::put_error;
pub use lines::{live_report, report};
pub use options::option_lines;
pub use outcome::{Answer, End, Item, Outcome, Started};
pub use summing::summary;
