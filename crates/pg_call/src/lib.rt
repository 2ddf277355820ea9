//! One call of a connection as plain data, without a stream: what it asks, what its reply may be, and how far it has come.
//!
//! `PgConnection` of the crate above moves a call on; here stands what each message of the server makes of it. Begin with `Request`,
//! what a caller asks, and `Running`, which takes the messages.
#![tactic(auto)]

mod after;
mod answer;
mod calling;
mod feed;
mod format;
mod heading;
mod judging;
mod kind;
mod ledger;
mod query_result;
mod reply;
mod request;
mod rollback;
mod running;
mod statement;
mod tally;
mod waiting;
mod writing;

pub use after::{After, Eviction, Filling, Lookup, Rest};
pub use answer::{CallAnswer, CallItem, Turn};
pub use calling::{Beat, Call, Taken};
pub use feed::Feed;
pub use format::refuse;
pub use judging::{News, Part, Verdict, judge};
pub use kind::{Change, How, Keeping, Kind};
pub use ledger::Ledger;
pub use query_result::{AnyQueryResult, PgQueryResult, any_result};
pub use reply::{Heard, Reply};
pub use request::{Request, Sort};
pub use rollback::rollback_frame;
pub use running::Running;
pub use statement::{Bound, Described, Extended, Goal, Prepared};
pub use tally::Tally;
pub use waiting::Waiting;
