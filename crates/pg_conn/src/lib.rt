//! A connection to a PostgreSQL server, and the calls that run on it.
//!
//! A connection opens no socket and waits for nothing: a caller hands in a `Link`, such as one that a `SocketDial` opens, and polls.
//! Begin with `establish`, which gives a `PgConnection`, and with its call `execute`.
#![tactic(auto)]

mod asking;
mod cleanliness;
mod connection;
mod dial;
mod dial_counts;
mod dialling;
pub mod drops;
mod establishing;
mod feeding;
mod flags;
mod holding;
mod keeping;
pub mod laws;
mod looking;
mod notification;
mod polling;
mod postgres;
mod releasing;
mod socket_dial;
mod starting;
mod statement;
mod states;

pub use connection::PgConnection;
pub use dial::{Dial, DialFailed, MemoryDial};
pub use dialling::{dial_and_establish, draw_nonce};
pub use establishing::establish;
pub use flags::read_flag;
pub use notification::what_a_call_reads_is_kept;
pub use pg_call::{AnyQueryResult, CallAnswer, CallItem, PgQueryResult, Request, Turn, any_result};
pub use pg_columns::{ColumnOrigin, PgColumn};
pub use pg_request::{CacheStep, Declared, Preparation, Progress, Query};
pub use pg_rows::PgRow;
pub use postgres::Postgres;
pub use socket_dial::SocketDial;
pub use starting::Establish;
pub use statement::PgStatement;
pub use states::{
    Asks, Begin, ClearCachedStatements, Close, Commit, Execute, ExecuteMany, Fetch, FetchAll,
    FetchMany, FetchOne, FetchOptional, Flush, Ping, Prepare, Rollback, commit_request,
    prepare_request, rollback_request,
};
