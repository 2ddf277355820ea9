//! The states of calls. Each but `Close`, which owns it, borrows its connection, does nothing before its first poll, and abandons its call when it is dropped.
//!
//! The type of the request is a parameter, which is left at `Request`: so the contract of the drop can say what is left of the connection.
//!
//! Each keeps that its call is of its kind until it is over, so whoever polls it has to know no more than that it isn't.

mod asks;
mod begin;
mod clear_cached_statements;
mod close;
mod commit;
mod execute;
mod execute_many;
mod fetch;
mod fetch_all;
mod fetch_many;
mod fetch_one;
mod fetch_optional;
mod flush;
mod ping;
mod prepare;
mod rollback;

pub use asks::Asks;
pub use begin::Begin;
pub use clear_cached_statements::ClearCachedStatements;
pub use close::Close;
pub use commit::{Commit, commit_request};
pub use execute::Execute;
pub use execute_many::ExecuteMany;
pub use fetch::Fetch;
pub use fetch_all::FetchAll;
pub use fetch_many::FetchMany;
pub use fetch_one::FetchOne;
pub use fetch_optional::FetchOptional;
pub use flush::Flush;
pub use ping::Ping;
pub use prepare::{Prepare, prepare_request};
pub use rollback::{Rollback, rollback_request};
