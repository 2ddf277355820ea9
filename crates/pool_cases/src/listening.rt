//! Cases of listeners: the calls on a listener, and behind a bar what the links of a dial give, one link behind another with bars between them. A call is one of
//! these:
//!
//!     listen:A      `listen` to the channel `A`; in a name `~` stands for a zero byte
//!     all:A,B       `listen_all`
//!     unlisten:A    `unlisten`
//!     unlisten_all  `unlisten_all`
//!     try           `try_recv`, and `poll` the same, polled once and let go
//!     recv          `recv`
//!     many          `fetch_many` of a query, told by how many rows it gives
//!     first         `fetch_optional` of it, told by whether it gives one
//!     prepare       `prepare_with` of a statement, told by how many parameters it has, and by its columns with their types and origins
//!     describe      `describe` of it, told by its columns and by whether each may be null
//!     row           `fetch_optional` of it, which is kept, told in the same way by the columns of its row
//!     next          `next_buffered`
//!     take          `take_lost`, told by what each link has taken
//!     lazy          a loss is told before the reconnect
//!     ignore        it listens on where its pool was closed
//!     close         its pool is closed by another participant, once in a row and behind another call
//!     stream        as the last one: it is turned into a stream, which is asked three times
//!     alone         as the first one: the listener has a pool of its own, of which no entries are told
//!     release       as the last one: `release`
//!
//! What a link gives is `start` for a server that accepts the user, bytes in hexadecimal, `wait`, `end` or `fail`.
//!
//! A row is told by its name, and then in this order: what each call answers, of a notification its payload, and that of `next` in parentheses; behind a
//! `/` what each link that was lost has taken, where `start-up` stands for the message that begins a session; what became of the connection as the listener
//! ended, which is `kept` by the pool, `closed` with what its link has taken, or `none held`; and what the pool has noted of the listener. The links that
//! `take` has told are not told again.
//!
//! All but `try`, `many`, the changes of channels and the start-up are polled once, since a link in memory gives at once what it gives.
//!
//! With the URL of a server a row has its calls alone, without `alone`. They are made on a listener there, on a pool of its own, and behind them it tells what
//! it hears, a line for each, until it hears `end`.
mod calls;
mod changing;
mod live;
mod opening;
mod querying;
mod receiving;
mod rows;
mod statements;
mod telling;
mod words;

pub(crate) use rows::told;
