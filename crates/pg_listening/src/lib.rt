//! A listener: it hears what other sessions tell its channels, over one connection of its pool after another. Where one is lost, it takes up another,
//! and listens to its channels again.
//!
//! Begin with `connect` or `connect_with`, and with the calls `listen`, `recv`, `try_recv` and `release` of `PgListener`. Each call is a state, which is polled.
//! Below them stand `Listening`, on whatever holds a connection, with its calls `change` and `poll_within`, and `Hearing`, which finds it the next one, with
//! `begin_change`, `poll_change` and `poll_try_recv`.
#![tactic(auto)]

mod alone;
mod answering;
mod beginning;
mod change;
mod changing;
mod channel_change;
mod channels;
mod connecting;
mod describe;
mod dialling;
mod fetch_many;
mod fetch_optional;
mod handing;
mod hearing;
mod holders;
mod holding;
pub mod laws;
mod listener;
mod listening;
mod notification;
mod pool_source;
mod prepare;
mod querying;
mod receive;
mod receiving;
mod release;
mod releasing;
mod source;
mod starting;
mod stream;

pub use alone::connect;
pub use beginning::{Connect, Connecting, connect_with};
pub use change::{ChangeChannels, Changing};
pub use channel_change::ChannelChange;
pub use channels::{listen_each_text, listen_text, unlisten_all_text, unlisten_text};
pub use describe::{Describing, DescribingBy};
pub use fetch_many::{FetchMany, FetchingMany};
pub use fetch_optional::{FetchOptional, FetchingOptional};
pub use hearing::Hearing;
pub use holders::{PoolHolder, SeatHolder};
pub use listener::{Listener, PgListener};
pub use listening::Listening;
pub use notification::PgNotification;
pub use pg_describe::Describe;
pub use pool_source::PoolSource;
pub use prepare::{PrepareWith, Preparing};
pub use receive::{Receiving, Recv, TryReceiving, TryRecv};
pub use release::{Release, Releasing};
pub use source::{ConnectionSource, Found};
pub use stream::NotificationStream;
