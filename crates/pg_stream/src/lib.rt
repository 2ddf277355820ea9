//! A stream of frames over a link that gives and takes bytes in any pieces.
//!
//! The stream holds no socket and never waits: everything from outside comes through `Link`. Begin with `Link` and `PgStream`;
//! `SocketLink` is the link over a real socket.
#![tactic(auto)]

mod asynchronous;
mod copying;
mod events;
mod gather;
mod laws;
mod link;
mod memory;
mod memory_sink;
mod memory_source;
mod notifications;
mod outgoing;
mod outside;
mod parameters;
mod read_list;
mod received;
mod socket;
mod socket_link;
mod standard;
mod stream;
mod tcp_link;
mod unix_link;
mod version;

pub use events::{ReadEvent, WriteEvent};
pub use gather::{Gathered, read_all, send};
pub use laws::{memory_link_gives_its_pieces, parameters_are_the_last_values};
pub use link::{Asked, Link, LinkRead, LinkUpgrade, LinkWrite, TlsWish};
pub use memory::MemoryLink;
pub use memory_sink::MemorySink;
pub use memory_source::MemorySource;
pub use outside::{Sink, SinkWrite, Source, SourceRead};
pub use socket_link::SocketLink;
pub use standard::{StdSink, StdSource};
pub use stream::{CALLS_MAX, Front, LinkCalls, PgStream};
pub use tcp_link::TcpLink;
pub use unix_link::UnixLink;
pub use version::parse_server_version;
