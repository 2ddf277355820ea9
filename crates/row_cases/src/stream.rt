//! Cases of links in memory and over sockets, of streams, and of the versions that a server tells.
//!
//! A row is a word for a case, or `version` and a server's version.

mod links;
mod sockets;
mod streams;

use crate::row::meant;
use crate::telling::push;
use pg_stream::parse_server_version;
use std::fmt::Write;
use std::io;

#[derive(Clone, Copy)]
enum Tried {
    PiecesAndWaits,
    Writes,
    Upgrade,
    FailingSource,
    FailingSink,
    Reader,
    Writer,
    WriterWithoutRoom,
    Parameters,
    Cleanup,
    SharedRows,
    Tcp,
    Unix,
    EitherUnix,
    EitherTcp,
    ReadSleeps,
    NoTime,
    NoTls,
    SinkAndSource,
}

static TRIED: [(&str, Tried); 19] = [
    ("pieces-and-waits", Tried::PiecesAndWaits),
    ("writes", Tried::Writes),
    ("upgrade", Tried::Upgrade),
    ("failing-source", Tried::FailingSource),
    ("failing-sink", Tried::FailingSink),
    ("reader", Tried::Reader),
    ("writer", Tried::Writer),
    ("writer-without-room", Tried::WriterWithoutRoom),
    ("parameters", Tried::Parameters),
    ("cleanup", Tried::Cleanup),
    ("shared-rows", Tried::SharedRows),
    ("tcp", Tried::Tcp),
    ("unix", Tried::Unix),
    ("either-unix", Tried::EitherUnix),
    ("either-tcp", Tried::EitherTcp),
    ("read-sleeps", Tried::ReadSleeps),
    ("no-time", Tried::NoTime),
    ("no-tls", Tried::NoTls),
    ("sink-and-source", Tried::SinkAndSource),
];

fn is_so(rt: &HostRuntime, tried: Tried) -> io::Result<bool> {
    let alloc = rt.alloc();
    match tried {
        Tried::PiecesAndWaits => Ok(links::gives_pieces_and_waits(alloc)),
        Tried::Writes => Ok(links::takes_as_the_events_say(alloc)),
        Tried::Upgrade => Ok(links::upgrades_at_once(alloc)),
        Tried::FailingSource => Ok(streams::source_fails_at_a_call(alloc)),
        Tried::FailingSink => Ok(streams::sink_fails_at_a_call(alloc)),
        Tried::Reader => Ok(streams::std_reader(alloc)),
        Tried::Writer => Ok(streams::std_writer(alloc)),
        Tried::WriterWithoutRoom => Ok(streams::std_writer_without_room()),
        Tried::Parameters => Ok(streams::keeps_the_last_parameters(alloc)),
        Tried::Cleanup => Ok(streams::keeps_room_for_cleanup(alloc)),
        Tried::SharedRows => Ok(streams::rows_share_a_piece(alloc)),
        Tried::Tcp => sockets::tcp_links_talk(rt),
        Tried::Unix => sockets::unix_links_talk(rt),
        Tried::EitherUnix => sockets::either_unix_links_talk(rt),
        Tried::EitherTcp => sockets::either_tcp_links_talk(rt),
        Tried::ReadSleeps => sockets::a_read_waits_for_its_time(rt),
        Tried::NoTime => sockets::a_link_without_time_never_waits(rt),
        Tried::NoTls => sockets::a_bare_socket_has_no_tls(rt),
        Tried::SinkAndSource => sockets::a_sink_and_a_source_talk(rt),
    }
}

// What a system refuses is not so.
fn push_case(told: &mut String, rt: &HostRuntime, word: &str) {
    let held = match meant(&TRIED, word) {
        Some(tried) => is_so(rt, tried).unwrap_or(false),
        None => false,
    };
    push(told, if held { "true" } else { "false" });
}

/// What came of a row.
pub fn answer(told: &mut String, rt: &HostRuntime, row: &str) {
    match row.split_once(' ') {
        Some((_, version)) => {
            let number = parse_server_version(version);
            let _ = write!(told, "{number:?}");
        }
        None => push_case(told, rt, row),
    }
}
