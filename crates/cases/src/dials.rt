//! Cases of dials by themselves: in memory, and over sockets.

use crate::options::options;
use pg_conn::{Dial, DialFailed, MemoryDial, SocketDial};
use pg_stream::{Link, LinkWrite, MemoryLink, SocketLink};
use pg_wire::Sequence;
use rand_core::TryRng;
use std::alloc::{AllocError, Global};
use std::collections::VecDeque;
use std::io::{ErrorKind, Read};
use std::net::TcpListener;
use std::os::unix::net::UnixListener;
use std::{env, fs, io};

// A random source that has one word, 7.
#[derive(Drop)]
struct OneWord {
    is_drawn: bool,
}

impl TryRng for OneWord {
    type Error = io::Error;

    fn try_next_u32(&mut self) -> io::Result<u32> {
        if self.is_drawn {
            return Err(io::Error::from(ErrorKind::Unsupported));
        }
        self.is_drawn = true;
        Ok(7)
    }

    fn try_next_u64(&mut self) -> io::Result<u64> {
        Err(io::Error::from(ErrorKind::Unsupported))
    }

    fn try_fill_bytes(&mut self, _bytes: &mut [u8]) -> io::Result<()> {
        Err(io::Error::from(ErrorKind::Unsupported))
    }
}

fn socket_dial(rt: &HostRuntime) -> SocketDial<&HostRuntime, OneWord> {
    SocketDial::new(rt.alloc(), rt, OneWord { is_drawn: false })
}

// What a dial gives for a URL.
fn dialled<D: Dial>(alloc: Global, dial: &mut D, url: &str) -> Result<D::L, DialFailed> {
    match options(alloc, url) {
        Ok(options) => {
            let link = dial.dial(&options);
            drop(options);
            link
        }
        Err(error) => {
            drop(error);
            Err(DialFailed::OutOfMemory)
        }
    }
}

fn is_fault<L: Drop>(dialled: Result<L, DialFailed>) -> bool {
    let is_so = matches!(&dialled, Err(DialFailed::Fault));
    drop(dialled);
    is_so
}

fn is_dialled<L: Drop>(dialled: Result<L, DialFailed>) -> bool {
    let is_so = dialled.is_ok();
    drop(dialled);
    is_so
}

// Whether what the link takes comes out at the other end.
fn carries<S: Read + Drop>(mut link: SocketLink, mut peer: S) -> io::Result<bool> {
    let is_taken = link.write(b"abc") == LinkWrite::Moved(3);
    let mut bytes = [0u8; 4];
    let count = peer.read(&mut bytes);
    drop(peer);
    drop(link);
    Ok(is_taken && bytes.get(..count?) == Some(b"abc".as_slice()))
}

fn carries_from(link: SocketLink, listener: &TcpListener) -> io::Result<bool> {
    match listener.accept() {
        Ok((peer, _)) => carries(link, peer),
        Err(error) => {
            drop(link);
            Err(error)
        }
    }
}

fn carries_from_local(link: SocketLink, listener: &UnixListener) -> io::Result<bool> {
    match listener.accept() {
        Ok((peer, _)) => carries(link, peer),
        Err(error) => {
            drop(link);
            Err(error)
        }
    }
}

// A link over a socket to the server of a URL.
fn socket_link(rt: &HostRuntime, url: &str) -> Result<SocketLink, DialFailed> {
    let mut dial = socket_dial(rt);
    dialled(rt.alloc(), &mut dial, url)
}

/// Whether a host is dialled, by a link that is not local.
pub(crate) fn dials_a_host(rt: &HostRuntime) -> io::Result<bool> {
    let listener = TcpListener::bind(rt, "127.0.0.1:0")?;
    let port = listener.local_addr()?.port();
    let url = format!(in rt.alloc(); "postgres://127.0.0.1:{port}")?;
    match socket_link(rt, url.as_str()) {
        Ok(link) => Ok(!link.is_local() & carries_from(link, &listener)?),
        Err(_) => Ok(false),
    }
}

// Whether the listener is dialled by this host.
fn is_reached(rt: &HostRuntime, host: &str, listener: &TcpListener) -> io::Result<bool> {
    let port = listener.local_addr()?.port();
    let url = format!(in rt.alloc(); "postgres://{host}:{port}")?;
    Ok(is_dialled(socket_link(rt, url.as_str())))
}

/// Whether an address between brackets is dialled. A machine may be without IPv6.
pub(crate) fn dials_an_address_between_brackets(rt: &HostRuntime) -> io::Result<bool> {
    match TcpListener::bind(rt, "[::1]:0") {
        Ok(listener) => is_reached(rt, "[::1]", &listener),
        Err(_) => Ok(true),
    }
}

// A port of which nobody takes connections.
fn free_port(rt: &HostRuntime) -> io::Result<u16> {
    let listener = TcpListener::bind(rt, "127.0.0.1:0")?;
    Ok(listener.local_addr()?.port())
}

/// Whether a dial that nobody answers is a fault.
pub(crate) fn misses_a_host(rt: &HostRuntime) -> io::Result<bool> {
    let port = free_port(rt)?;
    let url = format!(in rt.alloc(); "postgres://127.0.0.1:{port}")?;
    Ok(is_fault(socket_link(rt, url.as_str())))
}

// Whether the socket of this file is dialled, by a link that is local.
fn carries_by(rt: &HostRuntime, file: &str, url: &str) -> io::Result<bool> {
    let listener = UnixListener::bind(rt, file)?;
    match socket_link(rt, url) {
        Ok(link) => Ok(link.is_local() & carries_from_local(link, &listener)?),
        Err(_) => Ok(false),
    }
}

/// Whether a socket in a folder is dialled.
pub(crate) fn dials_a_local_socket(rt: &HostRuntime) -> io::Result<bool> {
    let folder = env::temp_dir(rt)?;
    let port = free_port(rt)?;
    let file = format!(in rt.alloc(); "{}/.s.PGSQL.{port}", folder.as_str())?;
    let url = format!(in rt.alloc(); "postgres://elsewhere:{port}?host={}", folder.as_str())?;
    let is_carried = carries_by(rt, file.as_str(), url.as_str());
    fs::remove_file(rt, file.as_str())?;
    is_carried
}

/// Whether words are drawn until the source fails.
pub(crate) fn draws_words(rt: &HostRuntime) -> bool {
    let mut dial = socket_dial(rt);
    let first = dial.word() == Ok(7);
    let second = dial.word() == Err(DialFailed::Fault);
    first & second
}

// A dial in memory with one link, which gives and takes nothing, and one word. Its second call fails.
fn memory_dial(alloc: Global) -> Result<MemoryDial, AllocError> {
    let mut failing = Sequence::new(alloc);
    failing.push(2)?;
    let mut words = VecDeque::new(alloc);
    words.push_back(7)?;
    let (reads, writes) = (Sequence::new(alloc), Sequence::new(alloc));
    let link = MemoryLink::new(alloc, reads, writes, false, false);
    let mut links = VecDeque::new(alloc);
    links.push_back(link)?;
    Ok(MemoryDial::new(links, words, failing))
}

/// Whether a dial in memory gives its lists in order.
pub(crate) fn gives_its_lists(alloc: Global) -> Result<bool, AllocError> {
    let mut dial = memory_dial(alloc)?;
    let link = is_dialled(dialled(alloc, &mut dial, "postgres://h"));
    let fault = dial.word() == Err(DialFailed::Fault);
    let word = dial.word() == Ok(7);
    let no_word = dial.word() == Ok(0);
    let no_link = is_fault(dialled(alloc, &mut dial, "postgres://h"));
    drop(dial);
    Ok(link & fault & word & no_word & no_link)
}
