// The links over real sockets, each with its other end in the same case.

use crate::stream::streams::is_read;
use pg_stream::{
    Link, LinkRead, LinkUpgrade, LinkWrite, SocketLink, StdSink, StdSource, TcpLink, TlsWish,
    UnixLink, send,
};
use std::io;
use std::net::{Ipv4Addr, SocketAddr, TcpListener, TcpStream};
use std::os::unix::net::UnixStream;
use std::time::{Duration, Instant};

// How often a read is asked again: at 10 ms a time, some seconds.
const PATIENCE: u32 = 500;

// What a read answers once it need not wait.
fn read_soon<L: Link>(link: &mut L, into: &mut [u8; 8]) -> LinkRead {
    for _ in 0..PATIENCE {
        match link.read(into) {
            LinkRead::NotYet => {}
            answer => return answer,
        }
    }
    LinkRead::NotYet
}

// Whether one read gives just these bytes.
fn gives<L: Link>(link: &mut L, wanted: &[u8]) -> bool {
    let mut into = [0u8; 8];
    match read_soon(link, &mut into) {
        LinkRead::Moved(count) => into.get(..count) == Some(wanted),
        _ => false,
    }
}

fn ends<L: Link>(link: &mut L) -> bool {
    let mut into = [0u8; 8];
    read_soon(link, &mut into) == LinkRead::End
}

// Whether there is nothing to read within the link's time.
fn waits<L: Link>(link: &mut L) -> bool {
    let mut into = [0u8; 8];
    link.read(&mut into) == LinkRead::NotYet
}

// Whether one write takes three bytes that the other end reads.
fn carries<L: Link>(from: &mut L, to: &mut L) -> bool {
    from.write(b"abc") == LinkWrite::Moved(3) && gives(to, b"abc")
}

// Whether two ends have nothing to read, then carry bytes both ways, and one sees the end of the other.
fn talk<L: Link + Drop>(mut near: L, mut far: L) -> bool {
    let waited = waits(&mut near);
    let there = carries(&mut near, &mut far);
    let back = carries(&mut far, &mut near);
    drop(far);
    waited && there && back && ends(&mut near)
}

// Whether writes come to wait while nobody reads.
fn fills<L: Link>(link: &mut L) -> bool {
    let bytes = [7u8; 4096];
    for _ in 0..100_000 {
        match link.write(&bytes) {
            LinkWrite::Moved(_) => {}
            answer => return answer == LinkWrite::NotYet,
        }
    }
    false
}

fn tcp_pair(rt: &HostRuntime) -> io::Result<(TcpStream, TcpStream)> {
    let listener = TcpListener::bind(rt, SocketAddr::from((Ipv4Addr::LOCALHOST, 0)))?;
    let near = TcpStream::connect(rt, listener.local_addr()?)?;
    let (far, _) = listener.accept()?;
    Ok((near, far))
}

fn tcp_links(rt: &HostRuntime) -> io::Result<(TcpLink, TcpLink)> {
    let (near, far) = tcp_pair(rt)?;
    Ok((TcpLink::new(near)?, TcpLink::new(far)?))
}

fn unix_links(rt: &HostRuntime) -> io::Result<(UnixLink, UnixLink)> {
    let (near, far) = UnixStream::pair(rt)?;
    Ok((UnixLink::new(near)?, UnixLink::new(far)?))
}

/// Two links over TCP, which are not local.
pub fn tcp_links_talk(rt: &HostRuntime) -> io::Result<bool> {
    let (near, far) = tcp_links(rt)?;
    let is_local = near.is_local();
    Ok(talk(near, far) && !is_local)
}

/// Two links over a local socket.
pub fn unix_links_talk(rt: &HostRuntime) -> io::Result<bool> {
    let (near, far) = unix_links(rt)?;
    let is_local = near.is_local();
    Ok(talk(near, far) && is_local)
}

/// Two links over a local socket, each seen as a link of either kind.
pub fn either_unix_links_talk(rt: &HostRuntime) -> io::Result<bool> {
    let (near, far) = unix_links(rt)?;
    Ok(talk(SocketLink::Unix(near), SocketLink::Unix(far)))
}

/// Two links over TCP, each seen as a link of either kind.
pub fn either_tcp_links_talk(rt: &HostRuntime) -> io::Result<bool> {
    let (near, far) = tcp_links(rt)?;
    Ok(talk(SocketLink::Tcp(near), SocketLink::Tcp(far)))
}

/// A read that finds nothing sleeps, and doesn't spin.
pub fn a_read_waits_for_its_time(rt: &HostRuntime) -> io::Result<bool> {
    let (near, _far) = UnixStream::pair(rt)?;
    let mut near = UnixLink::with_timeout(near, Duration::from_millis(50))?;
    let start = Instant::now(rt)?;
    let waited = waits(&mut near);
    Ok(waited && start.elapsed(rt)? >= Duration::from_millis(40))
}

/// A link without time never waits, neither for bytes nor for room.
pub fn a_link_without_time_never_waits(rt: &HostRuntime) -> io::Result<bool> {
    let (near, _far) = tcp_pair(rt)?;
    let mut near = TcpLink::with_timeout(near, Duration::ZERO)?;
    Ok(waits(&mut near) && fills(&mut near))
}

/// A bare socket has no TLS.
pub fn a_bare_socket_has_no_tls(rt: &HostRuntime) -> io::Result<bool> {
    let (near, _far) = UnixStream::pair(rt)?;
    let mut near = SocketLink::Unix(UnixLink::new(near)?);
    let wish = TlsWish {
        verify_certificate: false,
        verify_host: false,
    };
    Ok(!near.can_upgrade() && near.upgrade(wish) == LinkUpgrade::Failed)
}

/// A sink and a source over the two ends of a socket.
pub fn a_sink_and_a_source_talk(rt: &HostRuntime) -> io::Result<bool> {
    let (near, far) = UnixStream::pair(rt)?;
    let mut sink = StdSink::new(near);
    let sent = send(&mut sink, b"abc");
    drop(sink);
    let mut source = StdSource::new(far);
    Ok(sent && is_read(rt.alloc(), &mut source, b"abc"))
}
