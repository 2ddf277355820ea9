ghost use Rattle.std.specs.Prelude.{◌≡◌, IfOk};
ghost use Rattle.std.specs.IoError.{error_kind};
ghost use Rattle.pg_stream.specs.SocketLinks.{seen_of_socket};
ghost use Rattle.pg_conn.specs.Dials.{CountsLink, CountsWord, IsUncalled, failed_by, nothing_seen};
ghost use Rattle.pg_conn.specs.SocketDials.{failure_of};

use crate::dial_counts::DialCounts;
use crate::{Dial, DialFailed};
use pg_options::PgConnectOptions;
use pg_stream::{SocketLink, TcpLink, UnixLink};
use rand_core::TryRng;
use std::alloc::Global;
use std::io;
use std::io::ErrorKind;
use std::marker::Model;
use std::net::{Net, TcpStream, ToSocketAddrs};
use std::os::unix::net::UnixStream;
use std::time::Duration;

// How long one address of a host has to answer, in seconds.
const CONNECT_WAIT: u64 = 10;

/// A dial over sockets: a Unix socket where the options name one, and TCP else. Its words come from a random source.
///
/// `net` opens the sockets; a program passes its runtime.
#[derive(Drop)]
pub struct SocketDial<N, R> {
    alloc: Global,
    net: N,
    random: R,
    counts: DialCounts,
}

impl<N, R> Model for SocketDial<N, R> {
    ghost use Rattle.pg_conn.specs.SocketDials.{SocketDialOf};

    ghost Value = { SocketDialOf R };

    ghost view = { λ d. record { random = d.random; seen = d.counts } };
}

impl<N, R> SocketDial<N, R> {
    pub fn new(alloc: Global, net: N, random: R) -> Self
        ensures { result ≡ record { random = random; seen = nothing_seen } }
    {
        SocketDial {
            alloc,
            net,
            random,
            counts: DialCounts::new(),
        }
    }

    // Counts a failure, where it is a fault.
    fn failed(&mut self, failure: DialFailed) -> DialFailed
        ensures failure { result ≡ failure }
        ensures seen { self.new.seen ≡ failed_by self.old.seen failure }
        ensures random { self.new.random ≡ self.old.random }
    {
        match failure {
            DialFailed::Fault => self.counts.count_fault(),
            DialFailed::OutOfMemory => {}
        }
        failure
    }
}

impl<N: Net<Stream = TcpStream>, R: TryRng> Dial for SocketDial<N, R> {
    type L = SocketLink;

    ghost seen = { λ d. d.seen };

    ghost gives = { λ d _ _ e. e.random ≡ d.random };

    ghost draws = { λ d word e. R.may_next_u32 d.random word e.random };

    /// Tries the host's addresses in turn. An address has ten seconds to answer.
    fn dial(&mut self, options: &PgConnectOptions) -> Result<SocketLink, DialFailed>
        ensures counts { CountsLink self.old.seen self.new.seen result }
        ensures uncalled { IfOk result (λ link. IsUncalled (seen_of_socket link)) }
        ensures gives { IfOk result (λ link. self.new.random ≡ self.old.random) }
    {
        match open(self.alloc, &self.net, options) {
            Ok(link) => {
                self.counts.count_link();
                Ok(link)
            }
            Err(failure) => Err(self.failed(failure)),
        }
    }

    /// Draws from the random source. What it fails at is a fault.
    fn word(&mut self) -> Result<u32, DialFailed>
        ensures counts { CountsWord self.old.seen self.new.seen result }
        ensures draws { IfOk result (λ x. R.may_next_u32 self.old.random x self.new.random) }
    {
        match self.random.try_next_u32() {
            Ok(word) => {
                self.counts.count_word();
                Ok(word)
            }
            Err(_) => Err(self.failed(DialFailed::Fault)),
        }
    }
}

// Opens a link to the server that the options name.
fn open<N: Net<Stream = TcpStream>>(
    alloc: Global,
    net: &N,
    options: &PgConnectOptions,
) -> Result<SocketLink, DialFailed>
    ensures { IfOk result (λ link. IsUncalled (seen_of_socket link)) }
{
    match options.fetch_socket(alloc) {
        Ok(Some(file)) => open_unix(net, file.as_str()).map_err(failure),
        Ok(None) => open_tcp(net, options.get_host(), options.get_port()).map_err(failure),
        Err(_) => Err(DialFailed::OutOfMemory),
    }
}

fn open_unix<N: Net>(net: &N, file: &str) -> io::Result<SocketLink>
    ensures { IfOk result (λ link. IsUncalled (seen_of_socket link)) }
{
    let stream = UnixStream::connect(net, file)?;
    Ok(SocketLink::Unix(UnixLink::new(stream)?))
}

// The frames of one poll are sent together, so nothing is gained by holding them back.
fn open_tcp<N: Net<Stream = TcpStream>>(net: &N, host: &str, port: u16) -> io::Result<SocketLink>
    ensures { IfOk result (λ link. IsUncalled (seen_of_socket link)) }
{
    let stream = connect(net, host, port)?;
    stream.set_nodelay(true)?;
    Ok(SocketLink::Tcp(TcpLink::new(stream)?))
}

// Connects to the first address of the host that answers. A URL has an address of IPv6 between brackets.
fn connect<N: Net<Stream = TcpStream>>(net: &N, host: &str, port: u16) -> io::Result<TcpStream> {
    let wait = Duration::from_secs(CONNECT_WAIT);
    let mut last = io::Error::from(ErrorKind::NotFound);
    for address in (without_brackets(host), port).to_socket_addrs(net)? {
        match TcpStream::connect_timeout(net, &address, wait) {
            Ok(stream) => return Ok(stream),
            Err(error) => last = error,
        }
    }
    Err(last)
}

fn without_brackets(host: &str) -> &str {
    match host
        .strip_prefix('[')
        .and_then(|rest| rest.strip_suffix(']'))
    {
        Some(address) => address,
        None => host,
    }
}

fn failure(error: io::Error) -> DialFailed
    ensures { result ≡ failure_of (error_kind error) }
{
    match error.kind() {
        ErrorKind::OutOfMemory => DialFailed::OutOfMemory,
        _ => DialFailed::Fault,
    }
}
