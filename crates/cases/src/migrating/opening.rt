//! A connection over a socket whose reads wait no longer than is said.

use case_tools::{options, start};
use pg_conn::PgConnection;
use pg_options::PgConnectOptions;
use pg_stream::{SocketLink, TcpLink};
use pg_wire::Error;
use std::alloc::Global;
use std::net::{Net, TcpStream};
use std::time::Duration;

// A link whose reads wait so long.
fn link<N: Net<Stream = TcpStream>>(
    net: &N,
    options: &PgConnectOptions,
    patience: u64,
) -> Option<SocketLink> {
    let stream = TcpStream::connect(net, (options.get_host(), options.get_port())).ok()?;
    stream.set_nodelay(true).ok()?;
    let link = TcpLink::with_timeout(stream, Duration::from_millis(patience)).ok()?;
    Some(SocketLink::Tcp(link))
}

/// The connection to the server of this URL.
pub(crate) fn connect<N: Net<Stream = TcpStream>>(
    net: &N,
    alloc: Global,
    url: &str,
    patience: u64,
) -> Option<PgConnection<SocketLink>> {
    let options = options(alloc, url).ok()?;
    let conn = match link(net, &options, patience) {
        Some(link) => start(alloc, &options, b"n", link).ok(),
        None => None,
    };
    drop(options);
    conn
}
