ghost use Rattle.std.specs.Prelude.{◌≡◌, false, IfOk};
ghost use Rattle.pg_stream.specs.Sockets.{uncalled};

use crate::socket::{SocketCounts, WAIT_MS};
use crate::{Link, LinkRead, LinkUpgrade, LinkWrite, TlsWish};
use std::io;
use std::marker::Model;
use std::net::TcpStream;
use std::time::Duration;

/// A link over TCP. It tells no bytes, and has no TLS.
#[derive(Drop)]
pub struct TcpLink {
    stream: TcpStream,
    counts: SocketCounts,
}

impl Model for TcpLink {
    ghost use Rattle.pg_stream.specs.Links.{LinkSeen};

    ghost Value = { LinkSeen };

    ghost view = { λ l. l.counts };
}

impl TcpLink {
    /// A link whose reads and writes wait 10 ms at most before they answer `NotYet`.
    pub fn new(stream: TcpStream) -> io::Result<Self>
        ensures { IfOk result (λ l. l ≡ uncalled false) }
    {
        TcpLink::with_timeout(stream, Duration::from_millis(WAIT_MS))
    }

    /// A link whose reads and writes wait so long at most; with a timeout of zero they never wait, for a caller that knows when
    /// the socket is ready. What the system refuses to set is told, and closes the stream.
    pub fn with_timeout(stream: TcpStream, timeout: Duration) -> io::Result<Self>
        ensures { IfOk result (λ l. l ≡ uncalled false) }
    {
        stream.set_nonblocking(timeout.is_zero())?;
        if !timeout.is_zero() {
            stream.set_read_timeout(Some(timeout))?;
            stream.set_write_timeout(Some(timeout))?;
        }
        Ok(TcpLink {
            stream,
            counts: SocketCounts::new(false),
        })
    }
}

impl Link for TcpLink {
    ghost seen = { λ l. l };

    fn read(&mut self, into: &mut [u8]) -> LinkRead {
        self.counts.read(&mut self.stream, into)
    }

    fn write(&mut self, from: &[u8]) -> LinkWrite {
        self.counts.write(&mut self.stream, from)
    }

    fn can_upgrade(&self) -> bool {
        self.counts.can_upgrade()
    }

    fn is_local(&self) -> bool {
        self.counts.is_local()
    }

    fn upgrade(&mut self, wish: TlsWish) -> LinkUpgrade {
        self.counts.refuse_upgrade(wish)
    }
}
