ghost use Rattle.pg_stream.specs.SocketLinks.{seen_of_socket};

use crate::{Link, LinkRead, LinkUpgrade, LinkWrite, TcpLink, TlsWish, UnixLink};

/// A link over either kind of socket.
#[derive(Drop)]
pub enum SocketLink {
    Tcp(TcpLink),
    Unix(UnixLink),
}

impl Link for SocketLink {
    ghost seen = { seen_of_socket };

    fn read(&mut self, into: &mut [u8]) -> LinkRead {
        match self {
            SocketLink::Tcp(link) => link.read(into),
            SocketLink::Unix(link) => link.read(into),
        }
    }

    fn write(&mut self, from: &[u8]) -> LinkWrite {
        match self {
            SocketLink::Tcp(link) => link.write(from),
            SocketLink::Unix(link) => link.write(from),
        }
    }

    fn can_upgrade(&self) -> bool {
        match self {
            SocketLink::Tcp(link) => link.can_upgrade(),
            SocketLink::Unix(link) => link.can_upgrade(),
        }
    }

    fn is_local(&self) -> bool {
        match self {
            SocketLink::Tcp(link) => link.is_local(),
            SocketLink::Unix(link) => link.is_local(),
        }
    }

    fn upgrade(&mut self, wish: TlsWish) -> LinkUpgrade {
        match self {
            SocketLink::Tcp(link) => link.upgrade(wish),
            SocketLink::Unix(link) => link.upgrade(wish),
        }
    }
}
