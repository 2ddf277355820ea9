ghost use Rattle.std.specs.Prelude.{◌<◌, ◌≡◌, length};
ghost use Rattle.pg_stream.specs.Links.{LinkSeen, Reads, Writes, Upgrades, asked_none, asked_with};

/// What one read of a link gave.
#[derive(Clone, Copy, Debug, PartialEq, Eq)]
pub enum LinkRead {
    /// So many bytes, one at least.
    Moved(usize),
    NotYet,
    End,
    Failed,
}

/// What one write of a link took.
#[derive(Clone, Copy, Debug, PartialEq, Eq)]
pub enum LinkWrite {
    /// So many bytes, one at least.
    Moved(usize),
    NotYet,
    Failed,
}

/// What came of a TLS handshake.
#[derive(Clone, Copy, Debug, PartialEq, Eq)]
pub enum LinkUpgrade {
    Done,
    NotYet,
    Failed,
}

/// How many bytes reads asked for: the least and the most that one read did.
#[derive(Clone, Copy, Debug, PartialEq, Eq)]
pub struct Asked {
    pub least: usize,
    pub most: usize,
}

impl Asked {
    /// Nothing was read.
    pub fn none() -> Self
        ensures { result ≡ asked_none }
    {
        Asked {
            least: usize::MAX,
            most: 0,
        }
    }

    /// One more read asks for so many bytes.
    pub fn with(self, bytes: usize) -> Self
        ensures { result ≡ asked_with self bytes }
    {
        Asked {
            least: self.least.min(bytes),
            most: self.most.max(bytes),
        }
    }
}

/// What a TLS handshake has to verify.
#[derive(Clone, Copy, Debug, PartialEq, Eq)]
pub struct TlsWish {
    pub verify_certificate: bool,
    pub verify_host: bool,
}

/// A two-way stream of bytes that gives and takes them in any pieces, and answers `NotYet` where it would have to wait.
///
/// It counts its calls and their answers in `u64`s: each `read`, `write` and `upgrade` raises the count of calls by one, and the
/// count of its answer by one, and no other. A count that stands at the type's end stays there. A link in memory also tells the
/// bytes themselves; one over a socket does not. It keeps how many bytes its reads were asked for.
pub trait Link {
    /// What it is made of, which no call changes; what the last TLS handshake that was made had to verify; the bytes that it gave and took,
    /// where it tells them; and its counts.
    ghost seen: { Self → LinkSeen };

    fn read(&mut self, into: &mut [u8]) -> LinkRead
        requires { 0 < length into.old }
        ensures { Reads (seen self.old) (seen self.new) result into.new };

    fn write(&mut self, from: &[u8]) -> LinkWrite
        requires { 0 < length from.now }
        ensures { Writes (seen self.old) (seen self.new) result from.now };

    /// Whether `upgrade` can be asked for TLS.
    fn can_upgrade(&self) -> bool
        ensures { result ≡ (seen self.now).plan.can_upgrade };

    /// Whether both ends are on this machine, as over a Unix socket.
    fn is_local(&self) -> bool
        ensures { result ≡ (seen self.now).plan.is_local };

    fn upgrade(&mut self, wish: TlsWish) -> LinkUpgrade
        ensures { Upgrades (seen self.old) (seen self.new) wish result };
}
