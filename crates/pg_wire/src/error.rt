ghost use Rattle.std.specs.Prelude.{◌≡◌};
ghost use Rattle.pg_wire.specs.declared.error.Error.TheVariants.{OutOfMemory};

use crate::{Oid, Oids, PgDatabaseError, PoolEntry, Text, TransactionStatus};
use std::alloc::{AllocError, AllocFailed};

/// Why a call of this library did not give what was asked.
#[derive(Debug, Drop)]
pub enum Error {
    /// Memory was refused. The call counts as dropped, and nothing is half done.
    OutOfMemory,
    /// Start-up did not end within its polls.
    StartupPending,
    /// The link, or a source that was handed in, failed or ended.
    Io(IoCause),
    /// The server answered with an ErrorResponse.
    Database(PgDatabaseError),
    /// The protocol was not kept, by the server or by the caller.
    Protocol(ProtocolFault),
    /// An option is not what it must be; `place` is a byte's place, or the number of a URL's pair from 0.
    Configuration {
        part: ConfigPart,
        place: usize,
    },
    /// TLS was asked for and could not be had.
    Tls(TlsCause),
    /// The server's catalog has no type of this name.
    TypeNotFound {
        type_name: Text,
    },
    /// A statement of its own was given to `begin` inside a transaction.
    InvalidSavePointStatement,
    /// A statement of the caller's own began no transaction.
    BeginFailed(TransactionStatus),
    /// This argument has no binary encoding.
    Encode {
        index: usize,
    },
    /// The bytes are no value of the type that was asked for.
    Decode,
    /// The same, of a column.
    ColumnDecode {
        index: usize,
    },
    /// A row was asked for, and none came.
    RowNotFound,
    ColumnNotFound {
        name: Text,
    },
    ColumnIndexOutOfBounds {
        index: usize,
        len: usize,
    },
    /// The type has no kind of the database-independent driver.
    AnyDriverError {
        oid: Option<Oid>,
    },
    /// The pool is closed; `place` is that of the refusal in its history.
    PoolClosed {
        place: u64,
    },
    /// The pool has no connection to give.
    PoolTimedOut {
        place: u64,
    },
    /// A participant's receipt differs from the pool's history.
    Audit {
        seat: u32,
        place: u64,
        held: PoolEntry,
        kept: Option<PoolEntry>,
    },
}

/// What the outside did.
#[derive(Clone, Copy, Debug, PartialEq, Eq)]
pub enum IoCause {
    /// A read or a write failed.
    Fault,
    /// The server closed the connection where more was awaited.
    End,
    /// The source of a copy failed.
    Source,
}

/// Who did not keep the protocol.
#[derive(Debug, Drop)]
pub enum ProtocolFault {
    /// The server. The connection is broken from then on.
    Server(ServerFault),
    /// The server replied lawfully, but not to this kind of call: the tag is that of a copy reply.
    Reply { tag: u8 },
    /// The caller.
    Caller(CallerFault),
    /// Types of these OIDs could not be resolved.
    Types { oids: Oids },
}

/// What a server sent that it must not.
#[derive(Clone, Copy, Debug, PartialEq, Eq)]
pub enum ServerFault {
    /// The length of a frame is below 4.
    ShortLength { tag: u8, length: u32 },
    /// No backend message has this tag.
    UnknownTag { tag: u8 },
    /// The body is not in its message's format.
    Malformed { tag: u8 },
    /// The message may not come here.
    Unlawful { tag: u8 },
    /// An authentication method that this library does not know.
    Method { code: u32 },
    /// No SASL mechanism that this library knows is offered.
    Mechanisms,
    /// The server's nonce does not go on from the client's.
    Nonce,
    /// The server does not know the password's proof.
    Signature,
    /// The byte that answers an SSLRequest is neither `S` nor `N`.
    SslAnswer { byte: u8 },
}

/// What a caller asked that no message can say.
#[derive(Clone, Copy, Debug, PartialEq, Eq)]
pub enum CallerFault {
    /// More than 65535 arguments or types.
    TooMany { count: u64 },
    /// A zero byte stands in a text.
    Nul,
    /// The body of the message would be longer than 2147483643 bytes.
    TooLong { length: u64 },
    /// All numbers of prepared statements have been given out.
    NoStatementNumber,
}

/// Why TLS was not had.
#[derive(Clone, Copy, Debug, PartialEq, Eq)]
pub enum TlsCause {
    CannotUpgrade,
    ServerRefused,
    UpgradeFailed,
}

/// The part of the configuration that is refused.
#[derive(Clone, Copy, Debug, PartialEq, Eq)]
pub enum ConfigPart {
    Url,
    Utf8,
    Port,
    CacheCapacity,
    SslMode,
    HostAddr,
    Nul,
    SaslUser,
    SaslPassword,
}

impl From<AllocError> for Error {
    ghost from_gives = { λ _ e. e ≡ OutOfMemory };

    fn from(_: AllocError) -> Self {
        Error::OutOfMemory
    }
}

impl<T: Drop> From<AllocFailed<T>> for Error {
    ghost from_gives = { λ _ e. e ≡ OutOfMemory };

    fn from(_: AllocFailed<T>) -> Self {
        Error::OutOfMemory
    }
}
