use crate::argument::Bare;
use pg_locks::PgAdvisoryLockKey;
use pg_options::PgSslMode;
use pg_wire::Blob;

/// The words that name a call.
#[derive(Clone, Copy)]
pub(crate) enum CallWord {
    Execute,
    ExecuteMany,
    Fetch,
    FetchMany,
    FetchAll,
    FetchOptional,
    FetchOne,
    Ping,
    Flush,
    Begin,
    BeginWith,
    Commit,
    Rollback,
    StartRollback,
    Prepare,
    Clear,
    CopyIn,
    CopyOut,
    Describe,
    Lock,
    TryLock,
    Unlock,
    DropLock,
}

/// The words of a script.
#[derive(Clone, Copy)]
pub(crate) enum Keyword {
    User,
    Password,
    Database,
    Application,
    Option,
    SslMode,
    Cache,
    Digits,
    None,
    Link,
    Upgrade,
    Local,
    Nonce,
    Server,
    Wait,
    End,
    Fail,
    Take,
    Hold,
    Break,
    Start,
    Step,
    Most,
    Raw,
    Query,
    Once,
    /// How a copy is to end behind its data.
    Finish,
    Abort,
    Leave,
    /// In front of a text, of bytes and of texts that are arguments.
    Text,
    Bytea,
    Texts,
    /// Between such texts.
    Comma,
    /// In front of the name of a type, and between that and the bytes of a value.
    Named,
    Colon,
    /// In front of the name of a type, and of that of the elements of an array.
    Name,
    Array,
    Call(CallWord),
}

/// The words in front of the arguments that stand without quotes.
#[derive(Clone, Copy)]
pub(crate) enum BareWord {
    Null,
    Bool,
    Int2,
    Int4,
    Int8,
    Oid,
    Int4s,
}

/// A token of a line.
#[derive(Drop)]
pub(crate) enum Token {
    Space,
    Word(Keyword),
    Number(u32),
    /// The name of a mode, in any ASCII case.
    SslMode(PgSslMode),
    /// An argument that stands without quotes.
    Bare(Bare),
    /// The key of a lock that isn't such a number.
    Key(PgAdvisoryLockKey),
    /// The bytes that a quoted text means.
    Text(Blob),
}
