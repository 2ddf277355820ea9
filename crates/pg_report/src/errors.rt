ghost use Rattle.std.specs.Prelude.{◌≡◌, ◌++◌, OnOk, string_bytes};
ghost use Rattle.pg_report.specs.Errors.{severity_word, status_word, io_word, tls_word, config_word, server_words, server_rest, server_text, caller_words, caller_rest, caller_text, protocol_words, protocol_rest, protocol_text, database_text, error_words, error_rest, error_text};

use crate::bytes::{put_byte, put_number, put_oids, put_quoted_text};
use pg_wire::{
    CallerFault, ConfigPart, Error, IoCause, PgDatabaseError, PgSeverity, ProtocolFault,
    ServerFault, TlsCause, TransactionStatus,
};
use std::alloc::AllocError;

#[tactic(auto, unfolding(crate::specs::Errors::severity_word))]
fn severity_word(severity: PgSeverity) -> &'static str
    ensures { result.now ≡ severity_word severity }
{
    match severity {
        PgSeverity::Panic => "PANIC",
        PgSeverity::Fatal => "FATAL",
        PgSeverity::Error => "ERROR",
        PgSeverity::Warning => "WARNING",
        PgSeverity::Notice => "NOTICE",
        PgSeverity::Debug => "DEBUG",
        PgSeverity::Info => "INFO",
        PgSeverity::Log => "LOG",
    }
}

#[tactic(auto, unfolding(crate::specs::Errors::status_word))]
fn status_word(status: TransactionStatus) -> &'static str
    ensures { result.now ≡ status_word status }
{
    match status {
        TransactionStatus::Idle => "Idle",
        TransactionStatus::Transaction => "Transaction",
        TransactionStatus::Error => "Error",
    }
}

#[tactic(auto, unfolding(crate::specs::Errors::io_word))]
fn io_word(cause: IoCause) -> &'static str
    ensures { result.now ≡ io_word cause }
{
    match cause {
        IoCause::Fault => "fault",
        IoCause::End => "end",
        IoCause::Source => "source",
    }
}

#[tactic(auto, unfolding(crate::specs::Errors::tls_word))]
fn tls_word(cause: TlsCause) -> &'static str
    ensures { result.now ≡ tls_word cause }
{
    match cause {
        TlsCause::CannotUpgrade => "CannotUpgrade",
        TlsCause::ServerRefused => "ServerRefused",
        TlsCause::UpgradeFailed => "UpgradeFailed",
    }
}

#[tactic(auto, unfolding(crate::specs::Errors::config_word))]
fn config_word(part: ConfigPart) -> &'static str
    ensures { result.now ≡ config_word part }
{
    match part {
        ConfigPart::Url => "Url",
        ConfigPart::Utf8 => "Utf8",
        ConfigPart::Port => "Port",
        ConfigPart::CacheCapacity => "CacheCapacity",
        ConfigPart::SslMode => "SslMode",
        ConfigPart::HostAddr => "HostAddr",
        ConfigPart::Nul => "Nul",
        ConfigPart::SaslUser => "SaslUser",
        ConfigPart::SaslPassword => "SaslPassword",
    }
}

#[tactic(auto, unfolding(crate::specs::Errors::server_words))]
fn server_words(fault: ServerFault) -> &'static str
    ensures { result.now ≡ server_words fault }
{
    match fault {
        ServerFault::ShortLength { .. } => "ShortLength ",
        ServerFault::UnknownTag { .. } => "UnknownTag ",
        ServerFault::Malformed { .. } => "Malformed ",
        ServerFault::Unlawful { .. } => "Unlawful ",
        ServerFault::Method { .. } => "Method ",
        ServerFault::Mechanisms => "Mechanisms",
        ServerFault::Nonce => "Nonce",
        ServerFault::Signature => "Signature",
        ServerFault::SslAnswer { .. } => "SslAnswer ",
    }
}

fn put_server_rest(out: &mut String, fault: ServerFault) -> Result<(), AllocError>
    ensures { OnOk result (string_bytes out.new ≡ string_bytes out.old ++ server_rest fault) }
{
    match fault {
        ServerFault::ShortLength { tag, length } => {
            put_byte(out, tag)?;
            out.push_str(" ")?;
            put_number(out, u64::from(length))
        }
        ServerFault::UnknownTag { tag }
        | ServerFault::Malformed { tag }
        | ServerFault::Unlawful { tag } => put_byte(out, tag),
        ServerFault::Method { code } => put_number(out, u64::from(code)),
        ServerFault::SslAnswer { byte } => put_byte(out, byte),
        ServerFault::Mechanisms | ServerFault::Nonce | ServerFault::Signature => Ok(()),
    }
}

#[tactic(auto, unfolding(crate::specs::Errors::server_text))]
fn put_server(out: &mut String, fault: ServerFault) -> Result<(), AllocError>
    ensures { OnOk result (string_bytes out.new ≡ string_bytes out.old ++ server_text fault) }
{
    out.push_str(server_words(fault))?;
    put_server_rest(out, fault)
}

#[tactic(auto, unfolding(crate::specs::Errors::caller_words))]
fn caller_words(fault: CallerFault) -> &'static str
    ensures { result.now ≡ caller_words fault }
{
    match fault {
        CallerFault::TooMany { .. } => "TooMany ",
        CallerFault::Nul => "Nul",
        CallerFault::TooLong { .. } => "TooLong ",
        CallerFault::NoStatementNumber => "NoStatementNumber",
    }
}

fn put_caller_rest(out: &mut String, fault: CallerFault) -> Result<(), AllocError>
    ensures { OnOk result (string_bytes out.new ≡ string_bytes out.old ++ caller_rest fault) }
{
    match fault {
        CallerFault::TooMany { count } => put_number(out, count),
        CallerFault::TooLong { length } => put_number(out, length),
        CallerFault::Nul | CallerFault::NoStatementNumber => Ok(()),
    }
}

#[tactic(auto, unfolding(crate::specs::Errors::caller_text))]
fn put_caller(out: &mut String, fault: CallerFault) -> Result<(), AllocError>
    ensures { OnOk result (string_bytes out.new ≡ string_bytes out.old ++ caller_text fault) }
{
    out.push_str(caller_words(fault))?;
    put_caller_rest(out, fault)
}

#[tactic(auto, unfolding(crate::specs::Errors::protocol_words))]
fn protocol_words(fault: &ProtocolFault) -> &'static str
    ensures { result.now ≡ protocol_words fault.now }
{
    match fault {
        ProtocolFault::Server(_) => "server ",
        ProtocolFault::Reply { .. } => "reply ",
        ProtocolFault::Caller(_) => "caller ",
        ProtocolFault::Types { .. } => "types ",
    }
}

fn put_protocol_rest(out: &mut String, fault: &ProtocolFault) -> Result<(), AllocError>
    ensures { OnOk result (string_bytes out.new ≡ string_bytes out.old ++ protocol_rest fault.now) }
{
    match fault {
        ProtocolFault::Server(fault) => put_server(out, *fault),
        ProtocolFault::Reply { tag } => put_byte(out, *tag),
        ProtocolFault::Caller(fault) => put_caller(out, *fault),
        ProtocolFault::Types { oids } => put_oids(out, oids.as_slice()),
    }
}

#[tactic(auto, unfolding(crate::specs::Errors::protocol_text))]
fn put_protocol(out: &mut String, fault: &ProtocolFault) -> Result<(), AllocError>
    ensures { OnOk result (string_bytes out.new ≡ string_bytes out.old ++ protocol_text fault.now) }
{
    out.push_str(protocol_words(fault))?;
    put_protocol_rest(out, fault)
}

#[tactic(auto, unfolding(crate::specs::Errors::database_text))]
fn put_database(out: &mut String, error: &PgDatabaseError) -> Result<(), AllocError>
    ensures { OnOk result (string_bytes out.new ≡ string_bytes out.old ++ database_text error.now) }
{
    out.push_str(severity_word(error.severity()))?;
    out.push_str(" ")?;
    put_quoted_text(out, error.code().as_bytes())?;
    out.push_str(" ")?;
    put_quoted_text(out, error.message().as_bytes())
}

#[tactic(auto, unfolding(crate::specs::Errors::error_words))]
fn error_words(error: &Error) -> &'static str
    ensures { result.now ≡ error_words error.now }
{
    match error {
        Error::OutOfMemory => "OutOfMemory",
        Error::StartupPending => "StartupPending",
        Error::Io(_) => "Io ",
        Error::Database(_) => "Database ",
        Error::Protocol(_) => "Protocol ",
        Error::Configuration { .. } => "Configuration ",
        Error::Tls(_) => "Tls ",
        Error::TypeNotFound { .. } => "TypeNotFound ",
        Error::InvalidSavePointStatement => "InvalidSavePointStatement",
        Error::BeginFailed(_) => "BeginFailed ",
        Error::Encode { .. } => "Encode ",
        Error::Decode => "Decode",
        Error::ColumnDecode { .. } => "ColumnDecode ",
        Error::RowNotFound => "RowNotFound",
        Error::ColumnNotFound { .. } => "ColumnNotFound",
        Error::ColumnIndexOutOfBounds { .. } => "ColumnIndexOutOfBounds",
        Error::AnyDriverError { .. } => "AnyDriverError",
        Error::PoolClosed { .. } => "PoolClosed",
        Error::PoolTimedOut { .. } => "PoolTimedOut",
        Error::Audit { .. } => "Audit",
    }
}

fn put_error_rest(out: &mut String, error: &Error) -> Result<(), AllocError>
    ensures { OnOk result (string_bytes out.new ≡ string_bytes out.old ++ error_rest error.now) }
{
    match error {
        Error::Io(cause) => out.push_str(io_word(*cause)),
        Error::Database(error) => put_database(out, error),
        Error::Protocol(fault) => put_protocol(out, fault),
        Error::Configuration { part, place } => {
            out.push_str(config_word(*part))?;
            out.push_str(" ")?;
            put_number(out, *place as u64)
        }
        Error::Tls(cause) => out.push_str(tls_word(*cause)),
        Error::TypeNotFound { type_name } => put_quoted_text(out, type_name.as_bytes()),
        Error::BeginFailed(status) => out.push_str(status_word(*status)),
        Error::Encode { index } | Error::ColumnDecode { index } => {
            put_number(out, *index as u64)
        }
        _ => Ok(()),
    }
}

/// Adds an error's words at the end of a text, as a report writes them: the names of its variants, with `server`, `reply`,
/// `caller` or `types` behind `Protocol` and `fault`, `end` or `source` behind `Io`, and then what they hold. A tag or a byte
/// is two hexadecimal digits, a text is quoted, and `Database` is told by severity, code and message. Of an error that no play
/// answers only the variant's name is written.
#[tactic(auto, unfolding(crate::specs::Errors::error_text))]
pub fn put_error(out: &mut String, error: &Error) -> Result<(), AllocError>
    ensures { OnOk result (string_bytes out.new ≡ string_bytes out.old ++ error_text error.now) }
{
    out.push_str(error_words(error))?;
    put_error_rest(out, error)
}
