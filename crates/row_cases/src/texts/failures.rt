use crate::row::{meant, text};
use crate::texts::told::push_error;
use pg_wire::{
    CallerFault, ConfigPart, Error, IoCause, Oid, Oids, ProtocolFault, ServerFault, TlsCause,
    TransactionStatus, decode_error_response,
};
use std::alloc::Global;

#[derive(Clone, Copy)]
enum Failure {
    Startup,
    Fault,
    Reported,
    Short,
    Mechanisms,
    Reply,
    Long,
    Types,
    Configuration,
    Tls,
    Type,
    Begin,
    Column,
    Pool,
}

static FAILURES: [(&str, Failure); 14] = [
    ("startup", Failure::Startup),
    ("fault", Failure::Fault),
    ("reported", Failure::Reported),
    ("short", Failure::Short),
    ("mechanisms", Failure::Mechanisms),
    ("reply", Failure::Reply),
    ("long", Failure::Long),
    ("types", Failure::Types),
    ("configuration", Failure::Configuration),
    ("tls", Failure::Tls),
    ("type", Failure::Type),
    ("begin", Failure::Begin),
    ("column", Failure::Column),
    ("pool", Failure::Pool),
];

fn types(alloc: Global) -> Error {
    let mut oids = Vec::new(alloc);
    let _ = oids.push(Oid(23));
    let _ = oids.push(Oid(4294967295));
    Error::Protocol(ProtocolFault::Types {
        oids: Oids::from_vec(oids),
    })
}

fn reported(alloc: Global) -> Error {
    match decode_error_response(alloc, b"SFEHLER\0VERROR\0C42601\0Mboom\0\0") {
        Ok(error) => Error::Database(error),
        Err(error) => error,
    }
}

fn server(fault: ServerFault) -> Error {
    Error::Protocol(ProtocolFault::Server(fault))
}

fn error_of(alloc: Global, failure: Failure) -> Error {
    match failure {
        Failure::Startup => Error::StartupPending,
        Failure::Fault => Error::Io(IoCause::Fault),
        Failure::Reported => reported(alloc),
        Failure::Short => server(ServerFault::ShortLength {
            tag: b'Z',
            length: 3,
        }),
        Failure::Mechanisms => server(ServerFault::Mechanisms),
        Failure::Reply => Error::Protocol(ProtocolFault::Reply { tag: b'G' }),
        Failure::Long => Error::Protocol(ProtocolFault::Caller(CallerFault::TooLong {
            length: 2147483644,
        })),
        Failure::Types => types(alloc),
        Failure::Configuration => Error::Configuration {
            part: ConfigPart::SslMode,
            place: 2,
        },
        Failure::Tls => Error::Tls(TlsCause::ServerRefused),
        Failure::Type => Error::TypeNotFound {
            type_name: text(alloc, "a\"b\\c\u{e9}\n~"),
        },
        Failure::Begin => Error::BeginFailed(TransactionStatus::Idle),
        Failure::Column => Error::ColumnDecode { index: 7 },
        Failure::Pool => Error::PoolTimedOut { place: 1 },
    }
}

// An error of this name.
pub(crate) fn failed(told: &mut String, alloc: Global, name: &str) {
    let failure = meant(&FAILURES, name).unwrap_or(Failure::Pool);
    push_error(told, error_of(alloc, failure));
}
