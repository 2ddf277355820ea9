// Messages that a client writes, each with one content.

use crate::row::text;
use crate::telling::{push_bytes, push_shown};
use pg_wire::{
    Blob, Error, Oid, PortalId, SslRequest, StatementId, Text, encode_bind, encode_close_portal,
    encode_close_statement, encode_copy_bytes, encode_copy_done, encode_copy_fail,
    encode_describe_portal, encode_describe_statement, encode_execute, encode_parse,
    encode_password, encode_query, encode_sasl_initial, encode_sasl_response, encode_startup,
    encode_sync, encode_terminate,
};
use std::alloc::Global;

#[derive(Clone, Copy)]
pub enum Sent {
    Startup,
    StartupWithDatabase,
    SslRequest,
    Query,
    ParseNamed,
    ParseUnnamed,
    DescribeNamed,
    DescribeUnnamed,
    DescribePortal,
    Bind,
    Execute,
    CloseStatement,
    ClosePortal,
    Sync,
    Terminate,
    Password,
    SaslInitial,
    SaslNext,
    CopyBytes,
    CopyDone,
    CopyFail,
}

pub static SENT: [(&str, Sent); 21] = [
    ("startup", Sent::Startup),
    ("startup-with-database", Sent::StartupWithDatabase),
    ("ssl-request", Sent::SslRequest),
    ("query", Sent::Query),
    ("parse-named", Sent::ParseNamed),
    ("parse-unnamed", Sent::ParseUnnamed),
    ("describe-named", Sent::DescribeNamed),
    ("describe-unnamed", Sent::DescribeUnnamed),
    ("describe-portal", Sent::DescribePortal),
    ("bind", Sent::Bind),
    ("execute", Sent::Execute),
    ("close-statement", Sent::CloseStatement),
    ("close-portal", Sent::ClosePortal),
    ("sync", Sent::Sync),
    ("terminate", Sent::Terminate),
    ("password", Sent::Password),
    ("sasl-initial", Sent::SaslInitial),
    ("sasl-next", Sent::SaslNext),
    ("copy-bytes", Sent::CopyBytes),
    ("copy-done", Sent::CopyDone),
    ("copy-fail", Sent::CopyFail),
];

fn pair(alloc: Global, name: &str, value: &str) -> (Text, Text) {
    (text(alloc, name), text(alloc, value))
}

fn startup(alloc: Global, out: &mut Blob) -> Result<(), Error> {
    let params = [
        pair(alloc, "DateStyle", "ISO, MDY"),
        pair(alloc, "client_encoding", "UTF8"),
        pair(alloc, "TimeZone", "UTC"),
        pair(alloc, "extra_float_digits", "2"),
    ];
    encode_startup(out, "u", None, &params)
}

fn write_rest(message: Sent, out: &mut Blob) -> Result<(), Error> {
    match message {
        Sent::CloseStatement => encode_close_statement(out, StatementId::NAMED_START),
        Sent::ClosePortal => encode_close_portal(out, PortalId::UNNAMED),
        Sent::Sync => encode_sync(out),
        Sent::Terminate => encode_terminate(out),
        Sent::Password => encode_password(out, "pw"),
        Sent::SaslInitial => encode_sasl_initial(out, "n,,"),
        Sent::SaslNext => encode_sasl_response(out, "c="),
        Sent::CopyBytes => encode_copy_bytes(out, b"1\n"),
        Sent::CopyDone => encode_copy_done(out),
        _ => encode_copy_fail(out, "no"),
    }
}

fn write(alloc: Global, message: Sent, out: &mut Blob) -> Result<(), Error> {
    let named = StatementId::from_number(1234567890);
    match message {
        Sent::Startup => startup(alloc, out),
        Sent::StartupWithDatabase => encode_startup(out, "postgres", Some("postgres"), &[]),
        Sent::SslRequest => Ok(out.append(&SslRequest::BYTES)?),
        Sent::Query => encode_query(out, "SELECT 1"),
        Sent::ParseNamed => encode_parse(out, named, "SELECT $1", &[Oid(25)]),
        Sent::ParseUnnamed => encode_parse(out, StatementId::UNNAMED, "SELECT $1", &[Oid(25)]),
        Sent::DescribeNamed => encode_describe_statement(out, named),
        Sent::DescribeUnnamed => encode_describe_statement(out, StatementId::UNNAMED),
        Sent::DescribePortal => encode_describe_portal(out, PortalId::UNNAMED),
        Sent::Bind => encode_bind(
            out,
            StatementId::NAMED_START,
            2,
            b"\x00\x00\x00\x01x\xff\xff\xff\xff",
        ),
        Sent::Execute => encode_execute(out, PortalId::UNNAMED, 1234567890),
        message => write_rest(message, out),
    }
}

/// The frame of a message, in hexadecimal.
pub fn tell_sent(told: &mut String, alloc: Global, message: Sent) {
    let mut out = Blob::new(alloc);
    match write(alloc, message, &mut out) {
        Ok(()) => push_bytes(told, alloc, out.as_bytes()),
        Err(error) => push_shown(told, error),
    }
}
