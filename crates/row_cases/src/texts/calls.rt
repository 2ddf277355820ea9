use crate::row::{meant, put, text, two};
use crate::telling::{push, push_shown};
use crate::texts::told::{push_error, push_options};
use pg_auth::MaybeUpgradeTls;
use pg_options::{PgConnectOptions, PgSettings, PgSslMode};
use pg_wire::{Error, Text};
use std::alloc::Global;

type Options = Result<PgConnectOptions, Error>;

#[derive(Clone, Copy)]
enum Call {
    Host,
    Port,
    Socket,
    Username,
    Password,
    Database,
    SslMode,
    StatementCacheCapacity,
    ApplicationName,
    NoExtraFloatDigits,
    OneOption,
    NoOptions,
    ToCopy,
    SslRootCert,
    SslClientCert,
    SslClientKey,
    SslRootCertFromPem,
    SslClientCertFromPem,
    SslClientKeyFromPem,
}

static CALLS: [(&str, Call); 19] = [
    ("host", Call::Host),
    ("port", Call::Port),
    ("socket", Call::Socket),
    ("username", Call::Username),
    ("password", Call::Password),
    ("database", Call::Database),
    ("ssl_mode", Call::SslMode),
    ("statement_cache_capacity", Call::StatementCacheCapacity),
    ("application_name", Call::ApplicationName),
    ("no_extra_float_digits", Call::NoExtraFloatDigits),
    ("option", Call::OneOption),
    ("no_options", Call::NoOptions),
    ("clone", Call::ToCopy),
    ("ssl_root_cert", Call::SslRootCert),
    ("ssl_client_cert", Call::SslClientCert),
    ("ssl_client_key", Call::SslClientKey),
    ("ssl_root_cert_from_pem", Call::SslRootCertFromPem),
    ("ssl_client_cert_from_pem", Call::SslClientCertFromPem),
    ("ssl_client_key_from_pem", Call::SslClientKeyFromPem),
];

fn with_pair(alloc: Global, options: PgConnectOptions, row: &str) -> Options {
    let (name, value) = two(row, ' ');
    options.options(&[(text(alloc, name), text(alloc, value))])
}

// As `text`.
fn pem(alloc: Global, text: &str) -> Vec<u8> {
    let mut bytes = Vec::new(alloc);
    put(&mut bytes, text.as_bytes());
    bytes
}

fn with_call(alloc: Global, options: PgConnectOptions, call: Call, value: &str) -> Options {
    match call {
        Call::Host => options.host(value),
        Call::Port => Ok(options.port(value.parse().unwrap_or(0))),
        Call::Socket => options.socket(value),
        Call::Username => options.username(value),
        Call::Password => options.password(value),
        Call::Database => options.database(value),
        Call::SslMode => Ok(options.ssl_mode(value.parse().unwrap_or(PgSslMode::Disable))),
        Call::StatementCacheCapacity => {
            Ok(options.statement_cache_capacity(value.parse().unwrap_or(0)))
        }
        Call::ApplicationName => options.application_name(value),
        Call::NoExtraFloatDigits => Ok(options.extra_float_digits(None)),
        Call::OneOption => with_pair(alloc, options, value),
        Call::NoOptions => options.options(&[]),
        Call::ToCopy => options.clone(),
        Call::SslRootCert => options.ssl_root_cert(value),
        Call::SslClientCert => options.ssl_client_cert(value),
        Call::SslClientKey => options.ssl_client_key(value),
        Call::SslRootCertFromPem => options.ssl_root_cert_from_pem(pem(alloc, value)),
        Call::SslClientCertFromPem => options.ssl_client_cert_from_pem(value.as_bytes()),
        Call::SslClientKeyFromPem => options.ssl_client_key_from_pem(value.as_bytes()),
    }
}

// A word for no call makes other options than the row's.
fn with_word(alloc: Global, options: PgConnectOptions, word: &str, value: &str) -> Options {
    match meant(&CALLS, word) {
        Some(call) => with_call(alloc, options, call, value),
        None => Ok(options.port(65535)),
    }
}

fn unset(alloc: Global) -> Options {
    let settings = PgSettings::empty();
    let options = PgConnectOptions::new(alloc, &settings);
    drop(settings);
    options
}

fn with_calls(alloc: Global, calls: &str) -> Options {
    let mut options = unset(alloc)?;
    for call in calls.split('|') {
        let (name, value) = two(call, ' ');
        options = with_word(alloc, options, name, value)?;
    }
    Ok(options)
}

// What builder calls set over unset options.
pub(crate) fn called(told: &mut String, alloc: Global, calls: &str) {
    push_options(told, with_calls(alloc, calls));
}

fn push_file(told: &mut String, file: Result<Option<Text>, Error>) {
    match file {
        Ok(Some(file)) => push(told, file.as_str()),
        Ok(None) => push(told, "none"),
        Err(error) => push_error(told, error),
    }
}

// The file of the local socket behind builder calls.
pub(crate) fn socket_file(told: &mut String, alloc: Global, calls: &str) {
    match with_calls(alloc, calls) {
        Ok(options) => push_file(told, options.fetch_socket(alloc)),
        Err(error) => push_error(told, error),
    }
}

fn push_plan(told: &mut String, options: &PgConnectOptions, link: &str) {
    push(told, options.get_ssl_mode().name());
    push(told, " ");
    let plan = MaybeUpgradeTls(options).wants(link.contains("upgrade"), link.contains("local"));
    push_shown(told, plan);
}

// What is done about TLS before the startup message; the row is the link and the builder calls.
pub(crate) fn tls_plan(told: &mut String, alloc: Global, row: &str) {
    let (link, calls) = two(row, '|');
    match with_calls(alloc, calls) {
        Ok(options) => push_plan(told, &options, link),
        Err(error) => push_error(told, error),
    }
}
