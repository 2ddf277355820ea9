use crate::telling::push;
use pg_options::{CertificateInput, PgConnectOptions, PgSslMode};
use pg_report::put_error;
use pg_wire::{Error, Text};
use std::fmt::Write;

/// Writes why nothing came of a row.
pub(crate) fn push_error(told: &mut String, error: Error) {
    let _ = put_error(told, &error);
    drop(error);
}

pub(crate) fn push_text(told: &mut String, answer: Result<Text, Error>) {
    match answer {
        Ok(text) => push(told, text.as_str()),
        Err(error) => push_error(told, error),
    }
}

fn put(out: &mut String, name: &str, value: &str) {
    let _ = write!(out, "[{name} {value}]");
}

fn put_unless(out: &mut String, name: &str, value: &str, usual: &str) {
    if value != usual {
        put(out, name, value);
    }
}

fn put_set(out: &mut String, name: &str, value: Option<&str>) {
    if let Some(value) = value {
        put(out, name, value);
    }
}

fn put_count(out: &mut String, name: &str, count: u64, usual: u64) {
    if count != usual {
        let _ = write!(out, "[{name} {count}]");
    }
}

fn put_digits(out: &mut String, digits: Option<i8>) {
    if digits != Some(2) {
        let _ = write!(out, "[digits {digits:?}]");
    }
}

fn put_input(out: &mut String, name: &str, input: Option<&CertificateInput>) {
    match input {
        Some(CertificateInput::File(path)) => put(out, name, path.as_str()),
        Some(CertificateInput::Inline(_)) => put(out, name, "inline"),
        None => {}
    }
}

fn put_address(out: &mut String, options: &PgConnectOptions) {
    put_unless(out, "host", options.get_host(), "localhost");
    put_count(out, "port", u64::from(options.get_port()), 5432);
    put_set(out, "socket", options.get_socket());
    put_unless(out, "user", options.get_username(), "unknown");
    put_set(out, "password", options.get_password());
    put_set(out, "database", options.get_database());
}

fn put_security(out: &mut String, options: &PgConnectOptions) {
    let usual = PgSslMode::default().name();
    put_unless(out, "mode", options.get_ssl_mode().name(), usual);
    put_input(out, "root", options.get_ssl_root_cert());
    put_input(out, "cert", options.get_ssl_client_cert());
    put_input(out, "key", options.get_ssl_client_key());
}

fn put_session(out: &mut String, options: &PgConnectOptions) {
    put_count(out, "cache", options.get_cache_capacity() as u64, 100);
    put_set(out, "application", options.get_application_name());
    put_digits(out, options.get_extra_float_digits());
    put_set(out, "options", options.get_options());
}

fn put_options(told: &mut String, options: &PgConnectOptions) {
    put_address(told, options);
    put_security(told, options);
    put_session(told, options);
    if told.is_empty() {
        push(told, "nothing");
    }
}

// What differs from the defaults, `nothing` where that is none.
pub(crate) fn push_options(told: &mut String, answer: Result<PgConnectOptions, Error>) {
    match answer {
        Ok(options) => put_options(told, &options),
        Err(error) => push_error(told, error),
    }
}
