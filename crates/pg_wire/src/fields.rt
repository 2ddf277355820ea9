ghost use Rattle.std.specs.Prelude.{◌≡◌, [], IfOk, bytes_eq, option_map, unwrap_or, string_bytes};
ghost use Rattle.std.specs.Str.Lossy.{utf8_lossy};
ghost use Rattle.pg_wire.specs.Reports.{first_text, severity_named, severity_at, severity_of, text_at, code_of, message_of};

use crate::{Blob, PgSeverity, Text};
use std::alloc::{AllocError, Global};
use std::marker::Model;

/// One field of an error or a notice: its code and its bytes.
#[derive(Debug, Drop)]
pub struct ErrorField {
    pub code: u8,
    pub text: Blob,
}

/// The fields of an error or a notice, in the order in which they came.
#[derive(Debug, Drop)]
pub(crate) struct ErrorFields {
    fields: Vec<ErrorField>,
    severity: PgSeverity,
    code: Text,
    message: Text,
}

impl Model for ErrorFields {
    ghost use Rattle.std.specs.Prelude.{List, ◌≡◌};
    ghost use Rattle.pg_wire.specs.declared.fields.ErrorField as declared_field;
    ghost use Rattle.pg_wire.specs.Reports.{severity_of, code_of, message_of};

    ghost Value = { List declared_field.ErrorField };

    ghost view = { λ e. e.fields.items };

    ghost invariant = { λ e. (e.severity ≡ severity_of e.fields.items) × (e.code ≡ code_of e.fields.items) × (e.message ≡ message_of e.fields.items) };
}

// The text of the first field with this code.
fn first(fields: &[ErrorField], code: u8) -> Option<&[u8]>
    ensures { option_map (λ x. x.now) result ≡ first_text code fields.now }
{
    for field in fields {
        if field.code == code {
            return Some(field.text.as_bytes());
        }
    }
    None
}

// Whether a word is spelled so.
fn is(word: &[u8], spelling: &[u8]) -> bool
    ensures { result ≡ bytes_eq word.now spelling.now }
{
    word == spelling
}

#[tactic(auto, unfolding(crate::specs::Reports::severity_named))]
fn severity_named(word: &[u8]) -> Option<PgSeverity>
    ensures { result ≡ severity_named word.now }
{
    if is(word, b"PANIC") {
        Some(PgSeverity::Panic)
    } else if is(word, b"FATAL") {
        Some(PgSeverity::Fatal)
    } else if is(word, b"ERROR") {
        Some(PgSeverity::Error)
    } else if is(word, b"WARNING") {
        Some(PgSeverity::Warning)
    } else if is(word, b"NOTICE") {
        Some(PgSeverity::Notice)
    } else if is(word, b"DEBUG") {
        Some(PgSeverity::Debug)
    } else if is(word, b"INFO") {
        Some(PgSeverity::Info)
    } else if is(word, b"LOG") {
        Some(PgSeverity::Log)
    } else {
        None
    }
}

// The severity that the first field with this code names.
fn severity_at(fields: &[ErrorField], code: u8) -> Option<PgSeverity>
    ensures { result ≡ severity_at code fields.now }
{
    match first(fields, code) {
        Some(word) => severity_named(word),
        None => None,
    }
}

fn severity(fields: &[ErrorField]) -> PgSeverity
    ensures { result ≡ severity_of fields.now }
{
    match (severity_at(fields, b'V'), severity_at(fields, b'S')) {
        (Some(severity), _) => severity,
        (None, Some(severity)) => severity,
        (None, None) => PgSeverity::Log,
    }
}

// A text field; bytes that are no UTF-8 are replaced.
fn text_at(alloc: Global, fields: &[ErrorField], code: u8) -> Result<Text, AllocError>
    ensures { IfOk result (λ t. t ≡ text_at code fields.now) }
{
    let bytes = first(fields, code).unwrap_or(&[]);
    let text = String::from_utf8_lossy(alloc, bytes)?;
    Ok(Text::from_string(text))
}

impl ErrorFields {
    pub(crate) fn new(alloc: Global, fields: Vec<ErrorField>) -> Result<Self, AllocError>
        ensures { IfOk result (λ e. e ≡ fields.items) }
    {
        let code = text_at(alloc, &fields, b'C')?;
        let message = text_at(alloc, &fields, b'M')?;
        let severity = severity(&fields);
        Ok(ErrorFields {
            fields,
            severity,
            code,
            message,
        })
    }

    pub(crate) fn severity(&self) -> PgSeverity
        ensures { result ≡ severity_of self.now }
    {
        self.severity
    }

    pub(crate) fn code(&self) -> &str
        ensures { result.now ≡ code_of self.now }
    {
        self.code.as_str()
    }

    pub(crate) fn message(&self) -> &str
        ensures { result.now ≡ message_of self.now }
    {
        self.message.as_str()
    }

    pub(crate) fn field(&self, code: u8) -> Option<&[u8]>
        ensures { option_map (λ x. x.now) result ≡ first_text code self.now }
    {
        first(&self.fields, code)
    }
}
