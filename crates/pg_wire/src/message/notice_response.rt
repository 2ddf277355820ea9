ghost use Rattle.std.specs.Prelude.{◌≡◌, option_map};
ghost use Rattle.pg_wire.specs.Reports.{first_text, severity_of, code_of, message_of};
ghost use Rattle.pg_wire.specs.Backend as backend;
ghost use Rattle.pg_wire.specs.Decoding.{Decodes};

use super::details::error_fields;
use crate::fields::ErrorFields;
use crate::reading::malformed;
use crate::{Error, PgSeverity};
use std::alloc::Global;
use std::marker::Model;

/// What a server tells beside its replies: contracts see the list of its fields.
/// (PostgreSQL manual, "Message Formats", NoticeResponse.)
#[derive(Debug, Drop)]
pub struct Notice {
    fields: ErrorFields,
}

impl Model for Notice {
    ghost use Rattle.std.specs.Prelude.{List};
    ghost use Rattle.pg_wire.specs.declared.fields.ErrorField as declared_field;

    ghost Value = { List declared_field.ErrorField };

    ghost view = { λ n. n.fields };
}

impl Notice {
    /// The severity by field `V`, or by `S` where that one names none, or else `Log`.
    pub fn severity(&self) -> PgSeverity
        ensures { result ≡ severity_of self.now }
    {
        self.fields.severity()
    }

    /// The SQLSTATE code, field `C`.
    pub fn code(&self) -> &str
        ensures { result.now ≡ code_of self.now }
    {
        self.fields.code()
    }

    /// The primary message, field `M`.
    pub fn message(&self) -> &str
        ensures { result.now ≡ message_of self.now }
    {
        self.fields.message()
    }

    /// The bytes of the first field with this code, such as `D` for the detail and `H` for the hint.
    pub fn field(&self, code: u8) -> Option<&[u8]>
        ensures { option_map (λ x. x.now) result ≡ first_text code self.now }
    {
        self.fields.field(code)
    }
}

/// Reads the body of an `N` message.
pub fn decode_notice_response(alloc: Global, body: &[u8]) -> Result<Notice, Error>
    ensures { Decodes backend.NoticeResponse 78 body.now result }
{
    match error_fields(alloc, body)? {
        Some(fields) => Ok(Notice { fields }),
        None => Err(malformed(b'N')),
    }
}
