ghost use Rattle.std.specs.Prelude.{◌≡◌, option_map, IfOk};
ghost use Rattle.pg_wire.specs.Reports.{first_text, severity_of, code_of, message_of};

use crate::PgSeverity;
use crate::fields::ErrorFields;
use std::alloc::{AllocError, Global};
use std::marker::Model;

/// The error that a server reports in an ErrorResponse: contracts see the list of its fields.
/// (PostgreSQL manual, "Error and Notice Message Fields".)
#[derive(Debug)]
pub struct PgDatabaseError {
    // In a block of its own: whatever may fail has room for an error, and few have one.
    fields: Box<ErrorFields>,
}

// By hand, so that whoever lets one go makes one call, and doesn't go through its parts.
impl Drop for PgDatabaseError {
    fn drop(self) {
        let PgDatabaseError { fields: _ } = self;
    }
}

impl Model for PgDatabaseError {
    ghost use Rattle.std.specs.Prelude.{List};
    ghost use Rattle.pg_wire.specs.declared.fields.ErrorField as declared_field;

    ghost Value = { List declared_field.ErrorField };

    ghost view = { λ e. e.fields.value };
}

impl PgDatabaseError {
    pub(crate) fn new(alloc: Global, fields: ErrorFields) -> Result<Self, AllocError>
        ensures { IfOk result (λ e. e ≡ fields) }
    {
        Ok(PgDatabaseError {
            fields: Box::new(alloc, fields)?,
        })
    }

    /// The severity by field `V`, or by `S` where that one names none, or else `Log`.
    pub fn severity(&self) -> PgSeverity
        ensures { result ≡ severity_of self.now }
    {
        self.fields.severity()
    }

    /// The SQLSTATE code, field `C`.
    pub fn code(&self) -> &str
        ensures { result.now ≡ code_of self.now }
    {
        self.fields.code()
    }

    /// The primary message, field `M`.
    pub fn message(&self) -> &str
        ensures { result.now ≡ message_of self.now }
    {
        self.fields.message()
    }

    /// The bytes of the first field with this code, such as `D` for the detail and `H` for the hint.
    pub fn field(&self, code: u8) -> Option<&[u8]>
        ensures { option_map (λ x. x.now) result ≡ first_text code self.now }
    {
        self.fields.field(code)
    }
}
