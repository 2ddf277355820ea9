ghost use Rattle.pg_wire.specs.Backend as backend;
ghost use Rattle.pg_wire.specs.Decoding.{Decodes};

use super::details::error_fields;
use crate::reading::malformed;
use crate::{Error, PgDatabaseError};
use std::alloc::Global;

/// Reads the body of an `E` message. (PostgreSQL manual, "Message Formats", ErrorResponse.)
pub fn decode_error_response(alloc: Global, body: &[u8]) -> Result<PgDatabaseError, Error>
    ensures { Decodes backend.ErrorResponse 69 body.now result }
{
    match error_fields(alloc, body)? {
        Some(fields) => Ok(PgDatabaseError::new(alloc, fields)?),
        None => Err(malformed(b'E')),
    }
}
