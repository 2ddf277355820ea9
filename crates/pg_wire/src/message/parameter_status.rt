ghost use Rattle.std.specs.Prelude.{◌≡◌, option_map};
ghost use Rattle.pg_wire.specs.Backend as backend;
ghost use Rattle.pg_wire.specs.Decoding.{Decodes};
ghost use Rattle.pg_wire.specs.Reading.{whole, then_at, text_at};

use crate::reading::{malformed, text};
use crate::{Error, Text};
use std::alloc::Global;

/// A setting of the session and its value. (PostgreSQL manual, "Message Formats", ParameterStatus.)
#[derive(Debug, Drop)]
pub struct ParameterStatus {
    pub name: Text,
    pub value: Text,
}

#[tactic(auto, unfolding(crate::specs::Reading::whole, crate::specs::Reading::then_at))]
fn setting(body: &[u8]) -> Option<(&str, &str)>
    ensures { option_map (λ x. (x.0.now, x.1.now)) result ≡ whole (then_at text_at text_at) body.now }
{
    let (name, rest) = text(body)?;
    let (value, rest) = text(rest)?;
    if !rest.is_empty() {
        return None;
    }
    Some((name, value))
}

/// Reads the body of an `S` message.
pub fn decode_parameter_status(alloc: Global, body: &[u8]) -> Result<ParameterStatus, Error>
    ensures { Decodes (λ s. backend.ParameterStatus s.name s.value) 83 body.now result }
{
    match setting(body) {
        Some((name, value)) => Ok(ParameterStatus {
            name: Text::from_str(alloc, name)?,
            value: Text::from_str(alloc, value)?,
        }),
        None => Err(malformed(b'S')),
    }
}
