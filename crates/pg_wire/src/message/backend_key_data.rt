ghost use Rattle.std.specs.Prelude.{◌≡◌, option_map, IfErr};
ghost use Rattle.pg_wire.specs.Backend as backend;
ghost use Rattle.pg_wire.specs.Decoding.{Decodes, malformed};
ghost use Rattle.pg_wire.specs.Reading.{whole, then_at, number32_at};

use crate::Error;
use crate::reading::{malformed, number32};

/// What a cancel request has to name. (PostgreSQL manual, "Message Formats", BackendKeyData.)
#[derive(Clone, Copy, Debug, PartialEq, Eq)]
pub struct BackendKeyData {
    pub process_id: u32,
    pub secret_key: u32,
}

#[tactic(auto, unfolding(crate::specs::Reading::whole, crate::specs::Reading::then_at))]
fn key_data(body: &[u8]) -> Option<BackendKeyData>
    ensures { option_map (λ d. (d.process_id, d.secret_key)) result ≡ whole (then_at number32_at number32_at) body.now }
{
    let (process_id, rest) = number32(body)?;
    let (secret_key, rest) = number32(rest)?;
    if !rest.is_empty() {
        return None;
    }
    Some(BackendKeyData {
        process_id,
        secret_key,
    })
}

/// Reads the body of a `K` message.
pub fn decode_backend_key_data(body: &[u8]) -> Result<BackendKeyData, Error>
    ensures exact { Decodes (λ d. backend.BackendKeyData d.process_id d.secret_key) 75 body.now result }
    ensures err { IfErr result (λ e. e ≡ malformed 75) }
{
    match key_data(body) {
        Some(data) => Ok(data),
        None => Err(malformed(b'K')),
    }
}
