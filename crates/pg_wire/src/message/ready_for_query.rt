ghost use Rattle.std.specs.Prelude.{◌≡◌, IfErr};
ghost use Rattle.pg_wire.specs.Backend as backend;
ghost use Rattle.pg_wire.specs.Decoding.{Decodes, malformed};
ghost use Rattle.pg_wire.specs.Reading.{status_in};

use crate::reading::malformed;
use crate::{Error, TransactionStatus};

#[tactic(auto, unfolding(crate::specs::Reading::status_in))]
fn status(body: &[u8]) -> Option<TransactionStatus>
    ensures { result ≡ status_in body.now }
{
    match body {
        [b'I'] => Some(TransactionStatus::Idle),
        [b'T'] => Some(TransactionStatus::Transaction),
        [b'E'] => Some(TransactionStatus::Error),
        _ => None,
    }
}

/// Reads the body of a `Z` message. (PostgreSQL manual, "Message Formats", ReadyForQuery.)
pub fn decode_ready_for_query(body: &[u8]) -> Result<TransactionStatus, Error>
    ensures exact { Decodes backend.ReadyForQuery 90 body.now result }
    ensures err { IfErr result (λ e. e ≡ malformed 90) }
{
    match status(body) {
        Some(status) => Ok(status),
        None => Err(malformed(b'Z')),
    }
}
