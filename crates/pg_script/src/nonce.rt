ghost use Rattle.std.specs.Prelude.{◌≡◌};
ghost use Rattle.std.specs.List.{list_all};
ghost use Rattle.pg_script.specs.Nonces.{IsNonce, is_printable, is_nonce, nonce_in};
ghost use Rattle.pg_script.specs.Reading.{Gives};

use crate::error::LineError;
use pg_wire::Blob;
use std::alloc::Global;
use std::marker::Model;

/// The nonce of a client of SCRAM: 64 to 127 printable ASCII characters without a space and without a comma. (RFC 5802,
/// section 7, `printable`.)
#[derive(Debug, Drop)]
pub struct Nonce {
    bytes: Blob,
}

impl Model for Nonce {
    ghost use Rattle.std.specs.Prelude.{List, ℕ};
    ghost use Rattle.pg_script.specs.Nonces.{IsNonce};

    ghost Value = { List ℕ };

    ghost view = { λ n. n.bytes };

    ghost invariant = { λ n. IsNonce n.bytes };
}

fn is_printable(byte: u8) -> bool
    ensures { result ≡ is_printable byte }
{
    (byte >= 0x21 && byte <= 0x2B) || (byte >= 0x2D && byte <= 0x7E)
}

fn all_printable(bytes: &[u8]) -> bool
    ensures { result ≡ list_all is_printable bytes.now }
{
    bytes.iter().all(|byte| is_printable(*byte))
}

fn is_nonce(bytes: &[u8]) -> bool
    ensures { result ≡ is_nonce bytes.now }
{
    bytes.len() >= 64 && bytes.len() <= 127 && all_printable(bytes)
}

impl Nonce {
    // The nonce that these bytes are.
    #[tactic(auto, using(crate::proofs::NonceLaws::nonce_lawful))]
    pub(crate) fn new(alloc: Global, bytes: &[u8]) -> Result<Self, LineError>
        ensures { Gives (λ n. n) result (nonce_in bytes.now) }
    {
        if is_nonce(bytes) {
            let bytes = Blob::from_slice(alloc, bytes)?;
            Ok(Nonce { bytes })
        } else {
            Err(LineError::Bad)
        }
    }

    /// The characters.
    pub fn as_bytes(&self) -> &[u8]
        ensures value { result.now ≡ self.now }
        ensures lawful { IsNonce result.now }
    {
        self.bytes.as_bytes()
    }
}
