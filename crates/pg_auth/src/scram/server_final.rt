ghost use Rattle.std.specs.Prelude.{◌≡◌, ◌≤◌, List, ℕ, length, take, OnOk, IfErr, MatchOption, option_map};
ghost use Rattle.base64.specs.GeneralPurpose.{IsBytes};
ghost use Rattle.pg_auth.specs.Reading.{IsEncoded, verifier_at};
ghost use Rattle.pg_auth.specs.Scram.{verifier_text};
ghost use Rattle.pg_auth.specs.ScramAnswers.{IsVerifier, RefusesVerifier};

use super::answer::ScramAnswer;
use super::{MALFORMED, refused};
use base64::engine::general_purpose::STANDARD;
use pg_wire::{Error, ServerFault};

// The bytes of a signature, and the characters of their base64 text.
const SIGNATURE: usize = 32;

const ENCODED: usize = 44;

fn front(bytes: &[u8]) -> [u8; SIGNATURE]
    requires { 32 ≤ length bytes.now }
    ensures value { result ≡ take 32 bytes.now }
    ensures bytes { IsBytes result }
{
    let mut front = [0; SIGNATURE];
    front.copy_from_slice(&bytes[..SIGNATURE]);
    front
}

fn decoded(text: &[u8]) -> Option<[u8; SIGNATURE]>
    ensures { MatchOption result ((signature : List ℕ) → IsEncoded text.now signature → ⊥) (λ signature. IsEncoded text.now signature) }
{
    if text.len() != ENCODED {
        return None;
    }
    let mut bytes = [0; 33];
    let Ok(count) = STANDARD.decode_slice_unchecked(text, &mut bytes) else {
        return None;
    };
    if count != SIGNATURE {
        return None;
    }
    Some(front(&bytes))
}

#[tactic(auto, unfolding(crate::specs::Reading::verifier_at))]
fn verifier(text: &[u8]) -> Option<&[u8]>
    ensures { option_map (λ x. x.now) result ≡ verifier_at text.now }
{
    match text {
        [b'v', b'=', encoded @ ..] => Some(encoded),
        _ => None,
    }
}

fn signature(text: &str) -> Option<[u8; SIGNATURE]>
    ensures { MatchOption result ((signature : List ℕ) → IsVerifier text.now signature → ⊥) (λ signature. IsVerifier text.now signature) }
{
    let Some(encoded) = verifier(text.as_bytes()) else {
        return None;
    };
    let Some(signature) = decoded(encoded) else {
        return None;
    };
    Some(signature)
}

/// Whether the server's last message proves that it knows the password too. (RFC 5802, section 3.)
///
/// It is refused with `Malformed` where it is no base64 of a signature, and with `Signature` where that is another one.
pub fn scram_verifier(answer: &ScramAnswer, server_final: &str) -> Result<(), Error>
    ensures ok { OnOk result (server_final.now ≡ verifier_text answer.now.verifier) }
    ensures refused { IfErr result (λ e. RefusesVerifier answer.now.verifier server_final.now e) }
{
    let Some(signature) = signature(server_final) else {
        return Err(refused(MALFORMED));
    };
    if signature.as_slice() != answer.verifier.as_slice() {
        return Err(refused(ServerFault::Signature));
    }
    Ok(())
}
