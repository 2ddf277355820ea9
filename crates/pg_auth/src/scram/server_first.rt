ghost use Rattle.std.specs.Prelude.{◌≡◌, IfOk, IfErr, IfSome, option_map};
ghost use Rattle.base64.specs.GeneralPurpose.{IsBytes};
ghost use Rattle.pg_wire.specs.declared.error.Error.TheVariants.{OutOfMemory};
ghost use Rattle.pg_auth.specs.Reading.{attribute_at, are_printable, before_comma, behind_comma, count_at, fields_at, said, server_first_at};

use crate::nonce::all_printable;
use base64::DecodeAllocError;
use base64::engine::general_purpose::STANDARD;
use pg_wire::Error;
use std::alloc::Global;

// What a server-first-message says.
#[derive(Drop)]
pub(super) struct ServerFirst<'a> {
    pub nonce: &'a [u8],
    pub salt: Vec<u8>,
    pub rounds: u32,
}

fn split_comma(bytes: &[u8]) -> (&[u8], &[u8])
    ensures before { result.0.now ≡ before_comma bytes.now }
    ensures behind { result.1.now ≡ behind_comma bytes.now }
{
    for place in 0..bytes.len() {
        if bytes[place] == b',' {
            return (&bytes[..place], &bytes[place + 1..]);
        }
    }
    (bytes, &[])
}

// The value of an attribute with this name, and what stands behind its comma.
#[tactic(auto, unfolding(crate::specs::Reading::attribute_at))]
fn attribute(bytes: &[u8], name: u8) -> Option<(&[u8], &[u8])>
    ensures { option_map (λ x. (x.0.now, x.1.now)) result ≡ attribute_at name bytes.now }
{
    match bytes {
        [found, b'=', value @ ..] if *found == name => Some(split_comma(value)),
        _ => None,
    }
}

#[tactic(auto, unfolding(crate::specs::Reading::are_printable))]
fn printable(bytes: &[u8]) -> Option<&[u8]>
    ensures { option_map (λ x. x.now) result ≡ are_printable bytes.now }
{
    if bytes.is_empty() || !all_printable(bytes) {
        return None;
    }
    Some(bytes)
}

// One to ten digits, at most 4294967295.
#[tactic(auto, unfolding(crate::specs::Reading::count_at))]
fn count(digits: &[u8]) -> Option<u32>
    ensures { result ≡ count_at digits.now }
{
    if digits.is_empty() || digits.len() > 10 {
        return None;
    }
    let mut number = 0u64;
    for digit in digits {
        if !digit.is_ascii_digit() {
            return None;
        }
        number = number * 10 + u64::from(*digit - b'0');
    }
    u32::try_from(number).ok()
}

// The nonce, the text of the salt and the number of rounds.
#[tactic(auto, unfolding(crate::specs::Reading::fields_at))]
fn fields(text: &[u8]) -> Option<(&[u8], &[u8], u32)>
    ensures { option_map (λ x. (x.0.now, x.1.now, x.2)) result ≡ fields_at text.now }
{
    let (nonce, rest) = attribute(text, b'r')?;
    let (salt, rest) = attribute(rest, b's')?;
    let (digits, _) = attribute(rest, b'i')?;
    let nonce = printable(nonce)?;
    let rounds = count(digits)?;
    Some((nonce, salt, rounds))
}

/// Reads a server-first-message, if the text is one. (RFC 5802, section 7.)
#[tactic(auto, unfolding(crate::specs::Reading::server_first_at, crate::specs::Reading::salt_at))]
pub(super) fn read_server_first(alloc: Global, text: &str) -> Result<Option<ServerFirst<'_>>, Error>
    ensures ok { IfOk result (λ m. option_map (λ m. said m.nonce.now m.salt.items m.rounds) m ≡ server_first_at text.now) }
    ensures bytes { IfOk result (λ m. IfSome m (λ m. IsBytes m.salt.items)) }
    ensures err { IfErr result (λ e. e ≡ OutOfMemory) }
{
    let Some((nonce, salt, rounds)) = fields(text.as_bytes()) else {
        return Ok(None);
    };
    match STANDARD.decode(alloc, salt) {
        Ok(salt) => Ok(Some(ServerFirst {
            nonce,
            salt,
            rounds,
        })),
        Err(DecodeAllocError::DecodeError(_)) => Ok(None),
        Err(DecodeAllocError::OutOfMemory) => Err(Error::OutOfMemory),
    }
}
