// Readers of the fields of a body. Each answers a value and the bytes behind it, or None where no such value stands there.

ghost use Rattle.std.specs.Prelude.{◌≡◌, option_map, FitsSigned, IfSome};
ghost use Rattle.std.specs.Int.{w16, w32};
ghost use Rattle.pg_wire.specs.Reading.{byte_at, number16_at, number32_at, signed16_at, signed32_at, ended_at, text_at, value_at};
ghost use Rattle.pg_wire.specs.declared.error.Error.TheVariants as errors;
ghost use Rattle.pg_wire.specs.declared.error.ProtocolFault.TheVariants as faults;
ghost use Rattle.pg_wire.specs.declared.error.ServerFault.TheVariants as servers;

use crate::{Error, ProtocolFault, ServerFault};

// The answer to a body that is not in its message's format.
pub(crate) fn malformed(tag: u8) -> Error
    ensures { result ≡ errors.Protocol (faults.Server (servers.Malformed tag)) }
{
    Error::Protocol(ProtocolFault::Server(ServerFault::Malformed { tag }))
}

#[tactic(auto, unfolding(crate::specs::Reading::byte_at))]
pub(crate) fn byte(bytes: &[u8]) -> Option<(u8, &[u8])>
    ensures { option_map (λ x. (x.0, x.1.now)) result ≡ byte_at bytes.now }
{
    match bytes {
        [byte, rest @ ..] => Some((*byte, rest)),
        [] => None,
    }
}

#[tactic(auto, unfolding(crate::specs::Reading::number16_at))]
pub(crate) fn number16(bytes: &[u8]) -> Option<(u16, &[u8])>
    ensures { option_map (λ x. (x.0, x.1.now)) result ≡ number16_at bytes.now }
{
    let number = bytes.first_chunk::<2>()?;
    Some((u16::from_be_bytes(*number), &bytes[2..]))
}

#[tactic(auto, unfolding(crate::specs::Reading::number32_at))]
pub(crate) fn number32(bytes: &[u8]) -> Option<(u32, &[u8])>
    ensures { option_map (λ x. (x.0, x.1.now)) result ≡ number32_at bytes.now }
{
    let number = bytes.first_chunk::<4>()?;
    Some((u32::from_be_bytes(*number), &bytes[4..]))
}

#[tactic(auto, unfolding(crate::specs::Reading::signed16_at))]
pub(crate) fn signed16(bytes: &[u8]) -> Option<(i16, &[u8])>
    ensures value { option_map (λ x. (x.0, x.1.now)) result ≡ signed16_at bytes.now }
    ensures fits { IfSome result (λ x. FitsSigned w16 x.0) }
{
    let (number, rest) = number16(bytes)?;
    Some((number.cast_signed(), rest))
}

#[tactic(auto, unfolding(crate::specs::Reading::signed32_at))]
pub(crate) fn signed32(bytes: &[u8]) -> Option<(i32, &[u8])>
    ensures value { option_map (λ x. (x.0, x.1.now)) result ≡ signed32_at bytes.now }
    ensures fits { IfSome result (λ x. FitsSigned w32 x.0) }
{
    let (number, rest) = number32(bytes)?;
    Some((number.cast_signed(), rest))
}

// The bytes up to a zero byte, which is passed over.
pub(crate) fn ended(bytes: &[u8]) -> Option<(&[u8], &[u8])>
    ensures { option_map (λ x. (x.0.now, x.1.now)) result ≡ ended_at bytes.now }
{
    for place in 0..bytes.len() {
        if bytes[place] == 0 {
            return Some((&bytes[..place], &bytes[place + 1..]));
        }
    }
    None
}

#[tactic(auto, unfolding(crate::specs::Reading::text_at))]
pub(crate) fn text(bytes: &[u8]) -> Option<(&str, &[u8])>
    ensures { option_map (λ x. (x.0.now, x.1.now)) result ≡ text_at bytes.now }
{
    let (text, rest) = ended(bytes)?;
    match str::from_utf8(text) {
        Ok(text) => Some((text, rest)),
        Err(_) => None,
    }
}

// A value behind its length; the length -1 is that of a null.
#[tactic(auto, unfolding(crate::specs::Reading::value_at))]
pub(crate) fn value(bytes: &[u8]) -> Option<(Option<&[u8]>, &[u8])>
    ensures { option_map (λ x. (option_map (λ y. y.now) x.0, x.1.now)) result ≡ value_at bytes.now }
{
    let (length, rest) = number32(bytes)?;
    if length == u32::MAX {
        return Some((None, rest));
    }
    if length > i32::MAX as u32 || length as usize > rest.len() {
        return None;
    }
    let (value, rest) = rest.split_at(length as usize);
    Some((Some(value), rest))
}
