ghost use Rattle.std.specs.Prelude.{◌≡◌, ◌+◌, ◌∷◌, ◌++◌, ◌<◌, ◌≤◌, List, ℕ, OnOk, OnErr, IfOk, Err};
ghost use Rattle.pg_wire.specs.Bytes.{number32, HasNoNul};
ghost use Rattle.pg_wire.specs.declared.error.Error.TheVariants as errors;
ghost use Rattle.pg_wire.specs.declared.error.ProtocolFault.TheVariants as faults;
ghost use Rattle.pg_wire.specs.declared.error.CallerFault.TheVariants as callers;

use crate::{Blob, CallerFault, Error, ProtocolFault};
use std::alloc::AllocError;

/// The longest body of a frame, so that its length field is at most that of a signed number.
pub const BODY_MAX: u64 = 2147483643;

/// The number that stands in the frame of a body of this length.
pub fn check_body(length: u64) -> Result<u32, Error>
    ensures ok { IfOk result (λ n. n ≡ length + 4) }
    ensures fits { OnOk result (length ≤ BODY_MAX) }
    ensures too_long { OnErr result ((BODY_MAX < length) × (result ≡ Err (errors.Protocol (faults.Caller (callers.TooLong length))))) }
{
    if length > BODY_MAX {
        return Err(Error::Protocol(ProtocolFault::Caller(CallerFault::TooLong { length })));
    }
    Ok((length + 4) as u32)
}

// Refuses a text that a zero byte would cut off.
pub(crate) fn check_text(text: &str) -> Result<(), Error>
    ensures ok { OnOk result (HasNoNul text.now) }
    ensures nul { OnErr result ((HasNoNul text.now → ⊥) × (result ≡ Err (errors.Protocol (faults.Caller callers.Nul)))) }
{
    if text.as_bytes().contains(&0) {
        return Err(Error::Protocol(ProtocolFault::Caller(CallerFault::Nul)));
    }
    Ok(())
}

// Refuses more parts than a count of two bytes can tell.
pub(crate) fn check_count(count: u64) -> Result<u16, Error>
    ensures ok { IfOk result (λ n. n ≡ count) }
    ensures fits { OnOk result (count ≤ 65535) }
    ensures too_many { OnErr result ((65535 < count) × (result ≡ Err (errors.Protocol (faults.Caller (callers.TooMany count))))) }
{
    if count > 65535 {
        return Err(Error::Protocol(ProtocolFault::Caller(CallerFault::TooMany { count })));
    }
    Ok(count as u16)
}

// Adds a frame's tag and its length.
pub(crate) fn append_header(out: &mut Blob, tag: u8, size: u32) -> Result<(), AllocError>
    ensures ok { OnOk result (out.new ≡ out.old ++ (tag ∷ number32 size)) }
    ensures err { OnErr result (out.new ≡ out.old) }
{
    let size = size.to_be_bytes();
    out.append(&[tag, size[0], size[1], size[2], size[3]])
}

// Adds the parts of a frame, or some of them.
fn append_parts(
    out: &mut Blob,
    tag: u8,
    size: u32,
    first: &[u8],
    second: &[u8],
) -> Result<(), AllocError>
    ensures ok { OnOk result (out.new ≡ out.old ++ (tag ∷ number32 size) ++ first.now ++ second.now) }
    ensures part { (more : List ℕ) × (out.new ≡ out.old ++ more) }
{
    append_header(out, tag, size)?;
    out.append(first)?;
    out.append(second)
}

// Adds a frame whose body is in two parts, or nothing. The room for all of it is made at once.
pub(crate) fn append_frame(
    out: &mut Blob,
    tag: u8,
    size: u32,
    first: &[u8],
    second: &[u8],
) -> Result<(), AllocError>
    ensures ok { OnOk result (out.new ≡ out.old ++ (tag ∷ number32 size) ++ first.now ++ second.now) }
    ensures err { OnErr result (out.new ≡ out.old) }
{
    out.reserve(1 + size as usize)?;
    let start = out.len();
    let done = append_parts(out, tag, size, first, second);
    if done.is_err() {
        out.truncate(start);
    }
    done
}
