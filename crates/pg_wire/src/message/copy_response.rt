ghost use Rattle.std.specs.Prelude.{◌≡◌, ◌↔◌, [], length, option_map, IsTrue, IfOk, IfSome, FitsSigned};
ghost use Rattle.std.specs.Int.{w8, cast_unsigned};
ghost use Rattle.pg_wire.specs.Backend as backend;
ghost use Rattle.pg_wire.specs.Decoding.{Decodes};
ghost use Rattle.pg_wire.specs.Reading.{whole, then_at, byte_at, counted_at, many_at, signed16_at};

use crate::Error;
use crate::reading::{byte, malformed, number16, signed16};
use std::alloc::{AllocError, Global};
use std::marker::Model;

/// The formats of columns, in order: contracts see the list of their numbers.
#[derive(Debug, Drop)]
pub struct FormatCodes {
    codes: Vec<i16>,
}

impl Model for FormatCodes {
    ghost use Rattle.std.specs.Prelude.{List, ℤ};

    ghost Value = { List ℤ };

    ghost view = { λ f. f.codes.items };
}

impl FormatCodes {
    /// No formats, which takes no memory.
    pub fn new(alloc: Global) -> Self
        ensures { result ≡ [] }
    {
        FormatCodes {
            codes: Vec::new(alloc),
        }
    }

    pub fn len(&self) -> usize
        ensures { result ≡ length self.now }
    {
        self.codes.len()
    }

    pub fn is_empty(&self) -> bool
        ensures { IsTrue result ↔ (length self.now ≡ 0) }
    {
        self.codes.is_empty()
    }

    pub fn as_slice(&self) -> &[i16]
        ensures { result.now ≡ self.now }
    {
        &self.codes
    }
}

/// How the data of a copy is formatted, 0 for texts and 1 for binary values, and each of its columns.
/// (PostgreSQL manual, "Message Formats", CopyInResponse and CopyOutResponse.)
#[derive(Debug, Drop)]
pub struct CopyResponseData {
    pub format: i8,
    pub format_codes: FormatCodes,
}

fn codes(alloc: Global, count: u16, bytes: &[u8]) -> Result<Option<(Vec<i16>, &[u8])>, AllocError>
    ensures { IfOk result (λ r. option_map (λ x. (x.0.items, x.1.now)) r ≡ many_at signed16_at count bytes.now) }
{
    let mut codes = Vec::new(alloc);
    let mut rest = bytes;
    for _ in 0..count {
        let Some((code, after)) = signed16(rest) else {
            return Ok(None);
        };
        codes.push(code)?;
        rest = after;
    }
    Ok(Some((codes, rest)))
}

#[tactic(auto, unfolding(crate::specs::Reading::whole, crate::specs::Reading::then_at, crate::specs::Reading::counted_at))]
fn response(alloc: Global, body: &[u8]) -> Result<Option<CopyResponseData>, AllocError>
    ensures fits { IfOk result (λ r. IfSome r (λ d. FitsSigned w8 d.format)) }
    ensures value { IfOk result (λ r. option_map (λ d. (cast_unsigned w8 d.format, d.format_codes)) r ≡ whole (then_at byte_at (counted_at signed16_at)) body.now) }
{
    let Some((format, rest)) = byte(body) else {
        return Ok(None);
    };
    let Some((count, rest)) = number16(rest) else {
        return Ok(None);
    };
    match codes(alloc, count, rest)? {
        Some((codes, [])) => Ok(Some(CopyResponseData {
            format: format.cast_signed(),
            format_codes: FormatCodes { codes },
        })),
        _ => Ok(None),
    }
}

/// Reads the body of a `G` message: the server awaits data.
pub fn decode_copy_in_response(alloc: Global, body: &[u8]) -> Result<CopyResponseData, Error>
    ensures { Decodes (λ d. backend.CopyInResponse d.format d.format_codes) 71 body.now result }
{
    match response(alloc, body)? {
        Some(data) => Ok(data),
        None => Err(malformed(b'G')),
    }
}

/// Reads the body of an `H` message: the server sends data.
pub fn decode_copy_out_response(alloc: Global, body: &[u8]) -> Result<CopyResponseData, Error>
    ensures { Decodes (λ d. backend.CopyOutResponse d.format d.format_codes) 72 body.now result }
{
    match response(alloc, body)? {
        Some(data) => Ok(data),
        None => Err(malformed(b'H')),
    }
}
