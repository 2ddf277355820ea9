ghost use Rattle.std.specs.Prelude.{◌≡◌, MatchOption};
ghost use Rattle.std.specs.Str.Parse.{IsNumeral, without_leading_sign, without_leading_plus};
ghost use Rattle.std.specs.Int.{w8, w16, w32, w64};
ghost use Rattle.pg_values.specs.Values.{Answers, ReadsBy, IsSigned, IsDecimal, IsCharText, IsOid, IsOidText};

use crate::decode::Decode;
use crate::format::{PgValueFormat, PgValueRef};
use pg_wire::{Error, Oid};
use std::alloc::Global;

// The text of bytes, which numerals have.
#[tactic(auto, using(crate::proofs::NumeralLaws::signed_numeral, crate::proofs::NumeralLaws::plus_numeral))]
fn digits(bytes: &[u8]) -> Option<&str>
    ensures { MatchOption result ((IsNumeral 10 (without_leading_sign bytes.now) → ⊥) × (IsNumeral 10 (without_leading_plus bytes.now) → ⊥)) (λ t. t.now ≡ bytes.now) }
{
    str::from_utf8(bytes).ok()
}

fn i8_binary(bytes: &[u8]) -> Option<i8>
    ensures { Answers (IsSigned w8 bytes.now) result }
{
    match bytes {
        [a] => Some(i8::from_be_bytes([*a])),
        _ => None,
    }
}

fn char_text(bytes: &[u8]) -> Option<i8>
    ensures { Answers (IsCharText bytes.now) result }
{
    match bytes {
        [] => Some(0),
        [..] => i8_binary(bytes),
    }
}

impl Decode for i8 {
    ghost reads = { λ _. ReadsBy (IsSigned w8) IsCharText };

    fn decode(_alloc: Global, value: PgValueRef<'_>) -> Result<Self, Error> {
        let Some(bytes) = value.value else {
            return Err(Error::Decode);
        };
        match value.format {
            PgValueFormat::Binary => i8_binary(bytes).ok_or(Error::Decode),
            PgValueFormat::Text => char_text(bytes).ok_or(Error::Decode),
        }
    }
}

fn i16_binary(bytes: &[u8]) -> Option<i16>
    ensures { Answers (IsSigned w16 bytes.now) result }
{
    match bytes {
        [a, b] => Some(i16::from_be_bytes([*a, *b])),
        _ => None,
    }
}

fn i16_text(bytes: &[u8]) -> Option<i16>
    ensures { Answers (IsDecimal w16 bytes.now) result }
{
    let text = digits(bytes)?;
    text.parse::<i16>().ok()
}

impl Decode for i16 {
    ghost reads = { λ _. ReadsBy (IsSigned w16) (IsDecimal w16) };

    fn decode(_alloc: Global, value: PgValueRef<'_>) -> Result<Self, Error> {
        let Some(bytes) = value.value else {
            return Err(Error::Decode);
        };
        match value.format {
            PgValueFormat::Binary => i16_binary(bytes).ok_or(Error::Decode),
            PgValueFormat::Text => i16_text(bytes).ok_or(Error::Decode),
        }
    }
}

fn i32_binary(bytes: &[u8]) -> Option<i32>
    ensures { Answers (IsSigned w32 bytes.now) result }
{
    match bytes {
        [a, b, c, d] => Some(i32::from_be_bytes([*a, *b, *c, *d])),
        _ => None,
    }
}

fn i32_text(bytes: &[u8]) -> Option<i32>
    ensures { Answers (IsDecimal w32 bytes.now) result }
{
    let text = digits(bytes)?;
    text.parse::<i32>().ok()
}

impl Decode for i32 {
    ghost reads = { λ _. ReadsBy (IsSigned w32) (IsDecimal w32) };

    fn decode(_alloc: Global, value: PgValueRef<'_>) -> Result<Self, Error> {
        let Some(bytes) = value.value else {
            return Err(Error::Decode);
        };
        match value.format {
            PgValueFormat::Binary => i32_binary(bytes).ok_or(Error::Decode),
            PgValueFormat::Text => i32_text(bytes).ok_or(Error::Decode),
        }
    }
}

fn i64_binary(bytes: &[u8]) -> Option<i64>
    ensures { Answers (IsSigned w64 bytes.now) result }
{
    match bytes {
        [a, b, c, d, e, f, g, h] => Some(i64::from_be_bytes([*a, *b, *c, *d, *e, *f, *g, *h])),
        _ => None,
    }
}

fn i64_text(bytes: &[u8]) -> Option<i64>
    ensures { Answers (IsDecimal w64 bytes.now) result }
{
    let text = digits(bytes)?;
    text.parse::<i64>().ok()
}

impl Decode for i64 {
    ghost reads = { λ _. ReadsBy (IsSigned w64) (IsDecimal w64) };

    fn decode(_alloc: Global, value: PgValueRef<'_>) -> Result<Self, Error> {
        let Some(bytes) = value.value else {
            return Err(Error::Decode);
        };
        match value.format {
            PgValueFormat::Binary => i64_binary(bytes).ok_or(Error::Decode),
            PgValueFormat::Text => i64_text(bytes).ok_or(Error::Decode),
        }
    }
}

fn oid_binary(bytes: &[u8]) -> Option<Oid>
    ensures { Answers (IsOid bytes.now) result }
{
    match bytes {
        [a, b, c, d] => Some(Oid(u32::from_be_bytes([*a, *b, *c, *d]))),
        _ => None,
    }
}

fn oid_text(bytes: &[u8]) -> Option<Oid>
    ensures { Answers (IsOidText bytes.now) result }
{
    let text = digits(bytes)?;
    let number = text.parse::<u32>().ok()?;
    Some(Oid(number))
}

impl Decode for Oid {
    ghost reads = { λ _. ReadsBy IsOid IsOidText };

    fn decode(_alloc: Global, value: PgValueRef<'_>) -> Result<Self, Error> {
        let Some(bytes) = value.value else {
            return Err(Error::Decode);
        };
        match value.format {
            PgValueFormat::Binary => oid_binary(bytes).ok_or(Error::Decode),
            PgValueFormat::Text => oid_text(bytes).ok_or(Error::Decode),
        }
    }
}
