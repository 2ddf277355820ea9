ghost use Rattle.std.specs.Prelude.{◌≡◌, ◌==◌, ◌^◌, map, option_map, IfOk};
ghost use Rattle.std.specs.List.{slice_split};
ghost use Rattle.pg_script.specs.Reading.{Gives};
ghost use Rattle.pg_script.specs.Words.{bare_spelling, behind, begun, bool_of, signed_text, integer_of, each_integer, integers_of, bare_with, bare_of};

use crate::argument::Bare;
use crate::arguments::text_in;
use crate::error::LineError;
use crate::token::BareWord;
use crate::words::number_of;
use pg_wire::Sequence;
use std::alloc::{AllocError, Global};

/// All words in front of arguments that stand without quotes.
const WORDS: [BareWord; 7] = [
    BareWord::Int4,
    BareWord::Int8,
    BareWord::Int2,
    BareWord::Bool,
    BareWord::Null,
    BareWord::Oid,
    BareWord::Int4s,
];

fn bare_spelling(word: BareWord) -> &'static [u8]
    ensures { result.now ≡ bare_spelling word }
{
    match word {
        BareWord::Null => b"null:",
        BareWord::Bool => b"bool:",
        BareWord::Int2 => b"int2:",
        BareWord::Int4 => b"int4:",
        BareWord::Int8 => b"int8:",
        BareWord::Oid => b"oid:",
        BareWord::Int4s => b"int4s:",
    }
}

// What stands behind a front, where it stands first.
fn behind<'w>(front: &[u8], word: &'w [u8]) -> Option<&'w [u8]>
    ensures { option_map (λ r. r.now) result ≡ behind front.now word.now }
{
    word.strip_prefix(front)
}

// The first of some words that this one begins with, and what stands behind it.
fn begun<'w>(words: &[BareWord], word: &'w [u8]) -> Option<(BareWord, &'w [u8])>
    ensures { option_map (λ x. (x.0, x.1.now)) result ≡ begun words.now word.now }
{
    for first in words {
        if let Some(rest) = behind(bare_spelling(*first), word) {
            return Some((*first, rest));
        }
    }
    None
}

fn bool_of(bytes: &[u8]) -> Option<bool>
    ensures { result ≡ bool_of bytes.now }
{
    match bytes {
        [b't'] => Some(true),
        [b'f'] => Some(false),
        _ => None,
    }
}

// A text that does not begin with a plus.
fn signed_text(bytes: &[u8]) -> Option<&str>
    ensures { option_map (λ t. t.now) result ≡ signed_text bytes.now }
{
    match bytes {
        [b'+', ..] => None,
        _ => text_in(bytes),
    }
}

fn int2_of(bytes: &[u8]) -> Option<i16>
    ensures { result ≡ integer_of (2 ^ 15) bytes.now }
{
    let text = signed_text(bytes)?;
    text.parse::<i16>().ok()
}

pub(crate) fn int4_of(bytes: &[u8]) -> Option<i32>
    ensures { result ≡ integer_of (2 ^ 31) bytes.now }
{
    let text = signed_text(bytes)?;
    text.parse::<i32>().ok()
}

pub(crate) fn int8_of(bytes: &[u8]) -> Option<i64>
    ensures { result ≡ integer_of (2 ^ 63) bytes.now }
{
    let text = signed_text(bytes)?;
    text.parse::<i64>().ok()
}

/// The parts between commas.
pub(crate) fn parts<'b>(alloc: Global, bytes: &'b [u8]) -> Result<Vec<&'b [u8]>, AllocError>
    ensures { IfOk result (λ v. map (λ x. x.now) v.items ≡ slice_split (λ b. b == 44) bytes.now) }
{
    bytes.split(|byte| *byte == b',').collect(alloc)
}

// The numbers that some parts are.
fn each_integer(alloc: Global, parts: &[&[u8]]) -> Result<Sequence<i32>, LineError>
    ensures { Gives (λ n. n) result (each_integer (map (λ x. x.now) parts.now)) }
{
    let mut numbers = Sequence::new(alloc);
    for part in parts {
        match int4_of(part) {
            Some(number) => numbers.push(number)?,
            None => return Err(LineError::Bad),
        }
    }
    Ok(numbers)
}

// Numbers between commas, or none.
fn integers_of(alloc: Global, bytes: &[u8]) -> Result<Sequence<i32>, LineError>
    ensures { Gives (λ n. n) result (integers_of bytes.now) }
{
    if bytes.is_empty() {
        return Ok(Sequence::new(alloc));
    }
    let parts = parts(alloc, bytes)?;
    each_integer(alloc, &parts)
}

pub(crate) fn found<T: Drop>(value: Option<T>) -> Result<T, LineError>
    ensures { Gives (λ x. x) result value }
{
    match value {
        Some(value) => Ok(value),
        None => Err(LineError::Bad),
    }
}

// The argument that stands behind its word.
fn bare_with(alloc: Global, word: BareWord, bytes: &[u8]) -> Result<Bare, LineError>
    ensures { Gives (λ a. a) result (bare_with word bytes.now) }
{
    match word {
        BareWord::Null => Ok(Bare::Null(found(number_of(bytes))?)),
        BareWord::Bool => Ok(Bare::Bool(found(bool_of(bytes))?)),
        BareWord::Int2 => Ok(Bare::Int2(found(int2_of(bytes))?)),
        BareWord::Int4 => Ok(Bare::Int4(found(int4_of(bytes))?)),
        BareWord::Int8 => Ok(Bare::Int8(found(int8_of(bytes))?)),
        BareWord::Oid => Ok(Bare::Oid(found(number_of(bytes))?)),
        BareWord::Int4s => Ok(Bare::Int4s(integers_of(alloc, bytes)?)),
    }
}

/// The argument that a word says by itself.
#[tactic(auto, unfolding(crate::specs::Words::bare_of))]
pub(crate) fn bare_of(alloc: Global, word: &[u8]) -> Result<Bare, LineError>
    ensures { Gives (λ a. a) result (bare_of word.now) }
{
    match begun(&WORDS, word) {
        Some((first, bytes)) => bare_with(alloc, first, bytes),
        None => Err(LineError::Bad),
    }
}
