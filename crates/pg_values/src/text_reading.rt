// The text forms of arrays and records, read from left to right.

ghost use Rattle.std.specs.Prelude.{◌≡◌, ◌≤◌, length, take, drop, slice_index, List, ℕ, [], ◌∷◌, MatchOption, option_map, ◌+◌, bytes_eq, if◌then◌else◌, Some, None, IfOk, IfErr};
ghost use Rattle.std.specs.Str.{is_utf8};
ghost use Rattle.pg_values.specs.Arrays.{OfItems};
ghost use Rattle.pg_values.specs.Values.{IsNoValue};
ghost use Rattle.pg_values.specs.Texts.{SpellsRest, ArrayTextOf, RecordTextOf, closing, null_text, is_blank, is_plain};
ghost use Rattle.pg_values.specs.TextReading.{kept_at, character_at, quoted_at, plain_at, quoted_text_at, plain_text_at, item_at, after_item, items_in};

use crate::style::Style;
use pg_wire::{Error, Text};
use std::alloc::{AllocError, Global};

fn closing(style: Style) -> u8
    ensures { result ≡ closing style }
{
    match style {
        Style::Array => b'}',
        Style::Record => b')',
    }
}

fn is_blank(byte: u8) -> bool
    ensures { result ≡ is_blank byte }
{
    byte == b' ' || (9 <= byte && byte <= 13)
}

// Whether a byte may stand outside of quotes.
fn is_plain(style: Style, byte: u8) -> bool
    ensures { result ≡ is_plain style byte }
{
    match style {
        Style::Array => {
            !(byte == b'{'
                || byte == b'}'
                || byte == b','
                || byte == b'"'
                || byte == b'\\'
                || is_blank(byte))
        }
        Style::Record => {
            !(byte == b'(' || byte == b')' || byte == b',' || byte == b'"' || byte == b'\\')
        }
    }
}

// What a quote or a backslash and the byte behind it mean.
fn kept(style: Style, bytes: &[u8]) -> Option<(Option<u8>, &[u8])>
    requires { 2 ≤ length bytes.now }
    ensures { option_map (λ x. (x.0, x.1.now)) result ≡ kept_at style (slice_index bytes.now 0) (slice_index bytes.now 1) (drop 2 bytes.now) }
{
    let first = bytes[0];
    let second = bytes[1];
    match style {
        Style::Array => {
            if first == b'"' {
                Some((None, &bytes[1..]))
            } else {
                Some((Some(second), &bytes[2..]))
            }
        }
        Style::Record => {
            if second == first {
                Some((Some(first), &bytes[2..]))
            } else if first == b'"' {
                Some((None, &bytes[1..]))
            } else {
                None
            }
        }
    }
}

// A byte in quotes, or None for the quote that ends them.
#[tactic(auto, unfolding(crate::specs::TextReading::character_at))]
fn character(style: Style, bytes: &[u8]) -> Option<(Option<u8>, &[u8])>
    ensures { option_map (λ x. (x.0, x.1.now)) result ≡ character_at style bytes.now }
{
    match bytes {
        [] => None,
        [b'"'] => Some((None, &[])),
        [b'\\'] => None,
        [byte] => Some((Some(*byte), &[])),
        [byte, _, ..] => {
            if *byte == b'"' || *byte == b'\\' {
                kept(style, bytes)
            } else {
                Some((Some(*byte), &bytes[1..]))
            }
        }
    }
}

// The text up to the quote that ends it, and what follows.
fn quoted(alloc: Global, style: Style, bytes: &[u8]) -> Result<Option<(Vec<u8>, &[u8])>, AllocError>
    ensures { IfOk result (λ r. option_map (λ x. (x.0.items, x.1.now)) r ≡ quoted_at style (length bytes.now) bytes.now) }
{
    let mut text = Vec::new(alloc);
    let mut rest = bytes;
    for _ in 0..bytes.len() {
        let Some((next, after)) = character(style, rest) else {
            return Ok(None);
        };
        match next {
            None => return Ok(Some((text, after))),
            Some(byte) => text.push(byte)?,
        }
        rest = after;
    }
    Ok(None)
}

// The number of plain bytes at the front.
fn plain_length(style: Style, bytes: &[u8]) -> usize
    ensures bound { result ≤ length bytes.now }
    ensures value { (take result bytes.now, drop result bytes.now) ≡ plain_at style bytes.now }
{
    for place in 0..bytes.len() {
        if !is_plain(style, bytes[place]) {
            return place;
        }
    }
    bytes.len()
}

// The text of bytes, if they are one.
fn text_of(alloc: Global, bytes: &[u8]) -> Result<Option<Text>, AllocError>
    ensures { IfOk result (λ r. r ≡ (if is_utf8 bytes.now then Some bytes.now else None)) }
{
    match str::from_utf8(bytes) {
        Ok(text) => Ok(Some(Text::from_str(alloc, text)?)),
        Err(_) => Ok(None),
    }
}

// An item in quotes, behind the first of them.
fn quoted_item(
    alloc: Global,
    style: Style,
    bytes: &[u8],
) -> Result<Option<(Option<Text>, &[u8])>, AllocError>
    ensures { IfOk result (λ r. option_map (λ x. (x.0, x.1.now)) r ≡ quoted_text_at style bytes.now) }
{
    let Some((text, rest)) = quoted(alloc, style, bytes)? else {
        return Ok(None);
    };
    match text_of(alloc, &text)? {
        Some(text) => Ok(Some((Some(text), rest))),
        None => Ok(None),
    }
}

fn is_null(style: Style, text: &[u8]) -> bool
    ensures { result ≡ bytes_eq text.now (null_text style) }
{
    match style {
        Style::Array => text == b"NULL".as_slice(),
        Style::Record => text.is_empty(),
    }
}

// An item without quotes.
fn plain_item(
    alloc: Global,
    style: Style,
    bytes: &[u8],
) -> Result<Option<(Option<Text>, &[u8])>, AllocError>
    ensures { IfOk result (λ r. option_map (λ x. (x.0, x.1.now)) r ≡ plain_text_at style bytes.now) }
{
    let (text, rest) = bytes.split_at(plain_length(style, bytes));
    if is_null(style, text) {
        return Ok(Some((None, rest)));
    }
    if text.is_empty() {
        return Ok(None);
    }
    match text_of(alloc, text)? {
        Some(text) => Ok(Some((Some(text), rest))),
        None => Ok(None),
    }
}

#[tactic(auto, unfolding(crate::specs::TextReading::item_at))]
fn item(
    alloc: Global,
    style: Style,
    bytes: &[u8],
) -> Result<Option<(Option<Text>, &[u8])>, AllocError>
    ensures { IfOk result (λ r. option_map (λ x. (x.0, x.1.now)) r ≡ item_at style bytes.now) }
{
    match bytes {
        [b'"', rest @ ..] => quoted_item(alloc, style, rest),
        _ => plain_item(alloc, style, bytes),
    }
}

// The bytes behind a comma, or None where the text ends.
#[tactic(auto, unfolding(crate::specs::TextReading::after_item))]
fn after_item(style: Style, bytes: &[u8]) -> Option<Option<&[u8]>>
    ensures { option_map (λ x. option_map (λ b. b.now) x) result ≡ after_item style bytes.now }
{
    match bytes {
        [b',', rest @ ..] => Some(Some(rest)),
        [byte] => {
            if *byte == closing(style) {
                Some(None)
            } else {
                None
            }
        }
        _ => None,
    }
}

// The items up to the closing brace or parenthesis.
fn items(alloc: Global, style: Style, bytes: &[u8]) -> Result<Option<Vec<Option<Text>>>, AllocError>
    ensures { IfOk result (λ r. option_map (λ v. v.items) r ≡ items_in style (length bytes.now + 1) bytes.now) }
{
    let mut items = Vec::new(alloc);
    let mut rest = bytes;
    for _ in 0..bytes.len() + 1 {
        let Some((item, after)) = item(alloc, style, rest)? else {
            return Ok(None);
        };
        items.push(item)?;
        match after_item(style, after) {
            Some(Some(more)) => rest = more,
            Some(None) => return Ok(Some(items)),
            None => return Ok(None),
        }
    }
    Ok(None)
}

// The items behind an opening brace or parenthesis.
fn read_items(alloc: Global, style: Style, bytes: &[u8]) -> Result<Vec<Option<Text>>, Error>
    ensures value { IfOk result (OfItems (SpellsRest style bytes.now)) }
    ensures cause { IfErr result (IsNoValue (SpellsRest style bytes.now)) }
{
    match items(alloc, style, bytes)? {
        Some(items) => Ok(items),
        None => Err(Error::Decode),
    }
}

// The bytes behind an opening brace or parenthesis.
fn behind(mark: u8, bytes: &[u8]) -> Option<&[u8]>
    ensures { MatchOption result ((rest : List ℕ) → bytes.now ≡ mark ∷ rest → ⊥) (λ r. bytes.now ≡ mark ∷ r.now) }
{
    match bytes {
        [first, rest @ ..] => { if *first == mark { Some(rest) } else { None } }
        [] => None,
    }
}

fn is_empty_array(bytes: &[u8]) -> bool
    ensures { result ≡ bytes_eq bytes.now (123 ∷ 125 ∷ []) }
{
    bytes == b"{}".as_slice()
}

/// The elements of an array in its text form, without their quotes; None is a null. `Error::Decode` comes exactly where the text is
/// none of a one-dimensional array. (PostgreSQL manual, "Array Input and Output Syntax".)
pub fn read_array(alloc: Global, text: &str) -> Result<Vec<Option<Text>>, Error>
    ensures value { IfOk result (OfItems (ArrayTextOf text.now)) }
    ensures cause { IfErr result (IsNoValue (ArrayTextOf text.now)) }
{
    let bytes = text.as_bytes();
    if is_empty_array(bytes) {
        return Ok(Vec::new(alloc));
    }
    match behind(b'{', bytes) {
        Some(rest) => read_items(alloc, Style::Array, rest),
        None => Err(Error::Decode),
    }
}

/// The fields of a record in its text form, without their quotes; None is a null. `Error::Decode` comes exactly where the text is none
/// of a record. (PostgreSQL manual, "Composite Type Input and Output Syntax".)
pub fn read_composite(alloc: Global, text: &str) -> Result<Vec<Option<Text>>, Error>
    ensures value { IfOk result (OfItems (RecordTextOf text.now)) }
    ensures cause { IfErr result (IsNoValue (RecordTextOf text.now)) }
{
    match behind(b'(', text.as_bytes()) {
        Some(rest) => read_items(alloc, Style::Record, rest),
        None => Err(Error::Decode),
    }
}
