ghost use Rattle.std.specs.Prelude.{◌≡◌, [], Some, option_map, IfOk, IfErr};
ghost use Rattle.pg_wire.specs.Reading.{number32_at, value_at};
ghost use Rattle.pg_values.specs.Arrays.{OfItems, IsArray, ReadsEach, element_type};
ghost use Rattle.pg_values.specs.Texts.{IsTextArray};
ghost use Rattle.pg_values.specs.ArrayReading.{dimensions_at, count_at, head_at, ReadsElements, ReadsArray};
ghost use Rattle.pg_values.specs.Values.{IsNoValue};
ghost use Rattle.pg_values.specs.declared.format.PgValueFormat.TheVariants as formats;

use crate::decode::Decode;
use crate::format::{PgValueFormat, PgValueRef};
use crate::text_reading::read_array;
use pg_arguments::{PgTypeInfo, PgTypeKind};
use pg_wire::{Error, Text};
use std::alloc::Global;

#[tactic(auto, unfolding(pg_wire::specs::Reading::number32_at))]
fn number32(bytes: &[u8]) -> Option<(u32, &[u8])>
    ensures { option_map (λ x. (x.0, x.1.now)) result ≡ number32_at bytes.now }
{
    match bytes {
        [a, b, c, d, rest @ ..] => Some((u32::from_be_bytes([*a, *b, *c, *d]), rest)),
        _ => None,
    }
}

// A value behind its length; the length -1 is that of a null.
#[tactic(auto, unfolding(pg_wire::specs::Reading::value_at))]
fn value(bytes: &[u8]) -> Option<(Option<&[u8]>, &[u8])>
    ensures { option_map (λ x. (option_map (λ y. y.now) x.0, x.1.now)) result ≡ value_at bytes.now }
{
    let (length, rest) = number32(bytes)?;
    if length == u32::MAX {
        return Some((None, rest));
    }
    if length > i32::MAX as u32 || length as usize > rest.len() {
        return None;
    }
    let (value, rest) = rest.split_at(length as usize);
    Some((Some(value), rest))
}

// The number of dimensions, and what follows the type of the elements.
#[tactic(auto, unfolding(crate::specs::ArrayReading::dimensions_at))]
fn dimensions(bytes: &[u8]) -> Option<(u32, &[u8])>
    ensures { option_map (λ x. (x.0, x.1.now)) result ≡ dimensions_at bytes.now }
{
    let (dimensions, rest) = number32(bytes)?;
    let (flags, rest) = number32(rest)?;
    let (_element, rest) = number32(rest)?;
    if flags <= 1 {
        Some((dimensions, rest))
    } else {
        None
    }
}

// The number of elements in one dimension, and their bytes.
#[tactic(auto, unfolding(crate::specs::ArrayReading::count_at))]
fn count(bytes: &[u8]) -> Option<(u32, &[u8])>
    ensures { option_map (λ x. (x.0, x.1.now)) result ≡ count_at bytes.now }
{
    let (count, rest) = number32(bytes)?;
    let (_first, rest) = number32(rest)?;
    if count < 1 << 31 {
        Some((count, rest))
    } else {
        None
    }
}

// The number of elements, and their bytes.
#[tactic(auto, unfolding(crate::specs::ArrayReading::head_at))]
fn head(bytes: &[u8]) -> Option<(u32, &[u8])>
    ensures { option_map (λ x. (x.0, x.1.now)) result ≡ head_at bytes.now }
{
    match dimensions(bytes)? {
        (0, []) => Some((0, &[])),
        (1, rest) => count(rest),
        _ => None,
    }
}

// So many elements of this type, which are all of the bytes.
fn read_elements<T: Decode>(
    alloc: Global,
    count: u32,
    bytes: &[u8],
    type_info: &PgTypeInfo,
) -> Result<Vec<T>, Error>
    ensures value { IfOk result (OfItems (ReadsElements (T.reads type_info.now formats.Binary) count bytes.now)) }
    ensures cause { IfErr result (IsNoValue (OfItems (ReadsElements (T.reads type_info.now formats.Binary) count bytes.now))) }
{
    let mut items = Vec::new(alloc);
    let mut rest = bytes;
    for _ in 0..count {
        let Some((value, after)) = value(rest) else {
            return Err(Error::Decode);
        };
        let item = PgValueRef {
            value,
            type_info,
            format: PgValueFormat::Binary,
        };
        items.push(T::decode(alloc, item)?)?;
        rest = after;
    }
    if rest.is_empty() {
        Ok(items)
    } else {
        Err(Error::Decode)
    }
}

// The type of the elements: the one that the array's type tells, or else that type itself.
pub(crate) fn element_of(of: &PgTypeInfo) -> &PgTypeInfo
    ensures { result.now ≡ element_type of.now }
{
    match of.kind() {
        PgTypeKind::Array(element) => element,
        _ => of,
    }
}

// An array of elements of this type, read from left to right.
fn read_parts<T: Decode>(
    alloc: Global,
    bytes: &[u8],
    type_info: &PgTypeInfo,
) -> Result<Vec<T>, Error>
    ensures value { IfOk result (OfItems (ReadsArray (T.reads type_info.now formats.Binary) bytes.now)) }
    ensures cause { IfErr result (IsNoValue (OfItems (ReadsArray (T.reads type_info.now formats.Binary) bytes.now))) }
{
    match head(bytes) {
        Some((count, rest)) => read_elements(alloc, count, rest, type_info),
        None => Err(Error::Decode),
    }
}

// An array of this type in the binary format.
pub(crate) fn read_binary<T: Decode>(
    alloc: Global,
    bytes: &[u8],
    type_info: &PgTypeInfo,
) -> Result<Vec<T>, Error>
    ensures value { IfOk result (OfItems (IsArray (T.reads (element_type type_info.now) formats.Binary) bytes.now)) }
    ensures cause { IfErr result (IsNoValue (OfItems (IsArray (T.reads (element_type type_info.now) formats.Binary) bytes.now))) }
{
    read_parts(alloc, bytes, element_of(type_info))
}

fn bytes_of(element: &Option<Text>) -> Option<&[u8]>
    ensures { option_map (λ b. b.now) result ≡ element.now }
{
    match element {
        Some(text) => Some(text.as_bytes()),
        None => None,
    }
}

// Elements of this type whose texts are there already.
fn read_each<T: Decode>(
    alloc: Global,
    elements: &[Option<Text>],
    type_info: &PgTypeInfo,
) -> Result<Vec<T>, Error>
    ensures value { IfOk result (OfItems (ReadsEach (T.reads type_info.now formats.Text) elements.now)) }
    ensures cause { IfErr result (IsNoValue (OfItems (ReadsEach (T.reads type_info.now formats.Text) elements.now))) }
{
    let mut items = Vec::new(alloc);
    for element in elements {
        let item = PgValueRef {
            value: bytes_of(element),
            type_info,
            format: PgValueFormat::Text,
        };
        items.push(T::decode(alloc, item)?)?;
    }
    Ok(items)
}

// An array of this type in the text format.
pub(crate) fn read_text<T: Decode>(
    alloc: Global,
    bytes: &[u8],
    type_info: &PgTypeInfo,
) -> Result<Vec<T>, Error>
    ensures value { IfOk result (OfItems (IsTextArray (T.reads (element_type type_info.now) formats.Text) bytes.now)) }
    ensures cause { IfErr result (IsNoValue (OfItems (IsTextArray (T.reads (element_type type_info.now) formats.Text) bytes.now))) }
{
    let Ok(text) = str::from_utf8(bytes) else {
        return Err(Error::Decode);
    };
    let elements = read_array(alloc, text)?;
    read_each(alloc, &elements, element_of(type_info))
}
