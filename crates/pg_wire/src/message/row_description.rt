ghost use Rattle.std.specs.Prelude.{◌≡◌, ◌≢◌, ◌↔◌, [], List, length, map, option_map, unwrap_or, pos, IsTrue, IfOk, IfSome};
ghost use Rattle.std.specs.List.{AllByRecursion};
ghost use Rattle.pg_wire.specs.Backend as backend;
ghost use Rattle.pg_wire.specs.Decoding.{Decodes, DecodesAs};
ghost use Rattle.pg_wire.specs.Fields.{described, TellsNone};
ghost use Rattle.pg_wire.specs.Backend.{FieldDescription};
ghost use Rattle.pg_wire.specs.Reading.{whole, counted_at, many_at, field_at};
ghost use Rattle.pg_wire.specs.Rows.{passed, count_passed};

use crate::reading::{malformed, number16, number32, signed16, signed32, text};
use crate::{Error, Oid, Text};
use std::alloc::{AllocError, Global};
use std::marker::Model;

/// A column of a row. (PostgreSQL manual, "Message Formats", RowDescription.)
#[derive(Debug, Drop)]
pub struct Field {
    pub name: Text,
    /// The table, where the column is one of a table.
    pub relation_id: Option<Oid>,
    /// The column's number in its table.
    pub relation_attribute_no: Option<i16>,
    pub type_id: Oid,
    /// The length of the type; a negative one is that of a type of any length.
    pub size: i16,
    pub modifier: i32,
    /// 0 for texts and 1 for binary values.
    pub format: i16,
}

/// The columns of rows, in order: contracts see the list of them.
#[derive(Debug)]
pub struct RowDescription {
    fields: Vec<Field>,
}

// By hand, so that whoever lets one go makes one call, and doesn't go through its parts.
impl Drop for RowDescription {
    fn drop(self) {
        let RowDescription { fields: _ } = self;
    }
}

impl Model for RowDescription {
    ghost use Rattle.std.specs.Prelude.{List};
    ghost use Rattle.pg_wire.specs.declared.message.row_description.Field as declared_field;

    ghost Value = { List declared_field.Field };

    ghost view = { λ r. r.fields.items };
}

impl RowDescription {
    /// No columns, which takes no memory.
    pub fn new(alloc: Global) -> Self
        ensures { result ≡ [] }
    {
        RowDescription {
            fields: Vec::new(alloc),
        }
    }

    pub fn len(&self) -> usize
        ensures { result ≡ length self.now }
    {
        self.fields.len()
    }

    pub fn is_empty(&self) -> bool
        ensures { IsTrue result ↔ (length self.now ≡ 0) }
    {
        self.fields.is_empty()
    }

    pub fn as_slice(&self) -> &[Field]
        ensures { result.now ≡ self.now }
    {
        &self.fields
    }

    /// Gives the columns out, without taking memory.
    pub fn into_vec(self) -> Vec<Field>
        ensures { result.items ≡ self }
    {
        let RowDescription { fields } = self;
        fields
    }
}

// The parts of a column as they stand in the message.
#[derive(Clone, Copy)]
struct Parts<'a> {
    name: &'a str,
    table: u32,
    attribute: i16,
    type_id: u32,
    size: i16,
    modifier: i32,
    format: i16,
}

#[tactic(auto, unfolding(crate::specs::Reading::field_at))]
fn parts_at(bytes: &[u8]) -> Option<(Parts<'_>, &[u8])>
    ensures { option_map (λ x. (record { name = x.0.name.now; table = x.0.table; attribute = x.0.attribute; type_id = x.0.type_id; size = x.0.size; modifier = x.0.modifier; format = x.0.format }, x.1.now)) result ≡ field_at bytes.now }
{
    let (name, rest) = text(bytes)?;
    let (table, rest) = number32(rest)?;
    let (attribute, rest) = signed16(rest)?;
    let (type_id, rest) = number32(rest)?;
    let (size, rest) = signed16(rest)?;
    let (modifier, rest) = signed32(rest)?;
    let (format, rest) = signed16(rest)?;
    let parts = Parts {
        name,
        table,
        attribute,
        type_id,
        size,
        modifier,
        format,
    };
    Some((parts, rest))
}

// The table, where its number is one.
fn table_of(number: u32) -> Option<Oid>
    ensures value { unwrap_or result 0 ≡ number }
    ensures none { IfSome result (λ n. n ≢ 0) }
{
    match number {
        0 => None,
        number => Some(Oid(number)),
    }
}

// The column's number in its table, where it has one.
fn attribute_of(number: i16) -> Option<i16>
    ensures value { unwrap_or result (pos 0) ≡ number }
    ensures none { IfSome result (λ z. z ≢ pos 0) }
{
    match number {
        0 => None,
        number => Some(number),
    }
}

fn kept(alloc: Global, parts: Parts<'_>) -> Result<Field, AllocError>
    ensures value { IfOk result (λ f. described f ≡ record { name = parts.entry.name.now; table = parts.entry.table; attribute = parts.entry.attribute; type_id = parts.entry.type_id; size = parts.entry.size; modifier = parts.entry.modifier; format = parts.entry.format }) }
    ensures none { IfOk result TellsNone }
{
    Ok(Field {
        name: Text::from_str(alloc, parts.name)?,
        relation_id: table_of(parts.table),
        relation_attribute_no: attribute_of(parts.attribute),
        type_id: Oid(parts.type_id),
        size: parts.size,
        modifier: parts.modifier,
        format: parts.format,
    })
}

fn fields(
    alloc: Global,
    count: u16,
    bytes: &[u8],
) -> Result<Option<(Vec<Field>, &[u8])>, AllocError>
    ensures value { IfOk result (λ r. option_map (λ x. (map described x.0.items, x.1.now)) r ≡ many_at field_at count bytes.now) }
    ensures none { IfOk result (λ r. IfSome r (λ x. AllByRecursion TellsNone x.0.items)) }
{
    let mut fields = Vec::new(alloc);
    let mut rest = bytes;
    for _ in 0..count {
        let Some((parts, after)) = parts_at(rest) else {
            return Ok(None);
        };
        fields.push(kept(alloc, parts)?)?;
        rest = after;
    }
    Ok(Some((fields, rest)))
}

#[tactic(auto, unfolding(crate::specs::Reading::whole, crate::specs::Reading::counted_at))]
fn all_fields(alloc: Global, body: &[u8]) -> Result<Option<Vec<Field>>, AllocError>
    ensures value { IfOk result (λ r. option_map (λ v. map described v.items) r ≡ whole (counted_at field_at) body.now) }
    ensures none { IfOk result (λ r. IfSome r (λ v. AllByRecursion TellsNone v.items)) }
{
    let Some((count, rest)) = number16(body) else {
        return Ok(None);
    };
    match fields(alloc, count, rest)? {
        Some((fields, [])) => Ok(Some(fields)),
        _ => Ok(None),
    }
}

/// Reads the body of a `T` message. A table or a column's number of 0 is told as none.
pub fn decode_row_description(alloc: Global, body: &[u8]) -> Result<RowDescription, Error>
    ensures exact { Decodes (λ r. backend.RowDescription (map described r)) 84 body.now result }
    ensures none { IfOk result (AllByRecursion TellsNone) }
{
    match all_fields(alloc, body)? {
        Some(fields) => Ok(RowDescription { fields }),
        None => Err(malformed(b'T')),
    }
}

// Passes over so many columns, and answers the bytes behind them.
fn pass_fields(count: u16, bytes: &[u8]) -> Option<&[u8]>
    ensures { option_map (λ x. x.now) result ≡ passed field_at count bytes.now }
{
    let mut rest = bytes;
    for _ in 0..count {
        let Some((_, after)) = parts_at(rest) else {
            return None;
        };
        rest = after;
    }
    Some(rest)
}

fn count_fields(body: &[u8]) -> Option<u16>
    ensures { result ≡ count_passed field_at body.now }
{
    let (count, rest) = number16(body)?;
    match pass_fields(count, rest)? {
        [] => Some(count),
        _ => None,
    }
}

/// Checks that a body is that of a `T` message, and answers its number of columns. Nothing is kept of it.
pub fn check_row_description(body: &[u8]) -> Result<u16, Error>
    ensures { DecodesAs (λ n m. (fields : List FieldDescription) × (m ≡ backend.RowDescription fields) × (length fields ≡ n)) 84 body.now result }
{
    match count_fields(body) {
        Some(count) => Ok(count),
        None => Err(malformed(b'T')),
    }
}
