ghost use Rattle.std.specs.Prelude.{option_map, IfOk, IfErr};
ghost use Rattle.pg_values.specs.Values.{IsNoValue};
ghost use Rattle.pg_any.specs.Values.{ReadsAny, ReadsAs, ReadsKind};

use crate::kind::{AnyKind, kind_of};
use pg_values::{Decode, PgValueRef};
use pg_wire::{Blob, Error, Text};
use std::alloc::Global;

/// A value by its kind. It is read from a row as any other value; its type then says its kind, and a type that has none has no values.
#[derive(Debug, Drop)]
pub enum AnyValue {
    /// A null, of any kind, and what a VOID function gives.
    Null,
    Bool(bool),
    SmallInt(i16),
    Integer(i32),
    BigInt(i64),
    Blob(Blob),
    Text(Text),
}

// The value of a kind that the bytes are.
fn decode_as(alloc: Global, kind: AnyKind, value: PgValueRef<'_>) -> Result<AnyValue, Error>
    ensures ok { IfOk result (ReadsAs kind value.entry.format (option_map (λ b. b.now) value.entry.value)) }
    ensures err { IfErr result (IsNoValue (ReadsAs kind value.entry.format (option_map (λ b. b.now) value.entry.value))) }
{
    match kind {
        AnyKind::Null => Ok(AnyValue::Null),
        AnyKind::Bool => Ok(AnyValue::Bool(bool::decode(alloc, value)?)),
        AnyKind::SmallInt => Ok(AnyValue::SmallInt(i16::decode(alloc, value)?)),
        AnyKind::Integer => Ok(AnyValue::Integer(i32::decode(alloc, value)?)),
        AnyKind::BigInt => Ok(AnyValue::BigInt(i64::decode(alloc, value)?)),
        AnyKind::Blob => Ok(AnyValue::Blob(Blob::decode(alloc, value)?)),
        AnyKind::Text => Ok(AnyValue::Text(Text::decode(alloc, value)?)),
    }
}

// The same, or a null.
fn decode_any(alloc: Global, kind: AnyKind, value: PgValueRef<'_>) -> Result<AnyValue, Error>
    ensures ok { IfOk result (ReadsKind kind value.entry.format (option_map (λ b. b.now) value.entry.value)) }
    ensures err { IfErr result (IsNoValue (ReadsKind kind value.entry.format (option_map (λ b. b.now) value.entry.value))) }
{
    match value.value {
        Some(_) => decode_as(alloc, kind, value),
        None => Ok(AnyValue::Null),
    }
}

impl Decode for AnyValue {
    ghost reads = { ReadsAny };

    fn decode(alloc: Global, value: PgValueRef<'_>) -> Result<Self, Error> {
        match kind_of(value.type_info) {
            Some(kind) => decode_any(alloc, kind, value),
            None => Err(Error::Decode),
        }
    }
}
