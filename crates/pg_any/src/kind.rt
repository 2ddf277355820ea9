ghost use Rattle.std.specs.Prelude.{◌≡◌, None, Some, IfOk, IfErr};
ghost use Rattle.pg_wire.specs.declared.error.Error.TheVariants.{AnyDriverError};
ghost use Rattle.pg_arguments.specs.Types.{oid_of};
ghost use Rattle.pg_any.specs.Kinds.{kind_of, kind_under};

use pg_values::PgTypeInfo;
use pg_wire::{Error, Oid};

/// The kinds of values that drivers of several databases have in common.
#[derive(Clone, Copy, Debug, PartialEq, Eq)]
pub enum AnyKind {
    /// Nothing but nulls.
    Null,
    Bool,
    /// 16 bits.
    SmallInt,
    /// 32 bits.
    Integer,
    /// 64 bits.
    BigInt,
    /// Bytes.
    Blob,
    Text,
}

// The kind of the type that every PostgreSQL has under an OID.
fn kind_under(oid: Oid) -> Option<AnyKind>
    ensures { result ≡ kind_under oid }
{
    match oid.0 {
        16 => Some(AnyKind::Bool),
        17 => Some(AnyKind::Blob),
        20 => Some(AnyKind::BigInt),
        21 => Some(AnyKind::SmallInt),
        23 => Some(AnyKind::Integer),
        25 | 1043 => Some(AnyKind::Text),
        2278 => Some(AnyKind::Null),
        _ => None,
    }
}

// The kind of a type, if it has one.
pub(crate) fn kind_of(of: &PgTypeInfo) -> Option<AnyKind>
    ensures { result ≡ kind_of of.now }
{
    match of.oid() {
        Some(oid) => kind_under(oid),
        None if of.name() == "citext" => Some(AnyKind::Text),
        None => None,
    }
}

/// The kind of a type: BOOL, INT2, INT4, INT8, BYTEA, TEXT, VARCHAR and VOID have one, and so has a type that is declared by the name
/// `citext`. Any other type is `AnyDriverError` with its OID, where that is known.
pub fn any_kind(of: &PgTypeInfo) -> Result<AnyKind, Error>
    ensures ok { IfOk result (λ kind. kind_of of.now ≡ Some kind) }
    ensures err { IfErr result (λ e. (kind_of of.now ≡ None) × (e ≡ AnyDriverError (oid_of of.now))) }
{
    match kind_of(of) {
        Some(kind) => Ok(kind),
        None => Err(Error::AnyDriverError { oid: of.oid() }),
    }
}
