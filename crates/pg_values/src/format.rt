ghost use Rattle.std.specs.Prelude.{◌≡◌};

use pg_arguments::PgTypeInfo;
use pg_wire::Blob;

/// How a value is written (PostgreSQL manual, "Formats and Format Codes").
#[derive(Clone, Copy, Debug, PartialEq, Eq)]
pub enum PgValueFormat {
    Text,
    Binary,
}

/// A value that is lent by a row or an array; None is a null.
#[derive(Clone, Copy)]
pub struct PgValueRef<'r> {
    pub value: Option<&'r [u8]>,
    pub type_info: &'r PgTypeInfo,
    pub format: PgValueFormat,
}

/// A value that is kept; None is a null.
#[derive(Debug, Drop)]
pub struct PgValue {
    pub value: Option<Blob>,
    pub type_info: PgTypeInfo,
    pub format: PgValueFormat,
}
