//! Values of PostgreSQL: read from the binary and from the text format, and the types and arguments of `pg_arguments`.
//!
//! A caller reads a value by `Decode`, whose contract is that it answers exactly where the bytes are a value of the asked type. The text
//! forms of arrays and of records are read by `read_array` and `read_composite`. Read `Decode` first.
#![tactic(auto)]

mod array;
mod array_reading;
mod decode;
mod format;
mod style;
mod text_reading;
mod value;

pub use decode::Decode;
pub use format::{PgValue, PgValueFormat, PgValueRef};
pub use pg_arguments::{
    Encode, Hole, IsNull, PgArgumentBuffer, PgArguments, PgArrayOf, PgBindIter, PgBindIterExt,
    PgCustomType, PgHasArrayType, PgType, PgTypeInfo, PgTypeKind, Typed,
};
pub use text_reading::{read_array, read_composite};
