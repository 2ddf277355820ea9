//! Types of PostgreSQL, and the arguments of a call in their binary encoding.
//!
//! A caller adds values to `PgArguments`, whose contract is that it holds their binary encodings in order. A user's own type becomes
//! an argument by `Encode` and `Typed`. Values that come back are read by the crate `pg_values`, which also passes on all names of
//! this one. Read `PgTypeInfo` and `PgArguments` first.
#![tactic(auto)]

mod argument_buffer;
mod arguments;
mod array;
mod bind_iter;
mod builtin;
mod encode;
mod given;
mod hole;
mod type_info;
mod value;

pub use argument_buffer::PgArgumentBuffer;
pub use arguments::PgArguments;
pub use bind_iter::{PgBindIter, PgBindIterExt};
pub use encode::{Encode, IsNull, PgHasArrayType, Typed};
pub use hole::Hole;
pub use type_info::{PgArrayOf, PgCustomType, PgType, PgTypeInfo, PgTypeKind};
