ghost use Rattle.std.specs.Prelude.{◌≡◌, IfOk, IfErr, OnErr};
ghost use Rattle.pg_wire.specs.declared.error.Error.TheVariants as errors;
ghost use Rattle.pg_arguments.specs.Types.{TypeParts};
ghost use Rattle.pg_arguments.specs.Encoded.{plain};
ghost use Rattle.pg_arguments.specs.Encoding.{Encoding, Image, Appends, Extends, RefusesEncoding};

use crate::argument_buffer::PgArgumentBuffer;
use crate::type_info::PgTypeInfo;
use pg_wire::Error;
use std::alloc::Global;

/// Whether a value is a null.
#[derive(Clone, Copy, Debug, PartialEq, Eq)]
pub enum IsNull {
    Yes,
    No,
}

/// A value that can be an argument.
pub trait Encode: Sized + Drop {
    /// The binary encoding of a value, that it is a null, or that it has none.
    ghost encoding: { Self → Encoding };

    /// Adds the encoding without its length, by `push_bytes` of the buffer and the calls that stand on it. A null adds nothing. The only
    /// refusals are `Error::Encode`, whose index `add` sets, and want of memory: what was added then is taken back by `add`.
    fn encode(self, out: &mut PgArgumentBuffer) -> Result<IsNull, Error>
        ensures encoding { IfOk result (λ n. Appends (encoding self) n out.old out.new) }
        ensures kept { OnErr result (Extends out.old out.new) }
        ensures cause { IfErr result (RefusesEncoding (encoding self)) };
}

/// A Rust type that has a type of PostgreSQL.
pub trait Typed {
    ghost described: { TypeParts };

    fn type_info(alloc: Global) -> Result<PgTypeInfo, Error>
        ensures of { IfOk result (λ t. t ≡ described) }
        ensures cause { IfErr result (λ e. e ≡ errors.OutOfMemory) };
}

/// A Rust type whose values may be the elements of an array.
pub trait PgHasArrayType {
    ghost array_described: { TypeParts };

    fn array_type_info(alloc: Global) -> Result<PgTypeInfo, Error>
        ensures of { IfOk result (λ t. t ≡ array_described) }
        ensures cause { IfErr result (λ e. e ≡ errors.OutOfMemory) };
}
