ghost use Rattle.std.specs.Prelude.{List, ℕ, Option, option_map, IfOk, IfErr};
ghost use Rattle.pg_arguments.specs.Types.{TypeParts};
ghost use Rattle.pg_values.specs.Values.{IsNoValue};
ghost use Rattle.pg_values.specs.declared.format.PgValueFormat as declared_format;

use crate::format::PgValueRef;
use pg_wire::Error;
use std::alloc::Global;

/// A value that can be read. The type, the format and the bytes alone decide.
pub trait Decode: Sized + Drop {
    /// Which value of a type some bytes are in a format; None is a null. The types of this library look at the type only for that of an
    /// array's elements.
    ghost reads: { TypeParts → declared_format.PgValueFormat → Option (List ℕ) → Self → Type 0 };

    /// The value that the bytes are. `Error::Decode` comes exactly where they are none.
    fn decode(alloc: Global, value: PgValueRef<'_>) -> Result<Self, Error>
        ensures value { IfOk result (reads value.entry.type_info.now value.entry.format (option_map (λ b. b.now) value.entry.value)) }
        ensures cause { IfErr result (IsNoValue (reads value.entry.type_info.now value.entry.format (option_map (λ b. b.now) value.entry.value))) };
}
