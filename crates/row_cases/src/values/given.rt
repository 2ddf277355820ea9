// Arguments of types that are known only at run time.

use crate::telling::{push, push_shown};
use crate::values::putting::tell;
use pg_values::{PgArguments, PgTypeInfo};
use pg_wire::{Error, Oid};
use std::alloc::Global;

// A null, a value by its bytes, and the OID of a type with this name.
fn add_by_type(alloc: Global, arguments: &mut PgArguments) -> Result<(), Error> {
    arguments.add_null(PgTypeInfo::with_name(alloc, "mood")?)?;
    arguments.add_image(PgTypeInfo::with_oid(alloc, Oid(600))?, b"point")?;
    arguments.push_hole(PgTypeInfo::array_of(alloc, "mood")?)
}

/// The arguments before and after the OID is known.
pub fn types_alone(told: &mut String, alloc: Global) {
    let mut arguments = PgArguments::new(alloc);
    push_shown(told, arguments.is_empty());
    push(told, " ");
    push_shown(told, add_by_type(alloc, &mut arguments));
    push(told, " ");
    tell(told, alloc, &arguments);
    if !arguments.holes().is_empty() {
        arguments.patch(0, Oid(16401));
    }
    push(told, ", ");
    tell(told, alloc, &arguments);
}
