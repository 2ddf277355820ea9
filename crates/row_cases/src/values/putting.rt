// Values that are added to arguments.

use crate::telling::{push, push_bytes, push_number, push_shown};
use crate::values::kinds::Tried;
use pg_values::{Encode, PgArgumentBuffer, PgArguments, Typed};
use pg_wire::Oid;
use std::alloc::Global;
use std::fmt::Write;

// The type of the last argument, by its OID and its name.
fn push_last_type(told: &mut String, arguments: &PgArguments) {
    match arguments.types() {
        [.., of] => {
            let oid = of.oid();
            let _ = write!(told, "{oid:?} ");
            push(told, of.name());
        }
        [] => push(told, "none"),
    }
}

/// The number of the arguments, the type of the last, the bytes, and how many OIDs are open.
pub fn tell(told: &mut String, alloc: Global, arguments: &PgArguments) {
    push_number(told, arguments.len() as u64);
    push(told, " ");
    push_last_type(told, arguments);
    push(told, " ");
    push_bytes(told, alloc, arguments.encoded());
    push(told, " ");
    push_number(told, arguments.holes().len() as u64);
}

fn add_first(told: &mut String, arguments: &mut PgArguments) {
    match arguments.add(true) {
        Ok(()) => push(told, "true "),
        Err(error) => {
            drop(error);
            push(told, "false ");
        }
    }
}

fn add<T: Encode + Typed>(told: &mut String, alloc: Global, is_second: bool, value: T) {
    let mut arguments = PgArguments::new(alloc);
    if is_second {
        add_first(told, &mut arguments);
    }
    push_shown(told, arguments.add(value));
    push(told, " ");
    tell(told, alloc, &arguments);
}

// The bytes of a buffer, and the first type whose OID is open.
fn tell_buffer(told: &mut String, alloc: Global, buffer: &PgArgumentBuffer) {
    push_number(told, buffer.len() as u64);
    push(told, ":");
    push_bytes(told, alloc, buffer.as_bytes());
    if let [hole, rest @ ..] = buffer.holes() {
        push(told, " ");
        push_number(told, hole.place as u64);
        push(told, " ");
        push(told, hole.of.name());
        push(told, " ");
        push_number(told, rest.len() as u64);
    }
}

// A buffer before and after the OID of its first open type is known.
fn tell_patched(told: &mut String, alloc: Global, buffer: &mut PgArgumentBuffer) {
    tell_buffer(told, alloc, buffer);
    if !buffer.holes().is_empty() {
        buffer.patch(0, Oid(16401));
        push(told, ", ");
        tell_buffer(told, alloc, buffer);
    }
}

fn add_to_buffer<T: Encode>(told: &mut String, alloc: Global, value: T) {
    let mut buffer = PgArgumentBuffer::new(alloc);
    push_shown(told, buffer.add(value));
    push(told, " ");
    tell_patched(told, alloc, &mut buffer);
}

/// A value as an argument.
pub fn put<T: Encode + Typed>(told: &mut String, alloc: Global, tried: Tried, value: T) {
    match tried {
        Tried::Buffer => add_to_buffer(told, alloc, value),
        Tried::Second => add(told, alloc, true, value),
        _ => add(told, alloc, false, value),
    }
}
