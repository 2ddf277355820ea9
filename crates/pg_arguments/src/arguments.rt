ghost use Rattle.std.specs.Prelude.{◌≡◌, ◌<◌, ◌+◌, ◌∷◌, ◌++◌, ◌↔◌, [], List, Option, None, Some, length, OnOk, OnErr, IfOk, IfErr, IsTrue, flat_map, codes, unwrap_or};
ghost use Rattle.std.specs.List.{AllByRecursion};
ghost use Rattle.pg_wire.specs.Bytes.{number32};
ghost use Rattle.pg_wire.specs.Frontend.{FitsValue};
ghost use Rattle.pg_wire.specs.declared.error.Error.TheVariants as errors;
ghost use Rattle.pg_arguments.specs.Types.{TypeParts};
ghost use Rattle.pg_arguments.specs.Builtin.{type_under};
ghost use Rattle.pg_arguments.specs.Encoding.{Image, value_of, AddsValue, RefusesArgument};
ghost use Rattle.pg_arguments.specs.Encoded.{Encoded, AreInside, plain, open_oid, joined, patched};
ghost use Rattle.pg_arguments.specs.Arguments.{HasValues, AddsArgument, AddsToValues, AsIfKnown};

use crate::argument_buffer::PgArgumentBuffer;
use crate::encode::{Encode, Typed};
use crate::given::{Bytes, NoValue, OidOf};
use crate::hole::Hole;
use crate::type_info::PgTypeInfo;
use pg_wire::{Error, Oid};
use std::alloc::{AllocError, Global};
use std::marker::Model;

/// The arguments of a call, in order: their types, and their values in binary encoding.
#[derive(Debug)]
pub struct PgArguments {
    types: Vec<PgTypeInfo>,
    buffer: PgArgumentBuffer,
}

// By hand, so that whoever lets one go makes one call, and doesn't go through its parts.
impl Drop for PgArguments {
    fn drop(self) {
        let PgArguments {
            types: _,
            buffer: _,
        } = self;
    }
}

impl Model for PgArguments {
    ghost use Rattle.std.specs.Prelude.{List, Option};
    ghost use Rattle.pg_arguments.specs.Encoded.{Encoded};
    ghost use Rattle.pg_arguments.specs.Arguments.{Arguments, AreMadeOf};

    ghost Value = { Arguments };

    ghost view = { λ a. record { types = a.types.items; encoded = a.buffer } };

    ghost invariant = { λ a. ∥ ((values : List (Option Encoded)) × AreMadeOf a.types.items a.buffer values) ∥₁ };
}

// Equal types.
fn copied_types(alloc: Global, types: &[PgTypeInfo]) -> Result<Vec<PgTypeInfo>, AllocError>
    ensures { IfOk result (λ copies. copies.items ≡ types.now) }
{
    let mut copies = Vec::new(alloc);
    for of in types {
        copies.push(of.to_copy(alloc)?)?;
    }
    Ok(copies)
}

// Adds a value and its type, or nothing, to as many values as there are types.
fn append<T: Encode>(
    types: &mut Vec<PgTypeInfo>,
    buffer: &mut PgArgumentBuffer,
    value: T,
    of: PgTypeInfo,
) -> Result<(), Error>
    requires { buffer.old.values ≡ length types.old.items }
    ensures types { OnOk result (types.new.items ≡ types.old.items ++ of ∷ []) }
    ensures value { OnOk result (AddsValue (value_of (T.encoding value)) buffer.old buffer.new) }
    ensures same_types { OnErr result (types.new.items ≡ types.old.items) }
    ensures same_values { OnErr result (buffer.new ≡ buffer.old) }
    ensures cause { IfErr result (RefusesArgument (length types.old.items) (value_of (T.encoding value))) }
{
    let bytes = buffer.len();
    let holes = buffer.holes().len();
    let values = buffer.values();
    buffer.add(value)?;
    if types.push(of).is_err() {
        buffer.cut_back(bytes, holes, values);
        return Err(Error::OutOfMemory);
    }
    Ok(())
}

impl PgArguments {
    /// No arguments, which takes no memory.
    pub fn new(alloc: Global) -> Self
        ensures types { result.types ≡ [] }
        ensures encoded { result.encoded ≡ plain [] }
    {
        PgArguments {
            types: Vec::new(alloc),
            buffer: PgArgumentBuffer::new(alloc),
        }
    }

    /// Equal arguments. Only want of memory refuses them.
    pub fn to_copy(&self, alloc: Global) -> Result<Self, Error>
        ensures copy { IfOk result (λ a. a ≡ self.now) }
        ensures memory { IfErr result (λ e. e ≡ errors.OutOfMemory) }
    {
        let types = copied_types(alloc, &self.types)?;
        let buffer = self.buffer.to_copy(alloc)?;
        Ok(PgArguments { types, buffer })
    }

    /// The number of arguments.
    pub fn len(&self) -> usize
        ensures { result ≡ length self.now.types }
    {
        self.types.len()
    }

    pub fn is_empty(&self) -> bool
        ensures { IsTrue result ↔ (length self.now.types ≡ 0) }
    {
        self.types.is_empty()
    }

    /// The types of the arguments.
    pub fn types(&self) -> &[PgTypeInfo]
        ensures { result.now ≡ self.now.types }
    {
        &self.types
    }

    /// The arguments as they stand in Bind: one value a type, each behind its length, -1 for a null. Where an OID is open, four zero
    /// bytes stand.
    pub fn encoded(&self) -> &[u8]
        ensures bytes { result.now ≡ self.now.encoded.bytes }
        ensures values { ∥ ((values : List (Option Encoded)) × HasValues self.now values) ∥₁ }
    {
        self.buffer.as_bytes()
    }

    /// The types whose OIDs are open, in the order of their places, which are within the encoded arguments.
    pub fn holes(&self) -> &[Hole]
        ensures holes { result.now ≡ self.now.encoded.holes }
        ensures inside { AreInside self.now.encoded }
    {
        self.buffer.holes()
    }

    // Adds an argument, or nothing.
    fn add_value<T: Encode>(&mut self, value: T, of: PgTypeInfo) -> Result<(), Error>
        ensures ok { OnOk result (AddsArgument of (value_of (T.encoding value)) self.old self.new) }
        ensures values { OnOk result (AddsToValues (value_of (T.encoding value)) self.old self.new) }
        ensures err { OnErr result (self.new ≡ self.old) }
        ensures cause { IfErr result (RefusesArgument (length self.old.types) (value_of (T.encoding value))) }
    {
        append(&mut self.types, &mut self.buffer, value, of)
    }

    /// Adds an argument, or nothing. A refusal of the value itself has the argument's place, counted from 0, as its index.
    pub fn add<T: Encode + Typed>(&mut self, value: T) -> Result<(), Error>
        ensures ok { OnOk result (AddsArgument T.described (value_of (T.encoding value)) self.old self.new) }
        ensures values { OnOk result (AddsToValues (value_of (T.encoding value)) self.old self.new) }
        ensures err { OnErr result (self.new ≡ self.old) }
        ensures cause { IfErr result (RefusesArgument (length self.old.types) (value_of (T.encoding value))) }
    {
        let of = T::type_info(*self.types.allocator())?;
        self.add_value(value, of)
    }

    /// Adds a null of this type, or nothing.
    pub fn add_null(&mut self, of: PgTypeInfo) -> Result<(), Error>
        ensures ok { OnOk result (AddsArgument of (Some None) self.old self.new) }
        ensures values { OnOk result (AddsToValues (Some None) self.old self.new) }
        ensures err { OnErr result (self.new ≡ self.old) }
        ensures cause { IfErr result (λ e. e ≡ errors.OutOfMemory) }
    {
        self.add_value(NoValue, of)
    }

    /// Adds an argument of this type by the bytes of its encoding, or nothing. The refusal of more than 2147483647 bytes has the argument's
    /// place, counted from 0, as its index.
    pub fn add_image(&mut self, of: PgTypeInfo, image: &[u8]) -> Result<(), Error>
        ensures ok { OnOk result (AddsArgument of (value_of (Image (plain image.now))) self.old self.new) }
        ensures values { OnOk result (AddsToValues (value_of (Image (plain image.now))) self.old self.new) }
        ensures err { OnErr result (self.new ≡ self.old) }
        ensures cause { IfErr result (RefusesArgument (length self.old.types) (value_of (Image (plain image.now)))) }
    {
        self.add_value(Bytes(image), of)
    }

    /// Adds an argument of the type `oid`, the OID of a type that is known by its name alone, or nothing.
    pub fn push_hole(&mut self, of: PgTypeInfo) -> Result<(), Error>
        ensures ok { OnOk result (AddsArgument (type_under 26) (Some (Some (open_oid of))) self.old self.new) }
        ensures values { OnOk result (AddsToValues (Some (Some (open_oid of))) self.old self.new) }
        ensures err { OnErr result (self.new ≡ self.old) }
        ensures cause { IfErr result (λ e. e ≡ errors.OutOfMemory) }
    {
        let oid = PgTypeInfo::under_oid(*self.types.allocator(), Oid(26))?;
        self.add_value(OidOf(of), oid)
    }

    /// Writes the OID in the place of the open OID of this number, which is open no more: those behind it move up by one.
    pub fn patch(&mut self, hole: usize, oid: Oid)
        requires { hole < length self.old.encoded.holes }
        ensures types { self.new.types ≡ self.old.types }
        ensures encoded { self.new.encoded ≡ patched hole oid self.old.encoded }
        ensures as_if_known { AsIfKnown hole oid self.old self.new }
    {
        self.buffer.patch(hole, oid);
    }
}
