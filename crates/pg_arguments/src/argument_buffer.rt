ghost use Rattle.std.specs.Prelude.{◌≡◌, ◌+◌, ◌<◌, ◌≤◌, ◌^◌, ◌-◌, ◌↔◌, ◌++◌, [], None, Some, length, OnOk, OnErr, IfErr, IfOk, IsTrue};
ghost use Rattle.pg_wire.specs.Bytes.{number32};
ghost use Rattle.pg_wire.specs.declared.error.Error.TheVariants as errors;
ghost use Rattle.pg_arguments.specs.Types.{TypeParts};
ghost use Rattle.pg_arguments.specs.Encoding.{Image, value_of, Extends, AddsValue, RefusesValue, RefusesArgument};
ghost use Rattle.pg_arguments.specs.Encoded.{Encoded, plain, open_oid, joined, counted, patched, wire, overwritten, cut_off, AreInside};

use crate::encode::{Encode, IsNull};
use crate::given::{Bytes, NoValue};
use crate::hole::{Hole, copied_holes};
use crate::type_info::PgTypeInfo;
use pg_wire::{Error, Oid};
use std::alloc::{AllocError, Global};
use std::marker::Model;

/// The longest encoding of a value, so that its length is a positive signed number.
pub const IMAGE_MAX: u64 = 2147483647;

/// Encoded values, to which a value adds its own encoding.
#[derive(Debug)]
pub struct PgArgumentBuffer {
    bytes: Vec<u8>,
    holes: Vec<Hole>,
    values: usize,
}

// By hand, so that whoever lets one go makes one call, and doesn't go through its parts.
impl Drop for PgArgumentBuffer {
    fn drop(self) {
        let PgArgumentBuffer {
            bytes: _,
            holes: _,
            values: _,
        } = self;
    }
}

impl Model for PgArgumentBuffer {
    ghost use Rattle.std.specs.Prelude.{length, ◌≤◌};
    ghost use Rattle.pg_arguments.specs.Encoded.{Encoded, AreBetween};

    ghost Value = { Encoded };

    ghost view = { λ b. record { bytes = b.bytes.items; holes = b.holes.items; values = b.values } };

    ghost invariant = { λ b. AreBetween 0 (length b.bytes.items) b.holes.items × (b.values ≤ length b.bytes.items) };
}

// Writes four bytes over those at a place.
fn write_number(bytes: &mut Vec<u8>, place: usize, number: u32)
    requires { place + 4 ≤ length bytes.old.items }
    ensures { bytes.new.items ≡ overwritten place (number32 number) bytes.old.items }
{
    bytes[place..place + 4].copy_from_slice(&number.to_be_bytes());
}

impl PgArgumentBuffer {
    /// No bytes, which takes no memory.
    pub fn new(alloc: Global) -> Self
        ensures { result ≡ plain [] }
    {
        PgArgumentBuffer {
            bytes: Vec::new(alloc),
            holes: Vec::new(alloc),
            values: 0,
        }
    }

    // Equal bytes, with the same OIDs open.
    pub(crate) fn to_copy(&self, alloc: Global) -> Result<Self, AllocError>
        ensures { IfOk result (λ b. b ≡ self.now) }
    {
        let bytes = Vec::from_slice(alloc, &self.bytes)?;
        let holes = copied_holes(alloc, &self.holes)?;
        Ok(PgArgumentBuffer {
            bytes,
            holes,
            values: self.values,
        })
    }

    /// The number of bytes.
    pub fn len(&self) -> usize
        ensures { result ≡ length self.now.bytes }
    {
        self.bytes.len()
    }

    pub fn is_empty(&self) -> bool
        ensures { IsTrue result ↔ (length self.now.bytes ≡ 0) }
    {
        self.bytes.is_empty()
    }

    // The number of values that stand behind their lengths.
    pub(crate) fn values(&self) -> usize
        ensures value { result ≡ self.now.values }
        ensures bound { result ≤ length self.now.bytes }
    {
        self.values
    }

    pub(crate) fn allocator(&self) -> Global {
        *self.bytes.allocator()
    }

    pub fn as_bytes(&self) -> &[u8]
        ensures { result.now ≡ self.now.bytes }
    {
        &self.bytes
    }

    /// The types whose OIDs are open, in the order of their places, which are within the bytes.
    pub fn holes(&self) -> &[Hole]
        ensures holes { result.now ≡ self.now.holes }
        ensures inside { AreInside self.now }
    {
        &self.holes
    }

    /// Adds bytes of an encoding, all or none.
    pub fn push_bytes(&mut self, bytes: &[u8]) -> Result<(), Error>
        ensures ok { OnOk result (self.new ≡ joined self.old (plain bytes.now)) }
        ensures err { OnErr result (self.new ≡ self.old) }
        ensures cause { IfErr result (λ e. e ≡ errors.OutOfMemory) }
    {
        self.bytes.extend_from_slice(bytes)?;
        Ok(())
    }

    // Keeps only so many bytes, and the open OIDs in front of their end, which are so many values.
    pub(crate) fn cut_back(&mut self, bytes: usize, holes: usize, values: usize)
        requires inside { AreInside (cut_off bytes holes values self.old) }
        requires counted { values ≤ length (cut_off bytes holes values self.old).bytes }
        ensures { self.new ≡ cut_off bytes holes values self.old }
    {
        self.bytes.truncate(bytes);
        self.holes.truncate(holes);
        self.values = values;
    }

    // What is there is so many values.
    fn count(&mut self, values: usize)
        requires { values ≤ length self.old.bytes }
        ensures { self.new ≡ counted values self.old }
    {
        self.values = values;
    }

    /// Adds the four bytes that the OID of a type will take, or nothing.
    pub fn push_hole(&mut self, of: PgTypeInfo) -> Result<(), Error>
        ensures ok { OnOk result (self.new ≡ joined self.old (open_oid of)) }
        ensures err { OnErr result (self.new ≡ self.old) }
        ensures cause { IfErr result (λ e. e ≡ errors.OutOfMemory) }
    {
        let place = self.bytes.len();
        self.bytes.extend_from_slice(&[0; 4])?;
        let hole = Hole {
            place: place as u64,
            of,
        };
        match self.holes.push(hole) {
            Ok(()) => Ok(()),
            Err(_) => {
                self.bytes.truncate(place);
                Err(Error::OutOfMemory)
            }
        }
    }

    /// Writes the OID in the place of the open OID of this number, which is open no more: those behind it move up by one.
    pub fn patch(&mut self, hole: usize, oid: Oid)
        requires { hole < length self.old.holes }
        ensures value { self.new ≡ patched hole oid self.old }
        ensures as_if_known { (front back : Encoded) (of : TypeParts) → self.old ≡ joined (joined front (open_oid of)) back → length front.holes ≡ hole → self.new ≡ joined (joined front (plain (number32 oid))) back }
    {
        let Hole { place, of: _ } = self.holes.remove(hole);
        write_number(&mut self.bytes, place as usize, oid.0);
    }

    // Writes a number over four bytes.
    pub(crate) fn rewrite(&mut self, place: usize, number: u32)
        requires { place + 4 ≤ length self.old.bytes }
        ensures bytes { self.new ≡ record { bytes = overwritten place (number32 number) self.old.bytes; holes = self.old.holes; values = self.old.values } }
        ensures inside { AreInside self.old }
    {
        write_number(&mut self.bytes, place, number);
    }

    // Adds a value behind its length, or some of it.
    fn add_some<T: Encode>(&mut self, value: T) -> Result<(), Error>
        ensures ok { OnOk result (AddsValue (value_of (T.encoding value)) self.old self.new) }
        ensures kept { OnErr result (Extends self.old self.new) }
        ensures cause { IfErr result (RefusesValue (value_of (T.encoding value))) }
    {
        let place = self.len();
        let values = self.values;
        self.push_bytes(&[255; 4])?;
        let start = self.len();
        match value.encode(self)? {
            IsNull::Yes => {
                self.count(values + 1);
                Ok(())
            }
            IsNull::No => {
                let length = self.len() - start;
                if length as u64 > IMAGE_MAX {
                    return Err(Error::Encode { index: 0 });
                }
                self.rewrite(place, length as u32);
                self.count(values + 1);
                Ok(())
            }
        }
    }

    // Adds a value behind its length, or nothing.
    fn add_whole<T: Encode>(&mut self, value: T) -> Result<(), Error>
        ensures ok { OnOk result (AddsValue (value_of (T.encoding value)) self.old self.new) }
        ensures err { OnErr result (self.new ≡ self.old) }
        ensures cause { IfErr result (RefusesValue (value_of (T.encoding value))) }
    {
        let bytes = self.bytes.len();
        let holes = self.holes.len();
        let values = self.values;
        let done = self.add_some(value);
        if done.is_err() {
            self.cut_back(bytes, holes, values);
        }
        done
    }

    /// Adds a value behind its length, or nothing; a null has the length -1. In the encoding of another value this is how an element is
    /// added. A refusal of the value itself has the number of the values in front of it as its index. (PostgreSQL manual, "Message
    /// Formats", Bind.)
    pub fn add<T: Encode>(&mut self, value: T) -> Result<(), Error>
        ensures ok { OnOk result (AddsValue (value_of (T.encoding value)) self.old self.new) }
        ensures err { OnErr result (self.new ≡ self.old) }
        ensures cause { IfErr result (RefusesArgument self.old.values (value_of (T.encoding value))) }
    {
        match self.add_whole(value) {
            Ok(()) => Ok(()),
            Err(Error::Encode { index: _ }) => Err(Error::Encode { index: self.values }),
            Err(error) => Err(error),
        }
    }

    /// Adds a null, or nothing.
    pub fn add_null(&mut self, _of: PgTypeInfo) -> Result<(), Error>
        ensures ok { OnOk result (AddsValue (Some None) self.old self.new) }
        ensures err { OnErr result (self.new ≡ self.old) }
        ensures cause { IfErr result (λ e. e ≡ errors.OutOfMemory) }
    {
        self.add(NoValue)
    }

    /// Adds a value of a type that is known only now, by the bytes of its encoding, or nothing.
    pub fn add_image(&mut self, of: PgTypeInfo, image: &[u8]) -> Result<(), Error>
        ensures ok { OnOk result (AddsValue (value_of (Image (plain image.now))) self.old self.new) }
        ensures err { OnErr result (self.new ≡ self.old) }
        ensures cause { IfErr result (RefusesArgument self.old.values (value_of (Image (plain image.now)))) }
    {
        let _ = of;
        self.add(Bytes(image))
    }
}
