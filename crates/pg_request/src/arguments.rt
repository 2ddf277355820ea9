ghost use Rattle.std.specs.Prelude.{◌≡◌, IfOk, IfErr, length, flat_map};
ghost use Rattle.pg_wire.specs.Bytes.{value};
ghost use Rattle.pg_request.specs.Queries.{AreValues, made_of};
ghost use Rattle.pg_request.specs.Asked.{oids_in, filled, names_in, patched_all, patched_first, sent_as, types_of_holes, no_arguments, numbered, where_open, HasBytesOf, declared_arguments};

use crate::naming::{
    Declared, all_declared, are_numbered, copy_declared, declared_names, numbers_in, types_of_holes,
};
use crate::unresolved::{Open, Unresolved};
use pg_arguments::{PgArguments, PgTypeInfo};
use pg_wire::{Blob, Error, Oid, Oids, Sequence, Text};
use std::alloc::Global;
use std::marker::Model;
use std::mem;

/// What arguments are made of.
#[derive(Debug, Drop)]
pub(crate) struct Parts {
    pub(crate) types: Oids,
    pub(crate) count: u64,
    pub(crate) encoded: Blob,
    pub(crate) unresolved: Unresolved,
}

/// The arguments of a query as the server gets them: the OIDs of their types, and their values in binary encoding.
#[derive(Debug)]
pub struct Arguments {
    // In a block of their own: each query has room for them, and many have none.
    parts: Box<Parts>,
}

// By hand, so that whoever lets one go makes one call, and doesn't go through its parts.
impl Drop for Arguments {
    fn drop(self) {
        let Arguments { parts: _ } = self;
    }
}

impl Model for Arguments {
    ghost use Rattle.pg_request.specs.Queries.{ArgumentsSeen, AreValues, made_of};

    ghost Value = { ArgumentsSeen };

    ghost view = { λ a. made_of a.parts.value.types a.parts.value.count a.parts.value.encoded a.parts.value.unresolved };

    ghost invariant = { λ a. AreValues a.parts.value.count a.parts.value.encoded };
}

// The OIDs of types, and 0 in the place of one that isn't known.
fn oids_in(alloc: Global, types: &[PgTypeInfo]) -> Result<Oids, Error>
    ensures oids { IfOk result (λ o. o ≡ oids_in types.now) }
    ensures memory { IfErr result (λ e. e ≡ Error.OutOfMemory) }
{
    let mut oids = Oids::new(alloc);
    for of in types {
        oids.push(of.oid().unwrap_or(Oid(0)))?;
    }
    Ok(oids)
}

// The types as they are declared, where one of them has no OID.
fn names_in(alloc: Global, types: &[PgTypeInfo]) -> Result<Sequence<Declared>, Error>
    ensures names { IfOk result (λ d. d ≡ names_in types.now) }
    ensures memory { IfErr result (λ e. e ≡ Error.OutOfMemory) }
{
    if are_numbered(types) {
        Ok(Sequence::new(alloc))
    } else {
        all_declared(alloc, types)
    }
}

// The arguments once more, where an OID is open within a value.
fn where_open(alloc: Global, arguments: &PgArguments) -> Result<Option<PgArguments>, Error>
    ensures ok { IfOk result (λ a. a ≡ where_open arguments.now) }
    ensures memory { IfErr result (λ e. e ≡ Error.OutOfMemory) }
{
    match arguments.holes() {
        [] => Ok(None),
        [_, ..] => Ok(Some(arguments.to_copy(alloc)?)),
    }
}

// Writes an OID in the place of the first that is open.
fn patch_first(arguments: &mut PgArguments, oid: Oid)
    ensures { arguments.new ≡ patched_first oid arguments.old.encoded.holes arguments.old }
{
    match arguments.holes() {
        [] => {}
        [_, ..] => arguments.patch(0, oid),
    }
}

// And so one after another.
fn patch_all(arguments: &mut PgArguments, oids: &[Oid])
    ensures { arguments.new ≡ patched_all oids.now arguments.old }
{
    for oid in oids {
        patch_first(arguments, *oid);
    }
}

impl Arguments {
    // These parts in a block. Only want of memory refuses it.
    fn of_parts(alloc: Global, parts: Parts) -> Result<Self, Error>
        requires { AreValues parts.count parts.encoded }
        ensures made { IfOk result (λ a. a ≡ made_of parts.types parts.count parts.encoded parts.unresolved) }
        ensures memory { IfErr result (λ e. e ≡ Error.OutOfMemory) }
    {
        Ok(Arguments {
            parts: Box::new(alloc, parts)?,
        })
    }

    /// No values, but the types of arguments as a caller declares them. Only want of memory refuses them.
    pub fn declared(alloc: Global, declared: &[Declared]) -> Result<Self, Error>
        ensures declared { IfOk result (λ a. a ≡ declared_arguments declared.now) }
        ensures memory { IfErr result (λ e. e ≡ Error.OutOfMemory) }
    {
        let types = numbers_in(alloc, declared)?;
        let names = copy_declared(alloc, declared_names(declared))?;
        let open = Open {
            names,
            holes: Sequence::new(alloc),
            given: None,
        };
        let unresolved = Unresolved::of(alloc, open)?;
        let parts = Parts {
            types,
            count: 0,
            encoded: Blob::new(alloc),
            unresolved,
        };
        Arguments::of_parts(alloc, parts)
    }

    /// No arguments. Only want of memory refuses them.
    pub(crate) fn none(alloc: Global) -> Result<Self, Error>
        ensures none { IfOk result (λ a. a ≡ no_arguments) }
        ensures memory { IfErr result (λ e. e ≡ Error.OutOfMemory) }
    {
        let parts = Parts {
            types: Oids::new(alloc),
            count: 0,
            encoded: Blob::new(alloc),
            unresolved: Unresolved::none(),
        };
        Arguments::of_parts(alloc, parts)
    }

    /// Equal arguments. Only want of memory refuses them.
    pub(crate) fn of(alloc: Global, arguments: &PgArguments) -> Result<Self, Error>
        ensures sent { IfOk result (λ a. a ≡ sent_as arguments.now) }
        ensures values { IfOk result (λ a. HasBytesOf arguments.now a) }
        ensures memory { IfErr result (λ e. e ≡ Error.OutOfMemory) }
    {
        let types = oids_in(alloc, arguments.types())?;
        let names = names_in(alloc, arguments.types())?;
        let holes = types_of_holes(alloc, arguments.holes())?;
        let given = where_open(alloc, arguments)?;
        let open = Open {
            names,
            holes,
            given,
        };
        let unresolved = Unresolved::of(alloc, open)?;
        let encoded = Blob::from_slice(alloc, arguments.encoded())?;
        let parts = Parts {
            types,
            count: arguments.len() as u64,
            encoded,
            unresolved,
        };
        Arguments::of_parts(alloc, parts)
    }

    /// The types whose OIDs are open within values, in the order of their places.
    pub fn holes(&self) -> &[Declared]
        ensures { result.now ≡ self.now.holes }
    {
        self.parts.unresolved.holes()
    }

    /// The same, once these are the open OIDs. Only want of memory refuses them.
    pub fn filled(self, alloc: Global, oids: &[Oid]) -> Result<Self, Error>
        ensures filled { IfOk result (λ a. a ≡ filled oids.now self) }
        ensures memory { IfErr result (λ e. e ≡ Error.OutOfMemory) }
    {
        let Arguments { parts } = self;
        let Parts {
            types,
            count,
            encoded,
            unresolved,
        } = Box::into_inner(parts);
        let Open {
            names,
            holes: _,
            given,
        } = unresolved.into_open(alloc);
        let left = Open {
            names,
            holes: Sequence::new(alloc),
            given: None,
        };
        let unresolved = Unresolved::of(alloc, left)?;
        let Some(mut arguments) = given else {
            let parts = Parts {
                types,
                count,
                encoded,
                unresolved,
            };
            return Arguments::of_parts(alloc, parts);
        };
        patch_all(&mut arguments, oids);
        let encoded = Blob::from_slice(alloc, arguments.encoded())?;
        let parts = Parts {
            types,
            count: arguments.len() as u64,
            encoded,
            unresolved,
        };
        Arguments::of_parts(alloc, parts)
    }

    /// The types as they were declared, where one of them is known by its name alone.
    pub fn names(&self) -> &[Declared]
        ensures { result.now ≡ self.now.names }
    {
        self.parts.unresolved.names()
    }

    /// The same, once the OID of each type is known.
    pub fn numbered(self, alloc: Global, types: Oids) -> Self
        ensures { result ≡ numbered types self }
    {
        let Arguments { mut parts } = self;
        parts.types = types;
        let unresolved = mem::replace(&mut parts.unresolved, Unresolved::none());
        parts.unresolved = unresolved.without_names(alloc);
        Arguments { parts }
    }

    /// The OIDs of the types, of which 0 is none.
    pub fn types(&self) -> &[Oid]
        ensures { result.now ≡ self.now.types }
    {
        self.parts.types.as_slice()
    }

    /// The number of values.
    pub fn count(&self) -> u64
        ensures { length self.now.values ≡ result }
    {
        self.parts.count
    }

    /// The values as they stand in Bind: the length of each in four bytes, -1 for a null, and its bytes. (PostgreSQL manual, "Message
    /// Formats", Bind.)
    pub fn encoded(&self) -> &[u8]
        ensures { flat_map value self.now.values ≡ result.now }
    {
        self.parts.encoded.as_bytes()
    }

    /// Equal arguments. Only want of memory refuses them.
    pub fn to_copy(&self, alloc: Global) -> Result<Self, Error>
        ensures copy { IfOk result (λ a. a ≡ self.now) }
        ensures memory { IfErr result (λ e. e ≡ Error.OutOfMemory) }
    {
        let types = self.parts.types.to_copy(alloc)?;
        let encoded = Blob::from_slice(alloc, self.encoded())?;
        let unresolved = self.parts.unresolved.to_copy(alloc)?;
        let parts = Parts {
            types,
            count: self.parts.count,
            encoded,
            unresolved,
        };
        Arguments::of_parts(alloc, parts)
    }
}
