//! Types as a caller declares them for arguments.
ghost use Rattle.std.specs.Prelude.{◌≡◌, ◌∷◌, map, IfOk, IfErr};
ghost use Rattle.pg_request.specs.Asked.{all_numbers, are_numbered, declared_as, declared_by_name, declared_names, number_of, numbers_in, types_of_holes};

use pg_arguments::{Hole, PgTypeInfo, PgTypeKind};
use pg_wire::{Error, Oid, Oids, Sequence, Text};
use std::alloc::Global;

/// The type of an argument: one that has an OID, or one that is known by its name alone. (PostgreSQL manual, "pg_type".)
#[derive(Debug, Drop)]
pub enum Declared {
    Number(Oid),
    Name(Text),
    /// Arrays over the type of this name.
    ArrayOf(Text),
}

impl Declared {
    // Its OID, where it has one.
    fn number(&self) -> Option<Oid>
        ensures { result ≡ number_of self.now }
    {
        match self {
            Declared::Number(oid) => Some(*oid),
            Declared::Name(_) | Declared::ArrayOf(_) => None,
        }
    }

    /// An equal value. Only want of memory refuses it.
    pub fn to_copy(&self, alloc: Global) -> Result<Self, Error>
        ensures copy { IfOk result (λ d. d ≡ self.now) }
        ensures memory { IfErr result (λ e. e ≡ Error.OutOfMemory) }
    {
        match self {
            Declared::Number(oid) => Ok(Declared::Number(*oid)),
            Declared::Name(name) => Ok(Declared::Name(name.to_copy(alloc)?)),
            Declared::ArrayOf(element) => Ok(Declared::ArrayOf(element.to_copy(alloc)?)),
        }
    }
}

// A type without an OID.
fn by_name(alloc: Global, of: &PgTypeInfo) -> Result<Declared, Error>
    ensures ok { IfOk result (λ d. d ≡ declared_by_name of.now) }
    ensures memory { IfErr result (λ e. e ≡ Error.OutOfMemory) }
{
    match of.kind() {
        PgTypeKind::Array(element) => {
            Ok(Declared::ArrayOf(Text::from_str(alloc, element.name())?))
        }
        _ => Ok(Declared::Name(Text::from_str(alloc, of.name())?)),
    }
}

// A type as it is declared.
fn as_declared(alloc: Global, of: &PgTypeInfo) -> Result<Declared, Error>
    ensures ok { IfOk result (λ d. d ≡ declared_as of.now) }
    ensures memory { IfErr result (λ e. e ≡ Error.OutOfMemory) }
{
    match of.oid() {
        Some(oid) => Ok(Declared::Number(oid)),
        None => by_name(alloc, of),
    }
}

/// Whether each of these types has an OID.
pub(crate) fn are_numbered(types: &[PgTypeInfo]) -> bool
    ensures { result ≡ are_numbered types.now }
{
    for of in types {
        if of.oid().is_none() {
            return false;
        }
    }
    true
}

/// These types as they are declared.
pub(crate) fn all_declared(alloc: Global, types: &[PgTypeInfo]) -> Result<Sequence<Declared>, Error>
    ensures ok { IfOk result (λ d. d ≡ map declared_as types.now) }
    ensures memory { IfErr result (λ e. e ≡ Error.OutOfMemory) }
{
    let mut all = Sequence::new(alloc);
    for of in types {
        all.push(as_declared(alloc, of)?)?;
    }
    Ok(all)
}

/// The types whose OIDs are open, as they are declared.
pub(crate) fn types_of_holes(alloc: Global, holes: &[Hole]) -> Result<Sequence<Declared>, Error>
    ensures ok { IfOk result (λ d. d ≡ types_of_holes holes.now) }
    ensures memory { IfErr result (λ e. e ≡ Error.OutOfMemory) }
{
    let mut all = Sequence::new(alloc);
    for hole in holes {
        all.push(as_declared(alloc, &hole.of)?)?;
    }
    Ok(all)
}

// Whether each of them has an OID.
fn all_numbers(declared: &[Declared]) -> bool
    ensures { result ≡ all_numbers declared.now }
{
    for of in declared {
        if of.number().is_none() {
            return false;
        }
    }
    true
}

/// The OIDs of types, and 0 in the place of one that isn't known.
pub(crate) fn numbers_in(alloc: Global, declared: &[Declared]) -> Result<Oids, Error>
    ensures oids { IfOk result (λ o. o ≡ numbers_in declared.now) }
    ensures memory { IfErr result (λ e. e ≡ Error.OutOfMemory) }
{
    let mut oids = Oids::new(alloc);
    for of in declared {
        oids.push(of.number().unwrap_or(Oid(0)))?;
    }
    Ok(oids)
}

/// These types as they are declared, where one of them is known by its name alone.
pub fn declared_names(declared: &[Declared]) -> &[Declared]
    ensures { result.now ≡ declared_names declared.now }
{
    if all_numbers(declared) { &[] } else { declared }
}

/// Equal ones. Only want of memory refuses them.
pub fn copy_declared(alloc: Global, names: &[Declared]) -> Result<Sequence<Declared>, Error>
    ensures ok { IfOk result (λ d. d ≡ names.now) }
    ensures memory { IfErr result (λ e. e ≡ Error.OutOfMemory) }
{
    let mut copies = Sequence::new(alloc);
    for name in names {
        copies.push(name.to_copy(alloc)?)?;
    }
    Ok(copies)
}
