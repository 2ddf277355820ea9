//! Types that are known by their names alone are asked for, and their OIDs found.
ghost use Rattle.std.specs.Prelude.{◌≡◌, ◌++◌, ◌∷◌, [], Some, IfOk, OnOk};
ghost use Rattle.pg_request.specs.Asked.{RefusesType};
ghost use Rattle.pg_request.specs.declared.naming.Declared.TheVariants as declared;
ghost use Rattle.pg_resolve.specs.Resolving.{no_rows};
ghost use Rattle.pg_learning.specs.Naming.{array_name, by_name, entries_of, name_of, oid_under, unnumbered, unnumbered_one};

use crate::pushing::push_wanted;
use pg_request::Declared;
use pg_resolve::{Resolver, TypeCache, Wanted};
use pg_wire::{Error, Oid, Text};
use std::alloc::{AllocError, Global};

// The name of the arrays over a type.
fn array_name(alloc: Global, element: &str) -> Result<Text, AllocError>
    ensures { IfOk result (λ t. t ≡ array_name element.now) }
{
    let mut name = String::from_str(alloc, element)?;
    name.push_str("[]")?;
    Ok(Text::from_string(name))
}

// The OID of the arrays over a type.
fn array_oid(alloc: Global, types: &TypeCache, element: &str) -> Result<Option<Oid>, AllocError>
    ensures { IfOk result (λ oid. oid ≡ oid_under types.now (declared.ArrayOf element.now)) }
{
    let name = array_name(alloc, element)?;
    if let Some(oid) = types.by_name(name.as_str()) {
        return Ok(Some(oid));
    }
    match types.by_name(element) {
        Some(of) => Ok(types.array_of(of)),
        None => Ok(None),
    }
}

/// The OID of a type.
pub(crate) fn oid_under(
    alloc: Global,
    types: &TypeCache,
    of: &Declared,
) -> Result<Option<Oid>, AllocError>
    ensures { IfOk result (λ oid. oid ≡ oid_under types.now of.now) }
{
    match of {
        Declared::Number(oid) => Ok(Some(*oid)),
        Declared::Name(name) => Ok(types.by_name(name.as_str())),
        Declared::ArrayOf(element) => array_oid(alloc, types, element.as_str()),
    }
}

// Asks for the type of a name.
fn push_name(alloc: Global, resolver: &mut Resolver, name: &str) -> Result<(), AllocError>
    ensures { OnOk result (resolver.new ≡ record resolver.old { pushed = resolver.old.pushed ++ by_name name.now ∷ [] }) }
{
    let wanted = Wanted::Name(Text::from_str(alloc, name)?);
    push_wanted(alloc, resolver, Some(name), wanted)
}

// Asks for a type.
fn push_entries(alloc: Global, resolver: &mut Resolver, of: &Declared) -> Result<(), AllocError>
    ensures { OnOk result (resolver.new ≡ record resolver.old { pushed = resolver.old.pushed ++ entries_of of.now }) }
{
    match of {
        Declared::Number(_) => Ok(()),
        Declared::Name(name) => push_name(alloc, resolver, name.as_str()),
        Declared::ArrayOf(element) => {
            let wanted = Wanted::Element(element.to_copy(alloc)?);
            push_wanted(alloc, resolver, Some(element.as_str()), wanted)?;
            let name = array_name(alloc, element.as_str())?;
            push_name(alloc, resolver, name.as_str())
        }
    }
}

// The same where its OID isn't known.
fn push_one(
    alloc: Global,
    types: &TypeCache,
    resolver: &mut Resolver,
    of: &Declared,
) -> Result<(), AllocError>
    ensures { OnOk result (resolver.new ≡ record resolver.old { pushed = resolver.old.pushed ++ unnumbered_one types.now of.now }) }
{
    match oid_under(alloc, types, of)? {
        Some(_) => Ok(()),
        None => push_entries(alloc, resolver, of),
    }
}

/// Those of these types whose OIDs aren't known are asked for.
pub(crate) fn ask_unnumbered(
    alloc: Global,
    types: &TypeCache,
    names: &[Declared],
) -> Result<Resolver, AllocError>
    ensures { IfOk result (λ r. r ≡ record no_rows { pushed = unnumbered types.now names.now }) }
{
    let mut resolver = Resolver::new(alloc);
    for of in names {
        push_one(alloc, types, &mut resolver, of)?;
    }
    Ok(resolver)
}

// The name by which a type is refused that wasn't found.
fn name_of(alloc: Global, of: &Declared) -> Result<Text, AllocError>
    ensures { IfOk result (λ t. t ≡ name_of of.now) }
{
    match of {
        Declared::Number(_) => Ok(Text::new(alloc)),
        Declared::Name(name) => name.to_copy(alloc),
        Declared::ArrayOf(element) => array_name(alloc, element.as_str()),
    }
}

/// The refusal of a type that wasn't found.
pub(crate) fn not_found(alloc: Global, of: &Declared) -> Error
    ensures { RefusesType (Some (name_of of.now)) result }
{
    match name_of(alloc, of) {
        Ok(type_name) => Error::TypeNotFound { type_name },
        Err(_) => Error::OutOfMemory,
    }
}
