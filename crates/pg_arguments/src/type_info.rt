ghost use Rattle.std.specs.Prelude.{◌≡◌, ◌<◌, ◌≤◌, ◌++◌, None, codes, IfOk};
ghost use Rattle.pg_arguments.specs.Types.{oid_of, name_of, levels_of, most_levels, named_type, numbered_type, array_of_named};
ghost use Rattle.pg_arguments.specs.Kinds.{of_kind, made_of, part_kind, custom, attribute_types};

use pg_wire::{Oid, Sequence, Text};
use std::alloc::{AllocError, Global};
use std::marker::Model;

/// A type of PostgreSQL: one of its built-in types, one that the database's catalog describes, or one that is only declared,
/// by its name or its OID. (PostgreSQL manual, "pg_type".)
#[derive(Debug)]
#[cycle(types)]
pub struct PgTypeInfo {
    of: Box<PgType>,
}

// By hand, so that whoever lets one go makes one call, and doesn't go through its parts.
impl Drop for PgTypeInfo {
    #[cycle(types)]
    fn drop(self) {
        let PgTypeInfo { of: _ } = self;
    }
}

/// What a `PgTypeInfo` holds. It is seen through `oid`, `name` and `kind` alone.
#[derive(Debug, Drop)]
#[cycle(types)]
pub struct PgType {
    oid: Option<Oid>,
    name: Text,
    levels: u8,
    kind: PgTypeKind,
}

/// What a type is, and the types that it is made of.
#[derive(Debug, Drop)]
#[cycle(types)]
pub enum PgTypeKind {
    /// A type that is made of no others.
    Simple,
    /// A type that has no values.
    Pseudo,
    /// A type with checks over a base type.
    Domain(PgTypeInfo),
    /// The names and the types of attributes, in their order.
    Composite(Vec<(Text, PgTypeInfo)>),
    /// Arrays of elements of this type.
    Array(PgTypeInfo),
    /// The labels of an enumeration, in their order.
    Enum(Sequence<Text>),
    /// Ranges between two values of this type.
    Range(PgTypeInfo),
}

impl Model for PgTypeInfo {
    ghost use Rattle.std.specs.Prelude.{List, ◌≤◌, length};
    ghost use Rattle.pg_arguments.specs.Types as types;
    ghost use Rattle.pg_arguments.specs.Types.{most_levels};

    ghost Value = { List types.TypePart };

    ghost use Rattle.pg_arguments.specs.Kinds.{of_kind, made_of};

    ghost view = { λ t. of_kind t.of.value.oid t.of.value.name t.of.value.levels t.of.value.kind };

    ghost invariant = { λ t. (most_levels (made_of t.of.value.kind) ≤ t.of.value.levels) × (t.of.value.levels ≤ 64) };

    ghost size = { length };

    ghost use Rattle.pg_arguments.specs.TypeFalls.{kind_falls};
    ghost use Rattle.std.proofs.Common.{arith};

    ghost size_decreases = { λ t h. Prim.omega (arith, kind_falls t.of.value.kind) };
}

/// A type as the database's catalog describes it.
#[derive(Debug, Drop)]
pub struct PgCustomType {
    pub oid: Oid,
    pub name: Text,
    pub kind: PgTypeKind,
}

/// Arrays over the type that has this name in the database.
#[derive(Debug, Drop)]
pub struct PgArrayOf {
    pub element: Text,
}

// A type of these parts.
pub(crate) fn made(
    alloc: Global,
    oid: Option<Oid>,
    name: Text,
    levels: u8,
    kind: PgTypeKind,
) -> Result<PgTypeInfo, AllocError>
    requires { (most_levels (made_of kind) ≤ levels) × (levels ≤ 64) }
    ensures { IfOk result (λ t. t ≡ of_kind oid name levels kind) }
{
    let of = PgType {
        oid,
        name,
        levels,
        kind,
    };
    let of = Box::new(alloc, of)?;
    Ok(PgTypeInfo { of })
}

// The name of the arrays over a type.
pub(crate) fn array_name(alloc: Global, element: &str) -> Result<Text, AllocError>
    ensures { IfOk result (λ t. t ≡ element.now ++ codes "[]") }
{
    let mut name = String::from_str(alloc, element)?;
    name.push_str("[]")?;
    Ok(Text::from_string(name))
}

impl PgTypeInfo {
    /// The type that has this name in the database. Its OID has to be looked up.
    pub fn with_name(alloc: Global, name: &str) -> Result<Self, AllocError>
        ensures { IfOk result (λ t. t ≡ named_type name.now) }
    {
        let name = Text::from_str(alloc, name)?;
        made(alloc, None, name, 0, PgTypeKind::Simple)
    }

    /// The type that has this OID in the database, of which nothing more is told. Its name is `?`.
    pub fn with_oid(alloc: Global, oid: Oid) -> Result<Self, AllocError>
        ensures { IfOk result (λ t. t ≡ numbered_type oid) }
    {
        let name = Text::from_str(alloc, "?")?;
        made(alloc, Some(oid), name, 0, PgTypeKind::Simple)
    }

    /// The arrays over the type that has this name in the database. Their OID has to be looked up.
    pub fn array_of(alloc: Global, element: &str) -> Result<Self, AllocError>
        ensures { IfOk result (λ t. t ≡ array_of_named element.now) }
    {
        let element = Text::from_str(alloc, element)?;
        PgTypeInfo::declared(alloc, PgArrayOf { element })
    }

    /// A type as a caller declares it: its OID has to be looked up.
    pub fn declared(alloc: Global, of: PgArrayOf) -> Result<Self, AllocError>
        ensures { IfOk result (λ t. t ≡ array_of_named of.element) }
    {
        let PgArrayOf { element } = of;
        let name = array_name(alloc, element.as_str())?;
        let element = made(alloc, None, element, 0, PgTypeKind::Simple)?;
        made(alloc, None, name, 0, PgTypeKind::Array(element))
    }

    /// A type of the database's own. At most 64 custom types stand in each other in a type.
    pub fn custom(alloc: Global, of: PgCustomType) -> Result<Self, AllocError>
        requires { most_levels (made_of of.kind) < 64 }
        ensures { IfOk result (λ t. t ≡ custom of.oid of.name of.kind) }
    {
        let PgCustomType { oid, name, kind } = of;
        let levels = kind.levels();
        made(alloc, Some(oid), name, levels + 1, kind)
    }

    /// An equal type.
    #[cycle(copies)]
    pub fn to_copy(&self, alloc: Global) -> Result<Self, AllocError>
        ensures { IfOk result (λ t. t ≡ self.now) }
    {
        let name = self.of.name.to_copy(alloc)?;
        let kind = self.of.kind.to_copy(alloc)?;
        made(alloc, self.of.oid, name, self.of.levels, kind)
    }

    /// The OID, where it is known.
    pub fn oid(&self) -> Option<Oid>
        ensures { result ≡ oid_of self.now }
    {
        self.of.oid
    }

    pub fn name(&self) -> &str
        ensures { result.now ≡ name_of self.now }
    {
        self.of.name.as_str()
    }

    /// How many custom types stand in each other in this type, itself among them.
    pub fn levels(&self) -> u8
        ensures value { result ≡ levels_of self.now }
        ensures most { result ≡ most_levels self.now }
        ensures bound { result ≤ 64 }
    {
        self.of.levels
    }

    /// What the type is made of.
    pub fn kind(&self) -> &PgTypeKind
        ensures { self.now ≡ of_kind (oid_of self.now) (name_of self.now) (levels_of self.now) result.now }
    {
        &self.of.kind
    }
}

// The most custom types that stand in each other in one of these.
fn attribute_levels(attributes: &[(Text, PgTypeInfo)]) -> u8
    ensures value { result ≡ most_levels (attribute_types attributes.now) }
    ensures bound { result ≤ 64 }
{
    let mut most = 0;
    for attribute in attributes {
        most = attribute.1.levels().max(most);
    }
    most
}

// Equal attributes.
#[cycle(copies)]
fn copied_attributes(
    alloc: Global,
    attributes: &[(Text, PgTypeInfo)],
) -> Result<Vec<(Text, PgTypeInfo)>, AllocError>
    ensures { IfOk result (λ v. v.items ≡ attributes.now) }
{
    let mut copies = Vec::new(alloc);
    for attribute in attributes {
        let name = attribute.0.to_copy(alloc)?;
        let of = attribute.1.to_copy(alloc)?;
        copies.push((name, of))?;
    }
    Ok(copies)
}

// Equal labels.
fn copied_labels(alloc: Global, labels: &[Text]) -> Result<Sequence<Text>, AllocError>
    ensures { IfOk result (λ v. v ≡ labels.now) }
{
    let mut copies = Sequence::new(alloc);
    for label in labels {
        copies.push(label.to_copy(alloc)?)?;
    }
    Ok(copies)
}

impl PgTypeKind {
    // An equal kind, made of equal types.
    #[cycle(copies)]
    fn to_copy(&self, alloc: Global) -> Result<Self, AllocError>
        ensures { IfOk result (λ k. (made_of k ≡ made_of self.now) × (part_kind k ≡ part_kind self.now)) }
    {
        match self {
            PgTypeKind::Simple => Ok(PgTypeKind::Simple),
            PgTypeKind::Pseudo => Ok(PgTypeKind::Pseudo),
            PgTypeKind::Domain(base) => Ok(PgTypeKind::Domain(base.to_copy(alloc)?)),
            PgTypeKind::Composite(attributes) => {
                Ok(PgTypeKind::Composite(copied_attributes(alloc, attributes)?))
            }
            PgTypeKind::Array(element) => Ok(PgTypeKind::Array(element.to_copy(alloc)?)),
            PgTypeKind::Enum(labels) => {
                Ok(PgTypeKind::Enum(copied_labels(alloc, labels.as_slice())?))
            }
            PgTypeKind::Range(bound) => Ok(PgTypeKind::Range(bound.to_copy(alloc)?)),
        }
    }

    /// How many custom types stand in each other in the types that it is made of.
    pub fn levels(&self) -> u8
        ensures value { result ≡ most_levels (made_of self.now) }
        ensures bound { result ≤ 64 }
    {
        match self {
            PgTypeKind::Simple => 0,
            PgTypeKind::Pseudo => 0,
            PgTypeKind::Domain(base) => base.levels(),
            PgTypeKind::Composite(attributes) => attribute_levels(attributes),
            PgTypeKind::Array(element) => element.levels(),
            PgTypeKind::Enum(_) => 0,
            PgTypeKind::Range(bound) => bound.levels(),
        }
    }
}
