ghost use Rattle.std.specs.Prelude.{◌≡◌, IfOk};

use crate::ColumnOrigin;
use pg_arguments::PgTypeInfo;
use pg_wire::{Field, Oid};
use std::alloc::{AllocError, Global};

/// A column of a result. (PostgreSQL manual, "Message Formats", RowDescription.)
#[derive(Debug)]
pub struct PgColumn {
    ordinal: usize,
    field: Field,
    type_info: PgTypeInfo,
    origin: ColumnOrigin,
}

// By hand, so that whoever lets one go makes one call, and doesn't go through its parts.
impl Drop for PgColumn {
    fn drop(self) {
        let PgColumn {
            ordinal: _,
            field: _,
            type_info: _,
            origin: _,
        } = self;
    }
}

pub(crate) fn copy_of(alloc: Global, field: &Field) -> Result<Field, AllocError>
    ensures { IfOk result (λ f. f ≡ field.now) }
{
    let name = field.name.to_copy(alloc)?;
    Ok(Field {
        name,
        relation_id: field.relation_id,
        relation_attribute_no: field.relation_attribute_no,
        type_id: field.type_id,
        size: field.size,
        modifier: field.modifier,
        format: field.format,
    })
}

impl PgColumn {
    /// The column at this place, from 0 on, with what the server told of it.
    pub fn new(ordinal: usize, field: Field, type_info: PgTypeInfo, origin: ColumnOrigin) -> Self
        ensures { result ≡ record { ordinal = ordinal; field = field; type_info = type_info; origin = origin } }
    {
        PgColumn {
            ordinal,
            field,
            type_info,
            origin,
        }
    }

    /// Its place in the rows, from 0 on.
    pub fn ordinal(&self) -> usize
        ensures { result ≡ self.now.ordinal }
    {
        self.ordinal
    }

    pub fn name(&self) -> &str
        ensures { result.now ≡ self.now.field.name }
    {
        self.field.name.as_str()
    }

    pub fn type_info(&self) -> &PgTypeInfo
        ensures { result.now ≡ self.now.type_info }
    {
        &self.type_info
    }

    /// The table, where it is a column of one.
    pub fn relation_id(&self) -> Option<Oid>
        ensures { result ≡ self.now.field.relation_id }
    {
        self.field.relation_id
    }

    /// Its number in its table.
    pub fn relation_attribute_no(&self) -> Option<i16>
        ensures { result ≡ self.now.field.relation_attribute_no }
    {
        self.field.relation_attribute_no
    }

    pub fn origin(&self) -> &ColumnOrigin
        ensures { result.now ≡ self.now.origin }
    {
        &self.origin
    }

    /// All that the server told of it.
    pub fn field(&self) -> &Field
        ensures { result.now ≡ self.now.field }
    {
        &self.field
    }

    /// The same column with this type and this origin. Only want of memory refuses it.
    pub fn learnt(
        &self,
        alloc: Global,
        type_info: PgTypeInfo,
        origin: ColumnOrigin,
    ) -> Result<Self, AllocError>
        ensures { IfOk result (λ c. c ≡ record { ordinal = self.now.ordinal; field = self.now.field; type_info = type_info; origin = origin }) }
    {
        let field = copy_of(alloc, &self.field)?;
        Ok(PgColumn::new(self.ordinal, field, type_info, origin))
    }

    /// An equal column. Only want of memory refuses it.
    pub fn to_copy(&self, alloc: Global) -> Result<Self, AllocError>
        ensures { IfOk result (λ c. c ≡ self.now) }
    {
        let type_info = self.type_info.to_copy(alloc)?;
        let origin = self.origin.to_copy(alloc)?;
        self.learnt(alloc, type_info, origin)
    }
}
