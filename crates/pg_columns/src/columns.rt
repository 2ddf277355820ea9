ghost use Rattle.std.specs.Prelude.{◌≡◌, [], map, length, IfOk};
ghost use Rattle.std.specs.List.{AllByRecursion};
ghost use Rattle.pg_wire.specs.Fields.{described, TellsNone};
ghost use Rattle.pg_columns.specs.Told.{column_at, columns_of, made_columns, origin_of};

use crate::{ColumnOrigin, PgColumn};
use pg_arguments::PgTypeInfo;
use pg_wire::{Field, RowDescription, Sequence};
use std::alloc::{AllocError, Global};
use std::marker::Model;
use std::sync::Arc;

/// The columns of a result, which all its rows share.
#[derive(Debug)]
pub struct PgColumns {
    shared: Option<Arc<Vec<PgColumn>>>,
}

// By hand, so that whoever lets one go makes one call, and doesn't go through its parts.
impl Drop for PgColumns {
    fn drop(self) {
        let PgColumns { shared: _ } = self;
    }
}

impl Model for PgColumns {
    ghost use Rattle.std.specs.Prelude.{List};
    ghost use Rattle.pg_columns.specs.declared.column.PgColumn.{PgColumn};
    ghost use Rattle.pg_columns.specs.Told.{items_in};

    ghost Value = { List PgColumn };

    ghost view = { λ c. items_in c.shared };
}

// Where a column comes from, as far as its description tells.
fn origin_of(field: &Field) -> ColumnOrigin
    ensures { result ≡ origin_of field.now }
{
    match (field.relation_id, field.relation_attribute_no) {
        (Some(_), Some(_)) => ColumnOrigin::Unknown,
        _ => ColumnOrigin::Expression,
    }
}

fn column(alloc: Global, ordinal: usize, field: Field) -> Result<PgColumn, AllocError>
    ensures { IfOk result (λ c. c ≡ column_at ordinal field) }
{
    let origin = origin_of(&field);
    let type_info = PgTypeInfo::under_oid(alloc, field.type_id)?;
    Ok(PgColumn::new(ordinal, field, type_info, origin))
}

fn columns(alloc: Global, fields: Vec<Field>) -> Result<Vec<PgColumn>, AllocError>
    ensures { IfOk result (λ v. v.items ≡ made_columns 0 fields.items) }
{
    let mut columns = Vec::with_capacity(alloc, fields.len())?;
    for field in fields {
        let ordinal = columns.len();
        columns.push(column(alloc, ordinal, field)?)?;
    }
    Ok(columns)
}

impl PgColumns {
    /// No columns, which takes no memory.
    pub fn none() -> Self
        ensures { result ≡ [] }
    {
        PgColumns { shared: None }
    }

    /// The columns that a description tells of. The type of each is the built-in one of its OID, or else the type of which only the OID is
    /// told; its origin is not looked up.
    pub fn described(alloc: Global, description: RowDescription) -> Result<Self, AllocError>
        requires { AllByRecursion TellsNone description }
        ensures { IfOk result (λ c. c ≡ columns_of (map described description)) }
    {
        let columns = columns(alloc, description.into_vec())?;
        Self::shared(alloc, columns)
    }

    /// These columns. Only want of memory refuses it.
    pub fn of(alloc: Global, columns: Sequence<PgColumn>) -> Result<Self, AllocError>
        ensures { IfOk result (λ c. c ≡ columns) }
    {
        Self::shared(alloc, columns.into_vec())
    }

    fn shared(alloc: Global, columns: Vec<PgColumn>) -> Result<Self, AllocError>
        ensures { IfOk result (λ c. c ≡ columns.items) }
    {
        let shared = Arc::new(alloc, columns)?;
        Ok(PgColumns {
            shared: Some(shared),
        })
    }

    /// The number of columns.
    pub fn len(&self) -> usize
        ensures { result ≡ length self.now }
    {
        self.as_slice().len()
    }

    /// The columns, in the order of a row's values.
    pub fn as_slice(&self) -> &[PgColumn]
        ensures { result.now ≡ self.now }
    {
        match &self.shared {
            Some(shared) => shared.as_slice(),
            None => &[],
        }
    }

    /// The same columns, shared once more: none is copied.
    pub fn share(&self) -> Result<Self, AllocError>
        ensures { IfOk result (λ c. c ≡ self.now) }
    {
        let shared = match &self.shared {
            Some(shared) => Some(shared.clone()?),
            None => None,
        };
        Ok(PgColumns { shared })
    }
}

/// The same columns, shared once more, where they are known.
pub fn share_known(columns: &Option<PgColumns>) -> Result<Option<PgColumns>, AllocError>
    ensures { IfOk result (λ c. c ≡ columns.now) }
{
    match columns {
        Some(columns) => Ok(Some(columns.share()?)),
        None => Ok(None),
    }
}
