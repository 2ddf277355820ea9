ghost use Rattle.std.specs.Prelude.{◌≡◌, ℕ, Some, None, slice_get, IfOk, IfErr};
ghost use Rattle.pg_columns.specs.Columns.{IsLastNamed, MissesName, names_of};
ghost use Rattle.pg_conn.specs.Looking.{columns_told};
ghost use Rattle.pg_conn.specs.States.{TellsStatement};
ghost use Rattle.pg_request.specs.Asked.{AsksWith, kept_query, no_arguments, sent_as};

use crate::Query;
use pg_arguments::PgArguments;
use pg_call::Prepared;
use pg_columns::{PgColumn, PgColumns, column_by_name};
use pg_learning::Learnt;
use pg_wire::{Error, Oid, Oids, Sequence, Text};
use std::alloc::{AllocError, Global};

/// A statement as the server has described it: its text, the types of its parameters, and the columns of its rows, with what the connection has looked up of
/// them. (PostgreSQL manual, "Message Flow", "Extended Query".)
#[derive(Debug)]
pub struct PgStatement {
    sql: Text,
    parameters: Oids,
    columns: Sequence<PgColumn>,
}

// By hand, so that whoever lets one go makes one call, and doesn't go through its parts.
impl Drop for PgStatement {
    fn drop(self) {
        let PgStatement {
            sql: _,
            parameters: _,
            columns: _,
        } = self;
    }
}

/// The columns that were described, none of what gives no rows.
pub(crate) fn columns_told(columns: &Option<PgColumns>) -> &[PgColumn]
    ensures { result.now ≡ columns_told columns.now }
{
    match columns {
        Some(columns) => columns.as_slice(),
        None => &[],
    }
}

// Equal columns.
fn copied(alloc: Global, columns: &[PgColumn]) -> Result<Sequence<PgColumn>, AllocError>
    ensures { IfOk result (λ copies. copies ≡ columns.now) }
{
    let mut copies = Sequence::new(alloc);
    for column in columns {
        copies.push(column.to_copy(alloc)?)?;
    }
    Ok(copies)
}

impl PgStatement {
    /// What is told of a statement that was prepared: its columns have the types and the origins that were looked up. Only want of memory refuses it.
    pub fn told(alloc: Global, learnt: &Learnt, prepared: Prepared) -> Result<Self, Error>
        ensures { TellsStatement learnt.now prepared result }
    {
        let columns = learnt.columns(alloc, columns_told(&prepared.columns))?;
        let (sql, parameters) = prepared.into_parts();
        Ok(PgStatement {
            sql,
            parameters,
            columns,
        })
    }

    /// Its text, as the caller gave it.
    pub fn sql(&self) -> &str
        ensures { result.now ≡ self.now.sql }
    {
        self.sql.as_str()
    }

    /// Its text alone, without taking memory.
    pub fn into_sql(self) -> Text
        ensures { result ≡ self.sql }
    {
        let PgStatement {
            sql,
            parameters: _,
            columns: _,
        } = self;
        sql
    }

    /// The OIDs of its parameters' types, that of `$1` first.
    pub fn parameter_oids(&self) -> &[Oid]
        ensures { result.now ≡ self.now.parameters }
    {
        self.parameters.as_slice()
    }

    /// The columns of its rows, in their order; none where it gives no rows. Each tells the type that was looked up under its OID. A column of a table tells
    /// the table and its own name there where both were looked up, and is of an unknown origin where not.
    pub fn columns(&self) -> &[PgColumn]
        ensures { result.now ≡ self.now.columns }
    {
        self.columns.as_slice()
    }

    /// The column of a name; of several that have it the last one. `ColumnNotFound` comes exactly where none has it, but for want of memory.
    pub fn column_by_name(&self, alloc: Global, name: &str) -> Result<&PgColumn, Error>
        ensures ok { IfOk result (λ c. (place : ℕ) × IsLastNamed name.now (names_of self.now.columns) (Some place) × (slice_get self.now.columns place ≡ Some c.now)) }
        ensures err { IfErr result (MissesName name.now (names_of self.now.columns)) }
    {
        column_by_name(alloc, self.columns(), name)
    }

    /// A query of its text without arguments, which is kept. Only want of memory refuses it.
    pub fn query(&self, alloc: Global) -> Result<Query, Error>
        ensures query { IfOk result (λ q. q ≡ kept_query self.now.sql no_arguments) }
        ensures memory { IfErr result (λ e. e ≡ Error.OutOfMemory) }
    {
        Query::new(alloc, self.sql())
    }

    /// The same with these arguments. Only want of memory refuses it.
    pub fn query_with(&self, alloc: Global, arguments: &PgArguments) -> Result<Query, Error>
        ensures query { IfOk result (λ q. q ≡ kept_query self.now.sql (sent_as arguments.now)) }
        ensures values { IfOk result (λ q. AsksWith arguments.now q.arguments) }
        ensures memory { IfErr result (λ e. e ≡ Error.OutOfMemory) }
    {
        Query::with(alloc, self.sql(), arguments)
    }

    /// An equal value. Only want of memory refuses it.
    pub fn to_copy(&self, alloc: Global) -> Result<Self, Error>
        ensures copy { IfOk result (λ s. s ≡ self.now) }
        ensures memory { IfErr result (λ e. e ≡ Error.OutOfMemory) }
    {
        let sql = self.sql.to_copy(alloc)?;
        let parameters = self.parameters.to_copy(alloc)?;
        let columns = copied(alloc, self.columns())?;
        Ok(PgStatement {
            sql,
            parameters,
            columns,
        })
    }
}
