ghost use Rattle.std.specs.Prelude.{◌≡◌};

use pg_columns::PgColumn;
use pg_conn::PgStatement;
use pg_wire::Oid;

/// A statement that was described in full: the types of its parameters, the columns of its rows, and of each column whether it may be null, as far as the
/// catalog says it. (PostgreSQL manual, "Message Flow", "Extended Query"; "System Catalogs", pg_attribute.)
#[derive(Debug)]
pub struct Describe {
    statement: PgStatement,
    nullable: Vec<Option<bool>>,
}

// By hand, so that whoever lets one go makes one call, and doesn't go through its parts.
impl Drop for Describe {
    fn drop(self) {
        let Describe {
            statement: _,
            nullable: _,
        } = self;
    }
}

impl Describe {
    /// What was told of a statement, and then of its columns.
    pub fn new(statement: PgStatement, nullable: Vec<Option<bool>>) -> Self
        ensures statement { result.statement ≡ statement }
        ensures nullable { result.nullable.items ≡ nullable.items }
    {
        Describe {
            statement,
            nullable,
        }
    }

    /// The columns of its rows, in their order, with the types and the origins that were looked up; none where it gives no rows.
    pub fn columns(&self) -> &[PgColumn]
        ensures { result.now ≡ self.now.statement.columns }
    {
        self.statement.columns()
    }

    /// The OIDs of its parameters' types, that of `$1` first.
    pub fn parameter_oids(&self) -> &[Oid]
        ensures { result.now ≡ self.now.statement.parameters }
    {
        self.statement.parameter_oids()
    }

    /// Of each column, in their order, whether it may be null: the column of a table may where no constraint forbids it. Of what is no column of a
    /// table nothing is known. (PostgreSQL manual, "Constraints", "Not-Null Constraints".)
    pub fn nullable(&self) -> &[Option<bool>]
        ensures { result.now ≡ self.now.nullable.items }
    {
        &self.nullable
    }
}
