ghost use Rattle.std.specs.Prelude.{◌≡◌, ◌++◌, ◌∷◌, [], OnOk, OnErr, IfOk, IfErr};
ghost use Rattle.pg_wire.specs.declared.error.Error.TheVariants as errors;
ghost use Rattle.pg_resolve.specs.Columns.{column_text, column_lookup, AsksColumns};
ghost use Rattle.pg_resolve.specs.Tables.{with_row, KeepsPart};

use crate::listing::{Listed, lookup_of};
use crate::row::ColumnResolverRow;
use crate::tables::TableCache;
use pg_wire::{Error, Oid, Sequence, Text};
use std::alloc::{AllocError, Global};
use std::marker::Model;

impl Listed for (Oid, i16) {
    ghost text = { column_text };

    fn push_text(&self, out: &mut String) -> Result<(), AllocError> {
        write!(out, "({}, {})", self.0.0, self.1)
    }
}

#[tactic(auto, unfolding(crate::specs::Columns::column_head, crate::specs::Columns::column_end))]
fn column_text_of(alloc: Global, columns: &[(Oid, i16)]) -> Result<Text, AllocError>
    ensures { IfOk result (λ text. text ≡ column_lookup columns.now) }
{
    lookup_of(
        alloc,
        "SELECT\nattrelid table_oid,\nattrelid::regclass::text table_name,\narray_agg(ROW(attnum, attname)) AS columns\nFROM (VALUES ",
        columns,
        ") lookup(table_oid, attribute_num)\nINNER JOIN pg_catalog.pg_attribute ON lookup.table_oid = attrelid AND lookup.attribute_num = attnum\nGROUP BY attrelid",
    )
}

/// Finds out which columns of tables the fields of a result come from, by one lookup.
pub struct ColumnResolver {
    pushed: Sequence<(Oid, i16)>,
}

// By hand, so that whoever lets one go makes one call, and doesn't go through its parts.
impl Drop for ColumnResolver {
    fn drop(self) {
        let ColumnResolver { pushed: _ } = self;
    }
}

impl Model for ColumnResolver {
    ghost use Rattle.std.specs.Prelude.{List, ℕ, ℤ};

    ghost Value = { List (ℕ × ℤ) };

    ghost view = { λ r. r.pushed };
}

impl ColumnResolver {
    pub fn new(alloc: Global) -> Self
        ensures { result ≡ [] }
    {
        ColumnResolver {
            pushed: Sequence::new(alloc),
        }
    }

    /// Asks for a column of a table.
    pub fn push_column(&mut self, table: Oid, attribute: i16) -> Result<(), Error>
        ensures { OnOk result (self.new ≡ self.old ++ (table, attribute) ∷ []) }
    {
        self.pushed.push((table, attribute))?;
        Ok(())
    }

    /// The text of the lookup, or None where nothing is asked.
    pub fn query(&mut self, alloc: Global) -> Result<Option<Text>, Error>
        ensures ok { IfOk result (λ text. AsksColumns self.old text self.new) }
        ensures err { OnErr result (self.new ≡ self.old) }
    {
        if self.pushed.is_empty() {
            return Ok(None);
        }
        let text = column_text_of(alloc, self.pushed.as_slice())?;
        self.pushed = Sequence::new(alloc);
        Ok(Some(text))
    }

    /// Takes a row of the lookup: the names that it tells are kept.
    pub fn take_row(&mut self, cache: &mut TableCache, row: ColumnResolverRow) -> Result<(), Error>
        ensures ok { OnOk result (cache.new ≡ with_row row cache.old) }
        ensures err { OnErr result (KeepsPart row cache.old cache.new) }
        ensures cause { IfErr result (λ e. e ≡ errors.OutOfMemory) }
        ensures asked { self.new ≡ self.old }
    {
        cache.keep(row)?;
        Ok(())
    }
}
