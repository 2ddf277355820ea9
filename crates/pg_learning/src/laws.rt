//! What follows from the definitions in `specs/`: each law is the contract of a function that does nothing.

ghost use Rattle.std.specs.Prelude.{◌≡◌};
ghost use Rattle.pg_wire.specs.declared.error.Error.{Error};
ghost use Rattle.pg_wire.specs.declared.error.Error.TheVariants as errors;
ghost use Rattle.pg_resolve.specs.declared.row.TypeResolverRow.{TypeResolverRow};
ghost use Rattle.pg_resolve.specs.declared.row.ColumnResolverRow.{ColumnResolverRow};
ghost use Rattle.pg_learning.specs.Lookups.{Values, IsTypeRow, IsColumnRow, IsNoRow, type_columns, column_columns};

/// The same values tell one row at most.
pub fn a_row_is_read_in_one_way()
    ensures types { (values : Values) (a b : TypeResolverRow) → IsTypeRow values a → IsTypeRow values b → a ≡ b }
    ensures columns { (values : Values) (a b : ColumnResolverRow) → IsColumnRow values a → IsColumnRow values b → a ≡ b }
{}

/// Values that tell a row are refused for want of memory alone.
pub fn a_row_is_refused_for_cause()
    ensures types { (values : Values) (row : TypeResolverRow) (e : Error) → IsTypeRow values row → IsNoRow type_columns values e → e ≡ errors.OutOfMemory }
    ensures columns { (values : Values) (row : ColumnResolverRow) (e : Error) → IsColumnRow values row → IsNoRow column_columns values e → e ≡ errors.OutOfMemory }
{}
