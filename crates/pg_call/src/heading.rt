ghost use Rattle.std.specs.Prelude.{◌≡◌, []};
ghost use Rattle.pg_values.specs.declared.format.PgValueFormat.TheVariants as formats;
ghost use Rattle.pg_call.specs.Requests.{heading_for};

use crate::Kind;
use pg_columns::PgColumns;
use pg_rows::Heading;
use pg_values::PgValueFormat;

/// The heading of rows of these columns, as far as a call of this kind sees them.
pub(crate) fn heading(kind: Kind, columns: PgColumns, format: PgValueFormat) -> Heading
    ensures { result ≡ heading_for kind columns format }
{
    let columns = if kind.sees_rows() {
        Some(columns)
    } else {
        None
    };
    Heading { columns, format }
}

/// The heading of rows before their columns are described.
pub(crate) fn raw_heading(kind: Kind) -> Heading
    ensures { result ≡ heading_for kind [] formats.Text }
{
    heading(kind, PgColumns::none(), PgValueFormat::Text)
}
