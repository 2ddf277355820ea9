//! The columns of a result, as the server describes them: their names, types and tables, and the one of a name.
//!
//! A row is a list of values; what its columns are is told once for all rows of a result. Begin with `PgColumn`.
#![tactic(auto)]

mod column;
mod columns;
mod finding;
mod origin;

pub use column::PgColumn;
pub use columns::{PgColumns, share_known};
pub use finding::{column_at, column_by_name, place_by_name, place_of};
pub use origin::{ColumnOrigin, TableColumn};
