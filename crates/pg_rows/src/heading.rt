ghost use Rattle.std.specs.Prelude.{◌≡◌, IfOk};

use pg_columns::{PgColumns, share_known};
use pg_values::PgValueFormat;
use std::alloc::AllocError;

/// What all rows of a statement have in common.
#[derive(Debug, Drop)]
pub struct Heading {
    /// The columns that the server has described. None where nobody sees the rows, so their columns aren't kept.
    pub columns: Option<PgColumns>,
    /// How the values are written: as texts where a query has no arguments.
    pub format: PgValueFormat,
}

impl Heading {
    /// The same again, with the same columns.
    pub fn share(&self) -> Result<Self, AllocError>
        ensures { IfOk result (λ h. h ≡ self.now) }
    {
        let columns = share_known(&self.columns)?;
        Ok(Heading {
            columns,
            format: self.format,
        })
    }
}
