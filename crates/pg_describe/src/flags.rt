ghost use Rattle.std.specs.Prelude.{◌≡◌, IfOk, IfErr};
ghost use Rattle.pg_describe.specs.Flags.{AreFlags, RefusesFlags};

use pg_conn::{PgRow, read_flag};
use pg_wire::Error;
use std::alloc::Global;

/// The truth value in the first column of each row, or a null, in their order. A row that has neither is `ColumnDecode` with the place 0.
pub(crate) fn read_flags(alloc: Global, rows: &[PgRow]) -> Result<Vec<Option<bool>>, Error>
    ensures ok { IfOk result (λ flags. AreFlags rows.now flags.items) }
    ensures err { IfErr result (RefusesFlags rows.now) }
{
    let mut flags = Vec::new(alloc);
    for place in 0..rows.len() {
        let flag = read_flag(&rows[place])?;
        flags.push(flag)?;
    }
    Ok(flags)
}
