ghost use Rattle.std.specs.Prelude.{◌≡◌, None, Some, IfOk, IfErr};
ghost use Rattle.pg_conn.specs.Flags.{flag_in, flag_of};

use crate::PgRow;
use pg_wire::Error;

// The truth value that these bytes are, if they are one. (PostgreSQL manual, "Boolean Type".)
fn flag_of(bytes: &[u8]) -> Option<bool>
    ensures { result ≡ flag_of bytes.now }
{
    match bytes {
        [0] => Some(false),
        [1] => Some(true),
        _ => None,
    }
}

/// The truth value in the first column of a row of an extended query, or a null. `ColumnDecode` with the place 0 comes exactly where there is neither.
pub fn read_flag(row: &PgRow) -> Result<Option<bool>, Error>
    ensures ok { IfOk result (λ flag. flag_in row.now.values ≡ Some flag) }
    ensures err { IfErr result (λ e. (e ≡ Error.ColumnDecode 0) × (flag_in row.now.values ≡ None)) }
{
    if row.is_empty() {
        return Err(Error::ColumnDecode { index: 0 });
    }
    let Some(bytes) = row.value(0) else {
        return Ok(None);
    };
    match flag_of(bytes) {
        Some(flag) => Ok(Some(flag)),
        None => Err(Error::ColumnDecode { index: 0 }),
    }
}
