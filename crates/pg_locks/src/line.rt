ghost use Rattle.std.specs.Prelude.{◌≡◌, IfOk, IfErr, string_bytes};
ghost use Rattle.pg_wire.specs.declared.error.Error.TheVariants.{OutOfMemory};
ghost use Rattle.pg_locks.specs.Locks.{key_line};

use crate::key::number_of_text;
use pg_wire::Error;
use std::alloc::Global;

/// The line that tells the key of a text: its number in decimal digits, and a line feed. Only want of memory refuses it.
pub fn key_line(alloc: Global, text: &str) -> Result<String, Error>
    ensures line { IfOk result (λ line. string_bytes line ≡ key_line text.now) }
    ensures memory { IfErr result (λ e. e ≡ OutOfMemory) }
{
    let number = number_of_text(alloc, text)?;
    Ok(format!(in alloc; "{number}\n")?)
}
