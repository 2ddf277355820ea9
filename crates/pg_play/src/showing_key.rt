ghost use Rattle.pg_play.specs.Top.{KeyIs};

use crate::ending::Ending;
use pg_locks::key_line;
use std::alloc::Global;

/// Shows the key of the advisory lock of a text.
pub(crate) fn show_key<L>(alloc: Global, text: &str) -> Ending<L>
    ensures { KeyIs text.now result }
{
    match key_line(alloc, text) {
        Ok(line) => Ending::Shown(line),
        Err(_) => Ending::NoMemory,
    }
}
