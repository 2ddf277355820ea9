ghost use Rattle.std.specs.Prelude.{◌≡◌, ◌++◌, OnOk, IfOk, string_bytes, List, ℕ};
ghost use Rattle.pg_resolve.specs.Listed.{listed};

use pg_wire::Text;
use std::alloc::{AllocError, Global};

// What a lookup's text has a list of.
pub(crate) trait Listed {
    ghost text: { Self → List ℕ };

    // Adds its text.
    fn push_text(&self, out: &mut String) -> Result<(), AllocError>
        ensures { OnOk result (string_bytes out.new ≡ string_bytes out.old ++ text self.now) };
}

// The text of a lookup: the texts of all, with a comma between two, behind a start and before an end.
pub(crate) fn lookup_of<T: Listed>(
    alloc: Global,
    start: &str,
    items: &[T],
    end: &str,
) -> Result<Text, AllocError>
    ensures { IfOk result (λ text. text ≡ start.now ++ listed T.text items.now ++ end.now) }
{
    let mut out = String::from_str(alloc, start)?;
    let mut comma = "";
    for item in items {
        out.push_str(comma)?;
        item.push_text(&mut out)?;
        comma = ", ";
    }
    out.push_str(end)?;
    Ok(Text::from_string(out))
}
