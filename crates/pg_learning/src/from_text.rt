ghost use Rattle.std.specs.Prelude.{List, ℕ, IfOk, IfErr, option_map};
ghost use Rattle.pg_values.specs.Values.{IsNoValue, IsTextOf};
ghost use Rattle.pg_learning.specs.Texts.{Given, GivenOrNull};

use pg_wire::{Error, Text};
use std::alloc::Global;

/// A value that is read from its text form.
pub(crate) trait FromText: Sized + Drop {
    /// Which value a text is.
    ghost means: { List ℕ → Self → Type 0 };

    /// The value that the text is. `Error::Decode` comes exactly where it is none.
    fn from_text(alloc: Global, bytes: &[u8]) -> Result<Self, Error>
        ensures value { IfOk result (means bytes.now) }
        ensures cause { IfErr result (IsNoValue (means bytes.now)) };
}

impl FromText for Text {
    ghost means = { IsTextOf };

    fn from_text(alloc: Global, bytes: &[u8]) -> Result<Self, Error> {
        match str::from_utf8(bytes) {
            Ok(text) => Ok(Text::from_str(alloc, text)?),
            Err(_) => Err(Error::Decode),
        }
    }
}

/// A value that may not be null.
pub(crate) fn given<T: FromText>(alloc: Global, value: Option<&[u8]>) -> Result<T, Error>
    ensures value { IfOk result (Given T.means (option_map (λ b. b.now) value.entry)) }
    ensures cause { IfErr result (IsNoValue (Given T.means (option_map (λ b. b.now) value.entry))) }
{
    match value {
        Some(bytes) => T::from_text(alloc, bytes),
        None => Err(Error::Decode),
    }
}

/// A value that may be null.
pub(crate) fn given_or_null<T: FromText>(
    alloc: Global,
    value: Option<&[u8]>,
) -> Result<Option<T>, Error>
    ensures value { IfOk result (GivenOrNull T.means (option_map (λ b. b.now) value.entry)) }
    ensures cause { IfErr result (IsNoValue (GivenOrNull T.means (option_map (λ b. b.now) value.entry))) }
{
    match value {
        Some(bytes) => Ok(Some(T::from_text(alloc, bytes)?)),
        None => Ok(None),
    }
}
