ghost use Rattle.std.specs.Prelude.{◌≡◌, ◌++◌, ℕ, List, OnOk, OnErr, string_bytes};
ghost use Rattle.std.specs.Char.{encode_utf8};
ghost use Rattle.pg_options.specs.Escaping.{escaped};

use std::alloc::AllocError;
use std::marker::Model;

/// Writes words of the server's command-line options behind a text: each space and backslash gets a backslash before it
/// (PostgreSQL manual, "libpq", "Parameter Key Words", options).
#[derive(Debug, Drop)]
pub struct PgOptionsWriteEscaped {
    text: String,
}

impl Model for PgOptionsWriteEscaped {
    ghost use Rattle.std.specs.Prelude.{List, ℕ, string_bytes};

    ghost Value = { List ℕ };

    ghost view = { λ w. string_bytes w.text };
}

impl PgOptionsWriteEscaped {
    /// What is written stands behind this text.
    pub fn new(text: String) -> Self
        ensures { result ≡ string_bytes text }
    {
        PgOptionsWriteEscaped { text }
    }

    /// The text with what was written behind it.
    pub fn into_string(self) -> String
        ensures { string_bytes result ≡ self }
    {
        let PgOptionsWriteEscaped { text } = self;
        text
    }

    /// Writes a text. Where memory is refused, what is written is a front of it.
    pub fn write_str(&mut self, text: &str) -> Result<(), AllocError>
        ensures ok { OnOk result (self.new ≡ self.old ++ escaped text.now) }
        ensures err { OnErr result
            ((front : List ℕ) × (back : List ℕ) × (text.now ≡ front ++ back) × (self.new ≡ self.old ++ escaped front)) }
    {
        for ch in text.chars() {
            self.write_char(ch)?;
        }
        Ok(())
    }

    /// Writes a character, or nothing where memory is refused.
    pub fn write_char(&mut self, ch: char) -> Result<(), AllocError>
        ensures ok { OnOk result (self.new ≡ self.old ++ escaped (encode_utf8 ch)) }
        ensures err { OnErr result (self.new ≡ self.old) }
    {
        push_escaped(&mut self.text, ch)
    }
}

#[tactic(auto, using(crate::proofs::EscapingLaws::space_escaped, crate::proofs::EscapingLaws::backslash_escaped, crate::proofs::EscapingLaws::char_kept))]
fn push_escaped(out: &mut String, ch: char) -> Result<(), AllocError>
    ensures ok { OnOk result (string_bytes out.new ≡ string_bytes out.old ++ escaped (encode_utf8 ch)) }
    ensures err { OnErr result (string_bytes out.new ≡ string_bytes out.old) }
{
    match ch {
        ' ' => out.push_str("\\ "),
        '\\' => out.push_str("\\\\"),
        _ => out.push(ch),
    }
}
