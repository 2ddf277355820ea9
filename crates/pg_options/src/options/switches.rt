ghost use Rattle.std.specs.Prelude.{◌≡◌, ◌∷◌, [], ◌++◌, IfOk, OnOk, string_bytes, unwrap_or, Some};
ghost use Rattle.pg_options.specs.Answering.{Makes};
ghost use Rattle.pg_options.specs.Escaping.{escaped, separator, with_switch, options_with};

use super::PgConnectOptions;
use crate::escaping::PgOptionsWriteEscaped;
use pg_wire::{Error, Text};
use std::alloc::{AllocError, Global};

impl PgConnectOptions {
    /// Sets parameters of the session: `-c name=value` for each pair, behind the options that are set. No pair is the empty text
    /// where none were set (PostgreSQL manual, "libpq", "Parameter Key Words", options).
    pub fn options(mut self, pairs: &[(Text, Text)]) -> Result<Self, Error>
        ensures { Makes result (record self { options = Some (options_with self.options pairs.now) }) }
    {
        let set = add_switches(self.alloc, &mut self.options, pairs);
        self.kept(set)
    }

    // The same of one pair.
    pub(super) fn option(mut self, name: &str, value: &str) -> Result<Self, Error>
        ensures { Makes result (record self { options = Some (options_with self.options ((name.now, value.now) ∷ [])) }) }
    {
        let set = add_switch(self.alloc, &mut self.options, name, value);
        self.kept(set)
    }
}

fn add_switches(
    alloc: Global,
    options: &mut Option<Text>,
    pairs: &[(Text, Text)],
) -> Result<(), AllocError>
    ensures { OnOk result (options.new ≡ Some (options_with options.old pairs.now)) }
{
    let mut text = set_or_empty(alloc, options.take());
    for (name, value) in pairs {
        text = with_switch(text, name.as_str(), value.as_str())?;
    }
    *options = Some(text);
    Ok(())
}

fn add_switch(
    alloc: Global,
    options: &mut Option<Text>,
    name: &str,
    value: &str,
) -> Result<(), AllocError>
    ensures { OnOk result (options.new ≡ Some (options_with options.old ((name.now, value.now) ∷ []))) }
{
    let text = set_or_empty(alloc, options.take());
    *options = Some(with_switch(text, name, value)?);
    Ok(())
}

fn set_or_empty(alloc: Global, text: Option<Text>) -> Text
    ensures { result ≡ unwrap_or text [] }
{
    match text {
        Some(text) => text,
        None => Text::new(alloc),
    }
}

// The text with `-c name=value` behind it.
#[tactic(auto, unfolding(crate::specs::Escaping::switch))]
fn with_switch(text: Text, name: &str, value: &str) -> Result<Text, AllocError>
    ensures { IfOk result (λ t. t ≡ with_switch text (name.now, value.now)) }
{
    let mut text = text.into_string();
    separate(&mut text)?;
    text.push_str("-c ")?;
    let mut switch = PgOptionsWriteEscaped::new(text);
    write_pair(&mut switch, name, value)?;
    Ok(Text::from_string(switch.into_string()))
}

// Writes `name=value`.
fn write_pair(out: &mut PgOptionsWriteEscaped, name: &str, value: &str) -> Result<(), AllocError>
    ensures { OnOk result (out.new ≡ out.old ++ (escaped name.now ++ 61 ∷ [] ++ escaped value.now)) }
{
    out.write_str(name)?;
    out.write_char('=')?;
    out.write_str(value)?;
    Ok(())
}

// Adds a space, unless the text is empty.
fn separate(text: &mut String) -> Result<(), AllocError>
    ensures { OnOk result (string_bytes text.new ≡ string_bytes text.old ++ separator (string_bytes text.old)) }
{
    if text.is_empty() {
        return Ok(());
    }
    text.push(' ')
}
