ghost use Rattle.std.specs.Prelude.{◌≡◌, ◌++◌, OnOk, IfOk, codes, option_copied, string_bytes};
ghost use Rattle.std.specs.Fmt.{decimal};
ghost use Rattle.pg_report.specs.Bytes.{quoted_text};
ghost use Rattle.pg_report.specs.Options.{told, text_or_none, set_or_none, address_lines, session_lines, last_lines, option_lines};

use crate::bytes::{put_number, put_quoted_text};
use pg_options::PgConnectOptions;
use std::alloc::{AllocError, Global};

// A line of one word.
#[tactic(auto, unfolding(crate::specs::Options::told))]
fn put_word(out: &mut String, name: &str, word: &str) -> Result<(), AllocError>
    ensures { OnOk result (string_bytes out.new ≡ string_bytes out.old ++ told name.now word.now) }
{
    out.push_str(name)?;
    out.push_str(" ")?;
    out.push_str(word)?;
    out.push_str("\n")
}

#[tactic(auto, unfolding(crate::specs::Options::told))]
fn put_count(out: &mut String, name: &str, n: u64) -> Result<(), AllocError>
    ensures { OnOk result (string_bytes out.new ≡ string_bytes out.old ++ told name.now (decimal n)) }
{
    out.push_str(name)?;
    out.push_str(" ")?;
    put_number(out, n)?;
    out.push_str("\n")
}

#[tactic(auto, unfolding(crate::specs::Options::told))]
fn put_text(out: &mut String, name: &str, text: &str) -> Result<(), AllocError>
    ensures { OnOk result (string_bytes out.new ≡ string_bytes out.old ++ told name.now (quoted_text text.now)) }
{
    out.push_str(name)?;
    out.push_str(" ")?;
    put_quoted_text(out, text.as_bytes())?;
    out.push_str("\n")
}

#[tactic(auto, unfolding(crate::specs::Options::text_or_none))]
fn put_text_or_none(out: &mut String, name: &str, text: Option<&str>) -> Result<(), AllocError>
    ensures { OnOk result (string_bytes out.new ≡ string_bytes out.old ++ told name.now (text_or_none (option_copied text.entry))) }
{
    match text {
        Some(text) => put_text(out, name, text),
        None => put_word(out, name, "none"),
    }
}

#[tactic(auto, unfolding(crate::specs::Options::set_or_none))]
fn put_password(out: &mut String, password: Option<&str>) -> Result<(), AllocError>
    ensures { OnOk result (string_bytes out.new ≡ string_bytes out.old ++ told (codes "password") (set_or_none (option_copied password.entry))) }
{
    match password {
        Some(_) => put_word(out, "password", "set"),
        None => put_word(out, "password", "none"),
    }
}

#[tactic(auto, unfolding(crate::specs::Options::address_lines))]
fn put_address(out: &mut String, options: &PgConnectOptions) -> Result<(), AllocError>
    ensures { OnOk result (string_bytes out.new ≡ string_bytes out.old ++ address_lines options.now) }
{
    put_text(out, "host", options.get_host())?;
    put_count(out, "port", u64::from(options.get_port()))?;
    put_text_or_none(out, "socket", options.get_socket())
}

#[tactic(auto, unfolding(crate::specs::Options::session_lines))]
fn put_session(out: &mut String, options: &PgConnectOptions) -> Result<(), AllocError>
    ensures { OnOk result (string_bytes out.new ≡ string_bytes out.old ++ session_lines options.now) }
{
    put_text(out, "user", options.get_username())?;
    put_password(out, options.get_password())?;
    put_text_or_none(out, "database", options.get_database())?;
    put_word(out, "sslmode", options.get_ssl_mode().name())?;
    put_count(out, "cache", options.get_cache_capacity() as u64)
}

#[tactic(auto, unfolding(crate::specs::Options::last_lines))]
fn put_last(out: &mut String, options: Option<&str>, url: &str) -> Result<(), AllocError>
    ensures { OnOk result (string_bytes out.new ≡ string_bytes out.old ++ last_lines (option_copied options.entry) url.now) }
{
    put_text_or_none(out, "options", options)?;
    put_text(out, "url", url)
}

/// What options say, in eleven lines: of a password only whether one is set, and last their URL.
#[tactic(auto, unfolding(crate::specs::Options::option_lines))]
pub fn option_lines(
    alloc: Global,
    options: &PgConnectOptions,
    url: &str,
) -> Result<String, AllocError>
    ensures { IfOk result (λ t. string_bytes t ≡ option_lines options.now url.now) }
{
    let mut out = String::new(alloc);
    put_address(&mut out, options)?;
    put_session(&mut out, options)?;
    put_text_or_none(&mut out, "application", options.get_application_name())?;
    put_last(&mut out, options.get_options(), url)?;
    Ok(out)
}
