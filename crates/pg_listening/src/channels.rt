ghost use Rattle.std.specs.Prelude.{◌≡◌, ◌++◌, IfOk, IfErr, OnOk, string_bytes};
ghost use Rattle.pg_migrate.specs.Quoting.{quoted};
ghost use Rattle.pg_listening.specs.Channels.{channel_name, listen_each_text, listen_text, unlisten_all_text, unlisten_text};

use pg_migrate::put_quoted;
use pg_wire::{Error, Text};
use std::alloc::{AllocError, Global};

// A channel up to its first zero byte.
fn channel_name(channel: &str) -> &str
    ensures { result.now ≡ channel_name channel.now }
{
    match channel.split_once('\0') {
        Some((name, _)) => name,
        None => channel,
    }
}

fn put_statement(out: &mut String, word: &str, channel: &str) -> Result<(), AllocError>
    ensures { OnOk result (string_bytes out.new ≡ string_bytes out.old ++ (word.now ++ quoted 34 (channel_name channel.now))) }
{
    out.push_str(word)?;
    put_quoted(out, '"', channel_name(channel))
}

fn put_listen(out: &mut String, channel: &str) -> Result<(), AllocError>
    ensures { OnOk result (string_bytes out.new ≡ string_bytes out.old ++ listen_text channel.now) }
{
    put_statement(out, "LISTEN ", channel)
}

/// The statement that begins to listen to a channel, whose name ends at its first zero byte. An `Err` is want of memory.
/// (PostgreSQL manual, "SQL Commands", LISTEN.)
pub fn listen_text(alloc: Global, channel: &str) -> Result<Text, Error>
    ensures text { IfOk result (λ text. text ≡ listen_text channel.now) }
    ensures err { IfErr result (λ e. e ≡ Error.OutOfMemory) }
{
    let mut out = String::new(alloc);
    put_listen(&mut out, channel)?;
    Ok(Text::from_string(out))
}

/// The statements that begin to listen to each of these channels, in one text.
pub fn listen_each_text(alloc: Global, channels: &[Text]) -> Result<Text, Error>
    ensures text { IfOk result (λ text. text ≡ listen_each_text channels.now) }
    ensures err { IfErr result (λ e. e ≡ Error.OutOfMemory) }
{
    let mut out = String::new(alloc);
    for channel in channels {
        put_listen(&mut out, channel.as_str())?;
        out.push(';')?;
    }
    Ok(Text::from_string(out))
}

/// The statement that listens to a channel no longer. (PostgreSQL manual, "SQL Commands", UNLISTEN.)
pub fn unlisten_text(alloc: Global, channel: &str) -> Result<Text, Error>
    ensures text { IfOk result (λ text. text ≡ unlisten_text channel.now) }
    ensures err { IfErr result (λ e. e ≡ Error.OutOfMemory) }
{
    let mut out = String::new(alloc);
    put_statement(&mut out, "UNLISTEN ", channel)?;
    Ok(Text::from_string(out))
}

/// The statement that listens to no channel any longer.
pub fn unlisten_all_text(alloc: Global) -> Result<Text, Error>
    ensures text { IfOk result (λ text. text ≡ unlisten_all_text) }
    ensures err { IfErr result (λ e. e ≡ Error.OutOfMemory) }
{
    Ok(Text::from_str(alloc, "UNLISTEN *")?)
}
