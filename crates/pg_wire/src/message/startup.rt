ghost use Rattle.std.specs.Prelude.{◌≡◌, ◌++◌, ◌+◌, ◌≤◌, ◌^◌, ◌-◌, List, ℕ, [], ◌∷◌, length, flat_map, min, option_map, OnOk, OnErr, IfOk, IfErr, IfSome, Err};
ghost use Rattle.std.specs.List.{AllByRecursion};
ghost use Rattle.pg_wire.specs.Bytes.{number32, HasNoNul};
ghost use Rattle.pg_wire.specs.Encoding.{Refuses, body_max};
ghost use Rattle.pg_wire.specs.Frontend.{setting, database_setting, startup, startup_body, IsSetting, HasStartup};
ghost use Rattle.pg_wire.specs.declared.error.Error.TheVariants as errors;
ghost use Rattle.pg_wire.specs.declared.error.ProtocolFault.TheVariants as faults;
ghost use Rattle.pg_wire.specs.declared.error.CallerFault.TheVariants as callers;

use crate::appending::{check_body, check_text};
use crate::{Blob, Error, Text};
use std::alloc::AllocError;

/// The version of the protocol, 3.0.
const VERSION: u32 = 196608;

fn check_database(database: Option<&str>) -> Result<(), Error>
    ensures ok { OnOk result (IfSome (option_map (λ x. x.now) database.entry) HasNoNul) }
    ensures nul { OnErr result ((IfSome (option_map (λ x. x.now) database.entry) HasNoNul → ⊥) × (result ≡ Err (errors.Protocol (faults.Caller callers.Nul)))) }
{
    match database {
        Some(name) => check_text(name),
        None => Ok(()),
    }
}

fn check_setting(pair: &(Text, Text)) -> Result<(), Error>
    ensures ok { OnOk result (IsSetting pair.now) }
    ensures nul { OnErr result ((IsSetting pair.now → ⊥) × (result ≡ Err (errors.Protocol (faults.Caller callers.Nul)))) }
{
    check_text(pair.0.as_str())?;
    check_text(pair.1.as_str())
}

fn check_settings(params: &[(Text, Text)]) -> Result<(), Error>
    ensures ok { OnOk result (AllByRecursion IsSetting params.now) }
    ensures nul { OnErr result ((AllByRecursion IsSetting params.now → ⊥) × (result ≡ Err (errors.Protocol (faults.Caller callers.Nul)))) }
{
    for pair in params {
        check_setting(pair)?;
    }
    Ok(())
}

// The length of the settings, or the greatest number where it is above that.
fn settings_length(params: &[(Text, Text)]) -> u64
    ensures { result ≡ min (length (flat_map setting params.now)) (2 ^ 64 - 1) }
{
    let mut length: u64 = 0;
    for pair in params {
        length = length
            .saturating_add(pair.0.len() as u64)
            .saturating_add(pair.1.len() as u64)
            .saturating_add(2);
    }
    length
}

fn database_length(database: Option<&str>) -> u64
    ensures { result ≡ length (database_setting (option_map (λ x. x.now) database.entry)) }
{
    match database {
        Some(name) => name.len() as u64 + 10,
        None => 0,
    }
}

fn startup_length(user: &str, database: Option<&str>, params: &[(Text, Text)]) -> u64
    ensures { result ≡ min (length (startup_body user.now (option_map (λ x. x.now) database.entry) params.now)) (2 ^ 64 - 1) }
{
    let texts = user.len() as u64 + 11;
    texts
        .saturating_add(database_length(database))
        .saturating_add(settings_length(params))
}

fn append_setting(out: &mut Blob, name: &[u8], value: &[u8]) -> Result<(), AllocError>
    ensures ok { OnOk result (out.new ≡ out.old ++ setting (name.now, value.now)) }
    ensures part { (more : List ℕ) × (out.new ≡ out.old ++ more) }
{
    out.append(name)?;
    out.append(&[0])?;
    out.append(value)?;
    out.append(&[0])
}

fn append_database(out: &mut Blob, database: Option<&str>) -> Result<(), AllocError>
    ensures ok { OnOk result (out.new ≡ out.old ++ database_setting (option_map (λ x. x.now) database.entry)) }
    ensures part { (more : List ℕ) × (out.new ≡ out.old ++ more) }
{
    match database {
        Some(name) => append_setting(out, b"database", name.as_bytes()),
        None => Ok(()),
    }
}

fn append_settings(out: &mut Blob, params: &[(Text, Text)]) -> Result<(), AllocError>
    ensures ok { OnOk result (out.new ≡ out.old ++ flat_map setting params.now) }
    ensures part { (more : List ℕ) × (out.new ≡ out.old ++ more) }
{
    for pair in params {
        append_setting(out, pair.0.as_bytes(), pair.1.as_bytes())?;
    }
    Ok(())
}

// Adds the length and the version.
fn append_opening(out: &mut Blob, size: u32) -> Result<(), AllocError>
    ensures ok { OnOk result (out.new ≡ out.old ++ number32 size ++ number32 196608) }
    ensures part { (more : List ℕ) × (out.new ≡ out.old ++ more) }
{
    out.append(&size.to_be_bytes())?;
    out.append(&VERSION.to_be_bytes())
}

// Adds what follows the user.
fn append_rest(
    out: &mut Blob,
    database: Option<&str>,
    params: &[(Text, Text)],
) -> Result<(), AllocError>
    ensures ok { OnOk result (out.new ≡ out.old ++ database_setting (option_map (λ x. x.now) database.entry) ++ flat_map setting params.now ++ 0 ∷ []) }
    ensures part { (more : List ℕ) × (out.new ≡ out.old ++ more) }
{
    append_database(out, database)?;
    append_settings(out, params)?;
    out.append(&[0])
}

// Adds a startup message, or some of it.
fn append_startup(
    out: &mut Blob,
    size: u32,
    user: &str,
    database: Option<&str>,
    params: &[(Text, Text)],
) -> Result<(), AllocError>
    ensures ok { OnOk result (out.new ≡ out.old ++ number32 size ++ startup_body user.now (option_map (λ x. x.now) database.entry) params.now) }
    ensures part { (more : List ℕ) × (out.new ≡ out.old ++ more) }
{
    append_opening(out, size)?;
    append_setting(out, b"user", user.as_bytes())?;
    append_rest(out, database, params)
}

/// Adds the message that opens a session, or nothing: the user, the database where it is named, and the settings in
/// their order. It has no tag. (PostgreSQL manual, "Message Formats", StartupMessage.)
pub fn encode_startup(
    out: &mut Blob,
    user: &str,
    database: Option<&str>,
    params: &[(Text, Text)],
) -> Result<(), Error>
    ensures ok { OnOk result (out.new ≡ out.old ++ startup user.now (option_map (λ x. x.now) database.entry) params.now) }
    ensures whole { OnOk result (HasStartup user.now (option_map (λ x. x.now) database.entry) params.now × (length (startup_body user.now (option_map (λ x. x.now) database.entry) params.now) ≤ body_max)) }
    ensures err { OnErr result (out.new ≡ out.old) }
    ensures cause { IfErr result (Refuses 0 (HasStartup user.now (option_map (λ x. x.now) database.entry) params.now) (min (length (startup_body user.now (option_map (λ x. x.now) database.entry) params.now)) (2 ^ 64 - 1))) }
{
    check_text(user)?;
    check_database(database)?;
    check_settings(params)?;
    let size = check_body(startup_length(user, database, params))?;
    let start = out.len();
    let done = append_startup(out, size, user, database, params);
    if done.is_err() {
        out.truncate(start);
    }
    done?;
    Ok(())
}
