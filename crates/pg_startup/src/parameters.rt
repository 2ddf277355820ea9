ghost use Rattle.std.specs.Prelude.{◌≡◌, ◌++◌, None, OnOk, IfOk, IfErr, IfSome, flat_map, option_map, option_copied};
ghost use Rattle.std.specs.Fmt.{signed_decimal};
ghost use Rattle.std.specs.List.{AllByRecursion};
ghost use Rattle.pg_wire.specs.Bytes.{HasNoNul};
ghost use Rattle.pg_wire.specs.Frontend.{HasStartup, IsSetting};
ghost use Rattle.pg_startup.specs.Nuls.{first_nul_in, IsNulIn};
ghost use Rattle.pg_startup.specs.Startups.{said, fixed_parameters, startup_parameters, startup_of, startup_texts, texts_in, database_texts, parameter_texts, RefusesStartup};

use crate::nul::check_nul;
use pg_options::PgConnectOptions;
use pg_wire::{Blob, Error, Text, encode_startup};
use std::alloc::{AllocError, Global};

// One parameter of a session.
fn parameter(alloc: Global, name: &str, value: &str) -> Result<(Text, Text), AllocError>
    ensures { IfOk result (λ p. p ≡ (name.now, value.now)) }
{
    let name = Text::from_str(alloc, name)?;
    let value = Text::from_str(alloc, value)?;
    Ok((name, value))
}

// Adds a parameter that may be unset.
fn push_set(
    alloc: Global,
    out: &mut Vec<(Text, Text)>,
    name: &str,
    value: Option<&str>,
) -> Result<(), AllocError>
    ensures { OnOk result (out.new.items ≡ out.old.items ++ said name.now (option_copied value.entry)) }
{
    match value {
        Some(value) => {
            out.push(parameter(alloc, name, value)?)?;
            Ok(())
        }
        None => Ok(()),
    }
}

// Adds the digits of floats, where they are set.
fn push_digits(
    alloc: Global,
    out: &mut Vec<(Text, Text)>,
    name: &str,
    digits: Option<i8>,
) -> Result<(), AllocError>
    ensures { OnOk result (out.new.items ≡ out.old.items ++ said name.now (option_map signed_decimal digits)) }
{
    match digits {
        Some(digits) => {
            let digits = format!(in alloc; "{digits}")?;
            out.push(parameter(alloc, name, digits.as_str())?)?;
            Ok(())
        }
        None => Ok(()),
    }
}

// The parameters that every session begins with.
fn fixed_parameters(alloc: Global) -> Result<Vec<(Text, Text)>, AllocError>
    ensures { IfOk result (λ v. v.items ≡ fixed_parameters) }
{
    let mut out = Vec::new(alloc);
    out.push(parameter(alloc, "DateStyle", "ISO, MDY")?)?;
    out.push(parameter(alloc, "client_encoding", "UTF8")?)?;
    out.push(parameter(alloc, "TimeZone", "UTC")?)?;
    Ok(out)
}

// The parameters that a session begins with, in order.
#[tactic(auto, unfolding(crate::specs::Startups::startup_parameters))]
fn parameters(alloc: Global, options: &PgConnectOptions) -> Result<Vec<(Text, Text)>, AllocError>
    ensures { IfOk result (λ v. v.items ≡ startup_parameters options.now) }
{
    let mut out = fixed_parameters(alloc)?;
    push_digits(
        alloc,
        &mut out,
        "extra_float_digits",
        options.get_extra_float_digits(),
    )?;
    push_set(
        alloc,
        &mut out,
        "application_name",
        options.get_application_name(),
    )?;
    push_set(alloc, &mut out, "options", options.get_options())?;
    Ok(out)
}

// Refuses a parameter with a zero byte.
fn check_parameter(parameter: &(Text, Text)) -> Result<(), Error>
    ensures ok { OnOk result (IsSetting parameter.now × (first_nul_in (parameter_texts parameter.now) ≡ None)) }
    ensures err { IfErr result (IsNulIn (parameter_texts parameter.now)) }
{
    check_nul(parameter.0.as_str())?;
    check_nul(parameter.1.as_str())
}

// Refuses parameters with a zero byte.
fn check_parameters(parameters: &[(Text, Text)]) -> Result<(), Error>
    ensures ok { OnOk result (AllByRecursion IsSetting parameters.now × (first_nul_in (flat_map parameter_texts parameters.now) ≡ None)) }
    ensures err { IfErr result (IsNulIn (flat_map parameter_texts parameters.now)) }
{
    for parameter in parameters {
        check_parameter(parameter)?;
    }
    Ok(())
}

// Refuses a database's name with a zero byte.
fn check_database(database: Option<&str>) -> Result<(), Error>
    ensures ok { OnOk result (IfSome (option_copied database.entry) HasNoNul × (first_nul_in (database_texts (option_copied database.entry)) ≡ None)) }
    ensures err { IfErr result (IsNulIn (database_texts (option_copied database.entry))) }
{
    match database {
        Some(name) => check_nul(name),
        None => Ok(()),
    }
}

// Refuses a startup message with a zero byte in one of its texts.
fn check_texts(user: &str, database: Option<&str>, parameters: &[(Text, Text)]) -> Result<(), Error>
    ensures ok { OnOk result (HasStartup user.now (option_copied database.entry) parameters.now × (first_nul_in (texts_in user.now (option_copied database.entry) parameters.now) ≡ None)) }
    ensures err { IfErr result (IsNulIn (texts_in user.now (option_copied database.entry) parameters.now)) }
{
    check_nul(user)?;
    check_database(database)?;
    check_parameters(parameters)
}

/// The startup message of the options. A zero byte in a text is `Configuration` with part `Nul` and its place in that text.
/// (PostgreSQL manual, "Message Formats", StartupMessage.)
pub(crate) fn startup_message(alloc: Global, options: &PgConnectOptions) -> Result<Blob, Error>
    ensures ok { IfOk result (λ message. message ≡ startup_of options.now) }
    ensures none { OnOk result (first_nul_in (startup_texts options.now) ≡ None) }
    ensures err { IfErr result (RefusesStartup options.now) }
{
    let user = options.get_username();
    let database = options.get_database();
    let parameters = parameters(alloc, options)?;
    check_texts(user, database, &parameters)?;
    let mut message = Blob::new(alloc);
    encode_startup(&mut message, user, database, &parameters)?;
    Ok(message)
}
