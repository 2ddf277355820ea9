ghost use Rattle.std.specs.Prelude.{◌≡◌, unwrap_or};
ghost use Rattle.std.specs.Option.{option_or};
ghost use Rattle.pg_options.specs.Answering.{Makes};
ghost use Rattle.pg_play.specs.Connecting.{switches_said, options_of};

use pg_options::{PgConnectOptions, PgSettings, PgSslMode};
use pg_script::Script;
use pg_wire::{Error, Text};
use std::alloc::Global;

fn with_user(options: PgConnectOptions, user: &Option<Text>) -> Result<PgConnectOptions, Error>
    ensures { Makes result (record options { username = unwrap_or user.now options.username }) }
{
    match user {
        Some(user) => options.username(user.as_str()),
        None => Ok(options),
    }
}

fn with_password(
    options: PgConnectOptions,
    password: &Option<Text>,
) -> Result<PgConnectOptions, Error>
    ensures { Makes result (record options { password = option_or password.now options.password }) }
{
    match password {
        Some(password) => options.password(password.as_str()),
        None => Ok(options),
    }
}

fn with_database(
    options: PgConnectOptions,
    database: &Option<Text>,
) -> Result<PgConnectOptions, Error>
    ensures { Makes result (record options { database = option_or database.now options.database }) }
{
    match database {
        Some(database) => options.database(database.as_str()),
        None => Ok(options),
    }
}

fn with_application(
    options: PgConnectOptions,
    name: &Option<Text>,
) -> Result<PgConnectOptions, Error>
    ensures { Makes result (record options { application_name = option_or name.now options.application_name }) }
{
    match name {
        Some(name) => options.application_name(name.as_str()),
        None => Ok(options),
    }
}

fn with_switches(
    options: PgConnectOptions,
    pairs: &[(Text, Text)],
) -> Result<PgConnectOptions, Error>
    ensures { Makes result (record options { options = switches_said pairs.now options.options }) }
{
    match pairs {
        [] => Ok(options),
        _ => options.options(pairs),
    }
}

fn with_digits(options: PgConnectOptions, digits: Option<Option<i8>>) -> PgConnectOptions
    ensures { result ≡ record options { extra_float_digits = unwrap_or digits options.extra_float_digits } }
{
    match digits {
        Some(digits) => options.extra_float_digits(digits),
        None => options,
    }
}

fn with_ssl_mode(options: PgConnectOptions, mode: Option<PgSslMode>) -> PgConnectOptions
    ensures { result ≡ record options { ssl_mode = unwrap_or mode options.ssl_mode } }
{
    match mode {
        Some(mode) => options.ssl_mode(mode),
        None => options,
    }
}

fn with_capacity(options: PgConnectOptions, capacity: Option<u32>) -> PgConnectOptions
    ensures { result ≡ record options { statement_cache_capacity = unwrap_or capacity options.statement_cache_capacity } }
{
    match capacity {
        Some(capacity) => options.statement_cache_capacity(capacity as usize),
        None => options,
    }
}

/// The connect options that a script says.
pub(crate) fn options_of(alloc: Global, script: &Script) -> Result<PgConnectOptions, Error>
    ensures { Makes result (options_of script.now) }
{
    let plain = PgConnectOptions::new_without_pgpass(alloc, &PgSettings::empty())?;
    let with_user = with_user(plain, &script.user)?;
    let with_password = with_password(with_user, &script.password)?;
    let with_database = with_database(with_password, &script.database)?;
    let with_name = with_application(with_database, &script.application)?;
    let with_mode = with_ssl_mode(with_name, script.ssl_mode);
    let with_capacity = with_capacity(with_mode, script.cache);
    let with_digits = with_digits(with_capacity, script.digits);
    with_switches(with_digits, script.options.as_slice())
}
