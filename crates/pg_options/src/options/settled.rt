ghost use Rattle.std.specs.Prelude.{◌≡◌, IfOk, OnOk, unwrap_or, option_map};
ghost use Rattle.std.specs.Option.{option_or};
ghost use Rattle.pg_options.specs.Answering.{Makes};
ghost use Rattle.pg_options.specs.Certificates.{certificate_from};
ghost use Rattle.pg_options.specs.Options.{unset, defaults, no_settings, options_from, host_from, user_from};

use super::building::set_text;
use super::{PgConnectOptions, copy_text};
use crate::numbers::read_port;
use crate::{CertificateInput, PgSettings, PgSslMode};
use pg_wire::{Error, Text};
use std::alloc::{AllocError, Global};

impl PgConnectOptions {
    /// The options of the settings: see `new_without_pgpass`.
    pub fn new(alloc: Global, env: &PgSettings) -> Result<Self, Error>
        ensures made { Makes result (options_from env.now) }
        ensures nothing_set { env.now ≡ no_settings → IfOk result (λ o. o ≡ defaults) }
    {
        PgConnectOptions::new_without_pgpass(alloc, env)
    }

    /// The options of the settings, which only want of memory refuses. Where nothing is set: the user `unknown` on `localhost`, port 5432.
    ///
    /// No password file is read. A setting that cannot be read, as a port that is no number, counts as unset.
    pub fn new_without_pgpass(alloc: Global, env: &PgSettings) -> Result<Self, Error>
        ensures made { Makes result (options_from env.now) }
        ensures nothing_set { env.now ≡ no_settings → IfOk result (λ o. o ≡ defaults) }
    {
        let mut options = PgConnectOptions::unset(alloc);
        let set = options.take_settings(env);
        options.kept(set)
    }

    // Sets what settings can set.
    fn take_settings(&mut self, env: &PgSettings) -> Result<(), AllocError>
        requires { self.old ≡ unset }
        ensures { OnOk result (self.new ≡ options_from env.now) }
    {
        self.port = port(env);
        self.ssl_mode = ssl_mode(env);
        set_text(self.alloc, &mut self.host, host(env))?;
        set_text(self.alloc, &mut self.username, user(env))?;
        copy_text(self.alloc, &mut self.password, &env.password)?;
        copy_text(self.alloc, &mut self.database, &env.database)?;
        set_certificate(self.alloc, &mut self.ssl_root_cert, &env.ssl_root_cert)?;
        set_certificate(self.alloc, &mut self.ssl_client_cert, &env.ssl_cert)?;
        set_certificate(self.alloc, &mut self.ssl_client_key, &env.ssl_key)?;
        copy_text(self.alloc, &mut self.application_name, &env.app_name)?;
        copy_text(self.alloc, &mut self.options, &env.options)
    }
}

fn host(env: &PgSettings) -> &str
    ensures { result.now ≡ host_from env.now }
{
    let named = either(&env.host_addr, either(&env.host, &env.default_host));
    shown_or(named, "localhost")
}

fn user(env: &PgSettings) -> &str
    ensures { result.now ≡ user_from env.now }
{
    shown_or(either(&env.user, &env.system_user), "unknown")
}

fn port(env: &PgSettings) -> u16
    ensures { result ≡ (options_from env.now).port }
{
    match &env.port {
        Some(text) => read_port(text.as_str()).unwrap_or(5432),
        None => 5432,
    }
}

fn ssl_mode(env: &PgSettings) -> PgSslMode
    ensures { result ≡ (options_from env.now).ssl_mode }
{
    match &env.ssl_mode {
        Some(text) => PgSslMode::from_name(text.as_str()).unwrap_or(PgSslMode::Prefer),
        None => PgSslMode::Prefer,
    }
}

fn set_certificate(
    alloc: Global,
    slot: &mut Option<CertificateInput>,
    text: &Option<Text>,
) -> Result<(), AllocError>
    ensures { OnOk result (slot.new ≡ option_map certificate_from text.now) }
{
    *slot = match text {
        Some(text) => Some(CertificateInput::from_text(alloc, text.as_str())?),
        None => None,
    };
    Ok(())
}

// The first of two texts that is set.
fn either<'a>(first: &'a Option<Text>, second: &'a Option<Text>) -> &'a Option<Text>
    ensures { result.now ≡ option_or first.now second.now }
{
    match first {
        Some(_) => first,
        None => second,
    }
}

// The text, or the other one where it is not set.
fn shown_or<'a>(text: &'a Option<Text>, otherwise: &'a str) -> &'a str
    ensures { result.now ≡ unwrap_or text.now otherwise.now }
{
    match text {
        Some(text) => text.as_str(),
        None => otherwise,
    }
}
