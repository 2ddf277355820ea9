ghost use Rattle.std.specs.Prelude.{◌≡◌, OnOk};
ghost use Rattle.pg_options.specs.Answering.{Makes};
ghost use Rattle.pg_options.specs.Options.{unset};

use crate::{CertificateInput, PgSslMode};
use building::set_text;
use pg_wire::{Error, Text};
use std::alloc::{AllocError, Global};
use std::marker::Model;

mod building;
mod getting;
mod query;
mod reading;
mod settled;
mod socket_file;
mod switches;
mod writing;

/// How to connect to a server, and what to tell it at start-up.
#[derive(Debug)]
pub struct PgConnectOptions {
    alloc: Global,
    host: Text,
    port: u16,
    socket: Option<Text>,
    username: Text,
    password: Option<Text>,
    database: Option<Text>,
    ssl_mode: PgSslMode,
    ssl_root_cert: Option<CertificateInput>,
    ssl_client_cert: Option<CertificateInput>,
    ssl_client_key: Option<CertificateInput>,
    statement_cache_capacity: usize,
    application_name: Option<Text>,
    extra_float_digits: Option<i8>,
    options: Option<Text>,
}

impl Model for PgConnectOptions {
    ghost use Rattle.pg_options.specs.Options.{ConnectOptions};

    ghost Value = { ConnectOptions };

    ghost view = { λ o. record { host = o.host; port = o.port; socket = o.socket; username = o.username; password = o.password; database = o.database; ssl_mode = o.ssl_mode; ssl_root_cert = o.ssl_root_cert; ssl_client_cert = o.ssl_client_cert; ssl_client_key = o.ssl_client_key; statement_cache_capacity = o.statement_cache_capacity; application_name = o.application_name; extra_float_digits = o.extra_float_digits; options = o.options } };
}

impl PgConnectOptions {
    /// Equal options, in memory of their own.
    pub fn clone(&self) -> Result<Self, Error>
        ensures { Makes result self.now }
    {
        let mut copy = PgConnectOptions::unset(self.alloc);
        let set = copy.copy_from(self);
        copy.kept(set)
    }

    // Options that take no memory, for what sets them all.
    fn unset(alloc: Global) -> Self
        ensures { result ≡ unset }
    {
        PgConnectOptions {
            alloc,
            host: Text::new(alloc),
            port: 0,
            socket: None,
            username: Text::new(alloc),
            password: None,
            database: None,
            ssl_mode: PgSslMode::Prefer,
            ssl_root_cert: None,
            ssl_client_cert: None,
            ssl_client_key: None,
            statement_cache_capacity: 100,
            application_name: None,
            extra_float_digits: Some(2),
            options: None,
        }
    }

    fn copy_from(&mut self, other: &Self) -> Result<(), AllocError>
        ensures { OnOk result (self.new ≡ other.now) }
    {
        self.port = other.port;
        self.ssl_mode = other.ssl_mode;
        self.statement_cache_capacity = other.statement_cache_capacity;
        self.extra_float_digits = other.extra_float_digits;
        set_text(self.alloc, &mut self.host, other.host.as_str())?;
        copy_text(self.alloc, &mut self.socket, &other.socket)?;
        set_text(self.alloc, &mut self.username, other.username.as_str())?;
        copy_text(self.alloc, &mut self.password, &other.password)?;
        copy_text(self.alloc, &mut self.database, &other.database)?;
        copy_input(self.alloc, &mut self.ssl_root_cert, &other.ssl_root_cert)?;
        copy_input(
            self.alloc,
            &mut self.ssl_client_cert,
            &other.ssl_client_cert,
        )?;
        copy_input(self.alloc, &mut self.ssl_client_key, &other.ssl_client_key)?;
        copy_text(
            self.alloc,
            &mut self.application_name,
            &other.application_name,
        )?;
        copy_text(self.alloc, &mut self.options, &other.options)?;
        Ok(())
    }
}

// Sets a text, or unsets it, as another one is.
fn copy_text(alloc: Global, slot: &mut Option<Text>, other: &Option<Text>) -> Result<(), AllocError>
    ensures { OnOk result (slot.new ≡ other.now) }
{
    *slot = match other {
        Some(text) => Some(text.to_copy(alloc)?),
        None => None,
    };
    Ok(())
}

// The same of a certificate or key.
fn copy_input(
    alloc: Global,
    slot: &mut Option<CertificateInput>,
    other: &Option<CertificateInput>,
) -> Result<(), AllocError>
    ensures { OnOk result (slot.new ≡ other.now) }
{
    *slot = match other {
        Some(input) => Some(input.to_copy(alloc)?),
        None => None,
    };
    Ok(())
}

// By hand, so that whoever lets one go makes one call, and doesn't go through its parts.
impl Drop for PgConnectOptions {
    fn drop(self) {
        let PgConnectOptions {
            alloc: _,
            host: _,
            port: _,
            socket: _,
            username: _,
            password: _,
            database: _,
            ssl_mode: _,
            ssl_root_cert: _,
            ssl_client_cert: _,
            ssl_client_key: _,
            statement_cache_capacity: _,
            application_name: _,
            extra_float_digits: _,
            options: _,
        } = self;
    }
}
