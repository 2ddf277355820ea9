ghost use Rattle.std.specs.Prelude.{◌≡◌, ◌≢◌, IfErr, OnOk, OnErr, option_map};
ghost use Rattle.pg_wire.specs.Decoding.{IsRefused};
ghost use Rattle.pg_stream.specs.Streams.{framed};
ghost use Rattle.pg_stream.specs.Parameters.{no_parameters, value_of, with_value, SetsBy};
ghost use Rattle.pg_stream.specs.Asynchronous.{IsSaid};

use crate::version::parse_server_version;
use pg_wire::{Error, ParameterStatus, decode_parameter_status};
use std::alloc::{AllocError, Global};
use std::collections::BTreeMap;
use std::marker::Model;

// Nothing but want of memory is a failure.
pub(crate) fn memory_alone(error: Error) -> Result<(), AllocError>
    ensures { OnOk result (error ≢ Error.OutOfMemory) }
{
    match error {
        Error::OutOfMemory => Err(AllocError),
        _ => Ok(()),
    }
}

/// What the server told of its parameters: the number of its version, and the last value of each other one.
#[derive(Drop)]
pub(crate) struct Parameters {
    version: Option<u32>,
    values: BTreeMap<String, String>,
}

impl Model for Parameters {
    ghost use Rattle.std.specs.Prelude.{map, string_bytes};
    ghost use Rattle.pg_stream.specs.Parameters.{ParametersSeen};

    ghost Value = { ParametersSeen };

    ghost view = { λ p. record { version = p.version; values = map (λ e. (string_bytes e.0, string_bytes e.1)) p.values.entries } };
}

impl Parameters {
    pub(crate) fn new(alloc: Global) -> Self
        ensures { result ≡ no_parameters }
    {
        Parameters {
            version: None,
            values: BTreeMap::new(alloc),
        }
    }

    pub(crate) fn version(&self) -> Option<u32>
        ensures { result ≡ self.now.version }
    {
        self.version
    }

    pub(crate) fn get(&self, name: &str) -> Option<&str>
        ensures { option_map (λ value. value.now) result ≡ value_of name.now self.now }
    {
        match self.values.get(name) {
            Some(value) => Some(value.as_str()),
            None => None,
        }
    }

    // Keeps a value in place of an older one of its name.
    fn set(&mut self, status: ParameterStatus) -> Result<(), AllocError>
        ensures ok { OnOk result (self.new ≡ with_value status.name status.value self.old) }
        ensures err { OnErr result (self.new ≡ self.old) }
    {
        let ParameterStatus { name, value } = status;
        if name.as_str() == "server_version" {
            self.version = parse_server_version(value.as_str());
            return Ok(());
        }
        match self.values.insert(name.into_string(), value.into_string()) {
            Ok(_) => Ok(()),
            Err(_) => Err(AllocError),
        }
    }

    /// Keeps the value that the body of an `S` message tells, all or none of it.
    pub(crate) fn take(&mut self, alloc: Global, body: &[u8]) -> Result<(), Error>
        ensures said { OnOk result (IsSaid (framed 83 body.now)) }
        ensures sets { OnOk result (SetsBy (framed 83 body.now) self.old self.new) }
        ensures refused { IfErr result (λ e. IsRefused 83 body.now e) }
        ensures err { OnErr result (self.new ≡ self.old) }
    {
        let status = decode_parameter_status(alloc, body)?;
        self.set(status)?;
        Ok(())
    }

    /// Keeps the value that a message tells, where it is an `S` message in its format.
    pub(crate) fn note(&mut self, alloc: Global, tag: u8, body: &[u8]) -> Result<(), AllocError>
        ensures sets { OnOk result (SetsBy (framed tag body.now) self.old self.new) }
        ensures err { OnErr result (self.new ≡ self.old) }
    {
        if tag != b'S' {
            return Ok(());
        }
        match self.take(alloc, body) {
            Ok(()) => Ok(()),
            Err(error) => memory_alone(error),
        }
    }
}
