ghost use Rattle.std.specs.Prelude.{◌≡◌, Some, Ok, Err, OnOk, MatchResult};
ghost use Rattle.pg_options.specs.Answering.{Makes};
ghost use Rattle.pg_options.specs.declared.certificate.CertificateInput.TheVariants.{File, Inline};
ghost use Rattle.pg_wire.specs.declared.error.Error.TheVariants.{OutOfMemory};

use super::PgConnectOptions;
use crate::{CertificateInput, PgSslMode};
use pg_wire::{Blob, Error, Text};
use std::alloc::{AllocError, Global};

impl PgConnectOptions {
    // The refusal, for which the options are let go: all others hand them here.
    pub(super) fn refused(self, error: Error) -> Result<Self, Error>
        ensures { result ≡ Err error }
    {
        Err(error)
    }

    // The options, unless memory was refused to what was set.
    pub(super) fn kept(self, set: Result<(), AllocError>) -> Result<Self, Error>
        ensures { MatchResult set (λ _. result ≡ Ok self) (λ _. result ≡ Err OutOfMemory) }
    {
        match set {
            Ok(()) => Ok(self),
            Err(_) => self.refused(Error::OutOfMemory),
        }
    }

    /// Sets the host: a name, an address, or the directory of a local socket where it begins with `/`.
    pub fn host(mut self, host: &str) -> Result<Self, Error>
        ensures { Makes result (record self { host = host.now }) }
    {
        let set = set_text(self.alloc, &mut self.host, host);
        self.kept(set)
    }

    /// Sets the port, of a TCP server or of a local socket's file.
    pub fn port(mut self, port: u16) -> Self
        ensures { result ≡ record self { port = port } }
    {
        self.port = port;
        self
    }

    /// Sets the directory of a local socket, which then stands before the host.
    pub fn socket(mut self, path: &str) -> Result<Self, Error>
        ensures { Makes result (record self { socket = Some path.now }) }
    {
        let set = set_some(self.alloc, &mut self.socket, path);
        self.kept(set)
    }

    /// Sets the user.
    pub fn username(mut self, username: &str) -> Result<Self, Error>
        ensures { Makes result (record self { username = username.now }) }
    {
        let set = set_text(self.alloc, &mut self.username, username);
        self.kept(set)
    }

    /// Sets the password. One that is not set is the empty text where a server asks for it.
    pub fn password(mut self, password: &str) -> Result<Self, Error>
        ensures { Makes result (record self { password = Some password.now }) }
    {
        let set = set_some(self.alloc, &mut self.password, password);
        self.kept(set)
    }

    /// Sets the database. Where none is set the server takes the one that is named like the user.
    pub fn database(mut self, database: &str) -> Result<Self, Error>
        ensures { Makes result (record self { database = Some database.now }) }
    {
        let set = set_some(self.alloc, &mut self.database, database);
        self.kept(set)
    }

    /// Sets whether TLS is asked for, and what it must verify.
    pub fn ssl_mode(mut self, mode: PgSslMode) -> Self
        ensures { result ≡ record self { ssl_mode = mode } }
    {
        self.ssl_mode = mode;
        self
    }

    /// Sets the file of the root certificate.
    pub fn ssl_root_cert(mut self, path: &str) -> Result<Self, Error>
        ensures { Makes result (record self { ssl_root_cert = Some (File path.now) }) }
    {
        let set = set_file(self.alloc, &mut self.ssl_root_cert, path);
        self.kept(set)
    }

    /// Sets the root certificate itself, without taking memory.
    pub fn ssl_root_cert_from_pem(mut self, pem: Vec<u8>) -> Result<Self, Error>
        ensures { Makes result (record self { ssl_root_cert = Some (Inline pem.items) }) }
    {
        self.ssl_root_cert = Some(CertificateInput::Inline(Blob::from_vec(pem)));
        Ok(self)
    }

    /// Sets the file of the client's certificate.
    pub fn ssl_client_cert(mut self, path: &str) -> Result<Self, Error>
        ensures { Makes result (record self { ssl_client_cert = Some (File path.now) }) }
    {
        let set = set_file(self.alloc, &mut self.ssl_client_cert, path);
        self.kept(set)
    }

    /// Sets the client's certificate itself.
    pub fn ssl_client_cert_from_pem(mut self, pem: &[u8]) -> Result<Self, Error>
        ensures { Makes result (record self { ssl_client_cert = Some (Inline pem.now) }) }
    {
        let set = set_inline(self.alloc, &mut self.ssl_client_cert, pem);
        self.kept(set)
    }

    /// Sets the file of the client's key.
    pub fn ssl_client_key(mut self, path: &str) -> Result<Self, Error>
        ensures { Makes result (record self { ssl_client_key = Some (File path.now) }) }
    {
        let set = set_file(self.alloc, &mut self.ssl_client_key, path);
        self.kept(set)
    }

    /// Sets the client's key itself.
    pub fn ssl_client_key_from_pem(mut self, pem: &[u8]) -> Result<Self, Error>
        ensures { Makes result (record self { ssl_client_key = Some (Inline pem.now) }) }
    {
        let set = set_inline(self.alloc, &mut self.ssl_client_key, pem);
        self.kept(set)
    }

    /// Sets how many prepared statements a connection keeps; none at 0.
    pub fn statement_cache_capacity(mut self, capacity: usize) -> Self
        ensures { result ≡ record self { statement_cache_capacity = capacity } }
    {
        self.statement_cache_capacity = capacity;
        self
    }

    /// Sets the name that the server shows of this session.
    pub fn application_name(mut self, name: &str) -> Result<Self, Error>
        ensures { Makes result (record self { application_name = Some name.now }) }
    {
        let set = set_some(self.alloc, &mut self.application_name, name);
        self.kept(set)
    }

    /// Sets how many more digits of floats the server writes, or leaves that to the server.
    pub fn extra_float_digits(mut self, digits: Option<i8>) -> Self
        ensures { result ≡ record self { extra_float_digits = digits } }
    {
        self.extra_float_digits = digits;
        self
    }
}

pub(super) fn set_text(alloc: Global, slot: &mut Text, text: &str) -> Result<(), AllocError>
    ensures { OnOk result (slot.new ≡ text.now) }
{
    *slot = Text::from_str(alloc, text)?;
    Ok(())
}

fn set_some(alloc: Global, slot: &mut Option<Text>, text: &str) -> Result<(), AllocError>
    ensures { OnOk result (slot.new ≡ Some text.now) }
{
    *slot = Some(Text::from_str(alloc, text)?);
    Ok(())
}

fn set_file(
    alloc: Global,
    slot: &mut Option<CertificateInput>,
    path: &str,
) -> Result<(), AllocError>
    ensures { OnOk result (slot.new ≡ Some (File path.now)) }
{
    let path = Text::from_str(alloc, path)?;
    *slot = Some(CertificateInput::File(path));
    Ok(())
}

fn set_inline(
    alloc: Global,
    slot: &mut Option<CertificateInput>,
    pem: &[u8],
) -> Result<(), AllocError>
    ensures { OnOk result (slot.new ≡ Some (Inline pem.now)) }
{
    let pem = Blob::from_slice(alloc, pem)?;
    *slot = Some(CertificateInput::Inline(pem));
    Ok(())
}
