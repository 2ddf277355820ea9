ghost use Rattle.std.specs.Prelude.{◌≡◌, option_map, option_copied};

use super::PgConnectOptions;
use crate::{CertificateInput, PgSslMode};
use pg_wire::Text;

impl PgConnectOptions {
    /// The host, as it stands in a URL or was set: perhaps the directory of a local socket.
    pub fn get_host(&self) -> &str
        ensures { result.now ≡ self.now.host }
    {
        self.host.as_str()
    }

    /// The port, also where it is a part of a local socket's file name.
    pub fn get_port(&self) -> u16
        ensures { result ≡ self.now.port }
    {
        self.port
    }

    /// The directory of a local socket that stands before the host.
    pub fn get_socket(&self) -> Option<&str>
        ensures { option_map (λ t. t.now) result ≡ self.now.socket }
    {
        shown(&self.socket)
    }

    /// The user.
    pub fn get_username(&self) -> &str
        ensures { result.now ≡ self.now.username }
    {
        self.username.as_str()
    }

    /// The password, for what proves it to a server.
    pub fn get_password(&self) -> Option<&str>
        ensures { option_map (λ t. t.now) result ≡ self.now.password }
    {
        shown(&self.password)
    }

    /// The database, if one is named.
    pub fn get_database(&self) -> Option<&str>
        ensures { option_map (λ t. t.now) result ≡ self.now.database }
    {
        shown(&self.database)
    }

    /// Whether TLS is asked for, and what it must verify.
    pub fn get_ssl_mode(&self) -> PgSslMode
        ensures { result ≡ self.now.ssl_mode }
    {
        self.ssl_mode
    }

    /// The root certificate, as a file or itself.
    pub fn get_ssl_root_cert(&self) -> Option<&CertificateInput>
        ensures { option_copied result ≡ self.now.ssl_root_cert }
    {
        self.ssl_root_cert.as_ref()
    }

    /// The client's certificate, as a file or itself.
    pub fn get_ssl_client_cert(&self) -> Option<&CertificateInput>
        ensures { option_copied result ≡ self.now.ssl_client_cert }
    {
        self.ssl_client_cert.as_ref()
    }

    /// The client's key, as a file or itself.
    pub fn get_ssl_client_key(&self) -> Option<&CertificateInput>
        ensures { option_copied result ≡ self.now.ssl_client_key }
    {
        self.ssl_client_key.as_ref()
    }

    /// How many prepared statements a connection keeps.
    pub fn get_cache_capacity(&self) -> usize
        ensures { result ≡ self.now.statement_cache_capacity }
    {
        self.statement_cache_capacity
    }

    /// The name that the server shows of this session.
    pub fn get_application_name(&self) -> Option<&str>
        ensures { option_map (λ t. t.now) result ≡ self.now.application_name }
    {
        shown(&self.application_name)
    }

    /// How many more digits of floats the server writes; unset where that is left to the server.
    pub fn get_extra_float_digits(&self) -> Option<i8>
        ensures { result ≡ self.now.extra_float_digits }
    {
        self.extra_float_digits
    }

    /// The command-line options that the server is told, in one text.
    pub fn get_options(&self) -> Option<&str>
        ensures { option_map (λ t. t.now) result ≡ self.now.options }
    {
        shown(&self.options)
    }
}

// A text that is set, as it is shown.
fn shown(text: &Option<Text>) -> Option<&str>
    ensures { option_map (λ t. t.now) result ≡ text.now }
{
    match text {
        Some(text) => Some(text.as_str()),
        None => None,
    }
}
