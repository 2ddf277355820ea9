ghost use Rattle.std.specs.Prelude.{◌≡◌, IfOk, string_bytes, option_copied};
ghost use Rattle.std.specs.Cow.{cow_str_bytes};
ghost use Rattle.pg_options.specs.Answering.{Makes, Gives};
ghost use Rattle.pg_options.specs.ToUrl.{encoded, host_part, address, with_password, with_path, with_pair, with_certificate, with_certificates, with_query, url_of_options};

use super::PgConnectOptions;
use crate::CertificateInput;
use crate::url_text::read_url;
use percent_encoding::{NON_ALPHANUMERIC, utf8_percent_encode};
use pg_wire::{ConfigPart, Error};
use std::alloc::{AllocError, Global};
use std::borrow::CowStr;
use url::{ParseError, Url};

impl PgConnectOptions {
    /// The URL of the options: user, host or socket, port, password, database, and in its query the TLS mode, certificates and cache capacity.
    /// `Configuration` with part `Url` where the parser refuses its address, or where it can have no password.
    ///
    /// A certificate's file is written as its path, and one that is held as its text.
    pub fn build_url(&self, alloc: Global) -> Result<Url, Error>
        ensures { Gives result (url_of_options self.now) }
    {
        let host = self.host_part(alloc)?;
        let address = address(alloc, self.get_username(), host.as_str(), self.port)?;
        let bare = read_url(alloc, address.as_str())?;
        let url = with_password(alloc, bare, self.get_password())?;
        let with_path = with_path(url, self.get_database())?;
        self.with_query(alloc, with_path)
    }

    /// The same call as `build_url`: what a URL cannot say of the options is left out.
    pub fn to_url_lossy(&self, alloc: Global) -> Result<Url, Error>
        ensures { Gives result (url_of_options self.now) }
    {
        self.build_url(alloc)
    }

    fn host_part(&self, alloc: Global) -> Result<String, AllocError>
        ensures { IfOk result (λ t. string_bytes t ≡ host_part self.now.socket self.now.host) }
    {
        match &self.socket {
            Some(path) => encoded(alloc, path.as_str())?.into_owned(alloc),
            None => String::from_str(alloc, self.host.as_str()),
        }
    }

    fn with_query(&self, alloc: Global, url: Url) -> Result<Url, Error>
        ensures { Makes result (with_query url self.now) }
    {
        let with_mode = with_pair(url, "sslmode", self.get_ssl_mode().name())?;
        let with_certificates = self.with_certificates(alloc, with_mode)?;
        let capacity = format!(in alloc; "{}", self.get_cache_capacity())?;
        with_pair(
            with_certificates,
            "statement-cache-capacity",
            capacity.as_str(),
        )
    }

    fn with_certificates(&self, alloc: Global, url: Url) -> Result<Url, Error>
        ensures { Makes result (with_certificates url self.now) }
    {
        let root = self.get_ssl_root_cert();
        let with_root = with_certificate(alloc, url, "sslrootcert", root)?;
        let client = self.get_ssl_client_cert();
        let with_client = with_certificate(alloc, with_root, "sslcert", client)?;
        with_certificate(alloc, with_client, "sslkey", self.get_ssl_client_key())
    }
}

// All but letters and digits percent-encoded.
fn encoded(alloc: Global, text: &str) -> Result<CowStr<'_>, AllocError>
    ensures { IfOk result (λ t. cow_str_bytes t ≡ encoded text.now) }
{
    utf8_percent_encode(text, NON_ALPHANUMERIC).into_cow(alloc)
}

#[tactic(auto, unfolding(crate::specs::ToUrl::address))]
fn address(alloc: Global, user: &str, host: &str, port: u16) -> Result<String, AllocError>
    ensures { IfOk result (λ t. string_bytes t ≡ address user.now host.now port) }
{
    let address = format!(in alloc; "postgres://{user}@{host}:{port}")?;
    Ok(address)
}

fn with_password(alloc: Global, mut url: Url, password: Option<&str>) -> Result<Url, Error>
    ensures { Gives result (with_password url (option_copied password.entry)) }
{
    let Some(password) = password else {
        return Ok(url);
    };
    let password = encoded(alloc, password)?;
    match url.set_password(Some(password.as_str())) {
        Ok(()) => Ok(url),
        Err(ParseError::OutOfMemory | ParseError::Overflow) => Err(Error::OutOfMemory),
        Err(_) => Err(Error::Configuration {
            part: ConfigPart::Url,
            place: 0,
        }),
    }
}

fn with_path(mut url: Url, database: Option<&str>) -> Result<Url, Error>
    ensures { Makes result (with_path url (option_copied database.entry)) }
{
    let Some(database) = database else {
        return Ok(url);
    };
    match url.set_path(database) {
        Ok(()) => Ok(url),
        Err(_) => Err(Error::OutOfMemory),
    }
}

fn with_pair(mut url: Url, key: &str, value: &str) -> Result<Url, Error>
    ensures { Makes result (with_pair url key.now value.now) }
{
    match url.append_query_pairs(&[(key, value)]) {
        Ok(()) => Ok(url),
        Err(_) => Err(Error::OutOfMemory),
    }
}

fn with_certificate(
    alloc: Global,
    url: Url,
    key: &str,
    input: Option<&CertificateInput>,
) -> Result<Url, Error>
    ensures { Makes result (with_certificate url key.now (option_copied input.entry)) }
{
    match input {
        Some(CertificateInput::File(path)) => with_pair(url, key, path.as_str()),
        Some(CertificateInput::Inline(bytes)) => {
            let text = String::from_utf8_lossy(alloc, bytes.as_bytes())?;
            with_pair(url, key, text.as_str())
        }
        None => Ok(url),
    }
}
