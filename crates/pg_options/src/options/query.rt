ghost use Rattle.std.specs.Prelude.{◌≡◌, Some, Err, IfOk, OnOk, OnErr, option_copied, if◌then◌else◌};
ghost use Rattle.std.specs.Cow.{cow_str_bytes};
ghost use Rattle.pg_wire.specs.declared.error.Error.TheVariants.{OutOfMemory, Configuration};
ghost use Rattle.pg_options.specs.Answering.{Makes, Gives};
ghost use Rattle.pg_options.specs.FromUrl.{query_pairs, key_taken, pair_taken, pairs_taken, parameter_taken, options_more};
ghost use Rattle.pg_options.specs.UrlTexts.{begins_path};

use super::PgConnectOptions;
use crate::PgSslMode;
use crate::numbers::{read_capacity, read_port};
use crate::url_key::UrlKey;
use crate::url_text::{begins_path, bracketed, is_host_addr};
use pg_wire::{ConfigPart, Error, Text};
use std::alloc::{AllocError, Global};
use std::borrow::CowStr;
use url::Url;

impl PgConnectOptions {
    // The options after the pairs of a URL's query, in order.
    pub(super) fn take_query(self, url: &Url) -> Result<Self, Error>
        ensures { Gives result (pairs_taken self 0 (query_pairs url.now)) }
    {
        let mut options = self;
        let mut place = 0;
        for pair in url.query_pairs() {
            options = options.take_next(place, pair)?;
            place += 1;
        }
        Ok(options)
    }

    // The same of one pair, unless memory was refused to it.
    fn take_next(
        self,
        place: usize,
        pair: Result<(CowStr<'_>, CowStr<'_>), AllocError>,
    ) -> Result<Self, Error>
        ensures ok { IfOk pair.entry (λ (key, value). Gives result (pair_taken self place (cow_str_bytes key, cow_str_bytes value))) }
        ensures err { OnErr pair.entry (result ≡ Err OutOfMemory) }
    {
        match pair {
            Ok((key, value)) => self.take_pair(place, key.as_str(), value.as_str()),
            Err(_) => self.refused(Error::OutOfMemory),
        }
    }

    // A value that its key cannot have.
    fn refused_at(self, part: ConfigPart, place: usize) -> Result<Self, Error>
        ensures { result ≡ Err (Configuration part place) }
    {
        self.refused(Error::Configuration { part, place })
    }

    fn take_pair(self, place: usize, key: &str, value: &str) -> Result<Self, Error>
        ensures { Gives result (pair_taken self place (key.now, value.now)) }
    {
        match UrlKey::of(key) {
            Some(known) => self.take_value(place, known, value),
            None => self.take_parameter(bracketed(key), value),
        }
    }

    fn take_value(self, place: usize, key: UrlKey, value: &str) -> Result<Self, Error>
        ensures { Gives result (key_taken self place value.now key) }
    {
        match key {
            UrlKey::SslMode => self.take_ssl_mode(place, value),
            UrlKey::SslRootCert => self.ssl_root_cert(value),
            UrlKey::SslClientCert => self.ssl_client_cert(value),
            UrlKey::SslClientKey => self.ssl_client_key(value),
            UrlKey::CacheCapacity => self.take_capacity(place, value),
            UrlKey::Host => self.take_host_or_socket(value),
            UrlKey::HostAddr => self.take_host_addr(place, value),
            UrlKey::Port => self.take_port_text(place, value),
            UrlKey::Database => self.database(value),
            UrlKey::User => self.username(value),
            UrlKey::Password => self.password(value),
            UrlKey::ApplicationName => self.application_name(value),
            UrlKey::Options => self.take_more_options(value),
        }
    }

    fn take_ssl_mode(self, place: usize, value: &str) -> Result<Self, Error>
        ensures { Gives result (key_taken self place value.now UrlKey.SslMode) }
    {
        match PgSslMode::from_name(value) {
            Some(mode) => Ok(self.ssl_mode(mode)),
            None => self.refused_at(ConfigPart::SslMode, place),
        }
    }

    fn take_capacity(self, place: usize, value: &str) -> Result<Self, Error>
        ensures { Gives result (key_taken self place value.now UrlKey.CacheCapacity) }
    {
        match read_capacity(value) {
            Some(capacity) => Ok(self.statement_cache_capacity(capacity)),
            None => self.refused_at(ConfigPart::CacheCapacity, place),
        }
    }

    fn take_port_text(self, place: usize, value: &str) -> Result<Self, Error>
        ensures { Gives result (key_taken self place value.now UrlKey.Port) }
    {
        match read_port(value) {
            Some(port) => Ok(self.port(port)),
            None => self.refused_at(ConfigPart::Port, place),
        }
    }

    fn take_host_or_socket(self, value: &str) -> Result<Self, Error>
        ensures { Makes result (if begins_path value.now then record self { socket = Some value.now } else record self { host = value.now }) }
    {
        if begins_path(value) {
            self.socket(value)
        } else {
            self.host(value)
        }
    }

    fn take_host_addr(self, place: usize, value: &str) -> Result<Self, Error>
        ensures { Gives result (key_taken self place value.now UrlKey.HostAddr) }
    {
        match is_host_addr(self.alloc, value) {
            Ok(true) => self.host(value),
            Ok(false) => self.refused_at(ConfigPart::HostAddr, place),
            Err(error) => self.refused(error),
        }
    }

    fn take_more_options(mut self, value: &str) -> Result<Self, Error>
        ensures { Makes result (record self { options = Some (options_more self.options value.now) }) }
    {
        let set = add_more(self.alloc, &mut self.options, value);
        self.kept(set)
    }

    // A parameter of the session, where the key named one.
    fn take_parameter(self, name: Option<&str>, value: &str) -> Result<Self, Error>
        ensures { Makes result (parameter_taken self value.now (option_copied name.entry)) }
    {
        match name {
            Some(name) => self.option(name, value),
            None => Ok(self),
        }
    }
}

fn add_more(alloc: Global, options: &mut Option<Text>, more: &str) -> Result<(), AllocError>
    ensures { OnOk result (options.new ≡ Some (options_more options.old more.now)) }
{
    let text = match options.take() {
        Some(set) => with_more(set, more)?,
        None => Text::from_str(alloc, more)?,
    };
    *options = Some(text);
    Ok(())
}

// The text with a space and another one behind it.
fn with_more(set: Text, more: &str) -> Result<Text, AllocError>
    ensures { IfOk result (λ t. t ≡ options_more (Some set) more.now) }
{
    let mut text = set.into_string();
    text.push(' ')?;
    text.push_str(more)?;
    Ok(Text::from_string(text))
}
