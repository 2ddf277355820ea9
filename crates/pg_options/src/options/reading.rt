ghost use Rattle.std.specs.Prelude.{◌≡◌, option_copied};
ghost use Rattle.pg_options.specs.Answering.{Gives};
ghost use Rattle.pg_options.specs.FromUrl.{host_taken, port_taken, user_taken, password_taken, credentials_taken, database_taken, options_of_url, options_of_text};
ghost use Rattle.pg_options.specs.UrlTexts.{without_slashes};

use super::PgConnectOptions;
use crate::PgSettings;
use crate::url_text::{read_part, read_url, stands_for_path, without_slashes};
use pg_wire::Error;
use std::alloc::Global;
use url::Url;

impl PgConnectOptions {
    /// The options of a URL's text: `Configuration` with part `Url` where the URL Standard's parser refuses it, else see `from_url`.
    pub fn from_str(alloc: Global, env: &PgSettings, url: &str) -> Result<Self, Error>
        ensures { Gives result (options_of_text env.now url.now) }
    {
        let url = read_url(alloc, url)?;
        PgConnectOptions::from_url(alloc, env, &url)
    }

    /// The options of a URL over those of the settings (PostgreSQL manual, "libpq", "Connection URIs").
    ///
    /// A host that stands for a path, percent-encoded, is a socket's directory. An unknown key of the query is passed over.
    /// What is refused is `Configuration`: part `Utf8` for a host, user, password or database that is no UTF-8; else the part is that of the
    /// key and the place is the pair's in the query, from 0.
    pub fn from_url(alloc: Global, env: &PgSettings, url: &Url) -> Result<Self, Error>
        ensures { Gives result (options_of_url env.now url.now) }
    {
        let settled = PgConnectOptions::new_without_pgpass(alloc, env)?;
        let with_host = settled.take_host(url.host_str())?;
        let with_credentials = with_host.take_port(url.port()).take_credentials(url)?;
        let with_database = with_credentials.take_database(url.path())?;
        with_database.take_query(url)
    }

    fn take_host(self, host: Option<&str>) -> Result<Self, Error>
        ensures { Gives result (host_taken self (option_copied host.entry)) }
    {
        let Some(host) = host else {
            return Ok(self);
        };
        if stands_for_path(host) {
            match read_part(self.alloc, host.as_bytes()) {
                Ok(path) => self.socket(path.as_str()),
                Err(error) => self.refused(error),
            }
        } else {
            self.host(host)
        }
    }

    fn take_port(self, port: Option<u16>) -> Self
        ensures { result ≡ port_taken self port }
    {
        match port {
            Some(port) => self.port(port),
            None => self,
        }
    }

    fn take_user(self, part: &str) -> Result<Self, Error>
        ensures { Gives result (user_taken self part.now) }
    {
        if part.is_empty() {
            return Ok(self);
        }
        match read_part(self.alloc, part.as_bytes()) {
            Ok(user) => self.username(user.as_str()),
            Err(error) => self.refused(error),
        }
    }

    fn take_password(self, part: &str) -> Result<Self, Error>
        ensures { Gives result (password_taken self part.now) }
    {
        if part.is_empty() {
            return Ok(self);
        }
        match read_part(self.alloc, part.as_bytes()) {
            Ok(password) => self.password(password.as_str()),
            Err(error) => self.refused(error),
        }
    }

    fn take_credentials(self, url: &Url) -> Result<Self, Error>
        ensures { Gives result (credentials_taken self url.now) }
    {
        let with_user = self.take_user(url.username())?;
        with_user.take_password(password_part(url))
    }

    fn take_database(self, path: &str) -> Result<Self, Error>
        ensures { Gives result (database_taken self (without_slashes path.now)) }
    {
        let part = without_slashes(path.as_bytes());
        if part.is_empty() {
            return Ok(self);
        }
        match read_part(self.alloc, part) {
            Ok(database) => self.database(database.as_str()),
            Err(error) => self.refused(error),
        }
    }
}

// The password of a URL, percent-encoded, which is empty where there is none.
fn password_part(url: &Url) -> &str
    ensures { result.now ≡ url.now.password }
{
    url.password().unwrap_or("")
}
