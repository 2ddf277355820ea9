ghost use Rattle.std.specs.Prelude.{◌≡◌};
ghost use Rattle.pg_options.specs.Options.{no_settings};

use pg_wire::Text;

/// Settings of the surroundings, as a caller reads them from environment variables: each may be unset.
/// (PostgreSQL manual, "libpq", "Environment Variables".)
#[derive(Debug)]
pub struct PgSettings {
    /// `PGHOSTADDR`.
    pub host_addr: Option<Text>,
    /// `PGHOST`.
    pub host: Option<Text>,
    /// `PGPORT`.
    pub port: Option<Text>,
    /// `PGUSER`.
    pub user: Option<Text>,
    /// The name of the user that runs the program.
    pub system_user: Option<Text>,
    /// `PGPASSWORD`.
    pub password: Option<Text>,
    /// `PGDATABASE`.
    pub database: Option<Text>,
    /// `PGSSLROOTCERT`.
    pub ssl_root_cert: Option<Text>,
    /// `PGSSLCERT`.
    pub ssl_cert: Option<Text>,
    /// `PGSSLKEY`.
    pub ssl_key: Option<Text>,
    /// `PGSSLMODE`.
    pub ssl_mode: Option<Text>,
    /// `PGAPPNAME`.
    pub app_name: Option<Text>,
    /// `PGOPTIONS`.
    pub options: Option<Text>,
    /// The host where none is named, such as the directory of a local socket.
    pub default_host: Option<Text>,
}

impl PgSettings {
    /// Nothing is set.
    pub fn empty() -> Self
        ensures { result ≡ no_settings }
    {
        PgSettings {
            host_addr: None,
            host: None,
            port: None,
            user: None,
            system_user: None,
            password: None,
            database: None,
            ssl_root_cert: None,
            ssl_cert: None,
            ssl_key: None,
            ssl_mode: None,
            app_name: None,
            options: None,
            default_host: None,
        }
    }
}

// By hand, so that whoever lets one go makes one call, and doesn't go through its parts.
impl Drop for PgSettings {
    fn drop(self) {
        let PgSettings {
            host_addr: _,
            host: _,
            port: _,
            user: _,
            system_user: _,
            password: _,
            database: _,
            ssl_root_cert: _,
            ssl_cert: _,
            ssl_key: _,
            ssl_mode: _,
            app_name: _,
            options: _,
            default_host: _,
        } = self;
    }
}
