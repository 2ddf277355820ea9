//! Which database is meant, and which one is connected to in the meantime.

ghost use Rattle.std.specs.Prelude.{◌≡◌};
ghost use Rattle.pg_options.specs.Answering.{Makes};
ghost use Rattle.pg_migrating.specs.Names.{database_of, maintenance, maintenance_name};

use pg_options::PgConnectOptions;
use pg_wire::Error;

/// The database that options name: where they name none, the one that is named like the user.
pub(crate) fn database_of(options: &PgConnectOptions) -> &str
    ensures { result.now ≡ database_of options.now }
{
    match options.get_database() {
        Some(database) => database,
        None => options.get_username(),
    }
}

// What is connected to while this database is made or dropped.
fn maintenance_name(database: &str) -> &'static str
    ensures { result.now ≡ maintenance_name database.now }
{
    if database == "postgres" {
        "template1"
    } else {
        "postgres"
    }
}

/// The same options, but for the database: it is one that the other's call can be made from.
pub(crate) fn maintenance(options: &PgConnectOptions) -> Result<PgConnectOptions, Error>
    ensures { Makes result (maintenance options.now) }
{
    let name = maintenance_name(database_of(options));
    match options.clone() {
        Ok(options) => options.database(name),
        Err(e) => Err(e),
    }
}
