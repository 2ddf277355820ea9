//! The calls on databases.

ghost use Rattle.std.specs.Prelude.{◌≡◌};
ghost use Rattle.pg_call.specs.declared.kind.How.TheVariants as hows;
ghost use Rattle.pg_call.specs.declared.kind.Kind.TheVariants as kinds;
ghost use Rattle.pg_migrating.specs.Databases.{AsksFor};
ghost use Rattle.pg_migrating.specs.Errands.{how_of};
ghost use Rattle.pg_migrating.specs.Sessions.{Goes};
ghost use Rattle.pg_migrating.specs.declared.errand.Task.TheVariants as tasks;

use crate::errand::{Task, errand_at};
use crate::opening::Sessions;
use crate::session::{SessionOf, session_for};
use crate::{DatabaseCall, DatabaseExists, DatabaseStatement};
use pg_options::{PgConnectOptions, PgSettings};
use std::alloc::Global;
use std::marker::PhantomData;

/// The calls on the database that a URL names, over settings of the surroundings: each is a state over a dial, which is polled. It connects to another
/// database of the same server, `postgres`, or `template1` where the database is `postgres` itself. A URL that can't be read is told by the first poll.
#[derive(Clone, Copy)]
pub struct MigrateDatabase;

// A session for a task on the database that a URL names.
fn session_at<D: Sessions>(alloc: Global, env: &PgSettings, url: &str, task: Task) -> SessionOf<D>
    ensures asks { AsksFor D.opens task env.now url.now result }
    ensures goes { Goes D.opens (kinds.Run (how_of task)) result }
{
    match PgConnectOptions::from_str(alloc, env, url) {
        Ok(options) => {
            let errand = errand_at(alloc, task, &options);
            drop(options);
            session_for::<D>(errand)
        }
        Err(e) => session_for::<D>(Err(e)),
    }
}

impl MigrateDatabase {
    /// Makes the database. (PostgreSQL manual, "SQL Commands", CREATE DATABASE.)
    pub fn create_database<'d, D: Sessions>(
        alloc: Global,
        env: &PgSettings,
        url: &str,
        dial: &'d mut D,
    ) -> DatabaseStatement<'d, D>
        ensures dial { result.dial.now ≡ dial.old }
        ensures same { result.dial.ghost_name ≡ dial.entry.ghost_name }
        ensures asks { AsksFor D.opens tasks.Create env.now url.now result.session }
        ensures goes { Goes D.opens (kinds.Run hows.Execute) result.session }
    {
        DatabaseCall {
            alloc,
            dial,
            session: session_at::<D>(alloc, env, url, Task::Create),
            reading: PhantomData,
        }
    }

    /// Asks whether there is the database. (PostgreSQL manual, "System Catalogs", pg_database.)
    pub fn database_exists<'d, D: Sessions>(
        alloc: Global,
        env: &PgSettings,
        url: &str,
        dial: &'d mut D,
    ) -> DatabaseExists<'d, D>
        ensures dial { result.dial.now ≡ dial.old }
        ensures same { result.dial.ghost_name ≡ dial.entry.ghost_name }
        ensures asks { AsksFor D.opens tasks.Exists env.now url.now result.session }
        ensures goes { Goes D.opens (kinds.Run hows.FetchOne) result.session }
    {
        DatabaseCall {
            alloc,
            dial,
            session: session_at::<D>(alloc, env, url, Task::Exists),
            reading: PhantomData,
        }
    }

    /// Drops the database, if it is there. (PostgreSQL manual, "SQL Commands", DROP DATABASE.)
    pub fn drop_database<'d, D: Sessions>(
        alloc: Global,
        env: &PgSettings,
        url: &str,
        dial: &'d mut D,
    ) -> DatabaseStatement<'d, D>
        ensures dial { result.dial.now ≡ dial.old }
        ensures same { result.dial.ghost_name ≡ dial.entry.ghost_name }
        ensures asks { AsksFor D.opens tasks.Remove env.now url.now result.session }
        ensures goes { Goes D.opens (kinds.Run hows.Execute) result.session }
    {
        DatabaseCall {
            alloc,
            dial,
            session: session_at::<D>(alloc, env, url, Task::Remove),
            reading: PhantomData,
        }
    }
}
