//! What a connection is opened for.

ghost use Rattle.std.specs.Prelude.{IfOk, IfErr};
ghost use Rattle.pg_migrating.specs.Errands.{IsErrand, RefusesErrand};

use crate::database_requests::request;
use crate::demand::Demand;
use crate::names::{database_of, maintenance};
use pg_options::PgConnectOptions;
use pg_wire::Error;
use std::alloc::Global;

/// What is to be done with a database, or asked before.
#[derive(Clone, Copy)]
pub(crate) enum Task {
    Create,
    Exists,
    Version,
    Remove,
}

/// Where a session is opened, and what is asked there.
#[derive(Drop)]
pub struct Errand {
    pub(crate) options: PgConnectOptions,
    pub(crate) request: Demand,
}

/// The errand of a task on the database that the options name.
pub(crate) fn errand_at(
    alloc: Global,
    task: Task,
    options: &PgConnectOptions,
) -> Result<Errand, Error>
    ensures ok { IfOk result (IsErrand task options.now) }
    ensures err { IfErr result (RefusesErrand task options.now) }
{
    let request = match request(alloc, task, database_of(options)) {
        Ok(request) => request,
        Err(e) => return Err(e),
    };
    match maintenance(options) {
        Ok(options) => Ok(Errand { options, request }),
        Err(e) => {
            drop(request);
            Err(e)
        }
    }
}
