//! What is asked of a server about a database.

ghost use Rattle.pg_call.specs.declared.kind.How.TheVariants as hows;
ghost use Rattle.pg_migrate.specs.Orders.{Script};
ghost use Rattle.pg_migrate.specs.Texts.{terminate_text};
ghost use Rattle.pg_migrating.specs.Requests.{IsRequestOf};
ghost use Rattle.pg_migrating.specs.Errands.{how_of, statement_of};

use crate::binding::{TEXT, bind, none};
use crate::demand::{Demand, Wish};
use crate::errand::Task;
use crate::requests::{named_script, prepared};
use crate::texts::Wording;
use pg_call::How;
use pg_migrate::{database_exists_text, put_terminate, version_text};
use pg_request::Query;
use pg_wire::{Error, Text};
use std::alloc::Global;

/// The request of a task on this database.
pub(crate) fn request(alloc: Global, task: Task, database: &str) -> Result<Demand, Error>
    ensures { IsRequestOf (how_of task) 0 (statement_of task database.now) result }
{
    match task {
        Task::Create => named_script(alloc, Wording::CreateDatabase, database),
        Task::Exists => {
            let name = bind(alloc, none(alloc), TEXT, database.as_bytes());
            prepared(alloc, How::FetchOne, database_exists_text(), name)
        }
        Task::Version => prepared(alloc, How::FetchOne, version_text(), none(alloc)),
        Task::Remove => named_script(alloc, Wording::DropDatabase, database),
    }
}

/// What ends all other sessions on a database, at a server of this version.
pub(crate) fn terminate(alloc: Global, version: u32, database: &str) -> Result<Demand, Error>
    ensures { IsRequestOf hows.Execute 0 (Script (terminate_text version database.now)) result }
{
    let mut sql = String::new(alloc);
    match put_terminate(&mut sql, version, database) {
        Ok(()) => Ok(Demand {
            of: Wish::Query(How::Execute, Query::from_text(Text::from_string(sql))),
        }),
        Err(_) => Err(Error::OutOfMemory),
    }
}
