//! Which step of a migration comes behind which.

ghost use Rattle.std.specs.Prelude.{◌≡◌};
ghost use Rattle.pg_call.specs.declared.kind.How.TheVariants as hows;
ghost use Rattle.pg_migrating.specs.Courses.{ends_work, first_step, is_open_at, next_step, statement_at};
ghost use Rattle.pg_migrating.specs.Requests.{IsRequestOf};

use crate::binding::{INT8, bind, none, version_of};
use crate::demand::{Demand, Wish};
use crate::requests::{insert_row, named, script};
use crate::texts::Wording;
use pg_call::How;
use pg_migrate::{Migration, as_int8};
use pg_wire::Error;
use std::alloc::Global;
use std::marker::Model;

/// What a migration is run for.
#[derive(Clone, Copy)]
pub(crate) enum Way {
    Apply,
    Revert,
}

/// A statement of a migration.
#[derive(Clone, Copy)]
pub(crate) enum Step {
    Begin,
    Script,
    Row,
    Commit,
    Time,
}

/// How far a migration has come: the step that is asked, whether a transaction is to be rolled back where that is given up, when it began, and how
/// long its work took, both in nanoseconds.
#[derive(Clone, Copy)]
pub(crate) struct Course {
    pub(crate) step: Step,
    pub(crate) is_open: bool,
    pub(crate) start: u64,
    pub(crate) nanos: u64,
}

/// What is to be done.
pub(crate) struct Work<'m> {
    pub(crate) way: Way,
    pub(crate) table: &'m str,
    pub(crate) migration: &'m Migration,
}

impl<'m> Model for Work<'m> {
    ghost use Rattle.pg_migrating.specs.Courses.{WorkSeen};

    ghost Value = { WorkSeen };

    ghost view = { λ w. record { way = w.way; table = w.table.now; migration = w.migration.now } };
}

impl Work<'_> {
    pub(crate) fn first_step(&self) -> Step
        ensures { result ≡ first_step self.now.migration.no_tx }
    {
        if self.migration.no_tx {
            Step::Script
        } else {
            Step::Begin
        }
    }

    /// The step behind this one.
    pub(crate) fn next_step(&self, step: Step) -> Option<Step>
        ensures { result ≡ next_step self.now.way self.now.migration.no_tx step }
    {
        match step {
            Step::Begin => Some(Step::Script),
            Step::Script => Some(Step::Row),
            Step::Row if !self.migration.no_tx => Some(Step::Commit),
            Step::Row | Step::Commit => match self.way {
                Way::Apply => Some(Step::Time),
                Way::Revert => None,
            },
            Step::Time => None,
        }
    }

    /// Whether it is the last step whose time is taken.
    pub(crate) fn ends_work(&self, step: Step) -> bool
        ensures { result ≡ ends_work self.now.migration.no_tx step }
    {
        match step {
            Step::Row => self.migration.no_tx,
            Step::Commit => true,
            Step::Begin | Step::Script | Step::Time => false,
        }
    }

    /// Whether a transaction is open while this step is asked.
    pub(crate) fn is_open_at(&self, step: Step) -> bool
        ensures { result ≡ is_open_at self.now.migration.no_tx step }
    {
        match step {
            Step::Script | Step::Row | Step::Commit => !self.migration.no_tx,
            Step::Begin | Step::Time => false,
        }
    }

    /// What asks a step, where so many transactions and savepoints are open.
    pub(crate) fn request(
        &self,
        alloc: Global,
        step: Step,
        depth: u64,
        nanos: u64,
    ) -> Result<Demand, Error>
        ensures { IsRequestOf hows.Execute depth (statement_at self.now nanos step) result }
    {
        let version = version_of(self.migration).to_be_bytes();
        match step {
            Step::Begin => Ok(Demand {
                of: Wish::Begin(depth),
            }),
            Step::Script => script(alloc, self.migration.sql.as_str()),
            Step::Row => match self.way {
                Way::Apply => insert_row(alloc, self.table, self.migration),
                Way::Revert => {
                    let row = bind(alloc, none(alloc), INT8, &version);
                    named(alloc, How::Execute, Wording::DeleteRow, self.table, row)
                }
            },
            Step::Commit => Ok(Demand {
                of: Wish::Commit(depth),
            }),
            Step::Time => {
                let time = bind(alloc, none(alloc), INT8, &as_int8(nanos).to_be_bytes());
                let both = bind(alloc, time, INT8, &version);
                named(alloc, How::Execute, Wording::UpdateTime, self.table, both)
            }
        }
    }
}
