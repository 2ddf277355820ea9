//! A database that is dropped though there are sessions on it.

ghost use Rattle.std.specs.Prelude.{◌≡◌, ◌≤◌, IfOk, IfErr, Result, option_copied, option_map};
ghost use Rattle.futures.specs.declared.task.Poll.TheVariants.{Ready};
ghost use Rattle.pg_wire.specs.declared.error.Error as declared_error;
ghost use Rattle.pg_call.specs.declared.kind.How.TheVariants as hows;
ghost use Rattle.pg_call.specs.declared.kind.Kind.TheVariants as kinds;
ghost use Rattle.pg_call.specs.Answers.{TurnFits};
ghost use Rattle.pg_migrating.specs.Databases.{EndsBy};
ghost use Rattle.pg_migrating.specs.Errands.{AsksOf};
ghost use Rattle.pg_migrating.specs.Forcing.{AsksForce, AsksToForce, GoesForce, HidesNumber, HidesVersion, IsNumber, StandsForce, StaysForce, StepGoes, TellsForce, TellsForceStep, Terminating, conn_at, is_forced};
ghost use Rattle.pg_migrating.specs.declared.forcing.Forcing as declared_forcing;
ghost use Rattle.pg_migrating.specs.declared.forcing.ForceStep.TheVariants as steps;

use crate::MigrateDatabase;
use crate::database_requests::terminate;
use crate::demand::Demand;
use crate::errand::{Errand, Task, errand_at};
use crate::names::database_of;
use crate::opening::Sessions;
use crate::reading::Reading;
use crate::session::{SessionOf, poll, session_for};
use crate::statement::Done;
use pg_call::Turn;
use pg_options::{PgConnectOptions, PgSettings};
use pg_rows::PgRow;
use pg_wire::{Error, Poll, Text};
use std::alloc::Global;

/// What is asked first and last, and of which database.
pub(crate) struct Forcing {
    version: Errand,
    last: Errand,
    database: Text,
}

/// Which statement is asked.
#[derive(Clone, Copy)]
pub(crate) enum ForceStep {
    Version,
    Terminate,
    Remove,
    Over,
}

/// The state of `MigrateDatabase::force_drop_database`. Its first poll dials. From one connection it asks for the server's version and ends all other
/// sessions on the database; then it lets that connection go, dials again, and drops the database. A drop of the state lets go what it has opened, and
/// leaves the dial as it is.
pub struct ForceDropDatabase<'d, D: Sessions> {
    alloc: Global,
    dial: &'d mut D,
    step: ForceStep,
    database: Text,
    session: SessionOf<D>,
    last: SessionOf<D>,
}

// What is asked, of the database that options name.
fn forcing_at(alloc: Global, options: &PgConnectOptions) -> Result<Forcing, Error>
    ensures { AsksForce options.now result }
{
    let database = match Text::from_str(alloc, database_of(options)) {
        Ok(database) => database,
        Err(_) => return Err(Error::OutOfMemory),
    };
    let last = match errand_at(alloc, Task::Remove, options) {
        Ok(last) => last,
        Err(e) => return Err(e),
    };
    match errand_at(alloc, Task::Version, options) {
        Ok(version) => Ok(Forcing {
            version,
            last,
            database,
        }),
        Err(e) => Err(e),
    }
}

// The same of the database that a URL names, over settings.
fn forcing_of(alloc: Global, env: &PgSettings, url: &str) -> Result<Forcing, Error>
    ensures { AsksOf AsksForce env.now url.now result }
{
    match PgConnectOptions::from_str(alloc, env, url) {
        Ok(options) => {
            let forcing = forcing_at(alloc, &options);
            drop(options);
            forcing
        }
        Err(e) => Err(e),
    }
}

// The server's version in a row.
fn version_in(alloc: Global, row: &PgRow) -> Result<u32, Error>
    ensures ok { IfOk result (IsNumber row.now) }
    ensures err { IfErr result (HidesNumber row.now) }
{
    let word: Text = match row.try_get(alloc, 0) {
        Ok(word) => word,
        Err(e) => return Err(e),
    };
    match word.as_str().parse() {
        Ok(version) => Ok(version),
        Err(_) => Err(Error::Decode),
    }
}

// What ends the other sessions, by the version that the server has told.
fn terminating(alloc: Global, turn: Turn, database: &str) -> Result<Demand, Error>
    requires { TurnFits (kinds.Run hows.FetchOne) turn }
    ensures { EndsBy (Terminating database.now) HidesVersion turn result }
{
    match turn.into_one() {
        Ok(row) => {
            let version = version_in(alloc, &row);
            drop(row);
            match version {
                Ok(version) => terminate(alloc, version, database),
                Err(e) => Err(e),
            }
        }
        Err(e) => Err(e),
    }
}

impl MigrateDatabase {
    /// Drops the database, if it is there, though there are sessions on it: these are ended first.
    pub fn force_drop_database<'d, D: Sessions>(
        alloc: Global,
        env: &PgSettings,
        url: &str,
        dial: &'d mut D,
    ) -> ForceDropDatabase<'d, D>
        ensures dial { result.dial.now ≡ dial.old }
        ensures same { result.dial.ghost_name ≡ dial.entry.ghost_name }
        ensures step { result.step ≡ steps.Version }
        ensures asks { AsksToForce D.opens env.now url.now result.database result.session result.last }
        ensures goes { GoesForce D.opens steps.Version result.session result.last }
    {
        match forcing_of(alloc, env, url) {
            Ok(
                Forcing {
                    version,
                    last,
                    database,
                },
            ) => ForceDropDatabase {
                alloc,
                dial,
                step: ForceStep::Version,
                database,
                session: session_for::<D>(Ok(version)),
                last: session_for::<D>(Ok(last)),
            },
            // The first poll tells the error, and the last session is never polled.
            Err(e) => ForceDropDatabase {
                alloc,
                dial,
                step: ForceStep::Version,
                database: Text::new(alloc),
                session: session_for::<D>(Err(e)),
                last: session_for::<D>(Err(Error::OutOfMemory)),
            },
        }
    }
}

impl<'d, D: Sessions> ForceDropDatabase<'d, D> {
    /// Whether a poll has ended the call.
    pub fn is_finished(&self) -> bool
        ensures { result ≡ is_forced self.now.step }
    {
        match self.step {
            ForceStep::Over => true,
            ForceStep::Version | ForceStep::Terminate | ForceStep::Remove => false,
        }
    }

    /// The connection that the call is on, once a start-up has come to it.
    pub fn conn(&self) -> Option<&D::Conn>
        ensures { option_map D.Conn.conn (option_copied result) ≡ conn_at self.now.step self.now.session.conn self.now.last.conn }
    {
        match self.step {
            ForceStep::Version | ForceStep::Terminate => self.session.conn(),
            ForceStep::Remove | ForceStep::Over => self.last.conn(),
        }
    }

    // The call ends: nothing of it is polled again.
    fn finish(&mut self, answer: Result<(), Error>) -> Poll<Result<(), Error>>
        ensures answer { result ≡ Ready answer }
        ensures step { self.new.step ≡ steps.Over }
        ensures dial { self.new.dial.now ≡ self.old.dial.now }
        ensures same { self.new.dial.ghost_name ≡ self.old.dial.ghost_name }
    {
        self.step = ForceStep::Over;
        self.session.close();
        self.last.close();
        Poll::Ready(answer)
    }

    // One poll of the call that asks for the version. Where it was answered, the other sessions are to be ended, and there is no answer yet.
    fn poll_version(&mut self, left: &mut u16) -> Option<Poll<Result<(), Error>>>
        requires left { left.old ≤ 256 }
        requires step { self.old.step ≡ steps.Version }
        requires goes { GoesForce D.opens steps.Version self.old.session self.old.last }
        ensures left { left.new ≤ left.old }
        ensures same { self.new.dial.ghost_name ≡ self.old.dial.ghost_name }
        ensures goes { StepGoes D.opens steps.Terminate self.new.step self.new.session self.new.last result }
        ensures tells { (asked : Result declared_forcing.Forcing declared_error.Error) (first : D) → StandsForce D.L.seen D.opens asked first steps.Version self.old.database self.old.session self.old.last self.old.dial.now → TellsForceStep D.L.seen D.opens asked first self.new.step self.new.database self.new.session self.new.last self.new.dial.now result }
    {
        match poll(self.alloc, &mut self.session, self.dial, left) {
            Poll::Pending => Some(Poll::Pending),
            Poll::Ready(turn) => match terminating(self.alloc, turn, self.database.as_str()) {
                Ok(demand) => {
                    self.session.ask(demand);
                    self.step = ForceStep::Terminate;
                    None
                }
                Err(e) => Some(self.finish(Err(e))),
            },
        }
    }

    // One poll of the call that drops the database.
    fn poll_remove(&mut self, left: &mut u16) -> Poll<Result<(), Error>>
        requires left { left.old ≤ 256 }
        requires step { self.old.step ≡ steps.Remove }
        requires goes { GoesForce D.opens steps.Remove self.old.session self.old.last }
        ensures same { self.new.dial.ghost_name ≡ self.old.dial.ghost_name }
        ensures goes { StaysForce D.opens self.new.step self.new.session self.new.last result }
        ensures tells { (asked : Result declared_forcing.Forcing declared_error.Error) (first : D) → StandsForce D.L.seen D.opens asked first steps.Remove self.old.database self.old.session self.old.last self.old.dial.now → TellsForce D.L.seen D.opens asked first self.new.step self.new.database self.new.session self.new.last self.new.dial.now result }
    {
        match poll(self.alloc, &mut self.last, self.dial, left) {
            Poll::Pending => Poll::Pending,
            Poll::Ready(turn) => {
                let end = Done::read(self.alloc, turn);
                self.finish(end)
            },
        }
    }

    // The steps behind the version: one poll of the call that ends the other sessions, and where it was answered, one of the call that drops the database.
    fn poll_others(&mut self, left: &mut u16) -> Poll<Result<(), Error>>
        requires left { left.old ≤ 256 }
        requires step { self.old.step ≡ steps.Terminate }
        requires goes { GoesForce D.opens steps.Terminate self.old.session self.old.last }
        ensures same { self.new.dial.ghost_name ≡ self.old.dial.ghost_name }
        ensures goes { StaysForce D.opens self.new.step self.new.session self.new.last result }
        ensures tells { (asked : Result declared_forcing.Forcing declared_error.Error) (first : D) → StandsForce D.L.seen D.opens asked first steps.Terminate self.old.database self.old.session self.old.last self.old.dial.now → TellsForce D.L.seen D.opens asked first self.new.step self.new.database self.new.session self.new.last self.new.dial.now result }
    {
        match self.session.poll_call(left) {
            Poll::Pending => Poll::Pending,
            Poll::Ready(turn) => match Done::read(self.alloc, turn) {
                Ok(()) => {
                    self.session.close();
                    self.step = ForceStep::Remove;
                    self.poll_remove(left)
                }
                Err(e) => self.finish(Err(e)),
            },
        }
    }

    /// Moves the call on, by at most 256 calls of the links. A version that is no number is `Decode`.
    pub fn poll(&mut self) -> Poll<Result<(), Error>>
        requires goes { GoesForce D.opens self.old.step self.old.session self.old.last }
        ensures same { self.new.dial.ghost_name ≡ self.old.dial.ghost_name }
        ensures goes { StaysForce D.opens self.new.step self.new.session self.new.last result }
        ensures tells { (asked : Result declared_forcing.Forcing declared_error.Error) (first : D) → StandsForce D.L.seen D.opens asked first self.old.step self.old.database self.old.session self.old.last self.old.dial.now → TellsForce D.L.seen D.opens asked first self.new.step self.new.database self.new.session self.new.last self.new.dial.now result }
    {
        let mut left = 256;
        match self.step {
            ForceStep::Version => match self.poll_version(&mut left) {
                Some(answer) => answer,
                None => self.poll_others(&mut left),
            },
            ForceStep::Terminate => self.poll_others(&mut left),
            ForceStep::Remove => self.poll_remove(&mut left),
            ForceStep::Over => unreachable!(),
        }
    }
}

impl<D: Sessions> Drop for ForceDropDatabase<'_, D> {
    fn drop(self) {
        let ForceDropDatabase {
            alloc: _,
            dial: _,
            step: _,
            database: _,
            session: _,
            last: _,
        } = self;
    }
}
