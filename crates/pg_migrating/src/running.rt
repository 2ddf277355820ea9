//! How a migration is applied, or reverted.

ghost use Rattle.std.specs.Prelude.{◌≡◌, ◌≤◌, true, false, not, is_some, None, Some};
ghost use Rattle.pg_conn.specs.Connections.{ConnOf};
ghost use Rattle.pg_migrating.specs.Asking.{CallsQuietly, StaysQuiet, is_asked, left_of};
ghost use Rattle.pg_migrating.specs.Migrating.{HasRun, Runs, StandsIn, StepGoes, StopsBy, TellsRun, TellsStep, told_by};

use crate::asking::{Asking, Question};
use crate::course::{Course, Step, Way, Work};
use crate::holding;
use pg_guards::PgExecutor;
use pg_migrate::{Clock, MigrateError, Migration, elapsed};
use pg_wire::{Error, Poll};
use std::alloc::Global;

/// The state of `Migrate::apply` and `Migrate::revert`, which owns what holds the connection. It does nothing before its first poll, which reads the
/// clock. Where it is given up within its transaction, that is rolled back without waiting, as the drop of a `Transaction` does: the next call on the
/// connection sends the ROLLBACK. (PostgreSQL manual, "Tutorial", "Transactions".)
pub struct RunMigration<'m, C: PgExecutor, K, Q = Question> {
    alloc: Global,
    asking: Asking<C, Q>,
    clock: &'m mut K,
    work: Work<'m>,
    course: Course,
}

impl Work<'_> {
    // How an error of a step is told whose call has queued so many groups.
    fn told(&self, step: Step, groups: u64, e: Error) -> MigrateError
        ensures { result ≡ told_by step self.now.migration.version groups e }
    {
        match step {
            Step::Script if groups > 0 && matches!(e, Error::Database(_)) => {
                MigrateError::ExecuteMigration(e, self.migration.version)
            }
            _ => MigrateError::Execute(e),
        }
    }
}

// Reads the clock again where this ends the work whose time is taken.
fn stop_clock<K: Clock>(ends: bool, course: &mut Course, clock: &mut K)
    ensures { StopsBy K.seen K.tells ends course.old course.new clock.old clock.new }
{
    if ends {
        course.nanos = elapsed(course.start, clock.now());
    }
}

impl<'m, C: PgExecutor, K, Q> RunMigration<'m, C, K, Q> {
    /// Whether a poll has ended the call.
    pub fn is_finished(&self) -> bool
        ensures { result ≡ not (is_asked self.now.asking.question (C.conn self.now.asking.conn).call) }
    {
        !self.asking.is_asked()
    }
}

impl<'m, C: PgExecutor, K, Q: Drop> RunMigration<'m, C, K, Q> {
    /// Hands back what holds the connection, as the drop of the state leaves it: a call that runs is given up, and a transaction that was opened and
    /// not committed is rolled back without waiting. (PostgreSQL manual, "SQL Commands", ROLLBACK.)
    pub fn into_conn(self) -> C
        ensures { result ≡ C.with_conn self.entry.asking.conn (left_of self.entry.course.is_open self.entry.asking.question (C.conn self.entry.asking.conn)) }
    {
        let RunMigration {
            alloc: _,
            asking,
            clock: _,
            work: Work {
                way: _,
                table: _,
                migration: _,
            },
            course,
        } = self;
        asking.into_conn(course.is_open)
    }
}

impl<'m, C: PgExecutor, K: Clock> RunMigration<'m, C, K> {
    pub(crate) fn new(
        alloc: Global,
        conn: C,
        way: Way,
        table: &'m str,
        migration: &'m Migration,
        clock: &'m mut K,
    ) -> Self
        ensures conn { result.asking.conn ≡ conn }
        ensures clock { result.clock.now ≡ clock.old }
        ensures same { result.clock.ghost_name ≡ clock.entry.ghost_name }
        ensures work { result.work ≡ record { way = way; table = table.now; migration = migration.now } }
        ensures stands { StandsIn C.L.seen K.seen K.tells result.work (C.conn conn) clock.old result.course result.asking.question (C.conn result.asking.conn) result.clock.now }
        ensures new { is_some result.asking.question ≡ true }
        ensures open { result.course.is_open ≡ false }
        ensures goes { is_asked result.asking.question (C.conn result.asking.conn).call ≡ true }
        ensures calling { CallsQuietly result.asking.question (C.conn result.asking.conn) }
    {
        let work = Work {
            way,
            table,
            migration,
        };
        let step = work.first_step();
        let depth = holding::depth(&conn);
        let question = work.request(alloc, step, depth, 0);
        RunMigration {
            alloc,
            asking: Asking {
                conn,
                question: Some(question),
            },
            clock,
            work,
            course: Course {
                step,
                is_open: false,
                start: 0,
                nanos: 0,
            },
        }
    }

    // Reads the clock at the first poll.
    fn start_clock(&mut self)
        ensures asking { self.new.asking ≡ self.old.asking }
        ensures same { self.new.clock.ghost_name ≡ self.old.clock.ghost_name }
        ensures work { self.new.work ≡ self.old.work }
        ensures runs { (first : ConnOf C.L) (zero : K) → StandsIn C.L.seen K.seen K.tells self.old.work first zero self.old.course self.old.asking.question (C.conn self.old.asking.conn) self.old.clock.now → Runs C.L.seen K.seen K.tells self.old.work first zero self.new.course self.old.asking.question (C.conn self.old.asking.conn) self.new.clock.now }
    {
        match &self.asking.question {
            Some(_) => self.course.start = self.clock.now(),
            None => {}
        }
    }

    // Asks the next step, or answers how long all of them took.
    fn go_on(&mut self) -> Option<Poll<Result<u64, MigrateError>>>
        requires { self.old.asking.question ≡ None }
        ensures conn { self.new.asking.conn ≡ self.old.asking.conn }
        ensures same { self.new.clock.ghost_name ≡ self.old.clock.ghost_name }
        ensures work { self.new.work ≡ self.old.work }
        ensures goes { StepGoes self.old.course.step self.new.course.step self.new.asking.question (C.conn self.new.asking.conn) result }
        ensures tells { (first : ConnOf C.L) (zero : K) → HasRun C.L.seen K.seen K.tells self.old.work first zero self.old.course (C.conn self.old.asking.conn) self.old.clock.now → TellsStep C.L.seen K.seen K.tells self.old.work first zero self.new.course self.new.asking.question (C.conn self.new.asking.conn) self.new.clock.now result }
    {
        let ends = self.work.ends_work(self.course.step);
        stop_clock(ends, &mut self.course, self.clock);
        match self.work.next_step(self.course.step) {
            Some(step) => {
                self.course.is_open = self.work.is_open_at(step);
                self.course.step = step;
                let depth = holding::depth(&self.asking.conn);
                let question = self
                    .work
                    .request(self.alloc, step, depth, self.course.nanos);
                self.asking.ask(question);
                None
            }
            None => {
                self.course.is_open = false;
                Some(Poll::Ready(Ok(self.course.nanos)))
            }
        }
    }

    // One poll of the step that is asked. Where it was answered Ok, the next one is asked, and there is no answer yet.
    fn poll_step(&mut self, left: &mut u16) -> Option<Poll<Result<u64, MigrateError>>>
        requires over { is_asked self.old.asking.question (C.conn self.old.asking.conn).call ≡ true }
        requires left { left.old ≤ 256 }
        requires calling { CallsQuietly self.old.asking.question (C.conn self.old.asking.conn) }
        ensures holder { self.new.asking.conn ≡ C.with_conn self.old.asking.conn (C.conn self.new.asking.conn) }
        ensures left { left.new ≤ left.old }
        ensures same { self.new.clock.ghost_name ≡ self.old.clock.ghost_name }
        ensures work { self.new.work ≡ self.old.work }
        ensures goes { StepGoes self.old.course.step self.new.course.step self.new.asking.question (C.conn self.new.asking.conn) result }
        ensures tells { (first : ConnOf C.L) (zero : K) → Runs C.L.seen K.seen K.tells self.old.work first zero self.old.course self.old.asking.question (C.conn self.old.asking.conn) self.old.clock.now → TellsStep C.L.seen K.seen K.tells self.old.work first zero self.new.course self.new.asking.question (C.conn self.new.asking.conn) self.new.clock.now result }
    {
        match self.asking.poll_end(left) {
            Poll::Pending => Some(Poll::Pending),
            Poll::Ready(Ok(())) => self.go_on(),
            Poll::Ready(Err(e)) => {
                let groups = holding::groups(&self.asking.conn);
                Some(Poll::Ready(Err(self.work.told(self.course.step, groups, e))))
            }
        }
    }

    /// Moves the migration on, by at most 256 calls of the link, and answers how long its work took, in nanoseconds. `ExecuteMigration` comes exactly
    /// where the migration's script was answered by an ErrorResponse; any other error is `Execute`.
    pub fn poll(&mut self) -> Poll<Result<u64, MigrateError>>
        requires over { is_asked self.old.asking.question (C.conn self.old.asking.conn).call ≡ true }
        requires calling { CallsQuietly self.old.asking.question (C.conn self.old.asking.conn) }
        ensures holder { self.new.asking.conn ≡ C.with_conn self.old.asking.conn (C.conn self.new.asking.conn) }
        ensures asked { self.new.asking.question ≡ None }
        ensures same { self.new.clock.ghost_name ≡ self.old.clock.ghost_name }
        ensures work { self.new.work ≡ self.old.work }
        ensures tells { (first : ConnOf C.L) (zero : K) → StandsIn C.L.seen K.seen K.tells self.old.work first zero self.old.course self.old.asking.question (C.conn self.old.asking.conn) self.old.clock.now → TellsRun C.L.seen K.seen K.tells self.old.work first zero self.new.course (C.conn self.new.asking.conn) self.new.clock.now result }
        ensures calling { StaysQuiet (C.conn self.new.asking.conn) result }
    {
        self.start_clock();
        let mut left = 256;
        loop {
            match self.poll_step(&mut left) {
                Some(answer) => return answer,
                None => {}
            }
        }
    }
}

impl<C: PgExecutor + Drop, K, Q: Drop> Drop for RunMigration<'_, C, K, Q> {
    fn drop(self) {
        let conn = self.into_conn();
        let _ = conn;
    }
}
