//! The calls that ask for a lock that is free, and that release one: each is answered by a truth value. (PostgreSQL manual, "Advisory Lock Functions".)
ghost use Rattle.std.specs.Prelude.{◌≡◌, IfErr, OnErr, OnOk};
ghost use Rattle.pg_call.specs.declared.kind.How.TheVariants as hows;
ghost use Rattle.pg_call.specs.declared.kind.Kind.TheVariants as kinds;
ghost use Rattle.pg_conn.specs.Connections.{ConnOf, started_call};
ghost use Rattle.pg_conn.specs.Flags.{flag_in};
ghost use Rattle.pg_conn.specs.States.{PollFits};
ghost use Rattle.pg_locking.specs.Flags.{FitsOne, HearsFlag, IsAsking, PollsFlag, PollsOn, ReadsFlag, StaysAsking, flag_answer, flag_request, flag_text, forgot_if, left_asking, left_releasing, told_flag};
ghost use Rattle.pg_locking.specs.Rooms.{IsHeldFor, IsUnheld};

use crate::holding::{give_back, hold_for};
use pg_conn::{PgConnection, PgRow, Request, Turn, read_flag};
use pg_locks::{PgAdvisoryLockKey, key_query};
use pg_stream::Link;
use pg_wire::{Error, Poll};

/// How far it has come.
#[derive(Clone, Copy, Debug)]
pub enum Asking {
    /// It was not polled yet.
    Asked,
    Running,
    /// It has ended.
    Over,
}

/// A lock that is asked for, or released. Where it is asked for, room is kept for its guard.
#[derive(Clone, Copy, Debug)]
pub(crate) struct FlagCall {
    pub key: PgAdvisoryLockKey,
    pub holds: bool,
    pub asking: Asking,
}

// The truth value that a row tells.
fn told_flag(row: &PgRow) -> Result<bool, Error>
    ensures { result ≡ told_flag (flag_in row.now.values) }
{
    match read_flag(row) {
        Ok(Some(flag)) => Ok(flag),
        Ok(None) => Err(Error::ColumnDecode { index: 0 }),
        Err(e) => Err(e),
    }
}

// What is told of a row that came, or why none did.
fn told_one(row: Result<PgRow, Error>) -> Result<bool, Error>
    ensures { Poll.Ready result ≡ flag_answer (Poll.Ready row) }
{
    match row {
        Ok(row) => told_flag(&row),
        Err(e) => Err(e),
    }
}

// The same of an answer.
fn flag_of(answer: Poll<Turn>) -> Poll<Result<bool, Error>>
    requires { FitsOne answer }
    ensures { ReadsFlag answer result }
{
    match answer {
        Poll::Pending => Poll::Pending,
        Poll::Ready(turn) => Poll::Ready(told_one(turn.into_one())),
    }
}

// Its statement.
fn text_of(key: &PgAdvisoryLockKey, holds: bool) -> &'static str
    ensures { result.now ≡ flag_text holds key.now }
{
    if holds {
        key.try_lock_statement()
    } else {
        key.unlock_statement()
    }
}

// Before the first poll of a release the guard gives its room up.
fn forget<L>(conn: &mut PgConnection<L>, asking: Asking)
    ensures { conn.new ≡ forgot_if asking conn.old }
{
    match asking {
        Asking::Asked => {
            let _ = conn.take_held(None);
        }
        Asking::Running | Asking::Over => {}
    }
}

// Begins the call. Without memory it is not begun.
fn begin<L>(conn: &mut PgConnection<L>, key: PgAdvisoryLockKey, holds: bool) -> Result<(), Error>
    ensures ok { OnOk result ((h : ConnOf L) × IsHeldFor holds conn.old h × (conn.new ≡ started_call (flag_request holds key) h)) }
    ensures err { OnErr result (IsUnheld conn.old conn.new) }
    ensures memory { IfErr result (λ e. e ≡ Error.OutOfMemory) }
{
    let query = match key_query(conn.allocator(), text_of(&key, holds), key) {
        Ok(query) => query,
        Err(e) => return Err(e),
    };
    match hold_for(conn, holds) {
        Ok(()) => {
            conn.start(Request::FetchOne(query));
            Ok(())
        }
        Err(e) => {
            drop(query);
            Err(e)
        }
    }
}

impl FlagCall {
    /// One that was not polled yet.
    pub fn new(key: PgAdvisoryLockKey, holds: bool) -> Self
        ensures { result ≡ record { key = key; holds = holds; asking = Asking.Asked } }
    {
        FlagCall {
            key,
            holds,
            asking: Asking::Asked,
        }
    }

    // What a poll has come to.
    fn hear<L>(
        &mut self,
        conn: &mut PgConnection<L>,
        answer: Poll<Turn>,
    ) -> Poll<Result<bool, Error>>
        requires asking { self.old.asking ≡ Asking.Over }
        requires fits { PollFits (kinds.Run hows.FetchOne) conn.old answer }
        ensures same { self.new ≡ record self.old { asking = self.new.asking } }
        ensures hears { HearsFlag self.old.holds answer conn.old conn.new self.new.asking result }
        ensures stays { StaysAsking self.new.asking conn.new result }
    {
        match flag_of(answer) {
            Poll::Pending => {
                self.asking = Asking::Running;
                Poll::Pending
            }
            Poll::Ready(Ok(true)) => Poll::Ready(Ok(true)),
            Poll::Ready(other) => {
                give_back(conn, self.holds);
                Poll::Ready(other)
            }
        }
    }

    // One poll of the call that runs.
    fn poll_on<L: Link>(&mut self, conn: &mut PgConnection<L>) -> Poll<Result<bool, Error>>
        requires asking { self.old.asking ≡ Asking.Over }
        requires calling { IsAsking Asking.Running conn.old }
        ensures same { self.new ≡ record self.old { asking = self.new.asking } }
        ensures polls { PollsOn L.seen self.old.holds conn.old conn.new self.new.asking result }
        ensures stays { StaysAsking self.new.asking conn.new result }
    {
        let answer = conn.poll_call();
        self.hear(conn, answer)
    }

    // The first poll.
    fn poll_first<L: Link>(&mut self, conn: &mut PgConnection<L>) -> Poll<Result<bool, Error>>
        requires { self.old.asking ≡ Asking.Over }
        ensures same { self.new ≡ record self.old { asking = self.new.asking } }
        ensures polls { PollsFlag L.seen self.old.key self.old.holds Asking.Asked conn.old conn.new self.new.asking result }
        ensures stays { StaysAsking self.new.asking conn.new result }
    {
        match begin(conn, self.key, self.holds) {
            Ok(()) => self.poll_on(conn),
            Err(e) => Poll::Ready(Err(e)),
        }
    }

    /// Moves the call on.
    pub fn poll<L: Link>(&mut self, conn: &mut PgConnection<L>) -> Poll<Result<bool, Error>>
        requires { IsAsking self.old.asking conn.old }
        ensures same { self.new ≡ record self.old { asking = self.new.asking } }
        ensures polls { PollsFlag L.seen self.old.key self.old.holds self.old.asking conn.old conn.new self.new.asking result }
        ensures stays { StaysAsking self.new.asking conn.new result }
    {
        let asking = self.asking;
        self.asking = Asking::Over;
        match asking {
            Asking::Asked => self.poll_first(conn),
            Asking::Running => self.poll_on(conn),
            Asking::Over => unreachable!(),
        }
    }

    /// The same of a lock that a guard has held until then.
    pub fn poll_release<L: Link>(&mut self, conn: &mut PgConnection<L>) -> Poll<Result<bool, Error>>
        requires { IsAsking self.old.asking conn.old }
        ensures same { self.new ≡ record self.old { asking = self.new.asking } }
        ensures polls { PollsFlag L.seen self.old.key self.old.holds self.old.asking (forgot_if self.old.asking conn.old) conn.new self.new.asking result }
        ensures stays { StaysAsking self.new.asking conn.new result }
    {
        forget(conn, self.asking);
        self.poll(conn)
    }

    /// Gives the call up where it runs. Before its first poll the lock is released as by the drop of its guard.
    pub fn leave_release<L>(self, conn: &mut PgConnection<L>)
        ensures { conn.new ≡ left_releasing self.key self.asking conn.old }
    {
        match self.asking {
            Asking::Asked => {
                let text = self.key.unlock_query();
                let _ = conn.take_held(Some(text.as_str()));
            }
            Asking::Running => conn.abandon(),
            Asking::Over => {}
        }
    }

    /// Gives the call up where it runs.
    pub fn leave<L>(self, conn: &mut PgConnection<L>)
        ensures { conn.new ≡ left_asking self.holds self.asking conn.old }
    {
        match self.asking {
            Asking::Asked | Asking::Over => {}
            Asking::Running => {
                conn.abandon();
                give_back(conn, self.holds);
            }
        }
    }
}
