//! A connection that is opened over a dial.

ghost use Rattle.std.specs.Prelude.{◌≡◌, ◌≤◌};
ghost use Rattle.pg_conn.specs.Dials.{HandsOut};
ghost use Rattle.pg_migrating.specs.Sessions.{GoesStart, over_dial};
ghost use Rattle.pg_migrating.specs.Starts.{BeginsStart, at_stage};

use crate::demand::Demand;
use crate::errand::Errand;
use pg_conn::{Dial, Establish, PgConnection, dial_and_establish};
use pg_guards::PgExecutor;
use pg_wire::{Error, Poll};
use std::alloc::Global;

/// A session over a dial that has no connection yet.
pub struct Start<L> {
    stage: Stage<L>,
}

/// What it is opened for, or why it can't be; or its start-up, and what is asked behind that.
#[derive(Drop)]
pub(crate) enum Stage<L> {
    Asked(Result<Errand, Error>),
    Begun(Demand, Establish<L>),
}

// By hand, so that whoever lets one go makes one call.
impl<L: Drop> Drop for Start<L> {
    fn drop(self) {
        let Start { stage: _ } = self;
    }
}

impl<L> Start<L> {
    fn into_stage(self) -> Stage<L>
        ensures { result ≡ self.stage }
    {
        let Start { stage } = self;
        stage
    }
}

/// How far a poll opens a session: it waits, or its connection has begun the call, or there is none.
pub enum Connected<S, C> {
    Waits(S),
    Opens(C),
    Fails(Error),
}

/// A dial over which sessions are opened: every one whose links may be dropped. What is opened is a type of its own here, since a function that
/// names a connection, or what is asked, by its parts is dear to prove.
pub trait Sessions: Dial {
    ghost use Rattle.pg_migrating.specs.Sessions.{ConnectsAs, GoesStart, IsFresh, Opening};

    /// A session that has no connection yet.
    type Start: Drop;

    /// What holds the connection that it comes to.
    type Conn: PgExecutor<L = Self::L> + Drop;

    /// What is known of them.
    ghost opens: { Opening Self Self.Start Self.L };

    /// A session for this errand. Where there is none, its first poll says why.
    fn new_session(errand: Result<Errand, Error>) -> Self::Start
        ensures { IsFresh opens errand result };

    /// Opens it further, within so many calls of the link, which it takes off: dials where that was not done, and moves its start-up on.
    fn open_session(
        &mut self,
        alloc: Global,
        start: Self::Start,
        left: &mut u16,
    ) -> Connected<Self::Start, Self::Conn>
        requires goes { GoesStart opens start }
        requires left { left.old ≤ 256 }
        ensures left { left.new ≤ left.old }
        ensures connects { ConnectsAs Self.L.seen opens Self.Conn.conn self.old start self.new result };
}

// A start-up that is under way, and what is asked behind it.
struct Begun<L> {
    demand: Demand,
    start: Establish<L>,
}

// The start-up of a session: it is begun where that was not done.
fn begin<D: Dial>(alloc: Global, stage: Stage<D::L>, dial: &mut D) -> Result<Begun<D::L>, Error>
where
    D::L: Drop,
    requires { GoesStart (over_dial D.L.seen (HandsOut D.gives D.draws) D.seen) (at_stage stage) }
    ensures { BeginsStart D.L.seen (over_dial D.L.seen (HandsOut D.gives D.draws) D.seen) dial.old stage dial.new result }
{
    match stage {
        Stage::Asked(Ok(errand)) => match dial_and_establish(alloc, &errand.options, dial) {
            Ok(start) => {
                let Errand { options, request } = errand;
                drop(options);
                Ok(Begun {
                    demand: request,
                    start,
                })
            }
            Err(e) => Err(e),
        },
        Stage::Asked(Err(e)) => Err(e),
        Stage::Begun(demand, start) => Ok(Begun { demand, start }),
    }
}

impl<D: Dial> Sessions for D
where
    D::L: Drop,
{
    type Start = Start<D::L>;

    type Conn = PgConnection<D::L>;

    ghost opens = { over_dial D.L.seen (HandsOut D.gives D.draws) D.seen };

    fn new_session(errand: Result<Errand, Error>) -> Start<D::L> {
        Start {
            stage: Stage::Asked(errand),
        }
    }

    fn open_session(
        &mut self,
        alloc: Global,
        start: Start<D::L>,
        left: &mut u16,
    ) -> Connected<Start<D::L>, PgConnection<D::L>> {
        let begun = match begin(alloc, start.into_stage(), self) {
            Ok(begun) => begun,
            Err(e) => return Connected::Fails(e),
        };
        let Begun { demand, mut start } = begun;
        match start.poll_within(left) {
            Poll::Pending => Connected::Waits(Start {
                stage: Stage::Begun(demand, start),
            }),
            Poll::Ready(Ok(mut conn)) => {
                conn.start(demand.into_request());
                Connected::Opens(conn)
            }
            Poll::Ready(Err(e)) => Connected::Fails(e),
        }
    }
}
