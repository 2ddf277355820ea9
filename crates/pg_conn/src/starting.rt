ghost use Rattle.std.specs.Prelude.{◌≡◌, ◌≤◌, ℕ, false};
ghost use Rattle.pg_startup.specs.Establishing.{kept_link, IsLeft};
ghost use Rattle.pg_conn.specs.Connecting.{PollsConnect};

use crate::PgConnection;
use pg_stream::Link;
use pg_wire::{Error, Poll};
use std::alloc::Global;
use std::marker::Model;

/// A start-up on its way to a connection. It keeps its link until a poll hands the connection out.
pub struct Establish<L> {
    alloc: Global,
    capacity: usize,
    startup: pg_startup::Establish<L>,
}

// By hand, so that whoever lets one go makes one call, and doesn't go through its parts.
impl<L: Drop> Drop for Establish<L> {
    fn drop(self) {
        let Establish {
            alloc: _,
            capacity: _,
            startup: _,
        } = self;
    }
}

impl<L> Model for Establish<L> {
    ghost use Rattle.pg_conn.specs.Connecting.{ConnectingOf};

    ghost Value = { ConnectingOf L };

    ghost view = { λ e. record { startup = e.startup; capacity = e.capacity } };
}

impl<L> Establish<L> {
    // The connection that this start-up begins, which may keep so many statements.
    pub(crate) fn over(alloc: Global, capacity: usize, startup: pg_startup::Establish<L>) -> Self
        ensures startup { result.startup ≡ startup }
        ensures capacity { result.capacity ≡ capacity }
    {
        Establish {
            alloc,
            capacity,
            startup,
        }
    }

    /// Whether a poll has answered.
    pub fn is_finished(&self) -> bool
        ensures { result ≡ self.now.startup.is_finished }
    {
        self.startup.is_finished()
    }

    /// The link, which is gone exactly where a poll has answered the connection.
    pub fn into_link(self) -> Option<L>
        ensures { result ≡ kept_link self.startup.phase }
    {
        let Establish {
            alloc: _,
            capacity: _,
            startup,
        } = self;
        startup.into_link()
    }
}

impl<L: Link> Establish<L> {
    /// Moves the start-up on, by at most 256 calls of the link.
    pub fn poll(&mut self) -> Poll<Result<PgConnection<L>, Error>>
        requires { self.old.startup.is_finished ≡ false }
        ensures left { IsLeft self.new.startup result }
        ensures polls { (left : ℕ) × PollsConnect L.seen 256 left self.old self.new result }
    {
        match self.startup.poll() {
            Poll::Pending => Poll::Pending,
            Poll::Ready(Err(e)) => Poll::Ready(Err(e)),
            Poll::Ready(Ok(ready)) => Poll::Ready(Ok(PgConnection::over(
                self.alloc,
                self.capacity,
                ready,
            ))),
        }
    }

    /// The same within so many calls of the link, of which it takes off as many as it makes.
    pub fn poll_within(&mut self, left: &mut u16) -> Poll<Result<PgConnection<L>, Error>>
        requires left { left.old ≤ 256 }
        requires goes { self.old.startup.is_finished ≡ false }
        ensures left { IsLeft self.new.startup result }
        ensures polls { PollsConnect L.seen left.old left.new self.old self.new result }
    {
        match self.startup.poll_within(left) {
            Poll::Pending => Poll::Pending,
            Poll::Ready(Err(e)) => Poll::Ready(Err(e)),
            Poll::Ready(Ok(ready)) => Poll::Ready(Ok(PgConnection::over(
                self.alloc,
                self.capacity,
                ready,
            ))),
        }
    }
}
