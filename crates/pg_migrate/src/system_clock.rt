ghost use Rattle.std.specs.Prelude.{◌≡◌};
ghost use Rattle.pg_migrate.specs.Clocks.{IsReading, nothing_read};

use crate::Clock;
use crate::clock_counts::ClockCounts;
use crate::spans::nanos_of;
use std::marker::Model;
use std::time;

/// The monotonic clock of the system; a program passes its runtime. What the system fails to tell is a fault.
#[derive(Drop)]
pub struct SystemClock<T> {
    clock: T,
    counts: ClockCounts,
}

impl<T> Model for SystemClock<T> {
    ghost use Rattle.pg_migrate.specs.Clocks.{ClockSeen};

    ghost Value = { ClockSeen };

    ghost view = { λ c. c.counts };
}

impl<T> SystemClock<T> {
    /// A clock that was not read yet.
    pub fn new(clock: T) -> Self
        ensures { result ≡ nothing_read }
    {
        SystemClock {
            clock,
            counts: ClockCounts::new(),
        }
    }
}

impl<T: time::Clock> Clock for SystemClock<T> {
    ghost seen = { λ c. c };

    fn now(&mut self) -> u64
        ensures { IsReading self.old self.new result }
    {
        match self.clock.monotonic() {
            Ok(span) => self.counts.tell(nanos_of(span)),
            Err(_) => self.counts.fail(),
        }
    }
}
