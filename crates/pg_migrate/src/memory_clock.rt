ghost use Rattle.std.specs.Prelude.{◌≡◌};
ghost use Rattle.pg_migrate.specs.Clocks.{IsReading, TellsNext, fails_next, nothing_read};

use crate::Clock;
use crate::clock_counts::ClockCounts;
use pg_wire::Sequence;
use std::collections::VecDeque;
use std::marker::Model;

/// A clock in memory: it tells its times in order, and behind them the last one again.
#[derive(Debug)]
pub struct MemoryClock {
    times: VecDeque<u64>,
    failing: Sequence<u64>,
    counts: ClockCounts,
}

// By hand, so that whoever lets one go makes one call.
impl Drop for MemoryClock {
    fn drop(self) {
        let MemoryClock {
            times: _,
            failing: _,
            counts: _,
        } = self;
    }
}

impl Model for MemoryClock {
    ghost use Rattle.pg_migrate.specs.Clocks.{MemoryClockState};

    ghost Value = { MemoryClockState };

    ghost view = { λ c. record { ahead = c.times.items; failing = c.failing; seen = c.counts } };
}

impl MemoryClock {
    /// A time before the one in front of it is told as that one. The readings with the numbers in `failing` fail; the first is 1.
    pub fn new(times: VecDeque<u64>, failing: Sequence<u64>) -> Self
        ensures { result ≡ record { ahead = times.items; failing = failing; seen = nothing_read } }
    {
        MemoryClock {
            times,
            failing,
            counts: ClockCounts::new(),
        }
    }

    // Whether the next reading is to fail.
    fn fails(&self) -> bool
        ensures { result ≡ fails_next self.now }
    {
        let reading = self.counts.readings().saturating_add(1);
        self.failing.as_slice().contains(&reading)
    }
}

impl Clock for MemoryClock {
    ghost seen = { λ c. c.seen };

    ghost tells = { TellsNext };

    fn now(&mut self) -> u64
        ensures reading { IsReading self.old.seen self.new.seen result }
        ensures tells { TellsNext self.old result self.new }
    {
        if self.fails() {
            return self.counts.fail();
        }
        let time = self.times.pop_front().unwrap_or(0);
        self.counts.tell(time)
    }
}
