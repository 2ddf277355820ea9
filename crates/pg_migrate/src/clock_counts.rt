ghost use Rattle.std.specs.Prelude.{◌≡◌, max};
ghost use Rattle.pg_migrate.specs.Clocks.{failed, nothing_read, told};

use std::marker::Model;

/// What a clock counts: its readings, what it told last, and the readings that failed.
#[derive(Debug, Drop)]
pub(crate) struct ClockCounts {
    readings: u64,
    last: u64,
    faults: u64,
}

impl Model for ClockCounts {
    ghost use Rattle.pg_migrate.specs.Clocks.{ClockSeen};

    ghost Value = { ClockSeen };

    ghost view = { λ c. record { readings = c.readings; last = c.last; faults = c.faults } };
}

impl ClockCounts {
    pub(crate) fn new() -> Self
        ensures { result ≡ nothing_read }
    {
        ClockCounts {
            readings: 0,
            last: 0,
            faults: 0,
        }
    }

    pub(crate) fn readings(&self) -> u64
        ensures { result ≡ self.now.readings }
    {
        self.readings
    }

    // A reading. A time before the last one stands as the last one.
    pub(crate) fn tell(&mut self, time: u64) -> u64
        ensures time { result ≡ max self.old.last time }
        ensures seen { self.new ≡ told result self.old }
    {
        self.readings = self.readings.saturating_add(1);
        self.last = self.last.max(time);
        self.last
    }

    // A reading that failed.
    pub(crate) fn fail(&mut self) -> u64
        ensures time { result ≡ self.old.last }
        ensures seen { self.new ≡ failed self.old }
    {
        self.readings = self.readings.saturating_add(1);
        self.faults = self.faults.saturating_add(1);
        self.last
    }
}
