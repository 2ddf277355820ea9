ghost use Rattle.std.specs.Prelude.{⊤, ℕ};
ghost use Rattle.pg_migrate.specs.Clocks.{ClockSeen, IsReading};

/// What tells the time, in nanoseconds since some beginning. It never goes back.
///
/// It counts its readings, and those that failed, each in a `u64` that stops at the type's end. A reading that fails tells the last time again.
pub trait Clock {
    /// Its counts, and what it told last.
    ghost seen: { Self → ClockSeen };

    /// What is known of a reading, and of the clock behind it.
    ghost tells: { Self → ℕ → Self → Type 0 } = { λ _ _ _. ⊤ };

    fn now(&mut self) -> u64
        ensures reading { IsReading (seen self.old) (seen self.new) result }
        ensures tells { tells self.old result self.new };
}
