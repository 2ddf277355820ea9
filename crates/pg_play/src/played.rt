use pg_report::{Outcome, Started};
use pg_stream::MemoryLink;
use pg_wire::{Error, Sequence};

/// What came of a play: how start-up ended, what came of each step, and the link behind them.
pub struct Played<L> {
    pub link: L,
    pub start: Result<Started, Error>,
    pub outcomes: Sequence<Outcome>,
}

// By hand, so that whoever lets one go makes one call, and doesn't go through its parts.
impl<L: Drop> Drop for Played<L> {
    fn drop(self) {
        let Played {
            link: _,
            start: _,
            outcomes: _,
        } = self;
    }
}

/// How the program ended, and what was played over a link in memory or over a link that was dialled.
pub struct Ran<L> {
    /// | Status | Where |
    /// |---|---|
    /// | 0 | the script was played, or what was asked is shown |
    /// | 1 | start-up failed |
    /// | 2 | the words, the script or the URL are bad |
    /// | 3 | the source failed |
    /// | 4 | the sink failed |
    /// | 5 | memory ran out |
    /// | 6 | the dial failed |
    pub status: u8,
    pub played: Option<Played<MemoryLink>>,
    pub live: Option<Played<L>>,
}

// By hand, so that whoever lets one go makes one call, and doesn't go through its parts.
impl<L: Drop> Drop for Ran<L> {
    fn drop(self) {
        let Ran {
            status: _,
            played: _,
            live: _,
        } = self;
    }
}
