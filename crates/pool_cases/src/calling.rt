//! The calls of a thread to a server. Each asks for numbers of its own, and compares those that come; many are dropped.
use crate::opening::POLLS;
use pg_conn::{PgConnection, PgRow, Query};
use pg_stream::SocketLink;
use pg_values::PgArguments;
use pg_wire::{Error, Poll};
use rand_core::utils::NextWord;
use rand_pcg::Pcg32;
use std::alloc::Global;

/// The calls of a thread.
pub(crate) const CALLS: u32 = 2_500;

// The numbers of a call. A thread has more than its calls ask for.
const NUMBERS: i64 = 4;

const NUMBERS_OF_A_THREAD: i64 = 1_000_000;

const QUICK: &str = "SELECT $1 + n FROM generate_series(0, 3) AS n";

// Its server is silent for longer than a poll waits.
const SLOW: &str = "SELECT $1 + n FROM generate_series(0, 3) AS n, pg_sleep(0.02)";

// How a call ended.
enum End {
    // With all of its numbers.
    Whole,
    Dropped,
    // With a number that isn't its own, or too few.
    Wrong,
    Failed,
}

/// How many calls ended in which way, and how often no connection was to be had.
#[derive(Clone, Copy, Default)]
pub(crate) struct Tally {
    pub(crate) whole: u64,
    pub(crate) dropped: u64,
    pub(crate) wrong: u64,
    pub(crate) failed: u64,
    pub(crate) timed_out: u64,
}

impl Tally {
    fn count(&mut self, end: End) {
        let count = match end {
            End::Whole => &mut self.whole,
            End::Dropped => &mut self.dropped,
            End::Wrong => &mut self.wrong,
            End::Failed => &mut self.failed,
        };
        *count = count.saturating_add(1);
    }

    pub(crate) fn add(&mut self, other: Tally) {
        self.whole = self.whole.saturating_add(other.whole);
        self.dropped = self.dropped.saturating_add(other.dropped);
        self.wrong = self.wrong.saturating_add(other.wrong);
        self.failed = self.failed.saturating_add(other.failed);
        self.timed_out = self.timed_out.saturating_add(other.timed_out);
    }
}

// The query for the numbers from `first` on.
fn query(alloc: Global, sql: &str, first: i64) -> Result<Query, Error> {
    let mut arguments = PgArguments::new(alloc);
    arguments.add(first)?;
    Query::with(alloc, sql, &arguments)
}

fn is_row(alloc: Global, row: PgRow, number: i64) -> bool {
    let value: Option<i64> = row.try_get(alloc, 0).ok();
    drop(row);
    value == Some(number)
}

// Asks for the numbers from `first` on, and drops the call behind so many polls.
fn ask(
    alloc: Global,
    conn: &mut PgConnection<SocketLink>,
    query: Query,
    first: i64,
    polls: u32,
) -> End {
    let end = first.saturating_add(NUMBERS);
    let mut next = first;
    let mut call = conn.fetch(query);
    for _ in 0..polls {
        match call.poll_next() {
            Poll::Pending => {}
            Poll::Ready(Some(Ok(row))) => {
                if next == end || !is_row(alloc, row, next) {
                    return End::Wrong;
                }
                next = next.saturating_add(1);
            }
            Poll::Ready(Some(Err(error))) => {
                drop(error);
                return End::Failed;
            }
            Poll::Ready(None) => return if next == end { End::Whole } else { End::Wrong },
        }
    }
    End::Dropped
}

// What a call asks, and behind how many polls it is dropped: seven calls of sixteen are, unsent, behind some of their numbers, or while the server is silent.
fn plan(word: u32) -> (&'static str, u32) {
    let drawn = word % 16;
    if drawn < 5 {
        (QUICK, drawn)
    } else if drawn < 7 {
        (SLOW, drawn - 4)
    } else {
        (QUICK, POLLS)
    }
}

/// The calls of one thread, by a seed.
#[derive(Drop)]
pub(crate) struct Calls {
    random: Pcg32,
    next: i64,
    pub(crate) left: u32,
    pub(crate) tally: Tally,
}

impl Calls {
    pub(crate) fn new(seed: u64, thread: u32) -> Self {
        Calls {
            random: Pcg32::new(seed, u64::from(thread)),
            next: i64::from(thread).saturating_mul(NUMBERS_OF_A_THREAD),
            left: CALLS,
            tally: Tally::default(),
        }
    }

    /// No connection was to be had. Where it won't be had later, the calls that are left are not made.
    pub(crate) fn miss(&mut self, is_timed_out: bool) {
        if is_timed_out {
            self.tally.timed_out = self.tally.timed_out.saturating_add(1);
        } else {
            self.left = 0;
        }
    }

    /// Makes one call.
    pub(crate) fn call(&mut self, alloc: Global, conn: &mut PgConnection<SocketLink>) {
        let (sql, polls) = plan(self.random.next_word());
        let end = match query(alloc, sql, self.next) {
            Ok(query) => ask(alloc, conn, query, self.next, polls),
            Err(error) => {
                drop(error);
                End::Failed
            }
        };
        self.tally.count(end);
        self.next = self.next.saturating_add(NUMBERS);
        self.left = self.left.saturating_sub(1);
    }
}
