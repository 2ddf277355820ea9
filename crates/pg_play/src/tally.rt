ghost use Rattle.std.specs.Prelude.{◌≡◌, ◌<◌, ◌≤◌, ◌-◌, ◌^◌, [], None, IfOk, OnErr, length};
ghost use Rattle.pg_play.specs.Calls.{Adds, Finishes, pause_of};
ghost use Rattle.pg_play.specs.Shown.{described_as};

use crate::showing::{one_row, rows_of};
use pg_call::Prepared;
use pg_columns::PgColumns;
use pg_conn::CallAnswer;
use pg_report::{Answer, End, Item};
use pg_wire::Error;
use std::alloc::{AllocError, Global};

/// When a call is dropped: after so many polls that answered `Pending`, or so many items.
#[derive(Clone, Copy, Debug, PartialEq, Eq)]
pub(crate) struct Limits {
    pub(crate) polls: u32,
    pub(crate) most: u32,
}

/// What stops the polls of a call.
#[derive(Drop)]
pub(crate) enum Pause {
    Ended(End),
    /// A copy from the client is open: its data is awaited.
    Opened,
}

/// What one more item makes of its call.
#[derive(Clone, Copy)]
pub(crate) enum Added {
    /// It goes on.
    More,
    /// That is the last that it may show.
    Last,
    /// There is no memory for it.
    Starved,
}

impl Added {
    /// What of that stops the polls.
    pub(crate) fn pause(self) -> Option<Pause>
        ensures { result ≡ pause_of self }
    {
        match self {
            Added::More => None,
            Added::Last => Some(Pause::Ended(End::Dropped)),
            Added::Starved => Some(Pause::Ended(End::Err(Error::OutOfMemory))),
        }
    }
}

/// What a call has shown so far, and how often it has waited.
#[derive(Drop)]
pub(crate) struct Tally {
    pub(crate) items: Vec<Item>,
    pub(crate) waits: u32,
}

// A statement as it was described.
fn described(prepared: Prepared) -> Answer
    ensures { result ≡ described_as prepared }
{
    let mut prepared = prepared;
    let fields = prepared.columns.take().unwrap_or_else(PgColumns::none);
    let (_, parameters) = prepared.into_parts();
    Answer::Described { parameters, fields }
}

impl Tally {
    pub(crate) fn new(alloc: Global) -> Self
        ensures items { result.items.items ≡ [] }
        ensures waits { result.waits ≡ 0 }
    {
        Tally {
            items: Vec::new(alloc),
            waits: 0,
        }
    }

    /// One more item.
    pub(crate) fn add(&mut self, item: Item, limits: Limits) -> Added
        ensures adds { Adds limits item self.old self.new result }
        ensures waits { self.new.waits ≡ self.old.waits }
        ensures more { (2 ^ 64 - length self.new.items.items) ≤ (2 ^ 64 - length self.old.items.items) }
        ensures falls { result ≡ Added.More → (2 ^ 64 - length self.new.items.items) < (2 ^ 64 - length self.old.items.items) }
    {
        if self.items.push(item).is_err() {
            return Added::Starved;
        }
        if self.items.len() == limits.most as usize {
            return Added::Last;
        }
        Added::More
    }

    // The rows that come with an answer; without memory for them none is shown.
    fn show(&mut self, alloc: Global, rows: Result<Vec<Item>, AllocError>) -> End
        ensures waits { self.new.waits ≡ self.old.waits }
        ensures ok { IfOk rows (λ items. (self.new.items.items ≡ items.items) × (result ≡ End.Ok Answer.Unit)) }
        ensures err { OnErr rows ((self.new.items.items ≡ []) × (result ≡ End.Err Error.OutOfMemory)) }
    {
        match rows {
            Ok(items) => {
                self.items = items;
                End::Ok(Answer::Unit)
            }
            Err(_) => {
                self.items = Vec::new(alloc);
                End::Err(Error::OutOfMemory)
            }
        }
    }

    /// What a call answers, and the rows that it shows with its answer.
    pub(crate) fn finish(&mut self, alloc: Global, answer: CallAnswer) -> End
        ensures { Finishes answer self.old self.new result }
    {
        match answer {
            CallAnswer::Unit => End::Ok(Answer::Unit),
            CallAnswer::Statement(prepared) => End::Ok(described(prepared)),
            CallAnswer::Total(total) => End::Ok(Answer::Total(total.rows_affected())),
            CallAnswer::Rows(rows) => self.show(alloc, rows_of(alloc, rows.into_vec())),
            CallAnswer::OneRow(None) => self.show(alloc, Ok(Vec::new(alloc))),
            CallAnswer::OneRow(Some(row)) => self.show(alloc, one_row(alloc, row)),
        }
    }
}
