use pg_columns::PgColumns;
use pg_request::CacheStep;
use pg_wire::{Blob, DataRow, Error, Oids, Sequence};

/// One thing that a call showed.
#[derive(Debug, Drop)]
pub enum Item {
    Row(DataRow),
    /// The rows that a statement counted.
    Count(u64),
    /// A piece of a copy.
    Piece(Blob),
}

/// What a call answers where all went well.
#[derive(Debug, Drop)]
pub enum Answer {
    Unit,
    Total(u64),
    /// The types of a statement's parameters, and what was told of its columns.
    Described { parameters: Oids, fields: PgColumns },
    Held(bool),
}

/// How a step ended.
#[derive(Debug, Drop)]
pub enum End {
    Ok(Answer),
    Err(Error),
    Dropped,
}

/// What came of one step.
#[derive(Debug)]
pub struct Outcome {
    pub items: Sequence<Item>,
    pub end: End,
    pub groups: u64,
    pub heard: u64,
    pub cache: CacheStep,
    pub waits: u64,
    pub moved: u64,
}

// By hand, so that whoever lets one go makes one call, and doesn't go through its parts.
impl Drop for Outcome {
    fn drop(self) {
        let Outcome {
            items: _,
            end: _,
            groups: _,
            heard: _,
            cache: _,
            waits: _,
            moved: _,
        } = self;
    }
}

/// A start-up that went well: the bytes sent and read up to its end.
#[derive(Clone, Copy, Debug, PartialEq, Eq)]
pub struct Started {
    pub sent: u64,
    pub read: u64,
}
