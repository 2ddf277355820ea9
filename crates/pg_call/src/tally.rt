ghost use Rattle.std.specs.Prelude.{◌≡◌, IfOk, OnErr};
ghost use Rattle.pg_call.specs.Items.{empty_tally, added, first_of, finished, yields, shown_if};

use crate::{CallAnswer, CallItem, How, Kind, PgQueryResult};
use pg_rows::PgRow;
use pg_wire::{Error, Sequence, TransactionStatus};
use std::alloc::{AllocError, Global};

/// What was made so far of the items of a call's own reply, for its answer.
pub struct Tally {
    /// The rows that its statements counted, up to `u64`'s greatest value.
    pub total: u64,
    /// The rows that come with the answer.
    pub rows: Sequence<PgRow>,
    /// The first row, where it comes with the answer.
    pub first: Option<PgRow>,
}

// By hand, so that whoever lets one go makes one call, and doesn't go through its parts.
impl Drop for Tally {
    fn drop(self) {
        let Tally {
            total: _,
            rows: _,
            first: _,
        } = self;
    }
}

impl Tally {
    /// No item has come.
    pub fn new(alloc: Global) -> Self
        ensures { result ≡ empty_tally }
    {
        Tally {
            total: 0,
            rows: Sequence::new(alloc),
            first: None,
        }
    }

    // Keeps the first row.
    fn keep_first(&mut self, row: PgRow)
        ensures { self.new ≡ record self.old { first = first_of self.old.first row } }
    {
        if self.first.is_none() {
            self.first = Some(row);
        }
    }

    // One more row, which is shown at once, kept for the answer, or dropped.
    fn add_row(&mut self, kind: Kind, row: PgRow) -> Result<Option<CallItem>, AllocError>
        ensures ok { IfOk result (λ shown. (self.new ≡ added kind self.old (CallItem.Row row)) × (shown ≡ shown_if (yields kind (CallItem.Row row)) (CallItem.Row row))) }
        ensures err { OnErr result (self.new ≡ self.old) }
    {
        match kind {
            Kind::Run(How::Fetch | How::FetchMany) => Ok(Some(CallItem::Row(row))),
            Kind::Run(How::FetchAll) => {
                self.rows.push(row)?;
                Ok(None)
            }
            Kind::Run(How::FetchOptional | How::FetchOne) => {
                self.keep_first(row);
                Ok(None)
            }
            _ => Ok(None),
        }
    }

    /// One more item. It comes back where the call shows it at once. Without memory nothing has changed.
    pub fn add(&mut self, kind: Kind, item: CallItem) -> Result<Option<CallItem>, AllocError>
        ensures ok { IfOk result (λ shown. (self.new ≡ added kind self.old item) × (shown ≡ shown_if (yields kind item) item)) }
        ensures err { OnErr result (self.new ≡ self.old) }
    {
        match item {
            CallItem::Row(row) => self.add_row(kind, row),
            CallItem::Piece(piece) => match kind {
                Kind::CopyOut => Ok(Some(CallItem::Piece(piece))),
                _ => Ok(None),
            },
            CallItem::Count(count) => {
                self.total = self.total.saturating_add(count.rows_affected());
                match kind {
                    Kind::Run(How::ExecuteMany | How::FetchMany) => Ok(Some(CallItem::Count(
                        count,
                    ))),
                    _ => Ok(None),
                }
            }
        }
    }

    /// What the call answers at the end of its reply, which told this status.
    pub fn finish(self, kind: Kind, status: TransactionStatus) -> Result<CallAnswer, Error>
        ensures { result ≡ finished kind self status }
    {
        let Tally { total, rows, first } = self;
        match kind {
            Kind::Run(How::Execute) | Kind::CopyIn => {
                Ok(CallAnswer::Total(PgQueryResult::new(total)))
            }
            Kind::Run(How::FetchAll) => Ok(CallAnswer::Rows(rows)),
            Kind::Run(How::FetchOptional) => Ok(CallAnswer::OneRow(first)),
            Kind::Run(How::FetchOne) => match first {
                Some(row) => Ok(CallAnswer::OneRow(Some(row))),
                None => Err(Error::RowNotFound),
            },
            Kind::Begin => match status {
                TransactionStatus::Transaction => Ok(CallAnswer::Unit),
                _ => Err(Error::BeginFailed(status)),
            },
            _ => Ok(CallAnswer::Unit),
        }
    }
}
