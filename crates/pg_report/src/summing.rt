ghost use Rattle.std.specs.Prelude.{◌≡◌, ◌++◌, IfOk, OnOk, string_bytes};
ghost use Rattle.pg_report.specs.Summary.{ended, is_ok, is_dropped, is_row, rows_after, rows_shown, summary, summary_line};

use crate::bytes::put_named_number;
use crate::lines::live_report;
use crate::outcome::{End, Item, Outcome, Started};
use pg_wire::Error;
use std::alloc::{AllocError, Global};

fn is_ok(end: &End) -> bool
    ensures { result ≡ is_ok end.now }
{
    match end {
        End::Ok(_) => true,
        End::Err(_) | End::Dropped => false,
    }
}

fn is_dropped(end: &End) -> bool
    ensures { result ≡ is_dropped end.now }
{
    match end {
        End::Dropped => true,
        End::Ok(_) | End::Err(_) => false,
    }
}

fn is_row(item: &Item) -> bool
    ensures { result ≡ is_row item.now }
{
    match item {
        Item::Row(_) => true,
        Item::Count(_) | Item::Piece(_) => false,
    }
}

fn count_ok(outcomes: &[Outcome]) -> usize
    ensures { result ≡ ended is_ok outcomes.now }
{
    let mut count = 0;
    for outcome in outcomes {
        if is_ok(&outcome.end) {
            count += 1;
        }
    }
    count
}

fn count_dropped(outcomes: &[Outcome]) -> usize
    ensures { result ≡ ended is_dropped outcomes.now }
{
    let mut count = 0;
    for outcome in outcomes {
        if is_dropped(&outcome.end) {
            count += 1;
        }
    }
    count
}

// The rows among items, and those before.
fn rows_after(before: u64, items: &[Item]) -> u64
    ensures { result ≡ rows_after before items.now }
{
    let mut rows = before;
    for item in items {
        if is_row(item) {
            rows = rows.saturating_add(1);
        }
    }
    rows
}

fn count_rows(outcomes: &[Outcome]) -> u64
    ensures { result ≡ rows_shown outcomes.now }
{
    let mut rows = 0;
    for outcome in outcomes {
        rows = rows_after(rows, outcome.items.as_slice());
    }
    rows
}

#[tactic(auto, unfolding(crate::specs::Summary::summary_line))]
fn put_summary_line(out: &mut String, outcomes: &[Outcome], sent: usize) -> Result<(), AllocError>
    ensures { OnOk result (string_bytes out.new ≡ string_bytes out.old ++ summary_line outcomes.now sent) }
{
    put_named_number(out, "steps", outcomes.len() as u64)?;
    put_named_number(out, " ok", count_ok(outcomes) as u64)?;
    put_named_number(out, " dropped", count_dropped(outcomes) as u64)?;
    put_named_number(out, " rows", count_rows(outcomes))?;
    put_named_number(out, " sent", sent as u64)?;
    out.push_str("\n")
}

fn summary_line(alloc: Global, outcomes: &[Outcome], sent: usize) -> Result<String, AllocError>
    ensures { IfOk result (λ t. string_bytes t ≡ summary_line outcomes.now sent) }
{
    let mut out = String::new(alloc);
    put_summary_line(&mut out, outcomes, sent)?;
    Ok(out)
}

/// What was played in one line: the steps, how many of them ended well and how many were dropped, the rows that they showed, and the
/// number of bytes that were sent. A start-up that failed is told as in a report.
#[tactic(auto, unfolding(crate::specs::Summary::summary, crate::specs::Report::live_report, crate::specs::Report::steps_from))]
pub fn summary(
    alloc: Global,
    start: &Result<Started, Error>,
    outcomes: &[Outcome],
    sent: &[u8],
) -> Result<String, AllocError>
    ensures { IfOk result (λ t. string_bytes t ≡ summary start.now outcomes.now sent.now) }
{
    match start {
        Ok(_) => summary_line(alloc, outcomes, sent.len()),
        Err(_) => live_report(alloc, start, &[]),
    }
}
