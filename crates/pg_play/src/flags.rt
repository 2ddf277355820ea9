//! Steps that ask for the truth value of a lock. (PostgreSQL manual, "Advisory Lock Functions".)
ghost use Rattle.std.specs.Prelude.{◌≡◌, IfSome};
ghost use Rattle.pg_conn.specs.Connections.{seen_by};
ghost use Rattle.pg_conn.specs.Flags.{flag_in};
ghost use Rattle.pg_play.specs.Locks.{IsAsked, asking, flag_behind, flag_shown, flag_told, told_flag};
ghost use Rattle.pg_play.specs.Plays.{PlaysAs};

use crate::chaining::unprepared;
use crate::stepping::play_step;
use pg_conn::PgConnection;
use pg_locks::{PgAdvisoryLockKey, key_query};
use pg_report::{Answer, End, Item, Outcome};
use pg_script::{Call, Step};
use pg_stream::Link;
use pg_wire::{DataRow, Error, Sequence};
use std::alloc::Global;

// The step of the query of this text with the key's numbers.
fn asking(alloc: Global, step: &Step, text: &str, key: PgAdvisoryLockKey) -> Option<Step>
    ensures { IfSome result (λ asked. asked ≡ asking step.now text.now key) }
{
    let query = key_query(alloc, text, key).ok()?;
    Some(Step {
        call: Call::FetchOne(query),
        polls: step.polls,
        most: step.most,
    })
}

// The truth value in the first column of a row, or a null; None where there is neither.
fn flag_in(row: &DataRow) -> Option<Option<bool>>
    ensures { result ≡ flag_in row.now }
{
    if row.is_empty() {
        return None;
    }
    match row.get(0) {
        None => Some(None),
        Some([0]) => Some(Some(false)),
        Some([1]) => Some(Some(true)),
        Some(_) => None,
    }
}

fn flag_told(flag: Option<Option<bool>>) -> End
    ensures { result ≡ flag_told flag }
{
    match flag {
        Some(Some(flag)) => End::Ok(Answer::Held(flag)),
        Some(None) => End::Err(Error::ColumnDecode { index: 0 }),
        None => End::Err(Error::ColumnDecode { index: 0 }),
    }
}

// What a row that was shown tells.
fn flag_shown(items: &[Item]) -> End
    ensures { result ≡ flag_shown items.now }
{
    match items {
        [Item::Row(row), ..] => flag_told(flag_in(row)),
        _ => End::Err(Error::ColumnDecode { index: 0 }),
    }
}

// An Ok is told by the row.
fn settle(end: &mut End, items: &[Item])
    ensures { end.new ≡ flag_behind end.old items.now }
{
    match end {
        End::Ok(_) => *end = flag_shown(items),
        End::Err(_) | End::Dropped => {}
    }
}

// What is told of such a query: the row is its answer.
fn told_flag(alloc: Global, asked: Outcome) -> Outcome
    ensures { result ≡ told_flag asked }
{
    let mut told = asked;
    settle(&mut told.end, told.items.as_slice());
    told.items = Sequence::new(alloc);
    told
}

/// Plays the query of this text with the key's numbers, whose row tells a truth value.
pub(crate) fn ask<L: Link>(
    alloc: Global,
    conn: &mut PgConnection<L>,
    step: &Step,
    text: &str,
    key: PgAdvisoryLockKey,
) -> Outcome
    ensures plays { PlaysAs (seen_by L.seen conn.old) (seen_by L.seen conn.new) (IsAsked step.now text.now key result) }
    ensures held { conn.new.held ≡ conn.old.held }
{
    let Some(asked) = asking(alloc, step, text, key) else {
        return unprepared(alloc, conn, step);
    };
    let told = play_step(alloc, conn, &asked);
    drop(asked);
    told_flag(alloc, told)
}
