//! Steps that are calls of a connection one behind another.
ghost use Rattle.std.specs.Prelude.{◌≡◌, ◌<◌, ◌≤◌, ◌-◌, ◌^◌, IfSome, length};
ghost use Rattle.std.specs.List.{list_all};
ghost use Rattle.pg_conn.specs.Connections.{seen_by};
ghost use Rattle.pg_play.specs.Calls.{IsUnmade, PlaysStep};
ghost use Rattle.pg_play.specs.Chained.{IsChainedAs};
ghost use Rattle.pg_play.specs.Chains.{GoesOn, IsDescribed, asking_nulls, end_behind, has_flag, preparing, told_both};
ghost use Rattle.pg_play.specs.Plays.{PlaysAs, PlaysChain};

use crate::copying::copy_in;
use crate::flags::ask;
use crate::locking::{drop_lock, lock, try_lock};
use crate::stepping::{play_step, unmade};
use pg_conn::{PgConnection, Preparation, Query};
use pg_locks::PgAdvisoryLockKey;
use pg_nullable::nulls_query;
use pg_report::{Answer, End, Item, Outcome};
use pg_script::{Call, Chain, Step};
use pg_stream::Link;
use pg_wire::{Error, Sequence, Text};
use std::alloc::Global;
use std::mem;

/// The step of a preparation, in a copy of its own.
pub(crate) fn preparing(alloc: Global, step: &Step, sql: &Text) -> Option<Step>
    ensures { IfSome result (λ first. first ≡ preparing step.now sql.now) }
{
    let sql = sql.to_copy(alloc).ok()?;
    Some(Step {
        call: Call::Prepare(Preparation::untyped(alloc, sql)),
        polls: step.polls,
        most: step.most,
    })
}

// The query that comes behind a preparation that ended so.
fn query_behind(alloc: Global, end: &End) -> Result<Option<Query>, Error>
    ensures { GoesOn end.now result }
{
    match end {
        End::Ok(Answer::Described { fields, .. }) => nulls_query(alloc, fields.as_slice()),
        _ => Ok(None),
    }
}

/// The polls that are left to a step behind so many that waited.
pub(crate) fn polls_behind(step: &Step, waits: u64) -> u32
    ensures { result ≡ step.now.polls - waits }
{
    let waits = u32::try_from(waits).unwrap_or(u32::MAX);
    step.polls.saturating_sub(waits)
}

// The step of that query, behind a preparation that has waited in so many polls.
fn asking_nulls(step: &Step, waits: u64, query: Query) -> Step
    ensures { result ≡ asking_nulls step.now waits query }
{
    Step {
        call: Call::FetchAll(query),
        polls: polls_behind(step, waits),
        most: step.most,
    }
}

// Whether it is a row whose first column has a truth value or a null.
fn has_flag(item: &Item) -> bool
    ensures { result ≡ has_flag item.now }
{
    match item {
        Item::Row(row) if row.is_empty() => false,
        Item::Row(row) => matches!(row.get(0), None | Some([0 | 1])),
        Item::Count(_) | Item::Piece(_) => false,
    }
}

fn have_flags(items: &[Item]) -> bool
    ensures { result ≡ list_all has_flag items.now }
{
    items.iter().all(|item| has_flag(item))
}

// The end of both calls takes the place of the first one's.
fn settle(first: &mut End, has_flags: bool, later: &mut End)
    ensures { first.new ≡ end_behind first.old has_flags later.old }
{
    match later {
        End::Ok(_) if has_flags => {}
        End::Ok(_) => *first = End::Err(Error::ColumnDecode { index: 0 }),
        End::Err(_) | End::Dropped => mem::swap(first, later),
    }
}

// What is told of a preparation and of the query on nulls behind it.
fn both(alloc: Global, mut first: Outcome, mut later: Outcome) -> Outcome
    ensures { result ≡ told_both first later }
{
    let has_flags = have_flags(later.items.as_slice());
    settle(&mut first.end, has_flags, &mut later.end);
    first.items = Sequence::new(alloc);
    first.groups = first.groups.saturating_add(later.groups);
    first.heard = first.heard.saturating_add(later.heard);
    first.waits = first.waits.saturating_add(later.waits);
    first.moved = first.moved.saturating_add(later.moved);
    first
}

/// What comes of a step whose first call there was no memory for.
pub(crate) fn unprepared<L: Link>(alloc: Global, conn: &PgConnection<L>, step: &Step) -> Outcome
    ensures unmade { IsUnmade step.now result }
    ensures counts { conn.now.rule.depth < 2 ^ 64 }
{
    let _depth = conn.transaction_depth();
    unmade(alloc, step)
}

// A statement that is described in full.
fn describe<L: Link>(alloc: Global, conn: &mut PgConnection<L>, step: &Step, sql: &Text) -> Outcome
    ensures plays { PlaysAs (seen_by L.seen conn.old) (seen_by L.seen conn.new) (IsDescribed step.now sql.now result) }
    ensures held { conn.new.held ≡ conn.old.held }
{
    let Some(first) = preparing(alloc, step, sql) else {
        return unprepared(alloc, conn, step);
    };
    let mut told = play_step(alloc, conn, &first);
    drop(first);
    match query_behind(alloc, &told.end) {
        Ok(None) => told,
        Ok(Some(query)) => {
            let second = asking_nulls(step, told.waits, query);
            let later = play_step(alloc, conn, &second);
            drop(second);
            both(alloc, told, later)
        }
        Err(e) => {
            told.end = End::Err(e);
            told
        }
    }
}

// Plays a step that asks nothing.
fn play_flush<L: Link>(alloc: Global, conn: &mut PgConnection<L>, step: &Step) -> Outcome
    ensures plays { PlaysStep (seen_by L.seen conn.old) (seen_by L.seen conn.new) (record step.now { call = Call.Flush }) result }
    ensures counts { conn.old.rule.depth < 2 ^ 64 }
    ensures held { conn.new.held ≡ conn.old.held }
{
    let flush = Step {
        call: Call::Flush,
        polls: step.polls,
        most: step.most,
    };
    play_step(alloc, conn, &flush)
}

// Plays a step that is some calls.
fn play_calls<L: Link>(
    alloc: Global,
    conn: &mut PgConnection<L>,
    guards: &mut Vec<PgAdvisoryLockKey>,
    step: &Step,
    chain: &Chain,
) -> Outcome
    requires { length guards.old.items ≤ conn.old.held }
    ensures plays { PlaysAs (seen_by L.seen conn.old) (seen_by L.seen conn.new) (IsChainedAs (Call.Chain chain.now) guards.old.items guards.new.items step.now result) }
    ensures held { length guards.new.items ≤ conn.new.held }
{
    match chain {
        Chain::Describe(sql) => describe(alloc, conn, step, sql),
        Chain::CopyIn(copying) => copy_in(alloc, conn, step, copying.get()),
        Chain::Lock(key) => lock(alloc, conn, guards, step, *key),
        Chain::TryLock(key) => try_lock(alloc, conn, guards, step, *key),
        Chain::Unlock(key) => ask(alloc, conn, step, key.unlock_statement(), *key),
        Chain::DropLock(key) => drop_lock(alloc, conn, guards, step, *key),
    }
}

/// Plays one step, as one call or as some, where there are these guards of locks.
pub(crate) fn play_chain<L: Link>(
    alloc: Global,
    conn: &mut PgConnection<L>,
    guards: &mut Vec<PgAdvisoryLockKey>,
    step: &Step,
) -> Outcome
    requires { length guards.old.items ≤ conn.old.held }
    ensures plays { PlaysChain (seen_by L.seen conn.old) (seen_by L.seen conn.new) guards.old.items guards.new.items step.now result }
    ensures held { length guards.new.items ≤ conn.new.held }
{
    match &step.call {
        Call::Chain(chain) => play_calls(alloc, conn, guards, step, chain),
        Call::Release(_) => play_flush(alloc, conn, step),
        _ => play_step(alloc, conn, step),
    }
}
