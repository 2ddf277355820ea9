//! Steps about advisory locks. (PostgreSQL manual, "Advisory Lock Functions".)
ghost use Rattle.std.specs.Prelude.{◌≡◌, ◌<◌, ◌≤◌, ◌+◌, ◌-◌, ◌^◌, true, IfSome, length};
ghost use Rattle.pg_conn.specs.Connections.{seen_by};
ghost use Rattle.pg_locks.specs.Keys.{with_key};
ghost use Rattle.pg_locks.specs.Locks.{lock_statement, try_lock_statement};
ghost use Rattle.pg_play.specs.Calls.{PlaysStep};
ghost use Rattle.pg_play.specs.Chains.{preparing};
ghost use Rattle.pg_play.specs.Locks.{GivesUp, IsAsked, IsLocked, end_locked, guards_behind, is_due, is_had, is_open, lock_at, releasing, told_locked, told_released};
ghost use Rattle.pg_play.specs.Places.{is_fine};
ghost use Rattle.pg_play.specs.Plays.{PlaysAs};
ghost use Rattle.pg_script.specs.declared.step.Step as declared_step;

use crate::chaining::{polls_behind, preparing, unprepared};
use crate::flags::ask;
use crate::guards::{first_of, has_room, is_had};
use crate::stepping::{outcome, play_step, untouched};
use pg_conn::{CacheStep, PgConnection, Query};
use pg_locks::{PgAdvisoryLockKey, key_query};
use pg_report::{Answer, End, Outcome};
use pg_script::{Call, Step};
use pg_stream::Link;
use pg_wire::{Error, Sequence, Text};
use std::alloc::Global;
use std::mem;

// Releases the lock of a guard that is given up, without waiting for it.
fn release<L: Link>(alloc: Global, conn: &mut PgConnection<L>, key: PgAdvisoryLockKey) -> Outcome
    requires { 0 < conn.old.held }
    ensures plays { (step : declared_step.Step) → PlaysStep (seen_by L.seen conn.old) (seen_by L.seen conn.new) (releasing step key) result }
    ensures counts { conn.old.rule.depth < 2 ^ 64 }
    ensures held { conn.new.held ≡ conn.old.held - 1 }
{
    let _depth = conn.transaction_depth();
    let text = key.unlock_query();
    let _ = conn.take_held(Some(text.as_str()));
    outcome(Vec::new(alloc), End::Ok(Answer::Unit), conn.progress())
}

/// Gives up the first guard of a key, where there is one.
pub(crate) fn drop_lock<L: Link>(
    alloc: Global,
    conn: &mut PgConnection<L>,
    guards: &mut Vec<PgAdvisoryLockKey>,
    step: &Step,
    key: PgAdvisoryLockKey,
) -> Outcome
    requires { length guards.old.items ≤ conn.old.held }
    ensures plays { PlaysAs (seen_by L.seen conn.old) (seen_by L.seen conn.new) (GivesUp step.now key guards.old.items guards.new.items result) }
    ensures held { length guards.new.items ≤ conn.new.held }
{
    match first_of(guards, key) {
        None => untouched(alloc, End::Ok(Answer::Unit)),
        Some(index) => {
            let _ = guards.remove(index);
            release(alloc, conn, key)
        }
    }
}

/// Asks for a lock that nobody else holds. Where it is had there is one guard more.
pub(crate) fn try_lock<L: Link>(
    alloc: Global,
    conn: &mut PgConnection<L>,
    guards: &mut Vec<PgAdvisoryLockKey>,
    step: &Step,
    key: PgAdvisoryLockKey,
) -> Outcome
    requires { length guards.old.items ≤ conn.old.held }
    ensures plays { PlaysAs (seen_by L.seen conn.old) (seen_by L.seen conn.new) (IsAsked step.now (try_lock_statement key) key result) }
    ensures guards { guards.new.items ≡ guards_behind key guards.old.items result.end }
    ensures held { length guards.new.items ≤ conn.new.held }
{
    if !has_room(conn, guards) {
        return unprepared(alloc, conn, step);
    }
    let told = ask(alloc, conn, step, key.try_lock_statement(), key);
    if is_had(&told.end) {
        guards.push_reserved(key);
    }
    told
}

// The step of the statement that locks, behind its preparation, which has waited in so many polls.
fn locking(step: &Step, waits: u64, query: Query) -> Step
    ensures { result ≡ record step.now { call = Call.Execute query; polls = step.now.polls - waits } }
{
    Step {
        call: Call::Execute(query),
        polls: polls_behind(step, waits),
        most: step.most,
    }
}

// The step of its preparation, and the query that comes behind it.
fn begin(alloc: Global, step: &Step, key: PgAdvisoryLockKey) -> Option<(Step, Query)>
    ensures { IfSome result (λ begun. (begun.0 ≡ preparing step.now (lock_statement key)) × (begun.1 ≡ with_key (lock_statement key) key)) }
{
    let sql = Text::from_str(alloc, key.lock_statement()).ok()?;
    let query = key_query(alloc, key.lock_statement(), key).ok()?;
    let first = preparing(alloc, step, &sql)?;
    Some((first, query))
}

// Whether neither Ok nor an error of the server has answered a call.
fn is_open(end: &End) -> bool
    ensures { result ≡ is_open end.now }
{
    match end {
        End::Ok(_) | End::Err(Error::Database(_)) => false,
        End::Err(_) | End::Dropped => true,
    }
}

// How many groups the call that locks has queued once the lock is asked for.
fn lock_at(cache: CacheStep) -> u64
    ensures { result ≡ lock_at cache }
{
    match cache {
        CacheStep::Same => 2,
        CacheStep::Hit | CacheStep::Put | CacheStep::PutEvicting => 1,
    }
}

// Whether the session may hold the lock, though nobody has it.
fn is_due(first: &Outcome, later: &Outcome) -> bool
    ensures { result ≡ is_due first.now later.now }
{
    is_open(&later.end) && lock_at(first.cache) <= later.groups
}

// The end of the call that locks takes the place of the first one's.
fn settle(first: &mut End, later: &mut End)
    ensures { first.new ≡ end_locked later.old }
{
    match later {
        End::Ok(_) => *first = End::Ok(Answer::Unit),
        End::Err(_) | End::Dropped => mem::swap(first, later),
    }
}

// What is told of both calls.
fn told_locked(alloc: Global, mut first: Outcome, mut later: Outcome) -> Outcome
    ensures { result ≡ told_locked first later }
{
    settle(&mut first.end, &mut later.end);
    first.items = Sequence::new(alloc);
    first.groups = first.groups.saturating_add(later.groups);
    first.heard = first.heard.saturating_add(later.heard);
    first.waits = first.waits.saturating_add(later.waits);
    first.moved = first.moved.saturating_add(later.moved);
    first
}

// And of the release behind them.
fn told_released(alloc: Global, first: Outcome, later: Outcome, act: Outcome) -> Outcome
    ensures { result ≡ told_released first later act }
{
    let mut told = told_locked(alloc, first, later);
    told.groups = told.groups.saturating_add(act.groups);
    told
}

// Whether a call ended Ok.
fn is_fine(end: &End) -> bool
    ensures { result ≡ is_fine end.now }
{
    matches!(end, End::Ok(_))
}

// Takes a lock, which is waited for. What was asked for and isn't had is released.
fn play_lock<L: Link>(
    alloc: Global,
    conn: &mut PgConnection<L>,
    step: &Step,
    key: PgAdvisoryLockKey,
) -> Outcome
    requires { 0 < conn.old.held }
    ensures plays { PlaysAs (seen_by L.seen conn.old) (seen_by L.seen conn.new) (IsLocked step.now key result) }
    ensures held { conn.old.held ≤ conn.new.held + 1 }
    ensures had { is_had result.end ≡ true → conn.new.held ≡ conn.old.held }
{
    let Some((first, query)) = begin(alloc, step, key) else {
        return unprepared(alloc, conn, step);
    };
    let told = play_step(alloc, conn, &first);
    drop(first);
    if !is_fine(&told.end) {
        drop(query);
        return told;
    }
    let second = locking(step, told.waits, query);
    let later = play_step(alloc, conn, &second);
    drop(second);
    if is_due(&told, &later) {
        let act = release(alloc, conn, key);
        told_released(alloc, told, later, act)
    } else {
        told_locked(alloc, told, later)
    }
}

/// Takes a lock, which is waited for. Where it is had there is one guard more.
pub(crate) fn lock<L: Link>(
    alloc: Global,
    conn: &mut PgConnection<L>,
    guards: &mut Vec<PgAdvisoryLockKey>,
    step: &Step,
    key: PgAdvisoryLockKey,
) -> Outcome
    requires { length guards.old.items ≤ conn.old.held }
    ensures plays { PlaysAs (seen_by L.seen conn.old) (seen_by L.seen conn.new) (IsLocked step.now key result) }
    ensures guards { guards.new.items ≡ guards_behind key guards.old.items result.end }
    ensures held { length guards.new.items ≤ conn.new.held }
{
    if !has_room(conn, guards) {
        return unprepared(alloc, conn, step);
    }
    let told = play_lock(alloc, conn, step, key);
    if is_had(&told.end) {
        guards.push_reserved(key);
    }
    told
}
