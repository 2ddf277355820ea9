ghost use Rattle.std.specs.Prelude.{◌≡◌, ◌<◌, ◌≤◌, ◌+◌, ◌-◌, ◌^◌, false, true, List, ℕ, None, Some, length};
ghost use Rattle.pg_request.specs.declared.progress.CacheStep.TheVariants as cache;
ghost use Rattle.pg_conn.specs.Connections.{ConnSeen, left, seen_by, runs};
ghost use Rattle.pg_call.specs.declared.request.Request.{Request};
ghost use Rattle.pg_conn.specs.Turns.{first_exchange};
ghost use Rattle.pg_play.specs.Calls.{IsCallPlaying, IsUnmade, Pauses, PollGives, pause_of, PlaysCall, PlaysPolled, PlaysStep, bounds, first_conn, outcome_of, untouched};
ghost use Rattle.pg_play.specs.Shown.{IsUncopied, IsWanted, is_release};

use crate::asking::request_of;
use crate::showing::item_of;
use crate::tally::{Added, Limits, Pause, Tally};
use pg_conn::{CacheStep, PgConnection, Progress, Request, Turn};
use pg_report::{Answer, End, Item, Outcome};
use pg_script::{Call, Step};
use pg_stream::Link;
use pg_wire::{Error, Poll, Sequence};
use std::alloc::Global;

// One poll of the running call, and whether it stops the polls: at its end, where it has waited often enough, or where a copy from the client is open.
fn poll_turn<L: Link>(
    alloc: Global,
    conn: &mut PgConnection<L>,
    tally: &mut Tally,
    limits: Limits,
) -> Option<Pause>
    requires runs { runs conn.old.call ≡ true }
    requires waits { tally.old.waits < limits.polls }
    ensures gives { (a : ConnSeen) (r : Request) → IsCallPlaying limits a (seen_by L.seen conn.old) r tally.old.waits tally.old.items.items
        → PollGives limits a (seen_by L.seen conn.new) r tally.new.waits tally.new.items.items result }
    ensures goes { result ≡ None → tally.new.waits < limits.polls }
    ensures opens { result ≡ Some Pause.Opened → tally.new.waits < limits.polls }
    ensures falls { result ≡ None → (limits.polls - tally.new.waits) + (2 ^ 64 - length tally.new.items.items) < (limits.polls - tally.old.waits) + (2 ^ 64 - length tally.old.items.items) }
{
    match conn.poll_call() {
        Poll::Pending => {
            tally.waits += 1;
            if tally.waits == limits.polls {
                Some(Pause::Ended(End::Dropped))
            } else {
                None
            }
        }
        Poll::Ready(Turn::Item(item)) => tally.add(item_of(item), limits).pause(),
        Poll::Ready(Turn::Ok(answer)) => Some(Pause::Ended(tally.finish(alloc, answer))),
        Poll::Ready(Turn::Err(e)) => Some(Pause::Ended(End::Err(e))),
        Poll::Ready(Turn::Opened(_)) => Some(Pause::Opened),
    }
}

// Tells the rows that have come already, one poll each, as far as they are shown at once.
fn tell_rows<L: Link>(conn: &mut PgConnection<L>, tally: &mut Tally, limits: Limits) -> Added
    requires waits { tally.old.waits < limits.polls }
    ensures gives { (a : ConnSeen) (r : Request) → IsCallPlaying limits a (seen_by L.seen conn.old) r tally.old.waits tally.old.items.items
        → PollGives limits a (seen_by L.seen conn.new) r tally.new.waits tally.new.items.items (pause_of result) }
    ensures waits { tally.new.waits ≡ tally.old.waits }
    ensures more { (2 ^ 64 - length tally.new.items.items) ≤ (2 ^ 64 - length tally.old.items.items) }
{
    loop {
        match conn.try_row() {
            None => return Added::More,
            Some(row) => {
                let added = tally.add(Item::Row(row.into_values()), limits);
                match added {
                    Added::More => {}
                    _ => return added,
                }
            }
        }
    }
}

// The rows that have come already, and then one poll more.
fn poll_once<L: Link>(
    alloc: Global,
    conn: &mut PgConnection<L>,
    tally: &mut Tally,
    limits: Limits,
) -> Option<Pause>
    requires playing { (a : ConnSeen) × (r : Request) × IsCallPlaying limits a (seen_by L.seen conn.old) r tally.old.waits tally.old.items.items }
    requires waits { tally.old.waits < limits.polls }
    ensures gives { (a : ConnSeen) (r : Request) → IsCallPlaying limits a (seen_by L.seen conn.old) r tally.old.waits tally.old.items.items
        → PollGives limits a (seen_by L.seen conn.new) r tally.new.waits tally.new.items.items result }
    ensures goes { result ≡ None → tally.new.waits < limits.polls }
    ensures opens { result ≡ Some Pause.Opened → tally.new.waits < limits.polls }
    ensures falls { result ≡ None → (limits.polls - tally.new.waits) + (2 ^ 64 - length tally.new.items.items) < (limits.polls - tally.old.waits) + (2 ^ 64 - length tally.old.items.items) }
{
    match tell_rows(conn, tally, limits).pause() {
        None => poll_turn(alloc, conn, tally, limits),
        pause => pause,
    }
}

/// Polls the running call until something stops the polls.
pub(crate) fn poll_on<L: Link>(
    alloc: Global,
    conn: &mut PgConnection<L>,
    tally: &mut Tally,
    limits: Limits,
) -> Pause
    requires playing { (a : ConnSeen) × (r : Request) × IsCallPlaying limits a (seen_by L.seen conn.old) r tally.old.waits tally.old.items.items }
    requires waits { tally.old.waits < limits.polls }
    ensures pauses { (a : ConnSeen) (r : Request) → IsCallPlaying limits a (seen_by L.seen conn.old) r tally.old.waits tally.old.items.items
        → Pauses limits a (seen_by L.seen conn.new) r tally.new.waits tally.new.items.items result }
    ensures opens { result ≡ Pause.Opened → tally.new.waits < limits.polls }
{
    loop {
        match poll_once(alloc, conn, tally, limits) {
            None => {}
            Some(pause) => return pause,
        }
    }
}

/// What came of a step, with the numbers of its call.
pub(crate) fn outcome(items: Vec<Item>, end: End, progress: Progress) -> Outcome
    ensures { result ≡ record { items = items.items; end = end; groups = progress.groups; heard = progress.heard; cache = progress.cache; waits = progress.waits; moved = progress.moved } }
{
    Outcome {
        items: Sequence::from_vec(items),
        end,
        groups: progress.groups,
        heard: progress.heard,
        cache: progress.cache,
        waits: progress.waits,
        moved: progress.moved,
    }
}

/// What came of a step that did nothing.
pub(crate) fn untouched(alloc: Global, end: End) -> Outcome
    ensures { result ≡ untouched end }
{
    let progress = Progress {
        groups: 0,
        heard: 0,
        cache: CacheStep::Same,
        waits: 0,
        moved: 0,
    };
    outcome(Vec::new(alloc), end, progress)
}

/// What comes of a step for whose call there was no memory.
pub(crate) fn unmade(alloc: Global, step: &Step) -> Outcome
    ensures { IsUnmade step.now result }
{
    if step.polls == 0 || step.most == 0 {
        untouched(alloc, End::Dropped)
    } else {
        untouched(alloc, End::Err(Error::OutOfMemory))
    }
}

/// What came of a call that came to this end: it is given up, where it runs still.
pub(crate) fn stop<L: Link>(conn: &mut PgConnection<L>, tally: Tally, end: End) -> Outcome
    ensures left { conn.new ≡ left conn.old }
    ensures tells { result ≡ outcome_of (seen_by L.seen conn.new) tally.items.items end }
{
    conn.abandon();
    outcome(tally.items, end, conn.progress())
}

// Polls a call until it ends, or is dropped. It copies nothing from the client.
fn play_call<L: Link>(
    alloc: Global,
    conn: &mut PgConnection<L>,
    request: Request,
    limits: Limits,
) -> Outcome
    requires wanted { IsWanted request }
    requires plain { IsUncopied request }
    requires polls { 0 < limits.polls }
    requires most { 0 < limits.most }
    ensures { PlaysCall (bounds limits) (first_conn request (seen_by L.seen conn.old)) (seen_by L.seen conn.new) (first_exchange request (seen_by L.seen conn.old)) result }
{
    conn.start(request);
    let mut tally = Tally::new(alloc);
    match poll_on(alloc, conn, &mut tally, limits) {
        Pause::Ended(end) => stop(conn, tally, end),
        Pause::Opened => stop(conn, tally, End::Dropped),
    }
}

// A call that is polled: until it ends, or is dropped after `polls` polls that answered `Pending`, or after `most` items. With none of
// either it is not begun.
fn play_polled<L: Link>(
    alloc: Global,
    conn: &mut PgConnection<L>,
    depth: u64,
    step: &Step,
) -> Outcome
    requires depth { depth ≡ conn.old.rule.depth }
    ensures { PlaysPolled (seen_by L.seen conn.old) (seen_by L.seen conn.new) step.now result }
{
    if step.polls == 0 || step.most == 0 {
        return untouched(alloc, End::Dropped);
    }
    let limits = Limits {
        polls: step.polls,
        most: step.most,
    };
    if depth > 0 && matches!(step.call, Call::BeginWith(_)) {
        return untouched(alloc, End::Err(Error::InvalidSavePointStatement));
    }
    match request_of(alloc, depth, &step.call) {
        Ok(request) => play_call(alloc, conn, request, limits),
        Err(_) => untouched(alloc, End::Err(Error::OutOfMemory)),
    }
}

/// Plays one step: a rollback without waiting, which is done at once, or a call that is polled.
pub(crate) fn play_step<L: Link>(alloc: Global, conn: &mut PgConnection<L>, step: &Step) -> Outcome
    requires { is_release step.now.call ≡ false }
    ensures held { conn.new.held ≡ conn.old.held }
    ensures plays { PlaysStep (seen_by L.seen conn.old) (seen_by L.seen conn.new) step.now result }
    ensures counts { conn.old.rule.depth < 2 ^ 64 }
{
    let depth = conn.transaction_depth();
    if let Call::StartRollback = step.call {
        conn.start_rollback();
        outcome(Vec::new(alloc), End::Ok(Answer::Unit), conn.progress())
    } else {
        play_polled(alloc, conn, depth, step)
    }
}
