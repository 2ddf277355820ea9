//! Steps that copy from the client.
ghost use Rattle.std.specs.Prelude.{◌≡◌, ◌<◌, true, ℕ, List, flat_map, length, IfErr, OnErr, OnOk};
ghost use Rattle.pg_wire.specs.Bytes.{HasNoNul};
ghost use Rattle.pg_wire.specs.Encoding.{Refuses};
ghost use Rattle.pg_wire.specs.Frontend.{CopyFail, HasFrontendFrame, frontend_frame};
ghost use Rattle.pg_request.specs.Queries.{plain_text};
ghost use Rattle.pg_call.specs.declared.feed.Feed as declared_feed;
ghost use Rattle.pg_call.specs.declared.request.Request.TheVariants as requests;
ghost use Rattle.pg_conn.specs.Connections.{ConnSeen, copy_aborted, seen_by};
ghost use Rattle.pg_play.specs.Calls.{IsCallPlaying, PlaysCall, PlaysStep, bounds};
ghost use Rattle.pg_play.specs.Chains.{feeding, flushing, is_cancel, told_behind};
ghost use Rattle.pg_play.specs.Feeding.{Feeds, cut};
ghost use Rattle.pg_play.specs.Opened.{IsFed, IsOpenWith, IsPolled, PlaysCopy, given_up_as, of_step};
ghost use Rattle.pg_report.specs.declared.outcome.End as declared_ends;
ghost use Rattle.pg_script.specs.declared.step.CopyEnd.TheVariants as copy_ends;
ghost use Rattle.pg_script.specs.declared.step.Copying as declared_copying;
ghost use Rattle.pg_script.specs.declared.step.Parting.TheVariants as partings;

use crate::stepping::{play_step, poll_on, stop, untouched};
use crate::tally::{Limits, Pause, Tally};
use pg_call::Feed;
use pg_conn::{PgConnection, Query, Request};
use pg_report::{Answer, End, Outcome};
use pg_script::{Call, CopyEnd, Copying, Step};
use pg_stream::Link;
use pg_wire::{Blob, Error, Poll, Text, encode_copy_fail};
use std::alloc::Global;
use std::mem;

// The most bytes that one message of data carries.
const PART_MAX: usize = 1073741818;

// Queues bytes of data in as many messages as they need: none where there are none.
fn feed_bytes<L>(conn: &mut PgConnection<L>, bytes: &[u8]) -> Result<(), Error>
    ensures { Feeds conn.old conn.new (cut bytes.now) result }
{
    if bytes.is_empty() {
        return Ok(());
    }
    let size = bytes.len().min(PART_MAX);
    match conn.feed(&bytes[..size]) {
        Ok(()) => feed_bytes(conn, &bytes[size..]),
        Err(e) => Err(e),
    }
}

// The same of pieces.
fn feed_pieces<L>(conn: &mut PgConnection<L>, pieces: &[Blob]) -> Result<(), Error>
    ensures { Feeds conn.old conn.new (flat_map cut pieces.now) result }
{
    for piece in pieces {
        feed_bytes(conn, piece.as_bytes())?;
    }
    Ok(())
}

// When the call of a step stops.
fn limits_of(step: &Step) -> Limits
    ensures { result ≡ of_step step.now }
{
    Limits {
        polls: step.polls,
        most: step.most,
    }
}

// What is told, with another end.
fn with_end(mut told: Outcome, mut end: End) -> Outcome
    ensures { result ≡ record told { end = end } }
{
    mem::swap(&mut told.end, &mut end);
    told
}

// ---- behind its data

// A copy all of whose data is queued, and its end.
fn go_on<L: Link>(
    alloc: Global,
    conn: &mut PgConnection<L>,
    mut tally: Tally,
    limits: Limits,
) -> Outcome
    requires playing { (a : ConnSeen) × (feed : declared_feed.Feed) × (feed.is_ended ≡ true) × IsCallPlaying limits a (seen_by L.seen conn.old) (requests.CopyIn feed) tally.waits tally.items.items }
    requires waits { tally.waits < limits.polls }
    ensures { (a : ConnSeen) (feed : declared_feed.Feed) → feed.is_ended ≡ true → IsCallPlaying limits a (seen_by L.seen conn.old) (requests.CopyIn feed) tally.waits tally.items.items → PlaysCall (bounds limits) a (seen_by L.seen conn.new) (requests.CopyIn feed) result }
{
    match poll_on(alloc, conn, &mut tally, limits) {
        Pause::Ended(end) => stop(conn, tally, end),
        Pause::Opened => stop(conn, tally, End::Dropped),
    }
}

// The end of its data is queued, and the server counts its rows.
fn finish<L: Link>(alloc: Global, conn: &mut PgConnection<L>, step: &Step, tally: Tally) -> Outcome
    requires waits { tally.waits < step.now.polls }
    requires fed { (copying : declared_copying.Copying) × (old : ConnSeen) × IsFed (of_step step.now) copying old (seen_by L.seen conn.old) tally.waits tally.items.items }
    ensures { (copying : declared_copying.Copying) (old : ConnSeen) → IsPolled old step.now → copying.end ≡ copy_ends.Finish → IsFed (of_step step.now) copying old (seen_by L.seen conn.old) tally.waits tally.items.items → PlaysCopy old (seen_by L.seen conn.new) step.now copying result }
{
    match conn.end_copy() {
        Ok(()) => go_on(alloc, conn, tally, limits_of(step)),
        Err(e) => stop(conn, tally, End::Err(e)),
    }
}

// Its data is sent, and it is left as it stands.
fn leave<L: Link>(conn: &mut PgConnection<L>, step: &Step, mut tally: Tally) -> Outcome
    requires waits { tally.waits < step.now.polls }
    ensures { (copying : declared_copying.Copying) (old : ConnSeen) → IsPolled old step.now → copying.end ≡ copy_ends.Leave → IsFed (of_step step.now) copying old (seen_by L.seen conn.old) tally.waits tally.items.items → PlaysCopy old (seen_by L.seen conn.new) step.now copying result }
{
    let limits = limits_of(step);
    loop {
        match conn.poll_fed() {
            Poll::Ready(Ok(())) => {
                let told = stop(conn, tally, End::Dropped);
                return with_end(told, End::Ok(Answer::Unit));
            }
            Poll::Ready(Err(e)) => return stop(conn, tally, End::Err(e)),
            Poll::Pending => {
                tally.waits += 1;
                if tally.waits == limits.polls {
                    return stop(conn, tally, End::Dropped);
                }
            }
        }
    }
}

// ---- a message of its own that fails it

// Queues it, where a frame can carry it.
fn fail<L>(alloc: Global, conn: &mut PgConnection<L>, message: &str) -> Result<(), Error>
    ensures ok { OnOk result (conn.new ≡ copy_aborted message.now conn.old) }
    ensures can { OnOk result (HasFrontendFrame (CopyFail message.now)) }
    ensures err { OnErr result (conn.new ≡ conn.old) }
    ensures cause { IfErr result (Refuses 0 (HasNoNul message.now) (length (frontend_frame (CopyFail message.now)).body)) }
{
    let mut frame = Blob::new(alloc);
    encode_copy_fail(&mut frame, message)?;
    conn.abort_copy(message)
}

// A flush with the polls that are left behind so many that waited.
fn flushing(step: &Step, waits: u64) -> Step
    ensures { result ≡ flushing step.now waits }
{
    let waits = u32::try_from(waits).unwrap_or(u32::MAX);
    Step {
        call: Call::Flush,
        polls: step.polls.saturating_sub(waits),
        most: step.most,
    }
}

// Whether the server tells that the client has given the copy up.
fn is_cancel(end: &End) -> bool
    ensures { result ≡ is_cancel end.now }
{
    match end {
        End::Err(Error::Database(details)) => details.code() == "57014",
        _ => false,
    }
}

// The end of the later, and the numbers of both.
fn told_behind(mut first: Outcome, mut later: Outcome) -> Outcome
    ensures { result ≡ told_behind first later }
{
    mem::swap(&mut first.end, &mut later.end);
    first.groups = first.groups.saturating_add(later.groups);
    first.heard = first.heard.saturating_add(later.heard);
    first.waits = first.waits.saturating_add(later.waits);
    first.moved = first.moved.saturating_add(later.moved);
    first
}

// The reply to what was failed is read up to the error that says so, and then to its end.
fn hear_failure<L: Link>(
    alloc: Global,
    conn: &mut PgConnection<L>,
    step: &Step,
    first: Outcome,
) -> Outcome
    ensures { (copying : declared_copying.Copying) (message : List ℕ) (old : ConnSeen) → IsPolled old step.now → copying.end ≡ copy_ends.Abort message → first.end ≡ declared_ends.End.Dropped → PlaysStep old (seen_by L.seen conn.old) (feeding step.now (given_up_as copying (partings.Failed message))) first → PlaysCopy old (seen_by L.seen conn.new) step.now copying result }
{
    let flush = flushing(step, first.waits);
    let later = play_step(alloc, conn, &flush);
    drop(flush);
    let is_cancel = is_cancel(&later.end);
    let told = told_behind(first, later);
    if !is_cancel {
        return told;
    }
    let flush = flushing(step, told.waits);
    let last = play_step(alloc, conn, &flush);
    drop(flush);
    told_behind(told, last)
}

// It is failed by a message of its own.
fn abort<L: Link>(
    alloc: Global,
    conn: &mut PgConnection<L>,
    step: &Step,
    message: &Text,
    tally: Tally,
) -> Outcome
    requires waits { tally.waits < step.now.polls }
    ensures { (copying : declared_copying.Copying) (old : ConnSeen) → IsPolled old step.now → copying.end ≡ copy_ends.Abort message.now → IsFed (of_step step.now) copying old (seen_by L.seen conn.old) tally.waits tally.items.items → PlaysCopy old (seen_by L.seen conn.new) step.now copying result }
{
    match fail(alloc, conn, message.as_str()) {
        Ok(()) => {
            let told = stop(conn, tally, End::Dropped);
            hear_failure(alloc, conn, step, told)
        }
        Err(e) => {
            let told = stop(conn, tally, End::Dropped);
            with_end(told, End::Err(e))
        }
    }
}

// ---- a step

// What becomes of it once its data is queued.
fn end_copy<L: Link>(
    alloc: Global,
    conn: &mut PgConnection<L>,
    step: &Step,
    end: &CopyEnd,
    tally: Tally,
) -> Outcome
    requires waits { tally.waits < step.now.polls }
    requires fed { (copying : declared_copying.Copying) × (old : ConnSeen) × IsFed (of_step step.now) copying old (seen_by L.seen conn.old) tally.waits tally.items.items }
    ensures { (copying : declared_copying.Copying) (old : ConnSeen) → IsPolled old step.now → copying.end ≡ end.now → IsFed (of_step step.now) copying old (seen_by L.seen conn.old) tally.waits tally.items.items → PlaysCopy old (seen_by L.seen conn.new) step.now copying result }
{
    match end {
        CopyEnd::Finish => finish(alloc, conn, step, tally),
        CopyEnd::Abort(message) => abort(alloc, conn, step, message, tally),
        CopyEnd::Leave => leave(conn, step, tally),
    }
}

// The call of a copy, from its begin to its end.
fn play_copy<L: Link>(
    alloc: Global,
    conn: &mut PgConnection<L>,
    step: &Step,
    copying: &Copying,
    query: Query,
) -> Outcome
    requires query { query ≡ plain_text copying.now.sql }
    requires polled { IsPolled (seen_by L.seen conn.old) step.now }
    ensures { PlaysCopy (seen_by L.seen conn.old) (seen_by L.seen conn.new) step.now copying.now result }
{
    conn.start(Request::CopyIn(Feed::new(alloc, query)));
    let mut tally = Tally::new(alloc);
    match poll_on(alloc, conn, &mut tally, limits_of(step)) {
        Pause::Ended(end) => stop(conn, tally, end),
        Pause::Opened => match feed_pieces(conn, copying.pieces.as_slice()) {
            Ok(()) => end_copy(alloc, conn, step, &copying.end, tally),
            Err(e) => stop(conn, tally, End::Err(e)),
        },
    }
}

/// Plays a step that copies from the client.
pub(crate) fn copy_in<L: Link>(
    alloc: Global,
    conn: &mut PgConnection<L>,
    step: &Step,
    copying: &Copying,
) -> Outcome
    ensures plays { PlaysCopy (seen_by L.seen conn.old) (seen_by L.seen conn.new) step.now copying.now result }
    ensures held { conn.new.held ≡ conn.old.held }
{
    let _depth = conn.transaction_depth();
    if step.polls == 0 || step.most == 0 {
        return untouched(alloc, End::Dropped);
    }
    match copying.sql.to_copy(alloc) {
        Ok(sql) => play_copy(alloc, conn, step, copying, Query::from_text(sql)),
        Err(_) => untouched(alloc, End::Err(Error::OutOfMemory)),
    }
}
