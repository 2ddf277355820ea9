//! What follows from the definitions of this crate, each law as the contract of a function that does nothing.
ghost use Rattle.std.specs.Prelude.{◌≡◌, ◌<◌, ◌-◌, ◌^◌, ◌+◌, ◌≤◌, ℕ, List, Option, max, [], None, Some, IfSome, true, false};
ghost use Rattle.futures.specs.declared.task.Poll.{Poll};
ghost use Rattle.pg_call.specs.declared.answer.Turn.{Turn};
ghost use Rattle.pg_call.specs.declared.kind.Kind.{Kind};
ghost use Rattle.pg_call.specs.declared.request.Request.{Request};
ghost use Rattle.pg_call.specs.declared.request.Request.TheVariants as requests;
ghost use Rattle.pg_call.specs.Requests.{CanBeSaid, spelled};
ghost use Rattle.pg_conn.specs.Connections.{ConnSeen, cleaned, copies, ended, fresh_connection, has_fed, idle, left, left_by, may_open, restated, rollback, rolled_back, runs, started_call, started_next, with_copy_fail, with_group, with_spare};
ghost use Rattle.pg_conn.specs.Holding.{IsRelease, gave_up, held_more, took_held};
ghost use Rattle.pg_stream.specs.Streams.{StreamSeen};
ghost use Rattle.pg_conn.specs.Ledgers.{Owes, OwesSome};
ghost use Rattle.pg_conn.specs.States.{IsCalling};
ghost use Rattle.pg_conn.specs.Turns.{first_exchange, FlushesAtOnce, HasAllRoom, HasRoom, kept_for, level_of, PollsCall, PollsMore, PollsWithin, RefusesAtOnce};

use crate::PgConnection;
use pg_stream::Link;

/// The state of a call that is dropped before its first poll leaves the connection as it was: it has queued and taken nothing.
pub fn an_unpolled_call_does_nothing()
    ensures { (c : ConnSeen) (request : Request) → left_by (Some request) c ≡ c }
{}

/// A call that is given up, and that is neither a begin which may have opened a transaction nor a copy from the client, leaves all but itself as it is: what it queued stays
/// queued, and its reply stays owed.
pub fn a_dropped_call_stays_owed()
    ensures { (c : ConnSeen) → may_open c.change c.groups c.rule.depth ≡ false → copies c.change c.groups ≡ false → has_fed c.change c.groups ≡ false → ((left c).ledger ≡ c.ledger) × ((left c).stream ≡ c.stream) }
{}

/// A copy from the client that is given up once its group is queued, and before anything has ended it, is failed: a CopyFail is queued behind what was sent. There is room
/// for it, which takes no memory.
pub fn a_dropped_copy_is_failed()
    ensures { (c : ConnSeen) → runs c.call ≡ true → copies c.change c.groups ≡ true → HasRoom c → left c ≡ idle (cleaned (with_copy_fail c)) }
{}

/// A copy from the client that is given up behind the end of its data queues nothing, and its reply stays owed, for which no CopyFail is due any more.
pub fn a_dropped_copy_that_is_fed_stays_owed()
    ensures { (c : ConnSeen) → runs c.call ≡ true → has_fed c.change c.groups ≡ true → ((left c).ledger ≡ record c.ledger { is_copy_failed = true }) × ((left c).stream ≡ c.stream) }
{}

/// A begin that is given up once its group is queued, outside of any transaction, is followed by a rollback: one reply more is owed. There is
/// room for it, which takes no memory.
pub fn a_dropped_begin_is_rolled_back()
    ensures { (c : ConnSeen) → runs c.call ≡ true → may_open c.change c.groups c.rule.depth ≡ true → HasRoom c → c.ledger.owed < 2 ^ 64 - 1 → left c ≡ idle (ended (with_group (spelled (rollback 0)) (restated c))) }
{}

/// A request that no frame can say, for a zero byte in its text or for its length, is refused by its first poll, which does nothing
/// else. Only the fault of a broken connection comes before that refusal, and want of memory in its place.
pub fn what_no_frame_says_is_refused_at_once()
    ensures { (a b : ConnSeen) (request : Request) (answer : Poll Turn) → a.broken ≡ None → PollsCall (started_call request a) b answer → (CanBeSaid (first_exchange request a) → ⊥) → RefusesAtOnce request a b answer }
{}

/// A flush on a connection on which nothing is unsent and no reply is owed is done at its first poll, which calls no link and takes no
/// memory: it cannot fail.
pub fn a_flush_with_nothing_to_do_is_done()
    ensures { (a b : ConnSeen) (answer : Poll Turn) → a.broken ≡ None → (left a).ledger.owed ≡ 0 → (left a).stream.unsent ≡ [] → PollsCall (started_call requests.Flush a) b answer → FlushesAtOnce a b answer }
{}

/// The reply ledger law: behind each poll of a call one reply more is owed for each Query and Sync message that it queued, and one less
/// for each ReadyForQuery message that it took. A start and a drop of a call change nothing of that.
pub fn replies_owed_are_requests_less_readies()
    ensures polls { (kind : Kind) (left : ℕ) (a b : ConnSeen) (answer : Poll Turn) → IsCalling kind a → PollsWithin left a b answer → OwesSome a b }
    ensures more { (kind : Kind) (a b : ConnSeen) (answer : Poll Turn) → IsCalling kind a → PollsMore a b answer → OwesSome a b }
    ensures starts { (a : ConnSeen) (request : Request) → OwesSome a (started_call request a) }
    ensures goes_on { (a : ConnSeen) (request : Request) → OwesSome a (started_next request a) }
    ensures leaves { (a : ConnSeen) → OwesSome a (left a) }
    ensures rolls_back { (a : ConnSeen) → OwesSome a (rolled_back a) }
    ensures gives_up { (a : ConnSeen) (unlock : Option (List ℕ)) → OwesSome a (gave_up unlock a) }
    ensures takes_held { (a : ConnSeen) (unlock : Option (List ℕ)) → OwesSome a (took_held unlock a) }
{}

/// A running call that has queued a group has room for its cleanup, which takes no memory then: 128 bytes, and 64 more for a begin. Each call
/// begins so, and each poll keeps it so.
pub fn a_call_has_room_for_its_cleanup()
    ensures polls { (left : ℕ) (a b : ConnSeen) (answer : Poll Turn) → HasRoom a → PollsWithin left a b answer → HasRoom b }
    ensures more { (a b : ConnSeen) (answer : Poll Turn) → HasRoom a → PollsMore a b answer → HasRoom b }
    ensures starts { (a : ConnSeen) (request : Request) → HasRoom (started_call request a) }
{}

/// A connection has room for the cleanup of its call, for a rollback of each transaction and savepoint that is open, and for the release of each lock
/// that is held: 64 bytes each. It begins so behind start-up, and each poll, start, drop and rollback keeps it so, and each lock that is taken or let go.
pub fn a_connection_has_room_for_its_rollbacks()
    ensures polls { (left : ℕ) (a b : ConnSeen) (answer : Poll Turn) → HasAllRoom a → PollsWithin left a b answer → HasAllRoom b }
    ensures more { (a b : ConnSeen) (answer : Poll Turn) → HasAllRoom a → PollsMore a b answer → HasAllRoom b }
    ensures starts { (a : ConnSeen) (request : Request) → HasAllRoom a → HasAllRoom (started_call request a) }
    ensures goes_on { (a : ConnSeen) (request : Request) → HasAllRoom a → HasAllRoom (started_next request a) }
    ensures leaves { (a : ConnSeen) → HasAllRoom a → HasAllRoom (left a) }
    ensures rolls_back { (a : ConnSeen) → a.rule.depth < 2 ^ 64 → HasAllRoom a → HasAllRoom (rolled_back a) }
    ensures holds { (a : ConnSeen) (spare : ℕ) → kept_for a + level_of a.change a.groups + 192 ≤ spare → HasAllRoom (held_more (with_spare spare a)) }
    ensures gives_up { (a : ConnSeen) (unlock : Option (List ℕ)) → IfSome unlock IsRelease → HasAllRoom a → HasAllRoom (gave_up unlock a) }
    ensures takes_held { (a : ConnSeen) (unlock : Option (List ℕ)) → IfSome unlock IsRelease → HasAllRoom a → HasAllRoom (took_held unlock a) }
    ensures fresh { (capacity : ℕ) (stream : StreamSeen) (sent read : ℕ) → HasAllRoom (fresh_connection capacity stream sent read) }
{}

/// A guard that is dropped on a connection on which no lock is held does nothing there: so it is where its holder has put another connection in
/// place of the one on which the lock was taken.
pub fn where_no_lock_is_held_none_is_released()
    ensures { (a : ConnSeen) (unlock : Option (List ℕ)) → a.held ≡ 0 → took_held unlock a ≡ a }
{}

/// The same connection, whose next statement with a name gets this number, unless a greater one is due: so a caller can see what becomes of the last
/// numbers.
pub fn at_statement<L: Link>(conn: PgConnection<L>, number: u32) -> PgConnection<L>
    ensures { result ≡ record conn { rule = record conn.rule { next = max conn.rule.next number } } }
{
    let mut conn = conn;
    conn.rule.next = conn.rule.next.max(u64::from(number));
    conn
}
