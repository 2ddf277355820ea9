ghost use Rattle.std.specs.Prelude.{◌≡◌, ◌≤◌, ℕ, [], length, vec_capacity, Err, IfOk, IfErr};
ghost use Rattle.pg_auth.specs.Nonce.{IsNonce};
ghost use Rattle.pg_stream.specs.Links.{LinkSeen};
ghost use Rattle.pg_conn.specs.Connections.{seen_by};
ghost use Rattle.pg_play.specs.Plays.{Plays};
ghost use Rattle.pg_play.specs.Starts.{Opening, HasOpened, StartEnds, opening_of};
ghost use Rattle.pg_play.specs.Top.{HasOutcomes};

use crate::chaining::play_chain;
use crate::guards::keep_room;
use crate::played::Played;
use crate::starting::start_up;
use pg_conn::PgConnection;
use pg_options::PgConnectOptions;
use pg_report::{Outcome, Started};
use pg_script::Step;
use pg_stream::Link;
use pg_wire::{Error, Sequence};
use std::alloc::Global;

// What came of a start-up that failed.
fn failed<L>(alloc: Global, error: Error, link: L) -> Played<L>
    ensures start { result.start ≡ Err error }
    ensures link { result.link ≡ link }
    ensures outcomes { result.outcomes ≡ [] }
{
    Played {
        link,
        start: Err(error),
        outcomes: Sequence::new(alloc),
    }
}

// Plays the steps in order; there is room for their outcomes.
fn play_steps<L: Link>(
    alloc: Global,
    mut conn: PgConnection<L>,
    steps: &[Step],
    mut outcomes: Vec<Outcome>,
) -> Played<L>
    requires none { outcomes.items ≡ [] }
    requires room { length steps.now ≤ vec_capacity outcomes }
    ensures outcomes { HasOutcomes (length steps.now) result.start (length result.outcomes) }
    ensures started { IfErr result.start (λ e. ⊥) }
    ensures plays { (opening : Opening) (polls : ℕ) (link : LinkSeen) → HasOpened opening polls link (seen_by L.seen conn) → IfOk result.start (λ started. Plays opening polls link (L.seen result.link) started steps.now result.outcomes) }
{
    keep_room(&mut conn, steps);
    let (sent, read) = conn.started();
    let mut guards = Vec::new(alloc);
    for step in steps {
        let outcome = play_chain(alloc, &mut conn, &mut guards, step);
        outcomes.push(outcome).unwrap();
    }
    Played {
        link: conn.close_hard(),
        start: Ok(Started { sent, read }),
        outcomes: Sequence::from_vec(outcomes),
    }
}

/// Runs a start-up, and then steps in order, over a link. The nonce is the client's for SCRAM. Start-up is polled `start_polls` times at most, and a step's call as
/// often as the step says; a call that has not ended by then is dropped, and the next step follows.
///
/// Room for all outcomes is taken before start-up. Where it is refused, start-up is `OutOfMemory`.
pub fn play<L: Link>(
    alloc: Global,
    options: &PgConnectOptions,
    nonce: &[u8],
    start_polls: u32,
    steps: &[Step],
    link: L,
) -> Played<L>
    requires { IsNonce nonce.now }
    // Behind a start-up every step has its outcome, in order, and behind a failed one there is none.
    ensures outcomes { HasOutcomes (length steps.now) result.start (length result.outcomes) }
    // A start-up that fails has its cause.
    ensures start { IfErr result.start (StartEnds (opening_of options.now nonce.now (L.seen link).plan) start_polls (L.seen link) (L.seen result.link)) }
    // Else the handshake was made, and from there on each outcome tells what its step queued and heard, why it ended so, and what it showed.
    ensures plays { IfOk result.start (λ started. Plays (opening_of options.now nonce.now (L.seen link).plan) start_polls (L.seen link) (L.seen result.link) started steps.now result.outcomes) }
{
    let Ok(outcomes) = Vec::with_capacity(alloc, steps.len()) else {
        return failed(alloc, Error::OutOfMemory, link);
    };
    match start_up(alloc, options, nonce, start_polls, link) {
        Ok(conn) => play_steps(alloc, conn, steps, outcomes),
        Err((error, link)) => failed(alloc, error, link),
    }
}
