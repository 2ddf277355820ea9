ghost use Rattle.std.specs.Prelude.{◌≡◌, ℕ, false, Some};
ghost use Rattle.pg_auth.specs.Nonce.{IsNonce};
ghost use Rattle.pg_startup.specs.Establishing.{IsKept, IsLeft, kept_link, establish_by};
ghost use Rattle.pg_startup.specs.declared.starting.Phase.TheVariants as phases;
ghost use Rattle.pg_stream.specs.Links.{LinkSeen};
ghost use Rattle.pg_play.specs.Starts.{Opening, opening_of, IsPending, Hands, KeepsAsMany, StartsAs, StartsOn};

use pg_conn::{Establish, PgConnection, establish};
use pg_options::PgConnectOptions;
use pg_stream::Link;
use pg_wire::{Error, Poll};
use std::alloc::Global;

// The link of a start-up that has handed out no connection.
fn link_of<L>(establish: Establish<L>) -> L
    requires { IsKept establish.startup.phase }
    ensures { kept_link establish.startup.phase ≡ Some result }
{
    match establish.into_link() {
        Some(link) => link,
        None => unreachable!(),
    }
}

// Lets go of a start-up that has handed out its connection.
fn end<L>(establish: Establish<L>)
    requires { establish.startup.phase ≡ phases.Gone }
{
    match establish.into_link() {
        Some(_) => unreachable!(),
        None => {}
    }
}

// One poll, behind which what is left of the start-up is known.
fn poll_once<L: Link>(establish: &mut Establish<L>) -> Poll<Result<PgConnection<L>, Error>>
    requires { establish.old.startup.is_finished ≡ false }
    ensures left { IsLeft establish.new.startup result }
    ensures capacity { establish.new.capacity ≡ establish.old.capacity }
    ensures starts { (opening : Opening) (first last : LinkSeen) (n : ℕ) → KeepsAsMany opening establish.old → IsPending opening first last n (establish_by L.seen establish.old.startup)
        → StartsOn L.seen opening first n establish.new.startup result }
{
    establish.poll()
}

// Hands the connection over, or the error and the link.
fn hand_over<L>(
    establish: Establish<L>,
    answer: Result<PgConnection<L>, Error>,
) -> Result<PgConnection<L>, (Error, L)>
    requires { IsLeft establish.startup (Poll.Ready answer) }
    ensures { Hands establish.startup answer result }
{
    match answer {
        Ok(conn) => {
            end(establish);
            Ok(conn)
        }
        Err(e) => Err((e, link_of(establish))),
    }
}

// Polls a start-up until it answers, or has answered `Pending` so many times.
fn poll_start<L: Link>(
    mut establish: Establish<L>,
    polls: u32,
) -> Result<PgConnection<L>, (Error, L)>
    requires goes { establish.startup.is_finished ≡ false }
    requires kept { IsKept establish.startup.phase }
    ensures { (opening : Opening) (first last : LinkSeen) → KeepsAsMany opening establish → IsPending opening first last 0 (establish_by L.seen establish.startup) → StartsAs L.seen opening polls first result }
{
    for _ in 0..polls {
        match poll_once(&mut establish) {
            Poll::Pending => {}
            Poll::Ready(answer) => return hand_over(establish, answer),
        }
    }
    Err((Error::StartupPending, link_of(establish)))
}

/// Runs a start-up of so many polls at most. Where none answers it is `StartupPending`.
pub(crate) fn start_up<L: Link>(
    alloc: Global,
    options: &PgConnectOptions,
    nonce: &[u8],
    polls: u32,
    link: L,
) -> Result<PgConnection<L>, (Error, L)>
    requires { IsNonce nonce.now }
    ensures { StartsAs L.seen (opening_of options.now nonce.now (L.seen link).plan) polls (L.seen link) result }
{
    match establish(alloc, options, nonce, link) {
        Ok(establish) => poll_start(establish, polls),
        Err(refused) => Err(refused),
    }
}
