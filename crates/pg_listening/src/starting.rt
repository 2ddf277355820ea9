//! A start-up of a listener's connection.
ghost use Rattle.std.specs.Prelude.{◌≡◌, option_and_then};
ghost use Rattle.pg_startup.specs.Establishing.{kept_link};
ghost use Rattle.pg_listening.specs.Leaving.{TicketIs, ended};

use pg_listen::{EstablishPooled, PgPool, PoolConnection, PoolLedger, PoolSeat, Ticket};
use pg_wire::Error;
use std::sync::Wait;

// Gives back the leave that a start-up still has.
fn give_back<G: PoolLedger, L, R: Wait>(
    rt: &R,
    ticket: Option<Ticket>,
    pool: &PgPool<G, L>,
    seat: &mut PoolSeat<G>,
)
    requires mine { TicketIs pool.now.name ticket }
    requires theirs { seat.old.name ≡ pool.now.name }
    ensures { seat.new.name ≡ seat.old.name }
{
    match ticket {
        Some(ticket) => {
            let _ = ticket.give_back(rt, pool, seat);
        }
        None => {}
    }
}

/// Gives a start-up up, and its leave back. Its link is handed back, unless a connection has it.
pub(crate) fn give_up<G: PoolLedger, L, R: Wait>(
    rt: &R,
    startup: Option<EstablishPooled<L>>,
    pool: &PgPool<G, L>,
    seat: &mut PoolSeat<G>,
) -> Option<L>
    requires mine { TicketIs pool.now.name (option_and_then (λ f. f.ticket) startup) }
    requires theirs { seat.old.name ≡ pool.now.name }
    ensures seat { seat.new.name ≡ seat.old.name }
    ensures link { result ≡ option_and_then (λ f. kept_link f.connecting.startup.phase) startup }
{
    match startup {
        Some(state) => {
            let (ticket, link) = state.into_parts();
            give_back(rt, ticket, pool, seat);
            link
        }
        None => None,
    }
}

/// What a start-up that is over has answered, and the link of one that has failed.
pub(crate) fn with_link<L: Drop>(
    answer: Result<PoolConnection<L>, Error>,
    link: Option<L>,
) -> Result<PoolConnection<L>, (Error, Option<L>)>
    ensures { result ≡ ended answer link }
{
    match answer {
        Ok(held) => {
            drop(link);
            Ok(held)
        }
        Err(e) => Err((e, link)),
    }
}
