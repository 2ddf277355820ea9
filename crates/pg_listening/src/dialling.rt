//! A start-up of a connection of a pool, over a link that a dial opens.
ghost use Rattle.std.specs.Prelude.{◌≡◌, ◌⊎◌, IfErr, IfOk, Some};
ghost use Rattle.pg_conn.specs.Dials.{IsUncalled};
ghost use Rattle.pg_startup.specs.Establishing.{RefusesStart};
ghost use Rattle.pg_listening.specs.Listening.{IsOpenPool};
ghost use Rattle.pg_listening.specs.Failing.{FailsDial, FillsNone};
ghost use Rattle.pg_listening.specs.Leaving.{Fills, IsFound, IsFresh};

use crate::Found;
use pg_conn::{Dial, draw_nonce};
use pg_listen::{EstablishPooled, PgPool, PoolConnection, PoolLedger, PoolSeat, Ticket, TicketExt};
use pg_stream::Link;
use pg_wire::Error;
use std::alloc::Global;
use std::sync::Wait;

// Begins a start-up, or hands back the leave and the link.
#[tactic(auto, using(crate::proofs::DialLaws::dial_apart, crate::proofs::DialLaws::words_fail))]
fn establish<L: Link, D: Dial<L = L>, G: PoolLedger>(
    alloc: Global,
    pool: &PgPool<G, L>,
    ticket: Ticket,
    dial: &mut D,
    link: L,
) -> Result<EstablishPooled<L>, (Error, Ticket, L)>
    requires mine { ticket.name ≡ pool.now.name }
    requires uncalled { IsUncalled (L.seen link) }
    ensures ok { IfOk result (λ state. Fills L.seen (λ f. f) pool.now.name state × IsFresh L.seen (λ f. f) (Some state)) }
    ensures faults { IfOk result (λ state. (D.seen dial.new).faults ≡ (D.seen dial.old).faults) }
    ensures err { IfErr result (λ e. (e.1 ≡ ticket) × (e.2 ≡ link) × IsOpenPool e.0) }
    ensures refuses { IfErr result (λ e. FailsDial (D.seen dial.old).faults (D.seen dial.new).faults e.0 ⊎ RefusesStart pool.now.options (L.seen link).plan e.0) }
{
    match draw_nonce(dial) {
        Ok(nonce) => ticket.establish(
            alloc,
            pool.connect_options(),
            nonce.as_str().as_bytes(),
            link,
        ),
        Err(failed) => Err((failed.into_error(), ticket, link)),
    }
}

/// Begins a start-up over a link that the dial opens. Where it fails its leave is given back, and its link, if there is one, is handed back.
#[tactic(auto, using(crate::proofs::DialLaws::dial_apart, crate::proofs::DialLaws::link_fails, crate::proofs::DialLaws::fills_none))]
pub(crate) fn fill<G: PoolLedger, L: Link, D: Dial<L = L>, R: Wait>(
    rt: &R,
    alloc: Global,
    pool: &PgPool<G, L>,
    seat: &mut PoolSeat<G>,
    ticket: Ticket,
    dial: &mut D,
) -> Result<Found<PoolConnection<L>, EstablishPooled<L>>, (Error, Option<L>)>
    requires theirs { seat.old.name ≡ pool.now.name }
    requires mine { ticket.name ≡ pool.now.name }
    ensures found { IfOk result (IsFound L.seen (λ h. h) (λ f. f) pool.now.name) }
    ensures faults { IfOk result (λ found. (D.seen dial.new).faults ≡ (D.seen dial.old).faults) }
    ensures open { IfErr result (λ e. IsOpenPool e.0) }
    ensures none { IfErr result (λ e. FillsNone L.seen pool.now.options (D.seen dial.old).faults (D.seen dial.new).faults e.0 e.1) }
    ensures seat { seat.new.name ≡ seat.old.name }
{
    match dial.dial(pool.connect_options()) {
        Err(failed) => {
            let _ = ticket.give_back(rt, pool, seat);
            Err((failed.into_error(), None))
        }
        Ok(link) => match establish(alloc, pool, ticket, dial, link) {
            Ok(state) => Ok(Found::Starting(state)),
            Err((e, ticket, link)) => {
                let _ = ticket.give_back(rt, pool, seat);
                Err((e, Some(link)))
            }
        },
    }
}
