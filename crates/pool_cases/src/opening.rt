//! Connections out of a pool, made where none is idle.
ghost use Rattle.std.specs.Prelude.{◌≡◌, false, IfOk};
ghost use Rattle.pg_auth.specs.Nonce.{IsNonce};
ghost use Rattle.pool_cases.specs.Names.{IsOfPool};

use case_tools::dialled;
use pg_conn::Dial;
use pg_listen::{
    Acquired, EstablishPooled, PgPool, PoolConnection, PoolLedger, PoolSeat, Ticket, TicketExt,
};
use pg_stream::Link;
use pg_wire::{Error, Poll};
use std::alloc::Global;
use std::sync::Wait;

/// A poll that answers `Pending` has waited for the link's own time.
pub(crate) const POLLS: u32 = 1000;

// Gives the leave back where the start-up still has it.
fn give_up<G: PoolLedger, L: Link + Drop, R: Wait>(
    rt: &R,
    pool: &PgPool<G, L>,
    seat: &mut PoolSeat<G>,
    state: EstablishPooled<L>,
)
    requires theirs { seat.old.name ≡ pool.now.name }
    requires mine { IsOfPool pool.now.name state.ticket }
    ensures { seat.new.name ≡ seat.old.name }
{
    match state.into_ticket() {
        Some(ticket) => {
            let _ = ticket.give_back(rt, pool, seat);
        }
        None => {}
    }
}

// The connection of a start-up, which is polled to its end.
fn settle<G: PoolLedger, L: Link + Drop, R: Wait>(
    rt: &R,
    pool: &PgPool<G, L>,
    seat: &mut PoolSeat<G>,
    state: EstablishPooled<L>,
) -> Result<PoolConnection<L>, Error>
    requires theirs { seat.old.name ≡ pool.now.name }
    requires mine { IsOfPool pool.now.name state.ticket }
    requires goes { state.connecting.startup.is_finished ≡ false }
    ensures named { IfOk result (λ held. held.name ≡ pool.now.name) }
    ensures seat { seat.new.name ≡ seat.old.name }
{
    let mut state = state;
    for _ in 0..POLLS {
        match state.poll() {
            Poll::Pending => {}
            Poll::Ready(answer) => {
                give_up(rt, pool, seat, state);
                return answer;
            }
        }
    }
    give_up(rt, pool, seat, state);
    Err(Error::StartupPending)
}

fn start<G: PoolLedger, L: Link + Drop, R: Wait>(
    rt: &R,
    alloc: Global,
    pool: &PgPool<G, L>,
    seat: &mut PoolSeat<G>,
    ticket: Ticket,
    nonce: &[u8],
    link: L,
) -> Result<PoolConnection<L>, Error>
    requires nonce { IsNonce nonce.now }
    requires theirs { seat.old.name ≡ pool.now.name }
    requires mine { ticket.name ≡ pool.now.name }
    ensures named { IfOk result (λ held. held.name ≡ pool.now.name) }
    ensures seat { seat.new.name ≡ seat.old.name }
{
    match ticket.establish(alloc, pool.connect_options(), nonce, link) {
        Ok(state) => settle(rt, pool, seat, state),
        Err((error, ticket, link)) => {
            drop(link);
            let _ = ticket.give_back(rt, pool, seat);
            Err(error)
        }
    }
}

/// The connection that is made with this leave.
pub(crate) fn fill<G: PoolLedger, L: Link + Drop, D: Dial<L = L>, R: Wait>(
    rt: &R,
    alloc: Global,
    pool: &PgPool<G, L>,
    seat: &mut PoolSeat<G>,
    ticket: Ticket,
    dial: &mut D,
) -> Result<PoolConnection<L>, Error>
    requires theirs { seat.old.name ≡ pool.now.name }
    requires mine { ticket.name ≡ pool.now.name }
    ensures named { IfOk result (λ held. held.name ≡ pool.now.name) }
    ensures seat { seat.new.name ≡ seat.old.name }
{
    match dialled(dial, pool.connect_options()) {
        Ok((nonce, link)) => start(
            rt,
            alloc,
            pool,
            seat,
            ticket,
            nonce.as_str().as_bytes(),
            link,
        ),
        Err(error) => {
            let _ = ticket.give_back(rt, pool, seat);
            Err(error)
        }
    }
}

/// A connection that is idle, or else one that is made.
pub(crate) fn connect<G: PoolLedger, L: Link + Drop, D: Dial<L = L>, R: Wait>(
    rt: &R,
    alloc: Global,
    pool: &PgPool<G, L>,
    seat: &mut PoolSeat<G>,
    dial: &mut D,
) -> Result<PoolConnection<L>, Error>
    requires { seat.old.name ≡ pool.now.name }
    ensures named { IfOk result (λ held. held.name ≡ pool.now.name) }
    ensures seat { seat.new.name ≡ seat.old.name }
{
    match pool.acquire(rt, seat) {
        Ok(Acquired::Idle(held)) => Ok(held),
        Ok(Acquired::New(ticket)) => fill(rt, alloc, pool, seat, ticket, dial),
        Err(error) => Err(error),
    }
}
