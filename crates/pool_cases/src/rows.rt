//! Cases of pools, by the words that each call is answered with, the receipts of the participants, and the number of entries.
ghost use Rattle.std.specs.Prelude.{◌≡◌, ◌<◌, IfOk, IfSome, vec_len};

use crate::opening::connect;
use crate::visiting::{Pool, Use, give_back, one_link, refused, visit};
use pg_listen::{Acquired, PgPoolOptions, PoolConnection, PoolLedger, PoolSeat};
use pg_options::{PgConnectOptions, PgSettings};
use pg_pool::Pooled;
use pg_stream::MemoryLink;
use pg_wire::Error;
use std::alloc::Global;
use std::marker::Brand;
use std::sync::Wait;
use std::sync::ledger::{Blank, Ledger};

/// The name of each pool.
pub(crate) const NAME: u64 = 7;

pub(crate) fn options(alloc: Global) -> Result<PgConnectOptions, Error> {
    let settings = PgSettings::empty();
    let options = PgConnectOptions::from_str(alloc, &settings, "postgres://u@h/d");
    drop(settings);
    options
}

/// A pool of this maximum with its participants.
pub(crate) fn pool<G: PoolLedger>(
    alloc: Global,
    most: u32,
    seats: u32,
    blank: Blank,
) -> Result<(Pool<G>, Vec<PoolSeat<G>>), Error>
    requires most { (0 < most) × (most ≡ G.most) }
    requires some { 0 < seats }
    requires ledger { blank.name ≡ G.name }
    requires parts { (blank.parts ≡ G.parts) × (blank.parts ≡ seats) }
    ensures name { IfOk result (λ r. r.0.name ≡ 7) }
    ensures seats { IfOk result (λ r. vec_len r.1 ≡ seats) }
{
    let options = options(alloc)?;
    PgPoolOptions::new()
        .max_connections(most)
        .build(alloc, NAME, options, seats, blank)
}

/// The next participant, if it is of the pool of this name.
pub(crate) fn next<G: Ledger>(seats: &mut Vec<PoolSeat<G>>) -> Option<PoolSeat<G>>
    ensures name { IfSome result (λ seat. seat.name ≡ 7) }
{
    match seats.pop() {
        Some(seat) if seat.pool_name() == NAME => Some(seat),
        _ => None,
    }
}

/// The first two participants, if they are of the pool of this name.
pub(crate) fn pair<G: Ledger>(seats: Vec<PoolSeat<G>>) -> Option<(PoolSeat<G>, PoolSeat<G>)>
    ensures { IfSome result (λ pair. (pair.0.name ≡ 7) × (pair.1.name ≡ 7)) }
{
    let mut seats = seats;
    let second = next(&mut seats)?;
    let first = next(&mut seats)?;
    Some((first, second))
}

// What there is no memory for is missing in what is printed.
fn push_receipts<G: Ledger>(told: &mut String, seats: &[PoolSeat<G>]) {
    for seat in seats {
        for receipt in seat.receipts() {
            let _ = write!(told, "\n{receipt:?}");
        }
    }
}

// What was told, the receipts of the participants, and what an audit of the pool answers.
fn audited<G: PoolLedger, C: Pooled, O, R: Wait>(
    rt: &R,
    pool: &pg_pool::Pool<G, C, O>,
    told: String,
    seats: Vec<PoolSeat<G>>,
) -> Result<String, Error>
    requires all { vec_len seats ≡ G.parts }
    requires some { 0 < vec_len seats }
{
    let mut told = told;
    push_receipts(&mut told, seats.as_slice());
    match pool.audit(rt, seats) {
        Ok(entries) => {
            let _ = write!(told, "\n{entries} entries");
            Ok(told)
        }
        Err(error) => Err(error),
    }
}

// The same of one participant.
fn audited_one<G: PoolLedger, C: Pooled, O, R: Wait>(
    rt: &R,
    alloc: Global,
    pool: &pg_pool::Pool<G, C, O>,
    told: String,
    seat: PoolSeat<G>,
) -> Result<String, Error>
    requires { G.parts ≡ 1 }
{
    match vec![in alloc; seat] {
        Ok(seats) => audited(rt, pool, told, seats),
        Err(error) => Err(Error::from(error)),
    }
}

/// What was told, the receipts of two participants, and what an audit of the pool answers.
pub(crate) fn audited_two<G: PoolLedger, C: Pooled, O, R: Wait>(
    rt: &R,
    alloc: Global,
    pool: &pg_pool::Pool<G, C, O>,
    told: String,
    first: PoolSeat<G>,
    second: PoolSeat<G>,
) -> Result<String, Error>
    requires { G.parts ≡ 2 }
{
    match vec![in alloc; first, second] {
        Ok(seats) => audited(rt, pool, told, seats),
        Err(error) => Err(Error::from(error)),
    }
}

// The first participant has the one connection while the second asks for it.
fn crowd<G: PoolLedger, R: Wait>(
    rt: &R,
    alloc: Global,
    pool: &Pool<G>,
    first: &mut PoolSeat<G>,
    second: &mut PoolSeat<G>,
) -> (&'static str, &'static str)
    requires first { first.old.name ≡ pool.now.name }
    requires second { second.old.name ≡ pool.now.name }
    ensures first { first.new.name ≡ first.old.name }
    ensures second { second.new.name ≡ second.old.name }
{
    let Ok(mut dial) = one_link(alloc) else {
        return ("no memory", "no memory");
    };
    match connect(rt, alloc, pool, first, &mut dial) {
        Ok(held) => {
            let other = visit(rt, alloc, pool, second, Use::Nothing);
            (give_back(rt, pool, first, held, Use::Nothing), other)
        }
        Err(error) => (refused(error), "not asked"),
    }
}

pub(crate) fn close<G: PoolLedger, C: Pooled + Drop, O, R: Wait>(
    rt: &R,
    alloc: Global,
    pool: &pg_pool::Pool<G, C, O>,
    seat: &mut PoolSeat<G>,
) -> &'static str
    requires { seat.old.name ≡ pool.now.name }
    ensures { seat.new.name ≡ seat.old.name }
{
    match pool.close(rt, alloc, seat) {
        Ok(conns) => {
            let count = conns.len();
            drop(conns);
            if count == 0 {
                "closed empty"
            } else {
                "closed and emptied"
            }
        }
        Err(error) => refused(error),
    }
}

// The calls of two participants.
fn play_one<G: PoolLedger, R: Wait>(
    rt: &R,
    alloc: Global,
    pool: &Pool<G>,
    seats: Vec<PoolSeat<G>>,
) -> Result<String, Error>
    requires named { pool.now.name ≡ 7 }
    requires parts { G.parts ≡ 2 }
{
    let Some((mut first, mut second)) = pair(seats) else {
        return Err(Error::StartupPending);
    };
    let (kept, late) = crowd(rt, alloc, pool, &mut first, &mut second);
    let marked = visit(rt, alloc, pool, &mut second, Use::Mark);
    let begun = visit(rt, alloc, pool, &mut second, Use::BeginAndDrop);
    let closed = close(rt, alloc, pool, &mut second);
    let refused = visit(rt, alloc, pool, &mut first, Use::Nothing);
    let mut told = String::new(alloc);
    let _ = write!(
        told,
        "{late}, {kept}, {marked}, {begun}, {closed}, {refused}"
    );
    audited_two(rt, alloc, pool, told, first, second)
}

// A pool of maximum 1, and two participants.
fn row_of_one<G: PoolLedger, R: Wait>(rt: &R, alloc: Global, blank: Blank) -> Result<String, Error>
    requires most { G.most ≡ 1 }
    requires ledger { blank.name ≡ G.name }
    requires parts { (blank.parts ≡ G.parts) × (blank.parts ≡ 2) }
{
    match pool::<G>(alloc, 1, 2, blank) {
        Ok((pool, seats)) => play_one(rt, alloc, &pool, seats),
        Err(error) => Err(error),
    }
}

/// The row of a pool of maximum 1.
pub(crate) fn one<R: Wait>(rt: &R, alloc: Global) -> Result<String, Error> {
    row_of_one::<Brand, R>(rt, alloc, Blank::new(2))
}

type Held = PoolConnection<MemoryLink>;

fn acquired<G: PoolLedger, R: Wait>(
    rt: &R,
    alloc: Global,
    pool: &Pool<G>,
    seat: &mut PoolSeat<G>,
) -> Option<Held>
    requires { seat.old.name ≡ pool.now.name }
    ensures named { IfSome result (λ held. held.name ≡ pool.now.name) }
    ensures seat { seat.new.name ≡ seat.old.name }
{
    let mut dial = one_link(alloc).ok()?;
    match connect(rt, alloc, pool, seat, &mut dial) {
        Ok(held) => Some(held),
        Err(error) => {
            drop(error);
            None
        }
    }
}

// A connection for each of two participants.
fn both<G: PoolLedger, R: Wait>(
    rt: &R,
    alloc: Global,
    pool: &Pool<G>,
    first: &mut PoolSeat<G>,
    second: &mut PoolSeat<G>,
) -> Option<(Held, Held)>
    requires first { first.old.name ≡ pool.now.name }
    requires second { second.old.name ≡ pool.now.name }
    ensures named { IfSome result (λ r. (r.0.name ≡ pool.now.name) × (r.1.name ≡ pool.now.name)) }
    ensures first { first.new.name ≡ first.old.name }
    ensures second { second.new.name ≡ second.old.name }
{
    let one = acquired(rt, alloc, pool, first)?;
    match acquired(rt, alloc, pool, second) {
        Some(other) => Some((one, other)),
        None => {
            let _ = give_back(rt, pool, first, one, Use::Nothing);
            None
        }
    }
}

// What one participant releases goes to another, which had asked in vain.
fn hand_on<G: PoolLedger, R: Wait>(
    rt: &R,
    alloc: Global,
    pool: &Pool<G>,
    first: &mut PoolSeat<G>,
    third: &mut PoolSeat<G>,
    held: Held,
) -> (Option<Held>, &'static str, &'static str)
    requires first { first.old.name ≡ pool.now.name }
    requires third { third.old.name ≡ pool.now.name }
    requires held { held.name ≡ pool.now.name }
    ensures named { IfSome result.0 (λ held. held.name ≡ pool.now.name) }
    ensures first { first.new.name ≡ first.old.name }
    ensures third { third.new.name ≡ third.old.name }
{
    let late = visit(rt, alloc, pool, third, Use::Nothing);
    let kept = give_back(rt, pool, first, held, Use::Nothing);
    (acquired(rt, alloc, pool, third), late, kept)
}

// What was told, the receipts of three participants, and what an audit of the pool answers.
fn audited_three<G: PoolLedger, C: Pooled, O, R: Wait>(
    rt: &R,
    alloc: Global,
    pool: &pg_pool::Pool<G, C, O>,
    told: String,
    first: PoolSeat<G>,
    second: PoolSeat<G>,
    third: PoolSeat<G>,
) -> Result<String, Error>
    requires { G.parts ≡ 3 }
{
    match vec![in alloc; first, second, third] {
        Ok(seats) => audited(rt, pool, told, seats),
        Err(error) => Err(Error::from(error)),
    }
}

// Another pool of the same name is given what the first one handed out.
fn estrange<H: PoolLedger, R: Wait>(
    rt: &R,
    alloc: Global,
    other: &Pool<H>,
    mut stranger: PoolSeat<H>,
    one: Held,
    also: Option<Held>,
) -> Result<String, Error>
    requires parts { H.parts ≡ 1 }
    requires theirs { stranger.name ≡ other.now.name }
    requires one { one.name ≡ other.now.name }
    requires also { IfSome also (λ held. held.name ≡ other.now.name) }
{
    let first = give_back(rt, other, &mut stranger, one, Use::Nothing);
    let second = match also {
        Some(held) => give_back(rt, other, &mut stranger, held, Use::Nothing),
        None => "none",
    };
    let mut told = String::new(alloc);
    let _ = write!(told, "{first}, {second}");
    audited_one(rt, alloc, other, told, stranger)
}

// The lines of the first, and those of the second behind them.
fn joined(first: Result<String, Error>, second: Result<String, Error>) -> Result<String, Error> {
    let mut told = match first {
        Ok(told) => told,
        Err(error) => return Err(error),
    };
    match second {
        Ok(lines) => {
            let _ = write!(told, "\n{lines}");
            Ok(told)
        }
        Err(error) => Err(error),
    }
}

// The calls of three participants, and of the one of another pool of the same name.
fn play_two<G: PoolLedger, H: PoolLedger, R: Wait>(
    rt: &R,
    alloc: Global,
    pool: &Pool<G>,
    seats: Vec<PoolSeat<G>>,
    other: &Pool<H>,
    stranger: PoolSeat<H>,
) -> Result<String, Error>
    requires named { (pool.now.name ≡ 7) × (other.now.name ≡ 7) }
    requires theirs { stranger.name ≡ 7 }
    requires parts { (G.parts ≡ 3) × (H.parts ≡ 1) }
{
    let mut seats = seats;
    let Some(mut third) = next(&mut seats) else {
        return Err(Error::StartupPending);
    };
    let Some((mut first, mut second)) = pair(seats) else {
        return Err(Error::StartupPending);
    };
    let Some((one, held)) = both(rt, alloc, pool, &mut first, &mut second) else {
        return Err(Error::StartupPending);
    };
    let (also, late, kept) = hand_on(rt, alloc, pool, &mut first, &mut third, one);
    let closed = close(rt, alloc, pool, &mut first);
    let refused = visit(rt, alloc, pool, &mut first, Use::Nothing);
    let mut told = String::new(alloc);
    let _ = write!(told, "{late}, {kept}, {closed}, {refused}");
    let told = audited_three(rt, alloc, pool, told, first, second, third);
    joined(told, estrange(rt, alloc, other, stranger, held, also))
}

// A pool of maximum 2 with three participants, and another of the same name.
fn row_of_two<G: PoolLedger, H: PoolLedger, R: Wait>(
    rt: &R,
    alloc: Global,
    blank: Blank,
    another: Blank,
) -> Result<String, Error>
    requires most { (G.most ≡ 2) × (H.most ≡ 2) }
    requires ledger { (blank.name ≡ G.name) × (another.name ≡ H.name) }
    requires parts { (blank.parts ≡ G.parts) × (blank.parts ≡ 3) }
    requires others { (another.parts ≡ H.parts) × (another.parts ≡ 1) }
{
    let (other, mut strangers) = match pool::<H>(alloc, 2, 1, another) {
        Ok(made) => made,
        Err(error) => return Err(error),
    };
    let Some(stranger) = next(&mut strangers) else {
        return Err(Error::StartupPending);
    };
    match pool::<G>(alloc, 2, 3, blank) {
        Ok((pool, seats)) => play_two(rt, alloc, &pool, seats, &other, stranger),
        Err(error) => Err(error),
    }
}

/// The row of a pool of maximum 2, and of another of the same name.
pub(crate) fn two<R: Wait>(rt: &R, alloc: Global) -> Result<String, Error> {
    row_of_two::<Brand, Brand, R>(rt, alloc, Blank::new(3), Blank::new(1))
}

// Leave to make a connection, which is given back.
fn give_leave_back<G: PoolLedger, R: Wait>(
    rt: &R,
    pool: &Pool<G>,
    seat: &mut PoolSeat<G>,
) -> &'static str
    requires { seat.old.name ≡ pool.now.name }
    ensures { seat.new.name ≡ seat.old.name }
{
    match pool.acquire(rt, seat) {
        Ok(Acquired::New(ticket)) => {
            if ticket.give_back(rt, pool, seat) {
                "given back"
            } else {
                "foreign"
            }
        }
        Ok(Acquired::Idle(held)) => give_back(rt, pool, seat, held, Use::Nothing),
        Err(error) => refused(error),
    }
}

fn looked<G: PoolLedger, C: Pooled, O, R: Wait>(
    rt: &R,
    pool: &pg_pool::Pool<G, C, O>,
    seat: &mut PoolSeat<G>,
) -> &'static str
    requires { seat.old.name ≡ pool.now.name }
    ensures { seat.new.name ≡ seat.old.name }
{
    let is_closed = pool.is_closed(rt);
    match pool.closed_place(rt, seat) {
        Ok(Some(_place)) if is_closed => "closed",
        Ok(None) if !is_closed => "open",
        Ok(_) => "neither",
        Err(error) => refused(error),
    }
}

// The calls of one participant.
fn play_leave<G: PoolLedger, R: Wait>(
    rt: &R,
    alloc: Global,
    pool: &Pool<G>,
    seats: Vec<PoolSeat<G>>,
) -> Result<String, Error>
    requires named { pool.now.name ≡ 7 }
    requires parts { G.parts ≡ 1 }
{
    let mut seats = seats;
    let Some(mut seat) = next(&mut seats) else {
        return Err(Error::StartupPending);
    };
    let open = looked(rt, pool, &mut seat);
    let given = give_leave_back(rt, pool, &mut seat);
    let kept = visit(rt, alloc, pool, &mut seat, Use::Nothing);
    let closed = close(rt, alloc, pool, &mut seat);
    let shut = looked(rt, pool, &mut seat);
    let mut told = String::new(alloc);
    let _ = write!(told, "{open}, {given}, {kept}, {closed}, {shut}");
    audited_one(rt, alloc, pool, told, seat)
}

// A pool of maximum 1 with one participant.
fn row_of_leave<G: PoolLedger, R: Wait>(
    rt: &R,
    alloc: Global,
    blank: Blank,
) -> Result<String, Error>
    requires most { G.most ≡ 1 }
    requires ledger { blank.name ≡ G.name }
    requires parts { (blank.parts ≡ G.parts) × (blank.parts ≡ 1) }
{
    match pool::<G>(alloc, 1, 1, blank) {
        Ok((pool, seats)) => play_leave(rt, alloc, &pool, seats),
        Err(error) => Err(error),
    }
}

/// The row of leave to make a connection, and of the looks that leave a pool as it is.
pub(crate) fn leave<R: Wait>(rt: &R, alloc: Global) -> Result<String, Error> {
    row_of_leave::<Brand, R>(rt, alloc, Blank::new(1))
}
