ghost use Rattle.std.specs.Prelude.{◌≡◌, ◌+◌, ◌<◌, ◌≤◌, ◌^◌, true, vec_len, vec_capacity};
ghost use Rattle.std.specs.VecDeque.{deque_len, deque_capacity};
ghost use Rattle.pg_pool.specs.PoolHistory.{may, after, acquires, has, place_of, without};
ghost use Rattle.pg_pool.specs.PoolLogs.{state_of_ids, UnlessReturn};

use pg_wire::PoolAct;
use std::collections::VecDeque;

// How many ids stand before the first of these.
fn place_of(ids: &[u64], id: u64) -> usize
    ensures { result ≡ place_of id ids.now }
{
    let mut place = 0;
    for other in ids {
        if *other == id {
            return place;
        }
        place += 1;
    }
    place
}

// Takes the first of these ids out of a list.
pub(crate) fn take_out(ids: &mut Vec<u64>, id: u64)
    requires { has id ids.old.items ≡ true }
    ensures items { ids.new.items ≡ without id ids.old.items }
    ensures len { vec_len ids.new + 1 ≡ vec_len ids.old }
    ensures capacity { vec_capacity ids.new ≡ vec_capacity ids.old }
{
    let place = place_of(ids.as_slice(), id);
    ids.remove(place);
}

// The ids that are idle, the longest idle first, and those that are out.
#[derive(Drop)]
pub(crate) struct Ids {
    pub(crate) idle: VecDeque<u64>,
    pub(crate) out: Vec<u64>,
    pub(crate) next: u64,
    pub(crate) closed: bool,
}

impl Ids {
    // What an acquire is answered.
    pub(crate) fn next_act(&self, most: u32) -> PoolAct
        requires { deque_len self.now.idle + vec_len self.now.out ≤ most }
        ensures { acquires most (state_of_ids self.now) result }
    {
        if self.closed {
            return PoolAct::WasClosed;
        }
        match self.idle.front() {
            Some(id) => PoolAct::GotIdle { id: *id },
            None => {
                let out = self.out.len() as u64;
                if out < most as u64 {
                    PoolAct::GotNew { id: self.next }
                } else {
                    PoolAct::Full { out, idle: 0 }
                }
            }
        }
    }

    // An act that the state allows.
    pub(crate) fn apply(&mut self, most: u32, act: PoolAct)
        requires legal { may most (state_of_ids self.old) act ≡ true }
        requires next { self.old.next < 2 ^ 63 }
        requires idle { deque_len self.old.idle + vec_len self.old.out ≤ deque_capacity self.old.idle }
        requires out { UnlessReturn act (vec_len self.old.out < vec_capacity self.old.out) }
        ensures after { state_of_ids self.new ≡ after (state_of_ids self.old) act }
        ensures idle { deque_capacity self.new.idle ≡ deque_capacity self.old.idle }
    {
        match act {
            PoolAct::GotIdle { id } => {
                let _ = self.idle.pop_front();
                self.out.push_reserved(id);
            }
            PoolAct::GotNew { id } => {
                self.out.push_reserved(id);
                self.next += 1;
            }
            PoolAct::Full { .. } | PoolAct::WasClosed => {}
            PoolAct::Kept { id } => {
                take_out(&mut self.out, id);
                self.idle.push_back_reserved(id);
            }
            PoolAct::Dropped { id } => take_out(&mut self.out, id),
            PoolAct::Close => {
                self.idle.clear();
                self.closed = true;
            }
        }
    }
}
