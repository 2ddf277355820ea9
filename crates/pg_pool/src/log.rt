ghost use Rattle.std.specs.Prelude.{◌≡◌, ◌+◌, ◌<◌, ◌≤◌, ◌++◌, ◌∷◌, [], true, OnOk, length};
ghost use Rattle.pg_pool.specs.PoolHistory.{may, after, acquires, has, PoolHistory};
ghost use Rattle.pg_pool.specs.PoolLogs.{log_state, log_has_places, UnlessReturn};

use crate::ids::Ids;
use pg_wire::{PoolAct, PoolEntry};
use std::alloc::{AllocError, Global};
use std::collections::VecDeque;
use std::marker::Model;

// The history of a pool, beside the ids that it leaves.
#[derive(Drop)]
pub(crate) struct PoolLog {
    entries: Vec<PoolEntry>,
    ids: Ids,
    most: u32,
}

impl Model for PoolLog {
    ghost use Rattle.std.specs.Prelude.{◌-◌, vec_len, vec_capacity};
    ghost use Rattle.std.specs.VecDeque.{deque_capacity};
    ghost use Rattle.pg_pool.specs.PoolLogs.{LogSeen, Fits, CanReturn, state_of_ids};

    ghost Value = { LogSeen };

    ghost view = { λ l. record { history = l.entries.items; most = l.most; room = vec_capacity l.entries - vec_len l.entries; idle_places = deque_capacity l.ids.idle; out_places = vec_capacity l.ids.out } };

    ghost invariant = { λ l. Fits l.most l.entries.items (state_of_ids l.ids) × CanReturn (state_of_ids l.ids) (vec_capacity l.entries - vec_len l.entries) (deque_capacity l.ids.idle) };
}

impl PoolLog {
    pub(crate) fn new(alloc: Global, most: u32) -> Self
        ensures { (result.history ≡ []) × (result.most ≡ most) }
    {
        PoolLog {
            entries: Vec::new(alloc),
            ids: Ids {
                idle: VecDeque::new(alloc),
                out: Vec::new(alloc),
                next: 0,
                closed: false,
            },
            most,
        }
    }

    // What an acquire is answered.
    pub(crate) fn next_act(&self) -> PoolAct
        ensures { acquires self.now.most (log_state self.now) result }
    {
        self.ids.next_act(self.most)
    }

    // Adds an entry that the state allows.
    pub(crate) fn note(&mut self, entry: PoolEntry)
        requires legal { may self.old.most (log_state self.old) entry.act ≡ true }
        requires room { UnlessReturn entry.act (log_has_places self.old) }
        ensures history { self.new.history ≡ self.old.history ++ entry ∷ [] }
        ensures state { log_state self.new ≡ after (log_state self.old) entry.act }
        ensures most { self.new.most ≡ self.old.most }
    {
        self.ids.apply(self.most, entry.act);
        self.entries.push_reserved(entry);
    }

    pub(crate) fn len(&self) -> u64
        ensures { result ≡ length self.now.history }
    {
        self.entries.len() as u64
    }

    pub(crate) fn entries(&self) -> &[PoolEntry]
        ensures { result.now ≡ self.now.history }
    {
        self.entries.as_slice()
    }

    pub(crate) fn out_len(&self) -> usize
        ensures { result ≡ length (log_state self.now).out }
    {
        self.ids.out.len()
    }

    pub(crate) fn is_out(&self, id: u64) -> bool
        ensures { result ≡ has id (log_state self.now).out }
    {
        self.ids.out.as_slice().contains(&id)
    }

    pub(crate) fn is_closed(&self) -> bool
        ensures { result ≡ (log_state self.now).closed }
    {
        self.ids.closed
    }

    // One thread could have made every history.
    pub(crate) fn promises(&self)
        ensures legal { PoolHistory self.now.most self.now.history }
        ensures seats { length (log_state self.now).idle + length (log_state self.now).out ≤ self.now.most }
    {
        let _ = &self.entries;
    }

    // Room for one more call, and for the return of each that is out.
    pub(crate) fn make_room(&mut self) -> Result<(), AllocError>
        ensures history { self.new.history ≡ self.old.history }
        ensures most { self.new.most ≡ self.old.most }
        ensures ok { OnOk result (log_has_places self.new) }
    {
        let out = self.ids.out.len();
        self.entries.reserve(out + 2)?;
        self.ids.idle.reserve(out + 1)?;
        self.ids.out.reserve(1)?;
        Ok(())
    }
}
