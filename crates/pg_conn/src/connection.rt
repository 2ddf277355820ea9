ghost use Rattle.std.specs.Prelude.{◌≡◌, ◌≤◌, ◌+◌, ◌-◌, ◌^◌, min, not, nat_eq, length, is_some, option_map, true, OnErr, Err};
ghost use Rattle.pg_rule.specs.Caches.{entry_at};
ghost use Rattle.pg_stream.specs.Parameters.{value_of};
ghost use Rattle.pg_conn.specs.Connections.{cleaned, copies, counted_anew, ended, idle, fresh_connection, handed, learnt_for, left, left_by, may_open, queued_group, restated, rolled_back, runs, settled, started_call, started_next, unfed, with_room};
ghost use Rattle.pg_call.specs.Hearing.{fed_whole};
ghost use Rattle.pg_conn.specs.Turns.{level_of};

use crate::keeping::{begun_as, keep, let_go, step_of};
use crate::{CacheStep, Progress, Request};
use pg_call::{Call, Change, Keeping, Running, rollback_frame};
use pg_learning::Learnt;
use pg_resolve::{TableCache, TypeCache};
use pg_rule::Rule;
use pg_startup::Ready;
use pg_stream::PgStream;
use pg_wire::{Error, ServerFault};
use std::alloc::Global;
use std::marker::Model;

/// The frame that ends a copy from the client which no one feeds. (PostgreSQL manual, "Message Formats", CopyFail.)
pub(crate) const COPY_FAIL: [u8; 57] =
    *b"f\0\0\0\x38PgCopyIn dropped without calling finish() or fail()\0";

/// A connection behind its start-up, and the call that runs on it.
pub struct PgConnection<L> {
    pub(crate) alloc: Global,
    pub(crate) stream: PgStream<L>,
    pub(crate) running: Running,
    pub(crate) rule: Rule,
    change: Change,
    pub(crate) keeping: Keeping,
    cache: CacheStep,
    pub(crate) held: u64,
    pub(crate) learnt: Learnt,
    pub(crate) broken: Option<ServerFault>,
    pub(crate) groups: u64,
    pub(crate) earlier: u64,
    pub(crate) heard: u64,
    sent: u64,
    read: u64,
}

// By hand, so that whoever lets one go makes one call, and doesn't go through its parts.
impl<L: Drop> Drop for PgConnection<L> {
    fn drop(self) {
        let PgConnection {
            alloc: _,
            stream: _,
            running: _,
            rule: _,
            change: _,
            keeping: _,
            cache: _,
            held: _,
            learnt: _,
            broken: _,
            groups: _,
            earlier: _,
            heard: _,
            sent: _,
            read: _,
        } = self;
    }
}

impl<L> Model for PgConnection<L> {
    ghost use Rattle.pg_conn.specs.Connections.{ConnOf};

    ghost Value = { ConnOf L };

    ghost view = { λ c. record { stream = c.stream; ledger = c.running.ledger; call = c.running.call; rule = c.rule; change = c.change; keeping = c.keeping; cache = c.cache; held = c.held; learnt = c.learnt; broken = c.broken; groups = c.groups; earlier = c.earlier; heard = c.heard; sent = c.sent; read = c.read } };
}

impl<L> PgConnection<L> {
    /// The connection that a start-up has come to, which keeps so many statements at most.
    pub(crate) fn over(alloc: Global, capacity: usize, ready: Ready<L>) -> Self
        ensures { result ≡ fresh_connection capacity ready.stream ready.sent ready.read }
    {
        let Ready {
            stream,
            session: _,
            sent,
            read,
        } = ready;
        PgConnection {
            alloc,
            stream,
            running: Running::new(),
            rule: Rule::new(alloc, capacity),
            change: Change::Stays,
            keeping: Keeping::Stays,
            cache: CacheStep::Same,
            held: 0,
            learnt: Learnt::new(alloc),
            broken: None,
            groups: 0,
            earlier: 0,
            heard: 0,
            sent,
            read,
        }
    }

    /// The link under the connection.
    pub fn link(&self) -> &L
        ensures { result.now ≡ self.now.stream.link }
    {
        self.stream.link()
    }

    /// The last value that the server told of a parameter, but for `server_version`: that one is `server_version_num`.
    /// (PostgreSQL manual, "Message Flow", "Asynchronous Operations".)
    pub fn parameter(&self, name: &str) -> Option<&str>
        ensures { option_map (λ value. value.now) result ≡ value_of name.now self.now.stream.parameters }
    {
        self.stream.parameter(name)
    }

    /// The number of the server's version: 90603 of `9.6.3`, and 150004 of `15.4`. There is none where the server told none that
    /// can be read.
    pub fn server_version_num(&self) -> Option<u32>
        ensures { result ≡ self.now.stream.parameters.version }
    {
        self.stream.server_version_num()
    }

    /// Gives up room of the buffers that nothing needs. An `Err` is want of memory.
    pub fn shrink_buffers(&mut self) -> Result<(), Error>
        ensures same { self.new ≡ with_room self.new.stream.room self.old }
        ensures room { self.new.stream.room ≤ self.old.stream.room }
        ensures err { OnErr result (result ≡ Err Error.OutOfMemory) }
    {
        self.stream.shrink_buffers()
    }

    /// Hands the link back at once, whatever is unsent or owed.
    pub fn close_hard(self) -> L
        ensures { result ≡ self.stream.link }
    {
        let PgConnection {
            alloc: _,
            stream,
            running: _,
            rule: _,
            change: _,
            keeping: _,
            cache: _,
            held: _,
            learnt: _,
            broken: _,
            groups: _,
            earlier: _,
            heard: _,
            sent: _,
            read: _,
        } = self;
        stream.into_link()
    }

    /// The bytes sent and the bytes read up to the end of start-up.
    pub fn started(&self) -> (u64, u64)
        ensures { result ≡ (self.now.sent, self.now.read) }
    {
        (self.sent, self.read)
    }

    /// How far the last call has come.
    pub fn progress(&self) -> Progress
        ensures { result ≡ record { groups = min (self.now.earlier + self.now.groups) (2 ^ 64 - 1); heard = self.now.heard; cache = self.now.cache; waits = self.now.stream.waits; moved = self.now.stream.moves } }
    {
        let calls = self.stream.calls();
        Progress {
            groups: self.earlier.saturating_add(self.groups),
            heard: self.heard,
            cache: self.cache,
            waits: calls.waits,
            moved: calls.moved,
        }
    }

    /// Whether bytes are unsent.
    pub fn should_flush(&self) -> bool
        ensures { result ≡ not (nat_eq (length self.now.stream.unsent) 0) }
    {
        !self.stream.is_sent()
    }

    /// Whether a call runs.
    pub fn is_running(&self) -> bool
        ensures { result ≡ runs self.now.call }
    {
        !matches!(self.running.call, Call::Idle)
    }

    /// How many transactions and savepoints are open.
    pub fn transaction_depth(&self) -> u64
        ensures { result ≡ self.now.rule.depth }
    {
        self.rule.depth
    }

    /// The types that were looked up.
    pub fn types(&self) -> &TypeCache
        ensures { result.now ≡ self.now.learnt.types }
    {
        &self.learnt.types
    }

    /// The names of tables and columns that were looked up.
    pub fn tables(&self) -> &TableCache
        ensures { result.now ≡ self.now.learnt.tables }
    {
        &self.learnt.tables
    }

    /// How many statements are kept.
    pub fn cached_statements_size(&self) -> usize
        ensures { result ≡ length self.now.rule.cache.entries }
    {
        self.rule.cache.len()
    }

    /// Whether a statement of this text is kept.
    pub fn keeps_statement(&self, sql: &str) -> bool
        ensures { result ≡ is_some (entry_at sql.now self.now.rule.cache.entries) }
    {
        self.rule.cache.get(sql).is_some()
    }

    /// Where its memory comes from.
    pub fn allocator(&self) -> Global {
        self.alloc
    }

    // Whether the call has begun a copy from the client that nothing has ended yet.
    fn copies(&self) -> bool
        ensures { result ≡ copies self.now.change self.now.groups }
    {
        self.groups > 0 && matches!(self.change, Change::Copies)
    }

    // Whether the call is a begin that may have opened a transaction.
    fn may_open(&self) -> bool
        ensures { result ≡ may_open self.now.change self.now.groups self.now.rule.depth }
    {
        self.groups > 0 && self.rule.depth == 0 && matches!(self.change, Change::Opens)
    }

    // The bytes that are kept for the rollback of what a begin may open, or for the CopyFail of a copy from the client, once so many groups of it are queued.
    pub(crate) fn level(&self, groups: u64) -> usize
        ensures { result ≡ level_of self.now.change groups }
    {
        if groups > 0 && matches!(self.change, Change::Opens | Change::Copies) {
            64
        } else {
            0
        }
    }

    // Queues a group for which no call waits, out of the room that is kept for cleanups. It takes no memory.
    pub(crate) fn queue_group(&mut self, frame: &[u8])
        ensures { self.new ≡ queued_group frame.now self.old }
    {
        if frame.len() <= self.stream.spare() && self.running.ledger.owed < u64::MAX {
            self.stream.queue_cleanup(frame);
            self.running.ledger.is_copy_failed &= self.running.ledger.owed > 0;
            self.running.ledger.owed += 1;
            self.groups = self.groups.saturating_add(1);
        }
    }

    /// The call has come to an Ok: what it opened or closed is counted.
    pub(crate) fn settle(&mut self)
        ensures { self.new ≡ settled self.old }
    {
        self.rule.depth = match self.change {
            Change::Opens if self.groups > 0 => self.rule.depth.saturating_add(1),
            Change::Closes => self.rule.depth.saturating_sub(1),
            Change::Opens | Change::Stays | Change::Copies | Change::Fed => self.rule.depth,
        };
        keep(&mut self.rule, self.keeping);
        self.cache = step_of(self.keeping, self.cache);
        self.end_change();
    }

    // Nothing more comes of the call's end.
    pub(crate) fn end_change(&mut self)
        ensures { self.new ≡ ended self.old }
    {
        self.change = Change::Stays;
        self.keeping = Keeping::Stays;
    }

    // What an end that is no Ok makes of the statements that are kept.
    fn restate(&mut self)
        ensures { self.new ≡ restated self.old }
    {
        if self.groups == 0 {
            let_go(&mut self.rule, self.keeping);
        } else {
            keep(&mut self.rule, self.keeping);
            self.cache = step_of(self.keeping, self.cache);
        }
    }

    /// Fails the copy from the client that the call has begun, unless something has ended it: out of the room that is kept for that, without taking memory. Where all of its data
    /// was sent, no CopyFail is due for the reply that stays owed.
    pub(crate) fn unfeed(&mut self, is_over: bool)
        ensures { self.new ≡ unfed is_over self.old }
    {
        if self.copies() && !is_over && COPY_FAIL.len() <= self.stream.spare() {
            self.stream.queue_cleanup(&COPY_FAIL);
            self.running.ledger.is_copy_failed = true;
            self.change = Change::Stays;
        } else if self.groups > 0 && matches!(self.change, Change::Fed) {
            self.running.ledger.is_copy_failed = true;
        }
    }

    // No CopyFail is due any more for what the call has begun.
    pub(crate) fn end_feed(&mut self)
        ensures { self.new ≡ record self.old { call = fed_whole self.old.call; change = Change.Fed } }
    {
        self.running.end_feed();
        self.change = Change::Fed;
    }

    // The call is given up, for whose reply a CopyFail is queued.
    pub(crate) fn give_up_copy(&mut self)
        ensures { self.new ≡ record self.old { call = Call.Idle; change = Change.Stays; keeping = Keeping.Stays; ledger = record self.old.ledger { is_copy_failed = true } } }
    {
        self.forget();
        self.running.ledger.is_copy_failed = true;
    }

    /// The call has come to another end: the transaction that a begin may have opened is rolled back.
    pub(crate) fn clean(&mut self)
        ensures { self.new ≡ cleaned self.old }
    {
        let may_open = self.may_open();
        self.restate();
        if may_open {
            self.queue_group(&rollback_frame(0));
        }
        self.end_change();
    }

    /// Gives the running call up. Replies to what it queued stay owed. A copy from the client that nothing has ended is ended by a CopyFail. Where it is a begin that may have opened a transaction, a rollback is
    /// queued behind it, which takes no memory and which no call waits for.
    pub fn abandon(&mut self)
        ensures { self.new ≡ left self.old }
    {
        if self.is_running() {
            self.unfeed(false);
            self.clean();
            self.turn_to(Call::Idle);
        }
    }

    /// The call is over, whatever it would have made of the transactions that are open.
    pub(crate) fn forget(&mut self)
        ensures { self.new ≡ ended (idle self.old) }
    {
        self.turn_to(Call::Idle);
        self.end_change();
    }

    // The numbers of a call are counted from zero.
    pub(crate) fn count_anew(&mut self)
        ensures { self.new ≡ counted_anew self.old }
    {
        self.groups = 0;
        self.earlier = 0;
        self.cache = CacheStep::Same;
        self.heard = 0;
        self.stream.begin_call();
    }

    /// Rolls back the transaction, or to the last savepoint, without waiting: the next call sends it, and reads its reply away. It takes no
    /// memory. A call that still runs is given up. Where nothing is open it does nothing else.
    pub fn start_rollback(&mut self)
        ensures { self.new ≡ rolled_back self.old }
    {
        self.abandon();
        self.end_change();
        self.count_anew();
        if self.rule.depth > 0 {
            self.rule.depth -= 1;
            self.queue_group(&rollback_frame(self.rule.depth));
        }
    }

    // Another call stands in place of the one that ran. All that replace a call do so here: the old one is dropped in one place.
    pub(crate) fn turn_to(&mut self, call: Call)
        ensures { self.new ≡ record self.old { call = call } }
    {
        self.running.call = call;
    }

    // What a call forgets as it begins: the names of types, where it closes the statements that are kept.
    fn forget_names(&mut self, request: &Request)
        ensures { self.new ≡ record self.old { learnt = learnt_for request.now self.old.broken self.old.learnt } }
    {
        if self.broken.is_none() && matches!(request, Request::Clear(_)) {
            self.learnt.forget_names();
        }
    }

    /// Begins a call, which does nothing before its first poll. A call that still runs is given up.
    pub fn start(&mut self, request: Request)
        ensures { self.new ≡ started_call request self.old }
    {
        self.abandon();
        self.forget_names(&request);
        self.change = request.kind().change();
        self.keeping = Keeping::Stays;
        let request = begun_as(&self.rule, request);
        self.turn_to(Call::Asked(request));
        self.count_anew();
    }

    /// Begins a call behind one that has ended, and goes on with its numbers: so `progress` tells of both.
    pub fn start_next(&mut self, request: Request)
        ensures { self.new ≡ started_next request self.old }
    {
        self.abandon();
        self.change = request.kind().change();
        self.keeping = Keeping::Stays;
        let request = begun_as(&self.rule, request);
        self.turn_to(Call::Asked(request));
        self.earlier = self.earlier.saturating_add(self.groups);
        self.groups = 0;
    }

    /// The next exchange of a call begins, where the one before it has ended.
    pub(crate) fn ask_next(&mut self, request: Request)
        ensures { self.new ≡ handed request self.old }
    {
        self.turn_to(Call::Asked(request));
    }

    /// What the drop of a call's state does: nothing where it was never polled.
    pub fn leave<R: Drop>(&mut self, request: Option<R>)
        ensures { self.new ≡ left_by request self.old }
    {
        match request {
            Some(_) => {}
            None => self.abandon(),
        }
    }
}
