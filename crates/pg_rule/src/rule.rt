ghost use Rattle.std.specs.Prelude.{◌≡◌, ◌<◌, ◌^◌, ◌-◌, ◌↔◌, IsTrue, OnOk, OnErr};
ghost use Rattle.pg_rule.specs.Rules.{new_rule, number_left, opened, closed, drawn, hit, holding, kept, forgotten, cleared, IsFull};

use crate::{Cache, Entry};
use std::alloc::{AllocError, Global};

// More statements than this are never kept.
const CAPACITY_MAX: usize = 65536;

/// What is known of a session that decides which groups its calls queue.
#[derive(Debug)]
pub struct Rule {
    /// How many transactions and savepoints are open.
    pub depth: u64,
    /// The statements that are kept, and the one that is held.
    pub cache: Cache,
    /// The number of the next statement with a name; 4294967296 where none is left.
    pub next: u64,
    /// How many statements may be kept.
    pub capacity: usize,
}

// By hand, so that whoever lets one go makes one call, and doesn't go through its parts.
impl Drop for Rule {
    fn drop(self) {
        let Rule {
            depth: _,
            cache: _,
            next: _,
            capacity: _,
        } = self;
    }
}

impl Rule {
    /// That of a session behind its start-up. It keeps so many statements, and 65536 at most.
    pub fn new(alloc: Global, capacity: usize) -> Self
        ensures { result ≡ new_rule capacity }
    {
        Rule {
            depth: 0,
            cache: Cache::new(alloc),
            next: 1,
            capacity: capacity.min(CAPACITY_MAX),
        }
    }

    /// One transaction or savepoint more is open. The room that is kept for cleanups bounds their number.
    pub fn open(&mut self)
        requires { self.old.depth < 2 ^ 64 - 1 }
        ensures { self.new ≡ opened self.old }
    {
        self.depth += 1;
    }

    /// One is open no more, where there was one.
    pub fn close(&mut self)
        ensures { self.new ≡ closed self.old }
    {
        self.depth = self.depth.saturating_sub(1);
    }

    /// The number that the next statement with a name gets, where one is left.
    pub fn number(&self) -> Option<u32>
        ensures { result ≡ number_left self.now }
    {
        if self.next < 4294967296 {
            Some(self.next as u32)
        } else {
            None
        }
    }

    /// A statement with that name is sent: the number is used up.
    pub fn draw(&mut self)
        requires { self.old.next < 2 ^ 32 }
        ensures { self.new ≡ drawn self.old }
    {
        self.next += 1;
    }

    /// The kept statement of this number is used.
    pub fn touch(&mut self, number: u32)
        ensures { self.new ≡ hit number self.old }
    {
        self.cache.touch(number);
    }

    /// Whether as many statements are kept as may be.
    pub fn is_full(&self) -> bool
        ensures { IsTrue result ↔ IsFull self.now }
    {
        self.cache.len() >= self.capacity
    }

    /// A statement is held, and room is taken for it. Without memory nothing has changed.
    pub fn hold(&mut self, entry: Entry) -> Result<(), AllocError>
        ensures ok { OnOk result (self.new ≡ holding entry self.old) }
        ensures err { OnErr result (self.new ≡ self.old) }
    {
        self.cache.hold(entry)
    }

    /// The statement that is held is kept; the last one is gone where there was no place. This takes no memory.
    pub fn put(&mut self)
        ensures { self.new ≡ kept self.old }
    {
        self.cache.put(self.capacity);
    }

    /// The statement that is held is not kept.
    pub fn forget(&mut self)
        ensures { self.new ≡ forgotten self.old }
    {
        self.cache.forget();
    }

    /// No statement is kept any more, and none is held.
    pub fn clear(&mut self)
        ensures { self.new ≡ cleared self.old }
    {
        self.cache.clear();
    }
}
