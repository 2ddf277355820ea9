ghost use Rattle.std.specs.Prelude.{◌≡◌, ◌+◌, ◌<◌, ◌≤◌, ◌⊎◌, length, Some, None, if◌then◌else◌};
ghost use Rattle.pg_stream.specs.Links.{Reads, Writes, Upgrades};
ghost use Rattle.pg_stream.specs.Memory.{seen_of, untouched, plan_of, reads_ahead, writes_ahead, left_in, is_last, ReadFollows, WriteFollows, TakesFirst};

use crate::read_list::ReadList;
use crate::{Asked, Link, LinkRead, LinkUpgrade, LinkWrite, ReadEvent, TlsWish, WriteEvent};
use pg_wire::Sequence;
use std::alloc::Global;

/// A link in memory: it gives bytes and waits by a list of events, takes bytes by another, and keeps what it took.
///
/// After the list of reads every read answers `NotYet` (`Failed` once they are more than `usize` can count), and after the
/// list of writes every write takes all. An upgrade is `Done` and changes no byte. It tells all bytes and the places of its waits.
#[derive(Debug)]
pub struct MemoryLink {
    reads: ReadList,
    writes: Sequence<WriteEvent>,
    writes_passed: usize,
    // How many writes the next event said already.
    takes_passed: u32,
    taken: Vec<u8>,
    can_upgrade: bool,
    is_local: bool,
    secured: Option<TlsWish>,
    asked: Asked,
    calls: u64,
    moved: u64,
    read_waits: u64,
    write_waits: u64,
    ends: u64,
    faults: u64,
    upgrade_faults: u64,
}

// By hand, so that whoever lets one go makes one call, and doesn't go through its parts.
impl Drop for MemoryLink {
    fn drop(self) {
        let MemoryLink {
            reads: _,
            writes: _,
            writes_passed: _,
            takes_passed: _,
            taken: _,
            can_upgrade: _,
            is_local: _,
            secured: _,
            asked: _,
            calls: _,
            moved: _,
            read_waits: _,
            write_waits: _,
            ends: _,
            faults: _,
            upgrade_faults: _,
        } = self;
    }
}

// What is left of an event that said so many writes.
fn left_in(event: WriteEvent, passed: u32) -> WriteEvent
    ensures { result ≡ left_in passed event }
{
    match event {
        WriteEvent::Take { most, times } => WriteEvent::Take {
            most,
            times: times.saturating_sub(passed),
        },
        _ => event,
    }
}

// How many writes the event said with one more, if it says more than that.
fn passed_by(event: WriteEvent, passed: u32) -> Option<u32>
    ensures { result ≡ (if is_last (left_in passed event) then None else Some (passed + 1)) }
{
    match event {
        WriteEvent::Take { times, .. } => {
            if times.saturating_sub(passed) <= 1 {
                None
            } else {
                Some(passed + 1)
            }
        }
        _ => None,
    }
}

impl MemoryLink {
    /// A link that was not called yet. Takes no memory.
    pub fn new(
        alloc: Global,
        reads: Sequence<ReadEvent>,
        writes: Sequence<WriteEvent>,
        can_upgrade: bool,
        is_local: bool,
    ) -> Self
        ensures plan { plan_of result ≡ record { reads = reads; writes = writes; can_upgrade = can_upgrade; is_local = is_local } }
        ensures seen { seen_of result ≡ untouched (plan_of result) }
        ensures reads { reads_ahead result ≡ reads }
        ensures writes { writes_ahead result ≡ writes }
    {
        MemoryLink {
            reads: ReadList::new(reads),
            writes,
            writes_passed: 0,
            takes_passed: 0,
            taken: Vec::new(alloc),
            can_upgrade,
            is_local,
            secured: None,
            asked: Asked::none(),
            calls: 0,
            moved: 0,
            read_waits: 0,
            write_waits: 0,
            ends: 0,
            faults: 0,
            upgrade_faults: 0,
        }
    }

    /// The bytes that it took.
    pub fn taken(&self) -> &[u8]
        ensures { (seen_of self.now).taken ≡ Some result.now }
    {
        &self.taken
    }

    /// What the last TLS handshake that was made had to verify.
    pub fn secured(&self) -> Option<TlsWish>
        ensures { result ≡ (seen_of self.now).secured }
    {
        self.secured
    }

    // What the next write does, if the list says it.
    #[tactic(auto, using(crate::proofs::MemoryLaws::left_again, crate::proofs::MemoryLaws::cut_none))]
    fn next_write(&mut self) -> Option<WriteEvent>
        ensures seen { seen_of self.new ≡ seen_of self.old }
        ensures plan { plan_of self.new ≡ plan_of self.old }
        ensures first { TakesFirst (writes_ahead self.old) result (writes_ahead self.new) }
    {
        let event = match self.writes.as_slice().get(self.writes_passed) {
            Some(event) => *event,
            None => return None,
        };
        let next = left_in(event, self.takes_passed);
        match passed_by(event, self.takes_passed) {
            Some(passed) => {
                self.takes_passed = passed;
                Some(next)
            }
            None => {
                self.writes_passed += 1;
                self.takes_passed = 0;
                Some(next)
            }
        }
    }

    // Takes the front of some bytes. Want of memory is a fault.
    fn take(&mut self, from: &[u8], count: usize) -> LinkWrite
        requires some { 0 < count }
        requires within { count ≤ length from.now }
        ensures link { Writes (seen_of self.old) (seen_of self.new) result from.now }
        ensures plan { plan_of self.new ≡ plan_of self.old }
        ensures ahead { writes_ahead self.new ≡ writes_ahead self.old }
        ensures answer { (result ≡ LinkWrite.Moved count) ⊎ (result ≡ LinkWrite.Failed) }
    {
        self.calls = self.calls.saturating_add(1);
        match self.taken.extend_from_slice(&from[..count]) {
            Ok(()) => {
                self.moved = self.moved.saturating_add(1);
                LinkWrite::Moved(count)
            }
            Err(_) => {
                self.faults = self.faults.saturating_add(1);
                LinkWrite::Failed
            }
        }
    }
}

impl Link for MemoryLink {
    ghost seen = { seen_of };

    /// Gives as much of the next piece as fits.
    fn read(&mut self, into: &mut [u8]) -> LinkRead
        requires { 0 < length into.old }
        ensures link { Reads (seen_of self.old) (seen_of self.new) result into.new }
        ensures plan { plan_of self.new ≡ plan_of self.old }
        ensures follows { ReadFollows self.old self.new result (length into.new) }
    {
        self.calls = self.calls.saturating_add(1);
        self.asked = self.asked.with(into.len());
        match self.reads.read(into) {
            LinkRead::Moved(count) => {
                self.moved = self.moved.saturating_add(1);
                LinkRead::Moved(count)
            }
            LinkRead::NotYet => {
                self.read_waits = self.read_waits.saturating_add(1);
                LinkRead::NotYet
            }
            LinkRead::End => {
                self.ends = self.ends.saturating_add(1);
                LinkRead::End
            }
            LinkRead::Failed => {
                self.faults = self.faults.saturating_add(1);
                LinkRead::Failed
            }
        }
    }

    /// Takes as much as the next event says, one byte at least. Want of memory is `Failed` and counts as a fault.
    fn write(&mut self, from: &[u8]) -> LinkWrite
        requires { 0 < length from.now }
        ensures link { Writes (seen_of self.old) (seen_of self.new) result from.now }
        ensures plan { plan_of self.new ≡ plan_of self.old }
        ensures follows { WriteFollows self.old self.new result (length from.now) }
    {
        match self.next_write() {
            None => self.take(from, from.len()),
            Some(WriteEvent::Take { most, .. }) => self.take(from, most.max(1).min(from.len())),
            Some(WriteEvent::Wait) => {
                self.calls = self.calls.saturating_add(1);
                self.write_waits = self.write_waits.saturating_add(1);
                LinkWrite::NotYet
            }
            Some(WriteEvent::Fail) => {
                self.calls = self.calls.saturating_add(1);
                self.faults = self.faults.saturating_add(1);
                LinkWrite::Failed
            }
        }
    }

    fn can_upgrade(&self) -> bool
        ensures { result ≡ (plan_of self.now).can_upgrade }
    {
        self.can_upgrade
    }

    fn is_local(&self) -> bool
        ensures { result ≡ (plan_of self.now).is_local }
    {
        self.is_local
    }

    fn upgrade(&mut self, wish: TlsWish) -> LinkUpgrade
        ensures link { Upgrades (seen_of self.old) (seen_of self.new) wish result }
        ensures done { result ≡ LinkUpgrade.Done }
        ensures plan { plan_of self.new ≡ plan_of self.old }
    {
        self.calls = self.calls.saturating_add(1);
        self.secured = Some(wish);
        self.moved = self.moved.saturating_add(1);
        LinkUpgrade::Done
    }
}
