ghost use Rattle.std.specs.Prelude.{◌≡◌, ◌+◌, ◌-◌, ◌^◌, ◌<◌, List, ℕ, length, IsTrue};
ghost use Rattle.pg_stream.specs.Events.{event_at, IsGivenAt, IsSamePlace, IsOpenAt, ListReads};

use crate::copying::copy_front;
use crate::{LinkRead, ReadEvent};
use pg_wire::Sequence;

/// Read events and a place in them: how many were passed, and how many bytes of the next one were given. Each wait after the
/// list is passed, too.
#[derive(Debug, Drop)]
pub(crate) struct ReadList {
    events: Sequence<ReadEvent>,
    passed: usize,
    offset: usize,
}

impl ReadList {
    pub(crate) fn new(events: Sequence<ReadEvent>) -> Self
        ensures { result ≡ record { events = events; passed = 0; offset = 0 } }
    {
        ReadList {
            events,
            passed: 0,
            offset: 0,
        }
    }

    // Whether the next event is a piece of which nothing is left.
    fn is_given(&self) -> bool
        ensures given { IsGivenAt self.now result }
        ensures room { IsTrue result → self.now.passed < 2 ^ 64 - 1 }
    {
        match self.events.as_slice().get(self.passed) {
            Some(ReadEvent::Piece(piece)) => piece.len() <= self.offset,
            _ => false,
        }
    }

    // Passes the next event.
    fn pass(&mut self)
        requires { self.old.passed < 2 ^ 64 - 1 }
        ensures { self.new ≡ record self.old { passed = self.old.passed + 1; offset = 0 } }
    {
        self.passed += 1;
        self.offset = 0;
    }

    // Passes over pieces of which nothing is left, and so over empty ones.
    fn skip_given(&mut self)
        ensures same { IsSamePlace self.old self.new }
        ensures open { IsOpenAt self.new.offset (event_at self.new.passed self.new.events) }
    {
        while self.is_given() {
            self.pass();
        }
    }

    // Passes a wait. No more of them can be counted than `usize` has numbers.
    fn wait(&mut self) -> LinkRead
        requires { event_at self.old.passed self.old.events ≡ ReadEvent.Wait }
        ensures { (into : List ℕ) → ListReads self.old self.new result into }
    {
        if self.passed == usize::MAX {
            return LinkRead::Failed;
        }
        self.pass();
        LinkRead::NotYet
    }

    /// One read: the front of the next piece, as much of it as fits, or what the next event says.
    pub(crate) fn read(&mut self, into: &mut [u8]) -> LinkRead
        requires { 0 < length into.old }
        ensures { ListReads self.old self.new result into.new }
    {
        self.skip_given();
        match self.events.as_slice().get(self.passed) {
            Some(ReadEvent::Piece(piece)) => {
                let count = copy_front(into, &piece.as_bytes()[self.offset..]);
                self.offset += count;
                LinkRead::Moved(count)
            }
            Some(ReadEvent::End) => {
                self.pass();
                LinkRead::End
            }
            Some(ReadEvent::Fail) => {
                self.pass();
                LinkRead::Failed
            }
            Some(ReadEvent::Wait) => self.wait(),
            None => self.wait(),
        }
    }
}
