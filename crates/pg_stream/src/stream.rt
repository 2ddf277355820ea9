ghost use Rattle.std.specs.Prelude.{◌≡◌, ◌+◌, ◌-◌, ◌<◌, ◌≤◌, ◌++◌, [], length, take, max, IfOk, IfSome, OnOk, OnErr, option_map};
ghost use Rattle.std.specs.Prelude.{nat_eq, List, ℕ};
ghost use Rattle.pg_stream.specs.Streams.{stream_by, fresh_stream, SendsOnce, ReadsOnce, PollsSend, PollsFront, PollsFrame, PollsHeard, FrontIs, IsFront, IsHeardFront, IsFrontOf, TakesFront, TakesHeard, Passes, PassesAside, PollsAhead, AheadOnce, framed};
ghost use Rattle.pg_stream.specs.Parameters.{value_of};
ghost use Rattle.pg_stream.specs.Notifications.{TakesOldest, keeping_from};

use crate::asynchronous::{is_asynchronous, note_aside, take_aside};
use crate::notifications::Notifications;
use crate::outgoing::Outgoing;
use crate::parameters::Parameters;
use crate::received::Received;
use crate::{Link, LinkRead, LinkWrite};
use pg_wire::{
    Blob, Cut, Error, Frame, IoCause, Notification, Poll, ProtocolFault, ServerFault, cut,
};
use std::alloc::{AllocError, Global};
use std::marker::Model;

/// The link calls that one poll may make.
pub const CALLS_MAX: u16 = 256;

/// The link's waits and moves since a call began, each up to `u64`'s greatest value.
#[derive(Clone, Copy, Debug, PartialEq, Eq)]
pub struct LinkCalls {
    pub waits: u64,
    pub moved: u64,
}

/// Frames over a link: what is queued goes out, and what comes in is cut into frames.
pub struct PgStream<L> {
    link: L,
    unsent: Outgoing,
    held: Received,
    left: u16,
    waits: u64,
    moves: u64,
    taken: u64,
    parameters: Parameters,
    notifications: Notifications,
}

// By hand, so that whoever lets one go makes one call, and doesn't go through its parts.
impl<L: Drop> Drop for PgStream<L> {
    fn drop(self) {
        let PgStream {
            link: _,
            unsent: _,
            held: _,
            left: _,
            waits: _,
            moves: _,
            taken: _,
            parameters: _,
            notifications: _,
        } = self;
    }
}

impl<L> Model for PgStream<L> {
    ghost use Rattle.pg_stream.specs.Streams.{StreamOf};
    ghost use Rattle.pg_stream.specs.Received.{bytes_in};

    ghost Value = { StreamOf L };

    ghost view = { λ s. record { link = s.link; unsent = s.unsent.bytes; spare = s.unsent.spare; held = bytes_in s.held; room = s.held.room; left = s.left; waits = s.waits; moves = s.moves; taken = s.taken; parameters = s.parameters; notifications = s.notifications } };
}

/// The whole frame at the front of what is held: its tag, and its size with the header.
#[derive(Clone, Copy, Debug, PartialEq, Eq)]
pub struct Front {
    pub tag: u8,
    pub total: usize,
}

// The whole frame at the front of the bytes, if there is one.
fn front_of(bytes: &[u8]) -> Result<Option<Front>, Error>
    ensures { FrontIs bytes.now result }
{
    match cut(bytes) {
        Cut::Whole { tag, total } => Ok(Some(Front {
            tag,
            total: total as usize,
        })),
        Cut::Need { .. } => Ok(None),
        Cut::Short { tag, length } => Err(server_fault(ServerFault::ShortLength { tag, length })),
        Cut::Unknown { tag } => Err(server_fault(ServerFault::UnknownTag { tag })),
    }
}

// The same, where it is no asynchronous message. Why there is none isn't told.
#[inline(always)]
fn heard_front_of(bytes: &[u8]) -> Option<Front>
    ensures { IfSome result (λ front. IsHeardFront bytes.now front) }
{
    match cut(bytes) {
        Cut::Whole { tag, total } if !is_asynchronous(tag) => Some(Front {
            tag,
            total: total as usize,
        }),
        _ => None,
    }
}

fn server_fault(fault: ServerFault) -> Error
    ensures { result ≡ Error.Protocol (ProtocolFault.Server fault) }
{
    Error::Protocol(ProtocolFault::Server(fault))
}

// The body of the frame at the front.
fn body_of(held: &[u8], front: Front) -> &[u8]
    requires { IsFront held.now front }
    ensures { (rest : List ℕ) × IsFrontOf held.now front (framed front.tag result.now) rest }
{
    &held[5..front.total]
}

impl<L> PgStream<L> {
    /// A stream that has queued and read nothing, at the beginning of a call and of a poll.
    pub fn new(alloc: Global, link: L) -> Self
        ensures { result ≡ fresh_stream link }
    {
        PgStream {
            link,
            unsent: Outgoing::new(alloc),
            held: Received::new(alloc),
            left: CALLS_MAX,
            waits: 0,
            moves: 0,
            taken: 0,
            parameters: Parameters::new(alloc),
            notifications: Notifications::new(alloc),
        }
    }

    /// The link, which only the stream's own calls read and write.
    pub fn link(&self) -> &L
        ensures { result.now ≡ self.now.link }
    {
        &self.link
    }

    /// Hands the link back, whatever is unsent or held.
    pub fn into_link(self) -> L
        ensures { result ≡ self.link }
    {
        let PgStream {
            link,
            unsent: _,
            held: _,
            left: _,
            waits: _,
            moves: _,
            taken: _,
            parameters: _,
            notifications: _,
        } = self;
        link
    }

    /// Adds frames to what is to be sent, all or none.
    pub fn queue(&mut self, frames: &Blob) -> Result<(), Error>
        ensures ok { OnOk result (self.new ≡ record self.old { unsent = self.old.unsent ++ frames.now }) }
        ensures err { OnErr result ((self.new ≡ self.old) × (result ≡ Err Error.OutOfMemory)) }
    {
        match self.unsent.queue(frames.as_bytes()) {
            Ok(()) => Ok(()),
            Err(_) => Err(Error::OutOfMemory),
        }
    }

    /// Keeps room for so many bytes of cleanup at least: what is queued meanwhile takes none of it.
    pub fn reserve_cleanup(&mut self, bytes: usize) -> Result<(), Error>
        ensures ok { OnOk result (self.new ≡ record self.old { spare = max self.old.spare bytes }) }
        ensures err { OnErr result ((self.new ≡ self.old) × (result ≡ Err Error.OutOfMemory)) }
    {
        match self.unsent.reserve_cleanup(bytes) {
            Ok(()) => Ok(()),
            Err(_) => Err(Error::OutOfMemory),
        }
    }

    /// How many bytes of cleanup can be queued without taking memory.
    pub fn spare(&self) -> usize
        ensures { result ≡ self.now.spare }
    {
        self.unsent.spare()
    }

    /// Adds a cleanup frame to what is to be sent, in the room that was kept for it.
    pub fn queue_cleanup(&mut self, frame: &[u8])
        requires { length frame.now ≤ self.old.spare }
        ensures { self.new ≡ record self.old { unsent = self.old.unsent ++ frame.now; spare = self.old.spare - length frame.now } }
    {
        self.unsent.queue_cleanup(frame);
    }

    /// The last value that the server told of a parameter, but for `server_version`: that one is `server_version_num`.
    /// (PostgreSQL manual, "Message Formats", ParameterStatus.)
    pub fn parameter(&self, name: &str) -> Option<&str>
        ensures { option_map (λ value. value.now) result ≡ value_of name.now self.now.parameters }
    {
        self.parameters.get(name)
    }

    /// The number of the server's version, as `parse_server_version` reads it from the last text that the server told.
    pub fn server_version_num(&self) -> Option<u32>
        ensures { result ≡ self.now.parameters.version }
    {
        self.parameters.version()
    }

    /// Whether notifications that are taken aside are kept from now on, for `next_buffered`. Where they aren't, those kept are let go.
    pub fn set_notifications(&mut self, keep: bool)
        ensures { self.new ≡ record self.old { notifications = keeping_from keep self.old.notifications } }
    {
        self.notifications.keep(keep);
    }

    /// Takes the oldest of the notifications that are kept. It takes no memory.
    pub fn next_buffered(&mut self) -> Option<Notification>
        ensures same { self.new ≡ record self.old { notifications = self.new.notifications } }
        ensures takes { TakesOldest self.old.notifications self.new.notifications result }
    {
        self.notifications.next()
    }

    /// Gives up the room of the buffers that neither bytes nor the cleanup reserve need.
    pub fn shrink_buffers(&mut self) -> Result<(), Error>
        ensures same { self.new ≡ record self.old { room = self.new.room } }
        ensures room { self.new.room ≤ self.old.room }
        ensures err { OnErr result (result ≡ Err Error.OutOfMemory) }
    {
        self.unsent.shrink()?;
        self.held.shrink()?;
        Ok(())
    }

    /// Begins a call: its waits and moves are counted from zero.
    pub fn begin_call(&mut self)
        ensures { self.new ≡ record self.old { waits = 0; moves = 0 } }
    {
        self.waits = 0;
        self.moves = 0;
    }

    /// Allows 256 link calls up to the next `begin_poll`, less those that were used already.
    pub fn begin_poll(&mut self, used: u16)
        requires { used ≤ CALLS_MAX }
        ensures { self.new ≡ record self.old { left = CALLS_MAX - used } }
    {
        self.left = CALLS_MAX - used;
    }

    /// The link calls that are still allowed.
    pub fn left(&self) -> u16
        ensures { result ≡ self.now.left }
    {
        self.left
    }

    /// The link's waits and moves since the last `begin_call`.
    pub fn calls(&self) -> LinkCalls
        ensures { result ≡ record { waits = self.now.waits; moved = self.now.moves } }
    {
        LinkCalls {
            waits: self.waits,
            moved: self.moves,
        }
    }

    /// The bytes of all frames taken, up to `u64`'s greatest value.
    pub fn taken(&self) -> u64
        ensures { result ≡ self.now.taken }
    {
        self.taken
    }

    /// Whether all that was queued has been sent.
    pub fn is_sent(&self) -> bool
        ensures { result ≡ nat_eq (length self.now.unsent) 0 }
    {
        self.unsent.is_empty()
    }

    // The whole frame at the front of what is held, if there is one.
    fn front(&self) -> Result<Option<Front>, Error>
        ensures { FrontIs self.now.held result }
    {
        front_of(self.held.as_slice())
    }

    /// The frame at the front, where nothing is left to be sent, it has come whole, and it is no asynchronous message.
    #[inline(always)]
    pub fn heard_front(&self) -> Option<Front>
        ensures { IfSome result (λ front. (self.now.unsent ≡ []) × IsHeardFront self.now.held front) }
    {
        if !self.is_sent() {
            return None;
        }
        heard_front_of(self.held.as_slice())
    }

    /// The body of the frame at the front.
    pub fn body(&self, front: Front) -> &[u8]
        requires { IsFront self.now.held front }
        ensures { (rest : List ℕ) × IsFrontOf self.now.held front (framed front.tag result.now) rest }
    {
        body_of(self.held.as_slice(), front)
    }

    /// The frame at the front, which stays, in storage that it shares with what was received beside it.
    pub fn share(&mut self, front: Front) -> Result<Frame, AllocError>
        requires { IsFront self.old.held front }
        ensures same { self.new ≡ self.old }
        ensures ok { IfOk result (λ frame. (rest : List ℕ) × IsFrontOf self.old.held front frame rest) }
    {
        let body = self.held.share(5, front.total)?;
        Ok(Frame::new(front.tag, body))
    }

    /// Takes the frame at the front, of which nothing is kept.
    pub fn pass(&mut self, front: Front)
        requires { IsHeardFront self.old.held front }
        ensures { Passes front self.old self.new }
    {
        self.skip(front);
    }

    // Takes the bytes of the frame at the front off what is held.
    fn skip(&mut self, front: Front)
        requires { IsFront self.old.held front }
        ensures { Passes front self.old self.new }
    {
        self.held.advance(front.total);
        self.taken = self.taken.saturating_add(front.total as u64);
    }

    // Takes the frame at the front, which is no asynchronous message; without memory it stays.
    fn take_heard(&mut self, front: Front) -> Result<Frame, Error>
        requires { IsHeardFront self.old.held front }
        ensures { TakesHeard front self.old self.new result }
    {
        let frame = self.share(front)?;
        self.skip(front);
        Ok(frame)
    }

    // Takes the frame at the front, and keeps what it tells of a parameter or as a notification; without memory it stays.
    fn take_front(&mut self, alloc: Global, front: Front) -> Result<Frame, Error>
        requires { IsFront self.old.held front }
        ensures { TakesFront front self.old self.new result }
    {
        let frame = self.share(front)?;
        note_aside(
            &mut self.parameters,
            &mut self.notifications,
            alloc,
            front.tag,
            frame.body(),
        )?;
        self.skip(front);
        Ok(frame)
    }

    // Takes the frame at the front aside where it is an asynchronous message; without memory it stays.
    fn pass_aside(&mut self, alloc: Global, front: Front) -> Result<bool, Error>
        requires { IsFront self.old.held front }
        ensures { PassesAside front self.old self.new result }
    {
        let body = body_of(self.held.as_slice(), front);
        match take_aside(
            &mut self.parameters,
            &mut self.notifications,
            alloc,
            front.tag,
            body,
        ) {
            Ok(true) => {
                self.skip(front);
                Ok(true)
            }
            Ok(false) => Ok(false),
            Err(e) => Err(e),
        }
    }
}

impl<L: Link> PgStream<L> {
    // One write of what is unsent.
    fn send_once(&mut self) -> LinkWrite
        requires unsent { 0 < length self.old.unsent }
        requires left { 0 < self.old.left }
        ensures { SendsOnce (stream_by L.seen self.old) (stream_by L.seen self.new) result }
    {
        self.left -= 1;
        match self.link.write(self.unsent.as_slice()) {
            LinkWrite::Moved(count) => {
                self.unsent.advance(count);
                self.moves = self.moves.saturating_add(1);
                LinkWrite::Moved(count)
            }
            LinkWrite::NotYet => {
                self.waits = self.waits.saturating_add(1);
                LinkWrite::NotYet
            }
            LinkWrite::Failed => LinkWrite::Failed,
        }
    }

    // One read behind what is held, once all is sent.
    fn read_once(&mut self) -> Result<LinkRead, AllocError>
        requires sent { self.old.unsent ≡ [] }
        requires left { 0 < self.old.left }
        ensures ok { IfOk result (λ answer. ReadsOnce (stream_by L.seen self.old) (stream_by L.seen self.new) answer) }
        ensures err { OnErr result (self.new ≡ self.old) }
    {
        let answer = self.held.read_from(&mut self.link)?;
        self.left -= 1;
        match answer {
            LinkRead::Moved(count) => {
                self.moves = self.moves.saturating_add(1);
                Ok(LinkRead::Moved(count))
            }
            LinkRead::NotYet => {
                self.waits = self.waits.saturating_add(1);
                Ok(LinkRead::NotYet)
            }
            LinkRead::End => Ok(LinkRead::End),
            LinkRead::Failed => Ok(LinkRead::Failed),
        }
    }

    /// Sends what is unsent.
    pub fn poll_send(&mut self) -> Poll<Result<(), Error>>
        ensures { PollsSend (stream_by L.seen self.old) (stream_by L.seen self.new) result }
    {
        while !self.is_sent() {
            if self.left == 0 {
                return Poll::Pending;
            }
            match self.send_once() {
                LinkWrite::Moved(_) => {}
                LinkWrite::NotYet => return Poll::Pending,
                LinkWrite::Failed => return Poll::Ready(Err(Error::Io(IoCause::Fault))),
            }
        }
        Poll::Ready(Ok(()))
    }

    // Reads until a whole frame stands at the front of what is held.
    fn poll_read(&mut self) -> Poll<Result<Front, Error>>
        requires { self.old.unsent ≡ [] }
        ensures { PollsFront (stream_by L.seen self.old) (stream_by L.seen self.new) result }
    {
        loop {
            match self.front() {
                Ok(Some(front)) => return Poll::Ready(Ok(front)),
                Ok(None) => {}
                Err(e) => return Poll::Ready(Err(e)),
            }
            if self.left == 0 {
                return Poll::Pending;
            }
            match self.read_once() {
                Ok(LinkRead::Moved(_)) => {}
                Ok(LinkRead::NotYet) => return Poll::Pending,
                Ok(LinkRead::End) => return Poll::Ready(Err(Error::Io(IoCause::End))),
                Ok(LinkRead::Failed) => return Poll::Ready(Err(Error::Io(IoCause::Fault))),
                Err(_) => return Poll::Ready(Err(Error::OutOfMemory)),
            }
        }
    }

    // Sends what is unsent, and then reads until a whole frame stands at the front.
    fn poll_front(&mut self) -> Poll<Result<Front, Error>>
        ensures { PollsFront (stream_by L.seen self.old) (stream_by L.seen self.new) result }
    {
        match self.poll_send() {
            Poll::Ready(Ok(())) => self.poll_read(),
            Poll::Ready(Err(e)) => Poll::Ready(Err(e)),
            Poll::Pending => Poll::Pending,
        }
    }

    /// Sends what is unsent, and takes the next frame of all the bytes that the link gives. It reads only while it holds no
    /// whole frame. A frame for which memory is refused stays held.
    pub fn poll_frame(&mut self, alloc: Global) -> Poll<Result<Frame, Error>>
        ensures { PollsFrame (stream_by L.seen self.old) (stream_by L.seen self.new) result }
    {
        match self.poll_front() {
            Poll::Ready(Ok(front)) => Poll::Ready(self.take_front(alloc, front)),
            Poll::Ready(Err(e)) => Poll::Ready(Err(e)),
            Poll::Pending => Poll::Pending,
        }
    }

    /// Sends what is unsent, and takes the next frame aside where it is an asynchronous message. Else it answers: with that frame, which stays,
    /// or why there is none.
    pub fn ahead_once(&mut self, alloc: Global) -> Option<Poll<Result<Front, Error>>>
        ensures { AheadOnce (stream_by L.seen self.old) (stream_by L.seen self.new) result }
    {
        match self.poll_front() {
            Poll::Ready(Ok(front)) => match self.pass_aside(alloc, front) {
                Ok(true) => None,
                Ok(false) => Some(Poll::Ready(Ok(front))),
                Err(e) => Some(Poll::Ready(Err(e))),
            },
            Poll::Ready(Err(e)) => Some(Poll::Ready(Err(e))),
            Poll::Pending => Some(Poll::Pending),
        }
    }

    /// Sends what is unsent, and waits until a frame that is no asynchronous message stands at the front, where it stays:
    /// `body` shows it and `pass` takes it. Notices, parameter changes and notifications before it are taken aside;
    /// a notification that can't be kept for want of memory stays held.
    /// (PostgreSQL manual, "Message Flow", "Asynchronous Operations".)
    #[inline(always)]
    pub fn poll_ahead(&mut self, alloc: Global) -> Poll<Result<Front, Error>>
        ensures { PollsAhead (stream_by L.seen self.old) (stream_by L.seen self.new) result }
    {
        if let Some(front) = self.heard_front() {
            return Poll::Ready(Ok(front));
        }
        self.poll_aside(alloc)
    }

    // The same, whatever stands at the front.
    fn poll_aside(&mut self, alloc: Global) -> Poll<Result<Front, Error>>
        ensures { PollsAhead (stream_by L.seen self.old) (stream_by L.seen self.new) result }
    {
        loop {
            if let Some(answer) = self.ahead_once(alloc) {
                return answer;
            }
        }
    }

    /// The same, and takes that frame. A frame for which memory is refused stays held.
    pub fn poll_heard(&mut self, alloc: Global) -> Poll<Result<Frame, Error>>
        ensures { PollsHeard (stream_by L.seen self.old) (stream_by L.seen self.new) result }
    {
        match self.poll_ahead(alloc) {
            Poll::Ready(Ok(front)) => Poll::Ready(self.take_heard(front)),
            Poll::Ready(Err(e)) => Poll::Ready(Err(e)),
            Poll::Pending => Poll::Pending,
        }
    }
}
