ghost use Rattle.std.specs.Prelude.{◌≡◌, ◌≤◌, ◌+◌, ◌-◌, ◌++◌, [], List, ℕ, drop, length, take, max, slice_range, IfOk, OnOk, OnErr};
ghost use Rattle.pg_stream.specs.Links.{Reads};
ghost use Rattle.pg_stream.specs.Received.{bytes_in, room_for, given_of, size_of, ReadsOnto};

use crate::{Link, LinkRead};
use bytes::{Bytes, BytesMut};
use std::alloc::{AllocError, Global};
use std::marker::Model;

/// How many bytes one read asks for.
const READ_SIZE: usize = 8192;

/// The room of a new block, beside the bytes that it takes over; a block that takes over more has as much room again.
const BLOCK: usize = 65_536;

/// What a new block is filled with, piece by piece.
const ZEROS: [u8; 1024] = [0; 1024];

/// What was received and is not taken yet. Reads go into a block that the buffer alone has. Once a part of it is to be kept, all
/// that stands there is shared, and what is read later goes behind it or into another block: what was handed out stays as it is.
#[derive(Drop)]
pub(crate) struct Received {
    shared: Bytes,
    own: BytesMut,
}

impl Model for Received {
    ghost use Rattle.std.specs.Prelude.{◌≡◌, ◌⊎◌, []};
    ghost use Rattle.pg_stream.specs.Received.{ReceivedSeen};

    ghost Value = { ReceivedSeen };

    ghost view = { λ r. record { shared = r.shared; own = r.own.items; room = r.own.spare } };

    ghost invariant = { λ r. (r.shared ≡ []) ⊎ (r.own.items ≡ []) };
}

impl Received {
    /// Nothing was received, which takes no memory.
    pub(crate) fn new(alloc: Global) -> Self
        ensures { result ≡ record { shared = []; own = []; room = 0 } }
    {
        Received {
            shared: Bytes::new(),
            own: BytesMut::new(alloc),
        }
    }

    pub(crate) fn as_slice(&self) -> &[u8]
        ensures { result.now ≡ bytes_in self.now }
    {
        if self.shared.is_empty() {
            self.own.as_slice()
        } else {
            self.shared.as_slice()
        }
    }

    /// Forgets so many bytes from the front.
    pub(crate) fn advance(&mut self, count: usize)
        requires { count ≤ length (bytes_in self.old) }
        ensures bytes { bytes_in self.new ≡ drop count (bytes_in self.old) }
        ensures room { self.new.room ≡ self.old.room }
    {
        if self.shared.is_empty() {
            self.own.advance(count);
        } else {
            self.shared.advance(count);
        }
    }

    /// A part of the bytes, which stay, in storage that is shared.
    pub(crate) fn share(&mut self, start: usize, end: usize) -> Result<Bytes, AllocError>
        requires order { start ≤ end }
        requires within { end ≤ length (bytes_in self.old) }
        ensures part { IfOk result (λ part. part ≡ slice_range (bytes_in self.old) start end) }
        ensures bytes { bytes_in self.new ≡ bytes_in self.old }
        ensures room { self.new.room ≡ self.old.room }
    {
        self.freeze()?;
        self.shared.slice(start..end)
    }

    // From now on all bytes are shared.
    fn freeze(&mut self) -> Result<(), AllocError>
        ensures ok { OnOk result (self.new.shared ≡ bytes_in self.old) }
        ensures bytes { bytes_in self.new ≡ bytes_in self.old }
        ensures room { self.new.room ≡ self.old.room }
    {
        if self.shared.is_empty() {
            self.shared = self.own.freeze_to(self.own.len())?;
        }
        Ok(())
    }

    // From now on all bytes stand before the room, which has enough for a read.
    fn make_room(&mut self) -> Result<(), AllocError>
        ensures ok { OnOk result ((self.new.shared ≡ []) × (8192 ≤ self.new.room)) }
        ensures bytes { bytes_in self.new ≡ bytes_in self.old }
        ensures room { self.new.room ≤ max self.old.room (room_for (length (bytes_in self.old))) }
        ensures err { OnErr result (self.new ≡ self.old) }
    {
        if self.room() < READ_SIZE + self.shared.len() {
            return self.renew();
        }
        self.own.extend_reserved(self.shared.as_slice());
        self.shared = Bytes::new();
        Ok(())
    }

    fn room(&self) -> usize
        ensures { result ≡ self.now.room }
    {
        self.own.capacity() - self.own.len()
    }

    // The same bytes in a block of their own, with new room behind them.
    fn renew(&mut self) -> Result<(), AllocError>
        ensures ok { OnOk result ((self.new.shared ≡ []) × (8192 ≤ self.new.room)) }
        ensures bytes { bytes_in self.new ≡ bytes_in self.old }
        ensures room { self.new.room ≤ max self.old.room (room_for (length (bytes_in self.old))) }
        ensures err { OnErr result (self.new ≡ self.old) }
    {
        self.own = block_of(*self.own.allocator(), self.as_slice())?;
        self.shared = Bytes::new();
        Ok(())
    }

    // One read into the room.
    fn fill<L: Link>(&mut self, link: &mut L) -> LinkRead
        requires open { self.old.shared ≡ [] }
        requires room { 8192 ≤ self.old.room }
        ensures reads { (into : List ℕ) × Reads (L.seen link.old) (L.seen link.new) result into × (length into ≡ 8192) × (bytes_in self.new ≡ bytes_in self.old ++ given_of result into) }
        ensures room { self.new.room ≤ self.old.room }
    {
        let len = self.own.len();
        self.own.advance_mut(READ_SIZE);
        let answer = link.read(&mut self.own.as_mut_slice()[len..]);
        self.own.truncate(len + count_of(answer));
        answer
    }

    /// One read of a link. The room is made before, so that no byte that the link gives is lost.
    pub(crate) fn read_from<L: Link>(&mut self, link: &mut L) -> Result<LinkRead, AllocError>
        ensures ok { IfOk result (λ answer. ReadsOnto (L.seen link.old) (L.seen link.new) self.old self.new answer) }
        ensures err { OnErr result ((self.new ≡ self.old) × (link.new ≡ link.old)) }
    {
        self.make_room()?;
        Ok(self.fill(link))
    }

    /// Gives up the room, where that makes it less.
    pub(crate) fn shrink(&mut self) -> Result<(), AllocError>
        ensures bytes { bytes_in self.new ≡ bytes_in self.old }
        ensures room { self.new.room ≤ self.old.room }
    {
        let own = BytesMut::copy_from_slice(*self.own.allocator(), self.as_slice())?;
        if own.capacity() - own.len() <= self.room() {
            self.own = own;
            self.shared = Bytes::new();
        }
        Ok(())
    }
}

// How many bytes a read gave.
fn count_of(answer: LinkRead) -> usize
    ensures { result ≡ size_of answer }
{
    match answer {
        LinkRead::Moved(count) => count,
        LinkRead::NotYet | LinkRead::End | LinkRead::Failed => 0,
    }
}

// So many zeros, or some more.
fn zeros(alloc: Global, count: usize) -> Result<Vec<u8>, AllocError> {
    let mut zeros = Vec::with_capacity(alloc, count)?;
    for _ in 0..count.div_ceil(ZEROS.len()) {
        zeros.extend_from_slice(&ZEROS)?;
    }
    Ok(zeros)
}

// The bytes in a block of their own, with room behind them. One that would have more than is asked twice over is refused.
fn block_of(alloc: Global, bytes: &[u8]) -> Result<BytesMut, AllocError>
    ensures bytes { IfOk result (λ b. b.items ≡ bytes.now) }
    ensures some { IfOk result (λ b. 8192 ≤ b.spare) }
    ensures room { IfOk result (λ b. b.spare ≤ room_for (length bytes.now)) }
{
    let room = bytes.len().max(BLOCK);
    let mut block = BytesMut::from_vec(zeros(alloc, bytes.len().saturating_add(room))?);
    block.clear();
    block.extend_from_slice(bytes)?;
    let spare = block.capacity() - block.len();
    if spare < READ_SIZE || spare / 2 >= room {
        return Err(AllocError);
    }
    Ok(block)
}
