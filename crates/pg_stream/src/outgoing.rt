ghost use Rattle.std.specs.Prelude.{◌≡◌, ◌≤◌, ◌-◌, ◌++◌, [], length, drop, max, nat_eq, OnOk, OnErr};

use bytes::BytesMut;
use std::alloc::{AllocError, Global};
use std::marker::Model;

/// What is to be sent, and the cleanup reserve: room behind it that only cleanup frames take, so that they need no memory.
#[derive(Drop)]
pub(crate) struct Outgoing {
    bytes: BytesMut,
    spare: usize,
}

impl Model for Outgoing {
    ghost use Rattle.std.specs.Prelude.{◌≤◌};
    ghost use Rattle.pg_stream.specs.Outgoing.{OutgoingSeen};

    ghost Value = { OutgoingSeen };

    ghost view = { λ o. record { bytes = o.bytes.items; spare = o.spare } };

    ghost invariant = { λ o. o.spare ≤ o.bytes.spare };
}

impl Outgoing {
    pub(crate) fn new(alloc: Global) -> Self
        ensures { result ≡ record { bytes = []; spare = 0 } }
    {
        Outgoing {
            bytes: BytesMut::new(alloc),
            spare: 0,
        }
    }

    pub(crate) fn as_slice(&self) -> &[u8]
        ensures { result.now ≡ self.now.bytes }
    {
        self.bytes.as_slice()
    }

    pub(crate) fn is_empty(&self) -> bool
        ensures { result ≡ nat_eq (length self.now.bytes) 0 }
    {
        self.bytes.is_empty()
    }

    pub(crate) fn spare(&self) -> usize
        ensures { result ≡ self.now.spare }
    {
        self.spare
    }

    /// Forgets so many bytes from the front.
    pub(crate) fn advance(&mut self, count: usize)
        requires { count ≤ length self.old.bytes }
        ensures { self.new ≡ record self.old { bytes = drop count self.old.bytes } }
    {
        self.bytes.advance(count);
    }

    /// Adds bytes in room of their own, all or none.
    pub(crate) fn queue(&mut self, frames: &[u8]) -> Result<(), AllocError>
        ensures ok { OnOk result (self.new ≡ record self.old { bytes = self.old.bytes ++ frames.now }) }
        ensures err { OnErr result (self.new ≡ self.old) }
    {
        let Some(room) = self.spare.checked_add(frames.len()) else {
            return Err(AllocError);
        };
        self.bytes.reserve(room)?;
        self.bytes.extend_reserved(frames);
        Ok(())
    }

    /// Keeps room for so many bytes of cleanup at least.
    pub(crate) fn reserve_cleanup(&mut self, bytes: usize) -> Result<(), AllocError>
        ensures ok { OnOk result (self.new ≡ record self.old { spare = max self.old.spare bytes }) }
        ensures err { OnErr result (self.new ≡ self.old) }
    {
        if self.spare < bytes {
            self.bytes.reserve(bytes)?;
            self.spare = bytes;
        }
        Ok(())
    }

    /// Adds a cleanup frame, in the room that was kept for it.
    pub(crate) fn queue_cleanup(&mut self, frame: &[u8])
        requires { length frame.now ≤ self.old.spare }
        ensures { self.new ≡ record { bytes = self.old.bytes ++ frame.now; spare = self.old.spare - length frame.now } }
    {
        self.bytes.extend_reserved(frame);
        self.spare -= frame.len();
    }

    /// Gives up the room that nothing was kept for.
    pub(crate) fn shrink(&mut self) -> Result<(), AllocError>
        ensures { self.new ≡ self.old }
    {
        let Some(room) = self.bytes.len().checked_add(self.spare) else {
            return Err(AllocError);
        };
        let mut bytes = BytesMut::with_capacity(*self.bytes.allocator(), room)?;
        bytes.extend_reserved(self.bytes.as_slice());
        self.bytes = bytes;
        Ok(())
    }
}
