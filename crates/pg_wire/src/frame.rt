ghost use Rattle.std.specs.Prelude.{◌≡◌};

use bytes::Bytes;
use std::marker::Model;

/// One frame of a server: its tag, and the body behind its length. The body shares the storage that it was cut from.
/// (PostgreSQL manual, "Frontend/Backend Protocol", "Messaging Overview".)
#[derive(Debug, Drop)]
pub struct Frame {
    tag: u8,
    body: Bytes,
}

impl Model for Frame {
    ghost use Rattle.pg_wire.specs.Frame as frames;

    ghost Value = { frames.Frame };

    ghost view = { λ f. record { tag = f.tag; body = f.body } };
}

impl Frame {
    pub fn new(tag: u8, body: Bytes) -> Self
        ensures { result ≡ record { tag = tag; body = body } }
    {
        Frame { tag, body }
    }

    pub fn tag(&self) -> u8
        ensures { result ≡ self.now.tag }
    {
        self.tag
    }

    pub fn body(&self) -> &[u8]
        ensures { result.now ≡ self.now.body }
    {
        self.body.as_slice()
    }

    /// The body, without taking memory.
    pub fn into_body(self) -> Bytes
        ensures { result ≡ self.body }
    {
        let Frame { tag: _, body } = self;
        body
    }
}
