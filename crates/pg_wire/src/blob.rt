ghost use Rattle.std.specs.Prelude.{◌≡◌, ◌↔◌, ◌++◌, [], length, take, OnOk, OnErr, IfOk, IsTrue};

use std::alloc::{AllocError, Global};
use std::marker::Model;

/// Bytes that are kept: contracts see them as a list.
#[derive(Debug)]
pub struct Blob {
    bytes: Vec<u8>,
}

// By hand, so that whoever lets one go makes one call, and doesn't go through its parts.
impl Drop for Blob {
    fn drop(self) {
        let Blob { bytes: _ } = self;
    }
}

impl Model for Blob {
    ghost use Rattle.std.specs.Prelude.{List, ℕ};

    ghost Value = { List ℕ };

    ghost view = { λ b. b.bytes.items };
}

impl Blob {
    /// No bytes, which takes no memory.
    pub fn new(alloc: Global) -> Self
        ensures { result ≡ [] }
    {
        Blob {
            bytes: Vec::new(alloc),
        }
    }

    /// A copy of some bytes.
    pub fn from_slice(alloc: Global, bytes: &[u8]) -> Result<Self, AllocError>
        ensures { IfOk result (λ b. b ≡ bytes.now) }
    {
        let bytes = Vec::from_slice(alloc, bytes)?;
        Ok(Blob { bytes })
    }

    /// The bytes of a `Vec`, without taking memory.
    pub fn from_vec(bytes: Vec<u8>) -> Self
        ensures { result ≡ bytes.items }
    {
        Blob { bytes }
    }

    /// Gives the `Vec` back, without taking memory.
    pub fn into_vec(self) -> Vec<u8>
        ensures { result.items ≡ self }
    {
        let Blob { bytes } = self;
        bytes
    }

    /// The number of bytes.
    pub fn len(&self) -> usize
        ensures { result ≡ length self.now }
    {
        self.bytes.len()
    }

    pub fn is_empty(&self) -> bool
        ensures { IsTrue result ↔ (length self.now ≡ 0) }
    {
        self.bytes.is_empty()
    }

    pub fn as_bytes(&self) -> &[u8]
        ensures { result.now ≡ self.now }
    {
        &self.bytes
    }

    /// Adds bytes at the end, all or none.
    pub fn append(&mut self, bytes: &[u8]) -> Result<(), AllocError>
        ensures ok { OnOk result (self.new ≡ self.old ++ bytes.now) }
        ensures err { OnErr result (self.new ≡ self.old) }
    {
        self.bytes.extend_from_slice(bytes)
    }

    // Makes room for so many bytes more.
    pub(crate) fn reserve(&mut self, bytes: usize) -> Result<(), AllocError>
        ensures { self.new ≡ self.old }
    {
        self.bytes.reserve(bytes)
    }

    /// Keeps only the first `n` bytes.
    pub fn truncate(&mut self, n: usize)
        ensures { self.new ≡ take n self.old }
    {
        self.bytes.truncate(n);
    }

    /// The same bytes in a blob of their own.
    pub fn to_copy(&self, alloc: Global) -> Result<Self, AllocError>
        ensures { IfOk result (λ b. b ≡ self.now) }
    {
        Blob::from_slice(alloc, &self.bytes)
    }
}
