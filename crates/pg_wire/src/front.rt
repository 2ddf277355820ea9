/// What stands at the front of some bytes of a server.
#[derive(Clone, Copy, Debug, PartialEq, Eq)]
pub enum Cut {
    /// A whole frame with this tag, of `total` bytes with its header.
    Whole { tag: u8, total: u64 },
    /// The front is known once there are `total` bytes.
    Need { total: u64 },
    /// The length field, which counts itself, is below 4.
    Short { tag: u8, length: u32 },
    /// No backend message has this tag.
    Unknown { tag: u8 },
}
