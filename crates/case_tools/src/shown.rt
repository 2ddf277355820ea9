use pg_stream::{Link, MemoryLink, SocketLink};

/// A link that shows what was sent over it, where it knows.
pub trait Shown: Link {
    fn sent(&self) -> Option<&[u8]>;
}

impl Shown for MemoryLink {
    fn sent(&self) -> Option<&[u8]> {
        Some(self.taken())
    }
}

impl Shown for SocketLink {
    fn sent(&self) -> Option<&[u8]> {
        None
    }
}
