use pg_wire::Blob;

/// What the next read of a link in memory gives.
#[derive(Debug, Drop)]
pub enum ReadEvent {
    /// These bytes, as much of them as fits; the rest is the next piece. An empty piece is passed over.
    Piece(Blob),
    /// Nothing yet.
    Wait,
    /// The end of the bytes.
    End,
    /// A failure.
    Fail,
}

/// What the next write of a link in memory does.
#[derive(Clone, Copy, Debug, PartialEq, Eq)]
pub enum WriteEvent {
    /// So many writes, one at least, take at most so many bytes each, and one at least.
    Take { most: usize, times: u32 },
    /// Takes nothing yet.
    Wait,
    /// Fails.
    Fail,
}
