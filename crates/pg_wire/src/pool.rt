/// What one critical section of a pool did.
#[derive(Clone, Copy, Debug, PartialEq, Eq)]
pub enum PoolAct {
    /// An idle connection was handed out.
    GotIdle { id: u64 },
    /// Leave to open a new connection was handed out.
    GotNew { id: u64 },
    /// None was idle, and the maximum was out.
    Full { out: u64, idle: u64 },
    /// The pool was closed.
    WasClosed,
    /// A clean connection came back.
    Kept { id: u64 },
    /// A connection, or the leave to open one, was given up.
    Dropped { id: u64 },
    /// The pool was closed now.
    Close,
}

/// One entry of a pool's history.
#[derive(Clone, Copy, Debug, PartialEq, Eq)]
pub struct PoolEntry {
    /// The number of the participant whose call this was.
    pub seat: u32,
    pub act: PoolAct,
}
