/// What a call did with the cache of prepared statements.
#[derive(Clone, Copy, Debug, PartialEq, Eq)]
pub enum CacheStep {
    Same,
    Hit,
    Put,
    PutEvicting,
}

/// How far the last call has come, its cleanup included. Each number stops at `u64`'s greatest value.
#[derive(Clone, Copy, Debug, PartialEq, Eq)]
pub struct Progress {
    /// Groups of frames queued; a group ends with a Query or a Sync.
    pub groups: u64,
    /// Frames taken, without asynchronous messages and without the frame that broke the connection.
    pub heard: u64,
    pub cache: CacheStep,
    /// The link's answers that nothing could be read or written yet.
    pub waits: u64,
    /// The link's calls that moved bytes.
    pub moved: u64,
}
