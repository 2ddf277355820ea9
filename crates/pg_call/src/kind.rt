ghost use Rattle.std.specs.Prelude.{◌≡◌};
ghost use Rattle.pg_call.specs.Items.{shows_counts, shows_rows};
ghost use Rattle.pg_call.specs.Requests.{change_of, is_close, is_flush, sees_rows};

/// A way to run a query: what of its reply is shown, and when.
#[derive(Clone, Copy, Debug, PartialEq, Eq)]
pub enum How {
    /// The sum of the rows that its statements count.
    Execute,
    /// Each statement's count as it comes.
    ExecuteMany,
    /// Each row as it comes.
    Fetch,
    /// Rows and counts as they come.
    FetchMany,
    /// All rows, with the answer.
    FetchAll,
    /// The first row, if there is one, with the answer.
    FetchOptional,
    /// The first row, with the answer; it is an error that there is none.
    FetchOne,
}

/// What is asked, without its text.
#[derive(Clone, Copy, Debug, PartialEq, Eq)]
pub enum Kind {
    Run(How),
    /// What comes behind it is made ready: a statement is prepared and described, or one that is kept is closed.
    Describe,
    /// What was described is told.
    Prepare,
    /// The statements that are kept are closed.
    Clear,
    /// A transaction is opened, or a savepoint in one.
    Begin,
    /// It is committed, or the savepoint released.
    Commit,
    /// It is rolled back, or to the savepoint.
    Rollback,
    Ping,
    Flush,
    Close,
    /// A copy to the client.
    CopyOut,
    /// A copy from the client.
    CopyIn,
}

/// What a call makes of the number of transactions and savepoints that are open, where it is Ok, and what it leaves to be cleaned up where it is not.
#[derive(Clone, Copy, Debug, PartialEq, Eq)]
pub enum Change {
    Stays,
    /// One more is open.
    Opens,
    /// One fewer is.
    Closes,
    /// As many are; a copy from the client is begun, which a CopyFail ends where nothing else has.
    Copies,
    /// As many are; all data of a copy from the client is sent.
    Fed,
}

/// What becomes of the statements that are kept by an exchange that has queued its group, or is Ok.
#[derive(Clone, Copy, Debug, PartialEq, Eq)]
pub enum Keeping {
    Stays,
    /// The one of this number is used.
    Hits(u32),
    /// The number of the next one is used up.
    Draws,
    /// The one that was described is kept.
    Puts,
    /// The same, where the one that was used longest ago is closed for it.
    Evicts,
    /// None is kept.
    Clears,
}

impl Kind {
    /// Whether it shows rows, or hands their columns on.
    pub fn sees_rows(self) -> bool
        ensures { result ≡ sees_rows self }
    {
        match self {
            Kind::Run(How::Execute | How::ExecuteMany) => false,
            Kind::Run(_) | Kind::Describe => true,
            Kind::Prepare
            | Kind::Clear
            | Kind::Begin
            | Kind::Commit
            | Kind::Rollback
            | Kind::Ping
            | Kind::Flush
            | Kind::Close
            | Kind::CopyOut
            | Kind::CopyIn => false,
        }
    }

    /// Whether each row is shown as it comes.
    pub fn shows_rows(self) -> bool
        ensures { result ≡ shows_rows self }
    {
        matches!(self, Kind::Run(How::Fetch | How::FetchMany))
    }

    /// Whether each count is.
    pub fn shows_counts(self) -> bool
        ensures { result ≡ shows_counts self }
    {
        matches!(self, Kind::Run(How::ExecuteMany | How::FetchMany))
    }

    /// What it makes of the transactions that are open.
    pub fn change(self) -> Change
        ensures { result ≡ change_of self }
    {
        match self {
            Kind::Begin => Change::Opens,
            Kind::Commit | Kind::Rollback => Change::Closes,
            Kind::CopyIn => Change::Copies,
            Kind::Run(_)
            | Kind::Describe
            | Kind::Prepare
            | Kind::Clear
            | Kind::Ping
            | Kind::Flush
            | Kind::Close
            | Kind::CopyOut => Change::Stays,
        }
    }

    /// Whether nothing is asked of the server.
    pub fn is_flush(self) -> bool
        ensures { result ≡ is_flush self }
    {
        matches!(self, Kind::Flush | Kind::Prepare)
    }

    /// Whether the session ends by it.
    pub fn is_close(self) -> bool
        ensures { result ≡ is_close self }
    {
        matches!(self, Kind::Close)
    }
}
