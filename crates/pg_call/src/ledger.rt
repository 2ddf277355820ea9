ghost use Rattle.std.specs.Prelude.{◌≡◌, ◌-◌, ◌<◌, false};

/// The replies that are owed: the Query and Sync messages queued, less the ReadyForQuery messages taken.
///
/// A reply is owed from the moment its request is queued, whether or not the call that asked still runs. So a call that was
/// dropped leaves its reply here, and the next call drains it first.
#[derive(Clone, Copy, Debug, PartialEq, Eq)]
pub struct Ledger {
    pub owed: u64,
    /// Whether the call of the first reply that is owed has queued a CopyFail for it.
    pub is_copy_failed: bool,
}

impl Ledger {
    /// Nothing is owed.
    pub fn new() -> Self
        ensures { result ≡ record { owed = 0; is_copy_failed = false } }
    {
        Ledger {
            owed: 0,
            is_copy_failed: false,
        }
    }

    /// A ReadyForQuery was taken: one reply has come to its end.
    pub fn take_ready(&mut self)
        requires { 0 < self.old.owed }
        ensures { self.new ≡ record { owed = self.old.owed - 1; is_copy_failed = false } }
    {
        self.owed -= 1;
        self.is_copy_failed = false;
    }
}
