ghost use Rattle.std.specs.Prelude.{◌≡◌};
ghost use Rattle.pg_script.specs.declared.error.LineError.TheVariants.{OutOfMemory};

use std::alloc::{AllocError, AllocFailed};

/// Why a script was not read.
#[derive(Clone, Copy, Debug, PartialEq, Eq)]
pub enum ReadError {
    /// The first bad line, counted from 1; 0 where the text is longer than 67108864 bytes.
    BadLine(u64),
    OutOfMemory,
}

/// Why one line was not read.
#[derive(Clone, Copy)]
pub(crate) enum LineError {
    Bad,
    OutOfMemory,
}

impl From<AllocError> for LineError {
    ghost from_gives = { λ _ e. e ≡ OutOfMemory };

    fn from(_: AllocError) -> Self {
        LineError::OutOfMemory
    }
}

impl<T: Drop> From<AllocFailed<T>> for LineError {
    ghost from_gives = { λ _ e. e ≡ OutOfMemory };

    fn from(_: AllocFailed<T>) -> Self {
        LineError::OutOfMemory
    }
}
