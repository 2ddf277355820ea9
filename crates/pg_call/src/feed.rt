ghost use Rattle.std.specs.Prelude.{◌≡◌, false, []};

use pg_request::Query;
use pg_wire::{Blob, Sequence};
use std::alloc::Global;

/// A copy from the client: its text, and what follows that of its data. A caller gives none: data is fed to the call while it runs.
/// (PostgreSQL manual, "Message Flow", "COPY Operations".)
pub struct Feed {
    pub query: Query,
    pub pieces: Sequence<Blob>,
    /// Whether they are all.
    pub is_ended: bool,
}

// By hand, so that whoever lets one go makes one call, and doesn't go through its parts.
impl Drop for Feed {
    fn drop(self) {
        let Feed {
            query: _,
            pieces: _,
            is_ended: _,
        } = self;
    }
}

impl Feed {
    /// A copy of which no data is given yet.
    pub fn new(alloc: Global, query: Query) -> Self
        ensures { result ≡ record { query = query; pieces = []; is_ended = false } }
    {
        Feed {
            query,
            pieces: Sequence::new(alloc),
            is_ended: false,
        }
    }
}
