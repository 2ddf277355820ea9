//! Links in memory that a dial gives.

ghost use Rattle.std.specs.Prelude.{IfOk};
ghost use Rattle.pg_stream.specs.Memory.{seen_of};
ghost use Rattle.pg_conn.specs.Dials.{AreUncalled, IsUncalled};

use pg_stream::{MemoryLink, ReadEvent};
use pg_wire::{Error, Sequence};
use std::alloc::Global;
use std::collections::VecDeque;

/// A link that gives this, takes whatever is written, and knows nothing of TLS.
pub fn link(alloc: Global, reads: Sequence<ReadEvent>) -> MemoryLink
    ensures { IsUncalled (seen_of result) }
{
    MemoryLink::new(alloc, reads, Sequence::new(alloc), false, false)
}

/// One link more for a dial.
pub fn push_link(links: &mut VecDeque<MemoryLink>, link: MemoryLink) -> Result<(), Error>
    requires links { AreUncalled links.old.items }
    requires link { IsUncalled (seen_of link) }
    ensures { IfOk result (λ u. AreUncalled links.new.items) }
{
    links.push_back(link)?;
    Ok(())
}
