//! The dial of a case.

ghost use Rattle.std.specs.Prelude.{IfOk};
ghost use Rattle.pg_conn.specs.Dials.{AreUncalled};

use crate::migrating::case::numbers;
use case_tools::{link, push_link, reads};
use pg_conn::MemoryDial;
use pg_stream::MemoryLink;
use pg_wire::{Error, Sequence};
use std::alloc::Global;
use std::collections::VecDeque;

fn links(alloc: Global, case: &str) -> Result<VecDeque<MemoryLink>, Error>
    ensures { IfOk result (λ links. AreUncalled links.items) }
{
    let mut links = VecDeque::new(alloc);
    for lines in case.split("\nlink\n").skip(1) {
        push_link(&mut links, link(alloc, reads(alloc, lines, "server")?))?;
    }
    Ok(links)
}

/// A dial that gives the links of a case, and some of whose calls fail.
pub(crate) fn dial(alloc: Global, case: &str) -> Result<MemoryDial, Error> {
    let failing = numbers(alloc, case, "fails")?;
    let links = links(alloc, case)?;
    let failing = Sequence::from_vec(failing);
    Ok(MemoryDial::new(links, VecDeque::new(alloc), failing))
}
