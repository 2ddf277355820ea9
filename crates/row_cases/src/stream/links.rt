// Links in memory.

use crate::row::blob;
use pg_stream::{
    Link, LinkRead, LinkUpgrade, LinkWrite, MemoryLink, ReadEvent, TlsWish, WriteEvent,
};
use pg_wire::Sequence;
use std::alloc::Global;

pub fn push_piece(alloc: Global, reads: &mut Sequence<ReadEvent>, bytes: &[u8]) {
    let _ = reads.push(ReadEvent::Piece(blob(alloc, bytes)));
}

fn pieces_and_waits(alloc: Global) -> Sequence<ReadEvent> {
    let mut reads = Sequence::new(alloc);
    push_piece(alloc, &mut reads, b"abc");
    push_piece(alloc, &mut reads, b"");
    let _ = reads.push(ReadEvent::Wait);
    push_piece(alloc, &mut reads, b"");
    push_piece(alloc, &mut reads, b"d");
    let _ = reads.push(ReadEvent::End);
    let _ = reads.push(ReadEvent::Fail);
    reads
}

// Whether a read of one byte gives this one.
fn gives_byte(link: &mut MemoryLink, byte: u8) -> bool {
    let mut into = [0];
    link.read(&mut into) == LinkRead::Moved(1) && into[0] == byte
}

// Whether a read of nine bytes has this answer, and begins with these bytes.
fn reads(link: &mut MemoryLink, answer: LinkRead, bytes: &[u8]) -> bool {
    let mut into = [0; 9];
    link.read(&mut into) == answer && into.starts_with(bytes)
}

fn gives(link: &mut MemoryLink) -> bool {
    gives_byte(link, b'a')
        && reads(link, LinkRead::Moved(2), b"bc")
        && reads(link, LinkRead::NotYet, b"")
        && gives_byte(link, b'd')
        && reads(link, LinkRead::End, b"")
        && reads(link, LinkRead::Failed, b"")
        && reads(link, LinkRead::NotYet, b"")
        && reads(link, LinkRead::NotYet, b"")
}

/// A link gives its pieces and waits, and then waits for ever.
pub fn gives_pieces_and_waits(alloc: Global) -> bool {
    let events = pieces_and_waits(alloc);
    let mut link = MemoryLink::new(alloc, events, Sequence::new(alloc), true, false);
    gives(&mut link)
}

fn some_taken(alloc: Global) -> Sequence<WriteEvent> {
    let mut writes = Sequence::new(alloc);
    let _ = writes.push(WriteEvent::Take { most: 2, times: 1 });
    let _ = writes.push(WriteEvent::Take { most: 0, times: 1 });
    let _ = writes.push(WriteEvent::Take { most: 9, times: 1 });
    let _ = writes.push(WriteEvent::Wait);
    let _ = writes.push(WriteEvent::Fail);
    writes
}

fn takes(link: &mut MemoryLink) -> bool {
    link.write(b"abc") == LinkWrite::Moved(2)
        && link.write(b"cde") == LinkWrite::Moved(1)
        && link.write(b"de") == LinkWrite::Moved(2)
        && link.write(b"f") == LinkWrite::NotYet
        && link.write(b"f") == LinkWrite::Failed
        && link.write(b"fgh") == LinkWrite::Moved(3)
}

/// A link takes as many bytes as its events say, and then all.
pub fn takes_as_the_events_say(alloc: Global) -> bool {
    let events = some_taken(alloc);
    let mut link = MemoryLink::new(alloc, Sequence::new(alloc), events, false, true);
    takes(&mut link) && link.taken() == b"abcdefgh".as_slice()
}

/// A link that can be upgraded is so at once.
pub fn upgrades_at_once(alloc: Global) -> bool {
    let mut link = MemoryLink::new(
        alloc,
        Sequence::new(alloc),
        Sequence::new(alloc),
        true,
        false,
    );
    let wish = TlsWish {
        verify_certificate: true,
        verify_host: true,
    };
    link.can_upgrade() && !link.is_local() && link.upgrade(wish) == LinkUpgrade::Done
}
