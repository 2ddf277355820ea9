ghost use Rattle.std.specs.Prelude.{◌≡◌, ◌++◌, ◌≤◌, length, decimal, IfOk, OnOk};
ghost use Rattle.pg_sample.specs.Sample.{greeting, response, spelled, row_head, wait_before, events_of};

use itoa::Buffer;
use pg_stream::ReadEvent;
use pg_wire::Blob;
use std::alloc::{AllocError, Global};

/// AuthenticationOk and ReadyForQuery.
const GREETING: [u8; 15] = *b"R\x00\x00\x00\x08\x00\x00\x00\x00Z\x00\x00\x00\x05I";

/// RowDescription of one column `?column?` of the type `int4`.
const COLUMN: [u8; 34] =
    *b"T\x00\x00\x00!\x00\x01?column?\x00\x00\x00\x00\x00\x00\x00\x00\x00\x00\x17\x00\x04\xff\xff\xff\xff\x00\x00";

/// CommandComplete of one row, and ReadyForQuery.
const DONE: [u8; 20] = *b"C\x00\x00\x00\x0dSELECT 1\x00Z\x00\x00\x00\x05I";

/// What the server says at start-up.
pub(crate) fn greeting(alloc: Global) -> Result<Blob, AllocError>
    ensures { IfOk result (λ b. b ≡ spelled greeting) }
{
    Blob::from_slice(alloc, &GREETING)
}

// The head of DataRow of one value of so many bytes.
fn row_head(length: usize) -> [u8; 11]
    requires { length ≤ 40 }
    ensures { result ≡ row_head length }
{
    let size = (length as u32 + 10).to_be_bytes();
    let length = (length as u32).to_be_bytes();
    [
        b'D', size[0], size[1], size[2], size[3], 0, 1, length[0], length[1], length[2], length[3],
    ]
}

// Four parts, one behind the other, in memory for so many bytes.
fn joined(
    alloc: Global,
    room: usize,
    first: &[u8],
    second: &[u8],
    third: &[u8],
    last: &[u8],
) -> Result<Blob, AllocError>
    ensures { IfOk result (λ b. b ≡ first.now ++ second.now ++ third.now ++ last.now) }
{
    let mut bytes = Vec::with_capacity(alloc, room)?;
    bytes.extend_from_slice(first)?;
    bytes.extend_from_slice(second)?;
    bytes.extend_from_slice(third)?;
    bytes.extend_from_slice(last)?;
    Ok(Blob::from_vec(bytes))
}

// The bytes of an answer whose row has this value, in memory that they fill.
fn answer(alloc: Global, value: &[u8]) -> Result<Blob, AllocError>
    requires { length value.now ≤ 40 }
    ensures { IfOk result (λ b. b ≡ spelled (response value.now)) }
{
    let head = row_head(value.len());
    let room = COLUMN.len() + head.len() + value.len() + DONE.len();
    joined(alloc, room, &COLUMN, &head, value, &DONE)
}

// The answer to a step.
fn answer_to(alloc: Global, number: u32) -> Result<Blob, AllocError>
    ensures { IfOk result (λ b. b ≡ spelled (response (decimal number))) }
{
    let mut buffer = Buffer::new();
    answer(alloc, buffer.format(number).as_bytes())
}

// Nothing comes once before each third answer.
fn add_wait(events: &mut Vec<ReadEvent>, number: u32) -> Result<(), AllocError>
    ensures { OnOk result (events.new.items ≡ events.old.items ++ wait_before number) }
{
    if number % 3 != 0 {
        return Ok(());
    }
    events.push(ReadEvent::Wait)?;
    Ok(())
}

/// Adds what the link's reads give in a step.
pub(crate) fn add_events(
    events: &mut Vec<ReadEvent>,
    alloc: Global,
    number: u32,
) -> Result<(), AllocError>
    ensures { OnOk result (events.new.items ≡ events.old.items ++ events_of number) }
{
    add_wait(events, number)?;
    events.push(ReadEvent::Piece(answer_to(alloc, number)?))?;
    Ok(())
}
