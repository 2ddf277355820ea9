ghost use Rattle.std.specs.Prelude.{◌≡◌, ◌≤◌, ◌++◌, None, length, codes};
ghost use Rattle.pg_wire.specs.Bytes.{HasNoNul};
ghost use Rattle.pg_request.specs.Texts.{savepoint, begin_text, commit_text, rollback_text};

use arrayvec::ArrayString;
use itoa::Buffer;

// What is to be done with the savepoint of this number.
fn savepoint(command: &str, number: u64) -> ArrayString<58>
    requires short { length command.now ≤ 22 }
    requires text { HasNoNul command.now }
    ensures text { result.bytes ≡ command.now ++ savepoint number }
    ensures said { HasNoNul result.bytes }
    ensures short { length result.bytes ≤ 58 }
{
    let mut text = ArrayString::new();
    let mut buffer = Buffer::new();
    text.push_str(command);
    text.push_str("_sqlx_savepoint_");
    text.push_str(buffer.format(number));
    text
}

// A text of its own.
fn command(words: &str) -> ArrayString<58>
    requires short { length words.now ≤ 58 }
    ensures text { result.bytes ≡ words.now }
{
    let mut text = ArrayString::new();
    text.push_str(words);
    text
}

/// The text that opens a transaction where none is open, and else the savepoint of this number in it.
pub fn begin_text(depth: u64) -> ArrayString<58>
    ensures text { result.bytes ≡ begin_text None depth }
    ensures said { HasNoNul result.bytes }
{
    if depth == 0 {
        command("BEGIN")
    } else {
        savepoint("SAVEPOINT ", depth)
    }
}

/// The text that commits the transaction, or releases the last savepoint, behind which so many of both stay open.
pub fn commit_text(left: u64) -> ArrayString<58>
    ensures text { result.bytes ≡ commit_text left }
    ensures said { HasNoNul result.bytes }
{
    if left == 0 {
        command("COMMIT")
    } else {
        savepoint("RELEASE SAVEPOINT ", left)
    }
}

/// The text that rolls back the transaction, or to the last savepoint. With its frame it takes 64 bytes at most.
pub fn rollback_text(left: u64) -> ArrayString<58>
    ensures text { result.bytes ≡ rollback_text left }
    ensures said { HasNoNul result.bytes }
    ensures short { length result.bytes ≤ 58 }
{
    if left == 0 {
        command("ROLLBACK")
    } else {
        savepoint("ROLLBACK TO SAVEPOINT ", left)
    }
}
