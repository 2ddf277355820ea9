//! What is written of answers and of bytes.

use pg_conn::PgConnection;
use pg_stream::MemoryLink;
use pg_wire::Error;
use std::fmt::Write;

/// A byte of text as it is, and any other by its hexadecimal digits.
pub fn push_byte(out: &mut String, byte: u8) -> Result<(), Error> {
    if (b' '..b'\x7f').contains(&byte) {
        out.push(byte as char)?;
    } else {
        write!(out, "\\{byte:02x}")?;
    }
    Ok(())
}

/// A line of bytes that were sent.
pub fn push_bytes(out: &mut String, bytes: &[u8]) -> Result<(), Error> {
    out.push_str("  sent ")?;
    for byte in bytes {
        push_byte(out, *byte)?;
    }
    out.push_str("\n")?;
    Ok(())
}

/// The bytes that were sent behind the start-up.
pub fn sent(conn: &PgConnection<MemoryLink>) -> &[u8] {
    let (started, _) = conn.started();
    conn.link().taken().get(started as usize..).unwrap_or(&[])
}

/// A line of them.
pub fn push_sent(out: &mut String, conn: &PgConnection<MemoryLink>) -> Result<(), Error> {
    push_bytes(out, sent(conn))
}

/// What an error says, behind a space.
pub fn push_error(out: &mut String, error: &Error) -> Result<(), Error> {
    match error {
        Error::Database(error) => write!(out, " Database({})", error.code())?,
        error => write!(out, " {error:?}")?,
    }
    Ok(())
}

/// Why a call failed, in a word.
pub fn word(error: &Error) -> &'static str {
    match error {
        Error::Database(_) => "Database",
        Error::Decode => "Decode",
        Error::ColumnDecode { .. } => "ColumnDecode",
        Error::RowNotFound => "RowNotFound",
        Error::BeginFailed(_) => "BeginFailed",
        Error::Io(_) => "Io",
        Error::Protocol(_) => "Protocol",
        Error::OutOfMemory => "OutOfMemory",
        _ => "another",
    }
}
