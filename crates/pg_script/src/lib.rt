//! Scripts: what is to be played, read from text.
//!
//! A script is lines ended by a line feed, the last one perhaps without. Empty lines and lines of UTF-8 that begin with `#`
//! are passed over. The words of any other line are separated by one space:
//!
//! | Line | Means |
//! |---|---|
//! | `user TEXT`, `password TEXT`, `database TEXT`, `application TEXT` | the texts of start-up; each at most once |
//! | `option TEXT TEXT` | an option of the server and its value |
//! | `sslmode MODE` | `disable`, `allow`, `prefer`, `require`, `verify-ca` or `verify-full`, in any ASCII case; at most once |
//! | `cache N` | how many statements a connection keeps; at most once |
//! | `digits none`, `digits N` | `extra_float_digits`, left out or from 0 to 3; at most once |
//! | `start N` | the polls that start-up has at most; at most once |
//! | `nonce TEXT` | the client's nonce of SCRAM: 64 to 127 printable ASCII characters without a space and a comma; at most once |
//! | `link upgrade`, `link local` | the link can be made a TLS one; it stays within the machine; each may be repeated |
//! | `server TEXT`, `wait`, `end`, `fail` | what the link's next read does: it gives these bytes, gives nothing yet, ends, or fails |
//! | `take N K`, `hold`, `break` | what its next writes do: K of them take at most N bytes each; one takes nothing yet; one fails |
//! | `step N CALL`, `step N most M CALL` | a call, dropped after N polls that answered `Pending` or after M items |
//!
//! The options, the events of reads, those of writes and the steps each keep their order, and else the lines may stand in any.
//! A CALL is `execute`, `execute_many`, `fetch`, `fetch_many`, `fetch_all`, `fetch_optional` or `fetch_one`, each with `raw TEXT`
//! behind it, a text of SQL, or with `query TEXT` and any number of ARG, each behind a space: one statement with arguments, which is kept,
//! or with `once` in place of `query`, whose statement isn't kept; `begin_with TEXT` and `copyout TEXT`, where the text is one of SQL as well;
//! `prepare TEXT` and any number of types of its first parameters, each behind a space: an N, the OID of the type, `name:TEXT`, the type of this name,
//! or `array:TEXT`, the arrays over it; `describe TEXT`, which prepares a text of SQL and asks of its columns whether they may be null; `lock KEY`, `trylock KEY`, `unlock KEY` and `droplock KEY`, where a KEY is a Z of eight
//! bytes, or two Z of four bytes with a comma between; or `ping`, `flush`, `begin`, `commit`, `rollback`, `start_rollback` or `clear`, which
//! closes all statements that are kept.
//!
//! | ARG | Its type and value |
//! |---|---|
//! | `null:N` | a null of the type with this OID |
//! | `bool:t`, `bool:f` | bool |
//! | `int2:Z`, `int4:Z`, `int8:Z` | a signed number of two, four or eight bytes |
//! | `oid:N` | oid |
//! | `text:TEXT`, `bytea:TEXT` | text; bytea, of any bytes |
//! | `named:TEXT:TEXT` | the type of this name, which is looked up; any bytes |
//! | `int4s:Z,Z`, `texts:TEXT,TEXT` | an array of int4 or of text, with any number of elements, perhaps none |
//!
//! A TEXT stands between quotes, and is printable ASCII other than a quote and a backslash, or `\"`, `\\`, or `\xHH` for any
//! byte, with two lower-case hexadecimal digits. But for `server`, `bytea:` and the second of `named:` its bytes are UTF-8; a zero byte among them is no fault
//! of the script. A number is one to ten digits, at most 4294967295; of `take` both are at least 1, and K is at most 1000000. A Z is
//! one or more digits, perhaps behind a `-`, of a number that its type has. Without `most` a step has 4294967295 of it. Any other
//! line is bad, and nothing is required.
//!
//! The script of a live run, which has a real link, may have the lines `start` and `step` alone, and those that are passed over.
//!
//! Begin with `Script`, and with `read_script`, whose contract is this grammar; `read_live` reads the script of a live run. A line
//! is read in two steps: the lexer cuts it into tokens, and `line_in` finds what they say.
#![tactic(auto)]

mod argument;
mod arguments;
mod asking;
mod bare;
mod block;
mod encoding;
mod error;
mod keys;
mod kind;
mod lexer;
mod line;
mod live;
mod nonce;
mod reader;
mod script;
mod step;
mod token;
mod words;

pub use block::InBlock;
pub use error::ReadError;
pub use live::LiveScript;
pub use nonce::Nonce;
pub use reader::{read_live, read_script};
pub use script::Script;
pub use step::{Call, Chain, CopyEnd, Copying, Fed, Parting, Step};
