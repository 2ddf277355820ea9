//! Cases of connect options, of what a client answers to prove a password, of advisory locks, of scripts, of
//! reports and of migrations.
//!
//! A row is a word that says what is tried, and what it is tried on. Within it, the picture of a line feed, tab, unit separator or delete
//! stands for that character.

mod calls;
mod drawing;
mod failures;
mod locks;
mod migrations;
mod proving;
mod reports;
mod rows;
mod scripts;
mod settings;
mod told;
mod urls;
mod words;

use crate::row::{meant, two};
use crate::telling::push;
use crate::texts::rows::plain;
use std::alloc::Global;

#[derive(Clone, Copy)]
enum Tried {
    Url,
    Built,
    Settings,
    Calls,
    Socket,
    Tls,
    Mode,
    Escaped,
    Hmac,
    Hkdf8,
    Hi,
    ClientFirst,
    Proof,
    ServerFinal,
    NonceOf,
    DrawnNonce,
    Md5,
    Key,
    Lock,
    Script,
    ScriptBytes,
    Live,
    Report,
    RefusedStart,
    Error,
    LockId,
    Migration,
    Timed,
}

static TRIED: [(&str, Tried); 28] = [
    ("url", Tried::Url),
    ("built", Tried::Built),
    ("settings", Tried::Settings),
    ("calls", Tried::Calls),
    ("socket", Tried::Socket),
    ("tls", Tried::Tls),
    ("mode", Tried::Mode),
    ("escaped", Tried::Escaped),
    ("hmac", Tried::Hmac),
    ("hkdf8", Tried::Hkdf8),
    ("hi", Tried::Hi),
    ("client-first", Tried::ClientFirst),
    ("proof", Tried::Proof),
    ("server-final", Tried::ServerFinal),
    ("nonce-of", Tried::NonceOf),
    ("drawn-nonce", Tried::DrawnNonce),
    ("md5", Tried::Md5),
    ("key", Tried::Key),
    ("lock", Tried::Lock),
    ("script", Tried::Script),
    ("script-bytes", Tried::ScriptBytes),
    ("live", Tried::Live),
    ("report", Tried::Report),
    ("refused-start", Tried::RefusedStart),
    ("error", Tried::Error),
    ("lock-id", Tried::LockId),
    ("migration", Tried::Migration),
    ("timed", Tried::Timed),
];

fn tell(told: &mut String, alloc: Global, tried: Tried, rest: &str) {
    match tried {
        Tried::Url => urls::set_by_url(told, alloc, rest),
        Tried::Built => urls::built(told, alloc, rest),
        Tried::Settings => settings::settled(told, alloc, rest),
        Tried::Calls => calls::called(told, alloc, rest),
        Tried::Socket => calls::socket_file(told, alloc, rest),
        Tried::Tls => calls::tls_plan(told, alloc, rest),
        Tried::Mode => words::mode(told, rest),
        Tried::Escaped => words::escaped(told, alloc, rest),
        Tried::Hmac => proving::keyed_hash(told, alloc, rest),
        Tried::Hkdf8 => proving::derived_key(told, alloc, rest),
        Tried::Hi => proving::salted(told, alloc, rest),
        Tried::ClientFirst => proving::client_first(told, alloc, rest),
        Tried::Proof => proving::proof(told, alloc, rest),
        Tried::ServerFinal => proving::server_final(told, alloc, rest),
        Tried::NonceOf => proving::nonce(told, rest),
        Tried::DrawnNonce => drawing::drawn_nonce(told),
        Tried::Md5 => proving::md5_text(told, alloc, rest),
        Tried::Key => locks::key_of_text(told, alloc, rest),
        Tried::Lock => locks::lock_texts(told, rest),
        Tried::Script => scripts::script(told, alloc, rest.as_bytes()),
        Tried::ScriptBytes => scripts::script_of_bytes(told, alloc, rest),
        Tried::Live => scripts::live(told, alloc, rest),
        Tried::Report => reports::reported(told, alloc),
        Tried::RefusedStart => reports::refused_start(told, alloc),
        Tried::Error => failures::failed(told, alloc, rest),
        Tried::LockId => migrations::lock_id(told, rest),
        Tried::Migration => migrations::migration_text(told, rest),
        Tried::Timed => migrations::timed(told, alloc, rest),
    }
}

/// What came of a row.
pub fn answer(told: &mut String, alloc: Global, row: &str) {
    let text = plain(alloc, row);
    let (word, rest) = two(text.as_str(), ' ');
    match meant(&TRIED, word) {
        Some(tried) => tell(told, alloc, tried, rest),
        None => push(told, "no such row"),
    }
}
