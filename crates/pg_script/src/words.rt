ghost use Rattle.std.specs.Prelude.{◌≡◌};
ghost use Rattle.pg_script.specs.Reading.{Gives};
ghost use Rattle.pg_script.specs.Words.{call_spelling, spelling_of, number_of, keyword_among, keyword_of, mode_of, other_of, token_of};

use crate::arguments::text_in;
use crate::bare::bare_of;
use crate::error::LineError;
use crate::keys::{begins_key, key_of};
use crate::token::{CallWord, Keyword, Token};
use pg_options::PgSslMode;
use std::alloc::Global;

/// All words of a script, the most usual first.
const WORDS: [Keyword; 60] = [
    Keyword::Step,
    Keyword::Server,
    Keyword::Raw,
    Keyword::Query,
    Keyword::Once,
    Keyword::Finish,
    Keyword::Abort,
    Keyword::Leave,
    Keyword::Text,
    Keyword::Bytea,
    Keyword::Texts,
    Keyword::Comma,
    Keyword::Named,
    Keyword::Colon,
    Keyword::Name,
    Keyword::Array,
    Keyword::Wait,
    Keyword::Call(CallWord::Execute),
    Keyword::Call(CallWord::Fetch),
    Keyword::Call(CallWord::FetchAll),
    Keyword::Call(CallWord::FetchOne),
    Keyword::Call(CallWord::FetchOptional),
    Keyword::Call(CallWord::FetchMany),
    Keyword::Call(CallWord::ExecuteMany),
    Keyword::Call(CallWord::Ping),
    Keyword::Call(CallWord::Flush),
    Keyword::Call(CallWord::Begin),
    Keyword::Call(CallWord::BeginWith),
    Keyword::Call(CallWord::Commit),
    Keyword::Call(CallWord::Rollback),
    Keyword::Call(CallWord::StartRollback),
    Keyword::Call(CallWord::Prepare),
    Keyword::Call(CallWord::Clear),
    Keyword::Call(CallWord::CopyIn),
    Keyword::Call(CallWord::CopyOut),
    Keyword::Call(CallWord::Describe),
    Keyword::Call(CallWord::Lock),
    Keyword::Call(CallWord::TryLock),
    Keyword::Call(CallWord::Unlock),
    Keyword::Call(CallWord::DropLock),
    Keyword::Most,
    Keyword::Take,
    Keyword::Hold,
    Keyword::End,
    Keyword::Fail,
    Keyword::Break,
    Keyword::Start,
    Keyword::User,
    Keyword::Password,
    Keyword::Database,
    Keyword::Application,
    Keyword::Option,
    Keyword::SslMode,
    Keyword::Cache,
    Keyword::Digits,
    Keyword::None,
    Keyword::Link,
    Keyword::Upgrade,
    Keyword::Local,
    Keyword::Nonce,
];

// How a word that names a call is spelled.
fn call_spelling(word: CallWord) -> &'static [u8]
    ensures { result.now ≡ call_spelling word }
{
    match word {
        CallWord::Execute => b"execute",
        CallWord::ExecuteMany => b"execute_many",
        CallWord::Fetch => b"fetch",
        CallWord::FetchMany => b"fetch_many",
        CallWord::FetchAll => b"fetch_all",
        CallWord::FetchOptional => b"fetch_optional",
        CallWord::FetchOne => b"fetch_one",
        CallWord::Ping => b"ping",
        CallWord::Flush => b"flush",
        CallWord::Begin => b"begin",
        CallWord::BeginWith => b"begin_with",
        CallWord::Commit => b"commit",
        CallWord::Rollback => b"rollback",
        CallWord::StartRollback => b"start_rollback",
        CallWord::Prepare => b"prepare",
        CallWord::Clear => b"clear",
        CallWord::CopyIn => b"copyin",
        CallWord::CopyOut => b"copyout",
        CallWord::Describe => b"describe",
        CallWord::Lock => b"lock",
        CallWord::TryLock => b"trylock",
        CallWord::Unlock => b"unlock",
        CallWord::DropLock => b"droplock",
    }
}

// How a word is spelled.
fn spelling_of(word: Keyword) -> &'static [u8]
    ensures { result.now ≡ spelling_of word }
{
    match word {
        Keyword::User => b"user",
        Keyword::Password => b"password",
        Keyword::Database => b"database",
        Keyword::Application => b"application",
        Keyword::Option => b"option",
        Keyword::SslMode => b"sslmode",
        Keyword::Cache => b"cache",
        Keyword::Digits => b"digits",
        Keyword::None => b"none",
        Keyword::Link => b"link",
        Keyword::Upgrade => b"upgrade",
        Keyword::Local => b"local",
        Keyword::Nonce => b"nonce",
        Keyword::Server => b"server",
        Keyword::Wait => b"wait",
        Keyword::End => b"end",
        Keyword::Fail => b"fail",
        Keyword::Take => b"take",
        Keyword::Hold => b"hold",
        Keyword::Break => b"break",
        Keyword::Start => b"start",
        Keyword::Step => b"step",
        Keyword::Most => b"most",
        Keyword::Raw => b"raw",
        Keyword::Query => b"query",
        Keyword::Once => b"once",
        Keyword::Finish => b"finish",
        Keyword::Abort => b"abort",
        Keyword::Leave => b"leave",
        Keyword::Text => b"text:",
        Keyword::Bytea => b"bytea:",
        Keyword::Texts => b"texts:",
        Keyword::Comma => b",",
        Keyword::Named => b"named:",
        Keyword::Colon => b":",
        Keyword::Name => b"name:",
        Keyword::Array => b"array:",
        Keyword::Call(word) => call_spelling(word),
    }
}

/// One to ten digits, at most 4294967295.
pub(crate) fn number_of(word: &[u8]) -> Option<u32>
    ensures { result ≡ number_of word.now }
{
    if word.is_empty() || 10 < word.len() {
        return None;
    }
    let mut number = 0u64;
    for digit in word {
        if !digit.is_ascii_digit() {
            return None;
        }
        number = number * 10 + u64::from(*digit - b'0');
    }
    u32::try_from(number).ok()
}

// The first of some words that is spelled so.
fn keyword_among(keywords: &[Keyword], word: &[u8]) -> Option<Keyword>
    ensures { result ≡ keyword_among keywords.now word.now }
{
    for keyword in keywords {
        if word == spelling_of(*keyword) {
            return Some(*keyword);
        }
    }
    None
}

#[tactic(auto, unfolding(crate::specs::Words::keyword_of))]
fn keyword_of(word: &[u8]) -> Option<Keyword>
    ensures { result ≡ keyword_of word.now }
{
    keyword_among(&WORDS, word)
}

// The mode whose name these bytes are.
fn mode_of(word: &[u8]) -> Option<PgSslMode>
    ensures { result ≡ mode_of word.now }
{
    let name = text_in(word)?;
    PgSslMode::from_name(name)
}

// A word of another kind: the key of a lock, or an argument.
fn other_of(alloc: Global, word: &[u8]) -> Result<Token, LineError>
    ensures { Gives (λ t. t) result (other_of word.now) }
{
    if begins_key(word) {
        Ok(Token::Key(key_of(alloc, word)?))
    } else {
        Ok(Token::Bare(bare_of(alloc, word)?))
    }
}

/// A number, a word, the name of a mode, the key of a lock or an argument.
#[tactic(auto, unfolding(crate::specs::Words::token_of))]
pub(crate) fn token_of(alloc: Global, word: &[u8]) -> Result<Token, LineError>
    ensures { Gives (λ t. t) result (token_of word.now) }
{
    match number_of(word) {
        Some(number) => Ok(Token::Number(number)),
        None => match keyword_of(word) {
            Some(keyword) => Ok(Token::Word(keyword)),
            None => match mode_of(word) {
                Some(mode) => Ok(Token::SslMode(mode)),
                None => other_of(alloc, word),
            },
        },
    }
}
