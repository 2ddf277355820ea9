ghost use Rattle.std.specs.Prelude.{◌≡◌};
ghost use Rattle.pg_script.specs.Reading.{Gives};
ghost use Rattle.pg_script.specs.Lines.{call_with, call_arg, take_line, most_arg, step_line, link_line, line_with, line_from, line_in};

use crate::arguments::{
    alone, bytes_arg, digits_arg, is_utf8, key_arg, last_number, mode_arg, nonce_arg, number_arg,
    pair_arg, text_arg,
};
use crate::asking::{asked_arg, copying_arg, prepare_arg, query_arg};
use crate::error::LineError;
use crate::lexer::Lexer;
use crate::nonce::Nonce;
use crate::step::{Call, Chain};
use crate::token::{CallWord, Keyword, Token};
use pg_options::PgSslMode;
use pg_wire::{Blob, Text};
use std::alloc::Global;

/// The most times that one line says what a write takes.
const TIMES_MAX: u32 = 1_000_000;

/// What a line says.
#[derive(Drop)]
pub(crate) enum Line {
    /// An empty line, or a comment.
    Blank,
    User(Text),
    Password(Text),
    Database(Text),
    Application(Text),
    Option(Text, Text),
    SslMode(PgSslMode),
    Cache(u32),
    Digits(Option<i8>),
    LinkUpgrade,
    LinkLocal,
    Nonce(Nonce),
    Server(Blob),
    Wait,
    End,
    Fail,
    /// So many writes take so many bytes each.
    Take {
        bytes: u32,
        times: u32,
    },
    Hold,
    Break,
    Start(u32),
    Step {
        polls: u32,
        most: Option<u32>,
        call: Call,
    },
}

fn call_with(alloc: Global, word: CallWord, rest: &[Token]) -> Result<Call, LineError>
    ensures { Gives (λ c. c) result (call_with word rest.now) }
{
    match word {
        CallWord::Execute => Ok(Call::Execute(asked_arg(alloc, rest)?)),
        CallWord::ExecuteMany => Ok(Call::ExecuteMany(asked_arg(alloc, rest)?)),
        CallWord::Fetch => Ok(Call::Fetch(asked_arg(alloc, rest)?)),
        CallWord::FetchMany => Ok(Call::FetchMany(asked_arg(alloc, rest)?)),
        CallWord::FetchAll => Ok(Call::FetchAll(asked_arg(alloc, rest)?)),
        CallWord::FetchOptional => Ok(Call::FetchOptional(asked_arg(alloc, rest)?)),
        CallWord::FetchOne => Ok(Call::FetchOne(asked_arg(alloc, rest)?)),
        CallWord::Ping => alone(Call::Ping, rest),
        CallWord::Flush => alone(Call::Flush, rest),
        CallWord::Begin => alone(Call::Begin, rest),
        CallWord::BeginWith => Ok(Call::BeginWith(query_arg(alloc, rest)?)),
        CallWord::Commit => alone(Call::Commit, rest),
        CallWord::Rollback => alone(Call::Rollback, rest),
        CallWord::StartRollback => alone(Call::StartRollback, rest),
        CallWord::Prepare => Ok(Call::Prepare(prepare_arg(alloc, rest)?)),
        CallWord::Clear => alone(Call::Clear, rest),
        CallWord::CopyIn => Ok(Call::Chain(Chain::CopyIn(copying_arg(alloc, rest)?))),
        CallWord::CopyOut => Ok(Call::CopyOut(query_arg(alloc, rest)?)),
        CallWord::Describe => Ok(Call::Chain(Chain::Describe(text_arg(alloc, rest)?))),
        CallWord::Lock => Ok(Call::Chain(Chain::Lock(key_arg(rest)?))),
        CallWord::TryLock => Ok(Call::Chain(Chain::TryLock(key_arg(rest)?))),
        CallWord::Unlock => Ok(Call::Chain(Chain::Unlock(key_arg(rest)?))),
        CallWord::DropLock => Ok(Call::Chain(Chain::DropLock(key_arg(rest)?))),
    }
}

fn call_arg(alloc: Global, tokens: &[Token]) -> Result<Call, LineError>
    ensures { Gives (λ c. c) result (call_arg tokens.now) }
{
    match tokens {
        [Token::Space, Token::Word(Keyword::Call(word)), rest @ ..] => {
            call_with(alloc, *word, rest)
        }
        _ => Err(LineError::Bad),
    }
}

fn take_line(tokens: &[Token]) -> Result<Line, LineError>
    ensures { Gives (λ l. l) result (take_line tokens.now) }
{
    let (bytes, rest) = number_arg(tokens)?;
    let times = last_number(rest)?;
    if bytes == 0 || times == 0 || TIMES_MAX < times {
        return Err(LineError::Bad);
    }
    Ok(Line::Take { bytes, times })
}

// The most items of a step where the word `most` says them, and the tokens behind.
fn most_arg(tokens: &[Token]) -> Result<(Option<u32>, &[Token]), LineError>
    ensures { Gives (λ x. (x.0, x.1.now)) result (most_arg tokens.now) }
{
    match tokens {
        [Token::Space, Token::Word(Keyword::Most), rest @ ..] => {
            let (most, rest) = number_arg(rest)?;
            Ok((Some(most), rest))
        }
        _ => Ok((None, tokens)),
    }
}

fn step_line(alloc: Global, tokens: &[Token]) -> Result<Line, LineError>
    ensures { Gives (λ l. l) result (step_line tokens.now) }
{
    let (polls, rest) = number_arg(tokens)?;
    let (most, rest) = most_arg(rest)?;
    let call = call_arg(alloc, rest)?;
    Ok(Line::Step { polls, most, call })
}

fn link_line(tokens: &[Token]) -> Result<Line, LineError>
    ensures { Gives (λ l. l) result (link_line tokens.now) }
{
    match tokens {
        [Token::Space, Token::Word(Keyword::Upgrade)] => Ok(Line::LinkUpgrade),
        [Token::Space, Token::Word(Keyword::Local)] => Ok(Line::LinkLocal),
        _ => Err(LineError::Bad),
    }
}

fn line_with(alloc: Global, word: Keyword, rest: &[Token]) -> Result<Line, LineError>
    ensures { Gives (λ l. l) result (line_with word rest.now) }
{
    match word {
        Keyword::User => Ok(Line::User(text_arg(alloc, rest)?)),
        Keyword::Password => Ok(Line::Password(text_arg(alloc, rest)?)),
        Keyword::Database => Ok(Line::Database(text_arg(alloc, rest)?)),
        Keyword::Application => Ok(Line::Application(text_arg(alloc, rest)?)),
        Keyword::Option => {
            let (name, value) = pair_arg(alloc, rest)?;
            Ok(Line::Option(name, value))
        }
        Keyword::SslMode => Ok(Line::SslMode(mode_arg(rest)?)),
        Keyword::Cache => Ok(Line::Cache(last_number(rest)?)),
        Keyword::Digits => Ok(Line::Digits(digits_arg(rest)?)),
        Keyword::Link => link_line(rest),
        Keyword::Nonce => Ok(Line::Nonce(nonce_arg(alloc, rest)?)),
        Keyword::Server => {
            let bytes = bytes_arg(rest)?;
            Ok(Line::Server(Blob::from_slice(alloc, bytes)?))
        }
        Keyword::Wait => alone(Line::Wait, rest),
        Keyword::End => alone(Line::End, rest),
        Keyword::Fail => alone(Line::Fail, rest),
        Keyword::Take => take_line(rest),
        Keyword::Hold => alone(Line::Hold, rest),
        Keyword::Break => alone(Line::Break, rest),
        Keyword::Start => Ok(Line::Start(last_number(rest)?)),
        Keyword::Step => step_line(alloc, rest),
        _ => Err(LineError::Bad),
    }
}

fn line_from(alloc: Global, tokens: &[Token]) -> Result<Line, LineError>
    ensures { Gives (λ l. l) result (line_from tokens.now) }
{
    match tokens {
        [Token::Word(word), rest @ ..] => line_with(alloc, *word, rest),
        _ => Err(LineError::Bad),
    }
}

/// What a line says, which is given without its line feed.
pub(crate) fn line_in(alloc: Global, lexer: &mut Lexer, line: &[u8]) -> Result<Line, LineError>
    ensures { Gives (λ l. l) result (line_in line.now) }
{
    match line {
        [] => Ok(Line::Blank),
        [b'#', ..] => {
            if is_utf8(line) {
                Ok(Line::Blank)
            } else {
                Err(LineError::Bad)
            }
        }
        _ => {
            let tokens = lexer.tokens_in(line)?;
            line_from(alloc, tokens)
        }
    }
}
