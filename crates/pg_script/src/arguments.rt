ghost use Rattle.std.specs.Prelude.{◌≡◌, option_map};
ghost use Rattle.std.specs.Str.{is_utf8};
ghost use Rattle.pg_script.specs.Reading.{Gives};
ghost use Rattle.pg_script.specs.Arguments.{text_in, alone, bytes_arg, text_arg, nonce_arg, mode_arg, pair_arg, number_arg, last_number, key_arg, digit_in, digits_arg};

use crate::error::LineError;
use crate::nonce::Nonce;
use crate::token::{Keyword, Token};
use pg_locks::PgAdvisoryLockKey;
use pg_options::PgSslMode;
use pg_wire::Text;
use std::alloc::Global;

pub(crate) fn is_utf8(bytes: &[u8]) -> bool
    ensures { result ≡ is_utf8 bytes.now }
{
    match str::from_utf8(bytes) {
        Ok(_) => true,
        Err(_) => false,
    }
}

/// The text that some bytes are.
pub(crate) fn text_in(bytes: &[u8]) -> Option<&str>
    ensures { option_map (λ t. t.now) result ≡ text_in bytes.now }
{
    match str::from_utf8(bytes) {
        Ok(text) => Some(text),
        Err(_) => None,
    }
}

/// An owned text of bytes that are one.
pub(crate) fn text_of(alloc: Global, bytes: &[u8]) -> Result<Text, LineError>
    ensures { Gives (λ t. t) result (text_in bytes.now) }
{
    match text_in(bytes) {
        Some(text) => Ok(Text::from_str(alloc, text)?),
        None => Err(LineError::Bad),
    }
}

/// A value where nothing is left.
pub(crate) fn alone<T: Drop>(value: T, tokens: &[Token]) -> Result<T, LineError>
    ensures { Gives (λ x. x) result (alone value tokens.now) }
{
    match tokens {
        [] => Ok(value),
        _ => Err(LineError::Bad),
    }
}

/// One text, and nothing more.
pub(crate) fn bytes_arg(tokens: &[Token]) -> Result<&[u8], LineError>
    ensures { Gives (λ b. b.now) result (bytes_arg tokens.now) }
{
    match tokens {
        [Token::Space, Token::Text(bytes)] => Ok(bytes.as_bytes()),
        _ => Err(LineError::Bad),
    }
}

/// The same, where a text is meant.
pub(crate) fn text_arg(alloc: Global, tokens: &[Token]) -> Result<Text, LineError>
    ensures { Gives (λ t. t) result (text_arg tokens.now) }
{
    let bytes = bytes_arg(tokens)?;
    text_of(alloc, bytes)
}

/// The same, where a nonce is meant.
pub(crate) fn nonce_arg(alloc: Global, tokens: &[Token]) -> Result<Nonce, LineError>
    ensures { Gives (λ n. n) result (nonce_arg tokens.now) }
{
    let bytes = bytes_arg(tokens)?;
    Nonce::new(alloc, bytes)
}

/// The name of a mode, and nothing more.
pub(crate) fn mode_arg(tokens: &[Token]) -> Result<PgSslMode, LineError>
    ensures { Gives (λ m. m) result (mode_arg tokens.now) }
{
    match tokens {
        [Token::Space, Token::SslMode(mode)] => Ok(*mode),
        _ => Err(LineError::Bad),
    }
}

/// Two texts, and nothing more.
pub(crate) fn pair_arg(alloc: Global, tokens: &[Token]) -> Result<(Text, Text), LineError>
    ensures { Gives (λ p. p) result (pair_arg tokens.now) }
{
    match tokens {
        [
            Token::Space,
            Token::Text(name),
            Token::Space,
            Token::Text(value),
        ] => {
            let name = text_of(alloc, name.as_bytes())?;
            let value = text_of(alloc, value.as_bytes())?;
            Ok((name, value))
        }
        _ => Err(LineError::Bad),
    }
}

/// A number, and the tokens behind it.
pub(crate) fn number_arg(tokens: &[Token]) -> Result<(u32, &[Token]), LineError>
    ensures { Gives (λ x. (x.0, x.1.now)) result (number_arg tokens.now) }
{
    match tokens {
        [Token::Space, Token::Number(number), rest @ ..] => Ok((*number, rest)),
        _ => Err(LineError::Bad),
    }
}

/// A number, and nothing more.
pub(crate) fn last_number(tokens: &[Token]) -> Result<u32, LineError>
    ensures { Gives (λ n. n) result (last_number tokens.now) }
{
    match tokens {
        [Token::Space, Token::Number(number)] => Ok(*number),
        _ => Err(LineError::Bad),
    }
}

/// The key of a lock, and nothing more.
pub(crate) fn key_arg(tokens: &[Token]) -> Result<PgAdvisoryLockKey, LineError>
    ensures { Gives (λ k. k) result (key_arg tokens.now) }
{
    match tokens {
        [Token::Space, Token::Number(number)] => {
            Ok(PgAdvisoryLockKey::BigInt(i64::from(*number)))
        }
        [Token::Space, Token::Key(key)] => Ok(*key),
        _ => Err(LineError::Bad),
    }
}

// A number up to 3.
fn digit_in(number: u32) -> Option<i8>
    ensures { result ≡ digit_in number }
{
    if number <= 3 {
        Some(number as i8)
    } else {
        None
    }
}

/// The word `none`, or a number up to 3.
pub(crate) fn digits_arg(tokens: &[Token]) -> Result<Option<i8>, LineError>
    ensures { Gives (λ d. d) result (digits_arg tokens.now) }
{
    match tokens {
        [Token::Space, Token::Word(Keyword::None)] => Ok(None),
        [Token::Space, Token::Number(number)] => match digit_in(*number) {
            Some(digit) => Ok(Some(digit)),
            None => Err(LineError::Bad),
        },
        _ => Err(LineError::Bad),
    }
}
