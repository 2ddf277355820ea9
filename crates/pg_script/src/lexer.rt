ghost use Rattle.std.specs.Prelude.{◌≡◌, ◌<◌, ◌≤◌, [], ◌∷◌, ◌++◌, List, Some, IfSome, length, take, drop, option_map};
ghost use Rattle.pg_script.specs.Reading.{Gives};
ghost use Rattle.pg_script.specs.Lexing.{hex_value, coded, escaped, character, after, ends_word, tokens_in, at, after_word, EndsWord, Quotes, GoesOn};
ghost use Rattle.pg_script.specs.Lexing.{Mode as modes};
ghost use Rattle.pg_script.specs.declared.token.Token.{Token};

use crate::error::LineError;
use crate::token::Token;
use crate::words::token_of;
use pg_wire::Blob;
use std::alloc::Global;

/// Cuts lines into tokens, one line after the other in the same memory.
#[derive(Drop)]
pub(crate) struct Lexer {
    alloc: Global,
    tokens: Vec<Token>,
    // The bytes that a quoted text means.
    text: Vec<u8>,
}

// The value of a lower-case hexadecimal digit.
fn hex_value(digit: u8) -> Option<u8>
    ensures value { result ≡ hex_value digit }
    ensures small { IfSome result (λ d. d < 16) }
{
    match digit {
        b'0'..=b'9' => Some(digit - b'0'),
        b'a'..=b'f' => Some(digit - b'a' + 10),
        _ => None,
    }
}

// The byte that two digits say, and what stands behind them.
fn coded(bytes: &[u8]) -> Option<(u8, &[u8])>
    ensures { option_map (λ c. (c.0, c.1.now)) result ≡ coded bytes.now }
{
    match bytes {
        [high, low, rest @ ..] => {
            let high = hex_value(*high)?;
            let low = hex_value(*low)?;
            Some((high * 16 + low, rest))
        }
        _ => None,
    }
}

// The byte that is said behind a backslash.
fn escaped(bytes: &[u8]) -> Option<(u8, &[u8])>
    ensures { option_map (λ c. (c.0, c.1.now)) result ≡ escaped bytes.now }
{
    match bytes {
        [b'x', rest @ ..] => coded(rest),
        [byte @ (b'"' | b'\\'), rest @ ..] => Some((*byte, rest)),
        _ => None,
    }
}

// The first byte that a text means, and what stands behind its spelling.
fn character(bytes: &[u8]) -> Option<(u8, &[u8])>
    ensures { option_map (λ c. (c.0, c.1.now)) result ≡ character bytes.now }
{
    match bytes {
        [b'\\', rest @ ..] => escaped(rest),
        [byte @ b' '..=b'~', rest @ ..] => Some((*byte, rest)),
        _ => None,
    }
}

// What stands behind a byte, where it stands first.
fn after(first: u8, bytes: &[u8]) -> Option<&[u8]>
    ensures { option_map (λ r. r.now) result ≡ after first bytes.now }
{
    match bytes {
        [byte, rest @ ..] if *byte == first => Some(rest),
        _ => None,
    }
}

// Reads a text behind its first quote; answers what stands behind its last one.
fn read_text<'t>(value: &mut Vec<u8>, text: &'t [u8]) -> Result<&'t [u8], LineError>
    ensures { Quotes (λ r. r.now) text.now value.new.items result }
{
    value.clear();
    value.reserve(text.len())?;
    let mut rest = text;
    loop {
        if let Some(behind) = after(b'"', rest) {
            return Ok(behind);
        }
        let Some((byte, behind)) = character(rest) else {
            return Err(LineError::Bad);
        };
        value.push_reserved(byte);
        rest = behind;
    }
}

// A space or a quote.
fn ends_word(byte: u8) -> bool
    ensures { result ≡ ends_word byte }
{
    byte == b' ' || byte == b'"'
}

// Where a word ends, which may have no bytes.
fn word_end(bytes: &[u8]) -> usize
    ensures bound { result ≤ length bytes.now }
    ensures ends { EndsWord bytes.now (take result bytes.now) (drop result bytes.now) }
{
    for (i, byte) in bytes.iter().enumerate() {
        if ends_word(*byte) {
            return i;
        }
    }
    bytes.len()
}

impl Lexer {
    pub(crate) fn new(alloc: Global) -> Self {
        Lexer {
            alloc,
            tokens: Vec::new(alloc),
            text: Vec::new(alloc),
        }
    }

    fn push(&mut self, token: Token) -> Result<(), LineError>
        ensures { Gives (λ _. self.new.tokens.items) result (Some (self.old.tokens.items ++ token ∷ [])) }
    {
        self.tokens.push(token)?;
        Ok(())
    }

    // Adds the token that a word is, if there is a word.
    fn push_word(&mut self, word: &[u8]) -> Result<(), LineError>
        ensures { Gives (λ _. at self.new.tokens.items [] modes.Word) result (after_word (at self.old.tokens.items word.now modes.Word)) }
    {
        if word.is_empty() {
            return Ok(());
        }
        let token = token_of(self.alloc, word)?;
        self.push(token)
    }

    // Adds the token that a text is, behind its first quote; answers what stands behind its last one.
    fn push_text<'t>(&mut self, text: &'t [u8]) -> Result<&'t [u8], LineError>
        ensures { GoesOn (λ r. r.now) (at self.old.tokens.items [] modes.Text) text.now self.new.tokens.items result }
    {
        let rest = read_text(&mut self.text, text)?;
        let value = Blob::from_slice(self.alloc, &self.text)?;
        self.tokens.push(Token::Text(value))?;
        Ok(rest)
    }

    /// The tokens of a line.
    pub(crate) fn tokens_in(&mut self, line: &[u8]) -> Result<&[Token], LineError>
        ensures { Gives (λ ts. ts.now) result (tokens_in line.now) }
    {
        self.read(line)?;
        Ok(&self.tokens)
    }

    fn read(&mut self, line: &[u8]) -> Result<(), LineError>
        ensures { Gives (λ _. self.new.tokens.items) result (tokens_in line.now) }
    {
        self.tokens.clear();
        let mut rest = line;
        loop {
            let (word, behind) = rest.split_at(word_end(rest));
            self.push_word(word)?;
            match after(b' ', behind) {
                Some(next) => {
                    self.push(Token::Space)?;
                    rest = next;
                }
                None => match after(b'"', behind) {
                    Some(text) => rest = self.push_text(text)?,
                    None => return Ok(()),
                },
            }
        }
    }
}
