ghost use Rattle.std.specs.Prelude.{◌≡◌, ◌∷◌, [], option_map};
ghost use Rattle.pg_script.specs.Reading.{Gives};
ghost use Rattle.pg_script.specs.Asking.{in_front, comma_text, more_texts, texts_at, argument_at, arguments_in, query_arg, given_arg, asked_arg, prepare_arg, type_at, types_in, piece_arg, pieces_in, copy_end_at, copying_arg};

use crate::argument::Argument;
use crate::arguments::{text_arg, text_of};
use crate::block::InBlock;
use crate::encoding::given_query;
use crate::error::LineError;
use crate::step::{CopyEnd, Copying};
use crate::token::{Keyword, Token};
use pg_request::{Declared, Preparation, Query};
use pg_wire::{Blob, Oid, Sequence, Text};
use std::alloc::Global;

// A text behind a comma, and the tokens behind it.
fn comma_text(tokens: &[Token]) -> Option<(&[u8], &[Token])>
    ensures { option_map (λ x. (x.0.now, x.1.now)) result ≡ comma_text tokens.now }
{
    match tokens {
        [Token::Word(Keyword::Comma), Token::Text(bytes), rest @ ..] => {
            Some((bytes.as_bytes(), rest))
        }
        _ => None,
    }
}

// Adds the texts that stand behind commas; answers the tokens behind them.
fn more_texts<'t>(
    alloc: Global,
    texts: &mut Vec<Text>,
    tokens: &'t [Token],
) -> Result<&'t [Token], LineError>
    ensures { Gives (λ r. (texts.new.items, r.now)) result (in_front texts.old.items (more_texts tokens.now)) }
{
    let mut rest = tokens;
    loop {
        let Some((bytes, behind)) = comma_text(rest) else {
            return Ok(rest);
        };
        let text = text_of(alloc, bytes)?;
        texts.push(text)?;
        rest = behind;
    }
}

// A text, and those behind commas.
fn texts_from(
    alloc: Global,
    first: Text,
    tokens: &[Token],
) -> Result<(Sequence<Text>, &[Token]), LineError>
    ensures { Gives (λ x. (x.0, x.1.now)) result (in_front (first ∷ []) (more_texts tokens.now)) }
{
    let mut texts = Vec::new(alloc);
    texts.push(first)?;
    let rest = more_texts(alloc, &mut texts, tokens)?;
    Ok((Sequence::from_vec(texts), rest))
}

// Texts between commas, or none, and the tokens behind them.
fn texts_at(alloc: Global, tokens: &[Token]) -> Result<(Sequence<Text>, &[Token]), LineError>
    ensures { Gives (λ x. (x.0, x.1.now)) result (texts_at tokens.now) }
{
    match tokens {
        [Token::Text(bytes), rest @ ..] => {
            let first = text_of(alloc, bytes.as_bytes())?;
            texts_from(alloc, first, rest)
        }
        _ => Ok((Sequence::new(alloc), tokens)),
    }
}

// An argument, and the tokens behind it.
fn argument_at(alloc: Global, tokens: &[Token]) -> Result<(Argument, &[Token]), LineError>
    ensures { Gives (λ x. (x.0, x.1.now)) result (argument_at tokens.now) }
{
    match tokens {
        [Token::Space, Token::Bare(bare), rest @ ..] => {
            Ok((Argument::Bare(bare.to_copy(alloc)?), rest))
        }
        [
            Token::Space,
            Token::Word(Keyword::Text),
            Token::Text(bytes),
            rest @ ..,
        ] => Ok((Argument::Text(text_of(alloc, bytes.as_bytes())?), rest)),
        [
            Token::Space,
            Token::Word(Keyword::Bytea),
            Token::Text(bytes),
            rest @ ..,
        ] => Ok((Argument::Bytea(bytes.to_copy(alloc)?), rest)),
        [
            Token::Space,
            Token::Word(Keyword::Named),
            Token::Text(name),
            Token::Word(Keyword::Colon),
            Token::Text(image),
            rest @ ..,
        ] => {
            let name = text_of(alloc, name.as_bytes())?;
            Ok((Argument::Named(name, image.to_copy(alloc)?), rest))
        }
        [Token::Space, Token::Word(Keyword::Texts), rest @ ..] => {
            let (texts, rest) = texts_at(alloc, rest)?;
            Ok((Argument::Texts(texts), rest))
        }
        _ => Err(LineError::Bad),
    }
}

// Arguments, and nothing more.
fn arguments_in(alloc: Global, tokens: &[Token]) -> Result<Vec<Argument>, LineError>
    ensures { Gives (λ v. v.items) result (arguments_in tokens.now) }
{
    let mut arguments = Vec::new(alloc);
    let mut rest = tokens;
    while !rest.is_empty() {
        let (argument, behind) = argument_at(alloc, rest)?;
        arguments.push(argument)?;
        rest = behind;
    }
    Ok(arguments)
}

/// One text of SQL.
pub(crate) fn query_arg(alloc: Global, tokens: &[Token]) -> Result<Query, LineError>
    ensures { Gives (λ q. q) result (query_arg tokens.now) }
{
    let sql = text_arg(alloc, tokens)?;
    Ok(Query::from_text(sql))
}

// One text of SQL, and arguments.
fn given_arg(alloc: Global, tokens: &[Token], is_kept: bool) -> Result<Query, LineError>
    ensures { Gives (λ q. q) result (given_arg is_kept tokens.now) }
{
    match tokens {
        [Token::Space, Token::Text(sql), rest @ ..] => {
            let sql = text_of(alloc, sql.as_bytes())?;
            let arguments = arguments_in(alloc, rest)?;
            given_query(alloc, sql, arguments, is_kept)
        }
        _ => Err(LineError::Bad),
    }
}

/// What the calls with a query run: a text of SQL behind the word `raw`, or one with arguments behind the word `query`, or behind `once`
/// where its statement isn't kept.
pub(crate) fn asked_arg(alloc: Global, tokens: &[Token]) -> Result<Query, LineError>
    ensures { Gives (λ q. q) result (asked_arg tokens.now) }
{
    match tokens {
        [Token::Space, Token::Word(Keyword::Raw), rest @ ..] => query_arg(alloc, rest),
        [Token::Space, Token::Word(Keyword::Query), rest @ ..] => given_arg(alloc, rest, true),
        [Token::Space, Token::Word(Keyword::Once), rest @ ..] => given_arg(alloc, rest, false),
        _ => Err(LineError::Bad),
    }
}

// The type of a parameter, and the tokens behind it.
fn type_at(alloc: Global, tokens: &[Token]) -> Result<(Declared, &[Token]), LineError>
    ensures { Gives (λ x. (x.0, x.1.now)) result (type_at tokens.now) }
{
    match tokens {
        [Token::Space, Token::Number(oid), rest @ ..] => Ok((Declared::Number(Oid(*oid)), rest)),
        [
            Token::Space,
            Token::Word(Keyword::Name),
            Token::Text(name),
            rest @ ..,
        ] => {
            let name = text_of(alloc, name.as_bytes())?;
            Ok((Declared::Name(name), rest))
        }
        [
            Token::Space,
            Token::Word(Keyword::Array),
            Token::Text(element),
            rest @ ..,
        ] => {
            let element = text_of(alloc, element.as_bytes())?;
            Ok((Declared::ArrayOf(element), rest))
        }
        _ => Err(LineError::Bad),
    }
}

// Types, and nothing more.
fn types_in(alloc: Global, tokens: &[Token]) -> Result<Sequence<Declared>, LineError>
    ensures { Gives (λ t. t) result (types_in tokens.now) }
{
    let mut types = Sequence::new(alloc);
    let mut rest = tokens;
    while !rest.is_empty() {
        let (of, behind) = type_at(alloc, rest)?;
        types.push(of)?;
        rest = behind;
    }
    Ok(types)
}

/// One text of SQL, and the types of its first parameters.
pub(crate) fn prepare_arg(alloc: Global, tokens: &[Token]) -> Result<Preparation, LineError>
    ensures { Gives (λ p. p) result (prepare_arg tokens.now) }
{
    match tokens {
        [Token::Space, Token::Text(sql), rest @ ..] => {
            let sql = text_of(alloc, sql.as_bytes())?;
            let types = types_in(alloc, rest)?;
            Ok(Preparation { sql, types })
        }
        _ => Err(LineError::Bad),
    }
}

// A piece of data, and the tokens behind it.
fn piece_arg(tokens: &[Token]) -> Result<(&[u8], &[Token]), LineError>
    ensures { Gives (λ x. (x.0.now, x.1.now)) result (piece_arg tokens.now) }
{
    match tokens {
        [Token::Space, Token::Text(piece), rest @ ..] => Ok((piece.as_bytes(), rest)),
        _ => Err(LineError::Bad),
    }
}

// Pieces of data, and nothing more.
fn pieces_in(alloc: Global, tokens: &[Token]) -> Result<Sequence<Blob>, LineError>
    ensures { Gives (λ p. p) result (pieces_in tokens.now) }
{
    let mut pieces = Sequence::new(alloc);
    let mut rest = tokens;
    while !rest.is_empty() {
        let (bytes, behind) = piece_arg(rest)?;
        let piece = Blob::from_slice(alloc, bytes)?;
        pieces.push(piece)?;
        rest = behind;
    }
    Ok(pieces)
}

// The word for what becomes of a copy, with its message, and the tokens behind it.
fn copy_end_at(alloc: Global, tokens: &[Token]) -> Result<(CopyEnd, &[Token]), LineError>
    ensures { Gives (λ x. (x.0, x.1.now)) result (copy_end_at tokens.now) }
{
    match tokens {
        [Token::Word(Keyword::Finish), rest @ ..] => Ok((CopyEnd::Finish, rest)),
        [Token::Word(Keyword::Leave), rest @ ..] => Ok((CopyEnd::Leave, rest)),
        [
            Token::Word(Keyword::Abort),
            Token::Space,
            Token::Text(message),
            rest @ ..,
        ] => {
            let message = text_of(alloc, message.as_bytes())?;
            Ok((CopyEnd::Abort(message), rest))
        }
        _ => Err(LineError::Bad),
    }
}

/// One text of SQL that copies from the client, what becomes of the copy, and its data in pieces.
pub(crate) fn copying_arg(alloc: Global, tokens: &[Token]) -> Result<InBlock<Copying>, LineError>
    ensures { Gives (λ c. c) result (copying_arg tokens.now) }
{
    match tokens {
        [Token::Space, Token::Text(sql), Token::Space, rest @ ..] => {
            let sql = text_of(alloc, sql.as_bytes())?;
            let (end, rest) = copy_end_at(alloc, rest)?;
            let pieces = pieces_in(alloc, rest)?;
            let copying = Copying { sql, pieces, end };
            Ok(InBlock::new(alloc, copying)?)
        }
        _ => Err(LineError::Bad),
    }
}
