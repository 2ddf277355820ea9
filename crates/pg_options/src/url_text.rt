// Texts in a URL: what they stand for, and which of them are addresses.
ghost use Rattle.std.specs.Prelude.{◌≡◌, Ok, IfOk, is_ok, string_bytes, option_copied};
ghost use Rattle.std.specs.List.{list_all};
ghost use Rattle.std.specs.Cow.{cow_str_bytes};
ghost use Rattle.percent_encoding.specs.Percent as percent;
ghost use Rattle.pg_options.specs.Answering.{Makes, Gives, GivesBy};
ghost use Rattle.pg_options.specs.UrlTexts.{url_from, decoded_text, without_slashes, begins_path, is_ipv4, is_ipv6_byte, is_ipv6, is_host_addr, bracketed_url, behind_front, before_back, bracketed};

use percent_encoding::{DecodeError, percent_decode};
use pg_wire::{ConfigPart, Error};
use std::alloc::{AllocError, Global};
use std::borrow::CowStr;
use std::net::Ipv4Addr;
use url::{ParseError, Url};

// Reads an absolute URL. Where it would be too long for the parser, that is want of memory.
pub(crate) fn read_url(alloc: Global, text: &str) -> Result<Url, Error>
    ensures { Gives result (url_from text.now) }
{
    match Url::parse(alloc, text) {
        Ok(url) => Ok(url),
        Err(ParseError::OutOfMemory | ParseError::Overflow) => Err(Error::OutOfMemory),
        Err(_) => Err(Error::Configuration {
            part: ConfigPart::Url,
            place: 0,
        }),
    }
}

// The text that a part of a URL stands for.
pub(crate) fn read_part(alloc: Global, part: &[u8]) -> Result<CowStr<'_>, Error>
    ensures { GivesBy cow_str_bytes result (decoded_text part.now) }
{
    match percent_decode(part).decode_utf8(alloc) {
        Ok(text) => Ok(text),
        Err(DecodeError::OutOfMemory) => Err(Error::OutOfMemory),
        Err(DecodeError::Utf8(_)) => Err(Error::Configuration {
            part: ConfigPart::Utf8,
            place: 0,
        }),
    }
}

// Whether a host stands for a path.
pub(crate) fn stands_for_path(host: &str) -> bool
    ensures { result ≡ begins_path (percent.percent_decode host.now) }
{
    let mut bytes = percent_decode(host.as_bytes());
    match bytes.next() {
        Some(first) => first == b'/',
        None => false,
    }
}

pub(crate) fn begins_path(text: &str) -> bool
    ensures { result ≡ begins_path text.now }
{
    match text.as_bytes() {
        [first, ..] => *first == b'/',
        [] => false,
    }
}

pub(crate) fn without_slashes(path: &[u8]) -> &[u8]
    ensures { result.now ≡ without_slashes path.now }
{
    let mut rest = path;
    while let [b'/', after @ ..] = rest {
        rest = after;
    }
    rest
}

// Whether a text is an address: IPv4 with dots, or IPv6 as a URL has it between brackets.
pub(crate) fn is_host_addr(alloc: Global, text: &str) -> Result<bool, Error>
    ensures { Makes result (is_host_addr text.now) }
{
    if is_ipv4(text) {
        return Ok(true);
    }
    is_ipv6(alloc, text)
}

fn is_ipv4(text: &str) -> bool
    ensures { result ≡ is_ipv4 text.now }
{
    text.parse::<Ipv4Addr>().is_ok()
}

#[tactic(auto, unfolding(crate::specs::UrlTexts::is_ipv6))]
fn is_ipv6(alloc: Global, text: &str) -> Result<bool, Error>
    ensures { Makes result (is_ipv6 text.now) }
{
    if !has_ipv6_bytes(text) {
        return Ok(false);
    }
    let url = bracketed_url(alloc, text)?;
    is_url(alloc, url.as_str())
}

// Whether the parser reads it.
fn is_url(alloc: Global, text: &str) -> Result<bool, Error>
    ensures { Makes result (is_ok (url_from text.now)) }
{
    match Url::parse(alloc, text) {
        Ok(_) => Ok(true),
        Err(ParseError::OutOfMemory | ParseError::Overflow) => Err(Error::OutOfMemory),
        Err(_) => Ok(false),
    }
}

fn has_ipv6_bytes(text: &str) -> bool
    ensures { result ≡ list_all is_ipv6_byte text.now }
{
    for byte in text.as_bytes() {
        if !is_ipv6_byte(*byte) {
            return false;
        }
    }
    true
}

fn is_ipv6_byte(byte: u8) -> bool
    ensures { result ≡ is_ipv6_byte byte }
{
    byte.is_ascii_hexdigit() || byte == b':' || byte == b'.'
}

#[tactic(auto, unfolding(crate::specs::UrlTexts::bracketed_url))]
fn bracketed_url(alloc: Global, text: &str) -> Result<String, AllocError>
    ensures { IfOk result (λ t. string_bytes t ≡ bracketed_url text.now) }
{
    format!(in alloc; "postgres://[{text}]/")
}

// The name in `options[name]`.
pub(crate) fn bracketed(key: &str) -> Option<&str>
    ensures { option_copied result ≡ bracketed key.now }
{
    match behind_front(key, "options[") {
        Some(rest) => before_back(rest, "]"),
        None => None,
    }
}

fn behind_front<'a>(text: &'a str, front: &str) -> Option<&'a str>
    ensures { option_copied result ≡ behind_front front.now text.now }
{
    text.strip_prefix(front)
}

fn before_back<'a>(text: &'a str, back: &str) -> Option<&'a str>
    ensures { option_copied result ≡ before_back back.now text.now }
{
    text.strip_suffix(back)
}
