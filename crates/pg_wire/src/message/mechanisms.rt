ghost use Rattle.std.specs.Prelude.{◌≡◌, ◌↔◌, [], length, option_map, IsTrue, IfOk};
ghost use Rattle.pg_wire.specs.Reading.{whole, listed_at, entry_at, ended_at, mechanisms_in};

use crate::Blob;
use crate::reading::ended;
use std::alloc::{AllocError, Global};
use std::marker::Model;

/// The names of SASL mechanisms, in the server's order: contracts see the list of their bytes.
#[derive(Debug, Drop)]
pub struct Mechanisms {
    names: Vec<Blob>,
}

impl Model for Mechanisms {
    ghost use Rattle.std.specs.Prelude.{List, ℕ};

    ghost Value = { List (List ℕ) };

    ghost view = { λ m. m.names.items };
}

impl Mechanisms {
    /// No names, which takes no memory.
    pub fn new(alloc: Global) -> Self
        ensures { result ≡ [] }
    {
        Mechanisms {
            names: Vec::new(alloc),
        }
    }

    pub fn len(&self) -> usize
        ensures { result ≡ length self.now }
    {
        self.names.len()
    }

    pub fn is_empty(&self) -> bool
        ensures { IsTrue result ↔ (length self.now ≡ 0) }
    {
        self.names.is_empty()
    }

    pub fn as_slice(&self) -> &[Blob]
        ensures { result.now ≡ self.now }
    {
        &self.names
    }
}

// A name, or the zero byte that ends them.
#[tactic(auto, unfolding(crate::specs::Reading::entry_at))]
fn entry(alloc: Global, bytes: &[u8]) -> Result<Option<(Option<Blob>, &[u8])>, AllocError>
    ensures { IfOk result (λ r. option_map (λ x. (x.0, x.1.now)) r ≡ entry_at ended_at bytes.now) }
{
    match bytes {
        [] => Ok(None),
        [0, rest @ ..] => Ok(Some((None, rest))),
        [_, ..] => match ended(bytes) {
            Some((name, rest)) => Ok(Some((Some(Blob::from_slice(alloc, name)?), rest))),
            None => Ok(None),
        },
    }
}

// The names up to a zero byte, and the bytes behind it.
fn names(alloc: Global, bytes: &[u8]) -> Result<Option<(Vec<Blob>, &[u8])>, AllocError>
    ensures { IfOk result (λ r. option_map (λ x. (x.0.items, x.1.now)) r ≡ listed_at ended_at bytes.now) }
{
    let mut names = Vec::new(alloc);
    let mut rest = bytes;
    for _ in 0..bytes.len() {
        let Some((next, after)) = entry(alloc, rest)? else {
            return Ok(None);
        };
        match next {
            None => return Ok(Some((names, after))),
            Some(name) => names.push(name)?,
        }
        rest = after;
    }
    Ok(None)
}

// The names, which are all of the bytes.
#[tactic(auto, unfolding(crate::specs::Reading::whole))]
fn all_names(alloc: Global, bytes: &[u8]) -> Result<Option<Vec<Blob>>, AllocError>
    ensures { IfOk result (λ r. option_map (λ v. v.items) r ≡ whole (listed_at ended_at) bytes.now) }
{
    match names(alloc, bytes)? {
        Some((names, [])) => Ok(Some(names)),
        _ => Ok(None),
    }
}

// At least one name.
#[tactic(auto, unfolding(crate::specs::Reading::mechanisms_in))]
pub(super) fn mechanism_names(alloc: Global, bytes: &[u8]) -> Result<Option<Mechanisms>, AllocError>
    ensures { IfOk result (λ r. r ≡ mechanisms_in bytes.now) }
{
    match all_names(alloc, bytes)? {
        Some(names) => {
            if names.is_empty() {
                return Ok(None);
            }
            Ok(Some(Mechanisms { names }))
        }
        None => Ok(None),
    }
}
