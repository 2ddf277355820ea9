ghost use Rattle.std.specs.Prelude.{◌≡◌, ◌<◌, ◌∷◌, Some, None, ◌+◌, length, position, option_copied, vec_len, vec_capacity, OnOk, OnErr};
ghost use Rattle.std.specs.List.{last_or};
ghost use Rattle.pg_rule.specs.Caches.{none_kept, has_number, entry_at, used, put};

use pg_columns::PgColumns;
use pg_wire::{Oids, StatementId, Text};
use std::alloc::{AllocError, Global};
use std::marker::Model;

/// A statement that the server keeps under a name, and what Describe told of it. (PostgreSQL manual, "Message Flow", "Extended Query".)
#[derive(Debug, Drop)]
pub struct Entry {
    pub sql: Text,
    pub statement: StatementId,
    /// The types of its parameters.
    pub parameters: Oids,
    /// The columns of its rows.
    pub columns: PgColumns,
}

/// The statements that are kept, the one that was used last first, and at most one that is held: it was described, and is to be kept once the
/// next group was queued. Contracts see both.
#[derive(Debug, Drop)]
pub struct Cache {
    entries: Vec<Entry>,
    held: Option<Entry>,
}

impl Model for Cache {
    ghost use Rattle.std.specs.Prelude.{◌+◌, ◌≤◌, length, option_to_list, vec_len, vec_capacity};
    ghost use Rattle.pg_rule.specs.Caches.{Statements};

    ghost Value = { Statements };

    ghost view = { λ c. record { entries = c.entries.items; held = c.held } };

    // There is room for the one that is held.
    ghost invariant = { λ c. vec_len c.entries + length (option_to_list c.held) ≤ vec_capacity c.entries };
}

// The place of the first statement of this number.
fn place_of(entries: &[Entry], number: u32) -> Option<usize>
    ensures { result ≡ position (has_number number) entries.now }
{
    entries
        .iter()
        .position(|entry| entry.statement.number() == number)
}

// One more in front, where there is room for it.
fn put_first(entries: &mut Vec<Entry>, entry: Entry)
    requires { vec_len entries.old < vec_capacity entries.old }
    ensures items { entries.new.items ≡ entry ∷ entries.old.items }
    ensures len { vec_len entries.new ≡ vec_len entries.old + 1 }
    ensures capacity { vec_capacity entries.new ≡ vec_capacity entries.old }
{
    let _ = entries.insert(0, entry);
}

impl Cache {
    /// No statements, which takes no memory.
    pub fn new(alloc: Global) -> Self
        ensures { result ≡ none_kept }
    {
        Cache {
            entries: Vec::new(alloc),
            held: None,
        }
    }

    /// How many are kept.
    pub fn len(&self) -> usize
        ensures { result ≡ length self.now.entries }
    {
        self.entries.len()
    }

    /// Those that are kept.
    pub fn as_slice(&self) -> &[Entry]
        ensures { result.now ≡ self.now.entries }
    {
        &self.entries
    }

    /// The statement of this text, where one is kept.
    pub fn get(&self, sql: &str) -> Option<&Entry>
        ensures { option_copied result ≡ entry_at sql.now self.now.entries }
    {
        self.entries.iter().find(|entry| entry.sql.as_str() == sql)
    }

    /// The one that is used longest ago, where any is kept.
    pub fn last(&self) -> Option<&Entry>
        ensures { option_copied result ≡ last_or None self.now.entries }
    {
        self.entries.last()
    }

    /// The statement of this number was used, where it is kept: it comes to the front. This takes no memory.
    pub fn touch(&mut self, number: u32)
        ensures { self.new ≡ record self.old { entries = used number self.old.entries } }
    {
        if let Some(place) = place_of(&self.entries, number) {
            let entry = self.entries.remove(place);
            put_first(&mut self.entries, entry);
        }
    }

    /// Holds a statement, and takes room for it; one that was held before is gone. Without memory nothing has changed.
    pub fn hold(&mut self, entry: Entry) -> Result<(), AllocError>
        ensures ok { OnOk result (self.new ≡ record self.old { held = Some entry }) }
        ensures err { OnErr result (self.new ≡ self.old) }
    {
        self.entries.reserve(1)?;
        self.held = Some(entry);
        Ok(())
    }

    /// Puts the one that is held in front, and keeps so many at most: the last are gone. This takes no memory.
    pub fn put(&mut self, capacity: usize)
        ensures { self.new ≡ put capacity self.old }
    {
        if let Some(entry) = self.held.take() {
            put_first(&mut self.entries, entry);
        }
        self.entries.truncate(capacity);
    }

    /// None is held any more.
    pub fn forget(&mut self)
        ensures { self.new ≡ record self.old { held = None } }
    {
        self.held = None;
    }

    /// All are gone.
    pub fn clear(&mut self)
        ensures { self.new ≡ none_kept }
    {
        self.entries.clear();
        self.held = None;
    }
}
