ghost use Rattle.std.specs.Prelude.{◌≡◌, ⊤, ℕ, IfOk, Ok};
ghost use Rattle.pg_options.specs.Options.{ConnectOptions};
ghost use Rattle.pg_stream.specs.Memory.{seen_of};
ghost use Rattle.pg_stream.specs.MemoryOutside.{fails_next};
ghost use Rattle.pg_conn.specs.Dials.{AreUncalled, CountsLink, CountsWord, DialSeen, GivesLink, GivesWord, IsNextCall, IsUncalled, nothing_seen};

use crate::dial_counts::DialCounts;
use pg_options::PgConnectOptions;
use pg_stream::{Link, MemoryLink};
use pg_wire::Sequence;
use std::collections::VecDeque;
use std::marker::Model;

/// Why a dial gave nothing.
#[derive(Clone, Copy, Debug, PartialEq, Eq)]
pub enum DialFailed {
    /// The server wasn't reached, or there was no random word.
    Fault,
    OutOfMemory,
}

/// What opens links to a server, and draws random words.
///
/// It counts the links and the words that it hands out, and its faults, each in a `u64` that stops at the type's end.
pub trait Dial {
    type L: Link;

    /// Its counts: links, words, and the answers `Fault` of both calls.
    ghost seen: { Self → DialSeen };

    /// What is known of a link that it hands out for these options, and of the dial behind it.
    ghost gives: { Self → ConnectOptions → Self.L → Self → Type 0 } = { λ _ _ _ _. ⊤ };

    /// What is known of a word that it hands out, and of the dial behind it.
    ghost draws: { Self → ℕ → Self → Type 0 } = { λ _ _ _. ⊤ };

    /// Opens a link to the server that the options name. It was not called yet.
    fn dial(&mut self, options: &PgConnectOptions) -> Result<Self::L, DialFailed>
        ensures counts { CountsLink (seen self.old) (seen self.new) result }
        ensures uncalled { IfOk result (λ link. IsUncalled (Self.L.seen link)) }
        ensures gives { IfOk result (λ link. gives self.old options.now link self.new) };

    /// Draws a random word.
    fn word(&mut self) -> Result<u32, DialFailed>
        ensures counts { CountsWord (seen self.old) (seen self.new) result }
        ensures draws { IfOk result (λ word. draws self.old word self.new) };
}

/// A dial in memory: it gives its links and words in order, `Fault` behind its links, and 0 behind its words.
#[derive(Debug, Drop)]
pub struct MemoryDial {
    links: VecDeque<MemoryLink>,
    words: VecDeque<u32>,
    failing: Sequence<u64>,
    calls: u64,
    counts: DialCounts,
}

impl Model for MemoryDial {
    ghost use Rattle.pg_conn.specs.Dials.{AreUncalled, MemoryDialState};

    ghost Value = { MemoryDialState };

    ghost view = { λ d. record { links = d.links.items; words = d.words.items; failing = d.failing; calls = d.calls; seen = d.counts } };

    ghost invariant = { λ d. AreUncalled d.links.items };
}

impl MemoryDial {
    /// The calls with the numbers in `failing` answer `Fault`; the first is 1, and calls of both kinds count. The links were not
    /// called yet.
    pub fn new(links: VecDeque<MemoryLink>, words: VecDeque<u32>, failing: Sequence<u64>) -> Self
        requires { AreUncalled links.items }
        ensures { result ≡ record { links = links.items; words = words.items; failing = failing; calls = 0; seen = nothing_seen } }
    {
        MemoryDial {
            links,
            words,
            failing,
            calls: 0,
            counts: DialCounts::new(),
        }
    }

    // Counts a call, and tells whether it is to fail.
    fn fails(&mut self) -> bool
        ensures value { result ≡ fails_next self.old.failing self.old.calls }
        ensures next { IsNextCall self.old self.new }
        ensures links { self.new.links ≡ self.old.links }
        ensures words { self.new.words ≡ self.old.words }
        ensures seen { self.new.seen ≡ self.old.seen }
    {
        self.calls = self.calls.saturating_add(1);
        self.failing.as_slice().contains(&self.calls)
    }
}

impl Dial for MemoryDial {
    type L = MemoryLink;

    ghost seen = { λ d. d.seen };

    ghost gives = { λ d _ link e. GivesLink d e (Ok link) };

    ghost draws = { λ d word e. GivesWord d e (Ok word) };

    fn dial(&mut self, _options: &PgConnectOptions) -> Result<MemoryLink, DialFailed>
        ensures counts { CountsLink self.old.seen self.new.seen result }
        ensures uncalled { IfOk result (λ link. IsUncalled (seen_of link)) }
        ensures next { IsNextCall self.old self.new }
        ensures link { GivesLink self.old self.new result }
        ensures gives { IfOk result (λ link. GivesLink self.old self.new (Ok link)) }
    {
        if !self.fails() {
            if let Some(link) = self.links.pop_front() {
                self.counts.count_link();
                return Ok(link);
            }
        }
        self.counts.count_fault();
        Err(DialFailed::Fault)
    }

    fn word(&mut self) -> Result<u32, DialFailed>
        ensures counts { CountsWord self.old.seen self.new.seen result }
        ensures next { IsNextCall self.old self.new }
        ensures word { GivesWord self.old self.new result }
        ensures draws { IfOk result (λ word. GivesWord self.old self.new (Ok word)) }
    {
        if !self.fails() {
            self.counts.count_word();
            return Ok(self.words.pop_front().unwrap_or(0));
        }
        self.counts.count_fault();
        Err(DialFailed::Fault)
    }
}
