ghost use Rattle.std.specs.Prelude.{◌≡◌};
ghost use Rattle.pg_conn.specs.Dials.{failed_by, nothing_seen, one_more};
ghost use Rattle.pg_conn.specs.declared.dial.DialFailed.TheVariants as failed;

use std::marker::Model;

/// What a dial counts: the links and the words that it handed out, and its faults.
#[derive(Debug, Drop)]
pub(crate) struct DialCounts {
    links: u64,
    words: u64,
    faults: u64,
}

impl Model for DialCounts {
    ghost use Rattle.pg_conn.specs.Dials.{DialSeen};

    ghost Value = { DialSeen };

    ghost view = { λ c. record { links = c.links; words = c.words; faults = c.faults } };
}

impl DialCounts {
    pub(crate) fn new() -> Self
        ensures { result ≡ nothing_seen }
    {
        DialCounts {
            links: 0,
            words: 0,
            faults: 0,
        }
    }

    pub(crate) fn count_link(&mut self)
        ensures { self.new ≡ record { links = one_more self.old.links; words = self.old.words; faults = self.old.faults } }
    {
        self.links = self.links.saturating_add(1);
    }

    pub(crate) fn count_word(&mut self)
        ensures { self.new ≡ record { links = self.old.links; words = one_more self.old.words; faults = self.old.faults } }
    {
        self.words = self.words.saturating_add(1);
    }

    pub(crate) fn count_fault(&mut self)
        ensures { self.new ≡ failed_by self.old failed.Fault }
    {
        self.faults = self.faults.saturating_add(1);
    }
}
