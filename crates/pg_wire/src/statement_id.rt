ghost use Rattle.std.specs.Prelude.{◌≡◌, ◌≤◌, length, option_map, IfSome};
ghost use Rattle.pg_wire.specs.Bytes.{HasNoNul};
ghost use Rattle.pg_wire.specs.Frontend.{statement_name, name_under, shown_name, number_after};

use crate::names::numbered;
use arrayvec::ArrayString;
use std::marker::Model;

/// The number of a prepared statement: contracts see it, and 0 is that of the unnamed statement.
#[derive(Clone, Copy, Debug, PartialEq, Eq)]
pub struct StatementId {
    pub(crate) number: u32,
}

impl Model for StatementId {
    ghost use Rattle.std.specs.Prelude.{ℕ};

    ghost Value = { ℕ };

    ghost view = { λ s. s.number };

    ghost inverse = { λ n. record { number = n } };
}

impl StatementId {
    /// The statement without a name, which the next Parse of it replaces.
    pub const UNNAMED: StatementId = StatementId { number: 0 };

    /// The first statement with a name.
    pub const NAMED_START: StatementId = StatementId { number: 1 };

    /// The statement of this number.
    pub fn from_number(number: u32) -> StatementId
        ensures { result ≡ number }
    {
        StatementId { number }
    }

    pub fn number(&self) -> u32
        ensures { result ≡ self.now }
    {
        self.number
    }

    /// The number after this one, where there is one. The unnamed statement stays the unnamed one.
    pub fn next(&self) -> Option<StatementId>
        ensures { result ≡ number_after self.now }
    {
        match self.number {
            0 => Some(StatementId::UNNAMED),
            u32::MAX => None,
            number => Some(StatementId { number: number + 1 }),
        }
    }

    /// `sqlx_s_` and the number, or None for the unnamed statement.
    pub fn display(&self) -> Option<ArrayString<17>>
        ensures name { option_map (λ name. name.bytes) result ≡ shown_name statement_name self.now }
        ensures text { IfSome result (λ name. HasNoNul name.bytes) }
        ensures short { IfSome result (λ name. length name.bytes ≤ 17) }
    {
        match self.number {
            0 => None,
            number => Some(numbered("sqlx_s_", number)),
        }
    }

    // The name as it stands in messages.
    pub(crate) fn name(&self) -> ArrayString<17>
        ensures name { result.bytes ≡ name_under statement_name self.now }
        ensures text { HasNoNul result.bytes }
        ensures short { length result.bytes ≤ 17 }
    {
        match self.display() {
            Some(name) => name,
            None => ArrayString::new(),
        }
    }
}
