ghost use Rattle.std.specs.Prelude.{◌≡◌, ◌≤◌, length, option_map, IfSome};
ghost use Rattle.pg_wire.specs.Bytes.{HasNoNul};
ghost use Rattle.pg_wire.specs.Frontend.{portal_name, name_under, shown_name, number_after};

use crate::names::numbered;
use arrayvec::ArrayString;
use std::marker::Model;

/// The number of a portal: contracts see it, and 0 is that of the unnamed portal.
#[derive(Clone, Copy, Debug, PartialEq, Eq)]
pub struct PortalId {
    number: u32,
}

impl Model for PortalId {
    ghost use Rattle.std.specs.Prelude.{ℕ};

    ghost Value = { ℕ };

    ghost view = { λ p. p.number };

    ghost inverse = { λ n. record { number = n } };
}

impl PortalId {
    /// The portal without a name, which the next Bind to it replaces.
    pub const UNNAMED: PortalId = PortalId { number: 0 };

    /// The first portal with a name.
    pub const NAMED_START: PortalId = PortalId { number: 1 };

    pub fn number(&self) -> u32
        ensures { result ≡ self.now }
    {
        self.number
    }

    /// The number after this one, where there is one. The unnamed portal stays the unnamed one.
    pub fn next(&self) -> Option<PortalId>
        ensures { result ≡ number_after self.now }
    {
        match self.number {
            0 => Some(PortalId::UNNAMED),
            u32::MAX => None,
            number => Some(PortalId { number: number + 1 }),
        }
    }

    /// `sqlx_p_` and the number, or None for the unnamed portal.
    pub fn display(&self) -> Option<ArrayString<17>>
        ensures name { option_map (λ name. name.bytes) result ≡ shown_name portal_name self.now }
        ensures text { IfSome result (λ name. HasNoNul name.bytes) }
        ensures short { IfSome result (λ name. length name.bytes ≤ 17) }
    {
        match self.number {
            0 => None,
            number => Some(numbered("sqlx_p_", number)),
        }
    }

    // The name as it stands in messages.
    pub(crate) fn name(&self) -> ArrayString<17>
        ensures name { result.bytes ≡ name_under portal_name self.now }
        ensures text { HasNoNul result.bytes }
        ensures short { length result.bytes ≤ 17 }
    {
        match self.display() {
            Some(name) => name,
            None => ArrayString::new(),
        }
    }
}
