use std::marker::Brand;
use std::sync::ledger::Ledger;

/// A ledger of a pool: it counts the calls of the participants, and names the most connections that may be out or idle.
pub trait PoolLedger: Ledger {
    ghost use Rattle.std.specs.Prelude.{ℕ};

    ghost most: { ℕ };
}

impl PoolLedger for Brand {
    ghost most = { 0 };
}
