//! What follows from the definitions of this crate, as the contract of a function that does nothing.
ghost use Rattle.std.specs.Prelude.{◌≡◌, List, None, Some};
ghost use Rattle.std.specs.List.{AllByRecursion, slice_get};
ghost use Rattle.pg_wire.specs.declared.pool.PoolEntry.{PoolEntry};
ghost use Rattle.pg_pool.specs.Audits.{seats_difference};
ghost use Rattle.pg_pool.specs.Seats.{SeatSeen};

/// Where an audit finds no difference, the entry of each receipt stands at its place in the history.
pub fn an_audit_finds_each_receipt_at_its_place()
    ensures { (history : List PoolEntry) (seats : List SeatSeen) → seats_difference history seats ≡ None → AllByRecursion (λ s. AllByRecursion (λ r. slice_get history r.place ≡ Some r.entry) s.receipts) seats }
{}
