use pg_wire::{Sequence, Text};

/// A node of a query's plan, with those below it, by the names that `EXPLAIN (VERBOSE, FORMAT JSON)` has for its fields. A field that a node
/// lacks is None. (PostgreSQL manual, "EXPLAIN" and "Using EXPLAIN".)
#[derive(Debug, Drop)]
pub struct Plan {
    /// `Join Type`, as `Inner`, `Left`, `Right` or `Full`.
    pub join_type: Option<Text>,
    /// `Parent Relationship`: which input it is of the node above, as `Outer` or `Inner`.
    pub parent_relation: Option<Text>,
    /// `Output`: the expressions that it gives.
    pub output: Option<Sequence<Text>>,
    /// `Plans`: the nodes right below it.
    pub plans: Option<Vec<Plan>>,
}
