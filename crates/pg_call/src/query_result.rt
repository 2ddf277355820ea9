ghost use Rattle.std.specs.Prelude.{◌≡◌, None, Ok};
ghost use Rattle.std.specs.Iterator.{ExtendsWithItems, IsFinite};
ghost use Rattle.pg_call.specs.Sums.{AddsAll};

use std::alloc::AllocError;

/// How many rows statements inserted, changed, deleted or selected, by their command tags.
#[derive(Clone, Copy, Debug, Default, PartialEq, Eq)]
pub struct PgQueryResult {
    rows: u64,
}

impl PgQueryResult {
    pub(crate) fn new(rows: u64) -> Self
        ensures { result ≡ record { rows = rows } }
    {
        PgQueryResult { rows }
    }

    /// The number of rows, up to `u64`'s greatest value.
    pub fn rows_affected(&self) -> u64
        ensures { result ≡ self.now.rows }
    {
        self.rows
    }
}

impl Extend<PgQueryResult> for PgQueryResult {
    ghost extend_gives = { AddsAll };

    /// Adds the rows of all of them, up to `u64`'s greatest value, whatever their order. It takes no memory, so it is always Ok.
    #[tactic(auto, using(std::proofs::lemmas::List::Sums::sum_by_push))]
    fn extend<U: IntoIterator<Item = PgQueryResult>>(&mut self, iter: U) -> Result<(), AllocError>
        requires { (it : U.IntoIter) → U.into_iter_gives iter it → U.IntoIter.can_next it × IsFinite (U.IntoIter.remaining it) }
        ensures ran { ExtendsWithItems U.into_iter_gives U.IntoIter.next_gives AddsAll iter self.old self.new result }
        ensures ok { result ≡ Ok tt }
    {
        let mut rows = self.rows;
        for result in iter {
            rows = rows.saturating_add(result.rows);
        }
        self.rows = rows;
        Ok(())
    }
}

/// The same in the form that drivers of several databases have in common.
#[derive(Clone, Copy, Debug, PartialEq, Eq)]
pub struct AnyQueryResult {
    pub rows_affected: u64,
    /// The key of the row that was inserted last, which PostgreSQL doesn't tell.
    pub last_insert_id: Option<i64>,
}

/// The generic form of a result.
pub fn any_result(of: PgQueryResult) -> AnyQueryResult
    ensures { result ≡ record { rows_affected = of.rows; last_insert_id = None } }
{
    AnyQueryResult {
        rows_affected: of.rows_affected(),
        last_insert_id: None,
    }
}
