ghost use Rattle.std.specs.Prelude.{◌≡◌, ◌++◌, codes, decimal, IfOk, string_bytes};
ghost use Rattle.pg_sample.specs.Sample.{step_of};

use itoa::Buffer;
use pg_request::Query;
use pg_script::{Call, Step};
use pg_wire::Text;
use std::alloc::{AllocError, Global};

// The text of a query, in memory that it fills.
fn sql(alloc: Global, number: u32) -> Result<String, AllocError>
    ensures { IfOk result (λ t. string_bytes t ≡ codes "SELECT " ++ decimal number) }
{
    let mut buffer = Buffer::new();
    let digits = buffer.format(number);
    let mut text = String::with_capacity(alloc, 7 + digits.len())?;
    text.push_str("SELECT ")?;
    text.push_str(digits)?;
    Ok(text)
}

/// What is asked in a step.
pub(crate) fn step(alloc: Global, number: u32) -> Result<Step, AllocError>
    ensures { IfOk result (λ s. s ≡ step_of number) }
{
    let sql = Text::from_string(sql(alloc, number)?);
    Ok(Step {
        call: Call::FetchAll(Query::from_text(sql)),
        polls: 1,
        most: u32::MAX,
    })
}
