//! What becomes of the statements that are kept: each move is one of `Rule`.
ghost use Rattle.std.specs.Prelude.{◌≡◌};
ghost use Rattle.pg_conn.specs.Statements.{begun_as, moved, step_of, unmoved};

use crate::{CacheStep, Request};
use pg_call::Keeping;
use pg_rule::Rule;

/// A call that closes what is kept asks nothing where nothing is kept.
pub(crate) fn begun_as(rule: &Rule, request: Request) -> Request
    ensures { result ≡ begun_as rule.now request }
{
    if rule.cache.len() == 0 && matches!(&request, Request::Clear(_)) {
        Request::Flush
    } else {
        request
    }
}

/// What an exchange makes of them that is Ok, or has queued its group.
pub(crate) fn keep(rule: &mut Rule, keeping: Keeping)
    ensures { rule.new ≡ moved keeping rule.old }
{
    match keeping {
        Keeping::Stays => {}
        Keeping::Hits(number) => rule.touch(number),
        Keeping::Draws => {
            if rule.number().is_some() {
                rule.draw();
            }
        }
        Keeping::Puts | Keeping::Evicts => rule.put(),
        Keeping::Clears => rule.clear(),
    }
}

/// And one that is neither.
pub(crate) fn let_go(rule: &mut Rule, keeping: Keeping)
    ensures { rule.new ≡ unmoved keeping rule.old }
{
    match keeping {
        Keeping::Puts | Keeping::Evicts => rule.forget(),
        Keeping::Stays | Keeping::Hits(_) | Keeping::Draws | Keeping::Clears => {}
    }
}

/// What is told of it.
pub(crate) fn step_of(keeping: Keeping, step: CacheStep) -> CacheStep
    ensures { result ≡ step_of keeping step }
{
    match keeping {
        Keeping::Hits(_) => CacheStep::Hit,
        Keeping::Puts => CacheStep::Put,
        Keeping::Evicts => CacheStep::PutEvicting,
        Keeping::Stays | Keeping::Draws | Keeping::Clears => step,
    }
}
