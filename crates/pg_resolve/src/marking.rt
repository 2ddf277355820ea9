ghost use Rattle.std.specs.Prelude.{◌≡◌, IfOk, IfErr};
ghost use Rattle.pg_wire.specs.declared.error.Error.TheVariants.{OutOfMemory};
ghost use Rattle.std.specs.List.{flat_map};
ghost use Rattle.pg_resolve.specs.Marks.{AreMarked, has_outer_side, is_among, is_word, marked_by, own_marks};
ghost use Rattle.pg_resolve.specs.declared.plan.Plan.TheViews.{out-Plan};

use crate::Plan;
use pg_wire::{Error, Text};
use std::alloc::Global;

fn is_word(word: &str, said: &Option<Text>) -> bool
    ensures { result ≡ is_word word.now said.now }
{
    match said {
        Some(said) => said.as_str() == word,
        None => false,
    }
}

fn is_among(names: &[Text], name: &str) -> bool
    ensures { result ≡ is_among names.now name.now }
{
    for other in names {
        if other.as_str() == name {
            return true;
        }
    }
    false
}

// Whether a plan marks an output for what it is itself.
fn is_own(plan: &Plan, output: &str) -> bool
    ensures { result ≡ is_among (own_marks (out-Plan plan.now)) output.now }
{
    if !is_word("Full", &plan.join_type) && !is_word("Inner", &plan.parent_relation) {
        return false;
    }
    match &plan.output {
        Some(own) => is_among(own.as_slice(), output),
        None => false,
    }
}

// Whether a join has an outer side, which is looked for below.
fn has_outer_side(plan: &Plan) -> bool
    ensures { result ≡ has_outer_side (out-Plan plan.now) }
{
    is_word("Left", &plan.join_type) || is_word("Right", &plan.join_type)
}

// Whether one of these plans marks an output.
#[cycle(marking)]
fn some_mark(plans: &[Plan], output: &str) -> bool
    ensures { result ≡ is_among (flat_map marked_by plans.now) output.now }
{
    for plan in plans {
        if marks(plan, output) {
            return true;
        }
    }
    false
}

// Whether a plan marks an output.
#[cycle(marking)]
fn marks(plan: &Plan, output: &str) -> bool
    ensures { result ≡ is_among (marked_by plan.now) output.now }
{
    if is_own(plan, output) {
        return true;
    }
    if !has_outer_side(plan) {
        return false;
    }
    match &plan.plans {
        Some(plans) => some_mark(plans.as_slice(), output),
        None => false,
    }
}

/// Which of a query's outputs may be null by its plan, in their order: `Some(true)` where one may be, and None where the plan doesn't tell.
/// Marked is what a full join gives, and what the inner input of a join gives; the nodes below a join are looked into where it is a left or
/// a right one. Of equal outputs the first alone is marked. Only want of memory refuses it. (PostgreSQL manual, "Joined Tables".)
pub fn plan_walk(alloc: Global, plan: &Plan, outputs: &[Text]) -> Result<Vec<Option<bool>>, Error>
    ensures marks { IfOk result (λ v. AreMarked (marked_by plan.now) outputs.now v.items) }
    ensures memory { IfErr result (λ e. e ≡ OutOfMemory) }
{
    let mut nullable = Vec::new(alloc);
    for (place, output) in outputs.iter().enumerate() {
        let output = output.as_str();
        let is_first = !is_among(&outputs[..place], output);
        let mark = if is_first && marks(plan, output) {
            Some(true)
        } else {
            None
        };
        nullable.push(mark)?;
    }
    Ok(nullable)
}
