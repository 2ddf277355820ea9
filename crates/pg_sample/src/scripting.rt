ghost use Rattle.std.specs.Prelude.{◌≡◌, IfOk};
ghost use Rattle.pg_sample.specs.Sample.{sample_script, script_of, events_said, steps_said};

use crate::answering::{add_events, greeting};
use crate::asking::step;
use pg_script::{Script, Step};
use pg_stream::ReadEvent;
use pg_wire::{Sequence, Text};
use std::alloc::{AllocError, Global};

// What the link's reads give: the greeting, and then the answer to each step.
#[tactic(auto, using(crate::proofs::ScriptLaws::events_more))]
fn events(alloc: Global, count: u32) -> Result<Vec<ReadEvent>, AllocError>
    ensures { IfOk result (λ v. v.items ≡ events_said count) }
{
    let room = 1 + count as usize + count as usize / 3;
    let mut events = Vec::with_capacity(alloc, room)?;
    events.push(ReadEvent::Piece(greeting(alloc)?))?;
    for index in 0..count {
        add_events(&mut events, alloc, index + 1)?;
    }
    Ok(events)
}

fn steps(alloc: Global, count: u32) -> Result<Vec<Step>, AllocError>
    ensures { IfOk result (λ v. v.items ≡ steps_said count) }
{
    let mut steps = Vec::with_capacity(alloc, count as usize)?;
    for index in 0..count {
        steps.push(step(alloc, index + 1)?)?;
    }
    Ok(steps)
}

// The script of a user `u` with these events and steps.
fn script(alloc: Global, user: Text, events: Vec<ReadEvent>, steps: Vec<Step>) -> Script
    ensures { result ≡ script_of user events.items steps.items }
{
    Script {
        user: Some(user),
        password: None,
        database: None,
        application: None,
        options: Sequence::new(alloc),
        ssl_mode: None,
        cache: None,
        digits: None,
        can_upgrade: false,
        is_local: false,
        nonce: None,
        start_polls: None,
        events: Sequence::from_vec(events),
        writes: Sequence::new(alloc),
        steps: Sequence::from_vec(steps),
    }
}

/// The script of so many steps.
#[tactic(auto, unfolding(crate::specs::Sample::sample_script))]
pub fn sample_script(alloc: Global, count: u32) -> Result<Script, AllocError>
    ensures { IfOk result (λ s. s ≡ sample_script count) }
{
    let user = Text::from_str(alloc, "u")?;
    let events = events(alloc, count)?;
    let steps = steps(alloc, count)?;
    Ok(script(alloc, user, events, steps))
}
