ghost use Rattle.std.specs.Prelude.{◌≡◌, ◌++◌, OnOk, IfOk, string_bytes};
ghost use Rattle.pg_report.specs.Bytes.{hex_or_dash};
ghost use Rattle.pg_report.specs.Report.{start_line, steps_from, sent_line, report, live_report};

use crate::bytes::{put_named_number, put_number};
use crate::errors::put_error;
use crate::outcome::{Outcome, Started};
use crate::steps::put_step;
use pg_wire::Error;
use std::alloc::{AllocError, Global};

#[tactic(auto, unfolding(crate::specs::Report::start_line))]
fn put_start(out: &mut String, start: &Result<Started, Error>) -> Result<(), AllocError>
    ensures { OnOk result (string_bytes out.new ≡ string_bytes out.old ++ start_line start.now) }
{
    match start {
        Ok(started) => {
            put_named_number(out, "start ok", started.sent)?;
            out.push_str(" ")?;
            put_number(out, started.read)?;
            out.push_str("\n")
        }
        Err(error) => {
            out.push_str("start error ")?;
            put_error(out, error)?;
            out.push_str("\n")
        }
    }
}

// Steps are numbered from 1.
fn put_steps(out: &mut String, outcomes: &[Outcome]) -> Result<(), AllocError>
    ensures { OnOk result (string_bytes out.new ≡ string_bytes out.old ++ steps_from 1 outcomes.now) }
{
    let mut number = 0u64;
    for outcome in outcomes {
        number = number.saturating_add(1);
        put_step(out, number, outcome)?;
    }
    Ok(())
}

// All bytes that were sent are the longest text of a long play, so they are spelled at once.
#[tactic(auto, unfolding(crate::specs::Bytes::hex_or_dash))]
fn sent_text(alloc: Global, sent: &[u8]) -> Result<String, AllocError>
    ensures { IfOk result (λ t. string_bytes t ≡ hex_or_dash sent.now) }
{
    if sent.is_empty() {
        return String::from_str(alloc, "-");
    }
    hex::encode(alloc, sent)
}

#[tactic(auto, unfolding(crate::specs::Report::sent_line))]
fn put_sent(alloc: Global, out: &mut String, sent: &[u8]) -> Result<(), AllocError>
    ensures { OnOk result (string_bytes out.new ≡ string_bytes out.old ++ sent_line sent.now) }
{
    out.push_str("sent ")?;
    out.push_str(&sent_text(alloc, sent)?)?;
    out.push_str("\n")
}

/// The report of what was played: how start-up ended, each step with its items, and all bytes that were sent.
#[tactic(auto, unfolding(crate::specs::Report::report))]
pub fn report(
    alloc: Global,
    start: &Result<Started, Error>,
    outcomes: &[Outcome],
    sent: &[u8],
) -> Result<String, AllocError>
    ensures { IfOk result (λ t. string_bytes t ≡ report start.now outcomes.now sent.now) }
{
    let mut out = String::new(alloc);
    put_start(&mut out, start)?;
    put_steps(&mut out, outcomes)?;
    put_sent(alloc, &mut out, sent)?;
    Ok(out)
}

/// The report of what was played over a link that tells no bytes: the same without the last line.
#[tactic(auto, unfolding(crate::specs::Report::live_report))]
pub fn live_report(
    alloc: Global,
    start: &Result<Started, Error>,
    outcomes: &[Outcome],
) -> Result<String, AllocError>
    ensures { IfOk result (λ t. string_bytes t ≡ live_report start.now outcomes.now) }
{
    let mut out = String::new(alloc);
    put_start(&mut out, start)?;
    put_steps(&mut out, outcomes)?;
    Ok(out)
}
