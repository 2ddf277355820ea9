ghost use Rattle.std.specs.Prelude.{◌≡◌, ◌++◌, OnOk, flat_map, option_map, string_bytes};
ghost use Rattle.pg_report.specs.Steps.{value_text, item_text, item_line, answer_words, answer_rest, answer_text, end_text, cache_word, progress_text, step_line, step_lines};

use crate::bytes::{put_hex_or_dash, put_named_number, put_number, put_oids};
use crate::errors::put_error;
use crate::outcome::{Answer, End, Item, Outcome};
use pg_request::CacheStep;
use pg_wire::DataRow;
use std::alloc::AllocError;

#[tactic(auto, unfolding(crate::specs::Steps::value_text))]
fn put_value(out: &mut String, value: Option<&[u8]>) -> Result<(), AllocError>
    ensures { OnOk result (string_bytes out.new ≡ string_bytes out.old ++ value_text (option_map (λ x. x.now) value.entry)) }
{
    match value {
        None => out.push_str(" null"),
        Some(bytes) => {
            out.push_str(" ")?;
            put_hex_or_dash(out, bytes)
        }
    }
}

fn put_values(out: &mut String, row: &DataRow) -> Result<(), AllocError>
    ensures { OnOk result (string_bytes out.new ≡ string_bytes out.old ++ flat_map value_text row.now) }
{
    for index in 0..row.len() {
        put_value(out, row.get(index))?;
    }
    Ok(())
}

#[tactic(auto, unfolding(crate::specs::Steps::item_text))]
fn put_item(out: &mut String, item: &Item) -> Result<(), AllocError>
    ensures { OnOk result (string_bytes out.new ≡ string_bytes out.old ++ item_text item.now) }
{
    match item {
        Item::Row(row) => {
            out.push_str("row")?;
            put_values(out, row)
        }
        Item::Count(count) => {
            out.push_str("count ")?;
            put_number(out, *count)
        }
        Item::Piece(bytes) => {
            out.push_str("piece ")?;
            put_hex_or_dash(out, bytes.as_bytes())
        }
    }
}

#[tactic(auto, unfolding(crate::specs::Steps::item_line))]
fn put_item_line(out: &mut String, step: u64, item: &Item) -> Result<(), AllocError>
    ensures { OnOk result (string_bytes out.new ≡ string_bytes out.old ++ item_line step item.now) }
{
    put_named_number(out, "item", step)?;
    out.push(' ')?;
    put_item(out, item)?;
    out.push('\n')
}

fn put_item_lines(out: &mut String, step: u64, items: &[Item]) -> Result<(), AllocError>
    ensures { OnOk result (string_bytes out.new ≡ string_bytes out.old ++ flat_map (item_line step) items.now) }
{
    for item in items {
        put_item_line(out, step, item)?;
    }
    Ok(())
}

#[tactic(auto, unfolding(crate::specs::Steps::answer_words))]
fn answer_words(answer: &Answer) -> &'static str
    ensures { result.now ≡ answer_words answer.now }
{
    match answer {
        Answer::Unit => "ok",
        Answer::Total(_) => "ok total ",
        Answer::Described { .. } => "ok described ",
        Answer::Held(true) => "ok held t",
        Answer::Held(false) => "ok held f",
    }
}

fn put_answer_rest(out: &mut String, answer: &Answer) -> Result<(), AllocError>
    ensures { OnOk result (string_bytes out.new ≡ string_bytes out.old ++ answer_rest answer.now) }
{
    match answer {
        Answer::Total(total) => put_number(out, *total),
        Answer::Described { parameters, fields } => {
            put_oids(out, parameters.as_slice())?;
            out.push(' ')?;
            put_number(out, fields.len() as u64)
        }
        Answer::Unit | Answer::Held(_) => Ok(()),
    }
}

#[tactic(auto, unfolding(crate::specs::Steps::answer_text))]
fn put_answer(out: &mut String, answer: &Answer) -> Result<(), AllocError>
    ensures { OnOk result (string_bytes out.new ≡ string_bytes out.old ++ answer_text answer.now) }
{
    out.push_str(answer_words(answer))?;
    put_answer_rest(out, answer)
}

#[tactic(auto, unfolding(crate::specs::Steps::end_text))]
fn put_end(out: &mut String, end: &End) -> Result<(), AllocError>
    ensures { OnOk result (string_bytes out.new ≡ string_bytes out.old ++ end_text end.now) }
{
    match end {
        End::Ok(answer) => put_answer(out, answer),
        End::Err(error) => {
            out.push_str("error ")?;
            put_error(out, error)
        }
        End::Dropped => out.push_str("dropped"),
    }
}

#[tactic(auto, unfolding(crate::specs::Steps::cache_word))]
fn cache_word(cache: CacheStep) -> &'static str
    ensures { result.now ≡ cache_word cache }
{
    match cache {
        CacheStep::Same => "same",
        CacheStep::Hit => "hit",
        CacheStep::Put => "put",
        CacheStep::PutEvicting => "putevicting",
    }
}

#[tactic(auto, unfolding(crate::specs::Steps::progress_text))]
fn put_progress(out: &mut String, outcome: &Outcome) -> Result<(), AllocError>
    ensures { OnOk result (string_bytes out.new ≡ string_bytes out.old ++ progress_text outcome.now) }
{
    put_named_number(out, " groups", outcome.groups)?;
    put_named_number(out, " heard", outcome.heard)?;
    out.push_str(" cache ")?;
    out.push_str(cache_word(outcome.cache))?;
    put_named_number(out, " waits", outcome.waits)?;
    put_named_number(out, " moved", outcome.moved)
}

#[tactic(auto, unfolding(crate::specs::Steps::step_line))]
fn put_step_line(out: &mut String, step: u64, outcome: &Outcome) -> Result<(), AllocError>
    ensures { OnOk result (string_bytes out.new ≡ string_bytes out.old ++ step_line step outcome.now) }
{
    put_named_number(out, "step", step)?;
    put_progress(out, outcome)?;
    out.push(' ')?;
    put_end(out, &outcome.end)?;
    out.push('\n')
}

// The items' lines, and then the step's own.
#[tactic(auto, unfolding(crate::specs::Steps::step_lines))]
pub(crate) fn put_step(out: &mut String, step: u64, outcome: &Outcome) -> Result<(), AllocError>
    ensures { OnOk result (string_bytes out.new ≡ string_bytes out.old ++ step_lines step outcome.now) }
{
    put_item_lines(out, step, outcome.items.as_slice())?;
    put_step_line(out, step, outcome)
}
