// Iterators as arguments.

ghost use Rattle.std.specs.Prelude.{◌≡◌, drop};
ghost use Rattle.row_cases.specs.Replays.{answer_at, replays_first};

use crate::telling::push_shown;
use crate::values::kinds::Tried;
use crate::values::putting::put;
use crate::values::reading::value_of;
use pg_values::PgBindIterExt;
use std::alloc::Global;

// An iterator that gives these answers, and then None.
#[derive(Clone, Copy)]
struct Replay<'a>(&'a [Option<i32>]);

impl Iterator for Replay<'_> {
    type Item = i32;

    ghost next_gives = { λ s r t. (r ≡ answer_at s.0.now 0) × (t.0.now ≡ drop 1 s.0.now) };

    fn next(&mut self) -> Option<i32> {
        match self.0 {
            [first, rest @ ..] => {
                let answer = *first;
                self.0 = rest;
                answer
            }
            [] => None,
        }
    }
}

impl PgBindIterExt for Replay<'_> {
    ghost answers = { λ s. answer_at s.0.now };

    ghost can_go_on = { λ _. tt };

    ghost gives_first = { λ s r t h. replays_first s.0.now t.0.now r h.0 h.1 };
}

/// An iterator that gives the row's elements and nulls as its answers.
pub fn play_items(told: &mut String, alloc: Global, tried: Tried, bytes: Option<&[u8]>) {
    match value_of::<Vec<Option<i32>>>(alloc, bytes) {
        Ok(answers) => put(told, alloc, tried, Replay(&answers).bind_iter()),
        Err(error) => push_shown(told, error),
    }
}

/// The iterator over the items of a vector.
pub fn play_vector(told: &mut String, alloc: Global, tried: Tried, bytes: Option<&[u8]>) {
    match value_of::<Vec<i32>>(alloc, bytes) {
        Ok(items) => put(told, alloc, tried, items.into_iter().bind_iter()),
        Err(error) => push_shown(told, error),
    }
}
