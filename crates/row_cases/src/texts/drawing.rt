ghost use Rattle.std.specs.Prelude.{◌≡◌, ℕ};
ghost use Rattle.rand_core.specs.Steps.{stream_of, steps_u32};

use crate::telling::push;
use pg_auth::make_nonce;
use rand_core::utils::NextWord;
use rand_core::{Rng, utils};
use std::marker::Model;

// A generator that gives 0 and then always 11.
#[derive(Drop)]
struct ZeroThenElevens(u32);

impl Model for ZeroThenElevens {
    ghost Value = { ℕ };

    ghost view = { λ a. a.0 };
}

impl NextWord<u32> for ZeroThenElevens {
    ghost step = { λ s. (s, 11) };

    fn next_word(&mut self) -> u32 {
        let word = self.0;
        self.0 = 11;
        word
    }
}

impl Rng for ZeroThenElevens {
    ghost stream = { stream_of (steps_u32 (λ s. (s, 11))) };

    fn next_u32(&mut self) -> u32 {
        self.next_word()
    }

    fn next_u64(&mut self) -> u64 {
        utils::next_u64_via_u32(self)
    }

    fn fill_bytes(&mut self, dst: &mut [u8]) {
        utils::fill_bytes_via_u32(self, dst)
    }
}

// A nonce that is drawn from the generator.
pub(crate) fn drawn_nonce(told: &mut String) {
    let nonce = make_nonce(&mut ZeroThenElevens(0));
    push(told, nonce.as_str());
}
