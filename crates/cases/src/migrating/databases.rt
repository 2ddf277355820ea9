//! Cases of databases, in memory and at a server.

use crate::migrating::asking::call;
use crate::migrating::dialling::dial;
use crate::migrating::telling::push;
use case_tools::{Shown, behind, entry, number};
use pg_conn::SocketDial;
use pg_migrating::Sessions;
use pg_options::PgSettings;
use rand::rngs::SysRng;
use std::alloc::Global;

// Makes the calls of a case, one behind the other, where nothing is set in the surroundings.
fn make_calls<D: Sessions>(alloc: Global, case: &str, dial: &mut D, told: &mut String)
where
    D::L: Shown,
{
    let settings = PgSettings::empty();
    let mut polls = 9;
    for line in case.lines() {
        polls = number(line, "polls", polls);
        if let Some(words) = behind(line, "call") {
            call(alloc, &settings, dial, words, polls, told);
        }
    }
    drop(settings);
}

fn play_in_memory(alloc: Global, case: &str, told: &mut String) {
    match dial(alloc, case) {
        Ok(mut dial) => {
            make_calls(alloc, case, &mut dial, told);
            drop(dial);
        }
        Err(error) => {
            drop(error);
            push(told, "  no dial\n");
        }
    }
}

// Over sockets.
fn play_live(rt: &HostRuntime, case: &str, told: &mut String) {
    let alloc = rt.alloc();
    let mut dial = SocketDial::new(alloc, rt, SysRng::new(rt));
    make_calls(alloc, case, &mut dial, told);
}

/// Plays a case, and tells what its calls answered.
pub(crate) fn play(rt: &HostRuntime, case: &str, told: &mut String) {
    match entry(case, "live") {
        Some(_) => play_live(rt, case, told),
        None => play_in_memory(rt.alloc(), case, told),
    }
}
