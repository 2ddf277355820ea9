use crate::row::bytes;
use crate::telling::push_shown;
use pg_script::{read_live, read_script};
use std::alloc::Global;

pub(crate) fn script(told: &mut String, alloc: Global, text: &[u8]) {
    push_shown(told, read_script(alloc, text));
}

// A script of bytes that are no text.
pub(crate) fn script_of_bytes(told: &mut String, alloc: Global, digits: &str) {
    let bytes = bytes(alloc, digits);
    script(told, alloc, &bytes);
}

pub(crate) fn live(told: &mut String, alloc: Global, text: &str) {
    push_shown(told, read_live(alloc, text.as_bytes()));
}
