use std::alloc::Global;

fn plain_character(ch: char) -> char {
    if ch == '␊' {
        '\n'
    } else if ch == '␉' {
        '\t'
    } else if ch == '␟' {
        '\u{1f}'
    } else if ch == '␡' {
        '\u{7f}'
    } else {
        ch
    }
}

// The text that a row stands for.
pub(crate) fn plain(alloc: Global, row: &str) -> String {
    let mut text = String::new(alloc);
    for ch in row.chars() {
        let _ = text.push(plain_character(ch));
    }
    text
}
