use crate::telling::push;
use crate::texts::told::push_error;
use pg_options::{PgOptionsWriteEscaped, PgSslMode};
use std::alloc::Global;

pub(crate) fn mode(told: &mut String, name: &str) {
    match name.parse::<PgSslMode>() {
        Ok(mode) => push(told, mode.name()),
        Err(error) => push_error(told, error),
    }
}

// A text and then a backslash, both written escaped.
pub(crate) fn escaped(told: &mut String, alloc: Global, text: &str) {
    let mut out = PgOptionsWriteEscaped::new(String::new(alloc));
    let _ = out.write_str(text);
    let _ = out.write_char('\\');
    let text = out.into_string();
    push(told, text.as_str());
}
