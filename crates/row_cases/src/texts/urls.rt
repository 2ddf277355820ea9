use crate::telling::push;
use crate::texts::told::{push_error, push_options};
use pg_options::{PgConnectOptions, PgSettings};
use pg_wire::Error;
use std::alloc::Global;

fn read(alloc: Global, url: &str) -> Result<PgConnectOptions, Error> {
    let settings = PgSettings::empty();
    let options = PgConnectOptions::from_str(alloc, &settings, url);
    drop(settings);
    options
}

// What a URL sets.
pub(crate) fn set_by_url(told: &mut String, alloc: Global, url: &str) {
    push_options(told, read(alloc, url));
}

fn push_url(told: &mut String, alloc: Global, options: &PgConnectOptions) {
    match options.to_url_lossy(alloc) {
        Ok(url) => push(told, url.as_str()),
        Err(error) => push_error(told, error),
    }
}

// The URL that is built of what a URL sets.
pub(crate) fn built(told: &mut String, alloc: Global, url: &str) {
    match read(alloc, url) {
        Ok(options) => push_url(told, alloc, &options),
        Err(error) => push_error(told, error),
    }
}
