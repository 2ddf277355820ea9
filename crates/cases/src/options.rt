use pg_options::{PgConnectOptions, PgSettings};
use pg_wire::Error;
use std::alloc::Global;

/// The connect options of a URL, where nothing is set in the surroundings.
pub(crate) fn options(alloc: Global, url: &str) -> Result<PgConnectOptions, Error> {
    let settings = PgSettings::empty();
    let options = PgConnectOptions::from_str(alloc, &settings, url);
    drop(settings);
    options
}
