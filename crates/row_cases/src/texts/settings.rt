use crate::row::{text, two};
use crate::texts::told::push_options;
use pg_options::{PgConnectOptions, PgSettings};
use pg_wire::{Error, Text};
use std::alloc::Global;

// The setting of this name.
fn setting(alloc: Global, row: &str, name: &str) -> Option<Text> {
    for setting in row.split('|') {
        let (word, value) = two(setting, ' ');
        if word == name {
            return Some(text(alloc, value));
        }
    }
    None
}

fn settings_of(alloc: Global, row: &str) -> PgSettings {
    PgSettings {
        host_addr: setting(alloc, row, "host_addr"),
        host: setting(alloc, row, "host"),
        port: setting(alloc, row, "port"),
        user: setting(alloc, row, "user"),
        system_user: setting(alloc, row, "system_user"),
        password: setting(alloc, row, "password"),
        database: setting(alloc, row, "database"),
        ssl_root_cert: setting(alloc, row, "ssl_root_cert"),
        ssl_cert: setting(alloc, row, "ssl_cert"),
        ssl_key: setting(alloc, row, "ssl_key"),
        ssl_mode: setting(alloc, row, "ssl_mode"),
        app_name: setting(alloc, row, "app_name"),
        options: setting(alloc, row, "options"),
        default_host: setting(alloc, row, "default_host"),
    }
}

fn options_of(alloc: Global, row: &str) -> Result<PgConnectOptions, Error> {
    let settings = settings_of(alloc, row);
    let options = match row.split_once("url ") {
        Some((_, url)) => PgConnectOptions::from_str(alloc, &settings, url),
        None => PgConnectOptions::new_without_pgpass(alloc, &settings),
    };
    drop(settings);
    options
}

// What settings make, perhaps with a URL over them.
pub(crate) fn settled(told: &mut String, alloc: Global, row: &str) {
    push_options(told, options_of(alloc, row));
}
