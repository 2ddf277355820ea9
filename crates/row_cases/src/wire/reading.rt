// Messages that a server writes.

use crate::telling::{push, push_shown};
use pg_wire::{
    decode_authentication, decode_backend_key_data, decode_bind_complete, decode_close_complete,
    decode_command_complete, decode_copy_data, decode_copy_done, decode_copy_in_response,
    decode_copy_out_response, decode_data_row, decode_empty_query, decode_error_response,
    decode_no_data, decode_notice_response, decode_notification_response,
    decode_parameter_description, decode_parameter_status, decode_parse_complete,
    decode_portal_suspended, decode_ready_for_query, decode_row_description,
};
use std::alloc::Global;
use std::fmt::Write;

#[derive(Clone, Copy)]
pub enum Got {
    Authentication,
    KeyData,
    Setting,
    Ready,
    Columns,
    Types,
    Row,
    Complete,
    Error,
    Notice,
    Notification,
    CopyIn,
    CopyOut,
    CopyData,
    CopyDone,
    EmptyQuery,
    ParseComplete,
    BindComplete,
    CloseComplete,
    NoData,
    Suspended,
}

pub static GOT: [(&str, Got); 21] = [
    ("authentication", Got::Authentication),
    ("key-data", Got::KeyData),
    ("setting", Got::Setting),
    ("ready", Got::Ready),
    ("columns", Got::Columns),
    ("types", Got::Types),
    ("row", Got::Row),
    ("complete", Got::Complete),
    ("error", Got::Error),
    ("notice", Got::Notice),
    ("notification", Got::Notification),
    ("copy-in", Got::CopyIn),
    ("copy-out", Got::CopyOut),
    ("copy-data", Got::CopyData),
    ("copy-done-read", Got::CopyDone),
    ("empty-query", Got::EmptyQuery),
    ("parse-complete", Got::ParseComplete),
    ("bind-complete", Got::BindComplete),
    ("close-complete", Got::CloseComplete),
    ("no-data", Got::NoData),
    ("suspended", Got::Suspended),
];

fn tell_error(told: &mut String, alloc: Global, body: &[u8]) {
    match decode_error_response(alloc, body) {
        Ok(error) => {
            let severity = error.severity();
            let _ = write!(told, "{severity:?} ");
            push(told, error.code());
            push(told, " ");
            push(told, error.message());
        }
        Err(error) => push_shown(told, error),
    }
}

fn tell_notice(told: &mut String, alloc: Global, body: &[u8]) {
    match decode_notice_response(alloc, body) {
        Ok(notice) => {
            let severity = notice.severity();
            let _ = write!(told, "{severity:?}");
        }
        Err(error) => push_shown(told, error),
    }
}

// A message without a body of its own.
fn tell_empty(told: &mut String, message: Got, body: &[u8]) {
    match message {
        Got::CopyDone => push_shown(told, decode_copy_done(body)),
        Got::EmptyQuery => push_shown(told, decode_empty_query(body)),
        Got::ParseComplete => push_shown(told, decode_parse_complete(body)),
        Got::BindComplete => push_shown(told, decode_bind_complete(body)),
        Got::CloseComplete => push_shown(told, decode_close_complete(body)),
        Got::NoData => push_shown(told, decode_no_data(body)),
        _ => push_shown(told, decode_portal_suspended(body)),
    }
}

/// What a body is as the body of this message, as its type shows it.
pub fn tell_got(told: &mut String, alloc: Global, message: Got, body: &[u8]) {
    match message {
        Got::Authentication => push_shown(told, decode_authentication(alloc, body)),
        Got::KeyData => push_shown(told, decode_backend_key_data(body)),
        Got::Setting => push_shown(told, decode_parameter_status(alloc, body)),
        Got::Ready => push_shown(told, decode_ready_for_query(body)),
        Got::Columns => push_shown(told, decode_row_description(alloc, body)),
        Got::Types => push_shown(told, decode_parameter_description(alloc, body)),
        Got::Row => push_shown(told, decode_data_row(alloc, body)),
        Got::Complete => push_shown(told, decode_command_complete(body)),
        Got::Error => tell_error(told, alloc, body),
        Got::Notice => tell_notice(told, alloc, body),
        Got::Notification => push_shown(told, decode_notification_response(alloc, body)),
        Got::CopyIn => push_shown(told, decode_copy_in_response(alloc, body)),
        Got::CopyOut => push_shown(told, decode_copy_out_response(alloc, body)),
        Got::CopyData => push_shown(told, decode_copy_data(alloc, body)),
        message => tell_empty(told, message, body),
    }
}
