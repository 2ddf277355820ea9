ghost use Rattle.std.specs.Prelude.{ℕ, List};
ghost use Rattle.pg_call.specs.Replies.{Checks, IsFault, IsAny};

use pg_wire::{
    Error, ProtocolFault, ServerFault, decode_authentication, decode_backend_key_data,
    decode_bind_complete, decode_close_complete, decode_command_complete, decode_copy_data,
    decode_copy_done, decode_copy_in_response, decode_copy_out_response, decode_data_row,
    decode_empty_query, decode_error_response, decode_no_data, decode_notice_response,
    decode_notification_response, decode_parameter_description, decode_parameter_status,
    decode_parse_complete, decode_portal_suspended, decode_ready_for_query, decode_row_description,
};
use std::alloc::Global;

// What is left of a message of which nothing is kept.
fn checked<T: Drop>(read: Result<T, Error>) -> Result<(), Error>
    ensures { (tag : ℕ) (body : List ℕ) → Checks tag body read → Checks tag body result }
{
    match read {
        Ok(_) => Ok(()),
        Err(e) => Err(e),
    }
}

/// Whether the body of a message with this tag is in its format. No message has any other tag.
pub(crate) fn check_message(alloc: Global, tag: u8, body: &[u8]) -> Result<(), Error>
    ensures { Checks tag body.now result }
{
    match tag {
        b'R' => checked(decode_authentication(alloc, body)),
        b'K' => checked(decode_backend_key_data(body)),
        b'S' => checked(decode_parameter_status(alloc, body)),
        b'Z' => checked(decode_ready_for_query(body)),
        b'E' => checked(decode_error_response(alloc, body)),
        b'N' => checked(decode_notice_response(alloc, body)),
        b'A' => checked(decode_notification_response(alloc, body)),
        b'T' => checked(decode_row_description(alloc, body)),
        b'D' => checked(decode_data_row(alloc, body)),
        b'C' => checked(decode_command_complete(body)),
        b'I' => checked(decode_empty_query(body)),
        b'G' => checked(decode_copy_in_response(alloc, body)),
        b'H' => checked(decode_copy_out_response(alloc, body)),
        b'd' => checked(decode_copy_data(alloc, body)),
        b'c' => checked(decode_copy_done(body)),
        b't' => checked(decode_parameter_description(alloc, body)),
        b'1' => checked(decode_parse_complete(body)),
        b'2' => checked(decode_bind_complete(body)),
        b'3' => checked(decode_close_complete(body)),
        b'n' => checked(decode_no_data(body)),
        b's' => checked(decode_portal_suspended(body)),
        _ => Err(Error::Protocol(ProtocolFault::Server(ServerFault::Malformed { tag }))),
    }
}

/// The fault of a message that may not come where it came: that its body is not in its format comes before that.
pub fn refuse(alloc: Global, tag: u8, body: &[u8]) -> Error
    ensures { IsFault IsAny tag body.now result }
{
    match check_message(alloc, tag, body) {
        Ok(()) => Error::Protocol(ProtocolFault::Server(ServerFault::Unlawful { tag })),
        Err(e) => e,
    }
}
