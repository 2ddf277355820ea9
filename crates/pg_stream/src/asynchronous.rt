ghost use Rattle.std.specs.Prelude.{◌≡◌, codes, IfErr, OnOk, OnErr};
ghost use Rattle.pg_wire.specs.Decoding.{IsRefused};
ghost use Rattle.pg_wire.specs.Frame.{is_known};
ghost use Rattle.pg_stream.specs.Asynchronous.{IsSaid, TakesAside};
ghost use Rattle.pg_stream.specs.Notifications.{KeepsBy};
ghost use Rattle.pg_stream.specs.Parameters.{SetsBy};
ghost use Rattle.pg_stream.specs.Streams.{framed};

use crate::notifications::Notifications;
use crate::parameters::Parameters;
use pg_wire::{Error, decode_notice_response};
use std::alloc::{AllocError, Global};

/// Whether a message of this tag is an asynchronous one.
pub(crate) fn is_asynchronous(tag: u8) -> bool
    ensures { result ≡ is_known (codes "NSA") tag }
{
    matches!(tag, b'N' | b'S' | b'A')
}

fn check_notice(alloc: Global, body: &[u8]) -> Result<(), Error>
    ensures said { OnOk result (IsSaid (framed 78 body.now)) }
    ensures refused { IfErr result (λ e. IsRefused 78 body.now e) }
{
    match decode_notice_response(alloc, body) {
        Ok(_) => Ok(()),
        Err(e) => Err(e),
    }
}

/// Takes an asynchronous message aside, and tells whether it is one: of a parameter the last value is kept, of a notification all where
/// they are kept, and of a notice nothing.
pub(crate) fn take_aside(
    parameters: &mut Parameters,
    notifications: &mut Notifications,
    alloc: Global,
    tag: u8,
    body: &[u8],
) -> Result<bool, Error>
    ensures { TakesAside (framed tag body.now) parameters.old parameters.new notifications.old notifications.new result }
{
    match tag {
        b'N' => {
            check_notice(alloc, body)?;
            Ok(true)
        }
        b'S' => {
            parameters.take(alloc, body)?;
            Ok(true)
        }
        b'A' => {
            notifications.take(alloc, body)?;
            Ok(true)
        }
        _ => Ok(false),
    }
}

/// Keeps what a message tells, where it is an asynchronous one in its format.
pub(crate) fn note_aside(
    parameters: &mut Parameters,
    notifications: &mut Notifications,
    alloc: Global,
    tag: u8,
    body: &[u8],
) -> Result<(), AllocError>
    ensures sets { OnOk result (SetsBy (framed tag body.now) parameters.old parameters.new) }
    ensures keeps { OnOk result (KeepsBy (framed tag body.now) notifications.old notifications.new) }
    ensures err { OnErr result ((parameters.new ≡ parameters.old) × (notifications.new ≡ notifications.old)) }
{
    if tag == b'A' {
        notifications.note(alloc, body)
    } else {
        parameters.note(alloc, tag, body)
    }
}
