ghost use Rattle.std.specs.Prelude.{◌≡◌, option_map};
ghost use Rattle.pg_wire.specs.Backend as backend;
ghost use Rattle.pg_wire.specs.Decoding.{Decodes};
ghost use Rattle.pg_wire.specs.Reading.{whole, then_at, number32_at, text_at};

use crate::reading::{malformed, number32, text};
use crate::{Error, Text};
use std::alloc::Global;

/// What another session told the listeners of a channel.
/// (PostgreSQL manual, "Message Formats", NotificationResponse.)
#[derive(Debug, Drop)]
pub struct Notification {
    /// The process of the session that told it.
    pub process_id: u32,
    pub channel: Text,
    pub payload: Text,
}

#[tactic(auto, unfolding(crate::specs::Reading::whole, crate::specs::Reading::then_at))]
fn parts(body: &[u8]) -> Option<(u32, &str, &str)>
    ensures { option_map (λ x. ((x.0, x.1.now), x.2.now)) result ≡ whole (then_at (then_at number32_at text_at) text_at) body.now }
{
    let (process_id, rest) = number32(body)?;
    let (channel, rest) = text(rest)?;
    let (payload, rest) = text(rest)?;
    if !rest.is_empty() {
        return None;
    }
    Some((process_id, channel, payload))
}

/// Reads the body of an `A` message.
pub fn decode_notification_response(alloc: Global, body: &[u8]) -> Result<Notification, Error>
    ensures { Decodes (λ n. backend.NotificationResponse n.process_id n.channel n.payload) 65 body.now result }
{
    match parts(body) {
        Some((process_id, channel, payload)) => Ok(Notification {
            process_id,
            channel: Text::from_str(alloc, channel)?,
            payload: Text::from_str(alloc, payload)?,
        }),
        None => Err(malformed(b'A')),
    }
}
