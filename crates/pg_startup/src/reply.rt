ghost use Rattle.std.specs.Prelude.{◌≡◌, [], IfOk, IfErr};
ghost use Rattle.pg_startup.specs.Exchange.{Accepts, Verifies};
ghost use Rattle.pg_startup.specs.Refusals.{out_of_turn};
ghost use Rattle.pg_startup.specs.Replies.{IsReplyBy};

use crate::stage::Stage;
use pg_wire::{Authentication, BackendKeyData, Blob, Error, ProtocolFault, ServerFault};
use std::alloc::Global;

/// What a client answers to a message, and what it awaits then.
#[derive(Drop)]
pub(crate) struct Reply {
    pub(crate) text: Blob,
    pub(crate) next: Stage,
}

/// The refusal of a request that may not come at its place, or that is of a method which is not known here.
pub(crate) fn out_of_turn(request: &Authentication) -> Error
    ensures { result ≡ out_of_turn request.now }
{
    let fault = match request {
        Authentication::Other { code } => ServerFault::Method { code: *code },
        _ => ServerFault::Unlawful { tag: b'R' },
    };
    Error::Protocol(ProtocolFault::Server(fault))
}

impl Reply {
    /// Nothing is answered.
    pub(crate) fn none(alloc: Global, next: Stage) -> Self
        ensures { result ≡ record { text = []; next = next } }
    {
        Reply {
            text: Blob::new(alloc),
            next,
        }
    }

    /// Nothing is answered to the server that accepts the client.
    pub(crate) fn accept(alloc: Global) -> Self
        ensures { IsReplyBy (Accepts Authentication.Ok) result }
    {
        Reply::none(
            alloc,
            Stage::Accepted(BackendKeyData {
                process_id: 0,
                secret_key: 0,
            }),
        )
    }
}
