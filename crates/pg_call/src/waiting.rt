ghost use Rattle.std.specs.Prelude.{◌≡◌, true};
ghost use Rattle.pg_call.specs.Hearing.{fresh_reply, sent_rest, waiting_for};
ghost use Rattle.pg_call.specs.Requests.{is_raw};

use crate::heading::raw_heading;
use crate::{CallAnswer, Kind, Part, Reply, Request, Rest, Tally};
use pg_rows::Heading;
use pg_wire::{Blob, Oids};
use std::alloc::Global;
use std::mem;

/// A call whose frames are written, while replies to earlier calls are owed.
#[derive(Drop)]
pub struct Waiting {
    pub kind: Kind,
    /// What its own reply awaits first.
    pub part: Part,
    pub frames: Blob,
    /// Whether a CopyFail was queued for the reply that is drained now.
    pub is_copy_failed: bool,
    /// What comes of it at its end.
    pub rest: Rest,
    /// The heading of its rows before a message of the reply has come.
    pub heading: Heading,
}

impl Waiting {
    // A query without arguments, whose frames are written.
    pub(crate) fn of_raw(request: &Request, frames: Blob, is_copy_failed: bool) -> Self
        requires { is_raw request.now ≡ true }
        ensures { result ≡ waiting_for request.now frames is_copy_failed }
    {
        let kind = request.kind();
        Waiting {
            kind,
            part: Part::first(request),
            frames,
            is_copy_failed,
            rest: Rest::Nothing,
            heading: raw_heading(kind),
        }
    }

    // The reply to it, of which nothing has come. What comes of it at its end goes over to the reply.
    pub(crate) fn reply(&mut self, alloc: Global) -> Reply
        ensures { result ≡ fresh_reply self.old }
    {
        Reply {
            kind: self.kind,
            tally: Tally::new(alloc),
            part: self.part,
            rest: mem::replace(&mut self.rest, Rest::Nothing),
            heading: mem::replace(&mut self.heading, raw_heading(self.kind)),
            parameters: Oids::new(alloc),
        }
    }

    // What it answers where nothing is left but to send.
    pub(crate) fn into_answer(self) -> CallAnswer
        ensures { result ≡ sent_rest self.rest }
    {
        let Waiting {
            kind: _,
            part: _,
            frames: _,
            is_copy_failed: _,
            rest,
            heading: _,
        } = self;
        match rest {
            Rest::Tell(prepared) => CallAnswer::Statement(prepared),
            _ => CallAnswer::Unit,
        }
    }
}
