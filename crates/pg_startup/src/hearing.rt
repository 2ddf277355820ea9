ghost use Rattle.std.specs.Prelude.{◌≡◌, IfOk, IfErr, codes};
ghost use Rattle.pg_wire.specs.Backend.{BackendMessage};
ghost use Rattle.pg_wire.specs.Requests.{IsAsked};
ghost use Rattle.pg_stream.specs.Parameters.{Carries};
ghost use Rattle.pg_stream.specs.Streams.{framed};
ghost use Rattle.pg_startup.specs.Exchange.{ClientSeen, Answers, Verifies, Accepts, IsAuthenticating};
ghost use Rattle.pg_startup.specs.Refusals.{IsStray, Reports, RefusesUnasked, RefusesMessage, RefusesRequest};
ghost use Rattle.pg_startup.specs.Replies.{Hears, IsReplyBy};

use crate::client::Client;
use crate::reply::{Reply, out_of_turn};
use crate::stage::{Session, Stage};
use pg_auth::{ScramAnswer, scram_verifier};
use pg_call::refuse;
use pg_wire::{
    Authentication, BackendKeyData, Error, decode_authentication, decode_backend_key_data,
    decode_error_response, decode_ready_for_query,
};
use std::alloc::Global;

// The error that a server reports.
fn failure(alloc: Global, body: &[u8]) -> Error
    ensures { RefusesUnasked (codes "E") (framed 69 body.now) result }
{
    match decode_error_response(alloc, body) {
        Ok(error) => Error::Database(error),
        Err(e) => e,
    }
}

// The request for authentication that a message is.
fn asked(alloc: Global, tag: u8, body: &[u8]) -> Result<Authentication, Error>
    ensures ok { IfOk result (λ request. (m : BackendMessage) × Carries (framed tag body.now) m × IsAsked request m) }
    ensures err { IfErr result (RefusesUnasked (codes "RE") (framed tag body.now)) }
{
    match tag {
        b'R' => decode_authentication(alloc, body),
        b'E' => Err(failure(alloc, body)),
        _ => Err(refuse(alloc, tag, body)),
    }
}

// What the server's last message of SCRAM makes of the exchange.
fn verify(alloc: Global, answer: &ScramAnswer, request: &Authentication) -> Result<Reply, Error>
    ensures ok { IfOk result (IsReplyBy (Verifies answer.now request.now)) }
    ensures err { IfErr result (λ e. (c : ClientSeen) → RefusesRequest c (Stage.Signature answer.now) request.now e) }
{
    match request {
        Authentication::SaslFinal { data } => {
            scram_verifier(answer, data.as_str())?;
            Ok(Reply::none(alloc, Stage::Verdict))
        }
        _ => Err(out_of_turn(request)),
    }
}

// What the verdict of the server makes of it.
fn accept(alloc: Global, request: &Authentication) -> Result<Reply, Error>
    ensures ok { IfOk result (IsReplyBy (Accepts request.now)) }
    ensures err { IfErr result (λ e. (c : ClientSeen) → RefusesRequest c Stage.Verdict request.now e) }
{
    match request {
        Authentication::Ok => Ok(Reply::accept(alloc)),
        _ => Err(out_of_turn(request)),
    }
}

// What follows up to the first ReadyForQuery.
fn begin_session(alloc: Global, keys: BackendKeyData, tag: u8, body: &[u8]) -> Result<Reply, Error>
    ensures ok { IfOk result (λ reply. (c : ClientSeen) → Hears c (Stage.Accepted keys) (framed tag body.now) reply) }
    ensures err { IfErr result (RefusesUnasked (codes "KZE") (framed tag body.now)) }
{
    match tag {
        b'K' => {
            let keys = decode_backend_key_data(body)?;
            Ok(Reply::none(alloc, Stage::Accepted(keys)))
        }
        b'Z' => {
            let status = decode_ready_for_query(body)?;
            Ok(Reply::none(alloc, Stage::Begun(Session { keys, status })))
        }
        b'E' => Err(failure(alloc, body)),
        _ => Err(refuse(alloc, tag, body)),
    }
}

impl Stage {
    // What a request for authentication makes of the exchange.
    fn answer(
        &self,
        alloc: Global,
        client: &Client,
        request: &Authentication,
    ) -> Result<Reply, Error>
        requires { IsAuthenticating self.now }
        ensures ok { IfOk result (IsReplyBy (Answers client.now self.now request.now)) }
        ensures err { IfErr result (RefusesRequest client.now self.now request.now) }
    {
        match self {
            Stage::Request => client.open(alloc, request),
            Stage::Challenge => client.prove(alloc, request),
            Stage::Signature(answer) => verify(alloc, answer, request),
            Stage::Verdict => accept(alloc, request),
            Stage::Accepted(_) => unreachable!(),
            Stage::Begun(_) => unreachable!(),
        }
    }

    /// What a message that is no asynchronous one makes of the exchange.
    pub(crate) fn hear(
        &self,
        alloc: Global,
        client: &Client,
        tag: u8,
        body: &[u8],
    ) -> Result<Reply, Error>
        ensures ok { IfOk result (Hears client.now self.now (framed tag body.now)) }
        ensures err { IfErr result (RefusesMessage client.now self.now (framed tag body.now)) }
    {
        match self {
            Stage::Accepted(keys) => begin_session(alloc, *keys, tag, body),
            Stage::Begun(_) => Err(refuse(alloc, tag, body)),
            _ => self.answer(alloc, client, &asked(alloc, tag, body)?),
        }
    }
}
