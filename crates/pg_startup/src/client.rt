ghost use Rattle.std.specs.Prelude.{◌≡◌, IfOk, IfErr};
ghost use Rattle.pg_auth.specs.Nonce.{IsNonce};
ghost use Rattle.pg_startup.specs.Exchange.{Opens, Proves, client_of, offers_scram, is_scram};
ghost use Rattle.pg_startup.specs.Refusals.{RefusesClear, RefusesScram, RefusesSaying, RefusesFirst, RefusesChallenge, RefusesRequest};
ghost use Rattle.pg_startup.specs.Replies.{IsReplyBy};

use crate::nul::check_nul;
use crate::reply::{Reply, out_of_turn};
use crate::stage::Stage;
use pg_auth::{check_plain, md5_password, scram_client_first, scram_proof};
use pg_options::PgConnectOptions;
use pg_wire::{
    Authentication, Blob, ConfigPart, Error, Mechanisms, ProtocolFault, ServerFault, Text,
    encode_password, encode_sasl_initial, encode_sasl_response,
};
use std::alloc::Global;
use std::marker::Model;

/// Who a client says that it is, and what it proves it by.
#[derive(Drop)]
pub(crate) struct Client {
    user: Text,
    password: Text,
    nonce: Blob,
}

impl Model for Client {
    ghost use Rattle.pg_auth.specs.Nonce.{IsNonce};
    ghost use Rattle.pg_startup.specs.Exchange.{ClientSeen};

    ghost Value = { ClientSeen };

    ghost view = { λ c. record { user = c.user; password = c.password; nonce = c.nonce } };

    ghost invariant = { λ c. IsNonce c.nonce };
}

fn is_scram(name: &[u8]) -> bool
    ensures { result ≡ is_scram name.now }
{
    name == b"SCRAM-SHA-256".as_slice() || name == b"SCRAM-SHA-256-PLUS".as_slice()
}

fn offers_scram(mechanisms: &Mechanisms) -> bool
    ensures { result ≡ offers_scram mechanisms.now }
{
    mechanisms
        .as_slice()
        .iter()
        .any(|name| is_scram(name.as_bytes()))
}

impl Client {
    /// The client that these options name. A password that isn't set is the empty text.
    pub(crate) fn new(
        alloc: Global,
        options: &PgConnectOptions,
        nonce: &[u8],
    ) -> Result<Self, Error>
        requires { IsNonce nonce.now }
        ensures ok { IfOk result (λ c. c ≡ client_of options.now nonce.now) }
        ensures err { IfErr result (λ e. e ≡ Error.OutOfMemory) }
    {
        Ok(Client {
            user: Text::from_str(alloc, options.get_username())?,
            password: Text::from_str(alloc, options.get_password().unwrap_or(""))?,
            nonce: Blob::from_slice(alloc, nonce)?,
        })
    }

    // The password in clear.
    fn answer_in_clear(&self, alloc: Global) -> Result<Reply, Error>
        ensures ok { IfOk result (IsReplyBy (Opens self.now Authentication.CleartextPassword)) }
        ensures err { IfErr result (RefusesClear self.now.password) }
    {
        check_nul(self.password.as_str())?;
        let mut text = Blob::new(alloc);
        encode_password(&mut text, self.password.as_str())?;
        Ok(Reply {
            text,
            next: Stage::Verdict,
        })
    }

    // The password hashed, with the server's salt.
    fn answer_hashed(&self, alloc: Global, salt: [u8; 4]) -> Result<Reply, Error>
        ensures ok { IfOk result (IsReplyBy (Opens self.now (Authentication.Md5Password salt))) }
        ensures err { IfErr result (λ e. RefusesFirst self.now (Authentication.Md5Password salt) e) }
    {
        let hashed = md5_password(alloc, self.user.as_str(), self.password.as_str(), salt)?;
        let mut text = Blob::new(alloc);
        encode_password(&mut text, hashed.as_str())?;
        Ok(Reply {
            text,
            next: Stage::Verdict,
        })
    }

    // The first message of SCRAM, to a server that offers it.
    fn begin_scram(&self, alloc: Global, mechanisms: &Mechanisms) -> Result<Reply, Error>
        ensures ok { IfOk result (IsReplyBy (Opens self.now (Authentication.Sasl mechanisms.now))) }
        ensures err { IfErr result (RefusesScram self.now (offers_scram mechanisms.now)) }
    {
        if !offers_scram(mechanisms) {
            return Err(Error::Protocol(ProtocolFault::Server(ServerFault::Mechanisms)));
        }
        check_plain(self.user.as_str(), ConfigPart::SaslUser)?;
        check_plain(self.password.as_str(), ConfigPart::SaslPassword)?;
        let first = scram_client_first(alloc, self.user.as_str(), self.nonce.as_bytes())?;
        let mut text = Blob::new(alloc);
        encode_sasl_initial(&mut text, first.as_str())?;
        Ok(Reply {
            text,
            next: Stage::Challenge,
        })
    }

    /// The answer to the first request for authentication.
    pub(crate) fn open(&self, alloc: Global, request: &Authentication) -> Result<Reply, Error>
        ensures ok { IfOk result (IsReplyBy (Opens self.now request.now)) }
        ensures err { IfErr result (RefusesFirst self.now request.now) }
    {
        match request {
            Authentication::Ok => Ok(Reply::accept(alloc)),
            Authentication::CleartextPassword => self.answer_in_clear(alloc),
            Authentication::Md5Password { salt } => self.answer_hashed(alloc, *salt),
            Authentication::Sasl { mechanisms } => self.begin_scram(alloc, mechanisms),
            _ => Err(out_of_turn(request)),
        }
    }

    // The proof of the password, for the server's first message.
    fn prove_to(&self, alloc: Global, server_first: &str) -> Result<Reply, Error>
        ensures ok { IfOk result (IsReplyBy (Proves self.now (Authentication.SaslContinue server_first.now))) }
        ensures err { IfErr result (RefusesChallenge self.now server_first.now) }
    {
        let answer = scram_proof(
            alloc,
            self.user.as_str(),
            self.password.as_str(),
            self.nonce.as_bytes(),
            server_first,
        )?;
        let mut text = Blob::new(alloc);
        encode_sasl_response(&mut text, answer.client_final.as_str())?;
        Ok(Reply {
            text,
            next: Stage::Signature(answer),
        })
    }

    /// The answer to the request that follows the first message of SCRAM.
    pub(crate) fn prove(&self, alloc: Global, request: &Authentication) -> Result<Reply, Error>
        ensures ok { IfOk result (IsReplyBy (Proves self.now request.now)) }
        ensures err { IfErr result (RefusesRequest self.now Stage.Challenge request.now) }
    {
        match request {
            Authentication::SaslContinue { data } => self.prove_to(alloc, data.as_str()),
            _ => Err(out_of_turn(request)),
        }
    }
}
