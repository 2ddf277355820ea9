ghost use Rattle.std.specs.Prelude.{◌≡◌, ◌<◌, ◌++◌, ◌↔◌, IsTrue, IfOk, IfErr, codes, string_bytes};
ghost use Rattle.std.specs.List.{All};
ghost use Rattle.pg_auth.specs.Nonce.{IsNonce};
ghost use Rattle.pg_wire.specs.declared.error.Error.TheVariants.{OutOfMemory};
ghost use Rattle.pg_auth.specs.Reading.{said};
ghost use Rattle.pg_auth.specs.Scram.{IsPlain, Continues, client_first_bare, client_final_bare};
ghost use Rattle.pg_auth.specs.ScramAnswers.{AnswersTo, IsAnswer, RefusesProof};

use super::ascii::push_ascii;
use super::client_first::push_client_first_bare;
use super::keys::{client_proof, server_signature};
use super::plain::check_plain;
use super::server_first::{ServerFirst, read_server_first};
use super::{MALFORMED, refused};
use crate::salted::hi;
use base64::engine::general_purpose::STANDARD;
use pg_wire::{ConfigPart, Error, ServerFault, Text};
use std::alloc::{AllocError, Global};

/// What a client answers to a server's first message, and what it awaits then.
#[derive(Drop)]
pub struct ScramAnswer {
    /// The message that proves the password.
    pub client_final: Text,
    /// The signature with which the server proves that it knows the password too.
    pub verifier: [u8; 32],
}

fn continues(server: &[u8], client: &[u8]) -> bool
    ensures { IsTrue result ↔ Continues client.now server.now }
{
    server.len() > client.len() && &server[..client.len()] == client
}

// The last message without its proof; the server's nonce is printable.
#[tactic(auto, unfolding(crate::specs::Scram::client_final_bare))]
fn final_bare(alloc: Global, nonce: &[u8]) -> Result<String, AllocError>
    requires { All (λ b. b < 128) nonce.now }
    ensures { IfOk result (λ text. string_bytes text ≡ client_final_bare nonce.now) }
{
    let mut text = String::from_str(alloc, "c=biws,r=")?;
    push_ascii(&mut text, nonce)?;
    Ok(text)
}

// The messages of both sides, with commas between them.
fn messages(
    alloc: Global,
    user: &str,
    nonce: &[u8],
    server_first: &str,
    final_bare: &str,
) -> Result<String, AllocError>
    requires user { IsPlain user.now }
    requires nonce { IsNonce nonce.now }
    ensures { IfOk result (λ text. string_bytes text ≡ client_first_bare user.now nonce.now ++ codes "," ++ server_first.now ++ codes "," ++ final_bare.now) }
{
    let mut text = String::new(alloc);
    push_client_first_bare(&mut text, user, nonce)?;
    text.push_str(",")?;
    text.push_str(server_first)?;
    text.push_str(",")?;
    text.push_str(final_bare)?;
    Ok(text)
}

// What is answered to a message that was read and goes on from the client's.
#[tactic(auto, unfolding(crate::specs::Scram::client_final, crate::specs::Scram::auth_message))]
fn answer(
    alloc: Global,
    user: &str,
    password: &str,
    nonce: &[u8],
    server_first: &str,
    server: &ServerFirst<'_>,
) -> Result<ScramAnswer, Error>
    requires user { IsPlain user.now }
    requires nonce { IsNonce nonce.now }
    requires server { All (λ b. b < 128) server.now.nonce.now }
    ensures value { IfOk result (λ answer. AnswersTo user.now password.now nonce.now server_first.now (said server.now.nonce.now server.now.salt.items server.now.rounds) answer) }
    ensures memory { IfErr result (λ e. e ≡ OutOfMemory) }
{
    let mut text = final_bare(alloc, server.nonce)?;
    let message = messages(alloc, user, nonce, server_first, text.as_str())?;
    let salted = hi(
        alloc,
        password.as_bytes(),
        server.salt.as_slice(),
        server.rounds,
    )?;
    let proof = client_proof(&salted, message.as_bytes());
    let verifier = server_signature(&salted, message.as_bytes());
    text.push_str(",p=")?;
    STANDARD.encode_string(&proof, &mut text)?;
    Ok(ScramAnswer {
        client_final: Text::from_string(text),
        verifier,
    })
}

/// The answer to a server's first message: the proof of the password, and the signature that the server owes for it.
/// (RFC 5802, sections 3 and 5; RFC 7677.)
///
/// Besides want of memory it is refused with `SaslUser` or `SaslPassword` at the first byte outside printable ASCII, the user's first;
/// then with `Malformed` where the text is no server's first message, and with `Nonce` where its nonce does not begin with the
/// client's and go on. Channel binding is not done.
pub fn scram_proof(
    alloc: Global,
    user: &str,
    password: &str,
    nonce: &[u8],
    server_first: &str,
) -> Result<ScramAnswer, Error>
    requires { IsNonce nonce.now }
    ensures answer { IfOk result (λ answer. IsAnswer user.now password.now nonce.now server_first.now answer) }
    ensures refused { IfErr result (λ e. RefusesProof user.now password.now nonce.now server_first.now e) }
{
    check_plain(user, ConfigPart::SaslUser)?;
    check_plain(password, ConfigPart::SaslPassword)?;
    let Some(server) = read_server_first(alloc, server_first)? else {
        return Err(refused(MALFORMED));
    };
    if !continues(server.nonce, nonce) {
        return Err(refused(ServerFault::Nonce));
    }
    answer(alloc, user, password, nonce, server_first, &server)
}
