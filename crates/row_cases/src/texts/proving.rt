use crate::row::{bytes, two};
use crate::telling::{push, push_bytes};
use crate::texts::told::{push_error, push_text};
use pg_auth::{
    ScramAnswer, hi, hkdf8, hmac, is_nonce, md5_password, nonce_of, scram_client_first,
    scram_proof, scram_verifier,
};
use pg_wire::Text;
use std::alloc::Global;

pub(crate) fn keyed_hash(told: &mut String, alloc: Global, row: &str) {
    let (key, message) = two(row, ' ');
    let key = bytes(alloc, key);
    let message = bytes(alloc, message);
    push_bytes(told, alloc, &hmac(&key, &message));
}

pub(crate) fn derived_key(told: &mut String, alloc: Global, row: &str) {
    let (material, info) = two(row, ' ');
    let material = bytes(alloc, material);
    let info = bytes(alloc, info);
    match hkdf8(alloc, &material, &info) {
        Ok(key) => push_bytes(told, alloc, &key),
        Err(error) => push_error(told, error),
    }
}

pub(crate) fn salted(told: &mut String, alloc: Global, row: &str) {
    let (rounds, row) = two(row, ' ');
    let (salt, password) = two(row, ' ');
    let salt = bytes(alloc, salt);
    let rounds = rounds.parse().unwrap_or(1);
    match hi(alloc, password.as_bytes(), &salt, rounds) {
        Ok(salted) => push_bytes(told, alloc, &salted),
        Err(error) => push_error(told, error),
    }
}

// A client's first message; the row is the nonce and the user.
pub(crate) fn client_first(told: &mut String, alloc: Global, row: &str) {
    let (nonce, user) = two(row, '|');
    if !is_nonce(nonce.as_bytes()) {
        return push(told, "no nonce");
    }
    push_text(told, scram_client_first(alloc, user, nonce.as_bytes()));
}

fn push_answer(told: &mut String, alloc: Global, answer: &ScramAnswer) {
    push(told, answer.client_final.as_str());
    push(told, " ");
    push_bytes(told, alloc, &answer.verifier);
}

// A client's last message and the signature that it awaits; the row is the nonce, the user, the password and what the server said.
pub(crate) fn proof(told: &mut String, alloc: Global, row: &str) {
    let (nonce, row) = two(row, '|');
    let (user, row) = two(row, '|');
    let (password, server_first) = two(row, '|');
    if !is_nonce(nonce.as_bytes()) {
        return push(told, "no nonce");
    }
    match scram_proof(alloc, user, password, nonce.as_bytes(), server_first) {
        Ok(answer) => push_answer(told, alloc, &answer),
        Err(error) => push_error(told, error),
    }
}

// A server's last message; the row is the signature that is awaited, in hexadecimal, and the message.
pub(crate) fn server_final(told: &mut String, alloc: Global, row: &str) {
    let (signature, message) = two(row, ' ');
    let mut verifier = [0; 32];
    let _ = hex::decode_to_slice(signature, &mut verifier);
    let answer = ScramAnswer {
        client_final: Text::new(alloc),
        verifier,
    };
    match scram_verifier(&answer, message) {
        Ok(()) => push(told, "accepted"),
        Err(error) => push_error(told, error),
    }
}

// A nonce from words that begin with these; the others are 11.
pub(crate) fn nonce(told: &mut String, row: &str) {
    let mut words = [11; 128];
    for (word, number) in words.iter_mut().zip(row.split(' ')) {
        *word = number.parse().unwrap_or(11);
    }
    let nonce = nonce_of(&words);
    push(told, nonce.as_str());
}

// The row is the salt in hexadecimal, the user and the password.
pub(crate) fn md5_text(told: &mut String, alloc: Global, row: &str) {
    let (salt, row) = two(row, ' ');
    let (user, password) = two(row, ' ');
    let mut bytes = [0; 4];
    let _ = hex::decode_to_slice(salt, &mut bytes);
    push_text(told, md5_password(alloc, user, password, bytes));
}
