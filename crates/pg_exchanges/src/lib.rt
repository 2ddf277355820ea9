//! What may come in the response to a request group, message by message, and the laws that tie it to the server of `pg_wire`.
//!
//! There is nothing to call: the contracts of a client cite `expected` and `following` of `specs/Expecting.antt`, and rest on `laws`.
#![tactic(auto)]

pub mod laws;
