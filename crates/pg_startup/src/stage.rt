use pg_auth::ScramAnswer;
use pg_wire::{BackendKeyData, TransactionStatus};

/// What a session begins with, besides its parameters.
#[derive(Clone, Copy, Debug, PartialEq, Eq)]
pub struct Session {
    /// What a cancel request has to name: zeros where the server told none.
    pub keys: BackendKeyData,
    pub status: TransactionStatus,
}

/// What a start-up awaits from the server. (PostgreSQL manual, "Message Flow", "Start-up" and "SASL Authentication".)
///
/// | Awaited | R | K | Z | E |
/// |---|---|---|---|---|
/// | `Request` | `Accepted` where it is Ok; `Verdict` behind a password; `Challenge` behind SASL | | | fails |
/// | `Challenge` | `Signature` where it goes on with SASL | | | fails |
/// | `Signature` | `Verdict` where it ends SASL | | | fails |
/// | `Verdict` | `Accepted` where it is Ok | | | fails |
/// | `Accepted` | | `Accepted` | `Begun` | fails |
///
/// Whatever stands nowhere in the table is refused.
#[derive(Drop)]
pub enum Stage {
    /// The answer to the startup message.
    Request,
    /// The server's first message of SCRAM.
    Challenge,
    /// Its last one, with the signature that it owes.
    Signature(ScramAnswer),
    /// That the client is who it says.
    Verdict,
    /// What else there is up to the first ReadyForQuery.
    Accepted(BackendKeyData),
    /// Nothing more: the session has begun.
    Begun(Session),
}
