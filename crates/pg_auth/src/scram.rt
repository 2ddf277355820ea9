// The client's half of a SCRAM-SHA-256 exchange without channel binding (RFC 5802, RFC 7677): one file a message.

mod answer;
mod ascii;
mod client_first;
pub(crate) mod keys;
mod plain;
mod server_final;
mod server_first;

ghost use Rattle.std.specs.Prelude.{◌≡◌};
ghost use Rattle.pg_wire.specs.declared.error.Error.TheVariants.{Protocol};
ghost use Rattle.pg_wire.specs.declared.error.ProtocolFault.TheVariants.{Server};

pub use answer::{ScramAnswer, scram_proof};
pub use client_first::scram_client_first;
use pg_wire::{Error, ProtocolFault, ServerFault};
pub use plain::check_plain;
pub use server_final::scram_verifier;

// The fault of a text that is not in its message's format. It came in an `R` message.
const MALFORMED: ServerFault = ServerFault::Malformed { tag: b'R' };

// The answer to a server that did not keep the exchange.
fn refused(fault: ServerFault) -> Error
    ensures { result ≡ Protocol (Server fault) }
{
    Error::Protocol(ProtocolFault::Server(fault))
}
