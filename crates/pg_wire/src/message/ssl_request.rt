ghost use Rattle.std.specs.Prelude.{◌≡◌};
ghost use Rattle.pg_wire.specs.Frontend.{ssl_request};

/// The message that asks for TLS before a session is opened. It has no tag.
/// (PostgreSQL manual, "Message Formats", SSLRequest.)
#[derive(Clone, Copy, Debug, PartialEq, Eq)]
pub struct SslRequest;

impl SslRequest {
    /// The length 8, and the code 80877103.
    pub const BYTES: [u8; 8] = [0, 0, 0, 8, 0x04, 0xd2, 0x16, 0x2f];

    /// The same bytes.
    pub fn bytes() -> [u8; 8]
        ensures { result ≡ ssl_request }
    {
        SslRequest::BYTES
    }
}
