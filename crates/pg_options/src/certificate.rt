ghost use Rattle.std.specs.Prelude.{◌≡◌, IfOk};
ghost use Rattle.pg_options.specs.Certificates.{is_pem, certificate_from};

use pg_wire::{Blob, Text};
use std::alloc::{AllocError, Global};

const PEM_BEGIN: &[u8] = b"-----BEGIN CERTIFICATE-----";

const PEM_END: &[u8] = b"-----END CERTIFICATE-----";

/// Where a certificate or a key is to be had.
#[derive(Debug, Drop)]
pub enum CertificateInput {
    /// A file with this path.
    File(Text),
    /// The bytes of the PEM text itself.
    Inline(Blob),
}

impl CertificateInput {
    /// The PEM text of a certificate (RFC 7468, section 5) is taken as it is, and any other text as a path.
    pub fn from_text(alloc: Global, text: &str) -> Result<Self, AllocError>
        ensures { IfOk result (λ i. i ≡ certificate_from text.now) }
    {
        if is_pem(text) {
            let bytes = Blob::from_slice(alloc, text.as_bytes())?;
            Ok(CertificateInput::Inline(bytes))
        } else {
            let path = Text::from_str(alloc, text)?;
            Ok(CertificateInput::File(path))
        }
    }

    /// An equal input.
    pub fn to_copy(&self, alloc: Global) -> Result<Self, AllocError>
        ensures { IfOk result (λ i. i ≡ self.now) }
    {
        match self {
            CertificateInput::File(path) => Ok(CertificateInput::File(path.to_copy(alloc)?)),
            CertificateInput::Inline(bytes) => Ok(CertificateInput::Inline(bytes.to_copy(alloc)?)),
        }
    }
}

#[tactic(auto, unfolding(crate::specs::Certificates::is_pem))]
fn is_pem(text: &str) -> bool
    ensures { result ≡ is_pem text.now }
{
    let inner = text.trim().as_bytes();
    inner.starts_with(PEM_BEGIN) && inner.ends_with(PEM_END)
}
