//! How to connect: options as a function of settings, a URL and builder calls.
//!
//! Begin with `PgConnectOptions`.
#![tactic(auto)]

mod certificate;
mod escaping;
pub mod laws;
mod numbers;
mod options;
mod settings;
mod ssl_mode;
mod url_key;
mod url_text;

pub use certificate::CertificateInput;
pub use escaping::PgOptionsWriteEscaped;
pub use options::PgConnectOptions;
pub use settings::PgSettings;
pub use ssl_mode::PgSslMode;
