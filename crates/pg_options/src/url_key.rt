ghost use Rattle.std.specs.Prelude.{◌≡◌, map};
ghost use Rattle.pg_options.specs.UrlKeys.{key_from, key_named};

// A key of a URL's query that sets an option.
#[derive(Clone, Copy)]
pub(crate) enum UrlKey {
    SslMode,
    SslRootCert,
    SslClientCert,
    SslClientKey,
    CacheCapacity,
    Host,
    HostAddr,
    Port,
    Database,
    User,
    Password,
    ApplicationName,
    Options,
}

// All keys, of which some have more than one name.
const KEYS: [(&str, UrlKey); 18] = [
    ("sslmode", UrlKey::SslMode),
    ("ssl-mode", UrlKey::SslMode),
    ("sslrootcert", UrlKey::SslRootCert),
    ("ssl-root-cert", UrlKey::SslRootCert),
    ("ssl-ca", UrlKey::SslRootCert),
    ("sslcert", UrlKey::SslClientCert),
    ("ssl-cert", UrlKey::SslClientCert),
    ("sslkey", UrlKey::SslClientKey),
    ("ssl-key", UrlKey::SslClientKey),
    ("statement-cache-capacity", UrlKey::CacheCapacity),
    ("host", UrlKey::Host),
    ("hostaddr", UrlKey::HostAddr),
    ("port", UrlKey::Port),
    ("dbname", UrlKey::Database),
    ("user", UrlKey::User),
    ("password", UrlKey::Password),
    ("application_name", UrlKey::ApplicationName),
    ("options", UrlKey::Options),
];

impl UrlKey {
    #[tactic(auto, unfolding(crate::specs::UrlKeys::key_from))]
    pub(crate) fn of(key: &str) -> Option<Self>
        ensures { result ≡ key_from key.now }
    {
        key_among(key, &KEYS)
    }
}

// The key that stands first beside this text.
fn key_among(text: &str, keys: &[(&str, UrlKey)]) -> Option<UrlKey>
    ensures { result ≡ key_named text.now (map (λ (name, key). (name.now, key)) keys.now) }
{
    for (name, key) in keys {
        if text == *name {
            return Some(*key);
        }
    }
    None
}
