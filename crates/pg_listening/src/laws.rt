//! What follows from the definitions of this crate, each the contract of a function that does nothing.

ghost use Rattle.std.specs.Prelude.{◌≡◌, ℕ, List, ◌++◌, Some, codes};
ghost use Rattle.pg_migrate.specs.Quoting.{BeginsOtherwise, unquoted};
ghost use Rattle.pg_listening.specs.Channels.{channel_name, listen_text, unlisten_text};

/// The name that a statement quotes is read back as the channel up to its first zero byte, whatever follows but another double quote.
pub fn a_channel_is_read_back()
    ensures listen { (channel rest : List ℕ) → BeginsOtherwise 34 rest → (name : List ℕ) × (listen_text channel ≡ codes "LISTEN " ++ name) × (unquoted 34 (name ++ rest) ≡ Some (channel_name channel, rest)) }
    ensures unlisten { (channel rest : List ℕ) → BeginsOtherwise 34 rest → (name : List ℕ) × (unlisten_text channel ≡ codes "UNLISTEN " ++ name) × (unquoted 34 (name ++ rest) ≡ Some (channel_name channel, rest)) }
{}
