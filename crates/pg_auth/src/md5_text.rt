ghost use Rattle.std.specs.Prelude.{◌≡◌, IfOk, IfErr};
ghost use Rattle.pg_wire.specs.declared.error.Error.TheVariants.{OutOfMemory};
ghost use Rattle.pg_auth.specs.Md5Password.{md5_password};

use md5::{Digest, Md5};
use pg_wire::{Error, Text};
use std::alloc::Global;

/// The text that answers a request for an MD5 password. (PostgreSQL manual, "Message Flow", "Start-up".)
///
/// Only want of memory refuses it.
#[tactic(auto, unfolding(crate::specs::Md5Password::md5_password))]
pub fn md5_password(alloc: Global, user: &str, password: &str, salt: [u8; 4]) -> Result<Text, Error>
    ensures value { IfOk result (λ text. text ≡ md5_password user.now password.now salt) }
    ensures memory { IfErr result (λ e. e ≡ OutOfMemory) }
{
    let mut stored = Md5::new();
    stored.update(password);
    stored.update(user);
    let stored = hex::encode(alloc, stored.finalize())?;
    let mut salted = Md5::new();
    salted.update(stored.as_str());
    salted.update(salt);
    let mut text = String::from_str(alloc, "md5")?;
    text.push_str(hex::encode(alloc, salted.finalize())?.as_str())?;
    Ok(Text::from_string(text))
}
