//! A start-up over a link that a dial opens.
ghost use Rattle.std.specs.Prelude.{◌≡◌, List, ℕ, false, IfErr, IfOk, length};
ghost use Rattle.pg_auth.specs.Nonce.{IsNonce, nonce_of};
ghost use Rattle.pg_conn.specs.Dialling.{Begun, DrawsWords, FailsDial, FailsToBegin, dial_error};
ghost use Rattle.pg_conn.specs.Dials.{Draws, HandsOut, IsUncalled};

use crate::{Dial, DialFailed, Establish, establish};
use arrayvec::ArrayString;
use pg_auth::nonce_of;
use pg_options::PgConnectOptions;
use pg_wire::{Error, IoCause};
use std::alloc::Global;

impl DialFailed {
    /// What a caller is told of it.
    pub fn into_error(self) -> Error
        ensures { result ≡ dial_error self }
    {
        match self {
            DialFailed::Fault => Error::Io(IoCause::Fault),
            DialFailed::OutOfMemory => Error::OutOfMemory,
        }
    }
}

/// A nonce for a start-up, of 128 words that the dial draws. (RFC 5802, section 5.1.)
pub fn draw_nonce<D: Dial>(dial: &mut D) -> Result<ArrayString<127>, DialFailed>
    ensures value { IfOk result (λ nonce. (words : List ℕ) × (length words ≡ 128) × Draws D.draws dial.old words dial.new × (nonce.bytes ≡ nonce_of words)) }
    ensures lawful { IfOk result (λ nonce. IsNonce nonce.bytes) }
    ensures draws { DrawsWords (D.seen dial.old) (D.seen dial.new) result }
{
    let mut words = [0; 128];
    for word in words.iter_mut() {
        *word = dial.word()?;
    }
    Ok(nonce_of(&words))
}

// A link for these options, and behind it a nonce.
fn link_and_nonce<D: Dial>(
    dial: &mut D,
    options: &PgConnectOptions,
) -> Result<(D::L, ArrayString<127>), Error>
where
    D::L: Drop,
    ensures ok { IfOk result (λ (link, nonce). (words : List ℕ) × (length words ≡ 128) × HandsOut D.gives D.draws dial.old dial.new options.now link words × IsUncalled (D.L.seen link) × (nonce.bytes ≡ nonce_of words) × IsNonce nonce.bytes) }
    ensures err { IfErr result (FailsDial (D.seen dial.old) (D.seen dial.new)) }
{
    let link = match dial.dial(options) {
        Ok(link) => link,
        Err(failed) => return Err(failed.into_error()),
    };
    match draw_nonce(dial) {
        Ok(nonce) => Ok((link, nonce)),
        Err(failed) => {
            drop(link);
            Err(failed.into_error())
        }
    }
}

/// Opens a link to the server that the options name, draws a nonce, and begins a start-up over them, as `establish` does. Where that is refused the link
/// is let go.
pub fn dial_and_establish<D: Dial>(
    alloc: Global,
    options: &PgConnectOptions,
    dial: &mut D,
) -> Result<Establish<D::L>, Error>
where
    D::L: Drop,
    ensures ok { IfOk result (λ start. Begun D.L.seen (HandsOut D.gives D.draws) options.now dial.old dial.new start × (start.startup.is_finished ≡ false)) }
    ensures err { IfErr result (FailsToBegin D.L.seen (HandsOut D.gives D.draws) D.seen options.now dial.old dial.new) }
{
    let (link, nonce) = match link_and_nonce(dial, options) {
        Ok(dialled) => dialled,
        Err(e) => return Err(e),
    };
    match establish(alloc, options, nonce.as_str().as_bytes(), link) {
        Ok(start) => Ok(start),
        Err((e, link)) => {
            drop(link);
            Err(e)
        }
    }
}
