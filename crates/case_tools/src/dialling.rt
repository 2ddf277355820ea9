//! Connections over a dial.

ghost use Rattle.std.specs.Prelude.{IfOk};
ghost use Rattle.pg_auth.specs.Nonce.{IsNonce};

use crate::opening::{options, start};
use arrayvec::ArrayString;
use pg_conn::{Dial, PgConnection, SocketDial, draw_nonce};
use pg_options::PgConnectOptions;
use pg_stream::SocketLink;
use pg_wire::Error;
use rand::rngs::SysRng;
use std::alloc::Global;
use std::net::{Net, TcpStream};
use std::random::RandomSource;

/// A link, and a nonce for its start-up.
pub fn dialled<D: Dial>(
    dial: &mut D,
    options: &PgConnectOptions,
) -> Result<(ArrayString<127>, D::L), Error>
    ensures { IfOk result (λ d. IsNonce d.0.bytes) }
{
    let nonce = match draw_nonce(dial) {
        Ok(nonce) => nonce,
        Err(failed) => return Err(failed.into_error()),
    };
    match dial.dial(options) {
        Ok(link) => Ok((nonce, link)),
        Err(failed) => Err(failed.into_error()),
    }
}

/// The connection over a link that is dialled.
pub fn connect_over<D: Dial>(
    alloc: Global,
    dial: &mut D,
    options: &PgConnectOptions,
) -> Result<PgConnection<D::L>, Error>
where
    D::L: Drop,
{
    match dialled(dial, options) {
        Ok((nonce, link)) => start(alloc, options, nonce.as_str().as_bytes(), link),
        Err(error) => Err(error),
    }
}

/// The connection to the server of this URL.
pub fn connect_to<R>(rt: &R, alloc: Global, url: &str) -> Result<PgConnection<SocketLink>, Error>
where
    R: Net<Stream = TcpStream> + RandomSource,
{
    let options = options(alloc, url)?;
    let mut dial = SocketDial::new(alloc, rt, SysRng::new(rt));
    let conn = connect_over(alloc, &mut dial, &options);
    drop(options);
    conn
}
