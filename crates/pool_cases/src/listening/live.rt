//! A listener on a server, which tells what it hears until it hears `end`.
use crate::listening::calls::POLLS;
use crate::listening::receiving::try_receive;
use crate::listening::rows::{Place, alone};
use pg_conn::SocketDial;
use pg_listening::{ConnectionSource, Listener};
use pg_wire::{Error, IoCause};
use rand::rngs::SysRng;
use std::alloc::Global;
use std::marker::Brand;
use std::net::{Net, TcpListener, TcpStream};
use std::random::RandomSource;
use std::sync::Wait;
use std::sync::ledger::Blank;

const CALLS: u32 = 1_000_000;

/// Prints a line with what the calls before have answered, and then one for each call of `try_recv`.
pub(crate) fn hear<B, R>(rt: &R, line: &mut String, listener: &mut Listener<B>) -> Result<(), Error>
where
    B: ConnectionSource,
    B::L: Drop,
    R: Wait + Print,
{
    for _ in 0..CALLS {
        match println!(rt; "{line}") {
            Ok(()) if line.as_str() == " end" => return Ok(()),
            Ok(()) => {}
            Err(_) => return Err(Error::Io(IoCause::Fault)),
        }
        line.clear();
        try_receive(rt, line, listener, POLLS);
        drop(listener.take_lost());
    }
    Ok(())
}

/// A listener on the server of this URL, over a pool of its own, which tells behind these calls what it hears.
pub(crate) fn on_server<R>(
    rt: &R,
    alloc: Global,
    out: &mut String,
    url: &str,
    calls: &str,
) -> Result<(), Error>
where
    R: Wait + Print + Net<Listener = TcpListener, Stream = TcpStream> + RandomSource,
{
    let place = Place {
        url,
        calls,
        hears: true,
    };
    let dial = SocketDial::new(alloc, rt, SysRng::new(rt));
    alone::<Brand, _, R>(rt, alloc, out, place, Blank::new(1), dial)
}
