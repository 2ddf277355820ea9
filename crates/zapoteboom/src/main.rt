//! The program: it does what its words say, over standard input and standard output.
#![tactic(auto)]

use pg_conn::SocketDial;
use pg_play::top;
use pg_stream::{StdSink, StdSource, send};
use rand::rngs::SysRng;
use std::io::ErrorKind;
use std::process::ExitCode;
use std::{env, io};

// The words behind the program's name. Where one is no UTF-8 there are none, for no words of the program have it.
fn words(rt: &HostRuntime) -> io::Result<Vec<String>> {
    let mut words = Vec::new(rt.alloc());
    match env::args(rt) {
        Ok(args) => {
            for word in args.skip(1) {
                words.push(word)?;
            }
        }
        Err(e) if e.kind() == ErrorKind::OutOfMemory => return Err(e),
        Err(_) => {}
    }
    Ok(words)
}

fn main(rt: HostRuntime) -> ExitCode {
    let mut source = StdSource::new(rt.reader());
    let mut sink = StdSink::new(io::writer(&rt));
    let Ok(words) = words(&rt) else {
        let status = if send(&mut sink, b"out of memory\n") {
            5
        } else {
            4
        };
        return ExitCode::from(status);
    };
    let mut dial = SocketDial::new(rt.alloc(), &rt, SysRng::new(&rt));
    let ran = top(rt.alloc(), &words, &mut source, &mut sink, &mut dial);
    ExitCode::from(ran.status)
}
