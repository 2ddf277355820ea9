//! The calls by which a listener hears.
ghost use Rattle.std.specs.Prelude.{◌≡◌, false};

use crate::listening::telling::{buffered, pending, received, streamed, tried};
use pg_listening::{ConnectionSource, Listener, NotificationStream};
use pg_wire::Poll;
use std::sync::Wait;

/// What `try_recv` answers within so many polls.
pub(crate) fn try_receive<B, R>(rt: &R, out: &mut String, listener: &mut Listener<B>, polls: u32)
where
    B: ConnectionSource,
    B::L: Drop,
    R: Wait,
{
    let mut state = listener.try_recv();
    for _ in 0..polls {
        match state.poll(rt) {
            Poll::Pending => {}
            Poll::Ready(answer) => return tried(out, answer),
        }
    }
    pending(out);
}

pub(crate) fn receive<B, R>(rt: &R, out: &mut String, listener: &mut Listener<B>)
where
    B: ConnectionSource,
    B::L: Drop,
    R: Wait,
{
    let mut state = listener.recv();
    match state.poll(rt) {
        Poll::Pending => pending(out),
        Poll::Ready(answer) => received(out, answer),
    }
}

/// What was read before.
pub(crate) fn next_buffered<B: ConnectionSource>(out: &mut String, listener: &mut Listener<B>) {
    buffered(out, listener.next_buffered());
}

/// The next notification of a stream.
pub(crate) fn next<B, R>(rt: &R, out: &mut String, stream: &mut NotificationStream<B>)
where
    B: ConnectionSource,
    B::L: Drop,
    R: Wait,
{
    match stream.poll_next(rt) {
        Poll::Pending => pending(out),
        Poll::Ready(answer) => streamed(out, answer),
    }
}
