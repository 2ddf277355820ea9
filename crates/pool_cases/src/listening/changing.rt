//! The calls of a listener that change its channels.
ghost use Rattle.std.specs.Prelude.{◌≡◌, true, false};
ghost use Rattle.pg_listening.specs.Listeners.{goes_on};

use crate::listening::calls::{POLLS, WANTING};
use crate::listening::telling::{changed, pending, push};
use crate::listening::words::{MOST, first};
use pg_listening::{Changing, ChannelChange, ConnectionSource, Listener};
use pg_wire::{Poll, Sequence, Text};
use std::alloc::{AllocError, Global};
use std::sync::Wait;

// The channel of a word, in which `~` stands for a zero byte.
fn channel(alloc: Global, word: &str) -> Result<Text, AllocError> {
    Ok(Text::from_string(word.replace(alloc, '~', "\0")?))
}

fn channels(alloc: Global, words: &str) -> Result<Sequence<Text>, AllocError> {
    let mut channels = Sequence::new(alloc);
    let mut rest = words;
    for _ in 0..MOST {
        if rest.is_empty() {
            break;
        }
        let (word, behind) = first(rest, ",");
        channels.push(channel(alloc, word)?)?;
        rest = behind;
    }
    Ok(channels)
}

// The change that a word names.
fn change_of(alloc: Global, call: &str) -> Result<ChannelChange, AllocError> {
    let (word, words) = first(call, ":");
    match word {
        "listen" => Ok(ChannelChange::Listen(channel(alloc, words)?)),
        "all" => Ok(ChannelChange::ListenAll(channels(alloc, words)?)),
        "unlisten" => Ok(ChannelChange::Unlisten(channel(alloc, words)?)),
        _ => Ok(ChannelChange::UnlistenAll),
    }
}

fn begin<B>(
    listener: &mut Listener<B>,
    change: ChannelChange,
) -> Changing<'_, Listener<B>, ChannelChange>
where
    B: ConnectionSource,
    ensures over { result.is_over ≡ false }
    ensures goes { goes_on result.change result.listener.now.hearing ≡ true }
{
    match change {
        ChannelChange::Listen(channel) => listener.listen(channel),
        ChannelChange::ListenAll(channels) => listener.listen_all(channels),
        ChannelChange::Unlisten(channel) => listener.unlisten(channel),
        ChannelChange::UnlistenAll => listener.unlisten_all(),
    }
}

/// Changes the channels as a word says.
pub(crate) fn change_channels<B, R>(
    rt: &R,
    alloc: Global,
    out: &mut String,
    listener: &mut Listener<B>,
    call: &str,
)
where
    B: ConnectionSource,
    B::L: Drop,
    R: Wait,
{
    let Ok(change) = change_of(alloc, call) else {
        return push(out, WANTING);
    };
    let mut state = begin(listener, change);
    for _ in 0..POLLS {
        match state.poll(rt) {
            Poll::Pending => {}
            Poll::Ready(answer) => return changed(out, answer),
        }
    }
    pending(out);
}
