ghost use Rattle.std.specs.Prelude.{◌≡◌, ◌++◌, position, IfOk, IfErr, OnOk};
ghost use Rattle.pg_listening.specs.Changes.{changed, is_named, listens, statement_of, without_first};

use crate::channels::{listen_each_text, listen_text, unlisten_all_text, unlisten_text};
use pg_wire::{Error, Sequence, Text};
use std::alloc::{AllocError, Global};

/// What a listener changes of the channels that it listens to.
#[derive(Debug, Drop)]
pub enum ChannelChange {
    /// It listens to one more, behind the others.
    Listen(Text),
    /// The same of several.
    ListenAll(Sequence<Text>),
    /// It listens no longer to this one: the first of this name leaves.
    Unlisten(Text),
    UnlistenAll,
}

// Copies of channels, behind others.
fn put_copies(alloc: Global, copies: &mut Vec<Text>, channels: &[Text]) -> Result<(), AllocError>
    ensures { OnOk result (copies.new.items ≡ copies.old.items ++ channels.now) }
{
    for channel in channels {
        copies.push(channel.to_copy(alloc)?)?;
    }
    Ok(())
}

fn place_of(channels: &[Text], name: &str) -> Option<usize>
    ensures { result ≡ position (is_named name.now) channels.now }
{
    channels.iter().position(|channel| channel.as_str() == name)
}

// The channels but for the first of this name.
fn without(channels: Vec<Text>, name: &str) -> Vec<Text>
    ensures { result.items ≡ without_first name.now channels.items }
{
    let mut channels = channels;
    if let Some(place) = place_of(&channels, name) {
        let _ = channels.remove(place);
    }
    channels
}

// Copies of all of these channels, and of more behind them.
fn joined(alloc: Global, channels: &[Text], more: &[Text]) -> Result<Vec<Text>, AllocError>
    ensures { IfOk result (λ joined. joined.items ≡ channels.now ++ more.now) }
{
    let mut joined = Vec::new(alloc);
    put_copies(alloc, &mut joined, channels)?;
    put_copies(alloc, &mut joined, more)?;
    Ok(joined)
}

impl ChannelChange {
    /// Whether it listens to more channels, and not to fewer.
    pub fn listens(&self) -> bool
        ensures { result ≡ listens self.now }
    {
        match self {
            ChannelChange::Listen(_) | ChannelChange::ListenAll(_) => true,
            ChannelChange::Unlisten(_) | ChannelChange::UnlistenAll => false,
        }
    }

    /// The statement that asks the server for it. An `Err` is want of memory.
    /// (PostgreSQL manual, "SQL Commands", LISTEN, UNLISTEN.)
    pub fn statement(&self, alloc: Global) -> Result<Text, Error>
        ensures text { IfOk result (λ text. text ≡ statement_of self.now) }
        ensures err { IfErr result (λ e. e ≡ Error.OutOfMemory) }
    {
        match self {
            ChannelChange::Listen(channel) => listen_text(alloc, channel.as_str()),
            ChannelChange::ListenAll(channels) => listen_each_text(alloc, channels.as_slice()),
            ChannelChange::Unlisten(channel) => unlisten_text(alloc, channel.as_str()),
            ChannelChange::UnlistenAll => unlisten_all_text(alloc),
        }
    }

    /// The channels behind it, where these were listened to before. An `Err` is want of memory.
    pub fn applied(&self, alloc: Global, channels: &[Text]) -> Result<Sequence<Text>, Error>
        ensures channels { IfOk result (λ next. next ≡ changed self.now channels.now) }
        ensures err { IfErr result (λ e. e ≡ Error.OutOfMemory) }
    {
        let next = match self {
            ChannelChange::Listen(channel) => {
                let mut next = joined(alloc, channels, &[])?;
                next.push(channel.to_copy(alloc)?)?;
                next
            }
            ChannelChange::ListenAll(more) => joined(alloc, channels, more.as_slice())?,
            ChannelChange::Unlisten(channel) => {
                without(joined(alloc, channels, &[])?, channel.as_str())
            }
            ChannelChange::UnlistenAll => Vec::new(alloc),
        };
        Ok(Sequence::from_vec(next))
    }
}
