ghost use Rattle.std.specs.Prelude.{◌≡◌, ◌≤◌, IfErr, OnOk, OnErr};
ghost use Rattle.pg_stream.specs.Streams.{IsHeardFront};
ghost use Rattle.pg_startup.specs.Greeting.{greeting_by, fresh_greeting, session_at, SaysMore, TakesAt, AnswersFront, RefusesFront, GreetsOnce, GreetsTo, PollsGreeting};

use crate::client::Client;
use crate::stage::{Session, Stage};
use pg_stream::{Front, Link, PgStream};
use pg_wire::{Blob, Error, Poll};
use std::alloc::Global;
use std::marker::Model;

/// A session that begins: what is said and heard from the startup message on.
#[derive(Drop)]
pub(crate) struct Greeting<L> {
    stream: PgStream<L>,
    stage: Stage,
    said: u64,
}

impl<L> Model for Greeting<L> {
    ghost use Rattle.pg_startup.specs.Greeting.{GreetingOf};

    ghost Value = { GreetingOf L };

    ghost view = { λ g. record { stream = g.stream; stage = g.stage; said = g.said } };
}

impl<L> Greeting<L> {
    /// A session of which nothing is said.
    pub(crate) fn new(alloc: Global, link: L) -> Self
        ensures { result ≡ fresh_greeting link }
    {
        Greeting {
            stream: PgStream::new(alloc, link),
            stage: Stage::Request,
            said: 0,
        }
    }

    pub(crate) fn into_link(self) -> L
        ensures { result ≡ self.stream.link }
    {
        let Greeting {
            stream,
            stage: _,
            said: _,
        } = self;
        stream.into_link()
    }

    /// The stream behind the session's beginning, and how many bytes were queued on it.
    pub(crate) fn into_parts(self) -> (PgStream<L>, u64)
        ensures { result ≡ (self.stream, self.said) }
    {
        let Greeting {
            stream,
            stage: _,
            said,
        } = self;
        (stream, said)
    }

    /// Says more, all or nothing.
    pub(crate) fn say(&mut self, text: &Blob) -> Result<(), Error>
        ensures ok { OnOk result (SaysMore text.now self.old self.new) }
        ensures err { OnErr result (self.new ≡ self.old) }
        ensures memory { IfErr result (λ e. e ≡ Error.OutOfMemory) }
    {
        self.stream.queue(text)?;
        self.said = self.said.saturating_add(text.len() as u64);
        Ok(())
    }

    // Takes the message at the front, which the exchange answers so.
    fn take(&mut self, front: Front, next: Stage)
        requires { IsHeardFront self.old.stream.held front }
        ensures { TakesAt front next self.old self.new }
    {
        self.stream.pass(front);
        self.stage = next;
    }

    // What has begun, where the exchange is over.
    fn session(&self) -> Option<Session>
        ensures { result ≡ session_at self.now.stage }
    {
        match &self.stage {
            Stage::Begun(session) => Some(*session),
            _ => None,
        }
    }

    // Answers the message at the front, and takes it; one that is refused stays.
    fn answer(&mut self, alloc: Global, client: &Client, front: Front) -> Result<(), Error>
        requires { IsHeardFront self.old.stream.held front }
        ensures ok { OnOk result (AnswersFront client.now front self.old self.new) }
        ensures err { OnErr result (self.new ≡ self.old) }
        ensures cause { IfErr result (RefusesFront client.now front self.old) }
    {
        let body = self.stream.body(front);
        let reply = self.stage.hear(alloc, client, front.tag, body)?;
        self.say(&reply.text)?;
        self.take(front, reply.next);
        Ok(())
    }
}

impl<L: Link> Greeting<L> {
    // Takes one message of the server, or answers.
    fn greet_once(&mut self, alloc: Global, client: &Client) -> Option<Poll<Result<Session, Error>>>
        ensures { GreetsOnce client.now (greeting_by L.seen self.old) (greeting_by L.seen self.new) result }
    {
        if let Some(session) = self.session() {
            return Some(Poll::Ready(Ok(session)));
        }
        match self.stream.poll_ahead(alloc) {
            Poll::Pending => Some(Poll::Pending),
            Poll::Ready(Err(e)) => Some(Poll::Ready(Err(e))),
            Poll::Ready(Ok(front)) => match self.answer(alloc, client, front) {
                Ok(()) => None,
                Err(e) => Some(Poll::Ready(Err(e))),
            },
        }
    }

    // Takes messages until the session has begun.
    fn greet(&mut self, alloc: Global, client: &Client) -> Poll<Result<Session, Error>>
        ensures { GreetsTo client.now (greeting_by L.seen self.old) (greeting_by L.seen self.new) result }
    {
        loop {
            if let Some(answer) = self.greet_once(alloc, client) {
                return answer;
            }
        }
    }

    /// Moves the session's beginning on, within so many calls of the link.
    pub(crate) fn poll(
        &mut self,
        alloc: Global,
        client: &Client,
        left: &mut u16,
    ) -> Poll<Result<Session, Error>>
        requires { left.old ≤ 256 }
        ensures { PollsGreeting client.now left.old left.new (greeting_by L.seen self.old) (greeting_by L.seen self.new) result }
    {
        self.stream.begin_poll(256 - *left);
        let answer = self.greet(alloc, client);
        *left = self.stream.left();
        answer
    }
}
