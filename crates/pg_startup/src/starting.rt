ghost use Rattle.std.specs.Prelude.{◌≡◌, ◌≤◌, ℕ, false, true, IfOk, IfErr};
ghost use Rattle.pg_startup.specs.Establishing.{FirstPhase, IsBeginning, establish_by, phase_by, kept_link, ready_seen, asked_in, answered_in, IsKept, IsAskingPhase, IsGreetingPhase, IsLeft, GreetsWhere, Opens, Hands, SettlesOn, GreetsIn, GoesOn, PollsStart};

use crate::asking::Asking;
use crate::client::Client;
use crate::greeting::Greeting;
use crate::stage::Session;
use pg_auth::TlsPlan;
use pg_stream::{CALLS_MAX, Link, PgStream};
use pg_wire::{Blob, Error, Poll, SslRequest};
use std::alloc::Global;
use std::marker::Model;
use std::mem;

/// Where a start-up keeps its link.
#[derive(Drop)]
pub(crate) enum Phase<L> {
    /// TLS is asked for.
    Asking(Asking<L>),
    /// The session begins.
    Greeting(Greeting<L>),
    /// The session was handed out.
    Gone,
}

/// What a session begins with: its stream, and how many bytes start-up sent and read.
#[derive(Drop)]
pub struct Ready<L> {
    pub stream: PgStream<L>,
    pub session: Session,
    pub sent: u64,
    pub read: u64,
}

impl<L> Model for Ready<L> {
    ghost use Rattle.pg_startup.specs.Handshake.{ReadyOf};

    ghost Value = { ReadyOf L };

    ghost view = { λ r. record { stream = r.stream; session = r.session; sent = r.sent; read = r.read } };
}

/// A start-up on its way to a session. It keeps its link until a poll hands the session out.
pub struct Establish<L> {
    alloc: Global,
    client: Client,
    plan: TlsPlan,
    message: Blob,
    phase: Phase<L>,
    is_finished: bool,
}

// By hand, so that whoever lets one go makes one call, and doesn't go through its parts.
impl<L: Drop> Drop for Establish<L> {
    fn drop(self) {
        let Establish {
            alloc: _,
            client: _,
            plan: _,
            message: _,
            phase: _,
            is_finished: _,
        } = self;
    }
}

impl<L> Model for Establish<L> {
    ghost use Rattle.std.specs.Prelude.{◌≡◌, false};
    ghost use Rattle.pg_startup.specs.Establishing.{EstablishOf, IsKept};

    ghost Value = { EstablishOf L };

    ghost view = { λ e. record { client = e.client; plan = e.plan; message = e.message; phase = e.phase; is_finished = e.is_finished } };

    ghost invariant = { λ e. e.is_finished ≡ false → IsKept e.phase };
}

// Puts a phase where there was none.
fn enter<L>(place: &mut Phase<L>, phase: Phase<L>)
    requires { place.old ≡ Phase.Gone }
    ensures { place.new ≡ phase }
{
    match mem::replace(place, phase) {
        Phase::Gone => {}
        Phase::Asking(_) => unreachable!(),
        Phase::Greeting(_) => unreachable!(),
    }
}

// The first phase over a link, or the link where there is no memory for it.
fn first_phase<L>(
    alloc: Global,
    link: L,
    plan: TlsPlan,
    message: &Blob,
) -> Result<Phase<L>, (Error, L)>
    ensures ok { IfOk result (FirstPhase link plan message.now) }
    ensures err { IfErr result (λ e. (e.0 ≡ Error.OutOfMemory) × (e.1 ≡ link)) }
{
    match plan {
        TlsPlan::Ask { required, wish } => Ok(Phase::Asking(Asking::new(link, required, wish))),
        TlsPlan::Plain => {
            let mut greeting = Greeting::new(alloc, link);
            match greeting.say(message) {
                Ok(()) => Ok(Phase::Greeting(greeting)),
                Err(e) => Err((e, greeting.into_link())),
            }
        }
    }
}

impl<L> Establish<L> {
    /// A start-up of which nothing is sent. Without memory the link comes back.
    pub(crate) fn begin(
        alloc: Global,
        link: L,
        client: Client,
        plan: TlsPlan,
        message: Blob,
    ) -> Result<Self, (Error, L)>
        ensures ok { IfOk result (IsBeginning link client plan message) }
        ensures err { IfErr result (λ e. (e.0 ≡ Error.OutOfMemory) × (e.1 ≡ link)) }
    {
        let phase = first_phase(alloc, link, plan, &message)?;
        Ok(Establish {
            alloc,
            client,
            plan,
            message,
            phase,
            is_finished: false,
        })
    }

    /// Whether a poll has answered.
    pub fn is_finished(&self) -> bool
        ensures { result ≡ self.now.is_finished }
    {
        self.is_finished
    }

    /// The link, which is gone exactly where a poll has answered the session.
    pub fn into_link(self) -> Option<L>
        ensures { result ≡ kept_link self.phase }
    {
        let Establish {
            alloc: _,
            client: _,
            plan: _,
            message: _,
            phase,
            is_finished: _,
        } = self;
        match phase {
            Phase::Asking(asking) => Some(asking.into_link()),
            Phase::Greeting(greeting) => Some(greeting.into_link()),
            Phase::Gone => None,
        }
    }

    // The session begins over the link of the question for TLS. Without memory for the startup message nothing is queued.
    fn open(&mut self) -> Result<(), Error>
        requires { IsAskingPhase self.old.phase }
        ensures same { self.new ≡ record self.old { phase = self.new.phase } }
        ensures opens { Opens self.old.message self.old.phase self.new.phase result }
    {
        match mem::replace(&mut self.phase, Phase::Gone) {
            Phase::Asking(asking) => {
                let mut greeting = Greeting::new(self.alloc, asking.into_link());
                let said = greeting.say(&self.message);
                enter(&mut self.phase, Phase::Greeting(greeting));
                said
            }
            _ => unreachable!(),
        }
    }

    // The session, with the stream that it begins on.
    fn hand_out(&mut self, session: Session) -> Ready<L>
        requires { IsGreetingPhase self.old.phase }
        ensures ready { Hands self.old session result }
        ensures now { self.new ≡ record self.old { phase = Phase.Gone; is_finished = true } }
    {
        match mem::replace(&mut self.phase, Phase::Gone) {
            Phase::Greeting(greeting) => {
                self.is_finished = true;
                let (asked, answered) = self.asked();
                let (stream, said) = greeting.into_parts();
                Ready {
                    sent: said.saturating_add(asked),
                    read: stream.taken().saturating_add(answered),
                    stream,
                    session,
                }
            }
            _ => unreachable!(),
        }
    }

    // The bytes of the question for TLS and of its answer.
    fn asked(&self) -> (u64, u64)
        ensures { result ≡ (asked_in self.now.plan, answered_in self.now.plan) }
    {
        match self.plan {
            TlsPlan::Plain => (0, 0),
            TlsPlan::Ask { .. } => (SslRequest::BYTES.len() as u64, 1),
        }
    }
}

impl<L: Link> Establish<L> {
    // Settles TLS, where it is asked for.
    fn settle(&mut self, left: &mut u16) -> Poll<Result<(), Error>>
        requires { self.old.is_finished ≡ false }
        ensures holds { IsKept self.new.phase }
        ensures kept { GreetsWhere result self.new.phase }
        ensures same { self.new ≡ record self.old { phase = self.new.phase } }
        ensures settles { SettlesOn left.old left.new (establish_by L.seen self.old) (phase_by L.seen self.new.phase) result }
    {
        let Phase::Asking(asking) = &mut self.phase else {
            return Poll::Ready(Ok(()));
        };
        match asking.poll(left) {
            Poll::Pending => Poll::Pending,
            Poll::Ready(Err(e)) => Poll::Ready(Err(e)),
            Poll::Ready(Ok(())) => Poll::Ready(self.open()),
        }
    }

    // Takes the messages up to the session.
    fn greet(&mut self, left: &mut u16) -> Poll<Result<Session, Error>>
        requires left { left.old ≤ 256 }
        requires phase { IsGreetingPhase self.old.phase }
        ensures kept { IsGreetingPhase self.new.phase }
        ensures fewer { left.new ≤ left.old }
        ensures same { self.new ≡ record self.old { phase = self.new.phase } }
        ensures greets { GreetsIn self.old.client left.old left.new (phase_by L.seen self.old.phase) (phase_by L.seen self.new.phase) result }
    {
        let Phase::Greeting(greeting) = &mut self.phase else {
            unreachable!()
        };
        greeting.poll(self.alloc, &self.client, left)
    }

    // Settles TLS, and then takes the messages up to the session.
    fn go_on(&mut self, left: &mut u16) -> Poll<Result<Session, Error>>
        requires left { left.old ≤ 256 }
        requires goes { self.old.is_finished ≡ false }
        ensures holds { IsKept self.new.phase }
        ensures kept { GreetsWhere result self.new.phase }
        ensures same { self.new ≡ record self.old { phase = self.new.phase } }
        ensures on { GoesOn left.old left.new (establish_by L.seen self.old) (phase_by L.seen self.new.phase) result }
    {
        match self.settle(left) {
            Poll::Pending => Poll::Pending,
            Poll::Ready(Err(e)) => Poll::Ready(Err(e)),
            Poll::Ready(Ok(())) => self.greet(left),
        }
    }

    /// Moves the start-up on, by at most 256 calls of the link.
    pub fn poll(&mut self) -> Poll<Result<Ready<L>, Error>>
        requires { self.old.is_finished ≡ false }
        ensures left { IsLeft self.new result }
        ensures polls { (left : ℕ) × PollsStart 256 left (establish_by L.seen self.old) (establish_by L.seen self.new) (ready_seen L.seen result) }
    {
        let mut left = CALLS_MAX;
        self.poll_within(&mut left)
    }

    /// The same within so many calls of the link, of which it takes off as many as it makes.
    pub fn poll_within(&mut self, left: &mut u16) -> Poll<Result<Ready<L>, Error>>
        requires left { left.old ≤ 256 }
        requires goes { self.old.is_finished ≡ false }
        ensures left { IsLeft self.new result }
        ensures polls { PollsStart left.old left.new (establish_by L.seen self.old) (establish_by L.seen self.new) (ready_seen L.seen result) }
    {
        match self.go_on(left) {
            Poll::Pending => Poll::Pending,
            Poll::Ready(Err(e)) => {
                self.is_finished = true;
                Poll::Ready(Err(e))
            }
            Poll::Ready(Ok(session)) => Poll::Ready(Ok(self.hand_out(session))),
        }
    }
}
