ghost use Rattle.std.specs.Prelude.{◌≡◌, ◌≢◌, ◌<◌, None, true, false, IfOk, IfErr, IfSome, OnErr};
ghost use Rattle.pg_wire.specs.Decoding.{IsRefused};
ghost use Rattle.pg_call.specs.Calls.{owes_own, EndsBy, IsAwaiting, PassesOf, PassesRowOf, ShowsRowOf, StaysIn, TakesMessage, RefusesMessage};
ghost use Rattle.pg_call.specs.Hearing.{Drains, Closes, ClosesBy, RefusesCopy, Follows, IsOpen, IsReplied, fed_whole, asked_in, awaits, collects, just, keeps_now, looks_up, marked, sent_answer, shows_now, waits, without_asked};

use crate::{
    Beat, Call, CallAnswer, CallItem, Heard, How, Kind, Ledger, Part, Reply, Request, Rest, Taken,
    Waiting,
};
use pg_rows::PgRow;
use pg_wire::{
    Blob, Error, Frame, ProtocolFault, TransactionStatus, decode_error_response,
    decode_ready_for_query,
};
use std::alloc::Global;
use std::mem;

/// The running call, and the replies that are owed.
pub struct Running {
    pub ledger: Ledger,
    pub call: Call,
}

// By hand, so that whoever lets one go makes one call, and doesn't go through its parts.
impl Drop for Running {
    fn drop(self) {
        let Running { ledger: _, call: _ } = self;
    }
}

// A message for which no CopyFail is due.
fn plain(beat: Beat) -> Taken
    ensures { result ≡ record { beat = beat; fails_copy = false } }
{
    Taken {
        beat,
        fails_copy: false,
    }
}

// What is asked stands as frames, and waits.
fn waiting(call: Call, frames: Blob, is_copy_failed: bool) -> Call
    ensures { result ≡ waits frames is_copy_failed call }
{
    match call {
        Call::Asked(request) => {
            let kind = request.kind();
            let part = Part::first(&request);
            let (rest, heading) = request.into_parts(kind);
            Call::Waiting(Waiting {
                kind,
                part,
                frames,
                is_copy_failed,
                rest,
                heading,
            })
        }
        call => call,
    }
}

// What is asked, and what stands in its place.
fn taken(call: Call) -> (Option<Request>, Call)
    ensures { result ≡ (asked_in call, without_asked call) }
{
    match call {
        Call::Asked(request) => (Some(request), Call::Idle),
        call => (None, call),
    }
}

// What is answered where nothing is left but to send.
fn sent(call: Call) -> CallAnswer
    ensures { result ≡ sent_answer call }
{
    match call {
        Call::Asked(request) => request.into_answer(),
        Call::Waiting(waiting) => waiting.into_answer(),
        _ => CallAnswer::Unit,
    }
}

impl Running {
    /// No call runs, and nothing is owed.
    pub fn new() -> Self
        ensures { result ≡ record { ledger = record { owed = 0; is_copy_failed = false }; call = Call.Idle } }
    {
        Running {
            ledger: Ledger::new(),
            call: Call::Idle,
        }
    }

    /// What is asked, which is taken out where it was not begun yet.
    pub fn take_asked(&mut self) -> Option<Request>
        ensures asked { result ≡ asked_in self.old.call }
        ensures now { self.new ≡ record self.old { call = without_asked self.old.call } }
    {
        let (request, call) = taken(mem::replace(&mut self.call, Call::Idle));
        self.call = call;
        request
    }

    // No call runs any more.
    fn stop(&mut self)
        ensures { self.new ≡ record self.old { call = Call.Idle } }
    {
        self.call = Call::Idle;
    }

    /// The frames of what is asked are written, and wait.
    pub fn wait(&mut self, frames: Blob)
        ensures { self.new ≡ record self.old { call = waits frames self.old.ledger.is_copy_failed self.old.call } }
    {
        let failed = self.ledger.is_copy_failed;
        match &self.call {
            Call::Asked(request) if request.is_raw() => {
                self.call = Call::Waiting(Waiting::of_raw(request, frames, failed));
            }
            _ => {
                let call = mem::replace(&mut self.call, Call::Idle);
                self.call = waiting(call, frames, failed);
            }
        }
    }

    /// The frames that waited are queued, and the reply to them is the only one that is owed.
    pub fn await_reply(&mut self, alloc: Global)
        ensures { self.new ≡ record { ledger = owes_own; call = awaits self.old.call } }
    {
        self.ledger = Ledger {
            owed: 1,
            is_copy_failed: false,
        };
        if let Call::Waiting(waiting) = &mut self.call {
            self.call = Call::Own(waiting.reply(alloc));
        }
    }

    // The call ends.
    fn end(&mut self, answer: Result<CallAnswer, Error>) -> Taken
        ensures beat { result ≡ record { beat = Beat.Ends answer; fails_copy = false } }
        ensures idle { self.new ≡ record self.old { call = Call.Idle } }
    {
        self.stop();
        plain(Beat::Ends(answer))
    }

    /// Nothing is left but to send, and that is done: the call ends, and this is its answer.
    pub fn end_sent(&mut self) -> CallAnswer
        ensures answer { result ≡ sent_answer self.old.call }
        ensures idle { self.new ≡ record self.old { call = Call.Idle } }
    {
        sent(mem::replace(&mut self.call, Call::Idle))
    }

    /// Whether a copy from the client is open: its data is awaited.
    pub fn is_open(&self) -> bool
        ensures yes { result ≡ true → IsOpen self.now.call }
        ensures no { result ≡ false → IsOpen self.now.call → ⊥ }
    {
        match &self.call {
            Call::Own(reply) => matches!(reply.part, Part::Feeding(false)),
            Call::Idle | Call::Asked(_) | Call::Waiting(_) | Call::Closing => false,
        }
    }

    /// All of its data is sent: the reply goes on.
    pub fn end_feed(&mut self)
        ensures { self.new ≡ record self.old { call = fed_whole self.old.call } }
    {
        if let Call::Own(reply) = &mut self.call {
            reply.end_feed();
        }
    }

    // Marks whether a CopyFail was queued for the reply that is drained now.
    fn mark(&mut self, failed: bool)
        ensures { self.new ≡ record self.old { call = marked failed self.old.call } }
    {
        if let Call::Waiting(waiting) = &mut self.call {
            waiting.is_copy_failed = failed;
        }
    }

    // A reply to an earlier call has come to its end.
    fn drain_ready(&mut self, body: &[u8]) -> Result<Taken, Error>
        requires { 0 < self.old.ledger.owed }
        ensures ok { IfOk result (Drains 90 body.now true self.old self.new) }
        ensures ended { IfOk result (Drains 90 body.now false self.old self.new) }
        ensures err { IfErr result (λ e. (self.new ≡ self.old) × IsRefused 90 body.now e) }
    {
        let _ = decode_ready_for_query(body)?;
        self.ledger.take_ready();
        self.mark(false);
        Ok(plain(Beat::More))
    }

    // A reply to an earlier call has failed.
    fn drain_error(&mut self, alloc: Global, body: &[u8]) -> Result<Taken, Error>
        ensures ok { IfOk result (Drains 69 body.now true self.old self.new) }
        ensures ended { IfOk result (Drains 69 body.now false self.old self.new) }
        ensures err { IfErr result (λ e. (self.new ≡ self.old) × IsRefused 69 body.now e) }
    {
        let error = decode_error_response(alloc, body)?;
        Ok(self.end(Err(Error::Database(error))))
    }

    // A message of a reply to an earlier call: only its errors, its end and a copy from the client are looked at.
    fn drain(&mut self, alloc: Global, failed: bool, tag: u8, body: &[u8]) -> Result<Taken, Error>
        requires owed { 0 < self.old.ledger.owed }
        requires failed { marked failed self.old.call ≡ self.old.call }
        ensures ok { IfOk result (Drains tag body.now failed self.old self.new) }
        ensures err { IfErr result (λ e. (self.new ≡ self.old) × IsRefused tag body.now e) }
    {
        match tag {
            b'Z' => self.drain_ready(body),
            b'E' => self.drain_error(alloc, body),
            b'G' => {
                self.mark(true);
                Ok(Taken {
                    beat: Beat::More,
                    fails_copy: !failed,
                })
            }
            _ => Ok(plain(Beat::More)),
        }
    }

    // The own reply has come to its end. It was the last that was owed.
    fn close(&mut self, status: TransactionStatus) -> Taken
        requires { IsReplied self.old.call }
        ensures { Closes status self.old self.new result }
    {
        plain(self.finish(status))
    }

    // Another reply comes than the one that is awaited: a copy from the client is ended at once.
    fn refuse_stray(&mut self, tag: u8) -> Taken
        ensures { RefusesCopy tag self.old self.new result }
    {
        let fails_copy = tag == b'G';
        self.stop();
        self.ledger.is_copy_failed = fails_copy;
        Taken {
            beat: Beat::Ends(Err(Error::Protocol(ProtocolFault::Reply { tag }))),
            fails_copy,
        }
    }

    // What a message of the own reply makes of the call.
    fn follow(&mut self, tag: u8, heard: Heard) -> Taken
        requires { IsReplied self.old.call }
        ensures { Follows tag heard self.old self.new result }
    {
        match heard {
            Heard::More => plain(Beat::More),
            Heard::Yields(item) => plain(Beat::Yields(item)),
            Heard::Opens(data) => plain(Beat::Opens(data)),
            Heard::Failed(error) => self.end(Err(Error::Database(error))),
            Heard::Closed(status) => self.close(status),
            Heard::Strays => self.refuse_stray(tag),
        }
    }

    // Takes one message of any kind.
    fn take_any(&mut self, alloc: Global, tag: u8, body: &[u8]) -> Result<Taken, Error>
        requires { IsAwaiting self.old.ledger self.old.call }
        ensures ok { IfOk result (TakesMessage tag body.now self.old self.new) }
        ensures copy { IfOk result (λ taken. taken.fails_copy ≡ true → tag ≡ 71) }
        ensures goes { IfOk result (λ taken. taken.beat ≢ Beat.Waits) }
        ensures stays { IfOk result (λ taken. StaysIn self.old.call taken.fails_copy self.new.call) }
        ensures err { IfErr result (RefusesMessage tag body.now self.old) }
        ensures ledger { OnErr result (self.new.ledger ≡ self.old.ledger) }
    {
        match &mut self.call {
            Call::Idle | Call::Asked(_) | Call::Closing => Ok(plain(Beat::More)),
            Call::Waiting(waiting) => {
                let failed = waiting.is_copy_failed;
                self.drain(alloc, failed, tag, body)
            }
            Call::Own(reply) => match reply.take(alloc, tag, body) {
                Ok(Heard::More) => Ok(plain(Beat::More)),
                Ok(heard) => Ok(self.follow(tag, heard)),
                Err(e) => Err(e),
            },
        }
    }

    /// Takes one message that is no asynchronous one. An `Err` leaves it where it is: it is the server's fault, or want of
    /// memory.
    pub fn take(&mut self, alloc: Global, tag: u8, body: &[u8]) -> Result<Taken, Error>
        requires { IsAwaiting self.old.ledger self.old.call }
        ensures ok { IfOk result (TakesMessage tag body.now self.old self.new) }
        ensures copy { IfOk result (λ taken. taken.fails_copy ≡ true → tag ≡ 71) }
        ensures goes { IfOk result (λ taken. taken.beat ≢ Beat.Waits) }
        ensures stays { IfOk result (λ taken. StaysIn self.old.call taken.fails_copy self.new.call) }
        ensures err { IfErr result (RefusesMessage tag body.now self.old) }
        ensures ledger { OnErr result (self.new.ledger ≡ self.old.ledger) }
    {
        if tag != b'Z' {
            return self.take_any(alloc, tag, body);
        }
        match self.ends(body) {
            Some(beat) => Ok(plain(beat)),
            None => self.take_any(alloc, tag, body),
        }
    }

    /// Whether a row that comes now is one of the own reply, and shown or kept.
    pub fn keeps_rows(&self) -> bool
        ensures own { result ≡ true → IsReplied self.now.call }
        ensures kept { result ≡ keeps_now self.now.call }
    {
        match &self.call {
            Call::Own(reply) => reply.keeps_rows(),
            Call::Idle | Call::Asked(_) | Call::Waiting(_) | Call::Closing => false,
        }
    }

    /// Whether the own reply is that to a lookup.
    pub fn looks_up(&self) -> bool
        ensures { result ≡ looks_up self.now.call }
    {
        match &self.call {
            Call::Own(reply) => matches!(reply.rest, Rest::Look(_) | Rest::Fill(_)),
            Call::Idle | Call::Asked(_) | Call::Waiting(_) | Call::Closing => false,
        }
    }

    /// Whether all rows of the own reply are kept for its answer.
    pub fn collects(&self) -> bool
        ensures { result ≡ collects self.now.call }
    {
        match &self.call {
            Call::Own(reply) => matches!(reply.kind, Kind::Run(How::FetchAll)),
            Call::Idle | Call::Asked(_) | Call::Waiting(_) | Call::Closing => false,
        }
    }

    /// Takes a row of the own reply of which nothing is kept or learnt, where it is one and may come: whether it did. Else nothing has changed.
    pub fn passes_row(&mut self, body: &[u8]) -> bool
        ensures yes { result ≡ true → PassesRowOf body.now self.old self.new }
        ensures no { result ≡ false → self.new ≡ self.old }
    {
        if self.looks_up() {
            return false;
        }
        match &mut self.call {
            Call::Own(reply) => reply.passes_row(body),
            Call::Idle | Call::Asked(_) | Call::Waiting(_) | Call::Closing => false,
        }
    }

    /// The same of a row that is kept for the answer with all others, and cut from its frame, where there is memory for it.
    pub fn keeps_row(&mut self, alloc: Global, frame: Frame) -> bool
        ensures yes { result ≡ true → PassesRowOf frame.body self.old self.new }
        ensures no { result ≡ false → self.new ≡ self.old }
    {
        if self.looks_up() {
            return false;
        }
        match &mut self.call {
            Call::Own(reply) => match reply.kind {
                Kind::Run(How::FetchAll) => reply.keeps_row(alloc, frame),
                _ => false,
            },
            Call::Idle | Call::Asked(_) | Call::Waiting(_) | Call::Closing => false,
        }
    }

    /// The same of columns, and of the end of a statement whose count is not shown at once.
    pub fn passes(&mut self, alloc: Global, tag: u8, body: &[u8]) -> bool
        ensures yes { result ≡ true → PassesOf tag body.now self.old self.new }
        ensures no { result ≡ false → self.new ≡ self.old }
    {
        match &mut self.call {
            Call::Own(reply) => reply.passes(alloc, tag, body),
            Call::Idle | Call::Asked(_) | Call::Waiting(_) | Call::Closing => false,
        }
    }

    // The status that the end of the own reply tells, where it may end.
    fn closing(&self, body: &[u8]) -> Option<TransactionStatus>
        ensures { IfSome result (λ status. ClosesBy status body.now self.now.call) }
    {
        match &self.call {
            Call::Own(reply) => reply.closing(body),
            Call::Idle | Call::Asked(_) | Call::Waiting(_) | Call::Closing => None,
        }
    }

    // The own reply has come to its end, which comes to this.
    fn finish(&mut self, status: TransactionStatus) -> Beat
        requires { IsReplied self.old.call }
        ensures { Closes status self.old self.new (just result) }
    {
        match mem::replace(&mut self.call, Call::Idle) {
            Call::Own(reply) => {
                self.ledger = Ledger::new();
                reply.finish(status)
            }
            _ => unreachable!(),
        }
    }

    // Takes the end of the own reply, where it may come: what it comes to. Else nothing has changed.
    fn ends(&mut self, body: &[u8]) -> Option<Beat>
        ensures ends { IfSome result (λ beat. EndsBy body.now beat self.old self.new) }
        ensures none { result ≡ None → self.new ≡ self.old }
    {
        match self.closing(body) {
            Some(status) => Some(self.finish(status)),
            None => None,
        }
    }

    /// Whether each row of the own reply is shown as it comes.
    pub fn shows_rows(&self) -> bool
        ensures { result ≡ shows_now self.now.call }
    {
        match &self.call {
            Call::Own(reply) => reply.kind.shows_rows(),
            Call::Idle | Call::Asked(_) | Call::Waiting(_) | Call::Closing => false,
        }
    }

    /// The same of a row that is shown at once, which is handed out.
    pub fn shows_row(&mut self, alloc: Global, frame: Frame) -> Option<PgRow>
        ensures shown { IfSome result (λ row. ShowsRowOf frame.body row self.old self.new) }
        ensures none { result ≡ None → self.new ≡ self.old }
    {
        if self.looks_up() {
            return None;
        }
        match &mut self.call {
            Call::Own(reply) if reply.kind.shows_rows() => reply.shows_row(alloc, frame),
            _ => None,
        }
    }

    /// What a row makes of the call, which is one of the own reply and is cut from its frame. An `Err` leaves it where it is.
    pub fn take_row(&mut self, alloc: Global, frame: Frame) -> Result<Taken, Error>
        requires { IsReplied self.old.call }
        ensures ok { IfOk result (TakesMessage 68 frame.body self.old self.new) }
        ensures copy { IfOk result (λ taken. taken.fails_copy ≡ false) }
        ensures goes { IfOk result (λ taken. taken.beat ≢ Beat.Waits) }
        ensures stays { IfOk result (λ taken. StaysIn self.old.call taken.fails_copy self.new.call) }
        ensures err { IfErr result (RefusesMessage 68 frame.body self.old) }
        ensures ledger { OnErr result (self.new.ledger ≡ self.old.ledger) }
    {
        match &mut self.call {
            Call::Own(reply) => match reply.take_row(alloc, frame) {
                Ok(Heard::More) => Ok(plain(Beat::More)),
                Ok(heard) => Ok(self.follow(b'D', heard)),
                Err(e) => Err(e),
            },
            _ => unreachable!(),
        }
    }
}
