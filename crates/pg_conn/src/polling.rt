ghost use Rattle.std.specs.Prelude.{◌≡◌, ◌≢◌, ◌+◌, ◌*◌, ◌-◌, ◌<◌, ◌≤◌, ◌⊎◌, ◌==◌, ◌&&◌, true, false, [], None, IsSome, IfSome, OnOk, OnErr, IfOk, IfErr};
ghost use Rattle.pg_stream.specs.Links.{GrewBy};
ghost use Rattle.pg_stream.specs.Streams.{IsHeardFront, Passes};
ghost use Rattle.pg_conn.specs.Connections.{seen_by, ended, ends_copy, idle, begun_with, begun_by, is_over, runs, with_spare, queued_call, awaiting, closing, resolved};
ghost use Rattle.pg_call.specs.Calls.{IsAwaiting};
ghost use Rattle.pg_call.specs.Hearing.{IsReplied, keeps_now, looks_up, sent_answer, waits};
ghost use Rattle.pg_call.specs.declared.kind.Kind as declared_kind;
ghost use Rattle.pg_call.specs.declared.request.Request as declared_request;
ghost use Rattle.pg_conn.specs.States.{IsCalling, PollFits};
ghost use Rattle.std.specs.declared.result.Result.{Result as ResultOf};
ghost use Rattle.pg_wire.specs.declared.error.Error.{Error as ErrorOf};
ghost use Rattle.pg_conn.specs.Connections.{ConnOf};
ghost use Rattle.pg_conn.specs.Turns.{LearnsFront, LearnsFrom, PassesFront, ShowsAtOnce, ShowsFront, TakesHeard, TakesIn, level_of, kept_for, TakesBeat, Falls, GoesOn, HearsFront, Prepares, Readies, Refuses, Accepts, IsAsked, IsSayable, EndsPoll, Refused, IsAhead, only_sends, flushes, is_flushed, EndsFlush, queued_copy_fail, Polled, PollsOn, PollsThrough, PollsWithin, PollsCall, PollsMore, beat_of, behind, broken_by};

use crate::connection::COPY_FAIL;
use crate::{PgConnection, Request, Turn};
use pg_call::{Beat, Call, CallAnswer, CallItem, Kind, Taken};
use pg_rows::PgRow;
use pg_stream::{Front, Link};
use pg_wire::{Blob, Error, Poll, ProtocolFault, ServerFault, decode_data_row};

/// The bytes that are kept for the cleanup of a call that has queued a group.
pub(crate) const RESERVE: usize = 128;

// The fault of the server that an error tells: it breaks the connection.
pub(crate) fn fault_in(error: &Error) -> Option<ServerFault>
    ensures { result ≡ broken_by (Beat.Ends (Err error.now)) }
{
    match error {
        Error::Protocol(ProtocolFault::Server(fault)) => Some(*fault),
        _ => None,
    }
}

// Whether an error has ended a copy from the client, or the CopyFail for it is queued already.
fn ends_copy(error: &Error) -> bool
    ensures { result ≡ ends_copy error.now }
{
    match error {
        Error::Database(_) => true,
        Error::Protocol(ProtocolFault::Reply { tag }) => *tag == b'G',
        _ => false,
    }
}

// What a poll answers by its last beat.
fn answer_of(beat: Beat) -> Poll<Turn>
    requires { EndsPoll beat }
    ensures { beat_of result ≡ beat }
{
    match beat {
        Beat::Waits => Poll::Pending,
        Beat::Yields(item) => Poll::Ready(Turn::Item(item)),
        Beat::Opens(data) => Poll::Ready(Turn::Opened(data)),
        Beat::Ends(Ok(answer)) => Poll::Ready(Turn::Ok(answer)),
        Beat::Ends(Err(e)) => Poll::Ready(Turn::Err(e)),
        Beat::More | Beat::HandsOn(_) => unreachable!(),
    }
}

impl<L> PgConnection<L> {
    // The call ends.
    fn stop(&mut self, answer: Result<CallAnswer, Error>) -> Beat
        ensures beat { result ≡ Beat.Ends answer }
        ensures now { self.new ≡ idle self.old }
    {
        self.turn_to(Call::Idle);
        Beat::Ends(answer)
    }

    // All is sent, and the call ends with its answer.
    fn end_sent(&mut self) -> Beat
        ensures beat { result ≡ Beat.Ends (Ok (sent_answer self.old.call)) }
        ensures now { self.new ≡ idle self.old }
    {
        Beat::Ends(Ok(self.running.end_sent()))
    }

    // The frames of the call are written, and wait.
    fn wait(&mut self, frames: Blob)
        ensures { self.new ≡ record self.old { call = waits frames self.old.ledger.is_copy_failed self.old.call } }
    {
        self.running.wait(frames);
    }

    // The frames of the call are queued, which end one group.
    fn await_reply(&mut self)
        ensures now { self.new ≡ awaiting self.new.groups self.old }
        ensures groups { GrewBy 1 self.old.groups self.new.groups }
    {
        self.running.await_reply(self.alloc);
        self.groups = self.groups.saturating_add(1);
    }

    // The last frame of the call is queued, which ends no group.
    fn await_sent(&mut self)
        ensures { self.new ≡ closing self.old }
    {
        self.turn_to(Call::Closing);
    }

    // Whether nothing is left to do but to send.
    fn only_sends(&self) -> bool
        ensures { result ≡ only_sends self.now.ledger self.now.call }
    {
        match &self.running.call {
            Call::Waiting(waiting) => { waiting.kind.is_flush() && self.running.ledger.owed == 0 }
            Call::Closing => true,
            Call::Idle | Call::Asked(_) | Call::Own(_) => false,
        }
    }

    // Whether the call is a flush.
    fn flushes(&self) -> bool
        ensures { result ≡ flushes self.now.call }
    {
        match &self.running.call {
            Call::Asked(request) => matches!(request.kind(), Kind::Flush),
            Call::Waiting(waiting) => matches!(waiting.kind, Kind::Flush),
            Call::Idle | Call::Own(_) | Call::Closing => false,
        }
    }

    // Whether the call is a flush with nothing to do.
    fn is_flushed(&self) -> bool
        ensures { result ≡ is_flushed self.now }
    {
        self.flushes() && self.running.ledger.owed == 0 && self.stream.is_sent()
    }

    // The bytes of cleanup that are kept: these, and 64 for each transaction and savepoint that is open, and for each lock that is held.
    fn room(&self, bytes: usize) -> Option<u64>
        ensures { IfSome result (λ room. room ≡ kept_for self.now + bytes) }
    {
        let kept = self.transaction_depth().checked_add(self.held)?;
        let levels = kept.checked_mul(64)?;
        levels.checked_add(bytes as u64)
    }

    // Keeps room for so many bytes of cleanup, beside the rollbacks of the transactions and savepoints that are open, and the releases of the
    // locks that are held.
    pub(crate) fn reserve(&mut self, bytes: usize) -> Result<(), Error>
        requires { bytes ≤ 256 }
        ensures now { self.new ≡ with_spare self.new.stream.spare self.old }
        ensures spare { self.old.stream.spare ≤ self.new.stream.spare }
        ensures ok { OnOk result (kept_for self.new + bytes ≤ self.new.stream.spare) }
        ensures err { IfErr result (λ e. e ≡ Error.OutOfMemory) }
    {
        match self.room(bytes) {
            Some(room) => self.stream.reserve_cleanup(room as usize),
            None => Err(Error::OutOfMemory),
        }
    }

    // Keeps room for the cleanup of the call, and queues its frames.
    fn queue(&mut self) -> Result<(), Error>
        ensures ok { OnOk result (self.new ≡ queued_call self.new.stream.spare self.old) }
        ensures err { OnErr result (self.new ≡ with_spare self.new.stream.spare self.old) }
        ensures memory { IfErr result (λ e. e ≡ Error.OutOfMemory) }
        ensures spare { self.old.stream.spare ≤ self.new.stream.spare }
        ensures reserve { OnOk result (kept_for self.new + level_of self.new.change 1 + 128 ≤ self.new.stream.spare) }
    {
        let bytes = self.level(1) + RESERVE;
        self.reserve(bytes)?;
        if let Call::Waiting(waiting) = &self.running.call {
            self.stream.queue(&waiting.frames)?;
        }
        Ok(())
    }

    // Makes room for the CopyFail that a copy from the client may want, before the message that begins it is taken.
    fn make_room(&mut self, front: Front) -> Result<(), Error>
        ensures now { self.new ≡ with_spare self.new.stream.spare self.old }
        ensures spare { self.old.stream.spare ≤ self.new.stream.spare }
        ensures ok { OnOk result (front.tag ≡ 71 → kept_for self.new + level_of self.new.change self.new.groups + 57 ≤ self.new.stream.spare) }
        ensures err { IfErr result (λ e. e ≡ Error.OutOfMemory) }
    {
        if front.tag == b'G' {
            let bytes = self.level(self.groups) + COPY_FAIL.len();
            self.reserve(bytes)?;
        }
        Ok(())
    }

    // One more message was heard.
    fn count_heard(&mut self)
        ensures now { self.new ≡ record self.old { heard = self.new.heard } }
        ensures heard { GrewBy 1 self.old.heard self.new.heard }
    {
        self.heard = self.heard.saturating_add(1);
    }

    // Queues a CopyFail, for which room was made.
    fn fail_copy(&mut self)
        requires { 57 ≤ self.old.stream.spare }
        ensures { self.new ≡ record self.old { stream = queued_copy_fail true self.old.stream } }
    {
        self.stream.queue_cleanup(&COPY_FAIL);
    }

    // Allows so many calls of the link.
    pub(crate) fn allow(&mut self, left: u16)
        requires { left ≤ 256 }
        ensures { self.new ≡ begun_with left self.old }
    {
        self.stream.begin_poll(256 - left);
    }

    // The message at the front is taken.
    fn pass(&mut self, front: Front)
        requires { IsHeardFront self.old.stream.held front }
        ensures stream { Passes front self.old.stream self.new.stream }
        ensures now { self.new ≡ record self.old { stream = self.new.stream } }
    {
        self.stream.pass(front);
    }

    // The message at the front is taken, and a CopyFail queued behind it where one is due.
    fn accept(&mut self, front: Front, fails_copy: bool)
        requires front { IsHeardFront self.old.stream.held front }
        requires room { fails_copy ≡ true → 57 ≤ self.old.stream.spare }
        ensures { Accepts front fails_copy self.old self.new }
    {
        self.pass(front);
        self.count_heard();
        if fails_copy {
            self.fail_copy();
        }
    }

    // The call has ended by an error.
    fn fail(&mut self, error: &Error)
        ensures { self.new ≡ behind (Beat.Ends (Err error.now)) self.old }
    {
        self.broken = fault_in(error);
        self.unfeed(ends_copy(error));
        self.clean();
    }

    // What the end of an exchange makes of the connection.
    fn end_exchange(&mut self, beat: &Beat)
        ensures { self.new ≡ behind beat.now self.old }
    {
        match beat {
            Beat::Ends(Ok(_)) => self.settle(),
            Beat::HandsOn(_) => self.settle(),
            Beat::Ends(Err(e)) => self.fail(e),
            Beat::More | Beat::Waits | Beat::Yields(_) | Beat::Opens(_) => {}
        }
    }
}

impl<L: Link> PgConnection<L> {
    // Writes the frames of what is asked.
    fn write_frames(&mut self) -> Result<(), Error>
        ensures ok { OnOk result (Prepares (seen_by L.seen self.old) (seen_by L.seen self.new)) }
        ensures err { IfErr result (λ e. (self.new ≡ self.old) × Refuses self.old.call e) }
    {
        let Call::Asked(request) = &self.running.call else {
            return Ok(());
        };
        let frames = request.encode(self.alloc)?;
        self.wait(frames);
        Ok(())
    }

    // Queues the frames once nothing is owed before them.
    fn ask(&mut self) -> Result<(), Error>
        requires asked { IsAsked self.old.call → ⊥ }
        requires flushed { only_sends self.old.ledger self.old.call ≡ false }
        ensures ok { OnOk result (Readies (seen_by L.seen self.old) (seen_by L.seen self.new)) }
        ensures err { OnErr result (self.new ≡ with_spare self.new.stream.spare self.old) }
        ensures spare { self.old.stream.spare ≤ self.new.stream.spare }
        ensures memory { IfErr result (λ e. e ≡ Error.OutOfMemory) }
    {
        let Call::Waiting(waiting) = &self.running.call else {
            return Ok(());
        };
        if self.running.ledger.owed > 0 {
            return Ok(());
        }
        let kind = waiting.kind;
        self.queue()?;
        if kind.is_close() {
            self.await_sent();
            return Ok(());
        }
        self.await_reply();
        Ok(())
    }

    // Whether the message at the front is a row of the own reply that is shown or kept.
    fn keeps(&self, front: Front) -> bool
        ensures own { result ≡ true → (front.tag ≡ 68) × IsReplied self.now.call }
        ensures kept { result ≡ (front.tag == 68) && keeps_now self.now.call }
    {
        front.tag == b'D' && self.running.keeps_rows()
    }

    // What the row at the front makes of the call. It shares the storage in which it came.
    fn hear_row(&mut self, front: Front) -> Result<Taken, Error>
        requires tag { front.tag ≡ 68 }
        requires replied { IsReplied self.old.call }
        requires front { IsHeardFront self.old.stream.held front }
        ensures now { self.new ≡ record self.old { ledger = self.new.ledger; call = self.new.call } }
        ensures hears { HearsFront front self.old self.new result }
    {
        match self.stream.share(front) {
            Ok(frame) => self.running.take_row(self.alloc, frame),
            Err(_) => Err(Error::OutOfMemory),
        }
    }

    // Takes the message at the front, where it shows nothing at once and nothing is learnt from it, as far as the call goes: whether it did.
    fn takes_plainly(&mut self, front: Front) -> bool
        requires { IsHeardFront self.old.stream.held front }
        ensures yes { result ≡ true → PassesFront front self.old self.new }
        ensures no { result ≡ false → self.new ≡ self.old }
    {
        if front.tag != b'D' {
            return self
                .running
                .passes(self.alloc, front.tag, self.stream.body(front));
        }
        if !self.running.collects() {
            return self.running.passes_row(self.stream.body(front));
        }
        match self.stream.share(front) {
            Ok(frame) => self.running.keeps_row(self.alloc, frame),
            Err(_) => false,
        }
    }

    // The row that stands at the front of what is held, where the call shows its rows as they come.
    fn row_at_front(&self) -> Option<Front>
        ensures tag { IfSome result (λ front. front.tag ≡ 68) }
        ensures front { IfSome result (λ front. (self.now.stream.unsent ≡ []) × IsHeardFront self.now.stream.held front) }
    {
        if !self.running.shows_rows() {
            return None;
        }
        match self.stream.heard_front() {
            Some(front) if front.tag == b'D' => Some(front),
            _ => None,
        }
    }

    // Takes it, where nothing is learnt from it, as far as the call goes, and hands it out.
    fn shows_row(&mut self, front: Front) -> Option<PgRow>
        requires tag { front.tag ≡ 68 }
        requires front { IsHeardFront self.old.stream.held front }
        ensures shown { IfSome result (λ row. ShowsFront front row self.old self.new) }
        ensures none { result ≡ None → self.new ≡ self.old }
    {
        match self.stream.share(front) {
            Ok(frame) => self.running.shows_row(self.alloc, frame),
            Err(_) => None,
        }
    }

    // The same, and counts it as heard: it is all that a poll within so many calls of the link does.
    fn show_at_once(&mut self, left: u16) -> Option<PgRow>
        requires { left ≤ 256 }
        ensures shown { IfSome result (λ row. ShowsAtOnce (seen_by L.seen (begun_with left self.old)) (seen_by L.seen self.new) row) }
        ensures none { result ≡ None → self.new ≡ self.old }
    {
        let Some(front) = self.row_at_front() else {
            return None;
        };
        let row = self.shows_row(front);
        if row.is_none() {
            return None;
        }
        self.allow(left);
        self.accept(front, false);
        row
    }

    // What the message at the front makes of the call.
    fn hear_front(&mut self, front: Front) -> Result<Taken, Error>
        requires awaiting { IsAwaiting self.old.ledger self.old.call }
        requires front { IsHeardFront self.old.stream.held front }
        ensures now { self.new ≡ record self.old { ledger = self.new.ledger; call = self.new.call } }
        ensures hears { HearsFront front self.old self.new result }
    {
        if self.keeps(front) {
            return self.hear_row(front);
        }
        self.running
            .take(self.alloc, front.tag, self.stream.body(front))
    }

    // Takes what a row of a lookup tells. A row that was judged is one, so only want of memory keeps it from being read.
    fn learn(&mut self, front: Front) -> Result<(), Error>
        requires front { IsHeardFront self.old.stream.held front }
        requires tag { front.tag ≡ 68 }
        ensures now { self.new ≡ record self.old { learnt = self.new.learnt } }
        ensures takes { LearnsFront front self.old self.new result }
    {
        let Ok(values) = decode_data_row(self.alloc, self.stream.body(front)) else {
            return Err(Error::OutOfMemory);
        };
        self.learnt.take(self.alloc, &values)
    }

    // The same of any message: there is nothing in it unless it is a row of a lookup.
    fn learn_from(&mut self, front: Front) -> Result<(), Error>
        requires front { IsHeardFront self.old.stream.held front }
        ensures now { self.new ≡ record self.old { learnt = self.new.learnt } }
        ensures takes { LearnsFrom front self.old self.new result }
    {
        if front.tag == b'D' && self.running.looks_up() {
            return self.learn(front);
        }
        Ok(())
    }

    // A message that may come is taken, and what it tells of a lookup.
    fn take_in(&mut self, front: Front, taken: Taken) -> Beat
        requires front { IsHeardFront self.old.stream.held front }
        requires room { taken.fails_copy ≡ true → 57 ≤ self.old.stream.spare }
        ensures { (m : ConnOf L) × (learnt : ResultOf (Unit {0}) ErrorOf) × LearnsFrom front self.old m learnt × TakesIn front taken m self.new learnt result }
    {
        let learnt = self.learn_from(front);
        self.accept(front, taken.fails_copy);
        match learnt {
            Ok(()) => taken.beat,
            Err(e) => self.stop(Err(e)),
        }
    }

    // Whether the own reply is awaited.
    fn is_replied(&self) -> bool
        ensures { result ≡ true → IsReplied self.now.call }
    {
        match &self.running.call {
            Call::Own(_) => true,
            Call::Idle | Call::Asked(_) | Call::Waiting(_) | Call::Closing => false,
        }
    }

    // What was heard of the message at the front is told; where it may not come, it stays.
    fn take_heard(&mut self, front: Front, heard: Result<Taken, Error>) -> Beat
        requires front { IsHeardFront self.old.stream.held front }
        requires room { IfOk heard (λ taken. taken.fails_copy ≡ true → 57 ≤ self.old.stream.spare) }
        ensures takes { TakesHeard front heard self.old self.new result }
        ensures falls { Falls (seen_by L.seen self.old) (seen_by L.seen self.new) result }
    {
        match heard {
            Ok(taken) => self.take_in(front, taken),
            Err(e) => self.stop(Err(e)),
        }
    }

    // Whether a message of the own reply shows nothing and isn't learnt from, so that the next one is taken in the same way.
    fn passes(&self, front: Front, heard: &Result<Taken, Error>) -> bool
        ensures more { result ≡ true → heard.now ≡ Ok (record { beat = Beat.More; fails_copy = false }) }
        ensures own { result ≡ true → IsReplied self.now.call }
        ensures plain { result ≡ true → (front.tag == 68 && looks_up self.now.call) ≡ false }
    {
        let Ok(
            Taken {
                beat: Beat::More,
                fails_copy: false,
            },
        ) = heard
        else {
            return false;
        };
        self.is_replied() && !(front.tag == b'D' && self.running.looks_up())
    }

    // Takes the next messages, up to the first that shows something, ends the reply, or is one of an earlier call. Where it may not come, it stays.
    fn hear(&mut self) -> Beat
        requires { IsAwaiting self.old.ledger self.old.call }
        ensures beat { TakesBeat (seen_by L.seen self.old) (seen_by L.seen self.new) result }
        ensures falls { Falls (seen_by L.seen self.old) (seen_by L.seen self.new) result }
    {
        loop {
            match self.stream.poll_ahead(self.alloc) {
                Poll::Pending => return Beat::Waits,
                Poll::Ready(Err(e)) => return self.stop(Err(e)),
                Poll::Ready(Ok(front)) => {
                    if self.takes_plainly(front) {
                        self.accept(front, false);
                        continue;
                    }
                    if let Err(e) = self.make_room(front) {
                        return self.stop(Err(e));
                    }
                    let heard = self.hear_front(front);
                    if !self.passes(front, &heard) {
                        return self.take_heard(front, heard);
                    }
                    drop(heard);
                    self.accept(front, false);
                }
            }
        }
    }

    // Sends the rest, and ends.
    fn send_rest(&mut self) -> Beat
        requires { only_sends self.old.ledger self.old.call ≡ true }
        ensures beat { TakesBeat (seen_by L.seen self.old) (seen_by L.seen self.new) result }
        ensures goes { GoesOn result → ⊥ }
    {
        match self.stream.poll_send() {
            Poll::Pending => Beat::Waits,
            Poll::Ready(Err(e)) => self.stop(Err(e)),
            Poll::Ready(Ok(())) => self.end_sent(),
        }
    }

    // Sends and hears what comes next.
    fn go_ahead(&mut self) -> Beat
        requires { IsAhead self.old.ledger self.old.call }
        ensures beat { TakesBeat (seen_by L.seen self.old) (seen_by L.seen self.new) result }
        ensures falls { Falls (seen_by L.seen self.old) (seen_by L.seen self.new) result }
    {
        match self.running.call {
            Call::Closing => self.send_rest(),
            Call::Idle | Call::Asked(_) | Call::Waiting(_) | Call::Own(_) => self.hear(),
        }
    }

    // One step of a call whose frames are written.
    fn go_on(&mut self) -> Beat
        requires asked { IsAsked self.old.call → ⊥ }
        ensures beat { TakesBeat (seen_by L.seen self.old) (seen_by L.seen self.new) result }
        ensures falls { Falls (seen_by L.seen self.old) (seen_by L.seen self.new) result }
    {
        if self.only_sends() {
            return self.send_rest();
        }
        match self.ask() {
            Ok(()) => self.go_ahead(),
            Err(e) => self.stop(Err(e)),
        }
    }

    // Steps until the call waits, shows an item or ends.
    fn run(&mut self) -> Beat
        requires asked { IsAsked self.old.call → ⊥ }
        ensures beat { TakesBeat (seen_by L.seen self.old) (seen_by L.seen self.new) result }
        ensures ends { result ≢ Beat.More }
        ensures falls { Falls (seen_by L.seen self.old) (seen_by L.seen self.new) result }
    {
        loop {
            match self.go_on() {
                Beat::More => {}
                beat => return beat,
            }
        }
    }

    // The same, once the frames of what is asked are written. Where no frame can say it, it is refused before anything is done.
    // A flush with nothing to do ends before that, so it takes no memory.
    fn beat(&mut self) -> Beat
        ensures beat { TakesBeat (seen_by L.seen self.old) (seen_by L.seen self.new) result }
        ensures says { IsSayable self.old.call ⊎ Refused (seen_by L.seen self.old) (seen_by L.seen self.new) result }
        ensures flush { EndsFlush (seen_by L.seen self.old) (seen_by L.seen self.new) result }
        ensures asked { IsAsked self.new.call → ⊥ }
        ensures ends { result ≢ Beat.More }
        ensures falls { Falls (seen_by L.seen self.old) (seen_by L.seen self.new) result }
    {
        if self.is_flushed() {
            return self.end_sent();
        }
        match self.write_frames() {
            Ok(()) => self.run(),
            Err(e) => self.stop(Err(e)),
        }
    }
}

impl<L: Link> PgConnection<L> {
    // One poll of an exchange.
    fn poll_exchange(&mut self) -> Beat
        requires { self.old.broken ≡ None }
        ensures polled { Polled (seen_by L.seen self.old) (seen_by L.seen self.new) result }
        ensures ends { result ≢ Beat.More }
        ensures whole { (next : declared_request.Request) → result ≡ Beat.HandsOn next → self.new.broken ≡ None }
        ensures falls { Falls (seen_by L.seen self.old) (seen_by L.seen self.new) result }
    {
        let beat = self.beat();
        self.end_exchange(&beat);
        beat
    }

    // One poll, which begins with what the connection allows of link calls. What is asked stands as an exchange first.
    fn poll_on(&mut self) -> Beat
        requires { self.old.broken ≡ None }
        ensures polled { Polled (resolved (seen_by L.seen self.old)) (seen_by L.seen self.new) result }
        ensures ends { result ≢ Beat.More }
        ensures whole { (next : declared_request.Request) → result ≡ Beat.HandsOn next → self.new.broken ≡ None }
        ensures falls { Falls (seen_by L.seen self.old) (seen_by L.seen self.new) result }
    {
        match self.resolve() {
            Ok(()) => self.poll_exchange(),
            Err(e) => Beat::Ends(Err(e)),
        }
    }

    // The answer of every call on a connection that the server broke.
    fn tell_fault(&mut self, fault: ServerFault) -> Poll<Turn>
        ensures now { self.new ≡ ended (idle self.old) }
        ensures answer { beat_of result ≡ Beat.Ends (Err (Error.Protocol (ProtocolFault.Server fault))) }
    {
        self.forget();
        Poll::Ready(Turn::Err(Error::Protocol(ProtocolFault::Server(fault))))
    }

    // One poll. Where it is the first of a call, what has to be looked up before it is looked up.
    fn poll_through(&mut self) -> Poll<Turn>
        requires { self.old.broken ≡ None }
        ensures { PollsThrough (seen_by L.seen self.old) (seen_by L.seen self.new) result }
    {
        if let Err(e) = self.look_first() {
            return Poll::Ready(Turn::Err(e));
        }
        self.poll_exchanges()
    }

    // The same within so many calls of the link, where a row that stands at the front and is shown at once is answered before anything else is
    // looked at.
    fn poll_once(&mut self, left: u16) -> Poll<Turn>
        requires broken { self.old.broken ≡ None }
        requires left { left ≤ 256 }
        ensures { PollsThrough (seen_by L.seen (begun_with left self.old)) (seen_by L.seen self.new) result }
    {
        match self.show_at_once(left) {
            Some(row) => Poll::Ready(Turn::Item(CallItem::Row(row))),
            None => {
                self.allow(left);
                self.poll_through()
            }
        }
    }

    // Where an exchange ends in a poll, and hands on the next one, that one goes on in it too.
    fn poll_exchanges(&mut self) -> Poll<Turn>
        requires { self.old.broken ≡ None }
        ensures { PollsOn (seen_by L.seen self.old) (seen_by L.seen self.new) result }
    {
        loop {
            match self.poll_on() {
                Beat::HandsOn(told) => {
                    if let Err(e) = self.hand_on(told) {
                        return Poll::Ready(Turn::Err(e));
                    }
                }
                beat => return answer_of(beat),
            }
        }
    }

    /// Moves the running call on, by at most 256 calls of the link: it first drops what is owed to earlier calls, then sends its
    /// frames, and takes its own reply. On a connection that the server broke it answers the fault that broke it.
    pub fn poll_call(&mut self) -> Poll<Turn>
        requires { runs self.old.call ≡ true }
        ensures { PollsCall (seen_by L.seen self.old) (seen_by L.seen self.new) result }
    {
        match self.broken {
            Some(fault) => self.tell_fault(fault),
            None => self.poll_once(256),
        }
    }

    /// What `poll_call` would answer, where that is a row which has come already. Else nothing is done, and `poll_call` is due.
    pub fn try_row(&mut self) -> Option<PgRow>
        ensures shown { IfSome result (λ row. PollsCall (seen_by L.seen self.old) (seen_by L.seen self.new) (Poll.Ready (Turn.Item (CallItem.Row row)))) }
        ensures none { result ≡ None → self.new ≡ self.old }
    {
        match self.broken {
            Some(_) => None,
            None => self.show_at_once(256),
        }
    }

    /// The same within so many calls of the link, which it takes off.
    pub fn poll_call_within(&mut self, left: &mut u16) -> Poll<Turn>
        requires runs { runs self.old.call ≡ true }
        requires left { left.old ≤ 256 }
        ensures polls { PollsWithin left.old (seen_by L.seen self.old) (seen_by L.seen self.new) result }
        ensures left { left.new ≤ left.old }
        ensures rest { self.old.broken ≡ None → left.new ≡ self.new.stream.left }
        ensures kept { IsSome self.old.broken → left.new ≡ left.old }
    {
        match self.broken {
            Some(fault) => self.tell_fault(fault),
            None => {
                let turn = self.poll_once(*left);
                *left = self.stream.left();
                turn
            }
        }
    }

    /// The same within the calls of the link that the last poll left.
    pub fn poll_more(&mut self) -> Poll<Turn>
        requires { runs self.old.call ≡ true }
        ensures { PollsMore (seen_by L.seen self.old) (seen_by L.seen self.new) result }
    {
        match self.broken {
            Some(fault) => self.tell_fault(fault),
            None => self.poll_through(),
        }
    }

    /// The poll of a call's state, which begins the call where this is its first: the request is handed on.
    #[tactic(auto, using(crate::proofs::StateLaws::poll_fits))]
    pub fn poll_with(&mut self, request: &mut Option<Request>) -> Poll<Turn>
        requires { is_over request.old self.old.call ≡ false }
        ensures asked { request.new ≡ None }
        ensures polls { PollsCall (seen_by L.seen (begun_by request.old self.old)) (seen_by L.seen self.new) result }
        ensures fits { (kind : declared_kind.Kind) → IsCalling kind (begun_by request.old self.old) → PollFits kind self.new result }
    {
        match request.take() {
            Some(request) => {
                self.start(request);
                self.poll_call()
            }
            None => self.poll_call(),
        }
    }
}
