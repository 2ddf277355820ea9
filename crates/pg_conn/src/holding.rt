//! The advisory locks that guards hold on a connection. For each there is room for the text that releases it, so that a guard can be dropped without
//! memory. (PostgreSQL manual, "Explicit Locking", "Advisory Locks".)
ghost use Rattle.std.specs.Prelude.{◌≡◌, ◌+◌, ◌<◌, ◌≤◌, ◌↔◌, IsTrue, IfSome, IfErr, OnOk, option_map};
ghost use Rattle.pg_conn.specs.Connections.{with_spare};
ghost use Rattle.pg_conn.specs.Holding.{IsRelease, gave_up, held_more, let_go, took_held};
ghost use Rattle.pg_conn.specs.Turns.{kept_for, level_of};

use crate::PgConnection;
use crate::polling::RESERVE;
use crate::releasing::release_frame;
use pg_wire::Error;

impl<L> PgConnection<L> {
    /// How many locks are held by guards, or are being taken for one.
    pub fn held_locks(&self) -> u64
        ensures { result ≡ self.now.held }
    {
        self.held
    }

    /// Counts one more lock that is held, or is to be, and keeps 64 bytes for the text that releases it. An `Err` is want of memory; then none
    /// is counted.
    pub fn hold(&mut self) -> Result<(), Error>
        ensures ok { OnOk result (self.new ≡ held_more (with_spare self.new.stream.spare self.old)) }
        ensures err { IfErr result (λ e. (e ≡ Error.OutOfMemory) × (self.new ≡ with_spare self.new.stream.spare self.old)) }
        ensures spare { self.old.stream.spare ≤ self.new.stream.spare }
        ensures room { OnOk result (kept_for self.old + level_of self.old.change self.old.groups + 192 ≤ self.new.stream.spare) }
    {
        let Some(held) = self.held.checked_add(1) else {
            return Err(Error::OutOfMemory);
        };
        let bytes = self.level(self.groups) + RESERVE + 64;
        self.reserve(bytes)?;
        self.held = held;
        Ok(())
    }

    // One lock fewer is held, where any is; where there is a text, it is queued.
    fn let_go(&mut self, unlock: Option<&str>)
        requires { IfSome unlock (λ text. IsRelease text.now) }
        ensures { self.new ≡ let_go (option_map (λ text. text.now) unlock.entry) self.old }
    {
        if self.held == 0 {
            return;
        }
        self.held -= 1;
        match unlock {
            Some(text) => self.queue_group(&release_frame(text)),
            None => {}
        }
    }

    /// Gives the running call up, and the room of one lock that is held, or was to be. Where there is a text that releases the lock, it is queued behind
    /// the call, which takes no memory and which no call waits for. The call's numbers go on.
    pub fn give_up_held(&mut self, unlock: Option<&str>)
        requires { IfSome unlock (λ text. IsRelease text.now) }
        ensures { self.new ≡ gave_up (option_map (λ text. text.now) unlock.entry) self.old }
    {
        self.abandon();
        self.end_change();
        self.let_go(unlock);
    }

    /// Gives up the room of one lock that is held. Where there is a text that releases the lock, it is queued: the next call sends it, and reads its
    /// reply away. A call that still runs is given up. Where no lock is held nothing is done, and the answer is false. It takes no memory.
    /// (PostgreSQL manual, "Advisory Lock Functions".)
    pub fn take_held(&mut self, unlock: Option<&str>) -> bool
        requires { IfSome unlock (λ text. IsRelease text.now) }
        ensures now { self.new ≡ took_held (option_map (λ text. text.now) unlock.entry) self.old }
        ensures held { IsTrue result ↔ (0 < self.old.held) }
    {
        if self.held == 0 {
            return false;
        }
        self.abandon();
        self.end_change();
        self.count_anew();
        self.let_go(unlock);
        true
    }
}
