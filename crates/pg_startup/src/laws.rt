//! What follows from the definitions of this crate, each law as the contract of a function that does nothing.
ghost use Rattle.std.specs.Prelude.{◌≡◌, ℕ, List, Err};
ghost use Rattle.futures.specs.declared.task.Poll.TheVariants.{Ready, Pending};
ghost use Rattle.pg_wire.specs.declared.error.Error.{Error};
ghost use Rattle.pg_wire.specs.declared.error.Error.TheVariants as errors;
ghost use Rattle.pg_stream.specs.Links.{LinkSeen};
ghost use Rattle.pg_auth.specs.declared.tls.TlsPlan.{TlsPlan};
ghost use Rattle.pg_startup.specs.Exchange.{ClientSeen};
ghost use Rattle.pg_startup.specs.Establishing.{EstablishSeen, HasLink, IsStarting, PollsStart};
ghost use Rattle.pg_startup.specs.Lawful.{IsLawful, HearsLawful, HearsAll, WaitsForLink, Works};

/// A lawful start-up comes to its session: while its link has no fault and no end, and gives what a lawful server says, a poll answers the
/// session or `Pending`, and fails for want of memory alone.
pub fn a_lawful_start_does_not_fail()
    ensures { (left now : ℕ) (a b : EstablishSeen) (first before after : LinkSeen) (e : Error) →
        IsStarting first a → HasLink a.phase before → PollsStart left now a b (Ready (Err e)) →
        HasLink b.phase after → Works before after → HearsLawful a first after → e ≡ errors.OutOfMemory }
{}

/// Once a lawful server has said all, a poll that answers `Pending` waits for the link alone: for a write, for its half of the TLS handshake,
/// or for the calls that the next poll may make.
pub fn what_was_said_is_not_awaited()
    ensures { (left now : ℕ) (a b : EstablishSeen) (first before after : LinkSeen) →
        IsStarting first a → HasLink a.phase before → PollsStart left now a b Pending →
        HasLink b.phase after → HearsAll a first after → WaitsForLink left now before after b.phase }
{}

/// There are lawful exchanges with every client, as that of a server that asks for no password.
pub fn there_are_lawful_exchanges()
    ensures { (c : ClientSeen) (plan : TlsPlan) (message : List ℕ) → (read : List ℕ) × IsLawful c plan message read }
{}
