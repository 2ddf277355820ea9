ghost use Rattle.std.specs.Prelude.{◌≡◌};
ghost use Rattle.futures.specs.declared.task.Poll.TheVariants.{Ready};
ghost use Rattle.pg_conn.specs.States.{ends_call};
ghost use Rattle.pg_listening.specs.Listeners.{is_answered};

use pg_call::Turn;
use pg_wire::Poll;

/// Whether a poll has ended its call.
pub(crate) fn is_answered<X>(answer: &Poll<X>) -> bool
    ensures { result ≡ is_answered answer.now }
{
    match answer {
        Poll::Pending => false,
        Poll::Ready(_) => true,
    }
}

/// Whether this is the last turn of its call.
pub(crate) fn ends_call(turn: &Turn) -> bool
    ensures { result ≡ ends_call (Ready turn.now) }
{
    match turn {
        Turn::Item(_) => false,
        Turn::Opened(_) => false,
        Turn::Ok(_) => true,
        Turn::Err(_) => true,
    }
}
