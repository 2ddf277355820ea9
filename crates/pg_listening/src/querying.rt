//! How a listener asks what its user wants to know, on the connection that it listens on.
ghost use Rattle.std.specs.Prelude.{◌≡◌, ◌≤◌, []};
ghost use Rattle.pg_call.specs.declared.kind.Kind.{Kind};
ghost use Rattle.pg_listening.specs.Failing.{beside_of};
ghost use Rattle.pg_listening.specs.Sources.{IsDialled};
ghost use Rattle.pg_listening.specs.Hearing.{HearsBy};
ghost use Rattle.pg_listening.specs.Querying.{IsQuerying, NotesTurn, Queries};

use crate::{ConnectionSource, Hearing};
use pg_call::{Request, Turn};
use pg_wire::Poll;
use std::sync::Wait;

impl<B: ConnectionSource> Hearing<B>
where
    B::L: Drop,
{
    /// Asks what is yet to be asked, once a connection is held that listens to all of the channels, and moves its call on. What is read of notifications
    /// meanwhile is buffered. An error of the link is answered: the connection stays, and the next poll for a notification loses it.
    #[tactic(auto, using(crate::proofs::HearingLaws::hears_nothing, crate::proofs::HearingLaws::hears_without, crate::proofs::BufferingLaws::hears_behind, crate::proofs::BufferingLaws::at_once, crate::proofs::SourceLaws::dialled, crate::proofs::SourceLaws::seated_then, crate::proofs::SourceLaws::dialled_then))]
    pub fn poll_query<R: Wait>(
        &mut self,
        rt: &R,
        source: &mut B,
        request: Option<Request>,
        left: &mut u16,
    ) -> (Poll<Turn>, Option<Request>)
        requires mine { self.old.name ≡ (B.now source.old).name }
        requires left { left.old ≤ 256 }
        requires querying { (kind : Kind) × IsQuerying B.Held.conn kind request self.old }
        ensures hears { HearsBy B.L.seen B.Held.conn self.old self.new [] }
        ensures channels { self.new.listening.channels ≡ self.old.listening.channels }
        ensures source { IsDialled (B.now source.old) (B.now source.new) }
        ensures loss { self.new.is_lost ≡ self.old.is_lost }
        ensures left { left.new ≤ left.old }
        ensures queries { Queries B.L.seen B.Held.conn B.Held.with_conn B.filling (beside_of (B.now source.old) (B.now source.new)) left.old left.new request result.1 self.old self.new result.0 }
        ensures closed { NotesTurn B.L (B.now source.old).most (B.now source.new).seat result.0 }
    {
        match request {
            None => {
                self.is_again = false;
                (self.listening.poll_call(left), None)
            }
            Some(request) => match self.poll_connected(rt, source, left) {
                Poll::Pending => (Poll::Pending, Some(request)),
                Poll::Ready(Err(e)) => {
                    drop(request);
                    (Poll::Ready(Turn::Err(e)), None)
                }
                Poll::Ready(Ok(())) => {
                    self.is_again = false;
                    self.listening.start(request);
                    (self.listening.poll_call(left), None)
                }
            },
        }
    }
}
