//! Transactions by their guards: with a savepoint in it that is dropped, and with a commit that is.

use crate::calls::{Stand, settled, stand_of, unit};
use pg_conn::PgConnection;
use pg_guards::{PgExecutor, PgTransactionManager, Transaction};
use pg_stream::MemoryLink;
use pg_wire::Poll;

type Connection = PgConnection<MemoryLink>;

// How many were open in a guard that is dropped, or 0 where it is none.
fn depth<C: PgExecutor + Drop>(answer: Poll<Option<Transaction<C>>>) -> u64 {
    match answer {
        Poll::Ready(Some(guard)) => {
            let depth = PgTransactionManager::get_transaction_depth(guard.conn_ref());
            drop(guard);
            depth
        }
        Poll::Ready(None) | Poll::Pending => 0,
    }
}

// Opens a savepoint in a transaction and drops it, and commits the transaction.
fn nest<C: PgExecutor + Drop>(mut guard: Transaction<C>) -> Stand {
    let mut savepoint = Transaction::begin(&mut guard);
    let opened = depth(settled(savepoint.poll()));
    drop(savepoint);
    let mut commit = guard.commit();
    match settled(commit.poll()) {
        Poll::Ready(Some(())) if commit.is_finished() => Stand::Ends(opened),
        _ => Stand::Fails,
    }
}

/// Plays a transaction with a savepoint in it. It ends with how many were open within the savepoint.
pub(crate) fn transact(conn: &mut Connection) -> Stand {
    let mut begin = Transaction::begin(conn);
    let answer = settled(begin.poll());
    drop(begin);
    match answer {
        Poll::Ready(Some(guard)) => nest(guard),
        Poll::Ready(None) | Poll::Pending => Stand::Fails,
    }
}

// Drops the commit of a transaction behind its first poll.
fn drop_commit<C: PgExecutor + Drop>(guard: Transaction<C>) -> Stand {
    let mut commit = guard.commit();
    let answer = unit(settled(commit.poll()));
    let stand = stand_of(answer, commit.is_finished());
    drop(commit);
    stand
}

/// Plays a transaction whose commit is dropped behind its first poll.
pub(crate) fn give_up(conn: &mut Connection) -> Stand {
    let mut begin = Transaction::begin(conn);
    let answer = settled(begin.poll());
    drop(begin);
    match answer {
        Poll::Ready(Some(guard)) => drop_commit(guard),
        Poll::Ready(None) | Poll::Pending => Stand::Fails,
    }
}
