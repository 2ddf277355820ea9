//! Each kind of call by its own state: it is polled, and dropped.

use either::Either;
use pg_conn::{PgConnection, PgQueryResult, PgRow, PgStatement, Preparation, Query};
use pg_describe::describe;
use pg_guards::{PgTransactionManager, copy_out_raw};
use pg_script::{Call, Chain, Step};
use pg_stream::MemoryLink;
use pg_wire::{Blob, CallerFault, Error, Poll, ProtocolFault, Sequence, Text};
use std::alloc::Global;

type Connection = PgConnection<MemoryLink>;

// What a poll answered, with the rows that it counts or that are as they should be.
#[derive(Clone, Copy)]
pub(crate) enum Answer {
    Waits,
    Rows(u64),
    NoNumber,
    Fails,
}

/// How a call stands behind its polls, with the rows of the last one.
#[derive(Clone, Copy)]
pub(crate) enum Stand {
    Waits,
    Shows(u64),
    Ends(u64),
    NoNumber,
    Fails,
}

pub(crate) fn stand_of(answer: Answer, is_finished: bool) -> Stand {
    match answer {
        Answer::Waits if !is_finished => Stand::Waits,
        Answer::Rows(rows) if is_finished => Stand::Ends(rows),
        Answer::Rows(rows) => Stand::Shows(rows),
        Answer::NoNumber if is_finished => Stand::NoNumber,
        _ => Stand::Fails,
    }
}

// 1 for a row with the one value "1".
fn shown(row: &PgRow) -> u64 {
    if row.len() == 1 && row.value(0) == Some(b"1".as_slice()) {
        1
    } else {
        0
    }
}

fn all_shown(rows: &[PgRow]) -> u64 {
    match rows {
        [row] => shown(row),
        _ => 0,
    }
}

/// What a poll answered, without the error.
pub(crate) fn settled<T: Drop>(answer: Poll<Result<T, Error>>) -> Poll<Option<T>> {
    match answer {
        Poll::Pending => Poll::Pending,
        Poll::Ready(Ok(value)) => Poll::Ready(Some(value)),
        Poll::Ready(Err(error)) => {
            drop(error);
            Poll::Ready(None)
        }
    }
}

// The item that a poll showed, without the error and the end.
fn item<T: Drop>(answer: Poll<Option<Result<T, Error>>>) -> Poll<Option<T>> {
    match answer {
        Poll::Pending => Poll::Pending,
        Poll::Ready(Some(Ok(value))) => Poll::Ready(Some(value)),
        Poll::Ready(Some(Err(error))) => {
            drop(error);
            Poll::Ready(None)
        }
        Poll::Ready(None) => Poll::Ready(None),
    }
}

pub(crate) fn unit(answer: Poll<Option<()>>) -> Answer {
    match answer {
        Poll::Pending => Answer::Waits,
        Poll::Ready(Some(())) => Answer::Rows(0),
        Poll::Ready(None) => Answer::Fails,
    }
}

fn count(answer: Poll<Option<PgQueryResult>>) -> Answer {
    match answer {
        Poll::Pending => Answer::Waits,
        Poll::Ready(Some(count)) => Answer::Rows(count.rows_affected()),
        Poll::Ready(None) => Answer::Fails,
    }
}

fn row(answer: Poll<Option<PgRow>>) -> Answer {
    match answer {
        Poll::Pending => Answer::Waits,
        Poll::Ready(Some(row)) => {
            let rows = shown(&row);
            drop(row);
            Answer::Rows(rows)
        }
        Poll::Ready(None) => Answer::Fails,
    }
}

// 1 for a piece of the one byte "a".
fn piece(answer: Poll<Option<Blob>>) -> Answer {
    match answer {
        Poll::Pending => Answer::Waits,
        Poll::Ready(Some(piece)) => {
            let is_so = piece.as_bytes() == b"a".as_slice();
            drop(piece);
            Answer::Rows(u64::from(is_so))
        }
        Poll::Ready(None) => Answer::Fails,
    }
}

fn row_of_many(answer: Poll<Option<Either<PgQueryResult, PgRow>>>) -> Answer {
    match answer {
        Poll::Pending => Answer::Waits,
        Poll::Ready(Some(Either::Right(shown))) => row(Poll::Ready(Some(shown))),
        Poll::Ready(other) => {
            drop(other);
            Answer::Fails
        }
    }
}

fn rows(answer: Poll<Option<Sequence<PgRow>>>) -> Answer {
    match answer {
        Poll::Pending => Answer::Waits,
        Poll::Ready(Some(rows)) => {
            let count = all_shown(rows.as_slice());
            drop(rows);
            Answer::Rows(count)
        }
        Poll::Ready(None) => Answer::Fails,
    }
}

fn row_or_none(answer: Poll<Option<Option<PgRow>>>) -> Answer {
    match answer {
        Poll::Pending => Answer::Waits,
        Poll::Ready(Some(shown)) => row(Poll::Ready(shown)),
        Poll::Ready(None) => Answer::Fails,
    }
}

// A statement, with its columns counted.
fn statement(answer: Poll<Result<PgStatement, Error>>) -> Answer {
    match answer {
        Poll::Pending => Answer::Waits,
        Poll::Ready(Ok(statement)) => {
            let columns = statement.columns().len() as u64;
            drop(statement);
            Answer::Rows(columns)
        }
        Poll::Ready(Err(error)) => {
            let is_out = matches!(
                &error,
                Error::Protocol(ProtocolFault::Caller(CallerFault::NoStatementNumber))
            );
            drop(error);
            if is_out {
                Answer::NoNumber
            } else {
                Answer::Fails
            }
        }
    }
}

fn execute(conn: &mut Connection, query: Query) -> Stand {
    let mut call = conn.execute(query);
    let answer = count(settled(call.poll()));
    stand_of(answer, call.is_finished())
}

fn execute_many(conn: &mut Connection, query: Query) -> Stand {
    let mut call = conn.execute_many(query);
    let answer = count(item(call.poll_next()));
    stand_of(answer, call.is_finished())
}

fn fetch(conn: &mut Connection, query: Query) -> Stand {
    let mut call = conn.fetch(query);
    let answer = row(item(call.poll_next()));
    stand_of(answer, call.is_finished())
}

fn fetch_many(conn: &mut Connection, query: Query) -> Stand {
    let mut call = conn.fetch_many(query);
    let answer = row_of_many(item(call.poll_next()));
    stand_of(answer, call.is_finished())
}

fn fetch_all(conn: &mut Connection, query: Query) -> Stand {
    let mut call = conn.fetch_all(query);
    let answer = rows(settled(call.poll()));
    stand_of(answer, call.is_finished())
}

fn fetch_optional(conn: &mut Connection, query: Query) -> Stand {
    let mut call = conn.fetch_optional(query);
    let answer = row_or_none(settled(call.poll()));
    stand_of(answer, call.is_finished())
}

fn fetch_one(conn: &mut Connection, query: Query) -> Stand {
    let mut call = conn.fetch_one(query);
    let answer = row(settled(call.poll()));
    stand_of(answer, call.is_finished())
}

fn ping(conn: &mut Connection) -> Stand {
    let mut call = conn.ping();
    let answer = unit(settled(call.poll()));
    stand_of(answer, call.is_finished())
}

fn flush(conn: &mut Connection) -> Stand {
    let mut call = conn.flush();
    let answer = unit(settled(call.poll()));
    stand_of(answer, call.is_finished())
}

fn begin(conn: &mut Connection) -> Stand {
    let mut call = conn.begin();
    let answer = unit(settled(call.poll()));
    stand_of(answer, call.is_finished())
}

fn begin_with(alloc: Global, conn: &mut Connection, query: Query) -> Stand {
    let Ok(sql) = Text::from_str(alloc, query.sql()) else {
        return Stand::Fails;
    };
    match PgTransactionManager::begin(conn, Some(sql)) {
        Ok(mut call) => {
            let answer = unit(settled(call.poll()));
            stand_of(answer, call.is_finished())
        }
        Err(error) => {
            drop(error);
            Stand::Fails
        }
    }
}

fn copy_out(alloc: Global, conn: &mut Connection, query: Query) -> Stand {
    let Ok(sql) = Text::from_str(alloc, query.sql()) else {
        return Stand::Fails;
    };
    let mut call = copy_out_raw(conn, sql);
    let answer = piece(item(call.poll_next()));
    stand_of(answer, call.is_finished())
}

fn commit(conn: &mut Connection) -> Stand {
    let mut call = conn.commit();
    let answer = unit(settled(call.poll()));
    stand_of(answer, call.is_finished())
}

fn rollback(conn: &mut Connection) -> Stand {
    let mut call = conn.rollback();
    let answer = unit(settled(call.poll()));
    stand_of(answer, call.is_finished())
}

fn prepare(conn: &mut Connection, preparation: Preparation) -> Stand {
    let mut call = conn.prepare_with(preparation);
    let answer = statement(call.poll());
    stand_of(answer, call.is_finished())
}

// A statement that is described in full, with the columns counted that may be null.
fn described(conn: &mut Connection, sql: Text) -> Stand {
    let mut call = describe(conn, sql);
    let answer = match settled(call.poll()) {
        Poll::Pending => Answer::Waits,
        Poll::Ready(None) => Answer::Fails,
        Poll::Ready(Some(told)) => {
            let nullable = told.nullable().iter();
            Answer::Rows(nullable.filter(|it| **it == Some(true)).count() as u64)
        }
    };
    stand_of(answer, call.is_finished())
}

fn clear(conn: &mut Connection) -> Stand {
    let mut call = conn.clear_cached_statements();
    let answer = unit(settled(call.poll()));
    stand_of(answer, call.is_finished())
}

// A rollback without waiting, which ends at once.
fn start_rollback(conn: &mut Connection) -> Stand {
    conn.start_rollback();
    Stand::Ends(0)
}

// What a poll behind the last item answered.
fn end<T: Drop>(answer: Poll<Option<Result<T, Error>>>) -> Answer {
    match answer {
        Poll::Pending => Answer::Waits,
        Poll::Ready(None) => Answer::Rows(0),
        Poll::Ready(Some(item)) => {
            drop(item);
            Answer::Fails
        }
    }
}

fn execute_many_to_its_end(conn: &mut Connection, query: Query) -> Stand {
    let mut call = conn.execute_many(query);
    let answer = match call.poll_next() {
        Poll::Ready(Some(Ok(count))) => {
            drop(count);
            end(call.poll_next())
        }
        other => end(other),
    };
    stand_of(answer, call.is_finished())
}

fn fetch_to_its_end(conn: &mut Connection, query: Query) -> Stand {
    let mut call = conn.fetch(query);
    let answer = match call.poll_next() {
        Poll::Ready(Some(Ok(row))) => {
            drop(row);
            end(call.poll_next())
        }
        other => end(other),
    };
    stand_of(answer, call.is_finished())
}

fn fetch_many_to_its_end(conn: &mut Connection, query: Query) -> Stand {
    let mut call = conn.fetch_many(query);
    let answer = match call.poll_next() {
        Poll::Ready(Some(Ok(Either::Right(row)))) => {
            drop(row);
            match call.poll_next() {
                Poll::Ready(Some(Ok(Either::Left(count)))) => {
                    drop(count);
                    end(call.poll_next())
                }
                other => end(other),
            }
        }
        other => end(other),
    };
    stand_of(answer, call.is_finished())
}

fn play_to_its_end(conn: &mut Connection, call: Call) -> Stand {
    match call {
        Call::ExecuteMany(query) => execute_many_to_its_end(conn, query),
        Call::Fetch(query) => fetch_to_its_end(conn, query),
        Call::FetchMany(query) => fetch_many_to_its_end(conn, query),
        other => {
            drop(other);
            Stand::Fails
        }
    }
}

fn play_once(alloc: Global, conn: &mut Connection, call: Call) -> Stand {
    match call {
        Call::Execute(query) => execute(conn, query),
        Call::ExecuteMany(query) => execute_many(conn, query),
        Call::Fetch(query) => fetch(conn, query),
        Call::FetchMany(query) => fetch_many(conn, query),
        Call::FetchAll(query) => fetch_all(conn, query),
        Call::FetchOptional(query) => fetch_optional(conn, query),
        Call::FetchOne(query) => fetch_one(conn, query),
        Call::Ping => ping(conn),
        Call::Flush => flush(conn),
        Call::Begin => begin(conn),
        Call::BeginWith(query) => begin_with(alloc, conn, query),
        Call::Commit => commit(conn),
        Call::Rollback => rollback(conn),
        Call::StartRollback => start_rollback(conn),
        Call::Prepare(preparation) => prepare(conn, preparation),
        Call::Clear => clear(conn),
        Call::CopyOut(query) => copy_out(alloc, conn, query),
        Call::Chain(Chain::Describe(sql)) => described(conn, sql),
        other => {
            drop(other);
            Stand::Fails
        }
    }
}

/// Polls the call of a step once, or where the step has more polls, to the end of its items, and drops it.
pub(crate) fn play_step(alloc: Global, conn: &mut Connection, step: Step) -> Stand {
    let Step {
        call,
        polls,
        most: _,
    } = step;
    if polls == 1 {
        play_once(alloc, conn, call)
    } else {
        play_to_its_end(conn, call)
    }
}

// A link whose last bytes are these.
fn farewell(answer: Poll<Option<MemoryLink>>, last: &[u8]) -> Answer {
    match answer {
        Poll::Ready(Some(link)) => {
            let is_so = link.taken().ends_with(last);
            drop(link);
            if is_so {
                Answer::Rows(0)
            } else {
                Answer::Fails
            }
        }
        Poll::Ready(None) => Answer::Fails,
        Poll::Pending => Answer::Waits,
    }
}

/// Closes a connection, and looks at the last bytes that its link took.
pub(crate) fn close(conn: Connection, last: &[u8]) -> Stand {
    let mut call = conn.close();
    let answer = farewell(settled(call.poll()), last);
    let stand = stand_of(answer, call.is_finished());
    drop(call);
    stand
}

/// Gives a close up before it began, and goes on with the connection.
pub(crate) fn keep(conn: Connection) -> Stand {
    match conn.close().into_conn() {
        Some(mut conn) => {
            let stand = ping(&mut conn);
            drop(conn);
            stand
        }
        None => Stand::Fails,
    }
}
