ghost use Rattle.std.specs.Prelude.{◌≡◌, false, None, Some};
ghost use Rattle.pg_call.specs.Answers.{TurnFits};
ghost use Rattle.pg_call.specs.declared.kind.How.TheVariants as hows;
ghost use Rattle.pg_call.specs.declared.kind.Kind.TheVariants as kinds;
ghost use Rattle.pg_conn.specs.Connections.{begun_by, is_over, left_by};
ghost use Rattle.pg_conn.specs.States.{PollFits, to_prepare, untyped};
ghost use Rattle.pg_describe.specs.Describing.{GoesOn, HearsTurn, IsDescribing, PollsDescribe, StaysDescribing, TellsTurn};

use crate::Describe;
use crate::telling::hear;
use pg_call::{Request, Turn};
use pg_conn::{PgStatement, Preparation, prepare_request};
use pg_guards::{PgExecutor, holding};
use pg_nullable::nulls_query;
use pg_wire::{Error, Poll, Text};

/// The state of `describe`, which owns what holds the connection. It does nothing before its first poll. It is made of two calls, whose numbers `progress`
/// tells together. Where it is dropped before its end, what was sent stays owed: the next call on the connection reads it away.
pub struct Describing<C: PgExecutor> {
    conn: C,
    request: Option<Request>,
    // The statement, once it is prepared.
    told: Option<PgStatement>,
}

/// Describes a statement in full: what `prepare` tells of it, and of each column whether it may be null, which the catalog is asked for. More than 21845
/// columns are `TooMany` behind the preparation, which stands. (PostgreSQL manual, "Message Flow", "Extended Query"; "System Catalogs", pg_attribute.)
pub fn describe<C: PgExecutor>(conn: C, sql: Text) -> Describing<C>
    ensures conn { result.conn ≡ conn }
    ensures request { result.request ≡ Some (to_prepare (untyped sql)) }
    ensures told { result.told ≡ None }
    ensures calling { IsDescribing result.told (begun_by result.request (C.conn result.conn)) }
{
    let alloc = conn.conn_ref().allocator();
    let request = prepare_request(alloc, Preparation::untyped(alloc, sql));
    Describing {
        conn,
        request: Some(request),
        told: None,
    }
}

impl<C: PgExecutor> Describing<C> {
    /// Whether a poll has ended the call.
    pub fn is_finished(&self) -> bool
        ensures { result ≡ is_over self.now.request (C.conn self.now.conn).call }
    {
        self.request.is_none() && !self.conn.conn_ref().is_running()
    }

    // The statement that was told, with what the connection has learnt.
    fn statement(&self, turn: Turn) -> Result<PgStatement, Error>
        requires { TurnFits kinds.Prepare turn }
        ensures { TellsTurn (C.conn self.now.conn).learnt turn result }
    {
        match turn.into_statement() {
            Ok(prepared) => self.conn.conn_ref().statement(prepared),
            Err(e) => Err(e),
        }
    }

    // What a poll of the query on nulls has come to.
    fn hear(&mut self, statement: PgStatement, answer: Poll<Turn>) -> Poll<Result<Describe, Error>>
        requires told { self.old.told ≡ None }
        requires fits { PollFits (kinds.Run hows.FetchAll) (C.conn self.old.conn) answer }
        ensures conn { self.new.conn ≡ self.old.conn }
        ensures request { self.new.request ≡ self.old.request }
        ensures hears { HearsTurn statement answer result self.new.told }
        ensures stays { StaysDescribing self.new.told (C.conn self.new.conn) result }
    {
        let alloc = self.conn.conn_ref().allocator();
        let (answer, told) = hear(alloc, statement, answer);
        self.told = told;
        answer
    }

    // The first poll of the query on nulls, behind the preparation. Where there is no column, nothing is asked.
    fn go_on(&mut self, statement: PgStatement) -> Poll<Result<Describe, Error>>
        requires told { self.old.told ≡ None }
        ensures holder { self.new.conn ≡ C.with_conn self.old.conn (C.conn self.new.conn) }
        ensures request { self.new.request ≡ self.old.request }
        ensures goes { GoesOn C.L.seen statement (C.conn self.old.conn) (C.conn self.new.conn) result self.new.told }
        ensures stays { StaysDescribing self.new.told (C.conn self.new.conn) result }
    {
        let alloc = self.conn.conn_ref().allocator();
        match nulls_query(alloc, statement.columns()) {
            Ok(Some(query)) => {
                let answer = holding::poll_next(&mut self.conn, Request::FetchAll(query));
                self.hear(statement, answer)
            }
            Ok(None) => Poll::Ready(Ok(Describe::new(statement, Vec::new(alloc)))),
            Err(e) => Poll::Ready(Err(e)),
        }
    }

    // One poll of the preparation, and of what comes behind it.
    fn poll_prepare(&mut self) -> Poll<Result<Describe, Error>>
        requires over { is_over self.old.request (C.conn self.old.conn).call ≡ false }
        requires told { self.old.told ≡ None }
        requires calling { IsDescribing None (begun_by self.old.request (C.conn self.old.conn)) }
        ensures holder { self.new.conn ≡ C.with_conn self.old.conn (C.conn self.new.conn) }
        ensures asked { self.new.request ≡ None }
        ensures polls { PollsDescribe C.L.seen None (begun_by self.old.request (C.conn self.old.conn)) (C.conn self.new.conn) result self.new.told }
        ensures stays { StaysDescribing self.new.told (C.conn self.new.conn) result }
    {
        match holding::poll_turn(&mut self.conn, &mut self.request) {
            Poll::Pending => Poll::Pending,
            Poll::Ready(turn) => match self.statement(turn) {
                Ok(statement) => self.go_on(statement),
                Err(e) => Poll::Ready(Err(e)),
            },
        }
    }

    // One poll of the query on nulls, of a statement that is prepared.
    fn poll_nulls(&mut self, statement: PgStatement) -> Poll<Result<Describe, Error>>
        requires over { is_over self.old.request (C.conn self.old.conn).call ≡ false }
        requires told { self.old.told ≡ None }
        requires calling { IsDescribing (Some statement) (begun_by self.old.request (C.conn self.old.conn)) }
        ensures holder { self.new.conn ≡ C.with_conn self.old.conn (C.conn self.new.conn) }
        ensures asked { self.new.request ≡ None }
        ensures polls { PollsDescribe C.L.seen (Some statement) (begun_by self.old.request (C.conn self.old.conn)) (C.conn self.new.conn) result self.new.told }
        ensures stays { StaysDescribing self.new.told (C.conn self.new.conn) result }
    {
        let answer = holding::poll_turn(&mut self.conn, &mut self.request);
        self.hear(statement, answer)
    }

    /// Moves the call on. A row of the catalog without a truth value is `ColumnDecode` with the place 0.
    pub fn poll(&mut self) -> Poll<Result<Describe, Error>>
        requires over { is_over self.old.request (C.conn self.old.conn).call ≡ false }
        requires calling { IsDescribing self.old.told (begun_by self.old.request (C.conn self.old.conn)) }
        ensures holder { self.new.conn ≡ C.with_conn self.old.conn (C.conn self.new.conn) }
        ensures asked { self.new.request ≡ None }
        ensures polls { PollsDescribe C.L.seen self.old.told (begun_by self.old.request (C.conn self.old.conn)) (C.conn self.new.conn) result self.new.told }
        ensures calling { StaysDescribing self.new.told (C.conn self.new.conn) result }
    {
        match self.told.take() {
            Some(statement) => self.poll_nulls(statement),
            None => self.poll_prepare(),
        }
    }

    /// Hands back what holds the connection, as the drop of the state leaves it: a call that runs is given up.
    pub fn into_conn(self) -> C
        ensures { result ≡ C.with_conn self.conn (left_by self.request (C.conn self.conn)) }
    {
        let Describing {
            conn,
            request,
            told: _,
        } = self;
        holding::leave(conn, request)
    }
}

impl<C: PgExecutor + Drop> Drop for Describing<C> {
    fn drop(self) {
        let conn = self.into_conn();
        let _ = conn;
    }
}
