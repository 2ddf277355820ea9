ghost use Rattle.std.specs.Prelude.{◌≡◌, ◌++◌, [], IfOk, OnOk, IfErr};
ghost use Rattle.pg_call.specs.Requests.{is_raw, kind_of, keeping_of, messages_of, raw, sort_of, spelled, CanBeSaid, IsRefusal, heading_of, rest_of};
ghost use Rattle.pg_call.specs.Hearing.{sent_rest};
ghost use Rattle.pg_call.specs.declared.statement.Extended.{Extended as ExtendedOf};
ghost use Rattle.pg_call.specs.declared.statement.Bound.{Bound as BoundOf};

use crate::heading::raw_heading;
use crate::writing::{
    check_types_declared, encode_closing, encode_description, encode_feed, encode_run,
};
use crate::{
    Bound, CallAnswer, Eviction, Extended, Feed, Filling, How, Keeping, Kind, Lookup, Prepared,
    Rest,
};
use pg_request::{Query, begin_text, commit_text, rollback_text};
use pg_rows::Heading;
use pg_wire::{Blob, Error, Sequence, StatementId, encode_query, encode_sync, encode_terminate};
use std::alloc::Global;

/// What is asked of a connection. A query with arguments is asked in exchanges of their own: `Describe` and then `Run`, or `Run` alone where its statement is
/// kept, `Look` behind what is described where types or columns are to be looked up, and `Evict` before it is run where another statement is closed for it. (PostgreSQL manual, "Message Flow", "Extended Query".)
pub enum Request {
    Execute(Query),
    ExecuteMany(Query),
    Fetch(Query),
    FetchMany(Query),
    FetchAll(Query),
    FetchOptional(Query),
    FetchOne(Query),
    /// Opens a transaction, or a savepoint in one; so many are open before.
    Begin(u64),
    /// Opens a transaction by the text of this query, which is asked without arguments.
    BeginWith(Query),
    /// Commits the transaction, or releases the last savepoint; so many stay open.
    Commit(u64),
    /// Rolls the transaction back, or to the last savepoint; so many stay open.
    Rollback(u64),
    /// Prepares a statement, and asks what it takes and gives.
    Describe(Extended),
    /// Runs a statement that is prepared.
    Run(Bound),
    /// Looks up types, or the names of columns.
    Look(Lookup),
    /// Looks up types whose OIDs are open within arguments.
    Fill(Filling),
    /// Closes a statement that is kept.
    Evict(Eviction),
    /// Tells of a statement, which is described before where it has to be. It asks nothing of the server.
    Prepare(Prepared),
    /// Closes these statements, the first of them first. A caller gives none: they are all that are kept.
    Clear(Sequence<StatementId>),
    /// Asks for a sign of life: a Sync, which the server answers by ReadyForQuery.
    Ping,
    /// Sends what is unsent, and reads what is owed.
    Flush,
    /// Ends the session.
    Close,
    /// Copies to the client by the text of this query, which is asked without arguments. (PostgreSQL manual, "COPY Operations".)
    CopyOut(Query),
    /// Copies from the client.
    CopyIn(Feed),
}

// By hand, so that whoever lets one go makes one call, and doesn't go through its parts.
impl Drop for Request {
    fn drop(self) {
        match self {
            Request::Execute(_)
            | Request::ExecuteMany(_)
            | Request::Fetch(_)
            | Request::FetchMany(_)
            | Request::FetchAll(_)
            | Request::FetchOptional(_)
            | Request::FetchOne(_)
            | Request::Begin(_)
            | Request::BeginWith(_)
            | Request::Commit(_)
            | Request::Rollback(_)
            | Request::Describe(_)
            | Request::Run(_)
            | Request::Look(_)
            | Request::Fill(_)
            | Request::Evict(_)
            | Request::Prepare(_)
            | Request::Clear(_)
            | Request::Ping
            | Request::Flush
            | Request::Close
            | Request::CopyOut(_)
            | Request::CopyIn(_) => {}
        }
    }
}

/// What is asked, by what decides how: a query in one of its ways, a description, a statement to be told of, all that are kept, or what is asked as it is.
#[derive(Drop)]
pub enum Sort {
    Query(How, Query),
    Describe(Extended),
    Prepare(Prepared),
    Clear,
    Plain(Request),
}

impl Request {
    /// What it is, by what decides how it is asked.
    pub fn sort(self) -> Sort
        ensures { result ≡ sort_of self }
    {
        match self {
            Request::Execute(query) => Sort::Query(How::Execute, query),
            Request::ExecuteMany(query) => Sort::Query(How::ExecuteMany, query),
            Request::Fetch(query) => Sort::Query(How::Fetch, query),
            Request::FetchMany(query) => Sort::Query(How::FetchMany, query),
            Request::FetchAll(query) => Sort::Query(How::FetchAll, query),
            Request::FetchOptional(query) => Sort::Query(How::FetchOptional, query),
            Request::FetchOne(query) => Sort::Query(How::FetchOne, query),
            Request::Describe(extended) => Sort::Describe(extended),
            Request::Prepare(prepared) => Sort::Prepare(prepared),
            Request::Clear(_) => Sort::Clear,
            other => Sort::Plain(other),
        }
    }

    /// Whether it is a query without arguments.
    pub fn is_raw(&self) -> bool
        ensures { result ≡ is_raw self.now }
    {
        match self {
            Request::Execute(query)
            | Request::ExecuteMany(query)
            | Request::Fetch(query)
            | Request::FetchMany(query)
            | Request::FetchAll(query)
            | Request::FetchOptional(query)
            | Request::FetchOne(query) => !query.has_arguments(),
            _ => false,
        }
    }

    /// The statement that is described by it, or else the same request.
    pub fn into_extended(self) -> Result<Extended, Self>
        ensures ok { IfOk result (λ x. self ≡ Request.Describe x) }
        ensures err { IfErr result (λ same. (same ≡ self) × ((x : ExtendedOf) → self ≡ Request.Describe x → ⊥)) }
    {
        match self {
            Request::Describe(extended) => Ok(extended),
            other => Err(other),
        }
    }

    /// The statement that is run by it, or else the same request.
    pub fn into_bound(self) -> Result<Bound, Self>
        ensures ok { IfOk result (λ b. self ≡ Request.Run b) }
        ensures err { IfErr result (λ same. (same ≡ self) × ((b : BoundOf) → self ≡ Request.Run b → ⊥)) }
    {
        match self {
            Request::Run(bound) => Ok(bound),
            other => Err(other),
        }
    }

    /// A query without arguments, in this way.
    pub fn raw(how: How, query: Query) -> Self
        ensures { result ≡ raw how query }
    {
        match how {
            How::Execute => Request::Execute(query),
            How::ExecuteMany => Request::ExecuteMany(query),
            How::Fetch => Request::Fetch(query),
            How::FetchMany => Request::FetchMany(query),
            How::FetchAll => Request::FetchAll(query),
            How::FetchOptional => Request::FetchOptional(query),
            How::FetchOne => Request::FetchOne(query),
        }
    }

    /// What is asked, without its text.
    pub fn kind(&self) -> Kind
        ensures { result ≡ kind_of self.now }
    {
        match self {
            Request::Execute(_) => Kind::Run(How::Execute),
            Request::ExecuteMany(_) => Kind::Run(How::ExecuteMany),
            Request::Fetch(_) => Kind::Run(How::Fetch),
            Request::FetchMany(_) => Kind::Run(How::FetchMany),
            Request::FetchAll(_) => Kind::Run(How::FetchAll),
            Request::FetchOptional(_) => Kind::Run(How::FetchOptional),
            Request::FetchOne(_) => Kind::Run(How::FetchOne),
            Request::Begin(_) | Request::BeginWith(_) => Kind::Begin,
            Request::Commit(_) => Kind::Commit,
            Request::Rollback(_) => Kind::Rollback,
            Request::Describe(_) => Kind::Describe,
            Request::Run(bound) => Kind::Run(bound.how),
            Request::Look(_) | Request::Fill(_) | Request::Evict(_) => Kind::Describe,
            Request::Prepare(_) => Kind::Prepare,
            Request::Clear(_) => Kind::Clear,
            Request::Ping => Kind::Ping,
            Request::Flush => Kind::Flush,
            Request::Close => Kind::Close,
            Request::CopyOut(_) => Kind::CopyOut,
            Request::CopyIn(_) => Kind::CopyIn,
        }
    }

    /// What it makes of the statements that are kept.
    pub fn keeping(&self) -> Keeping
        ensures { result ≡ keeping_of self.now }
    {
        match self {
            Request::Describe(extended) => extended.keeping(),
            Request::Run(bound) => bound.keeping,
            Request::Evict(_) => Keeping::Evicts,
            Request::Fill(filling) => filling.bound.keeping,
            Request::Prepare(prepared) => prepared.keeping,
            Request::Clear(_) => Keeping::Clears,
            _ => Keeping::Stays,
        }
    }

    /// What comes of it at its end, and the heading of its rows before a message of the reply has come, where this is its kind.
    pub(crate) fn into_parts(self, kind: Kind) -> (Rest, Heading)
        requires { kind ≡ kind_of self }
        ensures { result ≡ (rest_of self, heading_of self) }
    {
        match self {
            Request::Describe(extended) => (Rest::Describe(extended), raw_heading(kind)),
            Request::Run(bound) => (Rest::Nothing, bound.into_heading()),
            Request::Look(lookup) => (Rest::Look(lookup.into_extended()), raw_heading(kind)),
            Request::Fill(filling) => (Rest::Fill(filling.into_bound()), raw_heading(kind)),
            Request::Evict(eviction) => (Rest::After(eviction.into_after()), raw_heading(kind)),
            Request::Prepare(prepared) => (Rest::Tell(prepared), raw_heading(kind)),
            _ => (Rest::Nothing, raw_heading(kind)),
        }
    }

    // What is answered where nothing is left but to send.
    pub(crate) fn into_answer(self) -> CallAnswer
        ensures { result ≡ sent_rest (rest_of self) }
    {
        match self {
            Request::Prepare(prepared) => CallAnswer::Statement(prepared),
            _ => CallAnswer::Unit,
        }
    }

    /// The frames that ask it, or why no frame can: too many arguments, a zero byte in the text or in the name of a type, a text that is too long for a frame, or no number that is
    /// left for a name.
    pub fn encode(&self, alloc: Global) -> Result<Blob, Error>
        ensures ok { IfOk result (λ frames. frames ≡ spelled (messages_of self.now)) }
        ensures said { OnOk result (CanBeSaid self.now) }
        ensures err { IfErr result (IsRefusal self.now) }
    {
        let mut frames = Blob::new(alloc);
        match self {
            Request::Execute(query)
            | Request::ExecuteMany(query)
            | Request::Fetch(query)
            | Request::FetchMany(query)
            | Request::FetchAll(query)
            | Request::FetchOptional(query)
            | Request::FetchOne(query)
            | Request::BeginWith(query)
            | Request::CopyOut(query) => encode_query(&mut frames, query.sql())?,
            Request::Begin(depth) => encode_query(&mut frames, begin_text(*depth).as_str())?,
            Request::Commit(left) => encode_query(&mut frames, commit_text(*left).as_str())?,
            Request::Rollback(left) => encode_query(&mut frames, rollback_text(*left).as_str())?,
            Request::Describe(extended) => encode_description(&mut frames, extended)?,
            Request::Look(lookup) => encode_query(&mut frames, lookup.text.as_str())?,
            Request::Fill(filling) => encode_query(&mut frames, filling.text.as_str())?,
            Request::Run(bound) => encode_run(&mut frames, bound)?,
            Request::Evict(eviction) => encode_closing(&mut frames, &[eviction.statement])?,
            Request::Clear(statements) => encode_closing(&mut frames, statements.as_slice())?,
            Request::Ping => encode_sync(&mut frames)?,
            Request::Close => encode_terminate(&mut frames)?,
            Request::CopyIn(feed) => encode_feed(&mut frames, feed)?,
            Request::Prepare(prepared) => check_types_declared(prepared.declared())?,
            Request::Flush => {}
        }
        Ok(frames)
    }
}
