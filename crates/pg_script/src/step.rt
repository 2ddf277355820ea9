ghost use Rattle.std.specs.Prelude.{◌≡◌, IfOk, IfErr};

use crate::block::InBlock;
use pg_call::{Bound, Eviction, Extended, Filling, Lookup, Prepared};
use pg_locks::PgAdvisoryLockKey;
use pg_request::{Preparation, Query};
use pg_wire::{Blob, Error, Sequence, StatementId, Text};
use std::alloc::Global;

/// What becomes of a copy from the client once its data is queued.
#[derive(Debug, Drop)]
pub enum CopyEnd {
    /// Its data is ended, and the server counts its rows.
    Finish,
    /// It is failed by this message.
    Abort(Text),
    /// Its data is sent, and it is left as it stands.
    Leave,
}

/// A copy from the client: its text, its data in pieces, and what becomes of it.
#[derive(Debug, Drop)]
pub struct Copying {
    pub sql: Text,
    pub pieces: Sequence<Blob>,
    pub end: CopyEnd,
}

/// How a copy from the client that was open was given up, all of its data being queued.
#[derive(Debug, Drop)]
pub enum Parting {
    /// It wasn't, or for another cause.
    None,
    /// It was left as it stood, once all was sent.
    Left,
    /// It was left since the message that was to fail it can't be said.
    Unsaid,
    /// It was failed by this message.
    Failed(Text),
}

/// A copy from the client as it came: its text, and the messages of data that were queued.
#[derive(Debug, Drop)]
pub struct Fed {
    pub sql: Text,
    pub pieces: Sequence<Blob>,
    /// Whether their end was queued behind them.
    pub is_ended: bool,
    pub parting: Parting,
}

/// Calls of a connection one behind another, of which a script says all by one word.
#[derive(Debug, Drop)]
pub enum Chain {
    /// Prepares a text, and asks of its columns whether they may be null.
    Describe(Text),
    /// Copies from the client.
    CopyIn(InBlock<Copying>),
    /// Takes the advisory lock of a key, waits for it, and has a guard of it from then on.
    Lock(PgAdvisoryLockKey),
    /// Takes it where nobody else holds it, with a guard as well, and tells whether it did.
    TryLock(PgAdvisoryLockKey),
    /// Releases it, and tells whether it was held. A guard of it stays.
    Unlock(PgAdvisoryLockKey),
    /// Gives the first guard of that key up, where there is one, and releases its lock without waiting for it.
    DropLock(PgAdvisoryLockKey),
}

// The same pieces again.
fn copied_pieces(alloc: Global, pieces: &Sequence<Blob>) -> Result<Sequence<Blob>, Error>
    ensures copy { IfOk result (λ s. s ≡ pieces.now) }
    ensures memory { IfErr result (λ e. e ≡ Error.OutOfMemory) }
{
    let mut copies = Sequence::new(alloc);
    for piece in pieces.as_slice() {
        copies.push(piece.to_copy(alloc)?)?;
    }
    Ok(copies)
}

impl CopyEnd {
    /// An equal end. Only want of memory refuses it.
    pub fn to_copy(&self, alloc: Global) -> Result<Self, Error>
        ensures copy { IfOk result (λ e. e ≡ self.now) }
        ensures memory { IfErr result (λ e. e ≡ Error.OutOfMemory) }
    {
        Ok(match self {
            CopyEnd::Finish => CopyEnd::Finish,
            CopyEnd::Abort(message) => CopyEnd::Abort(message.to_copy(alloc)?),
            CopyEnd::Leave => CopyEnd::Leave,
        })
    }
}

impl Parting {
    /// An equal one. Only want of memory refuses it.
    pub fn to_copy(&self, alloc: Global) -> Result<Self, Error>
        ensures copy { IfOk result (λ p. p ≡ self.now) }
        ensures memory { IfErr result (λ e. e ≡ Error.OutOfMemory) }
    {
        Ok(match self {
            Parting::None => Parting::None,
            Parting::Left => Parting::Left,
            Parting::Unsaid => Parting::Unsaid,
            Parting::Failed(message) => Parting::Failed(message.to_copy(alloc)?),
        })
    }
}

impl Copying {
    /// An equal copy. Only want of memory refuses it.
    pub fn to_copy(&self, alloc: Global) -> Result<Self, Error>
        ensures copy { IfOk result (λ c. c ≡ self.now) }
        ensures memory { IfErr result (λ e. e ≡ Error.OutOfMemory) }
    {
        let sql = self.sql.to_copy(alloc)?;
        let pieces = copied_pieces(alloc, &self.pieces)?;
        let end = self.end.to_copy(alloc)?;
        Ok(Copying { sql, pieces, end })
    }
}

impl Fed {
    /// An equal copy. Only want of memory refuses it.
    pub fn to_copy(&self, alloc: Global) -> Result<Self, Error>
        ensures copy { IfOk result (λ c. c ≡ self.now) }
        ensures memory { IfErr result (λ e. e ≡ Error.OutOfMemory) }
    {
        let sql = self.sql.to_copy(alloc)?;
        let pieces = copied_pieces(alloc, &self.pieces)?;
        let parting = self.parting.to_copy(alloc)?;
        Ok(Fed {
            sql,
            pieces,
            is_ended: self.is_ended,
            parting,
        })
    }
}

impl Chain {
    /// Equal calls. Only want of memory refuses them.
    pub fn to_copy(&self, alloc: Global) -> Result<Self, Error>
        ensures copy { IfOk result (λ c. c ≡ self.now) }
        ensures memory { IfErr result (λ e. e ≡ Error.OutOfMemory) }
    {
        Ok(match self {
            Chain::Describe(text) => Chain::Describe(text.to_copy(alloc)?),
            Chain::CopyIn(copying) => Chain::CopyIn(InBlock::new(
                alloc,
                copying.get().to_copy(alloc)?,
            )?),
            Chain::Lock(key) => Chain::Lock(*key),
            Chain::TryLock(key) => Chain::TryLock(*key),
            Chain::Unlock(key) => Chain::Unlock(*key),
            Chain::DropLock(key) => Chain::DropLock(*key),
        })
    }
}

/// A call of a script.
#[derive(Debug, Drop)]
pub enum Call {
    Execute(Query),
    ExecuteMany(Query),
    Fetch(Query),
    FetchMany(Query),
    FetchAll(Query),
    FetchOptional(Query),
    FetchOne(Query),
    Ping,
    Flush,
    /// Opens a transaction, or a savepoint in one.
    Begin,
    /// The same by a text of its own, which opens no savepoint.
    BeginWith(Query),
    Commit,
    Rollback,
    /// Queues a rollback without waiting for it.
    StartRollback,
    /// Queues this text of SQL, which releases a lock, without waiting for it. No script says it alone.
    Release(Text),
    /// The first exchange of a query with arguments, which describes it. No script says it alone.
    Describe(InBlock<Extended>),
    /// The one that runs what was described, or what is kept.
    Run(InBlock<Bound>),
    /// Prepares a text, and tells its parameters and columns.
    Prepare(Preparation),
    /// Closes all statements that are kept.
    Clear,
    /// Copies from the server, piece by piece.
    CopyOut(Query),
    /// Calls one behind another.
    Chain(Chain),
    /// The exchange that closes a statement for another one. No script says it alone.
    Evict(InBlock<Eviction>),
    /// The one that looks up types, or the names of columns, for a statement that was described.
    Look(InBlock<Lookup>),
    /// The one that looks up types within the arguments with which a statement is run.
    Fill(InBlock<Filling>),
    /// The one that tells what a statement was described to be, which asks nothing of the server.
    Tell(InBlock<Prepared>),
    /// The one that closes these statements.
    CloseAll(Sequence<StatementId>),
    /// A copy from the client with what it was fed. No script says it alone.
    Feed(InBlock<Fed>),
}

// The same numbers again.
fn copied(alloc: Global, statements: &Sequence<StatementId>) -> Result<Sequence<StatementId>, Error>
    ensures copy { IfOk result (λ s. s ≡ statements.now) }
    ensures memory { IfErr result (λ e. e ≡ Error.OutOfMemory) }
{
    let mut copies = Vec::new(alloc);
    copies.extend_from_slice(statements.as_slice())?;
    Ok(Sequence::from_vec(copies))
}

impl Call {
    /// An equal call. Only want of memory refuses it.
    pub fn to_copy(&self, alloc: Global) -> Result<Self, Error>
        ensures copy { IfOk result (λ c. c ≡ self.now) }
        ensures memory { IfErr result (λ e. e ≡ Error.OutOfMemory) }
    {
        Ok(match self {
            Call::Execute(query) => Call::Execute(query.to_copy(alloc)?),
            Call::ExecuteMany(query) => Call::ExecuteMany(query.to_copy(alloc)?),
            Call::Fetch(query) => Call::Fetch(query.to_copy(alloc)?),
            Call::FetchMany(query) => Call::FetchMany(query.to_copy(alloc)?),
            Call::FetchAll(query) => Call::FetchAll(query.to_copy(alloc)?),
            Call::FetchOptional(query) => Call::FetchOptional(query.to_copy(alloc)?),
            Call::FetchOne(query) => Call::FetchOne(query.to_copy(alloc)?),
            Call::Ping => Call::Ping,
            Call::Flush => Call::Flush,
            Call::Begin => Call::Begin,
            Call::BeginWith(query) => Call::BeginWith(query.to_copy(alloc)?),
            Call::Commit => Call::Commit,
            Call::Rollback => Call::Rollback,
            Call::StartRollback => Call::StartRollback,
            Call::Release(text) => Call::Release(text.to_copy(alloc)?),
            Call::Describe(extended) => Call::Describe(InBlock::new(
                alloc,
                extended.get().to_copy(alloc)?,
            )?),
            Call::Run(bound) => Call::Run(InBlock::new(alloc, bound.get().to_copy(alloc)?)?),
            Call::Prepare(preparation) => Call::Prepare(preparation.to_copy(alloc)?),
            Call::Clear => Call::Clear,
            Call::CopyOut(query) => Call::CopyOut(query.to_copy(alloc)?),
            Call::Chain(chain) => Call::Chain(chain.to_copy(alloc)?),
            Call::Evict(eviction) => Call::Evict(InBlock::new(
                alloc,
                eviction.get().to_copy(alloc)?,
            )?),
            Call::Look(lookup) => Call::Look(InBlock::new(alloc, lookup.get().to_copy(alloc)?)?),
            Call::Fill(filling) => Call::Fill(InBlock::new(alloc, filling.get().to_copy(alloc)?)?),
            Call::Tell(prepared) => Call::Tell(InBlock::new(
                alloc,
                prepared.get().to_copy(alloc)?,
            )?),
            Call::CloseAll(statements) => Call::CloseAll(copied(alloc, statements)?),
            Call::Feed(fed) => Call::Feed(InBlock::new(alloc, fed.get().to_copy(alloc)?)?),
        })
    }
}

/// A call, and when it is dropped: after so many polls that answered `Pending`, or so many items.
#[derive(Debug, Drop)]
pub struct Step {
    pub call: Call,
    pub polls: u32,
    pub most: u32,
}

impl Step {
    /// An equal step. Only want of memory refuses it.
    pub fn to_copy(&self, alloc: Global) -> Result<Self, Error>
        ensures copy { IfOk result (λ s. s ≡ self.now) }
        ensures memory { IfErr result (λ e. e ≡ Error.OutOfMemory) }
    {
        let call = self.call.to_copy(alloc)?;
        Ok(Step {
            call,
            polls: self.polls,
            most: self.most,
        })
    }
}
