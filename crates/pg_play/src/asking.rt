ghost use Rattle.std.specs.Prelude.{◌≡◌, true, IfOk, OnErr};
ghost use Rattle.pg_conn.specs.States.{to_prepare};
ghost use Rattle.pg_play.specs.Shown.{IsUncopied, asked_of, has_query};

use pg_conn::{Preparation, Request, prepare_request};
use pg_script::Call;
use pg_wire::{Error, Sequence};
use std::alloc::Global;

// What is to be prepared, in a copy of its own.
fn preparing(alloc: Global, preparation: &Preparation) -> Result<Request, Error>
    ensures ok { IfOk result (λ r. r ≡ to_prepare preparation.now) }
{
    let preparation = preparation.to_copy(alloc)?;
    Ok(prepare_request(alloc, preparation))
}

/// What the call of a step asks of a connection on which so many transactions and savepoints are open, in a copy of its own. A copy from the client as it came is not asked for.
pub(crate) fn request_of(alloc: Global, depth: u64, call: &Call) -> Result<Request, Error>
    ensures ok { IfOk result (λ r. r ≡ asked_of depth call.now) }
    ensures plain { IfOk result IsUncopied }
    ensures err { OnErr result (has_query call.now ≡ true) }
{
    Ok(match call {
        Call::Execute(query) => Request::Execute(query.to_copy(alloc)?),
        Call::ExecuteMany(query) => Request::ExecuteMany(query.to_copy(alloc)?),
        Call::Fetch(query) => Request::Fetch(query.to_copy(alloc)?),
        Call::FetchMany(query) => Request::FetchMany(query.to_copy(alloc)?),
        Call::FetchAll(query) => Request::FetchAll(query.to_copy(alloc)?),
        Call::FetchOptional(query) => Request::FetchOptional(query.to_copy(alloc)?),
        Call::FetchOne(query) => Request::FetchOne(query.to_copy(alloc)?),
        Call::Ping => Request::Ping,
        Call::Begin => Request::Begin(depth),
        Call::BeginWith(query) => Request::BeginWith(query.to_copy(alloc)?),
        Call::Commit if depth > 0 => Request::Commit(depth - 1),
        Call::Rollback if depth > 0 => Request::Rollback(depth - 1),
        Call::Prepare(preparation) => preparing(alloc, preparation)?,
        Call::Clear => Request::Clear(Sequence::new(alloc)),
        Call::CopyOut(query) => Request::CopyOut(query.to_copy(alloc)?),
        Call::Feed(_) => return Err(Error::OutOfMemory),
        Call::Commit
        | Call::Rollback
        | Call::Flush
        | Call::StartRollback
        | Call::Release(_)
        | Call::Chain(_)
        | Call::Describe(_)
        | Call::Run(_)
        | Call::Evict(_)
        | Call::Look(_)
        | Call::Fill(_)
        | Call::Tell(_)
        | Call::CloseAll(_) => Request::Flush,
    })
}
