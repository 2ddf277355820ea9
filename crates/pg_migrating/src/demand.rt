//! What is asked of a connection.

ghost use Rattle.std.specs.Prelude.{◌≡◌};

use pg_call::{How, Request};
use pg_conn::commit_request;
use pg_request::Query;
use std::marker::Model;

#[derive(Drop)]
pub(crate) enum Wish {
    Query(How, Query),
    /// A transaction begins, or a savepoint, where so many are open.
    Begin(u64),
    /// The last of so many is committed.
    Commit(u64),
}

/// A request, as far as migrations ask such. A `Request` has what any call may ask, and is laid out wherever one is named.
pub struct Demand {
    pub(crate) of: Wish,
}

// By hand, so that whoever lets one go makes one call.
impl Drop for Demand {
    fn drop(self) {
        let Demand { of: _ } = self;
    }
}

impl Model for Demand {
    ghost use Rattle.pg_call.specs.declared.request.Request.{Request};
    ghost use Rattle.pg_migrating.specs.Demands.{request_by};

    ghost Value = { Request };

    ghost view = { λ d. request_by d.of };
}

impl Demand {
    /// The request that it is.
    pub(crate) fn into_request(self) -> Request
        ensures { result ≡ self }
    {
        let Demand { of } = self;
        match of {
            Wish::Query(how, query) => Request::raw(how, query),
            Wish::Begin(depth) => Request::Begin(depth),
            Wish::Commit(depth) => commit_request(depth),
        }
    }
}
