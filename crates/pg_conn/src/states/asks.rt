ghost use Rattle.pg_call.specs.declared.request.Request.{Request};

use crate::Request;

/// What the state of a call holds until its first poll: the request that it asks, which is a `Request`.
pub trait Asks {
    ghost asked: { Self → Request };
}

impl Asks for Request {
    ghost asked = { λ request. request };
}
