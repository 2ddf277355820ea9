//! What is handed back to where it comes from.
ghost use Rattle.std.specs.Prelude.{◌≡◌, None};
ghost use Rattle.pg_listening.specs.Leaving.{as_refusal, link_back};

use pg_listen::Released;
use pg_wire::Error;

/// What was handed back leaves nothing to let go.
pub(crate) fn spent<T>(rest: Option<T>)
    requires { rest ≡ None }
{
    match rest {
        None => {}
        Some(_kept) => unreachable!(),
    }
}

/// The link of a connection that the pool keeps no longer.
pub(crate) fn link_back<L>(released: Option<Released<L>>) -> Option<L>
    ensures { result ≡ link_back released }
{
    match released {
        Some(Released::Foreign(conn)) => Some(conn.close_hard()),
        Some(Released::Closed(conn)) => Some(conn.close_hard()),
        Some(Released::Kept) => None,
        None => None,
    }
}

/// That the pool was closed, as an error with the place of its entry.
pub(crate) fn as_refusal(closed: Result<Option<u64>, Error>) -> Result<(), Error>
    ensures { result ≡ as_refusal closed }
{
    match closed {
        Ok(Some(place)) => Err(Error::PoolClosed { place }),
        Ok(None) => Ok(()),
        Err(e) => Err(e),
    }
}
