ghost use Rattle.std.specs.Prelude.{◌≡◌, true, false};

/// A connection that a pool handed out. It must be spent.
pub struct PoolConnection<C> {
    pub conn: C,
    pub(crate) id: u64,
    pub(crate) name: u64,
    pub(crate) close: bool,
}

/// Leave to make a connection. It must be spent.
pub struct Ticket {
    pub(crate) id: u64,
    pub(crate) name: u64,
}

/// What an acquire hands out.
pub enum Acquired<C> {
    Idle(PoolConnection<C>),
    New(Ticket),
}

/// What became of a connection that was released.
pub enum Released<C> {
    /// The participant doesn't hold it, or it isn't out in this pool. Nothing was noted.
    Foreign(C),
    /// The pool keeps it.
    Kept,
    /// The pool was closed, or the connection was not to be kept or isn't clean.
    Closed(C),
}

impl<C> PoolConnection<C> {
    /// The name of the pool.
    pub fn pool_name(&self) -> u64
        ensures { result ≡ self.now.name }
    {
        self.name
    }

    /// The pool is not to keep it.
    pub fn close_on_drop(&mut self)
        ensures { self.new ≡ record self.old { close = true } }
    {
        self.close = true;
    }
}

impl Ticket {
    /// The name of the pool.
    pub fn pool_name(&self) -> u64
        ensures { result ≡ self.now.name }
    {
        self.name
    }

    /// The connection that was made with this leave.
    pub fn fill<C>(self, conn: C) -> PoolConnection<C>
        ensures { result ≡ record { conn = conn; id = self.id; name = self.name; close = false } }
    {
        let Ticket { id, name } = self;
        PoolConnection {
            conn,
            id,
            name,
            close: false,
        }
    }
}
