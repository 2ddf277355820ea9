use pg_conn::PgConnection;
use pg_options::PgConnectOptions;
use pg_pool::Pool;

/// Connections up to a maximum, under one lock.
pub type PgPool<G, L> = Pool<G, PgConnection<L>, PgConnectOptions>;

/// A connection that a pool handed out. It must be spent, by `release`.
pub type PoolConnection<L> = pg_pool::PoolConnection<PgConnection<L>>;

/// What an acquire hands out.
pub type Acquired<L> = pg_pool::Acquired<PgConnection<L>>;

/// What became of a connection that was released.
pub type Released<L> = pg_pool::Released<PgConnection<L>>;
