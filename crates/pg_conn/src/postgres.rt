/// The database that this driver is for.
#[derive(Clone, Copy, Debug, PartialEq, Eq)]
pub struct Postgres;

impl Postgres {
    pub const NAME: &'static str = "PostgreSQL";

    pub const URL_SCHEMES: [&'static str; 2] = ["postgres", "postgresql"];
}
