// The Rust types that have a type of PostgreSQL.

mod bool;
mod numbers;
mod optional;
mod texts;
