// The Rust types whose values can be read.

mod bool;
mod numbers;
mod optional;
mod texts;
