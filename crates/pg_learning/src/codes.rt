ghost use Rattle.pg_learning.specs.Texts.{IsTypType, IsTypCategory};

use crate::from_text::FromText;
use pg_resolve::{TypCategory, TypType};
use pg_wire::Error;
use std::alloc::Global;

impl FromText for TypType {
    ghost means = { IsTypType };

    fn from_text(_alloc: Global, bytes: &[u8]) -> Result<Self, Error> {
        match bytes {
            b"b" => Ok(TypType::Base),
            b"c" => Ok(TypType::Composite),
            b"d" => Ok(TypType::Domain),
            b"e" => Ok(TypType::Enum),
            b"p" => Ok(TypType::Pseudo),
            b"r" => Ok(TypType::Range),
            _ => Err(Error::Decode),
        }
    }
}

impl FromText for TypCategory {
    ghost means = { IsTypCategory };

    fn from_text(_alloc: Global, bytes: &[u8]) -> Result<Self, Error> {
        match bytes {
            b"A" => Ok(TypCategory::Array),
            b"B" => Ok(TypCategory::Boolean),
            b"C" => Ok(TypCategory::Composite),
            b"D" => Ok(TypCategory::DateTime),
            b"E" => Ok(TypCategory::Enum),
            b"G" => Ok(TypCategory::Geometric),
            b"I" => Ok(TypCategory::Network),
            b"N" => Ok(TypCategory::Numeric),
            b"P" => Ok(TypCategory::Pseudo),
            b"R" => Ok(TypCategory::Range),
            b"S" => Ok(TypCategory::String),
            b"T" => Ok(TypCategory::Timespan),
            b"U" => Ok(TypCategory::User),
            b"V" => Ok(TypCategory::BitString),
            b"X" => Ok(TypCategory::Unknown),
            _ => Err(Error::Decode),
        }
    }
}
