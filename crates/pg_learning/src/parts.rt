// What a row of the type lookup tells, in three parts.

use pg_resolve::{TypCategory, TypType};
use pg_wire::{Oid, Sequence, Text};

#[derive(Drop)]
pub(crate) struct Names {
    pub(crate) oid: Oid,
    pub(crate) pretty_name: Text,
    pub(crate) catalog_name: Text,
    pub(crate) original_name: Option<Text>,
}

#[derive(Clone, Copy)]
pub(crate) struct Codes {
    pub(crate) typtype: TypType,
    pub(crate) typcategory: TypCategory,
    pub(crate) typelem: Option<Oid>,
    pub(crate) typbasetype: Option<Oid>,
    pub(crate) rngsubtype: Option<Oid>,
}

#[derive(Drop)]
pub(crate) struct Members {
    pub(crate) enum_labels: Sequence<Text>,
    pub(crate) record_attributes: Sequence<(Text, Oid)>,
}
