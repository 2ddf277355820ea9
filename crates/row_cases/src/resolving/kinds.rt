//! What a type is made of, in words.

use crate::telling::push;
use pg_arguments::{PgTypeInfo, PgTypeKind};
use pg_wire::Text;

fn push_labels(told: &mut String, labels: &[Text]) {
    push(told, "enum");
    for label in labels {
        push(told, " ");
        push(told, label.as_str());
    }
}

fn push_attributes(told: &mut String, attributes: &[(Text, PgTypeInfo)]) {
    push(told, "composite");
    for attribute in attributes {
        push(told, " ");
        push(told, attribute.0.as_str());
        push(told, ":");
        push(told, attribute.1.name());
    }
}

fn push_other(told: &mut String, word: &str, of: &PgTypeInfo) {
    push(told, word);
    push(told, of.name());
}

/// The kind of a type.
pub fn push_kind(told: &mut String, kind: &PgTypeKind) {
    match kind {
        PgTypeKind::Simple => push(told, "simple"),
        PgTypeKind::Pseudo => push(told, "pseudo"),
        PgTypeKind::Domain(base) => push_other(told, "domain ", base),
        PgTypeKind::Composite(parts) => push_attributes(told, parts),
        PgTypeKind::Array(element) => push_other(told, "array ", element),
        PgTypeKind::Enum(labels) => push_labels(told, labels.as_slice()),
        PgTypeKind::Range(bound) => push_other(told, "range ", bound),
    }
}
