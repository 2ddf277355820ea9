/// Whether a text is that of an array or of a record.
#[derive(Clone, Copy)]
pub(crate) enum Style {
    Array,
    Record,
}
