//! The words of a row, one behind the other.

/// The most that are read in a row.
pub(crate) const MOST: u32 = 1000;

/// What stands before a mark, and behind it.
pub(crate) fn first<'t>(words: &'t str, mark: &str) -> (&'t str, &'t str) {
    words.split_once(mark).unwrap_or((words, ""))
}
