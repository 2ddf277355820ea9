//! What the words of a line stand for. Want of memory makes something shorter of them, and so another answer than the line's.

use crate::row::{text, two};
use pg_wire::{Oid, Text};
use std::alloc::Global;

/// The word in front of the next mark; behind the last word there are minuses.
pub fn next<'w>(words: &mut &'w str, mark: char) -> &'w str {
    let (word, rest) = words.split_once(mark).unwrap_or((*words, "-"));
    *words = rest;
    word
}

/// A number, or 0 where there is none.
pub fn number(word: &str) -> u32 {
    word.parse::<u32>().unwrap_or(0)
}

/// The number of a column, or 0 where there is none.
pub fn attribute(word: &str) -> i16 {
    word.parse::<i16>().unwrap_or(0)
}

/// A text, where there is one.
pub fn text_or_none(alloc: Global, word: &str) -> Option<Text> {
    if word == "-" {
        return None;
    }
    Some(text(alloc, word))
}

/// What is written as one word.
pub trait Worded: Sized + Drop {
    fn of_word(alloc: Global, word: &str) -> Self;
}

impl Worded for Text {
    fn of_word(alloc: Global, word: &str) -> Self {
        text(alloc, word)
    }
}

/// An attribute of a type, as `age:23`.
impl Worded for (Text, Oid) {
    fn of_word(alloc: Global, word: &str) -> Self {
        let (name, oid) = two(word, ':');
        (text(alloc, name), Oid(number(oid)))
    }
}

/// A column of a table, as `2:name`.
impl Worded for (i16, Text) {
    fn of_word(alloc: Global, word: &str) -> Self {
        let (place, name) = two(word, ':');
        (attribute(place), text(alloc, name))
    }
}

/// What the words between these marks stand for; a minus alone stands for none.
pub fn list<T: Worded>(alloc: Global, words: &str, mark: char) -> Vec<T> {
    let mut list = Vec::new(alloc);
    if words == "-" {
        return list;
    }
    for word in words.split(mark) {
        let _ = list.push(T::of_word(alloc, word));
    }
    list
}
