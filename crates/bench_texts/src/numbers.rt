//! The numbers of a measure.

use std::env::Args;

/// The next word as a number, or what is given where it isn't there or is no number.
pub(crate) fn number(words: &mut Args, default: u32) -> u32 {
    match words.next() {
        Some(word) => word.as_str().parse::<u32>().unwrap_or(default),
        None => default,
    }
}
