//! The numbers of a measure.
ghost use Rattle.std.specs.Prelude.{◌≤◌};

use std::env::Args;

/// The next word as a number of at most so much, or what is given where it isn't there or is no
/// number.
pub(crate) fn number(words: &mut Args, default: u32, most: u32) -> u32
    requires { default ≤ most }
    ensures { result ≤ most }
{
    match words.next() {
        Some(word) => word.as_str().parse::<u32>().unwrap_or(default).min(most),
        None => default,
    }
}
