//! A file as the lines before the entries tell it.
ghost use Rattle.std.specs.Prelude.{◌≤◌, length};

use crate::opening_words::FileHead;

/// A file's line, and its first bytes, behind which zeros follow up to its length.
#[derive(Drop)]
pub struct TracedFile {
    pub head: FileHead,
    pub bytes: Vec<u8>,
    ghost fits: { length bytes.items ≤ head.len },
}
