//! Blocks of volumes: tables as words at their places.
ghost use Rattle.std.specs.Prelude.{◌≡◌, length};

use block_device::Block;
use std::alloc::{AllocError, Global};

// A number of 4 bytes at a place of a block.
pub type Word = (usize, u32);

pub fn put_words(block: &mut [u8], words: &[Word])
    requires { length block.old ≡ 4096 }
{
    for &(at, word) in words {
        if at <= 4092 {
            block[at..at + 4].copy_from_slice(&word.to_be_bytes());
        }
    }
}

// The table of the first path's disk, as version 1 says it.
pub const OLD_TABLE: [Word; 10] = [
    (0, 0x53554e56),
    (4, 0x4d564f4c),
    (8, 1),
    (12, 8),
    (16, 1),
    (32, 0x61000000),
    (48, 5),
    (52, 1),
    (56, 2),
    (60, 1),
];

// The same table in version 2.
pub const TABLE: [Word; 12] = [
    (0, 0x53554e56),
    (4, 0x4d564f4c),
    (8, 2),
    (12, 8),
    (16, 1),
    (20, 1),
    (32, 0x61000000),
    (48, 5),
    (56, 1),
    (60, 1),
    (2080, 1),
    (2084, 2),
];

// So many blocks, each full of this byte but for these words.
pub fn blocks_of(
    alloc: Global,
    count: usize,
    byte: u8,
    words: &[Word],
) -> Result<Vec<Block>, AllocError> {
    let mut bytes = [byte; 4096];
    put_words(&mut bytes, words);
    vec![in alloc; Block::new(bytes); count]
}
