//! A bit for each of many places.
ghost use Rattle.std.specs.Prelude.{◌≡◌, ◌<◌, length, replicate, false, slice_index_or, slice_set, IfOk};

use std::alloc::{AllocError, Global};
use std::marker::Model;

// Bits by place, 64 in a word.
#[derive(Drop)]
pub(crate) struct BitMap {
    words: Vec<u64>,
    count: u32,
}

impl Model for BitMap {
    ghost use Rattle.std.specs.Prelude.{◌*◌, ◌≤◌, Bool, List, vec_len};
    ghost use Rattle.disk_mirror.specs.BitSeen.{word_bits};

    ghost Value = { List Bool };

    ghost view = { λ m. word_bits m.words.items m.count };

    ghost invariant = { λ m. m.count ≤ 64 * vec_len m.words };
}

impl BitMap {
    // So many bits, which are all the same.
    pub(crate) fn filled(alloc: Global, count: u32, bit: bool) -> Result<BitMap, AllocError>
        ensures { IfOk result (λ bits. bits ≡ replicate count bit) }
    {
        let word = if bit { u64::MAX } else { 0 };
        let words = vec![in alloc; word; count.div_ceil(64) as usize]?;
        Ok(BitMap { words, count })
    }

    pub(crate) fn get(&self, place: u32) -> bool
        requires { place < length self.now }
        ensures { result ≡ slice_index_or self.now place false }
    {
        let word = self.words[(place / 64) as usize];
        word >> (place % 64) & 1 == 1
    }

    pub(crate) fn set(&mut self, place: u32, bit: bool)
        requires { place < length self.old }
        ensures { self.new ≡ slice_set self.old place bit }
    {
        let word = &mut self.words[(place / 64) as usize];
        let mask = 1 << (place % 64);
        *word = if bit { *word | mask } else { *word & !mask };
    }
}
