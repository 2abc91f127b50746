//! Words in a page.
ghost use Rattle.std.specs.Prelude.{◌≡◌, ◌%◌, length};
ghost use Rattle.vm_types.specs.Words.{IsWordSize, FitsWord};
ghost use Rattle.flat_model.specs.Words.{word_at, word_put};

use vm_types::{word_bytes, word_value};

/// The word of 1, 2 or 4 bytes at an address that is a multiple of its size, in the page that the address lies in.
pub fn word_at(page: &[u8], addr: u32, size: u32) -> u32
    requires size { IsWordSize size }
    requires aligned { addr % size ≡ 0 }
    requires whole { length page.now ≡ 4096 }
    ensures { result ≡ word_at page.now addr size }
{
    let at = (addr % 4096) as usize;
    word_value(&page[at..at + size as usize])
}

/// Puts a word of 1, 2 or 4 bytes at an address that is a multiple of its size, into the page that the address lies in.
pub fn word_put(page: &mut [u8], addr: u32, size: u32, value: u32)
    requires size { IsWordSize size }
    requires fits { FitsWord size value }
    requires aligned { addr % size ≡ 0 }
    requires whole { length page.old ≡ 4096 }
    ensures { page.new ≡ word_put page.old addr size value }
{
    let at = (addr % 4096) as usize;
    let word = word_bytes(size, value);
    page[at..at + size as usize].copy_from_slice(word.bytes());
}
