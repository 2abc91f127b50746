//! Words of 1, 2 or 4 bytes, in big-endian order.
ghost use Rattle.std.specs.Prelude.{◌≡◌, length};
ghost use Rattle.vm_types.specs.Words.{IsWordSize, FitsWord, word_value, word_bytes};

use crate::line::Line;

/// The bytes of a word of 1, 2 or 4 bytes that has this value, the highest first.
pub fn word_bytes(size: u32, value: u32) -> Line
    requires size { IsWordSize size }
    requires fits { FitsWord size value }
    ensures bytes { result ≡ word_bytes size value }
    ensures number { word_value result ≡ value }
{
    let bytes = value.to_be_bytes();
    Line::new(&bytes[4 - size as usize..])
}

/// The value of a word of 1, 2 or 4 bytes, the highest first.
pub fn word_value(bytes: &[u8]) -> u32
    requires { IsWordSize (length bytes.now) }
    ensures number { result ≡ word_value bytes.now }
    ensures fits { FitsWord (length bytes.now) result }
    ensures bytes { word_bytes (length bytes.now) result ≡ bytes.now }
{
    match *bytes {
        [a] => a as u32,
        [a, b] => u16::from_be_bytes([a, b]) as u32,
        [a, b, c, d] => u32::from_be_bytes([a, b, c, d]),
        // The length is 1, 2 or 4.
        _ => unreachable!(),
    }
}
