//! Numbers and bytes of a trace's lines, read loosely.
ghost use Rattle.std.specs.Prelude.{◌≡◌, ◌<◌, ◌≤◌, ◌^◌, ◌*◌, IsTrue, length, option_map, drop, IfSome};
ghost use Rattle.std.specs.List.{list_all};
ghost use Rattle.vm_report.specs.vm_script.Fields.{is_digit, is_hex_digit, digit_value, value_of_digits, hex_bytes};
ghost use Rattle.trace_text.specs.EntryReading as reading;

use vm_report::Line;

/// A number below 2^64, in decimal.
#[tactic(auto, unfolding(crate::specs::EntryReading::long_number_in), using(crate::proofs::Digits::not_all))]
pub fn long_number_in(word: &[u8]) -> Option<u64>
    ensures { result ≡ reading.long_number_in word.now }
{
    if word.is_empty() || word.len() > 20 {
        return None;
    }
    let mut value: u128 = 0;
    for b in word {
        if *b < b'0' || b'9' < *b {
            return None;
        }
        value = 10 * value + u128::from(*b - b'0');
    }
    u64::try_from(value).ok()
}

/// A number below 2^32, in decimal.
#[tactic(auto, unfolding(crate::specs::EntryReading::number_in))]
pub fn number_in(word: &[u8]) -> Option<u32>
    ensures { result ≡ reading.number_in word.now }
{
    let n = long_number_in(word)?;
    u32::try_from(n).ok()
}

// The value of a hexadecimal digit.
#[inline(always)]
fn digit_in(b: u8) -> Option<u8>
    ensures { result ≡ reading.digit_in b }
{
    if b'0' <= b && b <= b'9' {
        return Some(b - b'0');
    }
    if b'a' <= b && b <= b'f' {
        return Some(b - 87);
    }
    if b'A' <= b && b <= b'F' {
        return Some(b - 55);
    }
    None
}

/// A number of up to 16 hexadecimal digits.
#[tactic(auto, unfolding(crate::specs::EntryReading::mask_in), using(crate::proofs::Digits::not_all))]
pub fn mask_in(word: &[u8]) -> Option<u64>
    ensures { result ≡ reading.mask_in word.now }
{
    if word.is_empty() || word.len() > 16 {
        return None;
    }
    let mut value: u64 = 0;
    for b in word {
        let digit = digit_in(*b)?;
        value = 16 * value + u64::from(digit);
    }
    Some(value)
}

/// A number below 2^32, of up to 16 hexadecimal digits.
#[tactic(auto, unfolding(crate::specs::EntryReading::offset_in))]
pub fn offset_in(word: &[u8]) -> Option<u32>
    ensures { result ≡ reading.offset_in word.now }
{
    let n = mask_in(word)?;
    u32::try_from(n).ok()
}

/// A word behind `0x`.
#[tactic(auto, unfolding(crate::specs::EntryReading::word_in))]
pub fn word_in(word: &[u8]) -> Option<u32>
    ensures { result ≡ reading.word_in word.now }
{
    let digits = word.strip_prefix(b"0x".as_slice())?;
    offset_in(digits)
}

fn is_hex_digit(b: u8) -> bool
    ensures { result ≡ is_hex_digit b }
{
    (b'0' <= b && b <= b'9') || (b'A' <= b && b <= b'F') || (b'a' <= b && b <= b'f')
}

fn are_hexadecimal(word: &[u8]) -> bool
    ensures { result ≡ list_all is_hex_digit word.now }
{
    word.iter().all(|b| is_hex_digit(*b))
}

fn digit_value(b: u8) -> u8
    requires { IsTrue (is_hex_digit b) }
    ensures value { result ≡ digit_value b }
    ensures small { result < 16 }
{
    if b <= b'9' {
        b - b'0'
    } else if b <= b'F' {
        b - 55
    } else {
        b - 87
    }
}

// The bytes of up to 64 pairs of digits, over zeros, and their number.
fn pairs_in(digits: &[u8]) -> Line
    requires few { length digits.now ≤ 128 }
    requires digits { IsTrue (list_all is_hex_digit digits.now) }
    ensures { result ≡ hex_bytes digits.now }
{
    let mut bytes = [0; 64];
    let mut count = 0;
    let mut left = digits;
    while let [high, low, rest @ ..] = left {
        bytes[count] = 16 * digit_value(*high) + digit_value(*low);
        count += 1;
        left = rest;
    }
    Line::new(&bytes[..count])
}

/// Up to 64 bytes, two digits for each.
#[tactic(auto, unfolding(crate::specs::EntryReading::bytes_in))]
pub fn bytes_in(word: &[u8]) -> Option<Line>
    ensures { result ≡ reading.bytes_in word.now }
{
    if word.len() > 128 || !are_hexadecimal(word) {
        return None;
    }
    Some(pairs_in(word))
}
