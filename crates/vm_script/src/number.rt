//! Numbers, names and bytes.
ghost use Rattle.std.specs.Prelude.{◌≡◌, ◌+◌, ◌*◌, ◌≤◌, ◌<◌, ◌^◌, ◌%◌, IsTrue, length, option_map, IfOk, IfSome};
ghost use Rattle.std.specs.List.{list_all};
ghost use Rattle.vm_script.specs.Fields.{is_digit, is_hex_digit, digit_value, value_of_digits, digits_at, number_of_field, is_name_letter, is_file_name, hex_bytes, bytes_of_field};

use std::alloc::{AllocError, Global};

#[tactic(auto, unfolding(crate::specs::Fields::digits_at), using(crate::proofs::Digits::not_all))]
fn decimal(digits: &[u8]) -> Option<u32>
    ensures { result ≡ digits_at 10 10 is_digit digits.now }
{
    if digits.is_empty() || digits.len() > 10 {
        return None;
    }
    let mut value = 0;
    for b in digits {
        if *b < b'0' || b'9' < *b {
            return None;
        }
        value = 10 * value + u64::from(*b - b'0');
    }
    u32::try_from(value).ok()
}

fn is_hex_digit(b: u8) -> bool
    ensures { result ≡ is_hex_digit b }
{
    (b'0' <= b && b <= b'9') || (b'A' <= b && b <= b'F') || (b'a' <= b && b <= b'f')
}

fn digit_value(b: u8) -> u8
    requires { IsTrue (is_hex_digit b) }
    ensures value { result ≡ digit_value b }
    ensures small { result < 16 }
{
    if b <= b'9' {
        b - b'0'
    } else if b <= b'F' {
        b - 55
    } else {
        b - 87
    }
}

#[tactic(auto, unfolding(crate::specs::Fields::digits_at), using(crate::proofs::Digits::not_all))]
fn hexadecimal(digits: &[u8]) -> Option<u32>
    ensures { result ≡ digits_at 16 8 is_hex_digit digits.now }
{
    if digits.is_empty() || digits.len() > 8 {
        return None;
    }
    let mut value = 0;
    for b in digits {
        if !is_hex_digit(*b) {
            return None;
        }
        value = 16 * value + u64::from(digit_value(*b));
    }
    u32::try_from(value).ok()
}

/// A number: decimal digits, or `0x` and hexadecimal digits.
#[tactic(auto, unfolding(crate::specs::Fields::number_of_field))]
pub fn number_of_field(field: &[u8]) -> Option<u32>
    ensures { result ≡ number_of_field field.now }
{
    match field {
        [b'0', b'x', digits @ ..] => hexadecimal(digits),
        _ => decimal(field),
    }
}

fn are_name_bytes(field: &[u8]) -> bool
    ensures { result ≡ list_all is_name_letter field.now }
{
    field.iter().all(|b| matches!(*b, b'a'..=b'z' | b'0'..=b'9' | b'_' | b'.' | b'-'))
}

/// Whether the field is the name of a file.
pub fn is_file_name(field: &[u8]) -> bool
    ensures { result ≡ is_file_name field.now }
{
    !field.is_empty() && field.len() <= 16 && are_name_bytes(field) && field != b"zero".as_slice()
}

// Looks at all bytes, so that a processor looks at many at once.
fn are_hexadecimal(field: &[u8]) -> bool
    ensures { result ≡ list_all is_hex_digit field.now }
{
    let mut right = true;
    for b in field {
        right = right & is_hex_digit(*b);
    }
    right
}

// The bytes of pairs of hexadecimal digits, many at once.
fn bytes_of_pairs(alloc: Global, digits: &[u8]) -> Result<Vec<u8>, AllocError>
    requires { IsTrue (list_all is_hex_digit digits.now) }
    ensures { IfOk result (λ bytes. bytes.items ≡ hex_bytes digits.now) }
{
    let count = digits.len() / 2;
    let mut bytes = vec![in alloc; 0; count]?;
    for i in 0..count {
        bytes[i] = 16 * digit_value(digits[2 * i]) + digit_value(digits[2 * i + 1]);
    }
    Ok(bytes)
}

/// Bytes as hexadecimal digits.
#[tactic(auto, unfolding(crate::specs::Fields::bytes_of_field))]
pub fn bytes_of(alloc: Global, field: &[u8]) -> Result<Option<Vec<u8>>, AllocError>
    ensures { IfOk result (λ bytes. option_map (λ v. v.items) bytes ≡ bytes_of_field field.now) }
{
    if field.len() % 2 != 0 || field.len() < 2 || field.len() > 131_072 || !are_hexadecimal(field) {
        return Ok(None);
    }
    Ok(Some(bytes_of_pairs(alloc, field)?))
}
