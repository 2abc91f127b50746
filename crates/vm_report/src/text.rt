//! Numbers and bytes as text, pushed into one buffer.
ghost use Rattle.std.specs.Prelude.{◌≡◌, ◌≤◌, ◌<◌, ◌*◌, ◌++◌, ◌∷◌, [], length, take, decimal, OnOk};
ghost use Rattle.vm_script.specs.vm_types.Words.{IsWordSize, word_bytes};
ghost use Rattle.vm_script.specs.Texts.{byte_text, hex_digit, hex_text};
ghost use Rattle.vm_report.specs.Texts.{word_text};

use itoa::Buffer;
use std::alloc::AllocError;

/// Adds these bytes.
pub fn push_text(out: &mut Vec<u8>, text: &[u8]) -> Result<(), AllocError>
    ensures { OnOk result (out.new.items ≡ out.old.items ++ text.now) }
{
    out.extend_from_slice(text)
}

/// Adds a space.
pub fn push_space(out: &mut Vec<u8>) -> Result<(), AllocError>
    ensures { OnOk result (out.new.items ≡ out.old.items ++ 32 ∷ []) }
{
    out.push(b' ')?;
    Ok(())
}

/// Adds a line feed.
pub fn end_line(out: &mut Vec<u8>) -> Result<(), AllocError>
    ensures { OnOk result (out.new.items ≡ out.old.items ++ 10 ∷ []) }
{
    out.push(b'\n')?;
    Ok(())
}

/// Adds a number in decimal.
pub fn push_decimal(out: &mut Vec<u8>, number: u64) -> Result<(), AllocError>
    ensures { OnOk result (out.new.items ≡ out.old.items ++ decimal number) }
{
    let mut buffer = Buffer::new();
    push_text(out, buffer.format(number).as_bytes())
}

/// Adds a number of 32 bits in decimal. Each line of a report begins with one.
#[inline(always)]
pub fn push_number(out: &mut Vec<u8>, number: u32) -> Result<(), AllocError>
    ensures { OnOk result (out.new.items ≡ out.old.items ++ decimal number) }
{
    let mut buffer = Buffer::new();
    push_text(out, buffer.format(number).as_bytes())
}

/// Adds a space and a number in decimal.
pub fn push_argument(out: &mut Vec<u8>, number: u32) -> Result<(), AllocError>
    ensures { OnOk result (out.new.items ≡ out.old.items ++ 32 ∷ decimal number) }
{
    push_space(out)?;
    push_number(out, number)
}

fn hex_digit(value: u8) -> u8
    requires { value < 16 }
    ensures { result ≡ hex_digit value }
{
    if value < 10 { 48 + value } else { 87 + value }
}

/// The two digits of a byte.
pub fn byte_text(b: u8) -> [u8; 2]
    ensures { result ≡ byte_text b }
{
    [hex_digit(b / 16), hex_digit(b % 16)]
}

// The digits of at most 32 bytes, with zeros behind them.
fn digits_of(bytes: &[u8]) -> [u8; 64]
    requires { length bytes.now ≤ 32 }
    ensures { take (2 * length bytes.now) result ≡ hex_text bytes.now }
{
    let mut digits = [0; 64];
    for i in 0..bytes.len() {
        let b = bytes[i];
        digits[2 * i] = hex_digit(b / 16);
        digits[2 * i + 1] = hex_digit(b % 16);
    }
    digits
}

// Adds the digits of at most 32 bytes.
fn push_piece(out: &mut Vec<u8>, bytes: &[u8]) -> Result<(), AllocError>
    requires { length bytes.now ≤ 32 }
    ensures { OnOk result (out.new.items ≡ out.old.items ++ hex_text bytes.now) }
{
    let digits = digits_of(bytes);
    push_text(out, &digits[..2 * bytes.len()])
}

/// Adds two hexadecimal digits for each byte, in pieces that a processor makes at once.
pub fn push_hex(out: &mut Vec<u8>, bytes: &[u8]) -> Result<(), AllocError>
    ensures { OnOk result (out.new.items ≡ out.old.items ++ hex_text bytes.now) }
{
    let mut left = bytes;
    while !left.is_empty() {
        let (piece, rest) = left.split_at(left.len().min(32));
        push_piece(out, piece)?;
        left = rest;
    }
    Ok(())
}

// The bytes of a number, the highest first.
fn bytes_of_number(number: u32) -> [u8; 4]
    ensures { result ≡ word_bytes 4 number }
{
    [
        (number / 16_777_216) as u8,
        (number / 65_536 % 256) as u8,
        (number / 256 % 256) as u8,
        (number % 256) as u8,
    ]
}

/// The four digits of a number's last two bytes.
pub fn digits_of_two(number: u32) -> [u8; 4]
    ensures { result ≡ hex_text (word_bytes 2 number) }
{
    let [a, b] = byte_text((number / 256 % 256) as u8);
    let [c, d] = byte_text((number % 256) as u8);
    [a, b, c, d]
}

/// The eight digits of a number's four bytes.
pub fn digits_of_number(number: u32) -> [u8; 8]
    ensures { result ≡ hex_text (word_bytes 4 number) }
{
    let [first, second, third, fourth] = bytes_of_number(number);
    let [a, b] = byte_text(first);
    let [c, d] = byte_text(second);
    let [e, f] = byte_text(third);
    let [g, h] = byte_text(fourth);
    [a, b, c, d, e, f, g, h]
}

/// Adds the digits of a number's four bytes.
pub fn push_number_hex(out: &mut Vec<u8>, number: u32) -> Result<(), AllocError>
    ensures { OnOk result (out.new.items ≡ out.old.items ++ hex_text (word_bytes 4 number)) }
{
    push_text(out, &digits_of_number(number))
}

// The bytes of a mask, the highest first.
fn bytes_of_mask(mask: u64) -> [u8; 8]
    ensures { result ≡ word_bytes 8 mask }
{
    [
        (mask / 72_057_594_037_927_936) as u8,
        (mask / 281_474_976_710_656 % 256) as u8,
        (mask / 1_099_511_627_776 % 256) as u8,
        (mask / 4_294_967_296 % 256) as u8,
        (mask / 16_777_216 % 256) as u8,
        (mask / 65_536 % 256) as u8,
        (mask / 256 % 256) as u8,
        (mask % 256) as u8,
    ]
}

/// Adds the digits of a mask's eight bytes.
pub fn push_mask(out: &mut Vec<u8>, mask: u64) -> Result<(), AllocError>
    ensures { OnOk result (out.new.items ≡ out.old.items ++ hex_text (word_bytes 8 mask)) }
{
    push_hex(out, &bytes_of_mask(mask))
}

// Adds the digits of a word's bytes.
fn push_word_hex(out: &mut Vec<u8>, size: u32, value: u32) -> Result<(), AllocError>
    requires { IsWordSize size }
    ensures { OnOk result (out.new.items ≡ out.old.items ++ hex_text (word_bytes size value)) }
{
    match size {
        1 => push_text(out, &byte_text((value % 256) as u8)),
        2 => push_text(out, &digits_of_two(value)),
        _ => push_number_hex(out, value),
    }
}

/// Adds a word of 1, 2 or 4 bytes.
pub fn push_word(out: &mut Vec<u8>, size: u32, value: u32) -> Result<(), AllocError>
    requires { IsWordSize size }
    ensures { OnOk result (out.new.items ≡ out.old.items ++ word_text size value) }
{
    push_text(out, b"0x")?;
    push_word_hex(out, size, value)
}
