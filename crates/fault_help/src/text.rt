//! Text that is pushed into a buffer.
ghost use Rattle.std.specs.Prelude.{◌≡◌, ◌++◌, decimal, length, min, take, OnOk};
ghost use Rattle.fault_help.specs.FaultTexts.{quote_end, quoted};

use itoa::Buffer;
use std::alloc::AllocError;

/// Adds these bytes.
pub fn push_text(out: &mut Vec<u8>, text: &[u8]) -> Result<(), AllocError>
    ensures { OnOk result (out.new.items ≡ out.old.items ++ text.now) }
{
    out.extend_from_slice(text)
}

/// Adds a number of 32 bits in decimal.
pub fn push_number(out: &mut Vec<u8>, number: u32) -> Result<(), AllocError>
    ensures { OnOk result (out.new.items ≡ out.old.items ++ decimal number) }
{
    let mut buffer = Buffer::new();
    push_text(out, buffer.format(number).as_bytes())
}

/// Adds a number in decimal.
pub fn push_decimal(out: &mut Vec<u8>, number: u64) -> Result<(), AllocError>
    ensures { OnOk result (out.new.items ≡ out.old.items ++ decimal number) }
{
    let mut buffer = Buffer::new();
    push_text(out, buffer.format(number).as_bytes())
}

// What stands behind a field that is quoted.
fn quote_end(is_long: bool) -> &'static [u8]
    ensures { result.now ≡ quote_end is_long }
{
    if is_long { b".." } else { b"" }
}

// The front of a field that is quoted.
fn quote_front(field: &[u8]) -> &[u8]
    ensures { result.now ≡ take (min (length field.now) 40) field.now }
{
    let (front, _) = field.split_at(field.len().min(40));
    front
}

/// Adds a field as it is quoted.
pub fn push_quoted(out: &mut Vec<u8>, field: &[u8]) -> Result<(), AllocError>
    ensures { OnOk result (out.new.items ≡ out.old.items ++ quoted field.now) }
{
    push_text(out, quote_front(field))?;
    push_text(out, quote_end(40 < field.len()))
}
