//! The sections of files.
ghost use Rattle.std.specs.Prelude.{◌≡◌, ◌<◌, ◌^◌, ◌+◌, ◌++◌, ◌==◌, length, OnOk};
ghost use Rattle.std.specs.List.{list_all};
ghost use Rattle.vm_report.specs.Report as report;

use crate::text::{end_line, push_hex, push_number, push_number_hex, push_space, push_text};
use std::alloc::AllocError;

/// Adds the heading of a file's section.
pub fn file_heading(name: &[u8], length: u32, out: &mut Vec<u8>) -> Result<(), AllocError>
    ensures new { OnOk result
        (out.new.items ≡ out.old.items ++ report.file_heading name.now length) }
{
    push_text(out, b"file ")?;
    push_text(out, name)?;
    push_space(out)?;
    push_number(out, length)?;
    end_line(out)
}

// Looks at all bytes, so that a processor looks at many at once.
fn are_zeros(bytes: &[u8]) -> bool
    ensures { result ≡ list_all (λ b. b == 0) bytes.now }
{
    let mut zeros = true;
    for b in bytes {
        zeros = zeros & (*b == 0);
    }
    zeros
}

/// Adds the line of 1 to 32 bytes of a file that begin at this offset, or nothing where all are
/// zeros.
pub fn file_line(offset: u32, bytes: &[u8], out: &mut Vec<u8>) -> Result<(), AllocError>
    ensures new { OnOk result
        (out.new.items ≡ out.old.items ++ report.file_line offset bytes.now) }
{
    if are_zeros(bytes) {
        return Ok(());
    }
    push_number_hex(out, offset)?;
    push_space(out)?;
    push_hex(out, bytes)?;
    end_line(out)
}

// Adds the lines of a piece of a file's bytes from this offset on, or nothing where all are zeros.
fn piece_lines(offset: u32, piece: &[u8], out: &mut Vec<u8>) -> Result<(), AllocError>
    requires { offset + length piece.now < 2 ^ 32 }
    ensures new { OnOk result
        (out.new.items ≡ out.old.items ++ report.file_lines offset piece.now) }
{
    if are_zeros(piece) {
        return Ok(());
    }
    let mut at = offset;
    let mut left = piece;
    while !left.is_empty() {
        let count = left.len().min(32);
        let (line, rest) = left.split_at(count);
        file_line(at, line, out)?;
        at += count as u32;
        left = rest;
    }
    Ok(())
}

/// Adds the lines of a file's bytes from this offset on. Where 512 bytes in a row are zeros, it
/// takes one look at each.
pub fn file_lines(offset: u32, bytes: &[u8], out: &mut Vec<u8>) -> Result<(), AllocError>
    requires { offset + length bytes.now < 2 ^ 32 }
    ensures new { OnOk result
        (out.new.items ≡ out.old.items ++ report.file_lines offset bytes.now) }
{
    let mut at = offset;
    let mut left = bytes;
    while !left.is_empty() {
        let count = left.len().min(512);
        let (piece, rest) = left.split_at(count);
        piece_lines(at, piece, out)?;
        at += count as u32;
        left = rest;
    }
    Ok(())
}
