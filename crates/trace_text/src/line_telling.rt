//! The test of what a line of the opening part may tell.
ghost use Rattle.std.specs.Prelude.{◌↔◌, ◌≡◌, ◌==◌, IsTrue, All};
ghost use Rattle.std.specs.List.{list_all};
ghost use Rattle.vm_report.specs.vm_types.Words.{IsByte};
ghost use Rattle.trace_text.specs.OpeningSeen.{head_seen, opening_line_seen};
ghost use Rattle.trace_text.specs.TraceLines.{AreTwoNumbers, IsFileHead, IsPiece, IsTraceLine};

use crate::opening_words::{FileHead, OpeningLine};
use crate::telling::{is_long_number, is_number};
use vm_report::is_file_name;

// Each pair of `u32` is two numbers.
fn is_pair(_pair: (u32, u32)) -> bool
    ensures { IsTrue result ↔ AreTwoNumbers _pair }
{
    true
}

fn are_numbers(pairs: &[(u32, u32)]) -> bool
    ensures { IsTrue result ↔ All AreTwoNumbers pairs.now }
{
    for pair in pairs {
        if !is_pair(*pair) {
            return false;
        }
    }
    true
}

fn is_head(head: &FileHead) -> bool
    ensures { IsTrue result ↔ IsFileHead (head_seen head.now) }
{
    is_number(head.file)
        && is_file_name(&head.name)
        && is_number(head.disk)
        && is_number(head.len)
        && are_numbers(&head.extents)
}

// Each `u8` is a byte.
fn are_bytes(_bytes: &[u8]) -> bool
    ensures { IsTrue result ↔ All IsByte _bytes.now }
{
    true
}

fn are_zeros(bytes: &[u8]) -> bool
    ensures { result ≡ list_all (λ b. b == 0) bytes.now }
{
    bytes.iter().all(|b| *b == 0)
}

fn is_piece(bytes: &[u8]) -> bool
    ensures { IsTrue result ↔ IsPiece bytes.now }
{
    !bytes.is_empty() && bytes.len() <= 32 && !are_zeros(bytes) && are_bytes(bytes)
}

/// Whether a trace may have this line.
pub fn may_tell_line(line: &OpeningLine) -> bool
    ensures { IsTrue result ↔ IsTraceLine (opening_line_seen line.now) }
{
    match line {
        OpeningLine::Slots(slots) => is_number(*slots),
        OpeningLine::Disk(disk, blocks) => is_number(*disk) && is_number(*blocks),
        OpeningLine::Root(process) => is_number(*process),
        OpeningLine::File(head) => is_head(head),
        OpeningLine::Piece(offset, bytes) => is_number(*offset) && is_piece(bytes),
        OpeningLine::Entries(count) => is_long_number(*count),
    }
}
