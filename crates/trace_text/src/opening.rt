//! The lines before the entries of a trace, and the number of its entries.
ghost use Rattle.std.specs.Prelude.{◌≡◌, ◌≤◌, ◌<◌, ◌+◌, ◌^◌, false, IfOk, IfErr, IfSome, IfNone, IsSome, length, drop};
ghost use Rattle.vm_report.specs.vm_types.WellFormed.{IsNumber};
ghost use Rattle.trace_text.specs.BadLines.{IsFirstBadLine};
ghost use Rattle.trace_text.specs.LineOrder.{AtOpening, AtEntries, takes_entries, NoneThere};
ghost use Rattle.trace_text.specs.LinesRead.{HasRead};
ghost use Rattle.trace_text.specs.OpeningSeen.{opening_seen, place_seen, trace_seen};
ghost use Rattle.trace_text.specs.OpeningTaken.{TakesLine, entries_at};
ghost use Rattle.trace_text.specs.TraceLines.{Slots, trace_line_text};

use crate::cutting::cut_line;
use crate::opening_lines::opening_of_line;
use crate::opening_words::OpeningLine;
use crate::so_far::{OpeningSoFar, Stage};
use crate::traced_file::TracedFile;
use std::alloc::{AllocError, Global};

/// What the lines before the entries tell.
#[derive(Drop)]
pub struct TraceOpening {
    pub slots: u32,
    pub disks: Vec<(u32, u32)>,
    pub roots: Vec<u32>,
    pub files: Vec<TracedFile>,
    /// How many entries follow.
    pub entries: u64,
    /// How many lines were read.
    pub lines: u32,
    /// How many bytes these lines have.
    pub length: usize,
}

// The swap slots that a text's first line tells; nothing where no text begins with it.
fn slots_of_line(alloc: Global, line: &[u8]) -> Result<Option<u32>, AllocError>
    ensures some { IfOk result (λ r. IfSome r (λ n. IsNumber n
        × (line.now ≡ trace_line_text (Slots n)))) }
    ensures none { IfOk result (λ r. IfNone r (NoneThere AtOpening line.now)) }
{
    let Some(read) = opening_of_line(alloc, line)? else {
        return Ok(None);
    };
    let OpeningLine::Slots(slots) = read else {
        return Ok(None);
    };
    Ok(Some(slots))
}

// What is told with this line more; nothing where no line with this text may come.
fn with_line(
    alloc: Global,
    so_far: OpeningSoFar,
    line: &[u8],
) -> Result<Option<OpeningSoFar>, AllocError>
    ensures some { IfOk result (λ r. IfSome r (TakesLine line.now so_far)) }
    ensures none { IfOk result (λ r. IfNone r (takes_entries (place_seen so_far) ≡ false →
        NoneThere (place_seen so_far) line.now)) }
{
    let Some(read) = opening_of_line(alloc, line)? else {
        return Ok(None);
    };
    let Some(next) = so_far.take(alloc, read)? else {
        return Ok(None);
    };
    Ok(Some(next))
}

// What is told where the number of entries is, behind so many lines with so many bytes.
fn opened(alloc: Global, so_far: OpeningSoFar, lines: u32, length: usize) -> TraceOpening
    requires { IsSome (entries_at (place_seen so_far)) }
    ensures trace { opening_seen result ≡ trace_seen so_far }
    ensures entries { place_seen so_far ≡ AtEntries result.entries }
    ensures lines { (result.lines ≡ lines) × (result.length ≡ length) }
{
    let OpeningSoFar {
        slots,
        disks,
        roots,
        stage,
    } = so_far;
    let (files, entries) = match stage {
        Stage::Entries(files, count) => (files, count),
        _ => (Vec::new(alloc), 0),
    };
    TraceOpening {
        slots,
        disks,
        roots,
        files,
        entries,
        lines,
        length,
    }
}

/// What the lines before the entries tell; or the text's first bad line, if that is one of them.
pub fn read_opening(alloc: Global, text: &[u8]) -> Result<Result<TraceOpening, u32>, AllocError>
    requires short { length text.now + 1 < 2 ^ 32 }
    // These lines were read, so many entries have to follow, and the rest of the text is left.
    ensures ok { IfOk result (λ read. IfOk read (λ o.
        HasRead text.now (drop o.length text.now) (opening_seen o) (AtEntries o.entries) o.lines)) }
    ensures length { IfOk result (λ read. IfOk read (λ o. o.length ≤ length text.now)) }
    ensures err { IfOk result (λ read. IfErr read (IsFirstBadLine text.now)) }
{
    let (line, mut left) = cut_line(text);
    let Some(slots) = slots_of_line(alloc, line)? else {
        return Ok(Err(1));
    };
    let mut so_far = OpeningSoFar::new(alloc, slots);
    let mut lines: u32 = 1;
    while so_far.entries().is_none() {
        let (line, rest) = cut_line(left);
        lines += 1;
        let Some(next) = with_line(alloc, so_far, line)? else {
            return Ok(Err(lines));
        };
        so_far = next;
        left = rest;
    }
    let length = text.len() - left.len();
    Ok(Ok(opened(alloc, so_far, lines, length)))
}
