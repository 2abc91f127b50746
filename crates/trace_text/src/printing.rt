//! The lines of a trace's opening part, printed by the functions that print them in a trace.
ghost use Rattle.std.specs.Prelude.{◌≡◌, ◌++◌, OnOk};
ghost use Rattle.trace_text.specs.OpeningSeen.{head_seen, opening_line_seen};
ghost use Rattle.trace_text.specs.TraceLines.{TraceLine, trace_line_text, IsTraceLine, File};

use crate::opening_words::{FileHead, OpeningLine};
use std::alloc::AllocError;
use vm_report::{file_line, trace_count, trace_disk, trace_file, trace_opening, trace_root};

fn put_head(out: &mut Vec<u8>, head: &FileHead) -> Result<(), AllocError>
    ensures { OnOk result
        (out.new.items ≡ out.old.items ++ trace_line_text (File (head_seen head.now))) }
{
    trace_file(
        head.file,
        &head.name,
        head.writable,
        head.disk,
        head.len,
        &head.extents,
        out,
    )
}

/// Adds the text of a line.
pub fn put_line(out: &mut Vec<u8>, line: &OpeningLine) -> Result<(), AllocError>
    requires { IsTraceLine (opening_line_seen line.now) }
    ensures { OnOk result
        (out.new.items ≡ out.old.items ++ trace_line_text (opening_line_seen line.now)) }
{
    match line {
        OpeningLine::Slots(slots) => trace_opening(*slots, &[], &[], out),
        OpeningLine::Disk(disk, blocks) => trace_disk((*disk, *blocks), out),
        OpeningLine::Root(process) => trace_root(*process, 0, out),
        OpeningLine::File(head) => put_head(out, head),
        OpeningLine::Piece(offset, bytes) => file_line(*offset, bytes, out),
        OpeningLine::Entries(count) => trace_count(*count, out),
    }
}
