//! A line of the opening part, read back.
ghost use Rattle.std.specs.Prelude.{◌≡◌, Some, IfOk, IfSome, IfNone, option_map};
ghost use Rattle.std.specs.List.{slice_split};
ghost use Rattle.vm_report.specs.vm_script.Lines.{is_space};
ghost use Rattle.trace_text.specs.OpeningReading as reading;
ghost use Rattle.trace_text.specs.OpeningSeen.{opening_line_seen};
ghost use Rattle.trace_text.specs.TraceLines.{TraceLine, trace_line_text, IsTraceLine, IsOpeningLine};

use crate::line_telling::may_tell_line;
use crate::opening_words::{OpeningLine, opening_in};
use crate::printing::put_line;
use crate::splitting::{are_same, body_of, words_of};
use std::alloc::{AllocError, Global};

// The line that the words tell between which a line's spaces stand.
fn spelled_line(alloc: Global, body: &[u8]) -> Result<Option<OpeningLine>, AllocError>
    ensures { IfOk result (λ r. option_map opening_line_seen r
        ≡ reading.opening_in (slice_split is_space body.now)) }
{
    let words = words_of(alloc, body)?;
    opening_in(alloc, &words)
}

// The one line that this may be.
fn line_candidate(alloc: Global, line: &[u8]) -> Result<Option<OpeningLine>, AllocError>
    ensures form { IfOk result (λ r. IfSome r (λ l. IsTraceLine (opening_line_seen l))) }
    ensures told { IfOk result (λ r. (l : TraceLine) → IsTraceLine l → IsOpeningLine l →
        line.now ≡ trace_line_text l → option_map opening_line_seen r ≡ Some l) }
{
    let Some(body) = body_of(line) else {
        return Ok(None);
    };
    let Some(read) = spelled_line(alloc, body)? else {
        return Ok(None);
    };
    if !may_tell_line(&read) {
        return Ok(None);
    }
    Ok(Some(read))
}

// The text of a line.
fn text_of_line(alloc: Global, line: &OpeningLine) -> Result<Vec<u8>, AllocError>
    requires { IsTraceLine (opening_line_seen line.now) }
    ensures { IfOk result (λ text. text.items ≡ trace_line_text (opening_line_seen line.now)) }
{
    let mut text = Vec::new(alloc);
    put_line(&mut text, line)?;
    Ok(text)
}

/// The line of the opening part, or of the number of entries, that this is, with its line feed.
pub fn opening_of_line(alloc: Global, line: &[u8]) -> Result<Option<OpeningLine>, AllocError>
    // What is read has this line, and else no line of the opening part is this one.
    ensures some { IfOk result (λ r. IfSome r (λ l. IsTraceLine (opening_line_seen l)
        × (line.now ≡ trace_line_text (opening_line_seen l)))) }
    ensures none { IfOk result (λ r. IfNone r ((l : TraceLine) → IsTraceLine l →
        IsOpeningLine l → ¬ (line.now ≡ trace_line_text l))) }
{
    let Some(read) = line_candidate(alloc, line)? else {
        return Ok(None);
    };
    let text = text_of_line(alloc, &read)?;
    if !are_same(text.as_slice(), line) {
        return Ok(None);
    }
    Ok(Some(read))
}
