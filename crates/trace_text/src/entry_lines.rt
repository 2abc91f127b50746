//! The line of an entry, read back.
ghost use Rattle.std.specs.Prelude.{◌≡◌, ◌++◌, ◌∷◌, [], Some, IfOk, IfSome, IfNone};
ghost use Rattle.std.specs.List.{slice_split};
ghost use Rattle.vm_report.specs.vm_types.declared.call.Entry.{Entry};
ghost use Rattle.vm_report.specs.vm_types.WellFormed.{IsWellFormed};
ghost use Rattle.vm_report.specs.vm_script.Lines.{is_space};
ghost use Rattle.vm_report.specs.Trace.{entry_text};
ghost use Rattle.trace_text.specs.EntryForm.{IsTracedEntry};
ghost use Rattle.trace_text.specs.EntryReading as reading;

use crate::entry_words::entry_in;
use crate::splitting::{are_same, body_of, words_of};
use crate::telling::may_tell;
use std::alloc::{AllocError, Global};
use vm_report::{Entry, trace_entry};

// The entry that the words tell between which a line's spaces stand.
fn spelled_entry(alloc: Global, body: &[u8]) -> Result<Option<Entry>, AllocError>
    ensures { IfOk result (λ r. r ≡ reading.entry_in (slice_split is_space body.now)) }
{
    let words = words_of(alloc, body)?;
    Ok(entry_in(&words))
}

// The one entry whose line this may be.
fn candidate(alloc: Global, line: &[u8]) -> Result<Option<Entry>, AllocError>
    ensures form { IfOk result (λ r. IfSome r IsTracedEntry) }
    ensures told { IfOk result (λ r. (e : Entry) → IsTracedEntry e →
        line.now ≡ entry_text e → r ≡ Some e) }
{
    let Some(body) = body_of(line) else {
        return Ok(None);
    };
    let Some(entry) = spelled_entry(alloc, body)? else {
        return Ok(None);
    };
    if !may_tell(&entry) {
        return Ok(None);
    }
    Ok(Some(entry))
}

// The line of an entry.
fn line_of(alloc: Global, entry: &Entry) -> Result<Vec<u8>, AllocError>
    requires { IsWellFormed entry.now.call }
    ensures { IfOk result (λ text. text.items ≡ entry_text entry.now) }
{
    let mut text = Vec::new(alloc);
    trace_entry(entry, &mut text)?;
    Ok(text)
}

/// The entry whose line is this one, with its line feed.
pub fn entry_of_line(alloc: Global, line: &[u8]) -> Result<Option<Entry>, AllocError>
    // What is read has this line, and else no entry has it.
    ensures some { IfOk result (λ r. IfSome r (λ e. IsTracedEntry e × (line.now ≡ entry_text e))) }
    ensures none { IfOk result (λ r. IfNone r
        ((e : Entry) → IsTracedEntry e → ¬ (line.now ≡ entry_text e))) }
{
    let Some(entry) = candidate(alloc, line)? else {
        return Ok(None);
    };
    let text = line_of(alloc, &entry)?;
    if !are_same(text.as_slice(), line) {
        return Ok(None);
    }
    Ok(Some(entry))
}
