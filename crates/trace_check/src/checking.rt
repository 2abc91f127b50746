//! Checks a trace in one pass.
ghost use Rattle.std.specs.Prelude.{ℕ, List, ◌≡◌, ◌≤◌, ◌+◌, ◌<◌, ◌^◌, [], ◌∷◌, ◌++◌, IfOk, OnOk, IsFalse, IsTrue, length};
ghost use Rattle.flat_model.specs.vm_types.declared.call.Entry.{Entry};
ghost use Rattle.flat_model.specs.Flat.{Flat};
ghost use Rattle.trace_text.specs.EntryForm.{IsTracedEntry};
ghost use Rattle.trace_text.specs.LineOrder.{AtEntries};
ghost use Rattle.trace_text.specs.LinesRead.{HasRead};
ghost use Rattle.trace_text.specs.Traces.{Trace};
ghost use Rattle.trace_text.specs.vm_report.Trace.{entry_text};
ghost use Rattle.trace_check.specs.Judging.{HasJudged, TakesEntry};
ghost use Rattle.trace_check.specs.Checks.{IsChecked, flat_of_trace};

use crate::judge::Judge;
use crate::opened::flat_opened;
use crate::verdict::{TraceFault, Verdict};
use flat_model::Entry;
use std::alloc::{AllocError, Global};
use trace_text::{cut_line, entry_of_line, read_opening};

/// The most bytes that a trace may have.
pub const MOST_TRACE_BYTES: usize = 16_777_216;

// The judge takes an entry that a trace may tell.
fn took(judge: &mut Judge, entry: &Entry) -> Result<bool, AllocError>
    requires may { IsTracedEntry entry.now }
    requires room { judge.old.count + 1 < 2 ^ 64 }
    ensures yes { IfOk result (λ is. IsTrue is) }
    ensures judged { OnOk result ((F : Flat) (H : List Entry) → HasJudged F H judge.old →
        HasJudged F (H ++ entry.now ∷ []) judge.new) }
    ensures count { judge.new.count ≤ judge.old.count + 1 }
{
    judge.take(entry)?;
    Ok(true)
}

// Whether the line is an entry's; the judge then took it.
fn judge_line(alloc: Global, judge: &mut Judge, line: &[u8]) -> Result<bool, AllocError>
    requires room { judge.old.count + 1 < 2 ^ 64 }
    ensures yes { IfOk result (λ is. IsTrue is → TakesEntry line.now judge.old judge.new) }
    ensures no { IfOk result (λ is. IsFalse is →
        (e : Entry) → IsTracedEntry e → ¬ (line.now ≡ entry_text e)) }
    ensures count { judge.new.count ≤ judge.old.count + 1 }
{
    match entry_of_line(alloc, line)? {
        Some(
            Entry {
                process,
                call,
                reply,
                cleared,
            },
        ) => took(
            judge,
            &Entry {
                process,
                call,
                reply,
                cleared,
            },
        ),
        None => Ok(false),
    }
}

// Judges so many entries of a text, of which so many lines were read and the rest wasn't yet.
fn check_entries(
    alloc: Global,
    unread: &[u8],
    entries: u64,
    lines: u32,
    judge: Judge,
) -> Result<Result<Verdict, TraceFault>, AllocError>
    requires short { lines + length unread.now + 1 < 2 ^ 32 }
    requires unseen { judge.count ≡ 0 }
    ensures { IfOk result (λ r. (text : List ℕ) (t : Trace) →
        HasRead text unread.now t (AtEntries entries) lines → t.history ≡ [] →
        HasJudged (flat_of_trace t) [] judge → IsChecked text r) }
{
    let mut judge = judge;
    let mut to_come = entries;
    let mut line = lines;
    let mut left = unread;
    while to_come != 0 {
        line += 1;
        let (own, rest) = cut_line(left);
        let is_entry = judge_line(alloc, &mut judge, own)?;
        if !is_entry {
            return Ok(Err(TraceFault { line }));
        }
        to_come -= 1;
        left = rest;
    }
    if !left.is_empty() {
        return Ok(Err(TraceFault { line: line + 1 }));
    }
    Ok(Ok(judge.verdict()))
}

/// The verdict of the trace that the text is, or its first bad line.
pub fn check(alloc: Global, text: &[u8]) -> Result<Result<Verdict, TraceFault>, AllocError>
    requires short { length text.now < 2 ^ 31 }
    ensures exact { IfOk result (IsChecked text.now) }
{
    let opening = match read_opening(alloc, text)? {
        Ok(opening) => opening,
        Err(line) => return Ok(Err(TraceFault { line })),
    };
    let judge = Judge::new(alloc, flat_opened(alloc, &opening)?);
    let unread = &text[opening.length..];
    check_entries(alloc, unread, opening.entries, opening.lines, judge)
}
