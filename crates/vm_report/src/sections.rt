//! The sections of processes.
ghost use Rattle.std.specs.Prelude.{ℕ, ◌≡◌, ◌≤◌, ◌<◌, ◌^◌, ◌-◌, ◌++◌, ◌∷◌, ◌==◌, [], false, All, List, length, map, filter, take, drop, slice_index_or, codes, IsTrue, OnOk, IfOk, IfSome};
ghost use Rattle.std.specs.List.{list_any};
ghost use Rattle.vm_script.specs.vm_types.WellFormed.{IsWellFormed};
ghost use Rattle.vm_script.specs.vm_types.declared.call.Entry.{Entry as EntrySeen};
ghost use Rattle.vm_script.specs.flat_model.Told.{entries_of};
ghost use Rattle.vm_script.specs.Told.{is_birth};
ghost use Rattle.entry_list.specs.Rows.{entry_seen};
ghost use Rattle.vm_report.specs.Groups.{is_born_by};
ghost use Rattle.vm_report.specs.PiecesInside.{IsLeftOf, lines_left};
ghost use Rattle.vm_report.specs.Report as report;
ghost use Rattle.vm_report.specs.Runs.{AreWithin, entries_left, runs_seen};

use crate::cursors::{Cursor, ends_call_at, first_place, pass, take_call};
use crate::line_results::push_line_result;
use crate::quick::{push_loaded, push_stored};
use crate::results::word_of_call;
use crate::runs::Runs;
use crate::text::{end_line, push_number, push_space, push_text};
use entry_list::{Entries, EntryAt, EntrySlice};
use std::alloc::{AllocError, Global};
use vm_script::{Call, Entry, Plan, PlanAct, PlanLine, Reply};

fn word_of_act(act: &PlanAct) -> &'static [u8]
    ensures { result.now ≡ report.act_word act.now }
{
    match act {
        PlanAct::Call(call) => word_of_call(&call.call()),
        PlanAct::Named { call, .. } => word_of_call(&call.call()),
        PlanAct::Write { .. } => b"write",
        PlanAct::Wait => b"wait",
    }
}

fn is_wait(act: &PlanAct) -> bool
    ensures { result ≡ report.is_wait act.now }
{
    matches!(act, PlanAct::Wait)
}

fn is_load(act: &PlanAct) -> bool
    ensures word { IsTrue result → report.act_word act.now ≡ codes "load" }
    ensures call { IsTrue result → report.is_wait act.now ≡ false }
{
    match act {
        PlanAct::Call(call) => matches!(call.call(), Call::Load { .. }),
        _ => false,
    }
}

fn is_store(act: &PlanAct) -> bool
    ensures word { IsTrue result → report.act_word act.now ≡ codes "store" }
    ensures call { IsTrue result → report.is_wait act.now ≡ false }
{
    match act {
        PlanAct::Call(call) => matches!(call.call(), Call::Store { .. }),
        _ => false,
    }
}

// How many of the entries belong to the call that the first one begins; None where none of them ends
// it.
fn call_length(entries: &EntrySlice<'_>) -> Option<usize>
    requires well_formed { All (λ e. IsWellFormed e.call) entries.now }
    ensures made { IfSome result (λ count. (behind : List EntrySeen)
        → count ≡ report.call_length (entries.now ++ behind)) }
    ensures inside { IfSome result (λ count. count ≤ length entries.now) }
{
    for place in 0..entries.len() {
        if ends_call_at(entries.at(place)) {
            return Some(place + 1);
        }
    }
    None
}

// Adds a line's own line.
fn push_line(out: &mut Vec<u8>, line: &PlanLine, entries: &EntrySlice<'_>) -> Result<(), AllocError>
    requires few { length entries.now < 2 ^ 32 }
    requires well_formed { All (λ e. IsWellFormed e.call) entries.now }
    ensures { OnOk result (out.new.items
        ≡ out.old.items ++ report.line_text line.now entries.now) }
{
    push_number(out, line.line)?;
    push_space(out)?;
    push_text(out, word_of_act(&line.act))?;
    push_space(out)?;
    push_line_result(out, entries)?;
    end_line(out)
}

// Adds a line's own line, which made a call, and passes the entries of that. They are copied only
// where another process made an entry between them.
fn push_call<'a>(
    out: &mut Vec<u8>,
    line: &PlanLine,
    history: &'a Entries,
    runs: &Runs,
    at: Cursor<'a>,
) -> Result<Cursor<'a>, AllocError>
    requires within { AreWithin (length history.now) runs.now }
    requires whole { at.front ≡ [] → entries_left history.now runs.now at ≡ [] }
    requires few { length (entries_left history.now runs.now at) < 2 ^ 32 }
    requires well_formed { All (λ e. IsWellFormed e.call) (entries_left history.now runs.now at) }
    // What the line prints, and what is left.
    ensures text { OnOk result (out.new.items ≡ out.old.items ++ report.line_text line.now
        (take (report.call_length (entries_left history.now runs.now at.entry))
        (entries_left history.now runs.now at.entry))) }
    ensures left { IfOk result (λ next. entries_left history.now runs.now next
        ≡ drop (report.call_length (entries_left history.now runs.now at.entry))
        (entries_left history.now runs.now at.entry)) }
    ensures whole { IfOk result (λ next.
        next.front ≡ [] → entries_left history.now runs.now next ≡ []) }
{
    if let Some(count) = call_length(&at.front) {
        let (own, _) = at.front.split_at(count);
        push_line(out, line, &own)?;
        return Ok(pass(history, runs, at, count));
    }
    let mut call = Entries::new(*out.allocator());
    let left = take_call(history, runs, at, &mut call)?;
    push_line(out, line, &call.all())?;
    Ok(left)
}

// Adds what a line prints that made the first of these entries; a wait made none, and prints
// nothing.
fn push_next<'a>(
    out: &mut Vec<u8>,
    line: &PlanLine,
    history: &'a Entries,
    runs: &Runs,
    at: Cursor<'a>,
) -> Result<Cursor<'a>, AllocError>
    requires within { AreWithin (length history.now) runs.now }
    requires whole { at.front ≡ [] → entries_left history.now runs.now at ≡ [] }
    requires few { length (entries_left history.now runs.now at) < 2 ^ 32 }
    requires well_formed { All (λ e. IsWellFormed e.call) (entries_left history.now runs.now at) }
    // What the line prints, and what is left.
    ensures text { OnOk result (out.new.items ≡ out.old.items ++ report.own_text line.now
        (take (report.entries_made line.now (entries_left history.now runs.now at.entry))
        (entries_left history.now runs.now at.entry))) }
    ensures left { IfOk result (λ next. entries_left history.now runs.now next
        ≡ drop (report.entries_made line.now (entries_left history.now runs.now at.entry))
        (entries_left history.now runs.now at.entry)) }
    ensures whole { IfOk result (λ next.
        next.front ≡ [] → entries_left history.now runs.now next ≡ []) }
{
    if let Some((entry, _rest)) = at.front.split_first() {
        match entry {
            EntryAt::Load { size, word, .. } if is_load(&line.act) => {
                push_loaded(out, line.line, size, word)?;
                return Ok(pass(history, runs, at, 1));
            }
            EntryAt::Store { .. } if is_store(&line.act) => {
                push_stored(out, line.line)?;
                return Ok(pass(history, runs, at, 1));
            }
            _ => {}
        }
    }
    if is_wait(&line.act) {
        return Ok(at);
    }
    push_call(out, line, history, runs, at)
}

// Where a piece of a report ends: behind the first line with which it is this long.
const LONG: usize = 65_536;

/// Adds what the next lines of a block print, from a line and a place in the entries of its process
/// on, and answers where it stopped: at their end, or where the text is long.
pub fn push_next_lines<'a>(
    out: &mut Vec<u8>,
    lines: &[&PlanLine],
    history: &'a Entries,
    runs: &Runs,
    line: usize,
    place: Cursor<'a>,
) -> Result<(usize, Cursor<'a>), AllocError>
    requires within { AreWithin (length history.now) runs.now }
    requires line { line < length lines.now }
    requires whole { place.front ≡ [] → entries_left history.now runs.now place ≡ [] }
    requires few { length (entries_left history.now runs.now place) < 2 ^ 32 }
    requires well_formed { All (λ e. IsWellFormed e.call)
        (entries_left history.now runs.now place) }
    // What the lines print, and what is left.
    ensures text { IfOk result (λ at.
        out.new.items ++ lines_left lines.now at.0 (entries_left history.now runs.now at.1)
        ≡ out.old.items
        ++ lines_left lines.now line (entries_left history.now runs.now place.entry)) }
    ensures more { IfOk result (λ at. line < at.0) }
    ensures inside { IfOk result (λ at. at.0 ≤ length lines.now) }
    ensures left { IfOk result (λ at. IsLeftOf history.now runs.now place.entry at.1) }
{
    let mut at = line;
    let mut left = place;
    while at < lines.len() {
        let next = push_next(out, lines[at], history, runs, left)?;
        at += 1;
        left = next;
        if LONG <= out.len() {
            return Ok((at, left));
        }
    }
    Ok((at, left))
}

// Adds what the lines of a block print.
fn push_lines(
    out: &mut Vec<u8>,
    lines: &[&PlanLine],
    history: &Entries,
    runs: &Runs,
) -> Result<(), AllocError>
    requires within { AreWithin (length history.now) runs.now }
    requires few { length (runs_seen history.now runs.now) < 2 ^ 32 }
    requires well_formed { All (λ e. IsWellFormed e.call) (runs_seen history.now runs.now) }
    ensures { OnOk result (out.new.items ≡ out.old.items
        ++ report.lines_text (map (λ l. l.now) lines.now) (runs_seen history.now runs.now)) }
{
    let mut line = 0;
    let mut place = first_place(history, runs);
    while line < lines.len() {
        (line, place) = push_next_lines(out, lines, history, runs, line, place)?;
    }
    Ok(())
}

/// Adds the heading of a process's section.
pub fn push_heading(out: &mut Vec<u8>, process: u32, born: bool) -> Result<(), AllocError>
    ensures { OnOk result
        (out.new.items ≡ out.old.items ++ report.section_heading process born) }
{
    push_text(out, b"process ")?;
    push_number(out, process)?;
    if born {
        end_line(out)
    } else {
        push_text(out, b" not born\n")
    }
}

fn push_section(
    out: &mut Vec<u8>,
    process: u32,
    born: bool,
    lines: &[&PlanLine],
    history: &Entries,
    runs: &Runs,
) -> Result<(), AllocError>
    requires within { AreWithin (length history.now) runs.now }
    requires few { length (runs_seen history.now runs.now) < 2 ^ 32 }
    requires well_formed { All (λ e. IsWellFormed e.call) (runs_seen history.now runs.now) }
    ensures { OnOk result (out.new.items ≡ out.old.items
        ++ report.section_text process born (map (λ l. l.now) lines.now)
        (runs_seen history.now runs.now)) }
{
    push_heading(out, process, born)?;
    if born {
        push_lines(out, lines, history, runs)?;
    }
    Ok(())
}

fn is_birth(process: u32, entry: &Entry) -> bool
    ensures { result ≡ is_birth process entry.now }
{
    match (&entry.call, &entry.reply) {
        (Call::Fork { child }, Reply::Done) => *child == process,
        _ => false,
    }
}

fn is_birth_at(process: u32, entry: EntryAt<'_>) -> bool
    ensures { result ≡ is_birth process (entry_seen entry.entry) }
{
    match entry {
        EntryAt::Load { .. } | EntryAt::Store { .. } | EntryAt::Read { .. } => false,
        EntryAt::Whole(entry) => is_birth(process, entry),
    }
}

fn is_forked(process: u32, history: &Entries) -> bool
    ensures { result ≡ list_any (is_birth process) history.now }
{
    let mut left = history.all();
    while let Some((entry, rest)) = left.split_first() {
        if is_birth_at(process, entry) {
            return true;
        }
        left = rest;
    }
    false
}

/// Whether a process was born: it is a top process, or its fork was done.
pub fn is_born_by(parents: &[u32], process: u32, forked: bool) -> bool
    ensures { result ≡ is_born_by parents.now process forked }
{
    if process == 0 {
        return false;
    }
    match parents.get((process - 1) as usize) {
        None => false,
        Some(0) => true,
        Some(_) => forked,
    }
}

fn lines_of<'a>(
    alloc: Global,
    lines: &'a [PlanLine],
    process: u32,
) -> Result<Vec<&'a PlanLine>, AllocError>
    ensures { IfOk result (λ v. map (λ l. l.now) v.items
        ≡ filter (λ l. l.process == process) lines.now) }
{
    let mut own = Vec::new(alloc);
    let mut left = lines;
    while let [line, rest @ ..] = left {
        push_own_line(&mut own, line, process)?;
        left = rest;
    }
    Ok(own)
}

fn push_own_line<'a>(
    own: &mut Vec<&'a PlanLine>,
    line: &'a PlanLine,
    process: u32,
) -> Result<(), AllocError>
    ensures { OnOk result (map (λ l. l.now) own.new.items
        ≡ map (λ l. l.now) own.old.items ++ filter (λ l. l.process == process) (line.now ∷ [])) }
{
    if line.process == process {
        own.push(line)?;
    }
    Ok(())
}

// Adds an entry of a history to the runs of a process, where it is one of its.
fn add_own(runs: &mut Runs, process: u32, entry: EntryAt<'_>, index: u32) -> Result<(), AllocError>
    requires { index < 2 ^ 32 - 1 }
    ensures seen { OnOk result ((H : List EntrySeen) → index < length H
        → entry_seen entry.entry ≡ slice_index_or H index (entry_seen entry.entry)
        → runs_seen H runs.new
        ≡ runs_seen H runs.old ++ entries_of (entry_seen entry.entry ∷ []) process) }
    ensures within { OnOk result ((n : ℕ) → index < n
        → AreWithin n runs.old → AreWithin n runs.new) }
{
    if entry.process() == process {
        runs.add(index)?;
    }
    Ok(())
}

fn entries_of_process(alloc: Global, history: &Entries, process: u32) -> Result<Runs, AllocError>
    requires few { length history.now < 2 ^ 32 }
    ensures seen { IfOk result (λ runs.
        runs_seen history.now runs ≡ entries_of history.now process) }
    ensures within { IfOk result (AreWithin (length history.now)) }
{
    let mut own = Runs::new(alloc);
    for index in 0..history.len() {
        add_own(&mut own, process, history.at(index), index as u32)?;
    }
    Ok(own)
}

/// Adds the section of one process. It goes over the plan and the history for it alone;
/// `process_sections` adds those of all processes in about the same time.
pub fn process_section(
    plan: &Plan,
    process: u32,
    history: &Entries,
    out: &mut Vec<u8>,
) -> Result<(), AllocError>
    requires few { length history.now < 2 ^ 32 }
    requires well_formed { All (λ e. IsWellFormed e.call) history.now }
    ensures new { OnOk result (out.new.items
        ≡ out.old.items ++ report.process_section plan.now process history.now) }
{
    let alloc = *out.allocator();
    let born = is_born_by(plan.parents(), process, is_forked(process, history));
    let lines = lines_of(alloc, plan.lines(), process)?;
    let runs = entries_of_process(alloc, history, process)?;
    push_section(out, process, born, &lines, history, &runs)
}
