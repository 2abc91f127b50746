//! What is left of the entries of one process.
ghost use Rattle.std.specs.Prelude.{◌≡◌, ◌+◌, ◌≤◌, [], All, drop, length, take, IfOk};
ghost use Rattle.vm_script.specs.vm_types.WellFormed.{IsWellFormed};
ghost use Rattle.vm_script.specs.vm_types.Parts.{ends_call};
ghost use Rattle.entry_list.specs.Rows.{entry_seen};
ghost use Rattle.vm_report.specs.Report.{call_length};
ghost use Rattle.vm_report.specs.Runs.{AreWithin, entries_left, run_seen, runs_seen};

use crate::runs::{Run, Runs};
use entry_list::{Entries, EntryAt, EntrySlice};
use std::alloc::AllocError;
use vm_types::{ends_call, line_rest};

/// A place in a process's entries: those up to the end of the run that was begun, and how many runs
/// were.
#[derive(Drop)]
pub struct Cursor<'a> {
    pub front: EntrySlice<'a>,
    pub next: usize,
}

impl<'a> Cursor<'a> {
    /// The same place.
    #[inline(always)]
    pub fn again(&self) -> Cursor<'a>
        ensures { result ≡ self.now }
    {
        Cursor {
            front: self.front.again(),
            next: self.next,
        }
    }
}

fn entries_of_run<'a>(history: &'a Entries, run: Run) -> EntrySlice<'a>
    requires { run.first + run.count ≤ length history.now }
    ensures { result ≡ run_seen history.now run }
{
    history.slice(run.first as usize, run.count as usize)
}

// The same place, in a run that has more, if there is one.
fn onward<'a>(history: &'a Entries, runs: &Runs, at: Cursor<'a>) -> Cursor<'a>
    requires within { AreWithin (length history.now) runs.now }
    ensures left { entries_left history.now runs.now result
        ≡ entries_left history.now runs.now at.entry }
    ensures whole { result.front ≡ [] → entries_left history.now runs.now result ≡ [] }
{
    let mut at = at;
    while at.front.is_empty() {
        let Some(run) = runs.get(at.next) else {
            return at;
        };
        at = Cursor {
            front: entries_of_run(history, run),
            next: at.next + 1,
        };
    }
    at
}

/// The first place.
pub fn first_place<'a>(history: &'a Entries, runs: &Runs) -> Cursor<'a>
    requires within { AreWithin (length history.now) runs.now }
    ensures left { entries_left history.now runs.now result ≡ runs_seen history.now runs.now }
    ensures whole { result.front ≡ [] → entries_left history.now runs.now result ≡ [] }
{
    let at = Cursor {
        front: history.slice(0, 0),
        next: 0,
    };
    onward(history, runs, at)
}

/// The place behind so many entries of the run that was begun.
#[inline(always)]
pub fn pass<'a>(history: &'a Entries, runs: &Runs, at: Cursor<'a>, count: usize) -> Cursor<'a>
    requires within { AreWithin (length history.now) runs.now }
    requires count { count ≤ length at.front }
    ensures left { entries_left history.now runs.now result
        ≡ drop count (entries_left history.now runs.now at.entry) }
    ensures whole { result.front ≡ [] → entries_left history.now runs.now result ≡ [] }
{
    let (_, front) = at.front.split_at(count);
    let at = Cursor {
        front,
        next: at.next,
    };
    if at.front.is_empty() {
        return onward(history, runs, at);
    }
    at
}

/// Whether an entry ends its call.
#[tactic(auto, unfolding(vm_types::specs::Parts::next_part))]
pub fn ends_call_at(entry: EntryAt<'_>) -> bool
    requires { IsWellFormed (entry_seen entry).call }
    ensures { result ≡ ends_call (entry_seen entry.entry).call (entry_seen entry.entry).reply }
{
    match entry {
        EntryAt::Load { .. } | EntryAt::Store { .. } => true,
        EntryAt::Read {
            offset,
            length,
            bytes,
            ..
        } => {
            let got = bytes.len();
            got < length.min(line_rest(offset))
                || length <= got
                || offset.checked_add(got).is_none()
        }
        EntryAt::Whole(entry) => ends_call(&entry.call, &entry.reply),
    }
}

/// Copies the entries of one call, which may lie in several runs, and answers the place behind
/// them.
pub fn take_call<'a>(
    history: &'a Entries,
    runs: &Runs,
    at: Cursor<'a>,
    call: &mut Entries,
) -> Result<Cursor<'a>, AllocError>
    requires within { AreWithin (length history.now) runs.now }
    requires whole { at.front ≡ [] → entries_left history.now runs.now at ≡ [] }
    requires well_formed { All (λ e. IsWellFormed e.call) (entries_left history.now runs.now at) }
    requires empty { call.old ≡ [] }
    // The call's entries, and what is left.
    ensures taken { IfOk result (λ next. call.new
        ≡ take (call_length (entries_left history.now runs.now at.entry))
        (entries_left history.now runs.now at.entry)) }
    ensures left { IfOk result (λ next. entries_left history.now runs.now next
        ≡ drop (call_length (entries_left history.now runs.now at.entry))
        (entries_left history.now runs.now at.entry)) }
    ensures whole { IfOk result (λ next.
        next.front ≡ [] → entries_left history.now runs.now next ≡ []) }
{
    let mut at = at;
    while let Some((entry, _rest)) = at.front.split_first() {
        let is_last = ends_call_at(entry);
        call.push(&entry.entry())?;
        at = pass(history, runs, at, 1);
        if is_last {
            return Ok(at);
        }
    }
    Ok(at)
}
