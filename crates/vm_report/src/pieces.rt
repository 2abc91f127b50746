//! The sections of all processes, piece by piece.
ghost use Rattle.std.specs.Prelude.{◌≡◌, ◌<◌, ◌^◌, ◌++◌, [], All, false, length, true, IfOk, OnOk};
ghost use Rattle.vm_script.specs.vm_types.WellFormed.{IsWellFormed};
ghost use Rattle.vm_report.specs.Report as report;

use crate::cursors::{Cursor, first_place};
use crate::groups::{Group, births_of, entries_by_process, lines_by_process};
use crate::runs::Runs;
use crate::sections::{is_born_by, push_heading, push_next_lines};
use entry_list::Entries;
use std::alloc::{AllocError, Global};
use std::marker::Model;
use vm_script::{Plan, PlanLine};

/// The sections of all processes of a plan, in order of number, which are added piece by piece.
///
/// It is seen as the text that is still to come, and how many pieces that is at most. It has gone
/// over the plan once and over the history twice, however many processes there are.
#[derive(Drop)]
pub struct SectionsLeft<'a> {
    plan: &'a Plan,
    history: &'a Entries,
    births: Vec<bool>,
    lines: Vec<Group<'a, PlanLine>>,
    entries: Vec<Runs>,
    // The process whose section was begun, how many of its lines were passed, and what is left of its
    // entries.
    process: u32,
    line: usize,
    place: Cursor<'a>,
}

impl<'a> Model for SectionsLeft<'a> {
    ghost use Rattle.vm_report.specs.Pieces.{TextLeft};

    ghost Value = { TextLeft };

    ghost use Rattle.vm_report.specs.PiecesInside.{AreSorted, IsSectionPlace, left_of, sections_left};

    ghost view = { λ s. sections_left s.plan.now s.history.now s.process s.line
        (left_of s.history.now s.entries.items s.process s.place) };

    ghost invariant = { λ s.
        AreSorted s.plan.now s.history.now s.births.items s.lines.items s.entries.items
        × IsSectionPlace s.plan.now s.history.now s.entries.items s.process s.line s.place };
}

impl<'a> SectionsLeft<'a> {
    /// All sections. It takes memory for a flag for each process, a reference for each line, and 8
    /// bytes for each run of entries of one process.
    pub fn new(
        alloc: Global,
        plan: &'a Plan,
        history: &'a Entries,
    ) -> Result<SectionsLeft<'a>, AllocError>
        requires few { length history.now < 2 ^ 32 }
        requires few_blocks { length plan.now.parents < 2 ^ 31 }
        requires well_formed { All (λ e. IsWellFormed e.call) history.now }
        ensures all { IfOk result (λ left.
            left.text ≡ report.process_sections plan.now history.now) }
    {
        let count = plan.parents().len();
        let births = births_of(alloc, history, count + 1)?;
        let lines = lines_by_process(alloc, plan.lines(), count + 1)?;
        let entries = entries_by_process(alloc, history, count + 1)?;
        let line = lines[0].members().len();
        let place = first_place(history, &entries[0]);
        Ok(SectionsLeft {
            plan,
            history,
            births,
            lines,
            entries,
            process: 0,
            line,
            place,
        })
    }

    /// Adds the next piece, and answers whether there was one: a heading, or lines of a section, to
    /// its end or up to the first line with which the text is at least 65,536 bytes long.
    pub fn push_next(&mut self, out: &mut Vec<u8>) -> Result<bool, AllocError>
        ensures text { OnOk result
            (out.new.items ++ self.new.text ≡ out.old.items ++ self.old.text) }
        ensures end { IfOk result (λ more. more ≡ false → self.new.text ≡ []) }
        ensures pieces { IfOk result (λ more.
            more ≡ true → self.new.pieces < self.old.pieces) }
    {
        let at = self.process as usize;
        let lines = self.lines[at].members();
        if self.line < lines.len() {
            let runs = &self.entries[at];
            (self.line, self.place) = push_next_lines(
                out,
                lines,
                self.history,
                runs,
                self.line,
                self.place.again(),
            )?;
            return Ok(true);
        }
        if at == self.plan.parents().len() {
            return Ok(false);
        }
        let process = self.process + 1;
        let born = is_born_by(self.plan.parents(), process, self.births[process as usize]);
        push_heading(out, process, born)?;
        self.process = process;
        self.line = if born {
            0
        } else {
            self.lines[process as usize].members().len()
        };
        self.place = first_place(self.history, &self.entries[process as usize]);
        Ok(true)
    }
}

/// Adds the sections of all processes, in order of number.
pub fn process_sections(plan: &Plan, history: &Entries, out: &mut Vec<u8>) -> Result<(), AllocError>
    requires few { length history.now < 2 ^ 32 }
    requires few_blocks { length plan.now.parents < 2 ^ 31 }
    requires well_formed { All (λ e. IsWellFormed e.call) history.now }
    ensures new { OnOk result (out.new.items
        ≡ out.old.items ++ report.process_sections plan.now history.now) }
{
    let mut left = SectionsLeft::new(*out.allocator(), plan, history)?;
    let mut more = true;
    while more {
        more = left.push_next(out)?;
    }
    Ok(())
}
