//! The lines and the entries of each process, each made in one pass.
ghost use Rattle.std.specs.Prelude.{ℕ, ◌≡◌, ◌++◌, ◌∷◌, ◌+◌, ◌-◌, ◌<◌, ◌^◌, ◌==◌, [], All, List, filter, length, map, replicate, slice_index_or, false, IfOk, OnOk};
ghost use Rattle.std.specs.List.{list_any};
ghost use Rattle.vm_script.specs.flat_model.Told.{entries_of};
ghost use Rattle.vm_script.specs.Told.{is_birth};
ghost use Rattle.vm_script.specs.vm_types.declared.call.Entry.{Entry as EntrySeen};
ghost use Rattle.entry_list.specs.Rows.{entry_seen};
ghost use Rattle.vm_report.specs.Groups.{with_member, with_birth};
ghost use Rattle.vm_report.specs.Runs.{AreWithin, no_runs, runs_seen};

use crate::runs::Runs;
use entry_list::{Entries, EntryAt};
use std::alloc::{AllocError, Global};
use std::marker::Model;
use vm_script::{Call, Entry, PlanLine, Reply};

/// What belongs to one process, in order.
#[derive(Drop)]
pub struct Group<'a, T> {
    members: Vec<&'a T>,
}

impl<'a, T> Model for Group<'a, T> {
    ghost use Rattle.std.specs.Prelude.{List, map};

    ghost Value = { List T };

    ghost view = { λ g. map (λ x. x.now) g.members.items };
}

impl<'a, T> Group<'a, T> {
    pub fn new(alloc: Global) -> Group<'a, T>
        ensures { result ≡ [] }
    {
        Group {
            members: Vec::new(alloc),
        }
    }

    pub fn add(&mut self, member: &'a T) -> Result<(), AllocError>
        ensures { OnOk result (self.new ≡ self.old ++ member.now ∷ []) }
    {
        self.members.push(member)?;
        Ok(())
    }

    pub fn members(&self) -> &[&'a T]
        ensures { map (λ x. x.now) result.now ≡ self.now }
    {
        self.members.as_slice()
    }
}

fn empty_groups<'a, T>(alloc: Global, count: usize) -> Result<Vec<Group<'a, T>>, AllocError>
    ensures { IfOk result (λ groups. groups.items ≡ replicate count []) }
{
    let mut groups = Vec::new(alloc);
    for _ in 0..count {
        groups.push(Group::new(alloc))?;
    }
    Ok(groups)
}

fn add_to<'a, T>(
    groups: &mut Vec<Group<'a, T>>,
    process: u32,
    member: &'a T,
) -> Result<(), AllocError>
    ensures { OnOk result (groups.new.items ≡ with_member groups.old.items process member.now) }
{
    if let Some(group) = groups.get_mut(process as usize) {
        group.add(member)?;
    }
    Ok(())
}

fn empty_runs(alloc: Global, count: usize) -> Result<Vec<Runs>, AllocError>
    ensures { IfOk result (λ groups. groups.items ≡ replicate count no_runs) }
{
    let mut groups = Vec::new(alloc);
    for _ in 0..count {
        groups.push(Runs::new(alloc))?;
    }
    Ok(groups)
}

fn add_entry(groups: &mut Vec<Runs>, process: u32, index: u32) -> Result<(), AllocError>
    requires { index < 2 ^ 32 - 1 }
    ensures seen { OnOk result ((H : List EntrySeen) (e : EntrySeen) → index < length H
        → e ≡ slice_index_or H index e → map (runs_seen H) groups.new.items
        ≡ with_member (map (runs_seen H) groups.old.items) process e) }
    ensures within { OnOk result ((n : ℕ) → index < n
        → All (AreWithin n) groups.old.items → All (AreWithin n) groups.new.items) }
{
    if let Some(group) = groups.get_mut(process as usize) {
        group.add(index)?;
    }
    Ok(())
}

/// The entries of each process below `count`.
pub fn entries_by_process(
    alloc: Global,
    history: &Entries,
    count: usize,
) -> Result<Vec<Runs>, AllocError>
    requires few { length history.now < 2 ^ 32 }
    ensures count { IfOk result (λ groups. length groups.items ≡ count) }
    ensures each { IfOk result (λ groups. (p : ℕ) → p < count →
        slice_index_or (map (runs_seen history.now) groups.items) p []
        ≡ entries_of history.now p) }
    ensures within { IfOk result (λ groups. All (AreWithin (length history.now)) groups.items) }
{
    let mut groups = empty_runs(alloc, count)?;
    for index in 0..history.len() {
        add_entry(&mut groups, history.at(index).process(), index as u32)?;
    }
    Ok(groups)
}

/// The lines of each process below `count`.
pub fn lines_by_process<'a>(
    alloc: Global,
    lines: &'a [PlanLine],
    count: usize,
) -> Result<Vec<Group<'a, PlanLine>>, AllocError>
    ensures count { IfOk result (λ groups. length groups.items ≡ count) }
    ensures each { IfOk result (λ groups. (p : ℕ) → p < count →
        slice_index_or groups.items p [] ≡ filter (λ l. l.process == p) lines.now) }
{
    let mut groups = empty_groups(alloc, count)?;
    for line in lines {
        add_to(&mut groups, line.process, line)?;
    }
    Ok(groups)
}

fn add_birth(births: &mut Vec<bool>, entry: &Entry)
    ensures { births.new.items ≡ with_birth births.old.items entry.now }
{
    if let (Call::Fork { child }, Reply::Done) = (&entry.call, &entry.reply) {
        if let Some(birth) = births.get_mut(*child as usize) {
            *birth = true;
        }
    }
}

fn add_birth_at(births: &mut Vec<bool>, entry: EntryAt<'_>)
    ensures { births.new.items ≡ with_birth births.old.items (entry_seen entry.entry) }
{
    match entry {
        EntryAt::Load { .. } | EntryAt::Store { .. } | EntryAt::Read { .. } => {}
        EntryAt::Whole(entry) => add_birth(births, entry),
    }
}

/// Which of the processes below `count` the history's forks made.
pub fn births_of(alloc: Global, history: &Entries, count: usize) -> Result<Vec<bool>, AllocError>
    ensures count { IfOk result (λ births. length births.items ≡ count) }
    ensures each { IfOk result (λ births. (p : ℕ) → p < count →
        slice_index_or births.items p false ≡ list_any (is_birth p) history.now) }
{
    let mut births = vec![in alloc; false; count]?;
    for place in 0..history.len() {
        add_birth_at(&mut births, history.at(place));
    }
    Ok(births)
}
