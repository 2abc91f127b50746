//! The judge of a history, entry by entry.
ghost use Rattle.std.specs.Prelude.{ℕ, ◌≡◌, ◌==◌, ◌↔◌, ◌≤◌, ◌<◌, ◌^◌, ◌∷◌, ◌++◌, [], ◌+◌, List, IsTrue, IfOk, OnOk, false, length, unwrap_or, if◌then◌else◌};
ghost use Rattle.std.specs.Option.{option_map_or};
ghost use Rattle.std.specs.BTreeMap.{get};
ghost use Rattle.std.specs.Ordering.{nat_cmp};
ghost use Rattle.flat_model.specs.vm_types.declared.call.Entry.{Entry};
ghost use Rattle.flat_model.specs.vm_types.Parts.{file_of_call};
ghost use Rattle.flat_model.specs.vm_types.WellFormed.{IsWellFormed};
ghost use Rattle.flat_model.specs.Births.{is_birth};
ghost use Rattle.flat_model.specs.Flat.{Flat};
ghost use Rattle.flat_model.specs.History.{IsSyncStart, is_aside};
ghost use Rattle.flat_model.specs.HistoryLaws.{IsNext, IsNextPart, open_after};
ghost use Rattle.flat_model.specs.Step.{step};
ghost use Rattle.flat_model.specs.SyncLaws.{is_in_life};
ghost use Rattle.trace_check.specs.Judging.{HasTaken, HasJudged};
ghost use Rattle.trace_check.specs.Verdicts.{IsVerdict};

use crate::verdict::Verdict;
use flat_model::{Call, Entry, Reply, ends_call, part_file};
use flat_state::FlatState;
use std::alloc::{AllocError, Global};
use std::collections::BTreeMap;

/// What is kept of the entries so far.
#[derive(Drop)]
pub struct Judge {
    flat: FlatState,
    /// How many entries there are, as long as they are legal.
    count: u64,
    /// The process whose call of a file is between two parts, by the file's number.
    holders: BTreeMap<u32, u32>,
    /// The first position at which a Sync of a process may have begun: behind its last entry and the
    /// Fork that made it. None stands for 0.
    starts: BTreeMap<u32, u64>,
    /// The first entry with which the history isn't legal. No more is taken then.
    first: Option<u64>,
}

// The file that a call is of.
fn file_of_call(call: &Call) -> Option<u32>
    ensures { result ≡ file_of_call call.now }
{
    match call {
        Call::Truncate { file, .. } => Some(*file),
        _ => part_file(call),
    }
}

// The child that an entry made.
fn child_made(entry: &Entry) -> Option<u32>
    ensures { (p : ℕ) → is_birth p entry.now ≡ option_map_or (λ child. child == p) result false }
{
    let Call::Fork { child } = entry.call else {
        return None;
    };
    let Reply::Done = entry.reply else {
        return None;
    };
    Some(child)
}

impl Judge {
    /// Nothing is seen yet. Takes no memory.
    pub fn new(alloc: Global, flat: FlatState) -> Self
        ensures judged { HasJudged flat [] result }
        ensures none { result.count ≡ 0 }
    {
        Judge {
            flat,
            count: 0,
            holders: BTreeMap::new(alloc),
            starts: BTreeMap::new(alloc),
            first: None,
        }
    }

    // Where the entry says where a Sync began: whether it may have begun there.
    fn may_start(&self, entry: &Entry) -> bool
        ensures { (F : Flat) (H : List Entry) → HasTaken F H self.now →
            IsTrue result ↔ IsSyncStart H (length H) entry.now }
    {
        let Reply::Synced(from) = entry.reply else {
            return true;
        };
        let first = self.starts.get(&entry.process).copied().unwrap_or(0);
        first <= from && from <= self.count
    }

    // Whether the entry may be the next one of its file.
    fn may_be_next(&self, entry: &Entry) -> bool
        ensures { (F : Flat) (H : List Entry) → HasTaken F H self.now →
            IsTrue result ↔ IsNextPart H entry.now }
    {
        let Some(file) = file_of_call(&entry.call) else {
            return true;
        };
        let Some(holder) = self.holders.get(&file) else {
            return true;
        };
        if entry.process == *holder {
            part_file(&entry.call).is_some()
        } else {
            entry.reply.is_io()
        }
    }

    // Whether another process's call that met Io stands between the parts of a call of this file.
    fn is_aside(&self, file: u32, entry: &Entry) -> bool
        ensures { result ≡ option_map_or (λ p. is_aside p entry.now)
            (get nat_cmp self.now.holders file) false }
    {
        let Some(holder) = self.holders.get(&file) else {
            return false;
        };
        entry.reply.is_io() && entry.process != *holder
    }

    // Keeps whose call of the entry's file is between two parts.
    fn keep_holder(&mut self, entry: &Entry) -> Result<(), AllocError>
        requires { IsWellFormed entry.now.call }
        ensures holders { OnOk result ((f : ℕ) → get nat_cmp self.new.holders f
            ≡ open_after f (get nat_cmp self.old.holders f) entry.now) }
        ensures rest { (self.new.flat ≡ self.old.flat) × (self.new.count ≡ self.old.count)
            × (self.new.starts ≡ self.old.starts) × (self.new.first ≡ self.old.first) }
    {
        let Some(file) = file_of_call(&entry.call) else {
            return Ok(());
        };
        if self.is_aside(file, entry) {
            return Ok(());
        }
        if ends_call(&entry.call, &entry.reply) {
            self.holders.remove(&file);
            return Ok(());
        }
        self.holders.insert(file, entry.process)?;
        Ok(())
    }

    // Keeps where Syncs may begin from now on: behind this entry for its process and for a child that
    // it made.
    fn keep_starts(&mut self, entry: &Entry) -> Result<(), AllocError>
        requires { self.old.count + 1 < 2 ^ 64 }
        ensures starts { OnOk result ((p : ℕ) →
            unwrap_or (get nat_cmp self.new.starts p) 0 ≡ (if is_in_life p entry.now
            then self.old.count + 1 else unwrap_or (get nat_cmp self.old.starts p) 0)) }
        ensures rest { (self.new.flat ≡ self.old.flat) × (self.new.count ≡ self.old.count)
            × (self.new.holders ≡ self.old.holders) × (self.new.first ≡ self.old.first) }
    {
        let behind = self.count + 1;
        self.starts.insert(entry.process, behind)?;
        let Some(child) = child_made(entry) else {
            return Ok(());
        };
        self.starts.insert(child, behind)?;
        Ok(())
    }

    // Whether the entry may come behind those so far; flat memory is then behind it.
    fn steps(&mut self, entry: &Entry) -> Result<bool, AllocError>
        requires { IsWellFormed entry.now.call }
        ensures exact { IfOk result (λ is. (F : Flat) (H : List Entry) → HasTaken F H self.old →
            IsTrue is ↔ IsNext F H entry.now) }
        ensures flat { IfOk result (λ is. IsTrue is →
            self.new.flat ≡ step self.old.flat entry.now) }
        ensures rest { (self.new.count ≡ self.old.count) × (self.new.holders ≡ self.old.holders)
            × (self.new.starts ≡ self.old.starts) × (self.new.first ≡ self.old.first) }
    {
        if !self.may_start(entry) {
            return Ok(false);
        }
        if !self.may_be_next(entry) {
            return Ok(false);
        }
        self.flat.step(entry)
    }

    /// Takes the next entry.
    pub fn take(&mut self, entry: &Entry) -> Result<(), AllocError>
        requires form { IsWellFormed entry.now.call }
        requires room { self.old.count + 1 < 2 ^ 64 }
        ensures judged { OnOk result ((F : Flat) (H : List Entry) → HasJudged F H self.old →
            HasJudged F (H ++ entry.now ∷ []) self.new) }
        ensures count { self.new.count ≤ self.old.count + 1 }
    {
        if self.first.is_some() {
            return Ok(());
        }
        let is_next = self.steps(entry)?;
        if !is_next {
            self.first = Some(self.count);
            return Ok(());
        }
        self.keep_holder(entry)?;
        self.keep_starts(entry)?;
        self.count += 1;
        Ok(())
    }

    /// The verdict of the entries so far.
    pub fn verdict(&self) -> Verdict
        ensures { (F : Flat) (H : List Entry) → HasJudged F H self.now → IsVerdict F H result }
    {
        match self.first {
            None => Verdict::Legal(self.count),
            Some(k) => Verdict::First(k),
        }
    }
}
