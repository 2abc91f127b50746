//! The entries of one process, as runs of the history.
ghost use Rattle.std.specs.Prelude.{ℕ, ◌≡◌, ◌+◌, ◌<◌, ◌-◌, ◌^◌, ◌++◌, ◌∷◌, [], List, length, slice_get, slice_index_or, OnOk, IfSome};
ghost use Rattle.vm_script.specs.vm_types.declared.call.Entry.{Entry};
ghost use Rattle.vm_report.specs.Runs.{AreWithin, no_runs, runs_seen};

use std::alloc::{AllocError, Global};
use std::marker::Model;

/// So many entries of a history, from one on.
#[derive(Clone, Copy)]
pub struct Run {
    pub first: u32,
    pub count: u32,
}

/// Entries of a history in order, as runs of it, of which the last is still growing.
#[derive(Drop)]
pub struct Runs {
    done: Vec<Run>,
    last: Run,
}

impl Model for Runs {
    ghost use Rattle.std.specs.Prelude.{List, ◌+◌, ◌<◌, ◌^◌, ◌++◌, ◌∷◌, []};
    ghost use Rattle.vm_report.specs.declared.runs.Run.{Run};

    ghost Value = { List Run };

    ghost view = { λ r. r.done.items ++ r.last ∷ [] };

    ghost invariant = { λ r. r.last.first + r.last.count < 2 ^ 32 };
}

impl Runs {
    pub fn new(alloc: Global) -> Runs
        ensures { result ≡ no_runs }
    {
        Runs {
            done: Vec::new(alloc),
            last: Run { first: 0, count: 0 },
        }
    }

    /// Adds the entry of this number.
    pub fn add(&mut self, index: u32) -> Result<(), AllocError>
        requires { index < 2 ^ 32 - 1 }
        ensures seen { OnOk result ((H : List Entry) (e : Entry) → index < length H
            → e ≡ slice_index_or H index e → runs_seen H self.new ≡ runs_seen H self.old ++ e ∷ []) }
        ensures within { OnOk result ((n : ℕ) → index < n
            → AreWithin n self.old → AreWithin n self.new) }
    {
        let Run { first, count } = self.last;
        if first + count == index {
            self.last = Run {
                first,
                count: count + 1,
            };
            return Ok(());
        }
        self.done.push(self.last)?;
        self.last = Run {
            first: index,
            count: 1,
        };
        Ok(())
    }

    /// The run of a number, in order; None behind the last.
    pub fn get(&self, at: usize) -> Option<Run>
        ensures run { result ≡ slice_get self.now at }
        ensures small { IfSome result (λ _run. at < 2 ^ 63) }
    {
        if at < self.done.len() {
            return Some(self.done[at]);
        }
        if at == self.done.len() {
            return Some(self.last);
        }
        None
    }
}
