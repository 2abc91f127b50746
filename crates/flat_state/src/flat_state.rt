//! A plain form of flat memory, which steps over the entries of a history.
ghost use Rattle.std.specs.Prelude.{◌≡◌, ◌↔◌, [], IsTrue, IsFalse, IsSome, IfOk, OnOk, OnErr, length};
ghost use Rattle.std.specs.FinMap as finite;
ghost use Rattle.std.specs.FinSet as set;
ghost use Rattle.flat_model.specs.vm_types.WellFormed.{IsWellFormed};
ghost use Rattle.flat_state.specs.Cells.{extents_of};
ghost use Rattle.flat_model.specs.Opening.{flat_at_opening};
ghost use Rattle.flat_model.specs.Parts.{file_at_opening};
ghost use Rattle.flat_model.specs.Step.{IsStep, step};
ghost use Rattle.flat_state.specs.FlatState.{with_root, with_one_more_file, with_blocks};

use crate::state::FlatParts;
use flat_model::Entry;
use std::alloc::{AllocError, Global};
use std::marker::Model;

/// Flat memory, kept plainly, for tests and for checking histories.
#[derive(Drop)]
pub struct FlatState {
    parts: FlatParts,
}

impl Model for FlatState {
    ghost use Rattle.flat_model.specs.Flat.{Flat, IsFlat};
    ghost use Rattle.flat_state.specs.FlatCode.{flat_code};

    ghost Value = { Flat };

    ghost coded = { flat_code };

    ghost view = { λ s. s.parts };

    ghost invariant = { λ s. IsFlat s.parts };
}

impl FlatState {
    /// These slots, and no disks, no files, no zero objects and no processes. Takes no memory.
    pub fn new(alloc: Global, slots: u32) -> Self
        ensures { result ≡ flat_at_opening slots finite.empty [] [] }
    {
        FlatState {
            parts: FlatParts::new(alloc, slots),
        }
    }

    /// Adds a disk of so many blocks.
    pub fn disk(&mut self, number: u32, blocks: u32) -> Result<(), AllocError>
        requires new { IsFalse (finite.contains_key self.old.disks number) }
        ensures ok { OnOk result (self.new ≡ with_blocks self.old number blocks) }
        ensures err { OnErr result (self.new ≡ self.old) }
    {
        self.parts.disk(number, blocks)
    }

    /// Appends a file with these bytes, whose blocks are those of these extents, each a start and a
    /// number of pages.
    pub fn file(
        &mut self,
        len: u32,
        disk: u32,
        extents: &[(u32, u32)],
        writable: bool,
        bytes: &[u8],
    ) -> Result<(), AllocError>
        requires whole { length bytes.now ≡ len }
        requires disk { IsSome (finite.get self.old.disks disk) }
        ensures ok { let extents = extents_of extents.now in
            let file = file_at_opening len disk extents writable bytes.now in
            OnOk result (self.new ≡ with_one_more_file self.old file) }
        ensures err { OnErr result (self.new ≡ self.old) }
    {
        self.parts.file(len, disk, extents, writable, bytes)
    }

    /// The process is alive and born, with an empty space.
    pub fn root(&mut self, process: u32) -> Result<(), AllocError>
        requires unborn { IsFalse (set.contains self.old.born process) }
        ensures ok { OnOk result (self.new ≡ with_root self.old process) }
        ensures err { OnErr result (self.new ≡ self.old) }
    {
        self.parts.root(process)
    }

    /// One step of flat memory: false, and unchanged, exactly where the entry isn't a step.
    pub fn step(&mut self, entry: &Entry) -> Result<bool, AllocError>
        requires form { IsWellFormed entry.now.call }
        // Whether it is a step, and flat memory then.
        ensures exact { IfOk result (λ is. IsTrue is ↔ IsStep self.old entry.now) }
        ensures next { IfOk result (λ is. IsTrue is → self.new ≡ step self.old entry.now) }
        // Else nothing changes.
        ensures stays { IfOk result (λ is. IsFalse is → self.new ≡ self.old) }
        ensures err { OnErr result (self.new ≡ self.old) }
    {
        self.parts.step(entry)
    }
}
