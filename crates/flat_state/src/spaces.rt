//! The spaces of the processes.
ghost use Rattle.std.specs.Prelude.{◌≡◌, ◌+◌, ◌<◌, ◌^◌, IfOk, OnOk, OnErr, IsSome, is_some, option_map, sum_by, unwrap_or};
ghost use Rattle.std.specs.List.{list_any};
ghost use Rattle.std.specs.BTreeMap.{values, IsOrdered};
ghost use Rattle.std.specs.Ordering.{nat_cmp};
ghost use Rattle.std.specs.FinMap as map;
ghost use Rattle.flat_model.specs.Flat.{private_cells};
ghost use Rattle.flat_state.specs.Cells.{flat_cell, names, with_index};
ghost use Rattle.flat_model.specs.Space.{without_range, with_cells, with_prots};
ghost use Rattle.flat_model.specs.Spaces.{cell_in, with_cell_in, names_zero};
ghost use Rattle.flat_state.specs.Mapped.{new_number_in, slots_left};

use crate::cells::{CellState, Cells};
use crate::zeros::slots_left;
use flat_model::Prot;
use std::alloc::{AllocError, Global};
use std::collections::BTreeMap;
use std::marker::Model;

/// The spaces of the processes that are alive.
#[derive(Drop)]
pub(crate) struct Spaces {
    spaces: BTreeMap<u32, Cells>,
}

impl Model for Spaces {
    ghost use Rattle.flat_model.specs.Flat.{Space};
    ghost use Rattle.flat_state.specs.FlatCode.{cell_code};
    ghost use Rattle.std.specs.Coded.{coded_ℕ};
    ghost use Rattle.std.specs.Ordering.{nat_cmp};
    ghost use Rattle.std.specs.FinMap as map;

    ghost Value = { map.FinMap nat_cmp Space };

    ghost coded = { map.code coded_ℕ (map.code coded_ℕ cell_code) };

    ghost view = { λ s. map.from_entries s.spaces.entries };
}

impl Spaces {
    /// No processes. Takes no memory.
    pub fn new(alloc: Global) -> Self
        ensures { result ≡ map.empty }
    {
        Spaces {
            spaces: BTreeMap::new(alloc),
        }
    }

    /// The cell of a process at a page.
    pub fn cell(&self, process: u32, page: u32) -> Option<&CellState>
        ensures { option_map (λ c. flat_cell c.now) result ≡ cell_in self.now process page }
    {
        match self.spaces.get(&process) {
            Some(space) => space.get(page),
            None => None,
        }
    }

    /// Puts a cell at a page of a process that is alive.
    pub fn set_cell(&mut self, process: u32, page: u32, cell: CellState) -> Result<(), AllocError>
        requires { IsSome (map.get self.old process) }
        ensures ok { OnOk result (self.new ≡ with_cell_in self.old process page (flat_cell cell)) }
        ensures err { OnErr result (self.new ≡ self.old) }
    {
        let Some(space) = self.spaces.get_mut(&process) else {
            return Ok(());
        };
        space.insert(page, cell)?;
        Ok(())
    }

    /// Whether the process is alive.
    pub fn is_alive(&self, process: u32) -> bool
        ensures { result ≡ is_some (map.get self.now process) }
    {
        self.spaces.contains_key(&process)
    }

    /// The cells of a process.
    pub fn get(&self, process: u32) -> Option<&Cells>
        ensures { option_map (λ c. c.now) result ≡ map.get self.now process }
    {
        self.spaces.get(&process)
    }

    /// Gives a process these cells.
    pub fn insert(&mut self, process: u32, cells: Cells) -> Result<(), AllocError>
        ensures ok { OnOk result (self.new ≡ map.insert self.old process cells) }
        ensures err { OnErr result (self.new ≡ self.old) }
    {
        self.spaces.insert(process, cells)?;
        Ok(())
    }

    /// Puts a cell at a page of a process, which has an empty space if it isn't alive.
    pub(crate) fn put_cell(
        &mut self,
        alloc: Global,
        process: u32,
        page: u32,
        cell: CellState,
    ) -> Result<(), AllocError>
        ensures ok { OnOk result (self.new ≡ with_cell_in self.old process page (flat_cell cell)) }
        ensures err { OnErr result (self.new ≡ self.old) }
    {
        if self.is_alive(process) {
            return self.set_cell(process, page, cell);
        }
        let mut cells = Cells::new(alloc);
        cells.insert(page, cell)?;
        self.insert(process, cells)
    }

    /// Takes the cells of a process away.
    pub fn remove(&mut self, process: u32)
        ensures { self.new ≡ map.remove self.old process }
    {
        let _cells = self.spaces.remove(&process);
    }

    /// The same spaces once more.
    pub(crate) fn copied(&self) -> Result<Spaces, AllocError>
        ensures { IfOk result (λ spaces. spaces ≡ self.now) }
    {
        Ok(Spaces {
            spaces: self.spaces.clone()?,
        })
    }

    /// Takes the cells of so many pages from the first away from a process that is alive. Takes no memory.
    pub(crate) fn take_out(&mut self, process: u32, first: u32, count: u32)
        requires { IsSome (map.get self.old process) }
        ensures { let cells = unwrap_or (map.get self.old process) map.empty in
            self.new ≡ map.insert self.old process (without_range cells first count) }
    {
        let Some(space) = self.spaces.get_mut(&process) else {
            return;
        };
        space.take_out(first, count);
    }

    /// Puts so many cells at the pages from the first on of a process that is alive, of which each shows the page
    /// behind the one before.
    pub(crate) fn put_in(
        &mut self,
        process: u32,
        first: u32,
        count: u32,
        cell: &CellState,
    ) -> Result<(), AllocError>
        requires alive { IsSome (map.get self.old process) }
        requires pages { first + count < 2 ^ 32 }
        requires indexes { cell.now.index + count < 2 ^ 32 }
        ensures { let old = unwrap_or (map.get self.old process) map.empty in
            let new = with_cells old first count (λ i. with_index (flat_cell cell.now) i) in
            OnOk result (self.new ≡ map.insert self.old process new) }
    {
        let Some(space) = self.spaces.get_mut(&process) else {
            return Ok(());
        };
        space.put_in(first, count, cell)?;
        Ok(())
    }

    /// The cells of a process once more, none for one that isn't alive.
    pub(crate) fn cells_of(&self, alloc: Global, process: u32) -> Result<Cells, AllocError>
        ensures { IfOk result (λ cells. cells ≡ unwrap_or (map.get self.now process) map.empty) }
    {
        match self.get(process) {
            Some(cells) => cells.copied(),
            None => Ok(Cells::new(alloc)),
        }
    }

    /// Gives the cells at so many pages of a process that is alive this protection. Takes no memory.
    pub(crate) fn protect(&mut self, process: u32, first: u32, count: u32, prot: Prot)
        requires alive { IsSome (map.get self.old process) }
        requires pages { first + count < 2 ^ 32 }
        ensures { let cells = unwrap_or (map.get self.old process) map.empty in
            self.new ≡ map.insert self.old process (with_prots cells first count prot) }
    {
        let Some(space) = self.spaces.get_mut(&process) else {
            return;
        };
        space.protect(first, count, prot);
    }

    /// So many slots without one for each private cell, where there are enough. Looks at each cell.
    pub(crate) fn slots_left(&self, slots: u32) -> Option<u32>
        ensures { result ≡ slots_left slots (sum_by private_cells (map.values self.now)) }
    {
        cell_slots_left(&self.spaces, slots)
    }

    /// The least number that no cell names. Err where no number below 2^32 - 1 is left.
    pub(crate) fn new_number(&self) -> Result<u32, AllocError>
        ensures { IfOk result (λ number. number ≡ new_number_in self.now) }
    {
        for number in 0..u32::MAX {
            if !self.names_zero(number) {
                return Ok(number);
            }
        }
        Err(AllocError)
    }

    /// Whether some cell of some process names the zero object. Looks at each cell.
    pub fn names_zero(&self, zero: u32) -> bool
        ensures { result ≡ names_zero self.now zero }
    {
        any_space_names(&self.spaces, zero)
    }
}

// Whether a cell of some value of the tree names the zero object.
fn any_space_names(spaces: &BTreeMap<u32, Cells>, zero: u32) -> bool
    ensures any { let all = values spaces.now in
        result ≡ list_any (λ space. list_any (names zero) (map.values space)) all }
    ensures ordered { IsOrdered nat_cmp spaces.now }
{
    spaces.values().any(|cells| cells.any_names(zero))
}

// So many slots without one for each private cell of some value of the tree, where there are enough.
fn cell_slots_left(spaces: &BTreeMap<u32, Cells>, slots: u32) -> Option<u32>
    ensures left { result ≡ slots_left slots (sum_by private_cells (values spaces.now)) }
    ensures ordered { IsOrdered nat_cmp spaces.now }
{
    let mut left = slots;
    for cells in spaces.values() {
        left = slots_left(left, cells.private_cells() as u64)?;
    }
    Some(left)
}
