//! The cells of a process, as a finite map.
ghost use Rattle.std.specs.Prelude.{◌≡◌, ◌+◌, ◌<◌, ◌≤◌, ◌^◌, IfOk, IfSome, OnOk, OnErr, true, is_some, option_map, sum_by, map as list_map};
ghost use Rattle.std.specs.List.{list_any};
ghost use Rattle.std.specs.FinMap as map;
ghost use Rattle.std.specs.BTreeMap.{values, IsOrdered};
ghost use Rattle.std.specs.Ordering.{nat_cmp};
ghost use Rattle.flat_model.specs.Flat.{slots_for, private_cells};
ghost use Rattle.std.specs.Option.{option_map_or};
ghost use Rattle.flat_model.specs.vm_types.Prot.{is_within};
ghost use Rattle.flat_model.specs.Space.{is_in_range, without_range, with_cells, with_prots, lowest_gap_from, lowest_gap};
ghost use Rattle.flat_model.specs.Mapping.{are_mapped, may_have};
ghost use Rattle.flat_state.specs.Cells.{flat_cell, names, is_zero, without_own, with_index, cell_with_prot};

use crate::page_bytes::PageBytes;
use flat_model::{END_PAGE, Kind, Object, Prot};
use std::alloc::{AllocError, Global};
use std::collections::BTreeMap;
use std::marker::Model;

/// A cell: one page of a mapping.
#[derive(Clone, Drop)]
pub(crate) struct CellState {
    pub prot: Prot,
    /// At most what `Protect` may allow.
    pub max: Prot,
    pub kind: Kind,
    pub object: Object,
    /// The page of the object.
    pub index: u32,
    /// The cell's own page, where it has one.
    pub own: Option<PageBytes>,
}

/// The cells of a process by page number.
#[derive(Drop)]
pub(crate) struct Cells {
    cells: BTreeMap<u32, CellState>,
}

impl Clone for Cells {
    ghost is_clone = { λ v w. w ≡ v };

    fn clone(&self) -> Result<Cells, AllocError> {
        self.copied()
    }
}

impl Model for Cells {
    ghost use Rattle.flat_model.specs.Flat.{Space};
    ghost use Rattle.flat_state.specs.FlatCode.{cell_code};
    ghost use Rattle.std.specs.Coded.{coded_ℕ};
    ghost use Rattle.std.specs.FinMap as map;

    ghost Value = { Space };

    ghost coded = { map.code coded_ℕ cell_code };

    ghost use Rattle.flat_state.specs.Cells.{space_in};

    ghost view = { λ c. space_in c.cells };
}

impl Cells {
    /// No cells. Takes no memory.
    pub fn new(alloc: Global) -> Self
        ensures { result ≡ map.empty }
    {
        Cells {
            cells: BTreeMap::new(alloc),
        }
    }

    /// The cell at a page. Logarithmic in the number of cells.
    pub fn get(&self, page: u32) -> Option<&CellState>
        ensures { option_map (λ c. flat_cell c.now) result ≡ map.get self.now page }
    {
        self.cells.get(&page)
    }

    /// Puts a cell at a page, over one that was there.
    pub fn insert(&mut self, page: u32, cell: CellState) -> Result<(), AllocError>
        ensures ok { OnOk result (self.new ≡ map.insert self.old page (flat_cell cell)) }
        ensures err { OnErr result (self.new ≡ self.old) }
    {
        self.cells.insert(page, cell)?;
        Ok(())
    }

    /// Takes the cell at a page away, if there is one.
    pub fn remove(&mut self, page: u32)
        ensures { self.new ≡ map.remove self.old page }
    {
        let _cell = self.cells.remove(&page);
    }

    /// The same cells once more.
    pub fn copied(&self) -> Result<Cells, AllocError>
        ensures { IfOk result (λ cells. cells ≡ self.now) }
    {
        Ok(Cells {
            cells: self.cells.clone()?,
        })
    }

    /// Whether some cell names the zero object. Looks at each cell.
    pub fn any_names(&self, zero: u32) -> bool
        ensures { result ≡ list_any (names zero) (map.values self.now) }
    {
        any_names(&self.cells, zero)
    }

    /// How many cells there are.
    pub fn len(&self) -> usize
        ensures { result ≡ map.len self.now }
    {
        self.cells.len()
    }

    /// Takes the cells of so many pages from the first away. Looks at each cell.
    pub fn take_out(&mut self, first: u32, count: u32)
        ensures { self.new ≡ without_range self.old first count }
    {
        self.cells
            .retain(|page, _| !is_in_range(first, count, *page));
    }

    /// Puts so many cells at the pages from the first on, of which each shows the page behind the one before.
    pub fn put_in(&mut self, first: u32, count: u32, cell: &CellState) -> Result<(), AllocError>
        requires pages { first + count < 2 ^ 32 }
        requires indexes { cell.now.index + count < 2 ^ 32 }
        ensures { let shown = flat_cell cell.now in
            let new = with_cells self.old first count (λ i. with_index shown i) in
            OnOk result (self.new ≡ new) }
    {
        for i in 0..count {
            self.insert(first + i, moved(cell, i)?)?;
        }
        Ok(())
    }

    // Whether the page has a cell.
    fn has(&self, page: u32) -> bool
        ensures { result ≡ is_some (map.get self.now page) }
    {
        self.cells.contains_key(&page)
    }

    // Whether the cell at the page, if there is one, may have the protection.
    fn lets(&self, page: u32, prot: Prot) -> bool
        ensures { result ≡ option_map_or (λ c. is_within prot c.max) (map.get self.now page) true }
    {
        match self.get(page) {
            Some(cell) => prot.is_within(cell.max),
            None => true,
        }
    }

    /// Whether each of so many pages from the first has a cell.
    pub fn are_mapped(&self, first: u32, count: u32) -> bool
        requires { first + count < 2 ^ 32 }
        ensures { result ≡ are_mapped self.now first count }
    {
        for i in 0..count {
            if !self.has(first + i) {
                return false;
            }
        }
        true
    }

    /// Whether each cell at so many pages from the first may have the protection.
    pub fn may_have(&self, first: u32, count: u32, prot: Prot) -> bool
        requires { first + count < 2 ^ 32 }
        ensures { result ≡ may_have self.now first count prot }
    {
        for i in 0..count {
            if !self.lets(first + i, prot) {
                return false;
            }
        }
        true
    }

    // Gives the cell at a page this protection, if there is one.
    fn set_prot(&mut self, page: u32, prot: Prot)
        ensures { self.new ≡ with_prots self.old page 1 prot }
    {
        if !self.has(page) {
            return;
        }
        let Some(cell) = self.cells.get_mut(&page) else {
            return;
        };
        give(cell, prot);
    }

    /// Gives the cells at so many pages from the first this protection. Takes no memory.
    pub fn protect(&mut self, first: u32, count: u32, prot: Prot)
        requires { first + count < 2 ^ 32 }
        ensures { self.new ≡ with_prots self.old first count prot }
    {
        for i in 0..count {
            self.set_prot(first + i, prot);
        }
    }

    /// The lowest page from 1 on at which so many pages are free. Looks at each cell.
    pub fn lowest_gap(&self, count: u32) -> Option<u32>
        ensures gap { result ≡ lowest_gap self.now count }
        ensures ends { IfSome result (λ first. first + count < 2 ^ 32) }
    {
        gap(&self.cells, count)
    }

    /// How many cells are private. Looks at each cell.
    pub fn private_cells(&self) -> usize
        ensures { result ≡ private_cells self.now }
    {
        count_private(&self.cells)
    }
}

// Gives the cell this protection.
fn give(cell: &mut CellState, prot: Prot)
    ensures { flat_cell cell.new ≡ cell_with_prot (flat_cell cell.old) prot }
{
    cell.prot = prot;
}

// Whether the page is one of so many from the first.
fn is_in_range(first: u32, count: u32, page: u32) -> bool
    ensures { result ≡ is_in_range first count page }
{
    first <= page && (page as u64) < first as u64 + count as u64
}

// The cell that shows a page so far behind the cell's.
fn moved(cell: &CellState, by: u32) -> Result<CellState, AllocError>
    requires { cell.now.index + by < 2 ^ 32 }
    ensures { IfOk result (λ new. flat_cell new ≡ with_index (flat_cell cell.now) by) }
{
    let mut new = cell.clone()?;
    new.index = cell.index + by;
    Ok(new)
}

// The lowest gap between the keys of the tree.
fn gap(cells: &BTreeMap<u32, CellState>, count: u32) -> Option<u32>
    ensures gap { let entries = list_map (λ e. (e.0, flat_cell e.1)) cells.now.entries in
        result ≡ lowest_gap_from 1 count entries }
    ensures ends { IfSome result (λ first. first + count < 2 ^ 32) }
    ensures ordered { IsOrdered nat_cmp cells.now }
{
    let mut low: u64 = 1;
    for (page, _) in cells.iter() {
        if low + count as u64 <= *page as u64 {
            return Some(low as u32);
        }
        low = *page as u64 + 1;
    }
    if low + count as u64 <= END_PAGE as u64 {
        Some(low as u32)
    } else {
        None
    }
}

// How many values of the tree are private.
fn count_private(cells: &BTreeMap<u32, CellState>) -> usize
    ensures count { result ≡ sum_by (λ c. slots_for (flat_cell c)) (values cells.now) }
    ensures ordered { IsOrdered nat_cmp cells.now }
{
    let mut count = 0;
    for cell in cells.values() {
        count += slots_for(cell);
    }
    count
}

// How many slots a cell reserves.
fn slots_for(cell: &CellState) -> usize
    ensures slots { result ≡ slots_for (flat_cell cell.now) }
    ensures few { result ≤ 1 }
{
    match cell.kind {
        Kind::Private => 1,
        Kind::Shared => 0,
    }
}

// Whether the object is the zero object of this number.
fn is_zero(object: Object, zero: u32) -> bool
    ensures { result ≡ is_zero zero object }
{
    match object {
        Object::Zero(number) => zero == number,
        Object::File(_) | Object::NewZero => false,
    }
}

// Whether some value of the tree names the zero object.
fn any_names(cells: &BTreeMap<u32, CellState>, zero: u32) -> bool
    ensures any { result ≡ list_any (λ c. is_zero zero c.object) (values cells.now) }
    ensures ordered { IsOrdered nat_cmp cells.now }
{
    cells.values().any(|cell| is_zero(cell.object, zero))
}

/// The cell with no page of its own.
pub(crate) fn without_own(cell: &CellState) -> CellState
    ensures { flat_cell result ≡ without_own (flat_cell cell.now) }
{
    CellState {
        prot: cell.prot,
        max: cell.max,
        kind: cell.kind,
        object: cell.object,
        index: cell.index,
        own: None,
    }
}
