//! The parts of the plain form of flat memory, and what an access reaches.
ghost use Rattle.std.specs.Prelude.{◌≡◌, ◌<◌, [], option_map, option_and_then, slice_get, map};
ghost use Rattle.std.specs.Result.{result_map_both};
ghost use Rattle.std.specs.FinMap as finite;
ghost use Rattle.flat_model.specs.vm_types.Words.{IsWordSize};
ghost use Rattle.flat_state.specs.Cells.{flat_cell};
ghost use Rattle.flat_state.specs.State.{is_allowed_by};
ghost use Rattle.flat_model.specs.Opening.{flat_at_opening};

use crate::cells::CellState;
use crate::files::FileState;
use crate::object_pages::ObjectPages;
use crate::spaces::Spaces;
use flat_model::{Object, Prot, Reply, Signal, word_value};
use std::alloc::Global;
use std::collections::BTreeMap;
use std::marker::Model;

/// Flat memory, kept plainly: one tree of cells for each process.
#[derive(Drop)]
pub(crate) struct FlatParts {
    pub slots: u32,
    pub disks: BTreeMap<u32, u32>,
    pub files: Vec<FileState>,
    pub zeros: BTreeMap<u32, ObjectPages>,
    pub spaces: Spaces,
    pub born: BTreeMap<u32, ()>,
    pub alloc: Global,
}

impl Model for FlatParts {
    ghost use Rattle.flat_model.specs.Flat.{Flat};
    ghost use Rattle.flat_state.specs.FlatCode.{flat_code};

    ghost Value = { Flat };

    ghost coded = { flat_code };

    ghost use Rattle.flat_state.specs.FlatState.{flat_of};

    ghost view = { flat_of };
}

/// A load or a store.
#[derive(Clone, Copy, PartialEq, Eq, Debug)]
pub enum Access {
    Load,
    Store,
}

// Whether a cell with this protection lets the access.
fn is_allowed_by(access: Access, prot: Prot) -> bool
    ensures { result ≡ is_allowed_by access prot }
{
    match access {
        Access::Load => prot.can_read(),
        Access::Store => prot.can_write(),
    }
}

impl FlatParts {
    ghost use Rattle.flat_model.specs.Flat.{cell_at, shown, pages_of};
    ghost use Rattle.flat_model.specs.Access.{access_target, load};

    /// These slots, and no disks, no files, no zero objects and no processes. Takes no memory.
    pub fn new(alloc: Global, slots: u32) -> Self
        ensures { result ≡ flat_at_opening slots finite.empty [] [] }
    {
        FlatParts {
            slots,
            disks: BTreeMap::new(alloc),
            files: Vec::new(alloc),
            zeros: BTreeMap::new(alloc),
            spaces: Spaces::new(alloc),
            born: BTreeMap::new(alloc),
            alloc,
        }
    }

    /// The cell of a process at a page.
    pub fn cell(&self, process: u32, page: u32) -> Option<&CellState>
        ensures { option_map (λ c. flat_cell c.now) result ≡ cell_at self.now process page }
    {
        self.spaces.cell(process, page)
    }

    /// The page that a cell shows.
    pub fn page_shown<'a>(&'a self, cell: &'a CellState) -> Option<&'a [u8]>
        ensures { option_map (λ p. p.now) result ≡ shown self.now (flat_cell cell.now) }
    {
        match &cell.own {
            Some(page) => Some(page.as_slice()),
            None => self.object_page(cell.object, cell.index),
        }
    }

    /// A page of an object.
    pub fn object_page(&self, object: Object, index: u32) -> Option<&[u8]>
        ensures { let pages = pages_of self.now object in
            let page = option_and_then (λ ps. slice_get ps index) pages in
            option_map (λ p. p.now) result ≡ page }
    {
        match object {
            Object::File(file) => match self.files.get(file as usize) {
                Some(file) => page_in(&file.pages, index),
                None => None,
            },
            Object::Zero(zero) => match self.zeros.get(&zero) {
                Some(pages) => pages.get(index as u64),
                None => None,
            },
            Object::NewZero => None,
        }
    }

    /// The cell and the page that an access meets, or the first signal that is due: the address is tested before the
    /// cell, the cell before the protection, and the protection before the page.
    #[tactic(auto, unfolding(flat_model::specs::Access::access_target))]
    pub fn access_target(
        &self,
        process: u32,
        access: Access,
        addr: u32,
        size: u32,
    ) -> Result<(&CellState, &[u8]), Signal>
        requires { 0 < size }
        ensures { let seen = result_map_both (λ m. (flat_cell m.0.now, m.1.now)) (λ s. s) result in
            seen ≡ access_target self.now process (is_allowed_by access) addr size }
    {
        if addr % size != 0 {
            return Err(Signal::Align);
        }
        let Some(cell) = self.cell(process, addr / 4096) else {
            return Err(Signal::NoMap);
        };
        if !is_allowed_by(access, cell.prot) {
            return Err(Signal::Prot);
        }
        let Some(page) = self.page_shown(cell) else {
            return Err(Signal::Past);
        };
        Ok((cell, page))
    }
}

// A page of a list.
fn page_in(pages: &[Vec<u8>], index: u32) -> Option<&[u8]>
    ensures { option_map (λ p. p.now) result ≡ slice_get (map (λ p. p.items) pages.now) index }
{
    match pages.get(index as usize) {
        Some(page) => Some(page.as_slice()),
        None => None,
    }
}
