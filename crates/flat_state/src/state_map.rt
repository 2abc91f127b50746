//! What a Map does to the plain form.
ghost use Rattle.std.specs.Prelude.{◌≡◌, ◌+◌, ◌<◌, ◌≤◌, ◌^◌, IfOk, IsSome, nat_le, option_map, unwrap_or};
ghost use Rattle.std.specs.FinMap as finite;
ghost use Rattle.std.specs.Result.{result_map_both};
ghost use Rattle.flat_model.specs.vm_types.declared.call.Kind.TheVariants as kind;
ghost use Rattle.flat_model.specs.vm_types.declared.call.Object.TheVariants as object;
ghost use Rattle.flat_model.specs.Words.{pages_in};
ghost use Rattle.flat_model.specs.Flat.{space_of};
ghost use Rattle.flat_model.specs.Mapping.{cells_of, is_there, max_of, prot_read_write, without_replaced, own_for, with_mapping, map_result};
ghost use Rattle.flat_state.specs.Cells.{flat_cell, zeros_in};
ghost use Rattle.flat_state.specs.Mapped.{request_of, request_check, range_start, made_in, object_with, first_cell, with_parts, reserved_by};

use crate::cells::{CellState, Cells};
use crate::map_call::MapCall;
use crate::object_pages::ObjectPages;
use crate::page_bytes::PageBytes;
use crate::spaces::Spaces;
use crate::state::FlatParts;
use crate::zeros::{keep_named, object_slots_left, with_new_zeros};
use bitflags::Flags;
use flat_model::{Errno, Kind, Object, Place, Prot, page_of, pages_in};
use std::alloc::AllocError;
use std::collections::BTreeMap;

impl FlatParts {
    // Whether there is such a file or zero object; new zero memory can always be asked for.
    fn is_there(&self, object: Object) -> bool
        ensures { result ≡ is_there self.now object }
    {
        match object {
            Object::File(file) => (file as usize) < self.files.len(),
            Object::Zero(zero) => self.zeros.contains_key(&zero),
            Object::NewZero => true,
        }
    }

    // The most that may be done with a shared mapping of a file.
    fn max_of_file(&self, file: u32) -> Prot
        ensures { result ≡ max_of self.now kind.Shared (object.File file) }
    {
        match self.files.get(file as usize) {
            Some(file) => {
                if file.writable {
                    prot_read_write()
                } else {
                    Prot::READ
                }
            }
            None => prot_read_write(),
        }
    }

    // The most that may be done with a mapping of an object.
    fn max_of(&self, kind: Kind, object: Object) -> Prot
        ensures { result ≡ max_of self.now kind object }
    {
        match kind {
            Kind::Private => prot_read_write(),
            Kind::Shared => match object {
                Object::File(file) => self.max_of_file(file),
                Object::Zero(_) | Object::NewZero => prot_read_write(),
            },
        }
    }

    // The refusals that come before any cell is looked at, in their order.
    fn request_check(&self, map: &MapCall) -> Result<(), Errno>
        ensures { result ≡ request_check self.now (request_of map.now) }
    {
        if !map.is_valid() {
            return Err(Errno::Invalid);
        }
        if !self.is_there(map.object) {
            return Err(Errno::NoObject);
        }
        if !map.prot.is_within(self.max_of(map.kind, map.object)) {
            return Err(Errno::Access);
        }
        Ok(())
    }

    // The spaces without the cells that a mapping replaces.
    fn cleared(&self, process: u32, place: Place, count: u32) -> Result<Spaces, AllocError>
        requires alive { IsSome (space_of self.now process) }
        ensures { let cleared = (without_replaced self.now process place count).spaces in
            IfOk result (λ spaces. spaces ≡ cleared) }
    {
        let mut spaces = self.spaces.copied()?;
        let Place::At(addr) = place else {
            return Ok(spaces);
        };
        spaces.take_out(process, page_of(addr), count);
        Ok(spaces)
    }

    // The cell of a mapping at its first page.
    fn first_cell(&self, map: &MapCall, made: Option<u32>) -> CellState
        ensures cell { let first = first_cell self.now (request_of map.now) made in
            flat_cell result ≡ first }
        ensures index { result.index < 2 ^ 20 }
    {
        CellState {
            prot: map.prot,
            max: self.max_of(map.kind, map.object),
            kind: map.kind,
            object: object_with(made, map.object),
            index: page_of(map.offset),
            own: own_for(map.kind, map.object),
        }
    }

    // The mapping of a Map whose range is free in these spaces from this page on.
    fn with_mapping(
        &self,
        process: u32,
        map: &MapCall,
        cleared: Spaces,
        first: u32,
    ) -> Result<Mapping, AllocError>
        requires cleared { let count = pages_in map.now.length in
            cleared ≡ (without_replaced self.now process map.now.place count).spaces }
        requires alive { IsSome (finite.get cleared process) }
        requires ends { first + pages_in map.now.length < 2 ^ 32 }
        ensures first { IfOk result (λ m. m.first ≡ first) }
        ensures flat { let new = with_mapping self.now process (request_of map.now) first in
            IfOk result (λ m. with_parts self.now m.spaces (zeros_in m.zeros) ≡ new) }
    {
        let mut spaces = cleared;
        let count = pages_in(map.length);
        let made = made(&spaces, map.kind, map.object)?;
        let cell = self.first_cell(map, made);
        let mut zeros = with_new_zeros(&self.zeros, self.alloc, made, count)?;
        spaces.put_in(process, first, count, &cell)?;
        keep_named(&mut zeros, &spaces);
        Ok(Mapping {
            first,
            spaces,
            zeros,
        })
    }

    /// What a Map gives, or the first refusal that is due.
    pub(crate) fn map_result(
        &self,
        process: u32,
        map: &MapCall,
    ) -> Result<Result<Mapping, Errno>, AllocError>
        requires alive { IsSome (space_of self.now process) }
        ensures { let answer = map_result self.now process (request_of map.now) in
            IfOk result (λ r. result_map_both
            (λ m. (m.first, with_parts self.now m.spaces (zeros_in m.zeros)))
            (λ e. e) r ≡ answer) }
    {
        if let Err(errno) = self.request_check(map) {
            return Ok(Err(errno));
        }
        let count = pages_in(map.length);
        let spaces = self.cleared(process, map.place, count)?;
        let first = match first_page_of(&spaces, process, map.place, count) {
            Ok(first) => first,
            Err(errno) => return Ok(Err(errno)),
        };
        let mapping = self.with_mapping(process, map, spaces, first)?;
        if mapping.is_backed(self.slots) {
            Ok(Ok(mapping))
        } else {
            Ok(Err(Errno::NoSwap))
        }
    }
}

/// A mapping as it would be: its first page, and the spaces and the zero objects with it.
#[derive(Drop)]
pub(crate) struct Mapping {
    pub first: u32,
    pub spaces: Spaces,
    pub zeros: BTreeMap<u32, ObjectPages>,
}

impl Mapping {
    // Whether there are slots for all that is reserved with it.
    fn is_backed(&self, slots: u32) -> bool
        ensures { result ≡ nat_le (reserved_by self.now.spaces (zeros_in self.now.zeros)) slots }
    {
        match self.spaces.slots_left(slots) {
            Some(left) => object_slots_left(&self.zeros, left).is_some(),
            None => false,
        }
    }
}

// Reading and writing.
fn prot_read_write() -> Prot
    ensures { result ≡ prot_read_write }
{
    Prot::READ.union(Prot::WRITE)
}

// The number of the zero object that a mapping makes beside these spaces, if it makes one.
fn made(spaces: &Spaces, kind: Kind, object: Object) -> Result<Option<u32>, AllocError>
    ensures { IfOk result (λ made. made ≡ made_in spaces.now kind object) }
{
    match kind {
        Kind::Private => Ok(None),
        Kind::Shared => match object {
            Object::NewZero => Ok(Some(spaces.new_number()?)),
            Object::File(_) | Object::Zero(_) => Ok(None),
        },
    }
}

// The zero object that was made, or else the object asked for.
fn object_with(made: Option<u32>, object: Object) -> Object
    ensures { result ≡ object_with made object }
{
    match made {
        Some(zero) => Object::Zero(zero),
        None => object,
    }
}

// The own page of the cells of a new mapping: of private new zero memory a page of zeros, else none.
fn own_for(kind: Kind, object: Object) -> Option<PageBytes>
    ensures { result ≡ own_for kind object }
{
    match kind {
        Kind::Shared => None,
        Kind::Private => match object {
            Object::NewZero => Some(PageBytes::zeros()),
            Object::File(_) | Object::Zero(_) => None,
        },
    }
}

// The first of so many pages that a mapping takes among cells whose range is free, or the refusal.
fn range_start(cells: &Cells, place: Place, count: u32) -> Result<u32, Errno>
    requires { count ≤ 2 ^ 20 }
    ensures start { result ≡ range_start cells.now place count }
    ensures ends { IfOk result (λ first. first + count < 2 ^ 32) }
{
    if cells.len() > 65536 || cells.len() + count as usize > 65536 {
        return Err(Errno::TooLarge);
    }
    match place {
        Place::At(addr) => Ok(page_of(addr)),
        Place::Any => match cells.lowest_gap(count) {
            Some(first) => Ok(first),
            None => Err(Errno::NoRoom),
        },
    }
}

// The first of so many pages that a mapping takes in a process that is alive and whose range is free, or the refusal.
fn first_page_of(spaces: &Spaces, process: u32, place: Place, count: u32) -> Result<u32, Errno>
    requires alive { IsSome (finite.get spaces.now process) }
    requires count { count ≤ 2 ^ 20 }
    ensures start { let cells = unwrap_or (finite.get spaces.now process) finite.empty in
        result ≡ range_start cells place count }
    ensures ends { IfOk result (λ first. first + count < 2 ^ 32) }
{
    match spaces.get(process) {
        Some(cells) => range_start(cells, place, count),
        None => Err(Errno::NoRoom),
    }
}
