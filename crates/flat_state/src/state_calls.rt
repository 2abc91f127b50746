//! What loads, stores, Unmap and Exit do to the plain form, and how it begins.
ghost use Rattle.std.specs.Prelude.{◌≡◌, ◌↔◌, ◌++◌, ◌∷◌, [], IsTrue, IsFalse, IfOk, OnOk, OnErr, IsSome, is_some, length};
ghost use Rattle.std.specs.FinMap as finite;
ghost use Rattle.std.specs.FinSet as set;
ghost use Rattle.flat_model.specs.vm_types.Words.{IsWordSize, FitsWord};
ghost use Rattle.flat_model.specs.vm_types.Prot.{can_read, can_write};
ghost use Rattle.flat_model.specs.Flat.{without_unnamed, space_of};
ghost use Rattle.flat_model.specs.Mapping.{without_pages};
ghost use Rattle.flat_model.specs.Access.{access_target, load, store, with_page, with_page_stored};
ghost use Rattle.flat_state.specs.Cells.{flat_cell, with_own, extents_of};
ghost use Rattle.flat_model.specs.Parts.{file_at_opening};
ghost use Rattle.flat_model.specs.Processes.{without_process};
ghost use Rattle.flat_model.specs.Step.{IsPastAtMost};
ghost use Rattle.flat_state.specs.State.{is_allowed_by};
ghost use Rattle.flat_state.specs.FlatState.{with_root, with_process, with_one_more_file, with_blocks};

use crate::cells::{CellState, Cells, without_own};
use crate::files::{FileState, set_file_page};
use crate::page_bytes::PageBytes;
use crate::pages::{set_zero_page, with_word};
use crate::replies::word_at;
use crate::state::{Access, FlatParts};
use crate::zeros::keep_named;
use flat_model::{Kind, Object, Reply, Signal};
use std::alloc::AllocError;

impl FlatParts {
    /// There is a disk of this number and of so many blocks.
    pub(crate) fn disk(&mut self, number: u32, blocks: u32) -> Result<(), AllocError>
        ensures ok { OnOk result (self.new ≡ with_blocks self.old number blocks) }
        ensures err { OnErr result (self.new ≡ self.old) }
    {
        self.disks.insert(number, blocks)?;
        Ok(())
    }

    /// Appends a file with these bytes, and zeros from there to the end of its last page.
    pub(crate) fn file(
        &mut self,
        len: u32,
        disk: u32,
        extents: &[(u32, u32)],
        writable: bool,
        bytes: &[u8],
    ) -> Result<(), AllocError>
        requires { length bytes.now ≡ len }
        ensures ok { let extents = extents_of extents.now in
            let file = file_at_opening len disk extents writable bytes.now in
            OnOk result (self.new ≡ with_one_more_file self.old file) }
        ensures err { OnErr result (self.new ≡ self.old) }
    {
        let file = FileState::new(self.alloc, len, disk, extents, writable, bytes)?;
        self.files.push(file)?;
        Ok(())
    }

    /// The process is alive and born, with an empty space.
    pub(crate) fn root(&mut self, process: u32) -> Result<(), AllocError>
        requires { IsFalse (set.contains self.old.born process) }
        ensures ok { OnOk result (self.new ≡ with_root self.old process) }
        ensures err { OnErr result (self.new ≡ self.old) }
    {
        self.be_born(process, Cells::new(self.alloc))
    }

    // A process that was never alive is alive and born, with these cells.
    pub(crate) fn be_born(&mut self, process: u32, cells: Cells) -> Result<(), AllocError>
        requires { IsFalse (set.contains self.old.born process) }
        ensures ok { OnOk result (self.new ≡ with_process self.old process cells) }
        ensures err { OnErr result (self.new ≡ self.old) }
    {
        self.born.insert(process, ())?;
        let inserted = self.spaces.insert(process, cells);
        if inserted.is_err() {
            self.born.remove(&process);
        }
        inserted
    }

    /// Takes a process away, and the zero objects that no other one's cells name. Takes no memory.
    pub(crate) fn exit(&mut self, process: u32)
        ensures { self.new ≡ without_process self.old process }
    {
        self.spaces.remove(process);
        keep_named(&mut self.zeros, &self.spaces);
    }

    /// Takes the cells of so many pages away from a process that is alive, and the zero objects that no cell names any
    /// more. Takes no memory.
    pub(crate) fn unmap(&mut self, process: u32, first: u32, count: u32)
        requires { IsSome (space_of self.old process) }
        ensures { self.new ≡ without_pages self.old process first count }
    {
        self.spaces.take_out(process, first, count);
        keep_named(&mut self.zeros, &self.spaces);
    }

    /// The reply that is due to a load.
    pub(crate) fn load(&self, process: u32, addr: u32, size: u32) -> Reply
        requires { IsWordSize size }
        ensures { result ≡ (load self.now process addr size).reply }
    {
        match self.access_target(process, Access::Load, addr, size) {
            Ok((_, page)) => Reply::Word(word_at(page, addr, size)),
            Err(signal) => Reply::Signal(signal),
        }
    }

    /// Whether an access reaches its cell, so that a transfer for it may fail.
    pub(crate) fn reaches(&self, process: u32, access: Access, addr: u32, size: u32) -> bool
        requires { IsWordSize size }
        ensures { let target = access_target self.now process (is_allowed_by access) addr size in
            IsTrue result ↔ IsPastAtMost target }
    {
        match self.access_target(process, access, addr, size) {
            Ok(_) | Err(Signal::Past) => true,
            Err(Signal::Align | Signal::NoMap | Signal::Prot) => false,
        }
    }

    /// The reply that is due to a store.
    pub(crate) fn store_reply(&self, process: u32, addr: u32, size: u32, value: u32) -> Reply
        requires { IsWordSize size }
        ensures { result ≡ (store self.now process addr size value).reply }
    {
        let _value = value;
        match self.access_target(process, Access::Store, addr, size) {
            Ok(_) => Reply::Done,
            Err(signal) => Reply::Signal(signal),
        }
    }

    // Puts a page where a store to a cell goes: to the cell's object, or to the cell.
    fn write(
        &mut self,
        process: u32,
        at: u32,
        cell: CellState,
        page: Vec<u8>,
    ) -> Result<(), AllocError>
        ensures ok { let new = with_page_stored self.old process at (flat_cell cell) page.items in
            OnOk result (self.new ≡ new) }
        ensures err { OnErr result (self.new ≡ self.old) }
    {
        match cell.kind {
            Kind::Shared => self.set_page(cell.object, cell.index, page),
            Kind::Private => {
                let own = PageBytes::new(self.alloc, page)?;
                self.spaces
                    .put_cell(self.alloc, process, at, with_own(cell, own))
            }
        }
    }

    // Puts a page at an index of an object.
    fn set_page(&mut self, object: Object, index: u32, page: Vec<u8>) -> Result<(), AllocError>
        ensures ok { OnOk result (self.new ≡ with_page self.old object index page.items) }
        ensures err { OnErr result (self.new ≡ self.old) }
    {
        match object {
            Object::File(file) => set_file_page(&mut self.files, file, index, page),
            Object::Zero(zero) => {
                let page = PageBytes::new(self.alloc, page)?;
                set_zero_page(&mut self.zeros, self.alloc, zero, index, page)?;
            }
            Object::NewZero => {}
        }
        Ok(())
    }

    /// Stores a word, where no signal is due.
    pub(crate) fn store(
        &mut self,
        process: u32,
        addr: u32,
        size: u32,
        value: u32,
    ) -> Result<(), AllocError>
        requires size { IsWordSize size }
        requires fits { FitsWord size value }
        ensures ok { OnOk result (self.new ≡ (store self.old process addr size value).after) }
        ensures err { OnErr result (self.new ≡ self.old) }
    {
        let (cell, page) = match self.access_target(process, Access::Store, addr, size) {
            Ok((cell, page)) => (
                without_own(cell),
                with_word(self.alloc, page, addr, size, value)?,
            ),
            Err(_) => return Ok(()),
        };
        self.write(process, addr / 4096, cell, page)
    }
}

// The cell with a page of its own.
fn with_own(cell: CellState, page: PageBytes) -> CellState
    ensures { flat_cell result ≡ with_own (flat_cell cell) page }
{
    CellState {
        prot: cell.prot,
        max: cell.max,
        kind: cell.kind,
        object: cell.object,
        index: cell.index,
        own: Some(page),
    }
}
