//! What parts and Truncates do to the plain form.
ghost use Rattle.std.specs.Prelude.{◌≡◌, ◌<◌, ◌≤◌, ◌+◌, IfOk, OnOk, OnErr, Some, length, option_map, slice_get, unwrap_or, map as list_map};
ghost use Rattle.std.specs.FinMap as finite;
ghost use Rattle.std.specs.Result.{result_map_both};
ghost use Rattle.flat_model.specs.vm_types.Pages.{line_rest};
ghost use Rattle.flat_model.specs.Flat.{IsFlat};
ghost use Rattle.flat_state.specs.Cells.{flat_file};
ghost use Rattle.flat_model.specs.Parts.{writable_file, growth_in, room_for, write_part, truncate};

use crate::file_pages::pages_in;
use crate::files::FileState;
use crate::growth::{extents_beside, growth};
use crate::state::FlatParts;
use flat_model::{Errno, Extent, Line};
use std::alloc::AllocError;

impl FlatParts {
    // How many blocks a disk has, none for one that isn't there.
    fn blocks(&self, disk: u32) -> u32
        ensures { result ≡ unwrap_or (finite.get self.now.disks disk) 0 }
    {
        match self.disks.get(&disk) {
            Some(blocks) => *blocks,
            None => 0,
        }
    }

    /// The file that a part or a Truncate may change, or the first refusal that is due.
    #[tactic(auto, unfolding(flat_model::specs::Parts::writable_file))]
    pub(crate) fn writable_file(&self, file: u32) -> Result<&FileState, Errno>
        ensures { let seen = result_map_both (λ f. flat_file f.now) (λ e. e) result in
            seen ≡ writable_file self.now file }
    {
        let Some(file) = self.files.get(file as usize) else {
            return Err(Errno::NoObject);
        };
        if !file.writable {
            return Err(Errno::ReadOnly);
        }
        Ok(file)
    }

    // The extents of a file that is to keep so many pages, if its disk has blocks for them.
    fn growth(
        &self,
        number: u32,
        file: &FileState,
        pages: u64,
    ) -> Result<Option<Vec<Extent>>, AllocError>
        requires { number < length self.now.files }
        ensures { let extents = growth_in self.now number (flat_file file.now) pages in
            IfOk result (λ grown. option_map (λ v. v.items) grown ≡ extents) }
    {
        let others = extents_beside(self.alloc, &self.files, number, file.disk)?;
        let blocks = self.blocks(file.disk);
        growth(self.alloc, blocks, &others, &file.extents, pages)
    }

    /// The extents that a file needs to have so many bytes, or the first refusal that is due.
    #[tactic(auto, unfolding(flat_model::specs::Parts::room_for))]
    pub(crate) fn room_for(
        &self,
        number: u32,
        end: u64,
    ) -> Result<Result<Vec<Extent>, Errno>, AllocError>
        ensures { let room = room_for self.now number end in
            let extents = result_map_both (λ f. f.extents) (λ e. e) room in
            IfOk result (λ r. result_map_both (λ v. v.items) (λ e. e) r ≡ extents) }
    {
        let file = match self.writable_file(number) {
            Ok(file) => file,
            Err(errno) => return Ok(Err(errno)),
        };
        match self.growth(number, file, pages_in(end))? {
            Some(extents) => Ok(Ok(extents)),
            None => Ok(Err(Errno::TooBig)),
        }
    }

    /// Writes a part of a file that there is room for.
    pub(crate) fn write_part(
        &mut self,
        number: u32,
        extents: Vec<Extent>,
        offset: u32,
        line: &Line,
    ) -> Result<(), AllocError>
        requires flat { IsFlat self.old }
        requires one_line { length line.now ≤ line_rest offset }
        requires room { let end = offset + length line.now in
            let room = room_for self.old number end in
            result_map_both (λ f. f.extents) (λ e. e) room ≡ Ok extents.items }
        ensures ok { OnOk result (self.new ≡ (write_part self.old number offset line.now).after) }
        ensures err { OnErr result (self.new ≡ self.old) }
    {
        let Some(file) = self.files.get_mut(number as usize) else {
            return Ok(());
        };
        file.write(self.alloc, extents, offset, line)?;
        Ok(())
    }

    /// Gives a file a length that there is room for.
    pub(crate) fn truncate(
        &mut self,
        number: u32,
        extents: Vec<Extent>,
        length: u32,
    ) -> Result<(), AllocError>
        requires flat { IsFlat self.old }
        requires room { let room = room_for self.old number length in
            result_map_both (λ f. f.extents) (λ e. e) room ≡ Ok extents.items }
        ensures ok { OnOk result (self.new ≡ (truncate self.old number length).after) }
        ensures err { OnErr result (self.new ≡ self.old) }
    {
        let Some(file) = self.files.get_mut(number as usize) else {
            return Ok(());
        };
        file.set_length(self.alloc, extents, length)?;
        Ok(())
    }
}
