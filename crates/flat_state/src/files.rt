//! A file of flat memory, changed in place.
ghost use Rattle.std.specs.Prelude.{◌≡◌, ◌≤◌, IfOk, OnOk, OnErr, All, length, map};
ghost use Rattle.flat_model.specs.vm_types.Pages.{line_rest};
ghost use Rattle.flat_model.specs.Flat.{IsFile};
ghost use Rattle.flat_model.specs.Access.{with_change_at, file_with_page};
ghost use Rattle.flat_state.specs.Cells.{flat_file, extents_of, with_last_page};
ghost use Rattle.flat_model.specs.Parts.{file_at_opening, file_of_length, read_line, with_extents_of, with_part, without_tail};

use crate::file_pages::{clear_tail, last_page, lengthen, line_at, pages_from, put, resize};
use crate::pages::set_page;
use flat_model::{Extent, Line};
use std::alloc::{AllocError, Global};

/// A file: its length in bytes, its disk, the extents that it keeps there, whether it may be
/// written, and its pages.
#[derive(Drop)]
pub(crate) struct FileState {
    pub len: u64,
    pub disk: u32,
    pub extents: Vec<Extent>,
    pub writable: bool,
    pub pages: Vec<Vec<u8>>,
}

// Extents of these starts and pages.
fn extents_from(alloc: Global, pairs: &[(u32, u32)]) -> Result<Vec<Extent>, AllocError>
    ensures { IfOk result (λ extents. extents.items ≡ extents_of pairs.now) }
{
    pairs
        .iter()
        .map(|pair| Extent {
            start: pair.0,
            pages: pair.1,
        })
        .collect(alloc)
}

impl FileState {
    /// A file with these bytes, and zeros from there to the end of its last page.
    pub(crate) fn new(
        alloc: Global,
        len: u32,
        disk: u32,
        extents: &[(u32, u32)],
        writable: bool,
        bytes: &[u8],
    ) -> Result<FileState, AllocError>
        requires { length bytes.now ≡ len }
        ensures { let extents = extents_of extents.now in
            let file = file_at_opening len disk extents writable bytes.now in
            IfOk result (λ new. flat_file new ≡ file) }
    {
        Ok(FileState {
            len: len as u64,
            disk,
            extents: extents_from(alloc, extents)?,
            writable,
            pages: pages_from(alloc, bytes)?,
        })
    }

    /// The bytes of a part of a read: none past the line's end or the file's.
    pub(crate) fn read_line(&self, offset: u32, length: u32) -> Line
        requires { IsFile (flat_file self.now) }
        ensures { result ≡ read_line (flat_file self.now) offset length }
    {
        line_at(&self.pages, self.len, offset, length)
    }

    /// Writes a part, after which the file keeps these extents.
    #[tactic(auto, unfolding(flat_model::specs::Parts::with_part))]
    pub(crate) fn write(
        &mut self,
        alloc: Global,
        extents: Vec<Extent>,
        offset: u32,
        line: &Line,
    ) -> Result<(), AllocError>
        requires whole { IsFile (flat_file self.old) }
        requires one_line { length line.now ≤ line_rest offset }
        ensures ok { let file = with_extents_of extents.items (flat_file self.old) in
            OnOk result (flat_file self.new ≡ with_part offset line.now file) }
        ensures err { OnErr result (flat_file self.new ≡ flat_file self.old) }
    {
        let end = offset as u64 + line.len() as u64;
        lengthen(&mut self.pages, alloc, self.len, end)?;
        put(&mut self.pages, offset as u64, line.bytes());
        self.len = self.len.max(end);
        self.extents = extents;
        Ok(())
    }

    /// Gives the file this length, after which it keeps these extents.
    pub(crate) fn set_length(
        &mut self,
        alloc: Global,
        extents: Vec<Extent>,
        length: u32,
    ) -> Result<(), AllocError>
        requires whole { IsFile (flat_file self.old) }
        ensures ok { let file = with_extents_of extents.items (flat_file self.old) in
            OnOk result (flat_file self.new ≡ file_of_length length file) }
        ensures err { OnErr result (flat_file self.new ≡ flat_file self.old) }
    {
        let length = length as u64;
        resize(&mut self.pages, alloc, self.len, length)?;
        self.len = length;
        self.extents = extents;
        Ok(())
    }

    // The file's tail becomes zeros. Hands out a copy of the last page as it was.
    fn clear_tail(&mut self, alloc: Global) -> Result<Vec<u8>, AllocError>
        requires { IsFile (flat_file self.old) }
        ensures ok { OnOk result (flat_file self.new ≡ without_tail (flat_file self.old)) }
        ensures page { let new = flat_file self.new in
            let old = flat_file self.old in
            IfOk result (λ page. with_last_page page.items new ≡ old) }
        ensures err { OnErr result (flat_file self.new ≡ flat_file self.old) }
    {
        let page = last_page(alloc, &self.pages)?;
        clear_tail(&mut self.pages, self.len);
        Ok(page)
    }

    // Puts a page in the place of the last one, if there is one.
    fn set_last_page(&mut self, page: Vec<u8>)
        ensures { flat_file self.new ≡ with_last_page page.items (flat_file self.old) }
    {
        let count = self.pages.len();
        if count != 0 {
            self.pages[count - 1] = page;
        }
    }
}

/// The tail of a file of this number becomes zeros, if there is such a file. Hands out a copy of its
/// last page as it was.
pub(crate) fn clear_tail_of(
    files: &mut Vec<FileState>,
    alloc: Global,
    number: usize,
) -> Result<Vec<u8>, AllocError>
    requires { All IsFile (map flat_file files.old.items) }
    ensures ok { let cleared = with_change_at without_tail (map flat_file files.old.items) number in
        OnOk result (map flat_file files.new.items ≡ cleared) }
    ensures page { let new = map flat_file files.new.items in
        let old = map flat_file files.old.items in
        IfOk result (λ page. with_change_at (with_last_page page.items) new number ≡ old) }
    ensures err { OnErr result (map flat_file files.new.items ≡ map flat_file files.old.items) }
{
    let Some(file) = files.get_mut(number) else {
        return Ok(Vec::new(alloc));
    };
    let page = file.clear_tail(alloc)?;
    Ok(page)
}

/// Puts a page in the place of the last one of a file of this number, if there are such.
pub(crate) fn put_last_page(files: &mut Vec<FileState>, number: usize, page: Vec<u8>)
    ensures { let put = with_last_page page.items in
        map flat_file files.new.items ≡ with_change_at put (map flat_file files.old.items) number }
{
    if let Some(file) = files.get_mut(number) {
        file.set_last_page(page);
    }
}

/// Puts a page at an index of a file, where there are such a file and such an index.
pub(crate) fn set_file_page(files: &mut Vec<FileState>, file: u32, index: u32, page: Vec<u8>)
    ensures { let with_page = file_with_page index page.items in
        map flat_file files.new.items ≡ with_change_at with_page (map flat_file files.old.items) file }
{
    if let Some(file) = files.get_mut(file as usize) {
        set_page(&mut file.pages, index, page);
    }
}
