//! Files are numbered and named, and grow from the free blocks of their disk: acts on a list of files on disk 0, and what is told of each.
ghost use Rattle.std.specs.Prelude.{◌≡◌, ◌≤◌, ◌<◌, ◌^◌, ◌*◌, ◌+◌, length, IfOk, All};
ghost use Rattle.vnode_files.specs.Grow.{page_count, extent_end};

use std::alloc::{AllocError, Global};
use std::test::Fail;
use vnode_files::{Extent, Extents, FileInfo, FileName, Files};

// A file of one extent on disk 0.
fn info(
    alloc: Global,
    name: &[u8],
    start: u32,
    pages: u32,
    bytes: u32,
) -> Result<FileInfo, AllocError>
    requires some { 1 ≤ length name.now }
    requires short { length name.now ≤ 16 }
    requires low { start + pages < 100 }

    // What `add` asks.
    ensures disk { IfOk result (λ info. info.disk ≡ 0) }
    ensures blocks { IfOk result (λ info. All (λ e. extent_end e ≤ 2 ^ 32) info.extents) }
    ensures pages { IfOk result (λ info. page_count info.extents ≡ pages) }
    ensures length { IfOk result (λ info. info.length ≡ bytes) }
{
    Ok(FileInfo {
        name: FileName::new(name),
        disk: 0,
        extents: Extents::new(alloc, &[Extent { start, pages }])?,
        length: bytes,
        writable: true,
    })
}

#[derive(Clone, Copy)]
enum Act {
    /// A file more, of this name, with one extent from this block of so many pages, and so many bytes long.
    Add(&'static [u8], u32, u32, u32),
    /// The number of the file of this name.
    Number(&'static [u8]),
    /// Which of the first three pages of a file are blank; a file of fewer pages has false for the rest.
    Blanks(u32),
    SetBlank(u32, u32, bool),
    Length(u32),
    SetLength(u32, u32),
    /// Gives a file so many pages.
    Grow(u32, u32),
    /// The first two extents of a file, each by its block and its pages, and how many it has.
    Extents(u32),
    /// The block of a page.
    Block(u32, u32),
    /// How many pages a file has.
    Pages(u32),
    /// How many blocks disk 0 has.
    DiskBlocks,
}

#[derive(Clone, Copy, PartialEq, Eq)]
enum Told {
    Number(Option<u32>),
    Blanks([bool; 3]),
    Extents([Option<(u32, u32)>; 2], usize),
    /// A length, a block or a count.
    Size(u32),
    Yes,
    /// There is no such file or page, or no room.
    No,
}

fn add(
    files: &mut Files,
    alloc: Global,
    name: &[u8],
    place: (u32, u32),
    bytes: u32,
) -> Result<Told, AllocError> {
    let (start, pages) = place;
    if name.is_empty() || name.len() > 16 || start > 49 || pages > 49 || bytes > pages * 4096 {
        return Ok(Told::No);
    }
    if files.count() >= 64 || files.disk_blocks(0).is_none() {
        return Ok(Told::No);
    }
    let number = files.add(info(alloc, name, start, pages, bytes)?)?;
    Ok(Told::Number(Some(number)))
}

fn number(files: &Files, name: &[u8]) -> Told {
    if name.is_empty() || name.len() > 16 {
        return Told::No;
    }
    Told::Number(files.number(&FileName::new(name)))
}

fn is_blank(files: &Files, file: u32, page: u32) -> bool {
    file < files.count() && page < files.kept(file) && files.blank(file, page)
}

fn set_blank(files: &mut Files, file: u32, page: u32, blank: bool) -> Told {
    if file >= files.count() || page >= files.kept(file) {
        return Told::No;
    }
    files.set_blank(file, page, blank);
    Told::Yes
}

fn set_length(files: &mut Files, file: u32, bytes: u32) -> Told {
    if file >= files.count() || bytes.div_ceil(4096) > files.kept(file) {
        return Told::No;
    }
    files.set_length(file, bytes);
    Told::Yes
}

fn grow(files: &mut Files, file: u32, pages: u32) -> Told {
    if file < files.count() && files.grow(file, pages) {
        return Told::Yes;
    }
    Told::No
}

fn extents(files: &Files, file: u32) -> Told {
    if file >= files.count() {
        return Told::No;
    }
    let list = files.info(file).extents.list();
    let first = list.first().map(|e| (e.start, e.pages));
    let second = list.get(1).map(|e| (e.start, e.pages));
    Told::Extents([first, second], list.len())
}

fn block(files: &Files, file: u32, page: u32) -> Told {
    if file >= files.count() || page >= files.kept(file) {
        return Told::No;
    }
    Told::Size(files.block(file, page))
}

fn length(files: &Files, file: u32) -> Told {
    if file >= files.count() {
        return Told::No;
    }
    Told::Size(files.info(file).length)
}

fn pages(files: &Files, file: u32) -> Told {
    if file >= files.count() {
        return Told::No;
    }
    Told::Size(files.kept(file))
}

fn make(files: &mut Files, alloc: Global, act: Act) -> Result<Told, AllocError> {
    Ok(match act {
        Act::Add(name, start, pages, bytes) => add(files, alloc, name, (start, pages), bytes)?,
        Act::Number(name) => number(files, name),
        Act::Blanks(file) => Told::Blanks([
            is_blank(files, file, 0),
            is_blank(files, file, 1),
            is_blank(files, file, 2),
        ]),
        Act::SetBlank(file, page, blank) => set_blank(files, file, page, blank),
        Act::Length(file) => length(files, file),
        Act::SetLength(file, bytes) => set_length(files, file, bytes),
        Act::Grow(file, pages) => grow(files, file, pages),
        Act::Extents(file) => extents(files, file),
        Act::Block(file, page) => block(files, file, page),
        Act::Pages(file) => pages(files, file),
        Act::DiskBlocks => match files.disk_blocks(0) {
            None => Told::No,
            Some(blocks) => Told::Size(blocks),
        },
    })
}

/// Makes the acts. It fails at the first of which something else is told.
fn make_all(files: &mut Files, alloc: Global, acts: &[(Act, Told)]) -> Result<(), Fail> {
    for (place, &(act, told)) in acts.iter().enumerate() {
        let made = make(files, alloc, act)?;
        if made != told {
            return Err(Fail::new(format_args!("act {place} is told something else")));
        }
    }
    Ok(())
}

/// The acts on no files yet, over a disk of so many blocks.
fn make_on_new_disk(alloc: Global, blocks: u32, acts: &[(Act, Told)]) -> Result<(), Fail> {
    let mut files = Files::new(alloc);
    files.set_disk(0, blocks)?;
    make_all(&mut files, alloc, acts)
}

#[test]
fn files_are_numbered_and_named(rt: HostRuntime) -> Result<(), Fail> {
    make_on_new_disk(
        rt.alloc(),
        10,
        &[
            (Act::DiskBlocks, Told::Size(10)),
            (Act::Add(b"a", 1, 2, 5), Told::Number(Some(0))),
            (Act::Add(b"b", 3, 3, 8192), Told::Number(Some(1))),
            (Act::Number(b"b"), Told::Number(Some(1))),
            (Act::Number(b"ab"), Told::Number(None)),
            (Act::Blanks(0), Told::Blanks([false, true, false])),
            (Act::SetBlank(1, 0, true), Told::Yes),
            (Act::SetLength(0, 8192), Told::Yes),
            (Act::Blanks(1), Told::Blanks([true, false, true])),
            (Act::Length(0), Told::Size(8192)),
        ],
    )
}

#[test]
fn files_grow_from_the_free_blocks(rt: HostRuntime) -> Result<(), Fail> {
    make_on_new_disk(
        rt.alloc(),
        6,
        &[
            (Act::DiskBlocks, Told::Size(6)),
            (Act::Add(b"a", 2, 1, 5), Told::Number(Some(0))),
            (Act::Add(b"b", 4, 1, 0), Told::Number(Some(1))),
            (Act::Grow(0, 3), Told::Yes),
            (
                Act::Extents(0),
                Told::Extents([Some((2, 2)), Some((1, 1))], 2),
            ),
            (Act::Blanks(0), Told::Blanks([false, true, true])),
            (Act::Pages(0), Told::Size(3)),
            (Act::Block(0, 1), Told::Size(3)),
            (Act::Block(0, 2), Told::Size(1)),
            (Act::Grow(1, 3), Told::No),
            (Act::Extents(1), Told::Extents([Some((4, 1)), None], 1)),
            (Act::Grow(1, 2), Told::Yes),
            (Act::Extents(1), Told::Extents([Some((4, 2)), None], 1)),
        ],
    )
}
