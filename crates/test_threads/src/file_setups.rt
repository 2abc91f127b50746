//! A kernel over two files on two disks.
ghost use Rattle.std.specs.Prelude.{◌≡◌, ℕ, List, true, false, IfOk};
ghost use Rattle.test_acts.specs.Trials.{trial_file, trial_files};

use crate::trial::{Trial, begin};
use block_device::Disk;
use std::alloc::{AllocError, Global};
use std::test::Fail;
use vm_core::{Setup, VmState};
use vnode_files::{Extent, Extents, FileInfo, FileName, Files};

fn new_file(
    alloc: Global,
    name: FileName,
    disk: u32,
    pages: u32,
    length: u32,
    writable: bool,
) -> Result<FileInfo, AllocError>
    ensures { IfOk result (λ info. info ≡ trial_file name disk pages length writable) }
{
    Ok(FileInfo {
        name,
        disk,
        extents: Extents::new(alloc, &[Extent { start: 1, pages }])?,
        length,
        writable,
    })
}

/// A file of eight pages on disk 0, and one of two pages on disk 1 that may not be written; page k of each is in block k + 1.
fn new_files(alloc: Global) -> Result<Files, AllocError>
    ensures { IfOk result (λ files. (a b : List ℕ) × (files ≡ trial_files
        (trial_file a 0 8 28677 true) (trial_file b 1 2 4101 false))) }
{
    let mut files = Files::new(alloc);
    files.set_disk(0, 16)?;
    files.set_disk(1, 16)?;
    files.add(new_file(alloc, FileName::new(b"a"), 0, 8, 28677, true)?)?;
    files.add(new_file(alloc, FileName::new(b"b"), 1, 2, 4101, false)?)?;
    Ok(files)
}

/// Two processes over the two files, these disks, six frames and four translations.
pub(crate) fn over_files<D: Disk>(alloc: Global, first: D, second: D) -> Result<Trial<D>, Fail>
    requires { ((D.seen first).size ≡ 16) × ((D.seen second).size ≡ 16) }
{
    let mut disks = Vec::with_capacity(alloc, 2)?;
    disks.push_reserved((0, first));
    disks.push_reserved((1, second));
    let setup = Setup {
        frames: 6,
        translations: 4,
        slots: 0,
        disks,
        swap: None,
        files: new_files(alloc)?,
        parents: [0u32, 0].to_vec(alloc)?,
        entries: [99u32, 99].to_vec(alloc)?,
        seats: 3,
    };
    match VmState::start(alloc, setup) {
        Ok(state) => begin(alloc, state, 0),
        Err(_) => Err(Fail::new("no memory for the state")),
    }
}
