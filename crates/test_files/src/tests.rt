//! Two processes over two disks in memory, of which one fails twice: their calls, transfers and turns of the clock, act by act, and the close. What is told
//! of each act is worked out by hand.
ghost use Rattle.std.specs.Prelude.{◌≡◌, ◌<◌, ℕ, List, true, false, IfOk};
ghost use Rattle.block_device.specs.MemDiskLook.{look};
ghost use Rattle.block_device.specs.MemSeen.{disk_of};
ghost use Rattle.test_acts.specs.Trials.{IsTrialStart, trial_file, trial_files};

use crate::file_tests::change_files;
use crate::mapping_tests::{change_mappings, sync_pages};
use crate::moving_tests::move_pages;
use block_device::{Block, DiskFault, MemDisk};
use seg_ops::Hold;
use std::alloc::{AllocError, Global};
use std::test::Fail;
use test_acts::Act::{Clock, Do, Land, Try};
use test_acts::Told::{Busy, Done, Landed, Sent, Still};
use test_acts::What::{Exit, Load, Map, Protect, Store, Unmap};
use test_acts::{
    ACCESS, ALIGN, INVALID, NO_MAP, NO_OBJECT, NOT_MAPPED, PAST, PROT, READ_FAILS, STORED,
    TOO_LARGE, Trial, make_all,
};
use vm_core::{Finished, Setup, VmState};
use vm_types::Reply::{Mapped, Word};
use vnode_files::{Extent, Extents, FileInfo, FileName, Files};

/// A disk of 16 blocks: block n is full of n more than this.
fn new_disk(alloc: Global, first: u8, fail_at: &[u64]) -> Result<MemDisk, AllocError>
    requires { first < 200 }
    ensures { IfOk result (λ disk. (disk_of (look disk)).size ≡ 16) }
{
    let mut blocks = vec![in alloc; Block::zeros(); 16]?;
    for n in 0..16u8 {
        blocks[n as usize] = Block::new([first + n; 4096]);
    }
    Ok(MemDisk::from_blocks(blocks, fail_at.to_vec(alloc)?))
}

fn new_file(
    alloc: Global,
    name: FileName,
    disk: u32,
    pages: u32,
    length: u32,
    writable: bool,
) -> Result<FileInfo, AllocError>
    ensures { IfOk result (λ info. info ≡ trial_file name disk pages length writable) }
{
    Ok(FileInfo {
        name,
        disk,
        extents: Extents::new(alloc, &[Extent { start: 1, pages }])?,
        length,
        writable,
    })
}

/// A file of eight pages on disk 0, and one of two pages on disk 1 that may not be written; five bytes are in the last page of each.
fn new_files(alloc: Global) -> Result<Files, AllocError>
    ensures { IfOk result (λ files. (a b : List ℕ) × (files ≡ trial_files
        (trial_file a 0 8 28677 true) (trial_file b 1 2 4101 false))) }
{
    let mut files = Files::new(alloc);
    files.set_disk(0, 16)?;
    files.set_disk(1, 16)?;
    files.add(new_file(alloc, FileName::new(b"a"), 0, 8, 28677, true)?)?;
    files.add(new_file(alloc, FileName::new(b"b"), 1, 2, 4101, false)?)?;
    Ok(files)
}

/// Two processes over six frames and four translations. These calls of disk 0 fail.
pub(crate) fn opened(alloc: Global, fails: &[u64]) -> Result<VmState<MemDisk>, Fail>
    ensures { IfOk result (IsTrialStart 3) }
{
    let mut disks = Vec::with_capacity(alloc, 2)?;
    disks.push_reserved((0, new_disk(alloc, 0, fails)?));
    disks.push_reserved((1, new_disk(alloc, 16, &[])?));
    let setup = Setup {
        frames: 6,
        translations: 4,
        slots: 0,
        disks,
        swap: None,
        files: new_files(alloc)?,
        parents: [0u32, 0].to_vec(alloc)?,
        entries: [99u32, 99].to_vec(alloc)?,
        seats: 3,
    };
    match VmState::start(alloc, setup) {
        Ok(state) => Ok(state),
        Err(_) => Err(Fail::new("no memory for the state")),
    }
}

pub(crate) fn started(alloc: Global, fails: &[u64]) -> Result<Trial, Fail> {
    Trial::new(alloc, opened(alloc, fails)?, 3)
}

/// One process, whose first read fails. Page k of the first file is full of bytes k + 1, page k of the second of 0x11 + k.
fn a_read_fails(trial: &mut Trial) -> Result<(), Fail> {
    make_all(
        trial,
        &[
            (Do(0, Load(0x1_0000)), NO_MAP),
            (
                Do(0, Map(0x1_0000, 0x9000, true, 0, 0)),
                Done(Mapped(0x1_0000)),
            ),
            (Do(0, Load(0x1_0002)), ALIGN),
            (Do(0, Load(0x1_8000)), PAST),
            (Do(0, Load(0x1_0000)), READ_FAILS),
            (Do(0, Load(0x1_0000)), Done(Word(0x0101_0101))),
            // A page that nobody uses is let go of, and found again with no transfer.
            (Clock(0, 48), Still),
            (Try(0, Load(0x1_0000)), Done(Word(0x0101_0101))),
        ],
    )
}

/// A round of the hands is F0 B3 F1 B4 F2 B5 F3 B0 F4 B1 F5 B2, front and back. The page is in frame 1, as the frame of the
/// failed read is free last: the tenth move pushes what was stored into it.
fn hands_push(trial: &mut Trial) -> Result<(), Fail> {
    make_all(
        trial,
        &[
            (Do(0, Store(0x1_0000, 5)), STORED),
            (Clock(1, 9), Still),
            (Clock(1, 1), Sent),
            // It is stored into while its push is out.
            (Try(0, Load(0x1_0000)), Done(Word(5))),
            (Try(0, Store(0x1_0000, 1)), STORED),
            (Land(1), Landed),
            // It is used between the hands, F1 and B1, so that the back one leaves it alone.
            (Clock(1, 5), Still),
            (Try(0, Load(0x1_0000)), Done(Word(1))),
            (Clock(1, 7), Still),
            // Its next push fails, and is made again a round later.
            (Clock(1, 11), Still),
            (Clock(1, 1), Sent),
            (Land(1), Landed),
            (Clock(1, 11), Still),
            (Clock(1, 1), Sent),
            (Land(1), Landed),
            (Clock(1, 48), Still),
        ],
    )
}

/// Two seats want one page, and one disk. A signal that is due at a page that moves is told, and nobody waited for.
fn seats_want_one_page(trial: &mut Trial) -> Result<(), Fail> {
    make_all(
        trial,
        &[
            (Do(1, Map(0x2000, 0x8000, true, 0, 0)), Done(Mapped(0x2000))),
            (Try(1, Load(0x3000)), Sent),
            (Try(0, Load(0x1_1002)), ALIGN),
            (Do(0, Protect(0x1_1000, 0x1000, false)), STORED),
            (Try(0, Store(0x1_1000, 9)), PROT),
            (Do(0, Protect(0x1_1000, 0x1000, true)), STORED),
            (Try(0, Load(0x1_1000)), Busy(Hold::Page(1))),
            (Try(0, Load(0x1_2000)), Busy(Hold::Disk(1))),
            (Try(0, Load(0x1_0000)), Done(Word(1))),
            (Land(1), Landed),
            (Try(0, Load(0x1_1000)), Done(Word(0x0202_0202))),
            (Try(1, Load(0x3000)), Done(Word(0x0202_0202))),
        ],
    )
}

/// Six pages through four translations: each is found with no transfer.
fn translations_are_few(trial: &mut Trial) -> Result<(), Fail> {
    make_all(
        trial,
        &[
            (Do(0, Load(0x1_2000)), Done(Word(0x0303_0303))),
            (Do(0, Load(0x1_3000)), Done(Word(0x0404_0404))),
            (Do(0, Load(0x1_4000)), Done(Word(0x0505_0505))),
            (Do(0, Load(0x1_5000)), Done(Word(0x0606_0606))),
            (Try(0, Load(0x1_0000)), Done(Word(1))),
            (Try(0, Load(0x1_1000)), Done(Word(0x0202_0202))),
            (Try(0, Load(0x1_2000)), Done(Word(0x0303_0303))),
            (Try(0, Load(0x1_3000)), Done(Word(0x0404_0404))),
            (Try(0, Load(0x1_4000)), Done(Word(0x0505_0505))),
            (Try(0, Load(0x1_5000)), Done(Word(0x0606_0606))),
        ],
    )
}

/// Pages 1 to 5 are in frames 5, 0, 2, 3 and 4. The hands make F5 B2 F0 B3 F1 B4 F2, then B5 F3 B0: page 1 is used in between, and page 2 isn't, so that
/// it loses its frame to the next page; the others stay.
fn hands_pass(trial: &mut Trial) -> Result<(), Fail> {
    make_all(
        trial,
        &[
            (Clock(1, 7), Still),
            (Try(0, Load(0x1_1000)), Done(Word(0x0202_0202))),
            (Clock(1, 3), Still),
            (Try(0, Load(0x1_6000)), Sent),
            (Land(0), Landed),
            (Try(0, Load(0x1_6000)), Done(Word(0x0707_0707))),
            (Try(0, Load(0x1_0000)), Done(Word(1))),
            (Try(0, Load(0x1_1000)), Done(Word(0x0202_0202))),
            (Try(0, Load(0x1_3000)), Done(Word(0x0404_0404))),
            (Try(0, Load(0x1_4000)), Done(Word(0x0505_0505))),
            (Try(0, Load(0x1_5000)), Done(Word(0x0606_0606))),
            (Try(0, Load(0x1_2000)), Sent),
            (Land(0), Landed),
        ],
    )
}

/// A page is read while frames of its file are taken for the other file.
fn frames_are_taken_during_a_read(trial: &mut Trial) -> Result<(), Fail> {
    make_all(
        trial,
        &[
            (
                Do(0, Map(0x3_0000, 0x3000, false, 1, 0)),
                Done(Mapped(0x3_0000)),
            ),
            (Try(1, Load(0x9000)), Sent),
            (Do(0, Load(0x3_0000)), Done(Word(0x1111_1111))),
            (Do(0, Load(0x3_1000)), Done(Word(0x1212_1212))),
            (Do(0, Load(0x3_1004)), Done(Word(0x1200_0000))),
            (Do(0, Load(0x3_2000)), PAST),
            (Land(1), Landed),
            (Do(1, Load(0x9000)), Done(Word(0x0808_0808))),
        ],
    )
}

/// More pages than frames, and than translations.
fn frames_are_few(trial: &mut Trial) -> Result<(), Fail> {
    make_all(
        trial,
        &[
            (Do(0, Store(0x1_1000, 2)), STORED),
            (Do(0, Store(0x1_2000, 3)), STORED),
            (Do(0, Store(0x1_3000, 4)), STORED),
            (Do(0, Store(0x1_4000, 5)), STORED),
            (Do(0, Store(0x1_5000, 6)), STORED),
            (Do(0, Store(0x1_6000, 7)), STORED),
            (Do(0, Store(0x1_7000, 8)), STORED),
            (Do(0, Load(0x1_0000)), Done(Word(1))),
            (Do(0, Load(0x1_1000)), Done(Word(2))),
            (Do(0, Load(0x1_2000)), Done(Word(3))),
            (Do(0, Load(0x1_3000)), Done(Word(4))),
            (Do(0, Load(0x1_4000)), Done(Word(5))),
            (Do(0, Load(0x1_5000)), Done(Word(6))),
            (Do(0, Load(0x1_6000)), Done(Word(7))),
            (Do(0, Load(0x1_7000)), Done(Word(8))),
            (Do(0, Load(0x1_0004)), Done(Word(0x0101_0101))),
            (Do(0, Load(0x1_7004)), Done(Word(0x0800_0000))),
        ],
    )
}

/// What one process stored the other sees.
fn stores_are_seen(trial: &mut Trial) -> Result<(), Fail> {
    make_all(
        trial,
        &[
            (Do(1, Load(0x2000)), Done(Word(1))),
            (Do(1, Load(0x3000)), Done(Word(2))),
            (Do(1, Load(0x4000)), Done(Word(3))),
            (Do(1, Load(0x5000)), Done(Word(4))),
            (Do(1, Load(0x6000)), Done(Word(5))),
            (Do(1, Load(0x7000)), Done(Word(6))),
            (Do(1, Load(0x9000)), Done(Word(8))),
            (Do(0, Store(0x3_0000, 9)), PROT),
        ],
    )
}

/// Mappings in the place of others, whose ends they cut.
fn mappings_are_replaced(trial: &mut Trial) -> Result<(), Fail> {
    make_all(
        trial,
        &[
            (Do(0, Load(0x1_2000)), Done(Word(3))),
            (Do(0, Load(0x1_4000)), Done(Word(5))),
            (
                Do(0, Map(0x1_2000, 0x3000, false, 1, 0)),
                Done(Mapped(0x1_2000)),
            ),
            (Do(0, Load(0x1_1000)), Done(Word(2))),
            (Do(0, Load(0x1_2000)), Done(Word(0x1111_1111))),
            (Do(0, Load(0x1_3000)), Done(Word(0x1212_1212))),
            (Do(0, Load(0x1_4000)), PAST),
            (Do(0, Load(0x1_5000)), Done(Word(6))),
            (
                Do(0, Map(0x1_1000, 0x2000, true, 0, 0x6000)),
                Done(Mapped(0x1_1000)),
            ),
            (Do(0, Load(0x1_0000)), Done(Word(1))),
            (Do(0, Load(0x1_1000)), Done(Word(7))),
            (Do(0, Load(0x1_2000)), Done(Word(8))),
            (Do(0, Load(0x1_3000)), Done(Word(0x1212_1212))),
        ],
    )
}

/// Refusals, each before those that come later.
fn maps_are_refused(trial: &mut Trial) -> Result<(), Fail> {
    make_all(
        trial,
        &[
            (Do(0, Map(0x1_1001, 0x1000, true, 7, 0)), INVALID),
            (Do(0, Map(0x1_1000, 0x1000_1000, true, 7, 0)), NO_OBJECT),
            (Do(0, Map(0x1_1000, 0x1000_1000, true, 1, 0)), ACCESS),
            (Do(0, Map(0x1_1000, 0x1000_1000, true, 0, 0)), TOO_LARGE),
            (Do(0, Load(0x1_1000)), Done(Word(7))),
        ],
    )
}

/// Two pages are unmapped from between others.
fn pages_are_unmapped(trial: &mut Trial) -> Result<(), Fail> {
    make_all(
        trial,
        &[
            (Do(0, Unmap(0x1_1000, 0x2000)), STORED),
            (Do(0, Load(0x1_1000)), NO_MAP),
            (Do(0, Load(0x1_0000)), Done(Word(1))),
            (Do(0, Load(0x1_3000)), Done(Word(0x1212_1212))),
            (Do(0, Unmap(0x1_1000, 0x2000)), STORED),
            (Do(0, Unmap(0x1_1001, 0x1000)), INVALID),
        ],
    )
}

/// Two pages lose the right to be written, with their translations, and get it again; the other process keeps its own.
fn pages_are_protected(trial: &mut Trial) -> Result<(), Fail> {
    make_all(
        trial,
        &[
            (Do(0, Store(0x1_5000, 6)), STORED),
            (Do(0, Protect(0x1_5000, 0x2000, false)), STORED),
            (Do(0, Store(0x1_5000, 9)), PROT),
            (Do(0, Store(0x1_6000, 9)), PROT),
            (Do(0, Store(0x1_7000, 8)), STORED),
            (Do(0, Load(0x1_5000)), Done(Word(6))),
            (Do(1, Store(0x7000, 7)), STORED),
            (Do(0, Load(0x1_5000)), Done(Word(7))),
            (Do(0, Protect(0x1_5000, 0x2000, true)), STORED),
            (Do(0, Store(0x1_5000, 6)), STORED),
            (Do(0, Protect(0x1_3000, 0x1000, true)), ACCESS),
            (Do(0, Protect(0x1_2000, 0x2000, false)), NOT_MAPPED),
            (Do(0, Protect(0x1_2000, 0, false)), INVALID),
        ],
    )
}

/// A process ends with pages modified.
fn processes_end(trial: &mut Trial) -> Result<(), Fail> {
    make_all(
        trial,
        &[
            (Do(1, Store(0x7000, 16)), STORED),
            (Do(1, Exit), STORED),
            (Do(0, Load(0x1_5000)), Done(Word(16))),
            (Do(0, Store(0x1_6000, 17)), STORED),
            (Do(0, Exit), STORED),
        ],
    )
}

/// The first bytes of a block; none past the disk's end.
fn first_bytes(disk: &MemDisk, block: usize) -> Option<[u8; 6]> {
    let block = disk.content().get(block)?;
    let bytes = &block.bytes;
    Some([bytes[0], bytes[1], bytes[2], bytes[3], bytes[4], bytes[5]])
}

/// A word of four bytes, each 9 more than the block's number, and two bytes of this value.
fn stored(block: u8, behind: u8) -> [u8; 6] {
    let byte = block.wrapping_add(9);
    [byte, byte, byte, byte, behind, behind]
}

/// What they are at the close: each page of the first file that was stored into has its last word, and zeros past the file's end.
fn closed(acts: Acts, disk: u32, block: u8) -> Option<[u8; 6]> {
    Some(match (acts, disk, block) {
        (Acts::UseFiles, 0, 6) => [0, 0, 0, 16, 6, 6],
        (Acts::UseFiles, 0, 7) => [0, 0, 0, 17, 7, 7],
        (Acts::UseFiles, 0, 8) => [0, 0, 0, 8, 8, 0],
        (Acts::UseFiles, 0, 1..=5) => [0, 0, 0, block, block, block],
        (Acts::SyncPages, 0, 1) => [0, 0, 0, 9, 1, 1],
        (Acts::SyncPages, 0, 2) => [0, 0, 0, 6, 2, 2],
        (Acts::ChangeMappings, 0, 1) => [0, 0, 0, 4, 1, 1],
        (Acts::ChangeFiles, 0, 1) => [1, 0x61, 0, 0, 0, 0],
        (Acts::ChangeFiles, 0, 2..=15) => [0; 6],
        (Acts::MovePages, 0, 1..=2) => stored(block, block),
        (Acts::MovePages, 0, 3..=6) => stored(block, 0),
        (Acts::MovePages, 0, 7) => [1, 1, 1, 1, 0, 0],
        (Acts::MovePages, 0, 8) => [0; 6],
        (_, 0, _) => [block; 6],
        _ => [16 | block; 6],
    })
}

/// The least block of a disk whose first bytes aren't what they are at the close.
fn wrong_block(acts: Acts, number: u32, disk: &MemDisk) -> Option<u8> {
    for block in 0..16u8 {
        if first_bytes(disk, block as usize) != closed(acts, number, block) {
            return Some(block);
        }
    }
    None
}

fn use_files(trial: &mut Trial) -> Result<(), Fail> {
    a_read_fails(trial)?;
    hands_push(trial)?;
    seats_want_one_page(trial)?;
    translations_are_few(trial)?;
    hands_pass(trial)?;
    frames_are_taken_during_a_read(trial)?;
    frames_are_few(trial)?;
    stores_are_seen(trial)?;
    mappings_are_replaced(trial)?;
    maps_are_refused(trial)?;
    pages_are_unmapped(trial)?;
    pages_are_protected(trial)?;
    processes_end(trial)
}

/// The first disk with a wrong block, and that block.
fn wrong_disk(acts: Acts, disks: &[(u32, MemDisk)]) -> Option<(u32, u8)> {
    for (number, disk) in disks {
        if let Some(block) = wrong_block(acts, *number, disk) {
            return Some((*number, block));
        }
    }
    None
}

/// What is looked at of a kernel that was closed.
#[derive(Clone, Copy, PartialEq, Eq, Debug)]
pub(crate) struct Outcome {
    pub(crate) fault: Option<DiskFault>,
    pub(crate) entries: usize,
    /// How many faults disks 0 and 1 had counted.
    pub(crate) faults: (Option<u64>, Option<u64>),
    /// The first disk with a wrong block, and that block.
    pub(crate) wrong: Option<(u32, u8)>,
}

fn look_at(acts: Acts, finished: &Finished<MemDisk>) -> Outcome {
    let history = &finished.history;
    Outcome {
        fault: finished.fault,
        entries: history.entries().len(),
        faults: (history.faults(0), history.faults(1)),
        wrong: wrong_disk(acts, finished.disks.as_slice()),
    }
}

/// What is made with a state.
#[derive(Clone, Copy)]
pub(crate) enum Acts {
    UseFiles,
    SyncPages,
    ChangeMappings,
    ChangeFiles,
    MovePages,
}

fn make_acts(trial: &mut Trial, acts: Acts) -> Result<(), Fail> {
    match acts {
        Acts::UseFiles => use_files(trial),
        Acts::SyncPages => sync_pages(trial),
        Acts::ChangeMappings => change_mappings(trial),
        Acts::ChangeFiles => change_files(trial),
        Acts::MovePages => move_pages(trial),
    }
}

// The owner of a state calls little and compares nothing: a step more beside an owned state is long to prove.
pub(crate) fn made_and_closed(alloc: Global, acts: Acts) -> Result<Outcome, Fail> {
    let mut trial = started(alloc, &[1, 4])?;
    make_acts(&mut trial, acts)?;
    let finished = trial.finish()?;
    Ok(look_at(acts, &finished))
}

#[test]
fn two_processes_use_files_through_few_frames(rt: HostRuntime) -> Result<(), Fail> {
    let due = Outcome {
        fault: None,
        entries: 109,
        faults: (Some(2), Some(0)),
        wrong: None,
    };
    assert_eq!(rt; made_and_closed(rt.alloc(), Acts::UseFiles)?, due);
    Ok(())
}
