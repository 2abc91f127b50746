//! States that have swap slots and no file: what is made with one, and what its history comes to beside flat memory once it is closed. And a private page, step by
//! step, that goes to swap. What is told of each act is worked out by hand.
ghost use Rattle.std.specs.Prelude.{◌≡◌, ◌<◌, ◌≤◌, IfOk, length};
ghost use Rattle.block_device.specs.MemDiskLook.{look};
ghost use Rattle.block_device.specs.MemSeen.{disk_of};

use crate::chance_tests::act_by_chance;
use crate::copy_tests::copy_among_modified;
use crate::fork_tests::{
    a_fork_drops_a_plan, fork_during_transfers, forks_are_refused, share_pages,
};
use crate::histories::{Counts, counts_of};
use crate::many_tests::{grow_a_tree, tree};
use crate::zero_object_tests::share_zero_objects;
use block_device::{DiskFault, MemDisk};
use std::alloc::{AllocError, Global};
use std::test::Fail;
use test_acts::Act::{Clock, Do, Land, Try};
use test_acts::Told::{Done, Landed, Sent, Still};
use test_acts::What::{Load, Store, Unmap, Zero};
use test_acts::{NO_MAP, NO_SWAP, STORED, Trial, make_all};
use vm_core::{Finished, Setup, VmState};
use vm_types::Reply::{Mapped, Word};
use vnode_files::Files;

/// Who is whose child.
#[derive(Clone, Copy)]
pub(crate) enum Family {
    /// Three processes that are alive from the start.
    Apart,
    /// Process 2 is a child of process 1, and process 3 one of process 2.
    Line,
    /// Processes 2 and 3 are children of process 1.
    Pair,
    /// Of 64 processes the parent of process p is p / 2; process 1 has none.
    Tree,
}

/// What is made with a state.
#[derive(Clone, Copy)]
pub(crate) enum Acts {
    PushAPage,
    ShareZeroObjects,
    SharePages,
    RefuseForks,
    ForkDuringTransfers,
    DropAPlan,
    CopyAmongModified,
    GrowATree,
    /// By chance, of this seed: by the seats of processes 1 and 2, or by three.
    OfTwoSeats(u32),
    OfThreeSeats(u32),
}

/// A state of so many frames and slots, and what is made with it.
#[derive(Clone, Copy)]
pub(crate) struct Run {
    pub(crate) family: Family,
    pub(crate) frames: u32,
    pub(crate) slots: u32,
    pub(crate) acts: Acts,
}

fn parents_of(alloc: Global, family: Family) -> Result<Vec<u32>, AllocError>
    ensures { IfOk result (λ parents. length parents.items ≤ 64) }
{
    match family {
        Family::Apart => [0u32, 0, 0].to_vec(alloc),
        Family::Line => [0u32, 1, 2].to_vec(alloc),
        Family::Pair => [0u32, 1, 1].to_vec(alloc),
        Family::Tree => tree(alloc),
    }
}

/// At most 99 entries of each process.
fn most_entries(alloc: Global, processes: u32) -> Result<Vec<u32>, AllocError>
    ensures { IfOk result (λ entries. length entries.items ≡ processes) }
{
    vec![in alloc; 99u32; processes as usize]
}

/// A disk of so many blocks of zeros.
fn swap_disk(alloc: Global, blocks: u32) -> Result<MemDisk, AllocError>
    ensures { IfOk result (λ disk. (disk_of (look disk)).size ≡ blocks) }
{
    MemDisk::new(alloc, blocks, Vec::new(alloc))
}

/// Four translations, and a seat for each process.
fn started(alloc: Global, run: Run) -> Result<Trial, Fail>
    requires frames { 5 ≤ run.frames }
    requires slots { 0 < run.slots }
{
    let parents = parents_of(alloc, run.family)?;
    let seats = parents.len() as u32;
    let setup = Setup {
        frames: run.frames,
        translations: 4,
        slots: run.slots,
        disks: Vec::new(alloc),
        swap: Some(swap_disk(alloc, run.slots)?),
        files: Files::new(alloc),
        parents,
        entries: most_entries(alloc, seats)?,
        seats,
    };
    match VmState::start(alloc, setup) {
        Ok(state) => Trial::new(alloc, state, seats),
        Err(_) => Err(Fail::new("no memory for the state")),
    }
}

fn make(trial: &mut Trial, acts: Acts) -> Result<(), Fail> {
    match acts {
        Acts::PushAPage => push_a_page(trial),
        Acts::ShareZeroObjects => share_zero_objects(trial),
        Acts::SharePages => share_pages(trial),
        Acts::RefuseForks => forks_are_refused(trial),
        Acts::ForkDuringTransfers => fork_during_transfers(trial),
        Acts::DropAPlan => a_fork_drops_a_plan(trial),
        Acts::CopyAmongModified => copy_among_modified(trial),
        Acts::GrowATree => grow_a_tree(trial),
        Acts::OfTwoSeats(seed) => act_by_chance(trial, seed, 2),
        Acts::OfThreeSeats(seed) => act_by_chance(trial, seed, 3),
    }
}

/// What is looked at of a kernel that was closed: the transfer that failed, and what its history counts.
#[derive(Clone, Copy, PartialEq, Eq, Debug)]
pub(crate) struct Closed {
    pub(crate) fault: Option<DiskFault>,
    pub(crate) counts: Counts,
}

/// No fault, and so many entries, each a step of flat memory.
pub(crate) fn closed_after(entries: usize, born: u32, refused: u32) -> Closed {
    Closed {
        fault: None,
        counts: Counts {
            legal: entries,
            all: entries,
            born,
            refused,
        },
    }
}

fn look_at(alloc: Global, run: Run, finished: &Finished<MemDisk>) -> Result<Closed, AllocError> {
    let mut entries = Vec::new(alloc);
    finished.history.entries().push_to(&mut entries)?;
    Ok(Closed {
        fault: finished.fault,
        counts: counts_of(alloc, run, &entries)?,
    })
}

/// One function owns each state, whatever is made with it, and calls little: owning one is what takes long to prove.
pub(crate) fn made_and_closed(alloc: Global, run: Run) -> Result<Closed, Fail>
    requires frames { 5 ≤ run.frames }
    requires slots { 0 < run.slots }
{
    let mut trial = started(alloc, run)?;
    make(&mut trial, run.acts)?;
    let finished = trial.finish()?;
    Ok(look_at(alloc, run, &finished)?)
}

/// A page is replaced while its push is out: the new page takes its slot, and the old one's push does it no harm.
fn a_page_goes_during_its_push(trial: &mut Trial) -> Result<(), Fail> {
    make_all(
        trial,
        &[
            (Do(0, Zero(0x2000, 0x2000)), NO_SWAP),
            (Do(0, Zero(0x2000, 0x1000)), Done(Mapped(0x2000))),
            (Do(0, Store(0x2000, 0x11)), STORED),
            (Clock(1, 32), Sent),
            (Do(0, Zero(0x2000, 0x1000)), Done(Mapped(0x2000))),
            (Do(0, Load(0x2000)), Done(Word(0))),
            (Do(0, Store(0x2000, 0x22)), STORED),
            (Land(1), Landed),
            (Clock(1, 32), Sent),
            (Land(1), Landed),
            (Clock(1, 32), Still),
            (Do(0, Load(0x2000)), Done(Word(0x22))),
        ],
    )
}

/// A page is stored into while its push is out: it shows the word, and goes out once more.
fn a_page_is_stored_into_during_its_push(trial: &mut Trial) -> Result<(), Fail> {
    make_all(
        trial,
        &[
            (Do(0, Store(0x2000, 0x11)), STORED),
            (Clock(1, 32), Sent),
            (Try(0, Load(0x2000)), Done(Word(0x11))),
            (Try(0, Store(0x2000, 0x22)), STORED),
            (Land(1), Landed),
            (Do(0, Load(0x2000)), Done(Word(0x22))),
            (Clock(1, 32), Sent),
            (Land(1), Landed),
        ],
    )
}

/// A page is unmapped while its push is out; what is mapped in its place takes its slot.
fn a_page_is_unmapped_during_its_push(trial: &mut Trial) -> Result<(), Fail> {
    make_all(
        trial,
        &[
            (Do(0, Store(0x2000, 0x33)), STORED),
            (Clock(1, 32), Sent),
            (Do(0, Unmap(0x2000, 0x1000)), STORED),
            (Do(0, Load(0x2000)), NO_MAP),
            (Do(0, Zero(0x2000, 0x1000)), Done(Mapped(0x2000))),
            (Do(0, Store(0x2000, 0x44)), STORED),
            (Land(1), Landed),
            (Clock(1, 32), Sent),
            (Land(1), Landed),
            (Clock(1, 32), Still),
            (Do(0, Load(0x2000)), Done(Word(0x44))),
        ],
    )
}

/// The hands go round twice for another seat while a page's push is out. Nobody stores into it, so it isn't pushed again.
fn hands_pass_beside_a_push(trial: &mut Trial) -> Result<(), Fail> {
    make_all(
        trial,
        &[
            (Do(0, Store(0x2000, 0x55)), STORED),
            (Clock(1, 32), Sent),
            (Clock(2, 32), Still),
            (Land(1), Landed),
            (Clock(1, 64), Still),
            (Do(0, Load(0x2000)), Done(Word(0x55))),
        ],
    )
}

fn push_a_page(trial: &mut Trial) -> Result<(), Fail> {
    a_page_goes_during_its_push(trial)?;
    a_page_is_stored_into_during_its_push(trial)?;
    a_page_is_unmapped_during_its_push(trial)?;
    hands_pass_beside_a_push(trial)
}

#[test]
fn a_private_page_goes_to_swap(rt: HostRuntime) -> Result<(), Fail> {
    let run = Run {
        family: Family::Apart,
        frames: 8,
        slots: 1,
        acts: Acts::PushAPage,
    };
    assert_eq!(rt; made_and_closed(rt.alloc(), run)?, closed_after(19, 0, 0));
    Ok(())
}
