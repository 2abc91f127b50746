//! The end: modified and blank pages of files go to their disks, and the history and the disks come out.
ghost use Rattle.std.specs.Prelude.{◌≡◌, ◌≤◌, ℕ, None, IfNone, IfSome, MatchOption, slice_index_or};
ghost use Rattle.seg_ops.specs.page_store.Bays.{bay_at, home, missing, home_faults, pairs_seen};
ghost use Rattle.seg_ops.specs.page_store.Notes.{no_notes};
ghost use Rattle.seg_ops.specs.page_store.Seen.{IsSoundStore};
ghost use Rattle.kernel_close.specs.Finish.{disks_of, HoldAllFiles, LeaveAllPages, IsLastFault, KeepDisks, KeepRecords, HaveNoBlankPage};
ghost use Rattle.kernel_close.specs.Closing.{WriteAllPages};
ghost use Rattle.seg_ops.specs.flat_model.Counted.{top_count};
ghost use Rattle.seg_ops.specs.vm_world.MemoryFits.{MemoryFits};
ghost use Rattle.seg_ops.specs.vm_world.NotesFit.{NotesFit};
ghost use Rattle.seg_ops.specs.vm_world.Segments.{Spaces};
ghost use Rattle.seg_ops.specs.vm_world.World.{world_seen, AllTell};

use crate::blanks::fill_if_pushed;
use crate::closing::push_files;
use crate::history::KernelHistory;
use entry_list::Entries;
use seg_ops::{Disk, DiskFault, Files, Store, World};

/// What is left of a kernel: its history, files and disks, and the transfer that failed as it was closed, if one did.
#[derive(Drop)]
pub struct Finished<D: Disk> {
    pub history: KernelHistory,
    pub files: Files,
    pub disks: Vec<(u32, D)>,
    pub swap: Option<D>,
    pub fault: Option<DiskFault>,
}

/// How many faults each disk has counted, by number.
fn fault_counts<D: Disk>(store: &Store<D>) -> [Option<u64>; 9]
    requires { IsSoundStore store.now }
    ensures { (disk : ℕ)
        → slice_index_or result disk None ≡ home_faults (bay_at store.now.bays disk) }
{
    let mut counts = [None; 9];
    for disk in 0..9 {
        counts[disk] = store.faults(disk as u32);
    }
    counts
}

/// No count is past the end of counts.
pub fn within_counts(count: u64)
    ensures { count ≤ top_count }
{
    let _ = count;
}

// No count of a fault is past the end of counts.
fn within_fault(fault: Option<DiskFault>)
    ensures { IfSome fault (λ f. (f.before ≤ top_count) × (f.after ≤ top_count)) }
{
    if let Some(fault) = fault {
        within_counts(fault.before);
        within_counts(fault.after);
    }
}

/// Writes a world's files to their disks, which come out with what is left.
pub fn finish_world<D: Disk>(world: World<D>, entries: Entries) -> Finished<D>
    requires fits { (spaces : Spaces)
        × MemoryFits (record { world = world_seen world; spaces = spaces }) }
    requires noted { NotesFit (world_seen world) no_notes }
    // The history comes out, with each disk's count of faults as the call began.
    ensures history { result.history.entries ≡ entries }
    ensures counts { (disk : ℕ) → slice_index_or result.history.faults disk None
        ≡ home_faults (bay_at world.store.bays disk) }
    // Without a fault the disks have the pages of the files, where they tell.
    ensures closed { IfNone result.fault (AllTell (world_seen world) no_notes
        → HoldAllFiles (world_seen world) (pairs_seen D.seen result.disks.items)) }
    ensures filled { IfNone result.fault (HaveNoBlankPage result.files) }
    // A fault is that of a transfer of this call, the last one; but for one block of its disk, each
    // page has come to its block, or the block has what it had.
    ensures fault { IfSome result.fault
        (IsLastFault (disks_of (world_seen world)) (pairs_seen D.seen result.disks.items)) }
    ensures left { IfSome result.fault (λ fault. AllTell (world_seen world) no_notes
        → LeaveAllPages (world_seen world) (disks_of (world_seen world))
        (pairs_seen D.seen result.disks.items) fault.disk) }
    // Fault or not: each block of a page has the page, with zeros after it, or what it had, but for
    // the block of which the transfer failed.
    ensures written { AllTell (world_seen world) no_notes → WriteAllPages (world_seen world)
        (disks_of (world_seen world)) (pairs_seen D.seen result.disks.items) result.fault }
    ensures within { IfSome result.fault (λ f. (f.before ≤ top_count) × (f.after ≤ top_count)) }
    // What stays.
    ensures disks { KeepDisks world.files (disks_of (world_seen world))
        (pairs_seen D.seen result.disks.items) }
    ensures swap { MatchOption result.swap (bay_at world.store.bays 8 ≡ missing)
        (λ disk. bay_at world.store.bays 8 ≡ home (D.seen disk)) }
    ensures files { KeepRecords world.files result.files }
{
    let faults = fault_counts(&world.store);
    let mut world = world;
    let pushed = push_files(&mut world);
    let (mut disks, swap) = world.store.into_disks();
    let mut files = world.files;
    let fault = fill_if_pushed(pushed, &mut files, disks.as_mut_slice());
    within_fault(fault);
    Finished {
        history: KernelHistory::of(entries, faults),
        files,
        disks,
        swap,
        fault,
    }
}
