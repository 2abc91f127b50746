//! The end: the kernel is closed, and the history and the disks come out.
ghost use Rattle.std.specs.Prelude.{◌≡◌, ℕ, None, IfNone, IfSome, MatchOption, slice_index_or};
ghost use Rattle.fault_entry.specs.page_store.Bays.{bay_at, home, missing, home_faults, pairs_seen};
ghost use Rattle.fault_entry.specs.page_store.Notes.{no_notes};
ghost use Rattle.kernel_close.specs.Finish.{FitsStill, disks_of, HoldAllFiles, LeaveAllPages, IsLastFault, KeepDisks, KeepRecords, HaveNoBlankPage};
ghost use Rattle.kernel_close.specs.LeftMarks.{LeavesMarks};
ghost use Rattle.fault_entry.specs.flat_model.Flat.{Flat};
ghost use Rattle.fault_entry.specs.vm_world.Opening.{no_seats};
ghost use Rattle.fault_entry.specs.vm_world.StateFits.{StateFits};
ghost use Rattle.fault_entry.specs.vm_world.World.{AllTell};

use crate::state::VmState;
use fault_entry::Disk;
use kernel_close::{Finished, finish_world};

impl<D: Disk> VmState<D> {
    /// Closes the kernel: modified pages of files are pushed, and then zeros are written to pages below their file's length that
    /// are still blank. It stops at the first transfer that fails.
    ///
    /// Takes no memory. Time: two looks at each page of each file, and the transfers.
    pub fn finish(self) -> Finished<D>
        requires { FitsStill self }
        // The history comes out, with each disk's count of faults as the call began.
        ensures history { result.history.entries ≡ self.history }
        ensures counts { (disk : ℕ) → slice_index_or result.history.faults disk None
            ≡ home_faults (bay_at self.memory.world.store.bays disk) }
        // Without a fault the disks hold all files, where they tell, and no page of a file is blank.
        ensures closed { IfNone result.fault (AllTell self.memory.world no_notes
            → HoldAllFiles self.memory.world (pairs_seen D.seen result.disks.items)) }
        ensures filled { IfNone result.fault (HaveNoBlankPage result.files) }
        // A fault is that of a transfer of this call, the last one of its disk. Where the disks tell,
        // each block of a page then has the page or what it had, but for one of that disk.
        ensures fault { IfSome result.fault (IsLastFault (disks_of self.memory.world)
            (pairs_seen D.seen result.disks.items)) }
        ensures left { IfSome result.fault (λ fault. AllTell self.memory.world no_notes
            → LeaveAllPages self.memory.world (disks_of self.memory.world)
            (pairs_seen D.seen result.disks.items) fault.disk) }
        // Fault or not: where the disks tell, marks are true of what they have. Each is the state's, or
        // it holds its page after all entries, or it names the fault; so none is older.
        ensures marks { (opening : Flat) → StateFits opening self no_seats
            → AllTell self.memory.world no_notes
            → LeavesMarks opening self (pairs_seen D.seen result.disks.items) result.fault }
        // What stays, with a fault too.
        ensures disks { KeepDisks self.memory.world.files (disks_of self.memory.world)
            (pairs_seen D.seen result.disks.items) }
        ensures swap { MatchOption result.swap (bay_at self.memory.world.store.bays 8 ≡ missing)
            (λ disk. bay_at self.memory.world.store.bays 8 ≡ home (D.seen disk)) }
        ensures files { KeepRecords self.memory.world.files result.files }
    {
        finish_world(self.world, self.ledger.into_history())
    }
}
