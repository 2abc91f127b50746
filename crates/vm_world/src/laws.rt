//! Laws of the fit. Each function does nothing: its contract is the law.
ghost use Rattle.vm_world.specs.Busy.{BusyLaw};
ghost use Rattle.vm_world.specs.CallSteps.{CallRule};
ghost use Rattle.vm_world.specs.Crowded.{CrowdedLaw};
ghost use Rattle.vm_world.specs.EntryLaws.{EntryLaw};
ghost use Rattle.vm_world.specs.EventLaws.{EventLaw};
ghost use Rattle.vm_world.specs.Failures.{FailureRule};
ghost use Rattle.vm_world.specs.FileCalls.{FileCallsLaw};
ghost use Rattle.vm_world.specs.FileLocks.{FileLocksLaw};
ghost use Rattle.vm_world.specs.FileSteps.{FileRule};
ghost use Rattle.vm_world.specs.ForkSteps.{ForkRule};
ghost use Rattle.vm_world.specs.GapSteps.{GapRule};
ghost use Rattle.vm_world.specs.Laws.{FrameRule, CountsLaw, ReservedLaw};
ghost use Rattle.vm_world.specs.Opening.{OpeningLaw};
ghost use Rattle.vm_world.specs.ProtectSteps.{ProtectRule};
ghost use Rattle.vm_world.specs.SeatLaws.{SeatLaw};
ghost use Rattle.vm_world.specs.ServingLaws.{ServingLaw};
ghost use Rattle.vm_world.specs.SegmentSteps.{SegmentRule, SegmentCells};
ghost use Rattle.vm_world.specs.StateEntries.{StateEntriesLaw};
ghost use Rattle.vm_world.specs.StateMarks.{StateFailuresLaw, StateMarksLaw, StateRaiseLaw};
ghost use Rattle.vm_world.specs.StateSteps.{StateRule};
ghost use Rattle.vm_world.specs.StateSyncs.{StateSyncLaw};
ghost use Rattle.vm_world.specs.SyncSteps.{StartRule};

/// The state at the opening fits its own flat memory.
#[tactic(auto, using(crate::proofs::OpeningFits::opening_law))]
pub fn opening_law()
    ensures { OpeningLaw }
{}

/// A private page in swap alone, one that is being written, and one that is home, with a translation through which it was
/// written, fit together.
#[tactic(auto, using(crate::proofs::Busy::busy_law))]
pub fn busy_law()
    ensures { BusyLaw }
{}

/// Two processes that share a slot, a snapshot that is out, a push of a page that is gone, a tail that is pending, a call
/// between two parts, a Sync that began and a plan that is kept fit together.
#[tactic(auto, using(crate::proofs::Crowded::crowded_law))]
pub fn crowded_law()
    ensures { CrowdedLaw }
{}

/// What a step of the world does to flat memory, and one step after another.
#[tactic(auto, using(crate::proofs::FrameRule::frame_law))]
pub fn frame_law()
    ensures { FrameRule }
{}

/// Which places hold a slot, by its count, and what a place that is set does to the counts.
#[tactic(auto, using(crate::proofs::Counting::counts_law))]
pub fn counts_law()
    ensures { CountsLaw }
{}

/// Flat memory reserves what the segments reserve.
#[tactic(auto, using(crate::proofs::Reserves::reserved_law))]
pub fn reserved_law()
    ensures { ReservedLaw }
{}

/// The history with an entry more, and tails that become zeros meanwhile.
#[tactic(auto, using(crate::proofs::Entries::entry_law))]
pub fn entry_law()
    ensures { EntryLaw }
{}

/// A step of the world without an entry is an event.
#[tactic(auto, using(crate::proofs::StateSteps::state_rule))]
pub fn state_law()
    ensures { StateRule }
{}

/// A flight that failed comes back with the entry of its error.
#[tactic(auto, using(crate::proofs::Failures::failure_rule))]
pub fn failure_law()
    ensures { FailureRule }
{}

/// A call that is done on pages alone is an event, with its entry.
#[tactic(auto, using(crate::proofs::CallSteps::call_rule))]
pub fn call_law()
    ensures { CallRule }
{}

/// What a seat is told of the state: whom it waits for, what disks counted, and what a list of seats is.
#[tactic(auto, using(crate::proofs::Told::event_law))]
pub fn event_law()
    ensures { EventLaw }
{}

/// What a change of the segments of one process does.
#[tactic(auto, using(crate::proofs::SegmentSteps::segment_rule))]
pub fn segment_law()
    ensures { SegmentRule }
{}

/// The cells of a process, the zero objects and what is reserved, told by the segments.
#[tactic(auto, using(crate::proofs::SegmentCells::segment_cells))]
pub fn segment_cells_law()
    ensures { SegmentCells }
{}

/// A call that is served is an event: where it is done, where it needs a transfer, and where it has to wait.
#[tactic(auto, using(crate::proofs::Servings::serving_law))]
pub fn serving_law()
    ensures { ServingLaw }
{}

/// What a seat may try by what it knows of its process, and that all is home where no seat has anything outside.
#[tactic(auto, using(crate::proofs::SeatRules::seat_law))]
pub fn seat_law()
    ensures { SeatLaw }
{}

/// What a process that comes with a copy of another's segments does, and that a Fork is an event.
#[tactic(auto, using(crate::proofs::ForkEvents::fork_rule))]
pub fn fork_law()
    ensures { ForkRule }
{}

/// What a change of a part's protection does.
#[tactic(auto, using(crate::proofs::ProtectedParts::protect_rule))]
pub fn protect_law()
    ensures { ProtectRule }
{}

/// The lowest gap between a process's cells, told by its parts.
#[tactic(auto, using(crate::proofs::LowestGaps::gap_rule))]
pub fn gap_law()
    ensures { GapRule }
{}

/// That a Sync has begun is an event; where it began; and what a clean page is not written by.
#[tactic(auto, using(crate::proofs::KeptStarts::start_rule))]
pub fn start_law()
    ensures { StartRule }
{}

/// What a change of one file does, and one such change after another.
#[tactic(auto, using(crate::proofs::FileSteps::file_rule))]
pub fn file_law()
    ensures { FileRule }
{}

/// Calls on files, told by the files' records, and what those that are done do.
#[tactic(auto, using(crate::proofs::FileCalls::file_calls_law))]
pub fn file_calls_law()
    ensures { FileCallsLaw }
{}

/// Whose call of a file is between two parts, after a call that was done.
#[tactic(auto, using(crate::proofs::FileLocks::file_locks_law))]
pub fn file_locks_law()
    ensures { FileLocksLaw }
{}

/// The marks of a state stay true as a transfer begins and as it ends.
#[tactic(auto, using(crate::proofs::Moving::state_marks_rule))]
pub fn state_marks_law()
    ensures { StateMarksLaw }
{}

/// They stay true as the mark of a clean page rises.
#[tactic(auto, using(crate::proofs::Raised::state_raise_rule))]
pub fn state_raise_law()
    ensures { StateRaiseLaw }
{}

/// The failures that they name stay true as disks leave and come back.
#[tactic(auto, using(crate::proofs::Failed::state_failures_rule))]
pub fn state_failures_law()
    ensures { StateFailuresLaw }
{}

/// They stay true with each entry, and so do the failures: also where files get longer or shorter.
#[tactic(auto, using(crate::proofs::Answered::state_entries_rule))]
pub fn state_entries_law()
    ensures { StateEntriesLaw }
{}

/// They stay true with a Sync that answers, which raised the marks of its pages; and so do the failures.
#[tactic(auto, using(crate::proofs::Synced::state_sync_rule))]
pub fn state_sync_law()
    ensures { StateSyncLaw }
{}
