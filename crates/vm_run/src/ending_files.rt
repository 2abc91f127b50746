//! The end of a run whose processes ran: its disks are closed, and all is handed back.
ghost use Rattle.std.specs.Prelude.{ℕ, ◌≡◌, ◌≤◌, ◌<◌, ◌^◌, [], All, Some, None, length, map, option_map, List, vec_capacity};
ghost use Rattle.vm_core.specs.page_store.Bays.{pairs_seen};
ghost use Rattle.volume_files.specs.vm_types.WellFormed.{IsWellFormed};
ghost use Rattle.volume_files.specs.Attached.{bare_disks};
ghost use Rattle.volume_files.specs.stored_files.Written.{HaveVolumeNames, infos_made, LieWell, HaveDisks, HaveExtents, HaveFirstBlocks};
ghost use Rattle.volume_files.specs.Handed.{member_count};
ghost use Rattle.volume_files.specs.block_device.DiskSeen.{DiskSeen};
ghost use Rattle.run_report.specs.ReportEnds.{CloseEnds};
ghost use Rattle.run_endings.specs.Ending.{IsQuiet};

use command_line::Options;
use run_endings::Ending;
use run_kernel::Played;
use run_outcome::{Stop, without_numbers};
use run_report::{report, tell_fault};
use std::alloc::Global;
use vm_core::Finished;
use volume_files::{Disk, Plan, Sink, write_tables};

// Closes the disks and writes the report; for want of memory the disks alone.
fn close<D: Disk, K: Sink>(
    alloc: Global,
    options: &Options,
    plan: &Plan,
    is_whole: bool,
    finished: &mut Finished<D>,
    out: &mut K,
) -> Ending
    requires few { length finished.old.history.entries < 2 ^ 32 }
    requires few_blocks { length plan.now.parents < 2 ^ 31 }
    requires well_formed { All (λ e. IsWellFormed e.call) finished.old.history.entries }
    requires lie { LieWell finished.old.files }
    requires names { HaveVolumeNames (infos_made finished.old.files) }
    requires extents { HaveExtents (infos_made finished.old.files) }
    requires disks { HaveDisks finished.old.files (pairs_seen D.seen finished.old.disks.items) }
    requires some { HaveFirstBlocks (pairs_seen D.seen finished.old.disks.items) }
    ensures ends { CloseEnds is_whole finished.old.fault options.now plan.now
        finished.old.history.entries (infos_made finished.old.files)
        (K.seen out.old) (K.seen out.new)
        (pairs_seen D.seen finished.old.disks.items)
        (pairs_seen D.seen finished.new.disks.items) result }
    // What stays.
    ensures history { finished.new.history ≡ finished.old.history }
    ensures swap { finished.new.swap ≡ finished.old.swap }
    ensures count { length finished.new.disks.items ≡ length finished.old.disks.items }
    ensures later { (K.seen out.old).faults ≤ (K.seen out.new).faults }
    ensures hides { IsQuiet result → (K.seen out.new).faults ≡ (K.seen out.old).faults }
{
    let fault = finished.fault;
    if !is_whole {
        if fault.is_some() {
            return Ending::Memory;
        }
        let _ = write_tables(alloc, &finished.files, finished.disks.as_mut_slice());
        return Ending::Memory;
    }
    let history = finished.history.entries();
    match fault {
        Some(fault) => tell_fault(alloc, options, plan, history, fault, out),
        None => {
            let disks = finished.disks.as_mut_slice();
            report(alloc, options, plan, history, &finished.files, disks, out)
        }
    }
}

/// Ends a run whose processes ran: writes the tables and the report, and hands back the history and the disks.
pub fn end_run<D: Disk, K: Sink>(
    alloc: Global,
    options: &Options,
    plan: &Plan,
    played: Played<D>,
    back: Vec<D>,
    out: &mut K,
) -> Stop<D>
    requires few { length played.finished.history.entries < 2 ^ 32 }
    requires few_blocks { length plan.now.parents < 2 ^ 31 }
    requires well_formed { All (λ e. IsWellFormed e.call) played.finished.history.entries }
    requires lie { LieWell played.finished.files }
    requires names { HaveVolumeNames (infos_made played.finished.files) }
    requires extents { HaveExtents (infos_made played.finished.files) }
    requires disks { HaveDisks played.finished.files
        (pairs_seen D.seen played.finished.disks.items) }
    requires some { HaveFirstBlocks (pairs_seen D.seen played.finished.disks.items) }
    requires empty { back.items ≡ [] }
    requires room { length played.finished.disks.items ≤ vec_capacity back }
    ensures ends { (new : List (ℕ × DiskSeen))
        × (map D.seen result.disks.items ≡ bare_disks new)
        × CloseEnds played.is_whole played.finished.fault options.now plan.now
        played.finished.history.entries (infos_made played.finished.files)
        (K.seen out.old) (K.seen out.new)
        (pairs_seen D.seen played.finished.disks.items) new result.ending }
    // What is handed back.
    ensures history { result.history ≡ played.finished.history }
    ensures swap { result.swap ≡ played.finished.swap }
    ensures count { member_count (map D.seen result.disks.items) (option_map D.seen result.swap)
        ≡ member_count (bare_disks (pairs_seen D.seen played.finished.disks.items))
        (option_map D.seen played.finished.swap) }
    ensures later { (K.seen out.old).faults ≤ (K.seen out.new).faults }
    ensures hides { IsQuiet result.ending → (K.seen out.new).faults ≡ (K.seen out.old).faults }
{
    let Played {
        mut finished,
        is_whole,
    } = played;
    let ending = close(alloc, options, plan, is_whole, &mut finished, out);
    Stop {
        ending,
        history: finished.history,
        disks: without_numbers(finished.disks, back),
        swap: finished.swap,
    }
}
