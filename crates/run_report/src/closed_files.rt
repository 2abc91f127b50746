//! The tables and the report of files that were closed.
ghost use Rattle.std.specs.Prelude.{◌≡◌, ◌≤◌, ◌<◌, ◌^◌, ◌++◌, All, length, IfOk};
ghost use Rattle.page_store.specs.Bays.{pairs_seen};
ghost use Rattle.volume_files.specs.vm_report.Faults.{disk_fault_text};
ghost use Rattle.volume_files.specs.vm_types.WellFormed.{IsWellFormed};
ghost use Rattle.volume_files.specs.stored_files.Written.{HaveVolumeNames, infos_made, LieWell, HaveDisks, HaveExtents, HaveFirstBlocks, AreOnlyRead};
ghost use Rattle.volume_files.specs.stored_files.Uncut.{counts_of};
ghost use Rattle.run_report.specs.ReportEnds.{CloseFails, ShowEnds, TablesEnd, showing_stop};
ghost use Rattle.run_endings.specs.Ending.{IsQuiet};
ghost use Rattle.run_report.specs.AskedTexts.{middle_text};

use crate::reporting::{middle, write_middle};
use command_line::Options;
use run_endings::Ending;
use std::alloc::{AllocError, Global};
use volume_files::{
    Disk, DiskFault, Entries, Files, Heading, Plan, ShowStop, Sink, TableStop, disk_fault,
    show_files, write_all, write_tables,
};

// The text of a run whose files weren't closed.
fn closing_text(
    alloc: Global,
    options: &Options,
    plan: &Plan,
    history: &Entries,
    fault: &DiskFault,
) -> Result<Vec<u8>, AllocError>
    requires few { length history.now < 2 ^ 32 }
    requires few_blocks { length plan.now.parents < 2 ^ 31 }
    requires well_formed { All (λ e. IsWellFormed e.call) history.now }
    ensures { IfOk result (λ text. text.items ≡ middle_text options.now plan.now history.now
        ++ disk_fault_text fault.now.disk fault.now.before fault.now.after) }
{
    let mut text = Vec::new(alloc);
    middle(options, plan, history, &mut text)?;
    disk_fault(fault.disk, fault.before, fault.after, &mut text)?;
    Ok(text)
}

// Tells of a fault in closing, as far as the sink takes it.
pub fn tell_fault<K: Sink>(
    alloc: Global,
    options: &Options,
    plan: &Plan,
    history: &Entries,
    fault: DiskFault,
    out: &mut K,
) -> Ending
    requires few { length history.now < 2 ^ 32 }
    requires few_blocks { length plan.now.parents < 2 ^ 31 }
    requires well_formed { All (λ e. IsWellFormed e.call) history.now }
    ensures ends { CloseFails options.now plan.now history.now fault
        (K.seen out.old) (K.seen out.new) result }
    // Want of memory hides no failure.
    ensures later { (K.seen out.old).faults ≤ (K.seen out.new).faults }
    ensures hides { IsQuiet result → (K.seen out.new).faults ≡ (K.seen out.old).faults }
{
    match closing_text(alloc, options, plan, history, &fault) {
        Ok(text) => {
            let _ = write_all(out, &text);
            Ending::Closing(fault)
        }
        Err(_) => Ending::Memory,
    }
}

fn showing_stop(stop: ShowStop<DiskFault>) -> Ending
    ensures { result ≡ showing_stop stop }
{
    match stop {
        ShowStop::Memory => Ending::Memory,
        ShowStop::Sink => Ending::Sink,
        ShowStop::Fault(fault) => Ending::Showing(fault),
    }
}

// Writes the report of files that were closed.
fn show_report<D: Disk, K: Sink>(
    alloc: Global,
    options: &Options,
    plan: &Plan,
    history: &Entries,
    files: &Files,
    disks: &mut [(u32, D)],
    out: &mut K,
) -> Ending
    requires few { length history.now < 2 ^ 32 }
    requires few_blocks { length plan.now.parents < 2 ^ 31 }
    requires well_formed { All (λ e. IsWellFormed e.call) history.now }
    requires lie { LieWell files.now }
    requires disks { HaveDisks files.now (pairs_seen D.seen disks.old) }
    ensures ends { ShowEnds options.now plan.now history.now (infos_made files.now)
        (K.seen out.old) (K.seen out.new)
        (pairs_seen D.seen disks.old) (pairs_seen D.seen disks.new) result }
    // What stays.
    ensures reads { AreOnlyRead (pairs_seen D.seen disks.old) (pairs_seen D.seen disks.new) }
    ensures later { (K.seen out.old).faults ≤ (K.seen out.new).faults }
    // Neither the whole report nor want of memory hides a failure.
    ensures hides { IsQuiet result → (K.seen out.new).faults ≡ (K.seen out.old).faults }
    ensures uncounted { IsQuiet result → counts_of (pairs_seen D.seen disks.new)
        ≡ counts_of (pairs_seen D.seen disks.old) }
{
    if let Err(ending) = write_middle(alloc, options, plan, history, out) {
        return ending;
    }
    if options.make.is_some() {
        return Ending::Whole;
    }
    match show_files(alloc, Heading::Report, files, disks, out) {
        Ok(()) => Ending::Whole,
        Err(stop) => showing_stop(stop),
    }
}

// Writes the tables and then the report, or the line of the fault.
pub fn report<D: Disk, K: Sink>(
    alloc: Global,
    options: &Options,
    plan: &Plan,
    history: &Entries,
    files: &Files,
    disks: &mut [(u32, D)],
    out: &mut K,
) -> Ending
    requires few { length history.now < 2 ^ 32 }
    requires few_blocks { length plan.now.parents < 2 ^ 31 }
    requires well_formed { All (λ e. IsWellFormed e.call) history.now }
    requires lie { LieWell files.now }
    requires names { HaveVolumeNames (infos_made files.now) }
    requires extents { HaveExtents (infos_made files.now) }
    requires disks { HaveDisks files.now (pairs_seen D.seen disks.old) }
    requires some { HaveFirstBlocks (pairs_seen D.seen disks.old) }

    // How it ended.
    ensures ends { TablesEnd options.now plan.now history.now (infos_made files.now)
        (K.seen out.old) (K.seen out.new)
        (pairs_seen D.seen disks.old) (pairs_seen D.seen disks.new) result }
    // Neither the whole report nor want of memory hides a failure of the sink.
    ensures later { (K.seen out.old).faults ≤ (K.seen out.new).faults }
    ensures hides { IsQuiet result → (K.seen out.new).faults ≡ (K.seen out.old).faults }
{
    match write_tables(alloc, files, disks) {
        Ok(()) => show_report(alloc, options, plan, history, files, disks, out),
        Err(TableStop::Memory) => Ending::Memory,
        Err(TableStop::Fault(fault)) => tell_fault(alloc, options, plan, history, fault, out),
    }
}
