//! The opening part of a trace.
ghost use Rattle.std.specs.Prelude.{ℕ, ◌≡◌, ◌≤◌, ◌++◌, ◌<◌, ◌^◌, List, map, length, IfOk, OnOk};
ghost use Rattle.block_device.specs.DiskSeen.{DiskSeen};
ghost use Rattle.stored_files.specs.Written.{numbered_seen};
ghost use Rattle.stored_files.specs.Written.{infos_made};
ghost use Rattle.stored_files.specs.Showing.{IsHeadingShown};
ghost use Rattle.stored_files.specs.Texts.{trace_front};
ghost use Rattle.stored_files.specs.Uncut.{UnlessCut, counts_of};
ghost use Rattle.stored_files.specs.Written.{LieWell, HaveDisks, AreOnlyRead, AreFilesBytes, TraceShows, disk_sizes};

use crate::showing::{Heading, ShowStop, show_files};
use block_device::{Disk, OpenFault, Sink, Unopened, write_all};
use std::alloc::{AllocError, Global};
use vm_report::{Plan, amounts_of};
use volume_format::Files;

/// Writes the opening part of a trace: swap slots, disks, top processes, and the files with their bytes, which are read.
pub fn trace_opening<D: Disk, K: Sink>(
    alloc: Global,
    plan: &Plan,
    files: &Files,
    disks: &mut [Unopened<D>],
    out: &mut K,
) -> Result<(), ShowStop<OpenFault>>
    requires lie { LieWell files.now }
    requires disks { HaveDisks files.now (map (numbered_seen D.seen) disks.old) }
    requires few_blocks { length plan.now.parents < 2 ^ 31 }
    // The bytes are those of the disks, where these tell; the text, as far as it was written, is that of these bytes.
    ensures shows { (bytes : ℕ → List ℕ)
        × AreFilesBytes (infos_made files.now) (map (numbered_seen D.seen) disks.old) bytes
        × TraceShows plan.now (infos_made files.now) bytes (K.seen out.old) (K.seen out.new)
        (map (numbered_seen D.seen) disks.old) (map (numbered_seen D.seen) disks.new) result }
    // What stays.
    ensures disks { AreOnlyRead
        (map (numbered_seen D.seen) disks.old) (map (numbered_seen D.seen) disks.new) }
    ensures later { (K.seen out.old).faults ≤ (K.seen out.new).faults }
    ensures steady { UnlessCut result ((K.seen out.new).faults ≡ (K.seen out.old).faults) }
    ensures failures { UnlessCut result (counts_of (map (numbered_seen D.seen) disks.new)
        ≡ counts_of (map (numbered_seen D.seen) disks.old)) }
{
    show_front(alloc, plan, disks, out)?;
    show_files(alloc, Heading::Trace, files, disks, out)
}

// Writes the trace before its files.
fn show_front<D: Disk, K: Sink>(
    alloc: Global,
    plan: &Plan,
    disks: &[Unopened<D>],
    out: &mut K,
) -> Result<(), ShowStop<OpenFault>>
    requires { length plan.now.parents < 2 ^ 31 }
    ensures shown { IsHeadingShown
        (trace_front plan.now (disk_sizes (map (numbered_seen D.seen) disks.now)))
        (K.seen out.old) (K.seen out.new) result }
    ensures later { (K.seen out.old).faults ≤ (K.seen out.new).faults }
    ensures steady { UnlessCut result ((K.seen out.new).faults ≡ (K.seen out.old).faults) }
{
    let mut text = Vec::new(alloc);
    if push_front(alloc, plan, disks, &mut text).is_err() {
        return Err(ShowStop::Memory);
    }
    match write_all(out, &text) {
        Ok(()) => Ok(()),
        Err(_) => Err(ShowStop::Sink),
    }
}

// The disks' numbers, each with its blocks.
fn sizes_of<D: Disk>(alloc: Global, disks: &[Unopened<D>]) -> Result<Vec<(u32, u32)>, AllocError>
    ensures { IfOk result (λ sizes.
        sizes.items ≡ disk_sizes (map (numbered_seen D.seen) disks.now)) }
{
    let mut sizes = Vec::new(alloc);
    for disk in disks {
        sizes.push((disk.number(), disk.blocks()))?;
    }
    Ok(sizes)
}

// Adds the trace before its files.
fn push_front<D: Disk>(
    alloc: Global,
    plan: &Plan,
    disks: &[Unopened<D>],
    text: &mut Vec<u8>,
) -> Result<(), AllocError>
    requires { length plan.now.parents < 2 ^ 31 }
    ensures { OnOk result (text.new.items ≡ text.old.items
        ++ trace_front plan.now (disk_sizes (map (numbered_seen D.seen) disks.now))) }
{
    let sizes = sizes_of(alloc, disks)?;
    let slots = amounts_of(plan.setup()).slots;
    vm_report::trace_opening(slots, &sizes, plan.kernel_parents(), text)
}
