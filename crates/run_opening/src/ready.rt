//! A run up to the point where its processes can run.
ghost use Rattle.std.specs.Prelude.{ℕ, ◌≡◌, ◌≤◌, ◌<◌, ◌+◌, ◌^◌, List, Option, map, string_bytes, IfOk, IfErr, Ok, None, [], length, option_map, vec_capacity};
ghost use Rattle.volume_files.specs.block_device.declared.rack.Spec.{Spec};
ghost use Rattle.volume_files.specs.joined_disk.JoinedSeen.{joined_seen};
ghost use Rattle.volume_files.specs.volume_disks.Singles.{single_seen};
ghost use Rattle.run_input.specs.Asked.{Given, Asked, WasAsked, given_of};
ghost use Rattle.volume_files.specs.Attached.{AreAttached, ArePlaced, HasRooms, attached_seen, bare_disks};
ghost use Rattle.volume_files.specs.stored_files.Written.{numbered_seen, AreOnlyRead};
ghost use Rattle.run_outcome.specs.Stopped.{HasCase};
ghost use Rattle.run_opening.specs.Ready.{IsReady, AreReadBytes, Traces, opening_stop};
ghost use Rattle.run_input.specs.Reading.{IsReadPlan, IsPlayable};
ghost use Rattle.volume_files.specs.Handed.{AreUncounted, member_count};
ghost use Rattle.volume_files.specs.Opened.{OpenedFile, numbered_plan};
ghost use Rattle.run_outcome.specs.Run.{Outside, UnlessRacked, outside_of};
ghost use Rattle.run_report.specs.ReportEnds.{UnlessEnded};
ghost use Rattle.run_endings.specs.Ending.{IsQuiet};
ghost use Rattle.volume_files.specs.vm_script.Rules.{broken_rule};

use command_line::Options;
use run_endings::Ending;
use run_outcome::{Stop, stop_unopened};
use std::alloc::Global;
use vm_core::KernelHistory;
use volume_files::{
    Attached, Disk, JoinedDisk, OpenFault, Placed, Plan, Rack, ShowStop, Single, Sink, Source,
    Unopened, attach, into_disks, into_swap, place, setup_law, trace_opening,
};

/// A run whose processes can run.
#[derive(Drop)]
pub struct Ready<D: Disk> {
    pub options: Options,
    /// With the numbers of the files.
    pub plan: Plan,
    pub placed: Placed<D>,
}

fn opening_stop(stop: ShowStop<OpenFault>) -> Ending
    ensures { result ≡ opening_stop stop }
{
    match stop {
        ShowStop::Memory => Ending::Memory,
        ShowStop::Sink => Ending::OpeningSink,
        ShowStop::Fault(fault) => Ending::Opening(fault),
    }
}

// A run that stopped before its processes ran, with the disks that were attached. It takes no memory.
fn stop_untraced<D: Disk>(how: Ending, attached: Attached<D>) -> Stop<D>
    requires none { attached.back.items ≡ [] }
    requires room { length attached.disks.items ≤ vec_capacity attached.back }
    // The disks come back, and there is no history.
    ensures ending { result.ending ≡ how }
    ensures entries { result.history.entries ≡ [] }
    ensures counts { result.history.faults ≡ [] }
    ensures disks { result.disks.items ≡ map (λ d. d.disk) attached.disks.items }
    ensures swap { result.swap ≡ option_map (λ d. d.disk) attached.swap }
    ensures count { member_count (map D.seen result.disks.items) (option_map D.seen result.swap)
        ≡ member_count (bare_disks (attached_seen D.seen attached).disks)
        (attached_seen D.seen attached).swap }
{
    Stop {
        ending: how,
        history: KernelHistory::none(*attached.back.allocator()),
        disks: into_disks(attached.disks, attached.back),
        swap: into_swap(attached.swap),
    }
}

// Writes the opening part of the trace, where one is asked for.
fn traced<D: Disk, K: Sink>(
    alloc: Global,
    options: &Options,
    plan: &Plan,
    placed: &mut Placed<D>,
    out: &mut K,
) -> Result<(), Ending>
    requires placed { (holds : Spec → Option (List (List ℕ))) × (files : List OpenedFile)
        × ArePlaced plan.now holds files (attached_seen D.seen placed.old.attached) placed.old.files }
    requires few_blocks { length plan.now.parents < 2 ^ 31 }

    // The bytes that were read, and the text of them as far as it was written.
    ensures shows { (holds : Spec → Option (List (List ℕ))) (files : List OpenedFile)
        → ArePlaced plan.now holds files (attached_seen D.seen placed.old.attached) placed.old.files
        → (bytes : ℕ → List ℕ)
        × AreReadBytes files (attached_seen D.seen placed.old.attached).disks bytes
        × Traces options.now plan.now files bytes (K.seen out.old) (K.seen out.new)
        (attached_seen D.seen placed.old.attached).disks
        (attached_seen D.seen placed.new.attached).disks result }

    // What stays.
    ensures disks { AreOnlyRead (attached_seen D.seen placed.old.attached).disks
        (attached_seen D.seen placed.new.attached).disks }
    ensures files { placed.new.files ≡ placed.old.files }
    ensures swap { placed.new.attached.swap ≡ placed.old.attached.swap }
    ensures rooms { HasRooms placed.old.attached → HasRooms placed.new.attached }
    ensures later { (K.seen out.old).faults ≤ (K.seen out.new).faults }
    // Unless the sink or a disk failed, none counted a fault.
    ensures steady { UnlessEnded result ((K.seen out.new).faults ≡ (K.seen out.old).faults) }
    ensures failures { UnlessEnded result
        (AreUncounted (bare_disks (attached_seen D.seen placed.old.attached).disks)
        (attached_seen D.seen placed.old.attached).swap
        → AreUncounted (bare_disks (attached_seen D.seen placed.new.attached).disks)
        (attached_seen D.seen placed.new.attached).swap) }
{
    if !options.trace {
        return Ok(());
    }
    let disks = placed.attached.disks.as_mut_slice();
    match trace_opening(alloc, plan, &placed.files, disks, out) {
        Ok(()) => Ok(()),
        Err(stop) => Err(opening_stop(stop)),
    }
}

/// Attaches the disks of a plan, places its files, and writes the opening part of the trace.
pub fn ready_plan<K: Sink, R: Rack>(
    alloc: Global,
    options: Options,
    mut plan: Plan,
    out: &mut K,
    rack: &mut R,
) -> Result<Ready<JoinedDisk<Single<R::D>>>, Stop<JoinedDisk<Single<R::D>>>>
    requires read { IsReadPlan plan }
    // Whatever words it came of, and whatever was read.
    ensures ready { IfOk result (λ r. (options ≡ r.options)
        × (files : List OpenedFile) × (bytes : ℕ → List ℕ)
        × ((g : Given) → g.holds ≡ (R.seen rack.old).holds
        → WasAsked g (Ok (record { options = options; plan = plan }))
        → IsReady g (K.seen out.old) (K.seen out.new)
        (record { options = options; plan = plan }) files bytes
        (attached_seen (joined_seen (single_seen R.D.seen)) r.placed.attached) r.placed.files r.plan)) }
    ensures numbered { IfOk result (λ r. (files : List OpenedFile)
        × (r.plan ≡ numbered_plan files plan)) }
    ensures rooms { IfOk result (λ r. HasRooms r.placed.attached) }
    ensures err { IfErr result (λ s. (g : Given) (o : Outside)
        → g.holds ≡ (R.seen rack.old).holds
        → WasAsked g (Ok (record { options = options; plan = plan }))
        → o.rack_old ≡ (R.seen rack.old).faults → o.rack_new ≡ (R.seen rack.new).faults
        → o.sink_old ≡ K.seen out.old → o.sink_new ≡ K.seen out.new
        → HasCase g o (joined_seen (single_seen R.D.seen)) s) }
    // Each disk that the rack attached is there, or is handed back.
    ensures kept { IfOk result (λ r. (R.seen rack.new).attached ≡ (R.seen rack.old).attached
        + member_count (bare_disks (attached_seen (joined_seen (single_seen R.D.seen)) r.placed.attached).disks)
        (attached_seen (joined_seen (single_seen R.D.seen)) r.placed.attached).swap) }
    ensures back { IfErr result (λ s. (R.seen rack.new).attached ≡ (R.seen rack.old).attached
        + member_count (map (joined_seen (single_seen R.D.seen)) s.disks.items)
        (option_map (joined_seen (single_seen R.D.seen)) s.swap)) }
    // Where it is ready, none counted a fault.
    ensures served { IfOk result (λ _.
        ((R.seen rack.new).faults ≡ (R.seen rack.old).faults)
        × ((K.seen out.new).faults ≡ (K.seen out.old).faults)) }
    ensures uncounted { IfOk result (λ r.
        AreUncounted (bare_disks (attached_seen (joined_seen (single_seen R.D.seen)) r.placed.attached).disks)
        (attached_seen (joined_seen (single_seen R.D.seen)) r.placed.attached).swap) }
    // The rack counted a fault only where that ended the run; and where memory lacked, the sink counted none.
    ensures racked { IfErr result (λ s. UnlessRacked s.ending
        ((R.seen rack.new).faults ≡ (R.seen rack.old).faults)) }
    ensures lacks { IfErr result (λ s. IsQuiet s.ending
        → (K.seen out.new).faults ≡ (K.seen out.old).faults) }
    // No count falls.
    ensures rack { (R.seen rack.old).faults ≤ (R.seen rack.new).faults }
    ensures sink { (K.seen out.old).faults ≤ (K.seen out.new).faults }
{
    setup_law();
    let attached = match attach(alloc, &plan, rack) {
        Ok(attached) => attached,
        Err(back) => return Err(stop_unopened(back)),
    };
    let mut placed = match place(alloc, &mut plan, attached) {
        Ok(placed) => placed,
        Err(back) => return Err(stop_unopened(back)),
    };
    match traced(alloc, &options, &plan, &mut placed, out) {
        Ok(()) => Ok(Ready {
            options,
            plan,
            placed,
        }),
        Err(ending) => Err(stop_untraced(ending, placed.attached)),
    }
}
