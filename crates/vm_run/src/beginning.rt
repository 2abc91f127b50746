//! A run on either side of its processes: its kernel is started, and it is ended.
ghost use Rattle.std.specs.Prelude.{ℕ, ◌≡◌, ◌≤◌, [], List, Ok, IfErr, IfOk, length, vec_capacity};
ghost use Rattle.volume_files.specs.block_device.RackSeen.{RackSeen};
ghost use Rattle.volume_files.specs.block_device.StreamSeen.{SinkSeen, SourceSeen};
ghost use Rattle.volume_files.specs.joined_disk.JoinedSeen.{joined_seen};
ghost use Rattle.volume_files.specs.volume_disks.Singles.{single_seen};
ghost use Rattle.volume_files.specs.vnode_files.Files.{FilesSeen};
ghost use Rattle.volume_files.specs.Attached.{AttachedSeen};
ghost use Rattle.volume_files.specs.Opened.{OpenedFile};
ghost use Rattle.vm_core.specs.vm_world.State.{KernelState};
ghost use Rattle.run_input.specs.Asked.{Asked, Given, WasAsked};
ghost use Rattle.vm_run.specs.Course.{RunBegan, RunPlayed};
ghost use Rattle.run_outcome.specs.Stopped.{HasStopped};
ghost use Rattle.run_input.specs.Reading.{MayBeRun};
ghost use Rattle.run_kernel.specs.Played.{rooms_from};
ghost use Rattle.run_outcome.specs.Run.{outside_of};

use crate::ending_files::end_run;
use command_line::Options;
use printed_traces::counts_law;
use run_kernel::{Started, close_kernel, start};
use run_opening::{Ready, ready_plan};
use run_outcome::Stop;
use std::alloc::Global;
use vm_core::VmState;
use vm_kernel::starting::Room;
use volume_files::{Disk, JoinedDisk, Plan, Rack, Single, Sink};

/// A run whose kernel was started.
#[derive(Drop)]
pub struct Begun<D: Disk> {
    pub options: Options,
    /// With the numbers of the files.
    pub plan: Plan,
    pub state: VmState<D>,
    /// Those of the processes in their order, and behind them that of the pageout daemon.
    pub rooms: Vec<Room>,
    /// Room for the disks to be handed back.
    pub back: Vec<D>,
}

/// Makes a plan that was read ready, and starts its kernel.
pub fn begin_plan<K: Sink, R: Rack>(
    alloc: Global,
    options: Options,
    plan: Plan,
    out: &mut K,
    rack: &mut R,
) -> Result<Begun<JoinedDisk<Single<R::D>>>, Stop<JoinedDisk<Single<R::D>>>>
    requires may { MayBeRun (record { options = options; plan = plan }) }
    // It began, and there is room for its disks to be handed back.
    ensures begun { IfOk result (λ b. (b.options ≡ options) × (files : List OpenedFile)
        × (bytes : ℕ → List ℕ) × (a : AttachedSeen) × (made : FilesSeen)
        × RunBegan (R.seen rack.old) (R.seen rack.new) (K.seen out.old) (K.seen out.new)
        (record { options = options; plan = plan }) files bytes a made b.plan b.state
        × (length a.disks ≤ vec_capacity b.back)) }
    ensures rooms { IfOk result (λ b. b.rooms.items ≡ rooms_from 0 b.state.entries) }
    ensures back { IfOk result (λ b. b.back.items ≡ []) }
    // It stopped, of whatever words and source it came, where the source counted no fault.
    ensures stopped { IfErr result (λ s. (g : Given) (before after : SourceSeen)
        → g.holds ≡ (R.seen rack.old).holds
        → WasAsked g (Ok (record { options = options; plan = plan }))
        → after.faults ≡ before.faults
        → HasStopped g (outside_of before after
        (R.seen rack.old) (R.seen rack.new) (K.seen out.old) (K.seen out.new))
        (joined_seen (single_seen R.D.seen)) s) }
{
    let Ready {
        options,
        plan,
        placed,
    } = match ready_plan(alloc, options, plan, out, rack) {
        Ok(ready) => ready,
        Err(stop) => return Err(stop),
    };
    match start(alloc, &plan, placed) {
        Ok(Started { state, rooms, back }) => Ok(Begun {
            options,
            plan,
            state,
            rooms,
            back,
        }),
        Err(stop) => Err(stop),
    }
}

/// Ends a run whose processes ran: the kernel and the files are closed, and the report is written.
pub fn finish_run<D: Disk, K: Sink>(
    alloc: Global,
    options: &Options,
    plan: &Plan,
    state: VmState<D>,
    is_whole: bool,
    back: Vec<D>,
    out: &mut K,
) -> Stop<D>
    requires run { (g : Given) × (r0 r1 : RackSeen) × (k0 : SinkSeen) × (what : Asked)
        × (files : List OpenedFile) × (bytes : ℕ → List ℕ) × (a : AttachedSeen)
        × (made : FilesSeen) × (start : KernelState)
        × RunPlayed r0 r1 k0 (K.seen out.old) what files bytes a made plan.now start state is_whole
        × (g.holds ≡ r0.holds) × WasAsked g (Ok what) × (length a.disks ≤ vec_capacity back) }
    requires empty { back.items ≡ [] }
    // It stopped, of whatever words and source it came, where the source counted no fault.
    ensures { (g : Given) (before after : SourceSeen) (r0 r1 : RackSeen) (k0 : SinkSeen)
        (what : Asked) (files : List OpenedFile) (bytes : ℕ → List ℕ) (a : AttachedSeen)
        (made : FilesSeen) (start : KernelState) → what.options ≡ options.now
        → RunPlayed r0 r1 k0 (K.seen out.old) what files bytes a made plan.now start state is_whole
        → g.holds ≡ r0.holds → WasAsked g (Ok what) → after.faults ≡ before.faults
        → HasStopped g (outside_of before after r0 r1 k0 (K.seen out.new)) D.seen result }
{
    let played = close_kernel(state, is_whole);
    counts_law(played.finished.history.entries());
    end_run(alloc, options, plan, played, back, out)
}
