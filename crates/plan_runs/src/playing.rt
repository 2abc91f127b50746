//! The processes run.
ghost use Rattle.std.specs.Prelude.{ℕ, ◌≡◌, ◌⊎◌, List, Option, true, false};
ghost use Rattle.volume_files.specs.block_device.DiskSeen.{DiskSeen};
ghost use Rattle.volume_files.specs.flat_model.Flat.{Flat};
ghost use Rattle.volume_files.specs.vnode_files.Files.{FilesSeen};
ghost use Rattle.volume_files.specs.flat_model.Told.{entries_of};
ghost use Rattle.block_runs.specs.Lines.{own_of};
ghost use Rattle.block_runs.specs.Rows.{StopsForMemory};
ghost use Rattle.run_input.specs.Alone.{is_alone};
ghost use Rattle.run_kernel.specs.Played.{IsStarted, HasPlayed, rooms_from};
ghost use Rattle.run_input.specs.Reading.{IsPlayable};
ghost use Rattle.plan_runs.specs.Daemon.{TurnsDaemon};

use crate::lines::make_lines;
use block_runs::{closed_law, closing_law, run_all};
use std::alloc::Global;
use std::sync::Wait;
use std::thread::Threads;
use vm_core::VmState;
use vm_kernel::kernel::VmKernel;
use vm_kernel::starting::Room;
use volume_files::{Disk, Plan, amounts_of};

/// Makes the lines of one block, in the thread that calls. False where memory lacked. It waits for nobody, and ends.
pub fn play_alone<D: Disk>(state: VmState<D>, plan: &Plan) -> (VmState<D>, bool)
    requires playable { IsPlayable plan.now }
    requires alone { is_alone plan.now ≡ true }
    requires started { (F : Flat) × (disks : List (ℕ × DiskSeen)) × (swap : Option DiskSeen)
        × (files : FilesSeen) × IsStarted plan.now F disks swap files state }
    ensures played { HasPlayed plan.now state result.0 result.1 }
    // Where it isn't whole, its lines were made up to one of a call that takes memory.
    ensures stopped { result.1 ≡ false → StopsForMemory (own_of 1 plan.now.lines)
        (entries_of result.0.history 1) }
{
    let mut state = state;
    let frames = amounts_of(plan.setup()).frames;
    let is_whole = make_lines(&mut state, frames, plan.lines()).is_ok();
    (state, is_whole)
}

/// Runs all blocks, each on a thread, and so many turns of the pageout daemon beside them. False where memory lacked: each process
/// stops before its next line then. Where it lacked for the kernel itself, nothing is run.
///
/// Takes memory for the kernel's lock and for the calls that do. Time: that of the calls.
pub fn play_blocks<R: Threads + Wait + Sync, D: Disk + Send>(
    rt: &R,
    alloc: Global,
    state: VmState<D>,
    rooms: &[Room],
    plan: &Plan,
    turns: u32,
) -> (VmState<D>, bool)
    requires playable { IsPlayable plan.now }
    requires started { (F : Flat) × (disks : List (ℕ × DiskSeen)) × (swap : Option DiskSeen)
        × (files : FilesSeen) × IsStarted plan.now F disks swap files state }
    requires rooms { rooms.now ≡ rooms_from 0 state.entries }
    ensures played { HasPlayed plan.now state result.0 result.1 }
    // The daemon made so many turns, unless nothing was run.
    ensures daemon { ((result.0 ≡ state) × (result.1 ≡ false)) ⊎ TurnsDaemon state turns }
{
    let (kernel, mut row) = match VmKernel::start(alloc, state, rooms) {
        Ok(started) => started,
        Err(state) => return (state, false),
    };
    let Some(mut daemon) = row.pop() else {
        unreachable!()
    };
    let blocks = row.as_mut_slice();
    let is_whole = run_all(rt, &kernel, plan.lines(), blocks, &mut daemon, turns);
    row.push_reserved(daemon);
    closed_law();
    closing_law();
    (kernel.close(row), is_whole)
}
