//! The kernel is closed.
ghost use Rattle.std.specs.Prelude.{ℕ, ◌≡◌, ◌≤◌, All, List, Option, length};
ghost use Rattle.volume_files.specs.block_device.DiskSeen.{DiskSeen};
ghost use Rattle.volume_files.specs.flat_model.Flat.{Flat};
ghost use Rattle.volume_files.specs.vm_script.PlanSeen.{PlanSeen};
ghost use Rattle.volume_files.specs.vnode_files.Files.{FilesSeen};
ghost use Rattle.volume_files.specs.vnode_files.Vnode.{IsSoundVnode};
ghost use Rattle.vm_core.specs.kernel_close.Finish.{FitsStill};
ghost use Rattle.vm_core.specs.vm_world.State.{KernelState};
ghost use Rattle.run_kernel.specs.Played.{IsStarted, HasPlayed, KernelLeaves, left_seen};

use vm_core::{Finished, VmState};
use volume_files::{Disk, Files};

/// What is left of a kernel once its processes ran.
#[derive(Drop)]
pub struct Played<D: Disk> {
    pub finished: Finished<D>,
    /// Whether all lines were made; false where memory lacked.
    pub is_whole: bool,
}

// Looks at each file: its record and its blank pages agree.
fn look_at(files: &Files)
    ensures sound { All IsSoundVnode files.now.files }
    ensures few { length files.now.files ≤ 64 }
{
    for file in 0..files.count() {
        let _ = files.info(file);
    }
}

/// Closes a kernel whose processes ran.
///
/// Time: that of the pages that are modified.
pub fn close_kernel<D: Disk>(state: VmState<D>, is_whole: bool) -> Played<D>
    requires still { FitsStill state }
    // What it leaves, whatever plan was played on it, from whatever flat memory it was started with.
    ensures left { (plan : PlanSeen) (F : Flat) (disks : List (ℕ × DiskSeen))
        (swap : Option DiskSeen) (files : FilesSeen) (start : KernelState)
        → IsStarted plan F disks swap files start → HasPlayed plan start state is_whole
        → KernelLeaves F start (left_seen D.seen result.finished) }
    ensures history { result.finished.history.entries ≡ state.history }
    ensures whole { result.is_whole ≡ is_whole }
{
    let finished = state.finish();
    look_at(&finished.files);
    Played { finished, is_whole }
}
