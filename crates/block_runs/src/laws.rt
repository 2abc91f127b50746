//! What the callers of all blocks have seen composes to the whole.
ghost use Rattle.std.specs.Prelude.{◌≡◌, ◌++◌, Bool, true, List, length, map};
ghost use Rattle.kernel_lock.specs.Seats.{IsClosed};
ghost use Rattle.vm_script.specs.vm_types.declared.call.Entry.{Entry};
ghost use Rattle.vm_script.specs.PlanSeen.{PlanSeen};
ghost use Rattle.vm_script.specs.Processes.{kernel_parents};
ghost use Rattle.vm_script.specs.Told.{Told, ToldFront};
ghost use Rattle.vm_core.specs.vm_world.State.{KernelState};
ghost use Rattle.vm_kernel.specs.Callers.{KernelSeen, CallerSeen, caller_part};
ghost use Rattle.vm_kernel.specs.Since.{seat_of_entry, history_of, IsSinceOpening};
ghost use Rattle.block_runs.specs.Callers.{tree, rooms};
ghost use Rattle.block_runs.specs.Rows.{AreNumbered, AreBlocksReady, AllEnd};
ghost use Rattle.block_runs.specs.Closing.{IsClosedRow};

/// Where all blocks are over as the kernel is closed, its history tells the plan; where they were stopped, it tells a front of
/// each block's lines.
#[tactic(auto, using(crate::proofs::Endings::told, crate::proofs::Endings::told_front))]
pub fn closing_law()
    ensures whole { (k : KernelSeen) (plan : PlanSeen) (H : List Entry) (old new : List CallerSeen)
        → tree k ≡ kernel_parents plan → AreBlocksReady k plan.lines old 1 → length old ≡ length plan.parents
        → AllEnd k true plan.lines old new → IsClosedRow plan H new → Told plan H }
    ensures front { (k : KernelSeen) (plan : PlanSeen) (H : List Entry) (old new : List CallerSeen)
        (whole : Bool) → tree k ≡ kernel_parents plan → AreBlocksReady k plan.lines old 1
        → length old ≡ length plan.parents → AllEnd k whole plan.lines old new
        → IsClosedRow plan H new → ToldFront plan H }
{}

/// The history of a kernel that was closed holds to the callers of all blocks, and has no other entries.
pub fn closed_law()
    ensures { (k : KernelSeen) (plan : PlanSeen) (s : KernelState) (row more : List CallerSeen)
        → AreNumbered k 1 row → tree k ≡ kernel_parents plan
        → length (rooms k) ≡ length (kernel_parents plan)
        → IsClosed seat_of_entry history_of IsSinceOpening k.opening k.seats
        (map caller_part (row ++ more)) s
        → IsClosedRow plan s.history row }
{}
