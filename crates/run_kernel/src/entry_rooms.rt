//! How many entries each process may make.
ghost use Rattle.std.specs.Prelude.{ℕ, ◌≡◌, ◌<◌, ◌≤◌, ◌+◌, ◌-◌, ◌^◌, length, slice_index, slice_set, IfOk};
ghost use Rattle.volume_files.specs.vm_script.Blocks.{Nests};
ghost use Rattle.volume_files.specs.vm_script.Counts.{parts, entry_count};
ghost use Rattle.volume_files.specs.vm_script.Processes.{kernel_parents};
ghost use Rattle.run_kernel.specs.Played.{HasRoomForPlan};

use std::alloc::{AllocError, Global};
use volume_files::{Plan, PlanLine, parts};

// The process of the line may make the line's entries more.
fn add_line(rooms: &mut Vec<u32>, line: &PlanLine)
    requires first { 1 ≤ line.now.process }
    requires last { line.now.process ≤ length rooms.old.items }
    requires fits { slice_index rooms.old.items (line.now.process - 1)
        + parts line.now.act < 2 ^ 32 }
    ensures { rooms.new.items ≡ slice_set rooms.old.items (line.now.process - 1)
        (slice_index rooms.old.items (line.now.process - 1) + parts line.now.act) }
{
    let place = line.process as usize - 1;
    rooms[place] += parts(line);
}

/// Of each process from 1 on how many entries its lines may make.
///
/// The time is proportional to the lines, the memory to the processes.
pub fn entry_rooms(alloc: Global, plan: &Plan) -> Result<Vec<u32>, AllocError>
    requires nests { Nests plan.now }
    requires few { entry_count plan.now.lines ≤ 1048576 }
    ensures count { IfOk result (λ rooms.
        length rooms.items ≡ length (kernel_parents plan.now)) }
    ensures rooms { IfOk result (λ rooms. HasRoomForPlan plan.now rooms.items) }
{
    let lines = plan.lines();
    let mut rooms = vec![in alloc; 0u32; plan.kernel_parents().len()]?;
    for line in lines {
        add_line(&mut rooms, line);
    }
    Ok(rooms)
}
