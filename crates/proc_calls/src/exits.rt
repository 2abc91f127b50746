//! The end of a process.
ghost use Rattle.std.specs.Prelude.{◌≡◌, ◌≤◌, ℕ, IsSome, IfOk, IsOk, List, Option};
ghost use Rattle.std.specs.FinMap as finite;
ghost use Rattle.seg_vn.specs.flat_model.Processes.{without_process};
ghost use Rattle.seg_vn.specs.vm_world.Serving.{ModifiesNone};
ghost use Rattle.seg_vn.specs.vm_world.Words.{memory, Fits, SameFilesAndTails};
ghost use Rattle.seg_vn.specs.vm_world.World.{world_seen};
ghost use Rattle.seg_vn.specs.vm_world.ZeroObjects.{KnowsZeros};
ghost use Rattle.seg_vn.specs.anon_slots.Slots.{count_at};
ghost use Rattle.seg_vn.specs.Clears.{ChangesSpace};
ghost use Rattle.seg_vn.specs.Serves.{Serves};
ghost use Rattle.proc_calls.specs.Ends.{IsServedExit, IsExitDone};

use seg_vn::{Attempt, Call, Disk, Reply, Spaces, World, clear};
use std::alloc::AllocError;

/// The page behind the last one of a space.
const END: u32 = 0x80000;

/// Takes a process away, with all its pieces, their translations, their private pages, the zero objects that no other process
/// maps, and what is reserved for them.
fn exit<D: Disk>(world: &mut World<D>, spaces: &mut Spaces, process: u32)
    requires fits { Fits world.old spaces.old.spaces }
    requires zeros { KnowsZeros world.old.zeros spaces.old.spaces }
    requires alive { IsSome (finite.get spaces.old.spaces process) }
    ensures changes { ChangesSpace process (memory world.old spaces.old.spaces)
        (memory world.new spaces.new.spaces) world.new.zeros
        (λ F. without_process F process) }
    ensures fall { (slot : ℕ) → count_at world.new.anon slot ≤ count_at world.old.anon slot }
    ensures modified { ModifiesNone (world_seen world.old) (world_seen world.new) }
    // What stays.
    ensures rest { SameFilesAndTails world.old world.new }
    ensures processes { spaces.new.processes ≡ spaces.old.processes }
{
    let Some(space) = spaces.get_mut(process) else {
        unreachable!();
    };
    clear(world, space, process, 1, END);
    spaces.remove(process);
}

/// What a call of a process is answered that ends the process: Done. It takes no memory, and so has no error. Time: the pages
/// of the process and of the zero objects that go with it, and the logarithm of the number of its pieces for each piece.
pub fn attempt<D: Disk>(
    world: &mut World<D>,
    spaces: &mut Spaces,
    process: u32,
    call: &Call,
) -> Result<Attempt, AllocError>
    requires served { IsServedExit call.now }
    requires fits { Fits world.old spaces.old.spaces }
    requires zeros { KnowsZeros world.old.zeros spaces.old.spaces }
    requires alive { IsSome (finite.get spaces.old.spaces process) }
    ensures ok { IsOk result }
    ensures done { IfOk result (λ answer. (calls : List (Option ℕ)) → Serves
        (memory world.old spaces.old.spaces) (memory world.new spaces.new.spaces)
        world.old.pending world.new.pending calls process call.now answer) }
    ensures answer { IfOk result IsExitDone }
    ensures zeros { KnowsZeros world.new.zeros spaces.new.spaces }
    ensures fall { (slot : ℕ) → count_at world.new.anon slot ≤ count_at world.old.anon slot }
    // What stays.
    ensures processes { spaces.new.processes ≡ spaces.old.processes }
{
    match *call {
        Call::Exit => {
            exit(world, spaces, process);
            Ok(Attempt::Done(Reply::Done))
        }
        _ => unreachable!(),
    }
}
