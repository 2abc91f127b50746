//! One call of the one process, made on the kernel with the transfers that it needs.
ghost use Rattle.std.specs.Prelude.{◌≡◌, ◌<◌, ℕ, length, Some, None, option_map, IfOk, OnErr};
ghost use Rattle.vm_core.specs.fault_entry.Accesses.{IsAccess};
ghost use Rattle.vm_core.specs.kernel_close.Finish.{FitsStill};
ghost use Rattle.vm_core.specs.Fits.{FitsAt};
ghost use Rattle.vm_core.specs.SeatSteps.{LandsFlight, sent_along};
ghost use Rattle.vm_core.specs.Calls.{TakesMemory};
ghost use Rattle.vm_core.specs.page_store.Flight.{fresh, note_of};
ghost use Rattle.vm_core.specs.vm_world.Events.{IsEvent};
ghost use Rattle.vm_kernel.specs.Turns.{MayCall};
ghost use Rattle.plan_runs.specs.Lines.{alone_caller, alone_kernel, AreOfOne, HasOneMore, GrowsWith};
ghost use Rattle.plan_runs.specs.Transfers.{MakesTransfer};

use std::alloc::AllocError;
use vm_core::{Answer, Attempt, Flight, Plan, VmState};
use volume_files::{Call, Disk, Reply};

/// Makes the transfer of a flight that left for this process and call, and ends it. Inline, and the flight is taken as it leaves, so
/// that it isn't moved on its way.
#[inline(always)]
fn bring_home<D: Disk>(
    mut flight: Flight<D>,
    state: &mut VmState<D>,
    of: Option<(u32, &Call)>,
) -> Option<Reply>
    requires fresh { flight.outcome ≡ fresh }
    requires out { FitsAt state.old 0 (Some (sent_along flight
        (option_map (λ (c : ℕ × _). (c.0, c.1.now)) of))) }
    ensures event { IsEvent 0 state.old (Some (sent_along flight
        (option_map (λ (c : ℕ × _). (c.0, c.1.now)) of.entry))) state.new None }
    ensures lands { LandsFlight state.old state.new 0 (note_of flight)
        (option_map (λ (c : ℕ × _). (c.0, c.1.now)) of.entry) result }
{
    let _ = flight.perform();
    state.end(0, flight, of)
}

/// Makes the transfer of the plan that was answered last. Some, with the device error, where it was for a call and failed. Inline, so
/// that the flight isn't moved.
#[inline(always)]
pub fn transfer<D: Disk>(
    state: &mut VmState<D>,
    plan: Plan,
    of: Option<(u32, &Call)>,
) -> Option<Reply>
    requires still { FitsStill state.old }
    requires kept { state.old.plan ≡ Some (record {
      seat = 0;
      plan = plan;
      of = option_map (λ (c : ℕ × _). (c.0, c.1.now)) of;
    }) }
    ensures event { IsEvent 0 state.old None state.new None }
    ensures grows { GrowsWith (option_map (λ (c : ℕ × _). (c.0, c.1.now)) of.entry) result
        state.old state.new }
    ensures goes { MakesTransfer state.old state.new plan
        (option_map (λ (c : ℕ × _). (c.0, c.1.now)) of.entry) result }
{
    bring_home(state.begin(0, plan), state, of)
}

/// Makes a load or a store of process 1 to its end, over so many frames. It is answered in few bytes, and no reply is moved.
///
/// It ends as `make_other` does.
#[inline(always)]
fn make_access<D: Disk>(state: &mut VmState<D>, frames: u32, call: &Call) -> Reply
    requires access { IsAccess call.now }
    requires frames { length state.old.memory.world.store.frames ≡ frames }
    requires still { FitsStill state.old }
    requires alone { AreOfOne state.old.history }
    requires may { MayCall (alone_kernel state.old) (alone_caller state.old state.old.history)
        call.now }
    // The call's entry is the one that came.
    ensures event { IsEvent 0 state.old None state.new None }
    ensures made { HasOneMore state.old state.new 1 call.now result }
{
    for _round in 0..u64::from(frames) + 3 {
        match state.try_access(0, 1, call) {
            Answer::Word(word) => return Reply::Word(word),
            Answer::Stored => return Reply::Done,
            Answer::Signal(signal) => return Reply::Signal(signal),
            Answer::Need(plan) => {
                if let Some(reply) = transfer(state, plan, Some((1, call))) {
                    return reply;
                }
            }
            Answer::Busy(_) => unreachable!(),
        }
    }
    unreachable!()
}

/// Makes a call of process 1 to its end, over so many frames. The error is want of memory; no entry is made then. Inline, so that a
/// reply that nobody reads isn't moved.
///
/// It ends: each transfer leaves one modified page fewer, or one page fewer that the call wants and that isn't home. These are two
/// pages at most, so that the call is tried so often at most as there are frames, and three times more.
#[inline(always)]
fn make_other<D: Disk>(
    state: &mut VmState<D>,
    frames: u32,
    call: &Call,
) -> Result<Reply, AllocError>
    requires frames { length state.old.memory.world.store.frames ≡ frames }
    requires still { FitsStill state.old }
    requires alone { AreOfOne state.old.history }
    requires may { MayCall (alone_kernel state.old) (alone_caller state.old state.old.history)
        call.now }
    // The call's entry is the one that came.
    ensures event { IsEvent 0 state.old None state.new None }
    ensures made { IfOk result (λ reply. HasOneMore state.old state.new 1 call.now reply) }
    ensures takes { OnErr result (TakesMemory call.now) }
    ensures err { OnErr result (state.new.history ≡ state.old.history) }
{
    for _round in 0..u64::from(frames) + 3 {
        match state.try_call(0, 1, call)? {
            Attempt::Done(reply) => return Ok(reply),
            Attempt::Need(plan) => {
                if let Some(reply) = transfer(state, plan, Some((1, call))) {
                    return Ok(reply);
                }
            }
            Attempt::Busy(_) => unreachable!(),
        }
    }
    unreachable!()
}

/// Makes a call of process 1 to its end, over so many frames. The error is want of memory; no entry is made then. Inline, so that
/// a reply that nobody reads isn't moved.
#[inline(always)]
pub fn make_call<D: Disk>(
    state: &mut VmState<D>,
    frames: u32,
    call: &Call,
) -> Result<Reply, AllocError>
    requires frames { length state.old.memory.world.store.frames ≡ frames }
    requires still { FitsStill state.old }
    requires alone { AreOfOne state.old.history }
    requires may { MayCall (alone_kernel state.old) (alone_caller state.old state.old.history)
        call.now }
    // The call's entry is the one that came.
    ensures event { IsEvent 0 state.old None state.new None }
    ensures made { IfOk result (λ reply. HasOneMore state.old state.new 1 call.now reply) }
    ensures takes { OnErr result (TakesMemory call.now) }
    ensures err { OnErr result (state.new.history ≡ state.old.history) }
{
    if let Call::Load { .. } | Call::Store { .. } = *call {
        return Ok(make_access(state, frames, call));
    }
    make_other(state, frames, call)
}
