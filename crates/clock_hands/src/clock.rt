//! The two hands of the clock, over a world.
ghost use Rattle.std.specs.Prelude.{◌≡◌, ◌<◌, None, length, IfSome};
ghost use Rattle.seg_ops.specs.vm_world.Plans.{CanRunPlan};
ghost use Rattle.seg_ops.specs.vm_world.Segments.{Spaces};
ghost use Rattle.seg_ops.specs.vm_world.Words.{memory, Fits, IsFit, IsKnown, KeepsEveryPage, OnlyStoreAndHat};
ghost use Rattle.seg_ops.specs.vm_world.World.{world_seen};
ghost use Rattle.clock_hands.specs.Clock.{ClockMoves, GathersUse, FrontClears, BackLooks, plan_in};

use seg_ops::{Disk, Pick, Plan, Wants, World, ask, evict, sync};

/// What the translations of a frame say of its use, its row says then.
fn gather_use<D: Disk>(world: &mut World<D>, frame: u32)
    requires frame { frame < length world.old.store.frames }
    requires fits { IsFit world.old }
    ensures gathers { GathersUse (world_seen world.old) (world_seen world.new) frame }
    ensures rest { OnlyStoreAndHat world.old world.new }
    ensures keeps { KeepsEveryPage world.old world.new }
{
    if !world.store.listed(frame) {
        sync(world, frame);
    }
}

/// The front hand: a page isn't referenced any more.
fn clear_use<D: Disk>(world: &mut World<D>, frame: u32)
    requires frame { frame < length world.old.store.frames }
    requires fits { IsFit world.old }
    ensures clears { FrontClears (world_seen world.old) (world_seen world.new) frame }
    ensures rest { OnlyStoreAndHat world.old world.new }
    ensures keeps { KeepsEveryPage world.old world.new }
{
    gather_use(world, frame);
    world.store.set_used(frame, false);
}

/// The back hand: a page that wasn't used is released, and one that is to be pushed is answered.
fn look<D: Disk>(world: &mut World<D>, frame: u32) -> Option<Plan>
    requires frame { frame < length world.old.store.frames }
    requires fits { IsFit world.old }
    requires noted { IsKnown world.old }
    // What the hand does, and a push that can run.
    ensures looks { BackLooks (world_seen world.old) (world_seen world.new) frame result }
    ensures runs { (spaces : Spaces) → Fits world.old spaces
        → IfSome result (CanRunPlan (memory world.new spaces) None) }
    // What stays.
    ensures rest { OnlyStoreAndHat world.old world.new }
    ensures keeps { KeepsEveryPage world.old world.new }
{
    if world.store.holder(frame).is_some() || world.store.listed(frame) {
        return None;
    }
    gather_use(world, frame);
    let (referenced, modified) = world.store.bits(frame);
    if referenced {
        return None;
    }
    if !modified {
        evict(world, frame);
        return None;
    }
    let Some(name) = world.store.name_of(frame) else {
        unreachable!();
    };
    plan_in(ask(world, Plan::Push(name)))
}

/// The plan that is wanted, where it can begin.
fn plan_in(wants: Wants) -> Option<Plan>
    ensures { result ≡ plan_in wants }
{
    match wants {
        Wants::Transfer(plan) => Some(plan),
        Wants::Seat(_) => None,
    }
}

/// The hand whose turn it is moves.
pub fn turn_hand<D: Disk>(world: &mut World<D>) -> Option<Plan>
    requires fits { IsFit world.old }
    requires noted { IsKnown world.old }
    // What the hand does, and a push that can run.
    ensures moves { ClockMoves (world_seen world.old) (world_seen world.new) result }
    ensures runs { (spaces : Spaces) → Fits world.old spaces
        → IfSome result (CanRunPlan (memory world.new spaces) None) }
    // What stays.
    ensures rest { OnlyStoreAndHat world.old world.new }
    ensures keeps { KeepsEveryPage world.old world.new }
{
    match world.store.clock_turn() {
        Pick::Front(frame) => {
            clear_use(world, frame);
            None
        }
        Pick::Back(frame) => look(world, frame),
    }
}
