//! Loads and stores.
ghost use Rattle.std.specs.Prelude.{◌≡◌, ℕ, List, Option, Some, IsSome, IfSome, IfNone, IsTrue, IsFalse};
ghost use Rattle.std.specs.FinMap as finite;
ghost use Rattle.seg_vn.specs.flat_model.Words.{page};
ghost use Rattle.seg_vn.specs.vm_types.Words.{IsWordSize, FitsWord};
ghost use Rattle.seg_vn.specs.vm_types.declared.call.Call.TheVariants.{Load, Store};
ghost use Rattle.seg_vn.specs.vm_world.Segments as segments;
ghost use Rattle.seg_vn.specs.vm_world.Wants.{accessed_page};
ghost use Rattle.seg_vn.specs.vm_world.Words.{memory, Fits, IsKnown, TwoAreHome};
ghost use Rattle.seg_vn.specs.vm_world.World.{world_seen};
ghost use Rattle.seg_vn.specs.Serves.{Serves};
ghost use Rattle.seg_vn.specs.declared.attempt.Attempt.TheVariants.{Done};
ghost use Rattle.seg_vn.specs.vm_types.declared.call.Reply.TheVariants as reply;
ghost use Rattle.fault_entry.specs.Accesses.{IsAccess, IsFitFor, IsHitWhereDone, IsShownWhereDone, MayBeAnswered, SlotsWhereDone, WordServed, is_store};
ghost use Rattle.fault_entry.specs.Answers.{attempt_of, IsHitAnswer};

use crate::access::{AccessStep, reach, reach_hit};
use crate::answers::Answer;
use seg_vn::{Call, Disk, Ranges, Spaces, VnSeg, World, read, write};

/// A load by a process from its space.
#[inline(always)]
fn load<D: Disk>(
    world: &mut World<D>,
    space: &Ranges<VnSeg>,
    process: u32,
    addr: u32,
    size: u32,
) -> Answer
    requires size { IsWordSize size }
    requires home { TwoAreHome world.old.store }
    requires fits { IsFitFor world.old process space.now.parts }
    requires noted { IsKnown world.old }
    // What is answered.
    ensures serves { WordServed world.old world.new process space.now.parts (page addr)
        (Load addr size) (attempt_of result) }
    // What stays.
    ensures zeros { world.new.zeros ≡ world.old.zeros }
{
    match reach(world, space, process, addr, size, false) {
        AccessStep::Reached(frame) => Answer::Word(read(world, frame, addr, size)),
        AccessStep::Refused(signal) => Answer::Signal(signal),
        AccessStep::Need(plan) => Answer::Need(plan),
        AccessStep::Busy(hold) => Answer::Busy(hold),
    }
}

/// A store by a process to its space.
#[inline(always)]
fn store<D: Disk>(
    world: &mut World<D>,
    space: &Ranges<VnSeg>,
    process: u32,
    addr: u32,
    size: u32,
    value: u32,
) -> Answer
    requires size { IsWordSize size }
    requires word { FitsWord size value }
    requires home { TwoAreHome world.old.store }
    requires fits { IsFitFor world.old process space.now.parts }
    requires noted { IsKnown world.old }
    // What is answered.
    ensures serves { WordServed world.old world.new process space.now.parts (page addr)
        (Store addr size value) (attempt_of result) }
    // What stays.
    ensures zeros { world.new.zeros ≡ world.old.zeros }
{
    match reach(world, space, process, addr, size, true) {
        AccessStep::Reached(frame) => {
            write(world, frame, addr, size, value);
            Answer::Stored
        }
        AccessStep::Refused(signal) => Answer::Signal(signal),
        AccessStep::Need(plan) => Answer::Need(plan),
        AccessStep::Busy(hold) => Answer::Busy(hold),
    }
}

/// What is answered to a load or a store of a process that is alive. Takes no memory and makes no disk call. A hit takes
/// constant expected time beside the look for the segment, which takes the logarithm of their number. Inline, so that a hit makes no
/// call.
#[inline(always)]
pub fn answer<D: Disk>(
    world: &mut World<D>,
    spaces: &mut Spaces,
    process: u32,
    call: &Call,
) -> Answer
    requires access { IsAccess call.now }
    requires alive { IsSome (finite.get spaces.old.spaces process) }
    requires home { TwoAreHome world.old.store }
    requires fits { Fits world.old spaces.old.spaces }
    requires noted { IsKnown world.old }
    // It is done, needs a transfer first, or has to wait; ..
    ensures serves { (calls : List (Option ℕ)) → Serves (memory world.old spaces.old.spaces)
        (memory world.new spaces.old.spaces) world.old.pending world.new.pending calls process
        call.now (attempt_of result) }
    // .. its reply is plain, and it needs or waits only where the protection lets it; and after a word was moved the
    // page has its translation.
    ensures due { MayBeAnswered (memory world.new spaces.old.spaces) process call.now
        (attempt_of result) }
    ensures shown { (q : ℕ) → accessed_page call.now ≡ Some q
        → IsShownWhereDone (memory world.new spaces.old.spaces) process q
        (attempt_of result) }
    // Then a slot was made for the page exactly where one was due, and else none.
    ensures slots { (q : ℕ) → accessed_page call.now ≡ Some q
        → SlotsWhereDone (memory world.old spaces.old.spaces) (world_seen world.new) process
        q (is_store call.now) (attempt_of result) }
    // Where the page had its translation nothing else changed; and one that is loaded lets a store where the page may be
    // written where it is.
    ensures hit { (q : ℕ) → accessed_page call.now ≡ Some q
        → IsHitWhereDone (memory world.old spaces.old.spaces) (world_seen world.new) process
        q (is_store call.now) (attempt_of result) }
    // What stays.
    ensures spaces { spaces.new ≡ spaces.old }
    ensures zeros { world.new.zeros ≡ world.old.zeros }
{
    let Some(space) = spaces.get(process) else {
        unreachable!();
    };
    match *call {
        Call::Load { addr, size } => load(world, space, process, addr, size),
        Call::Store { addr, size, value } => store(world, space, process, addr, size, value),
        _ => unreachable!(),
    }
}

/// A load that is a hit, and its word; none where it is no hit, and nothing changes then.
#[inline(always)]
fn load_hit<D: Disk>(
    world: &mut World<D>,
    space: &Ranges<VnSeg>,
    process: u32,
    addr: u32,
    size: u32,
) -> Option<u32>
    requires size { IsWordSize size }
    requires fits { IsFitFor world.old process space.now.parts }
    ensures serves { IfSome result (λ word. WordServed world.old world.new process space.now.parts
        (page addr) (Load addr size) (Done (reply.Word word))) }
    ensures none { IfNone result (world.new ≡ world.old) }
    // What stays.
    ensures zeros { world.new.zeros ≡ world.old.zeros }
{
    let Some(frame) = reach_hit(world, space, process, addr, size, false) else {
        return None;
    };
    Some(read(world, frame, addr, size))
}

/// Whether a store is a hit: then its word is stored, and else nothing changes.
#[inline(always)]
fn store_hit<D: Disk>(
    world: &mut World<D>,
    space: &Ranges<VnSeg>,
    process: u32,
    addr: u32,
    size: u32,
    value: u32,
) -> bool
    requires size { IsWordSize size }
    requires word { FitsWord size value }
    requires fits { IsFitFor world.old process space.now.parts }
    ensures serves { IsTrue result → WordServed world.old world.new process space.now.parts
        (page addr) (Store addr size value) (Done reply.Done) }
    ensures none { IsFalse result → world.new ≡ world.old }
    // What stays.
    ensures zeros { world.new.zeros ≡ world.old.zeros }
{
    let Some(frame) = reach_hit(world, space, process, addr, size, true) else {
        return false;
    };
    write(world, frame, addr, size, value);
    true
}

/// What is answered to a load or a store that is a hit, as `answer` has it; none where it is no hit, and nothing changes then. Takes
/// no memory and makes no disk call. It takes constant expected time beside the look for the segment, which takes the logarithm of their
/// number.
#[inline(always)]
pub fn answer_hit<D: Disk>(
    world: &mut World<D>,
    spaces: &Spaces,
    process: u32,
    call: &Call,
) -> Option<Answer>
    requires access { IsAccess call.now }
    requires alive { IsSome (finite.get spaces.now.spaces process) }
    requires fits { Fits world.old spaces.now.spaces }
    // It is done; ..
    ensures serves { IfSome result (λ answer. (calls : List (Option ℕ)) → Serves
        (memory world.old spaces.now.spaces) (memory world.new spaces.now.spaces)
        world.old.pending world.new.pending calls process call.now (attempt_of answer)) }
    // .. its reply is a word, or that it is stored; and the page has its translation.
    ensures due { IfSome result (λ answer. IsHitAnswer call.now answer
        × MayBeAnswered (memory world.new spaces.now.spaces) process call.now
        (attempt_of answer)) }
    ensures shown { IfSome result (λ answer. (q : ℕ) → accessed_page call.now ≡ Some q
        → IsShownWhereDone (memory world.new spaces.now.spaces) process q
        (attempt_of answer)) }
    // No slot was due for the page.
    ensures slots { IfSome result (λ answer. (q : ℕ) → accessed_page call.now ≡ Some q
        → SlotsWhereDone (memory world.old spaces.now.spaces) (world_seen world.new) process
        q (is_store call.now) (attempt_of answer)) }
    ensures hit { IfSome result (λ answer. (q : ℕ) → accessed_page call.now ≡ Some q
        → IsHitWhereDone (memory world.old spaces.now.spaces) (world_seen world.new) process
        q (is_store call.now) (attempt_of answer)) }
    ensures none { IfNone result (world.new ≡ world.old) }
    // What stays.
    ensures zeros { world.new.zeros ≡ world.old.zeros }
{
    let Some(space) = spaces.get(process) else {
        unreachable!();
    };
    match *call {
        Call::Load { addr, size } => {
            match load_hit(world, space, process, addr, size) {
                Some(word) => Some(Answer::Word(word)),
                None => None,
            }
        }
        Call::Store { addr, size, value } => {
            if store_hit(world, space, process, addr, size, value) {
                Some(Answer::Stored)
            } else {
                None
            }
        }
        _ => unreachable!(),
    }
}
