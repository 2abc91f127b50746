//! The kernel for threads: one state behind one lock, shared by reference, and callers that are handed to threads by value.
ghost use Rattle.std.specs.Prelude.{◌≡◌, ◌≢◌, ◌≤◌, ℕ, None, IfOk, OnErr};
ghost use mathlib.Core.List.{IsPrefix};
ghost use Rattle.vm_kernel.specs.Callers.{IsCallerOf};
ghost use Rattle.vm_kernel.specs.Tries.{AreMoves, IsAllFor, IsAllTo, IsMove};
ghost use Rattle.vm_kernel.specs.Turns.{MayCall, CallerGoesOn, MovesHands, IsOneTurn, IsQuick, IsTurn, IsCallDone, LacksMemory, HasSeenMore, HasComeTo, turn_of_ended};

use crate::boxed::BoxedState;
use crate::caller::Caller;
use crate::halves::{access_at, end_at, move_at, turn_at};
use crate::hits::hit_at;
use crate::turn::{Bell, Ended, Quick, Turn, bell_for, reply_of};
use kernel_lock::lock::KernelLock;
use std::alloc::AllocError;
use std::marker::Model;
use std::sync::Wait;
use vm_core::{Call, Disk, Reply};

/// The state of the system behind its lock.
///
/// Contracts see it as the record `LockView` of `kernel_lock`.
pub struct VmKernel<D: Disk> {
    pub(crate) lock: KernelLock<BoxedState<D>>,
}

impl<D: Disk> Model for VmKernel<D> {
    ghost use Rattle.std.specs.Prelude.{◌≤◌, length};
    ghost use Rattle.vm_kernel.specs.Callers.{KernelSeen};
    ghost use Rattle.vm_kernel.specs.CallerCode.{kernel_code};

    ghost Value = { KernelSeen };

    ghost coded = { kernel_code };

    ghost view = { λ k. k.lock };

    ghost invariant = { λ k. k.lock.seats ≤ length k.lock.opening.syncs };
}

impl<D: Disk> VmKernel<D> {
    /// One turn at a call, without waiting: a transfer that is in hand ends, or the call is tried, and a transfer that it needs begins
    /// and is made. Where the lock is held then, the transfer stays in hand.
    ///
    /// Takes memory for Map, Unmap, Protect and Fork alone.
    pub fn turn(&self, caller: &mut Caller<D>, call: &Call) -> Result<Turn, AllocError>
        requires caller { IsCallerOf self.now caller.old }
        requires may { MayCall self.now caller.old call.now }
        ensures caller { IsCallerOf self.now caller.new }
        ensures goes { CallerGoesOn caller.old caller.new }
        // It tries the lock once, or twice round a transfer.
        ensures once { IsOneTurn caller.old caller.new }
        // Done: exactly one entry was added. Again: none, and why.
        ensures turn { IfOk result (λ turn. IsTurn caller.old call.now caller.new turn) }
        ensures err { OnErr result (LacksMemory caller.old call.now caller.new) }
        // Each try of the lock was for the call.
        ensures all { IsAllTo self.now caller.old call.now caller.new result }
    {
        turn_at(
            &self.lock,
            &mut caller.seat,
            caller.process,
            &mut caller.sent,
            call,
        )
    }

    /// One turn at a call, and where another caller holds it up, a rest until that one left the lock, or until somebody's transfer or
    /// call ended. It waits, and takes memory for no more calls than a turn. Not inline, so that a call that goes on has no room for its
    /// values.
    #[inline(never)]
    pub fn turn_and_rest<R: Wait>(
        &self,
        rt: &R,
        caller: &mut Caller<D>,
        call: &Call,
    ) -> Result<Turn, AllocError>
        requires caller { IsCallerOf self.now caller.old }
        requires may { MayCall self.now caller.old call.now }
        ensures caller { IsCallerOf self.now caller.new }
        ensures goes { CallerGoesOn caller.old caller.new }
        // It tries the lock once, or twice round a transfer.
        ensures once { IsOneTurn caller.old caller.new }
        // As of a turn.
        ensures turn { IfOk result (λ turn. IsTurn caller.old call.now caller.new turn) }
        ensures err { OnErr result (LacksMemory caller.old call.now caller.new) }
        // Each try of the lock was for the call.
        ensures all { IsAllTo self.now caller.old call.now caller.new result }
    {
        let leaves = self.lock.leaves();
        let changes = self.lock.changes();
        let files = self.lock.files();
        let turn = self.turn(caller, call)?;
        if let Turn::Again(why) = turn {
            match bell_for(why) {
                None => {}
                // Rest of `is_refused` in the model.
                Some(Bell::Leaves) => self.lock.rest(rt, leaves),
                // Rest of `meets_busy` in the model.
                Some(Bell::Changes) => self.lock.rest_on_change(rt, changes),
                Some(Bell::Files) => {
                    // `wake_one changes` of the model: a change that woke it may let another go on, perhaps the one that has the file.
                    self.lock.pass_on();
                    // Rest of `meets_file_busy` in the model.
                    self.lock.rest_on_files(rt, files);
                }
            }
        }
        Ok(turn)
    }

    /// Makes a call to its end: turns until there is a reply. A load or a store is tried once with an answer of few bytes first.
    #[inline(always)]
    pub fn call<R: Wait>(
        &self,
        rt: &R,
        caller: &mut Caller<D>,
        call: &Call,
    ) -> Result<Reply, AllocError>
        requires caller { IsCallerOf self.now caller.old }
        requires may { MayCall self.now caller.old call.now }
        // The caller goes on. Its call is done by exactly one entry more, or wants memory.
        ensures caller { IsCallerOf self.now caller.new }
        ensures goes { CallerGoesOn caller.old caller.new }
        ensures done { IfOk result (λ reply. IsCallDone caller.old call.now caller.new reply) }
        ensures err { OnErr result (LacksMemory caller.old call.now caller.new) }
        // Each try of the lock was for the call.
        ensures all { IsAllTo self.now caller.old call.now caller.new result }
    {
        match self.hit(caller, call) {
            Quick::Word(word) => Ok(Reply::Word(word)),
            Quick::Stored => Ok(Reply::Done),
            Quick::Signal(signal) => Ok(Reply::Signal(signal)),
            Quick::Later => self.by_turns(rt, caller, call),
        }
    }

    // Inline, so that a hit's code doesn't clear the room for what turns answer.
    #[inline(always)]
    fn by_turns<R: Wait>(
        &self,
        rt: &R,
        caller: &mut Caller<D>,
        call: &Call,
    ) -> Result<Reply, AllocError>
        requires caller { IsCallerOf self.now caller.old }
        requires may { MayCall self.now caller.old call.now }
        // The caller goes on. Its call is done by exactly one entry more, or wants memory.
        ensures caller { IsCallerOf self.now caller.new }
        ensures goes { CallerGoesOn caller.old caller.new }
        ensures done { IfOk result (λ reply. IsCallDone caller.old call.now caller.new reply) }
        ensures err { OnErr result (LacksMemory caller.old call.now caller.new) }
        // Each try of the lock was for the call.
        ensures all { IsAllTo self.now caller.old call.now caller.new result }
    {
        self.call_by_turns(rt, caller, call)
    }

    // One try, before or behind a turn, where the call is a load or a store and nothing is in hand.
    #[inline(always)]
    fn access(&self, caller: &mut Caller<D>, call: &Call) -> Quick
        requires caller { IsCallerOf self.now caller.old }
        requires may { MayCall self.now caller.old call.now }
        ensures caller { IsCallerOf self.now caller.new }
        ensures goes { CallerGoesOn caller.old caller.new }
        ensures quick { IsQuick caller.old call.now caller.new result }
        // Each try of the lock was for the call.
        ensures all { IsAllFor self.now caller.old call.now caller.new }
    {
        if let Call::Load { .. } | Call::Store { .. } = *call {
            if caller.sent.is_none() {
                let quick = access_at(
                    &self.lock,
                    &mut caller.seat,
                    caller.process,
                    &mut caller.sent,
                    call,
                );
                self.pass_on(quick);
                return quick;
            }
        }
        self.untried(caller, call)
    }

    // A load or a store that is done so tells nobody: it passes on the wake-up that its call may have come by: `wake_one changes` of the
    // model.
    #[inline(always)]
    fn pass_on(&self, quick: Quick) {
        match quick {
            Quick::Word(_) | Quick::Stored | Quick::Signal(_) => self.lock.pass_on(),
            Quick::Later => {}
        }
    }

    // The same, but that a hit is looked for first, unless the last load or store was none. Each kind has an arm, so that a hit's code looks
    // at it once.
    #[inline(always)]
    fn hit(&self, caller: &mut Caller<D>, call: &Call) -> Quick
        requires caller { IsCallerOf self.now caller.old }
        requires may { MayCall self.now caller.old call.now }
        ensures caller { IsCallerOf self.now caller.new }
        ensures goes { CallerGoesOn caller.old caller.new }
        ensures quick { IsQuick caller.old call.now caller.new result }
        // Each try of the lock was for the call.
        ensures all { IsAllFor self.now caller.old call.now caller.new }
    {
        if caller.sent.is_some() {
            return self.untried(caller, call);
        }
        if caller.misses {
            caller.misses = false;
            return self.untried(caller, call);
        }
        match *call {
            Call::Load { addr, size } => hit_at(
                &self.lock,
                &mut caller.seat,
                caller.process,
                &mut caller.sent,
                &Call::Load { addr, size },
                call,
            ),
            Call::Store { addr, size, value } => hit_at(
                &self.lock,
                &mut caller.seat,
                caller.process,
                &mut caller.sent,
                &Call::Store { addr, size, value },
                call,
            ),
            _ => self.untried(caller, call),
        }
    }

    // A call that wasn't tried has no reply yet, and its caller is as it was.
    #[inline(always)]
    fn untried(&self, caller: &Caller<D>, call: &Call) -> Quick
        requires may { MayCall self.now caller.now call.now }
        ensures goes { CallerGoesOn caller.now caller.now }
        ensures quick { IsQuick caller.now call.now caller.now result }
        // Each try of the lock was for the call.
        ensures all { IsAllFor self.now caller.now call.now caller.now }
    {
        caller.own_law();
        let _ = call;
        Quick::Later
    }

    // A turn with a transfer in hand, which ends, and where the lock is held a rest until somebody left it.
    #[inline(always)]
    fn end_and_rest<R: Wait>(&self, rt: &R, caller: &mut Caller<D>, call: &Call) -> Ended
        requires caller { IsCallerOf self.now caller.old }
        requires may { MayCall self.now caller.old call.now }
        requires out { caller.old.seat.note ≢ None }
        // The caller goes on, and what the turn comes to.
        ensures caller { IsCallerOf self.now caller.new }
        ensures goes { CallerGoesOn caller.old caller.new }
        ensures turn { IsTurn caller.old call.now caller.new (turn_of_ended result) }
        // Each try of the lock was for the call.
        ensures all { IsAllFor self.now caller.old call.now caller.new }
    {
        caller.misses = true;
        let leaves = self.lock.leaves();
        let ended = end_at(
            &self.lock,
            &mut caller.seat,
            caller.process,
            &mut caller.sent,
            call,
        );
        if let Ended::Held = ended {
            // Rest of `is_refused` in the model.
            self.lock.rest(rt, leaves);
        }
        ended
    }

    // A turn with nothing in hand, whose reply is left in its place. Not inline, so that the end of a transfer has no room for a turn.
    #[inline(never)]
    fn turn_into<R: Wait>(
        &self,
        rt: &R,
        caller: &mut Caller<D>,
        call: &Call,
        reply: &mut Option<Reply>,
    ) -> Result<(), AllocError>
        requires caller { IsCallerOf self.now caller.old }
        requires may { MayCall self.now caller.old call.now }
        requires none { reply.old ≡ None }
        // The caller goes on; and what the call has come to, or that memory lacked.
        ensures caller { IsCallerOf self.now caller.new }
        ensures goes { CallerGoesOn caller.old caller.new }
        ensures turn { IfOk result (λ done. HasComeTo caller.old call.now caller.new reply.new) }
        ensures err { OnErr result (LacksMemory caller.old call.now caller.new) }
        // Each try of the lock was for the call.
        ensures all { IsAllTo self.now caller.old call.now caller.new result }
    {
        match self.turn_and_rest(rt, caller, call)? {
            Turn::Done(done) => {
                *reply = Some(done);
                Ok(())
            }
            Turn::Again(_) => Ok(()),
        }
    }

    // A turn, whose reply is left in its place. What is in hand ends without a value for a whole turn.
    #[inline(always)]
    fn go_on<R: Wait>(
        &self,
        rt: &R,
        caller: &mut Caller<D>,
        call: &Call,
        reply: &mut Option<Reply>,
    ) -> Result<(), AllocError>
        requires caller { IsCallerOf self.now caller.old }
        requires may { MayCall self.now caller.old call.now }
        requires none { reply.old ≡ None }
        // The caller goes on; and what the call has come to, or that memory lacked.
        ensures caller { IsCallerOf self.now caller.new }
        ensures goes { CallerGoesOn caller.old caller.new }
        ensures turn { IfOk result (λ done. HasComeTo caller.old call.now caller.new reply.new) }
        ensures err { OnErr result (LacksMemory caller.old call.now caller.new) }
        // Each try of the lock was for the call.
        ensures all { IsAllTo self.now caller.old call.now caller.new result }
    {
        if caller.is_free() {
            return self.turn_into(rt, caller, call, reply);
        }
        match self.end_and_rest(rt, caller, call) {
            Ended::Failed {
                disk,
                before,
                after,
            } => {
                *reply = Some(Reply::Io {
                    disk,
                    before,
                    after,
                });
                Ok(())
            }
            Ended::Moved => Ok(()),
            Ended::Held => Ok(()),
        }
    }

    // Turns until there is a reply, and before each the one try of a load or a store. Not inline, so that a hit's code has no room for
    // its values.
    #[inline(never)]
    fn call_by_turns<R: Wait>(
        &self,
        rt: &R,
        caller: &mut Caller<D>,
        call: &Call,
    ) -> Result<Reply, AllocError>
        requires caller { IsCallerOf self.now caller.old }
        requires may { MayCall self.now caller.old call.now }
        // The caller goes on. Its call is done by exactly one entry more, or wants memory.
        ensures caller { IsCallerOf self.now caller.new }
        ensures goes { CallerGoesOn caller.old caller.new }
        ensures done { IfOk result (λ reply. IsCallDone caller.old call.now caller.new reply) }
        ensures err { OnErr result (LacksMemory caller.old call.now caller.new) }
        // Each try of the lock was for the call.
        ensures all { IsAllTo self.now caller.old call.now caller.new result }
    {
        caller.own_law();
        let mut reply = None;
        for _ in rt.forever() {
            match self.access(caller, call) {
                Quick::Later => {}
                quick => return Ok(reply_of(quick)),
            }
            self.go_on(rt, caller, call, &mut reply)?;
            match reply {
                Some(reply) => return Ok(reply),
                None => {}
            }
        }
        unreachable!()
    }

    /// The one caller has seen what the other has seen. It takes no memory and waits for nobody.
    pub fn meet(&self, from: &mut Caller<D>, to: &mut Caller<D>)
        requires callers { IsCallerOf self.now from.old × IsCallerOf self.now to.old }
        ensures callers { IsCallerOf self.now from.new × IsCallerOf self.now to.new }
        ensures from { from.new ≡ from.old }
        ensures to { HasSeenMore to.old to.new }
        ensures seen { IsPrefix from.old.seat.seen to.new.seat.seen }
    {
        self.lock.meet(&mut from.seat, &mut to.seat);
    }

    /// The parent has seen what the child has seen. It takes no memory and waits for nobody.
    pub fn wait_for(&self, child: &mut Caller<D>, parent: &mut Caller<D>)
        requires callers { IsCallerOf self.now child.old × IsCallerOf self.now parent.old }
        ensures callers { IsCallerOf self.now child.new × IsCallerOf self.now parent.new }
        ensures child { child.new ≡ child.old }
        ensures parent { HasSeenMore parent.old parent.new }
        ensures seen { IsPrefix child.old.seat.seen parent.new.seat.seen }
    {
        self.meet(child, parent);
    }

    // One move of a hand, with its transfer.
    fn move_hand<R: Wait>(&self, rt: &R, caller: &mut Caller<D>)
        requires caller { IsCallerOf self.now caller.old }
        requires free { caller.old.seat.note ≡ None }
        // The caller goes on with nothing in hand, and made no entry.
        ensures caller { IsCallerOf self.now caller.new }
        ensures goes { CallerGoesOn caller.old caller.new }
        ensures same { caller.new.seat.own ≡ caller.old.seat.own }
        ensures free { caller.new.seat.note ≡ None }
        ensures moves { (pushes : ℕ) × (pushes ≤ 1) × MovesHands caller.old 1 pushes caller.new }
        ensures hand { IsMove self.now caller.old.seat caller.new.seat }
    {
        move_at(
            rt,
            &self.lock,
            &mut caller.seat,
            caller.process,
            &mut caller.sent,
        );
    }

    /// So many moves of a hand of the clock, each with the transfer that it asks for. It adds no entry and takes no memory. It waits.
    pub fn pageout<R: Wait>(&self, rt: &R, caller: &mut Caller<D>, turns: u32)
        requires caller { IsCallerOf self.now caller.old }
        requires free { caller.old.seat.note ≡ None }
        // The caller goes on with nothing in hand, and made no entry.
        ensures caller { IsCallerOf self.now caller.new }
        ensures goes { CallerGoesOn caller.old caller.new }
        ensures same { caller.new.seat.own ≡ caller.old.seat.own }
        ensures free { caller.new.seat.note ≡ None }
        // It left the lock once for each move, and once for each push that a move began.
        ensures moves { (pushes : ℕ) × (pushes ≤ turns)
            × MovesHands caller.old turns pushes caller.new }
        // Each time it moved a hand, or ended the push that the move before asked for.
        ensures all { AreMoves self.now turns caller.old.seat caller.new.seat }
    {
        caller.own_law();
        for _turn in 0..turns {
            self.move_hand(rt, caller);
        }
    }
}
