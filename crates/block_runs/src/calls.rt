//! The kernel's calls that a block makes, whoever answers them.
ghost use Rattle.std.specs.Prelude.{◌≡◌, None, IfOk, OnErr};
ghost use mathlib.Core.List.{IsPrefix};
ghost use Rattle.vm_script.specs.flat_model.Births.{is_done};
ghost use Rattle.vm_script.specs.vm_types.declared.call.Call.TheVariants.{Fork};
ghost use Rattle.vm_kernel.specs.Callers.{KernelSeen, IsCallerOf};
ghost use Rattle.vm_kernel.specs.Turns.{MayCall, CallerGoesOn, IsCallDone, LacksMemory, HasSeenMore, SeesBirth};
ghost use Rattle.block_runs.specs.Callers.{IsClock, TurnsClock};

use std::alloc::AllocError;
use std::sync::Wait;
use vm_core::Disk;
use vm_kernel::caller::Caller;
use vm_kernel::kernel::VmKernel;
use vm_script::{Call, Reply};

/// A kernel that the callers of all blocks share.
pub trait Calls<D: Disk> {
    ghost kernel: { Self → KernelSeen };

    /// Makes a call to its end.
    fn call<R: Wait>(
        &self,
        rt: &R,
        caller: &mut Caller<D>,
        call: &Call,
    ) -> Result<Reply, AllocError>
        requires caller { IsCallerOf (Self.kernel self.now) caller.old }
        requires may { MayCall (Self.kernel self.now) caller.old call.now }
        // The caller goes on. Its call is done by exactly one entry more, or wants memory.
        ensures caller { IsCallerOf (Self.kernel self.now) caller.new }
        ensures goes { CallerGoesOn caller.old caller.new }
        ensures done { IfOk result (λ reply. IsCallDone caller.old call.now caller.new reply) }
        ensures err { OnErr result (LacksMemory caller.old call.now caller.new) };

    /// The parent forks this child's process.
    fn fork<R: Wait>(
        &self,
        rt: &R,
        parent: &mut Caller<D>,
        child: &mut Caller<D>,
    ) -> Result<Reply, AllocError>
        requires callers { IsCallerOf (Self.kernel self.now) parent.old
            × IsCallerOf (Self.kernel self.now) child.old }
        requires may { MayCall (Self.kernel self.now) parent.old (Fork child.old.process) }
        // The parent goes on. Its call is done by exactly one entry more, or wants memory.
        ensures callers { IsCallerOf (Self.kernel self.now) parent.new
            × IsCallerOf (Self.kernel self.now) child.new }
        ensures goes { CallerGoesOn parent.old parent.new }
        ensures done { IfOk result (λ reply. IsCallDone parent.old (Fork child.old.process)
            parent.new reply) }
        ensures err { OnErr result (LacksMemory parent.old (Fork child.old.process) parent.new) }
        // The child.
        ensures child { IfOk result (λ reply. SeesBirth (is_done reply) parent.new
            child.old child.new) }
        ensures unborn { OnErr result (child.new ≡ child.old) };

    /// The parent has seen what the child has seen.
    fn wait_for(&self, child: &mut Caller<D>, parent: &mut Caller<D>)
        requires callers { IsCallerOf (Self.kernel self.now) child.old
            × IsCallerOf (Self.kernel self.now) parent.old }
        ensures callers { IsCallerOf (Self.kernel self.now) child.new
            × IsCallerOf (Self.kernel self.now) parent.new }
        ensures child { child.new ≡ child.old }
        ensures parent { HasSeenMore parent.old parent.new }
        ensures seen { IsPrefix child.old.seat.seen parent.new.seat.seen };

    /// So many moves of a hand of the clock.
    fn pageout<R: Wait>(&self, rt: &R, caller: &mut Caller<D>, turns: u32)
        requires { IsClock (Self.kernel self.now) caller.old }
        ensures { TurnsClock (Self.kernel self.now) caller.old turns caller.new };
}

impl<D: Disk> Calls<D> for VmKernel<D> {
    ghost kernel = { λ k. k };

    #[inline(always)]
    fn call<R: Wait>(
        &self,
        rt: &R,
        caller: &mut Caller<D>,
        call: &Call,
    ) -> Result<Reply, AllocError> {
        VmKernel::call(self, rt, caller, call)
    }

    fn fork<R: Wait>(
        &self,
        rt: &R,
        parent: &mut Caller<D>,
        child: &mut Caller<D>,
    ) -> Result<Reply, AllocError> {
        VmKernel::fork(self, rt, parent, child)
    }

    fn wait_for(&self, child: &mut Caller<D>, parent: &mut Caller<D>) {
        VmKernel::wait_for(self, child, parent);
    }

    fn pageout<R: Wait>(&self, rt: &R, caller: &mut Caller<D>, turns: u32) {
        VmKernel::pageout(self, rt, caller, turns);
    }
}
