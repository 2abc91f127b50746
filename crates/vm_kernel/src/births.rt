//! Forks: a child's caller sees its own birth.
ghost use Rattle.std.specs.Prelude.{◌≡◌, IfOk, OnErr};
ghost use Rattle.vm_core.specs.flat_model.Births.{is_done};
ghost use Rattle.vm_core.specs.vm_types.declared.call.Call.TheVariants.{Fork};
ghost use Rattle.vm_kernel.specs.Callers.{IsCallerOf};
ghost use Rattle.vm_kernel.specs.Tries.{IsAllTo};
ghost use Rattle.vm_kernel.specs.Turns.{MayCall, CallerGoesOn, IsCallDone, LacksMemory, SeesBirth};

use crate::caller::Caller;
use crate::kernel::VmKernel;
use std::alloc::AllocError;
use std::sync::Wait;
use vm_core::{Call, Disk, Reply};

fn is_done(reply: &Reply) -> bool
    ensures { result ≡ is_done reply.now }
{
    match *reply {
        Reply::Done => true,
        _ => false,
    }
}

impl<D: Disk> VmKernel<D> {
    // Where the reply bears the child, its caller sees what the parent has seen.
    fn show_birth(&self, parent: &mut Caller<D>, child: &mut Caller<D>, reply: &Reply)
        requires callers { IsCallerOf self.now parent.old × IsCallerOf self.now child.old }
        ensures callers { IsCallerOf self.now parent.new × IsCallerOf self.now child.new }
        ensures parent { parent.new ≡ parent.old }
        ensures child { SeesBirth (is_done reply.now) parent.old child.old child.new }
    {
        if is_done(reply) {
            self.wait_for(parent, child);
        }
    }

    /// The parent forks this child's process: it makes the call to its end, and where the child is born, the child's caller has seen the
    /// parent's history, its birth among it. Where no child is born, its caller is as it was.
    ///
    /// Takes memory: the call does.
    pub fn fork<R: Wait>(
        &self,
        rt: &R,
        parent: &mut Caller<D>,
        child: &mut Caller<D>,
    ) -> Result<Reply, AllocError>
        requires callers { IsCallerOf self.now parent.old × IsCallerOf self.now child.old }
        requires may { MayCall self.now parent.old (Fork child.old.process) }
        // The parent goes on. Its call is done by exactly one entry more, or wants memory.
        ensures callers { IsCallerOf self.now parent.new × IsCallerOf self.now child.new }
        ensures goes { CallerGoesOn parent.old parent.new }
        ensures done { IfOk result (λ reply. IsCallDone parent.old (Fork child.old.process)
            parent.new reply) }
        ensures err { OnErr result (LacksMemory parent.old (Fork child.old.process) parent.new) }
        // Each try of the lock was for the call.
        ensures all { IsAllTo self.now parent.old (Fork child.old.process) parent.new result }
        // The child.
        ensures child { IfOk result (λ reply. SeesBirth (is_done reply) parent.new
            child.old child.new) }
        ensures unborn { OnErr result (child.new ≡ child.old) }
    {
        let call = Call::Fork {
            child: child.process,
        };
        let reply = self.call(rt, parent, &call)?;
        self.show_birth(parent, child, &reply);
        Ok(reply)
    }
}
