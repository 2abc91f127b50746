//! The Fork of a process that is alive.
ghost use Rattle.std.specs.Prelude.{◌≡◌, ◌↔◌, ◌≤◌, Some, None, IsSome, IsTrue, IfOk, OnErr, length};
ghost use Rattle.std.specs.FinMap as finite;
ghost use Rattle.std.specs.FinSet as set;
ghost use Rattle.proc_calls.specs.Forks.{IsCountedFork, IsForked};
ghost use Rattle.fault_entry.specs.vm_types.WellFormed.{IsWellFormed};
ghost use Rattle.fault_entry.specs.vm_types.declared.call.Call.TheVariants.{Fork};
ghost use Rattle.fault_entry.specs.vm_world.Events.{IsEvent, CanTry, MayBear};
ghost use Rattle.fault_entry.specs.vm_world.MemoryFits.{MemoryFits};
ghost use Rattle.fault_entry.specs.vm_world.Serving.{ModifiesNone};
ghost use Rattle.fault_entry.specs.vm_world.State.{process_parent};
ghost use Rattle.vm_core.specs.Calls.{AnswersCall, SlotsAfterCall};
ghost use Rattle.vm_core.specs.Fits.{FitsAt};
ghost use Rattle.vm_core.specs.Forks.{after_fork, born_after, starts_after};
ghost use Rattle.vm_core.specs.State.{born_of};

use crate::state::VmState;
use crate::syncs::Syncs;
use fault_entry::{Attempt, Call, Disk, Reply};
use std::alloc::AllocError;

// A child whose Fork is done was ever alive from now on, and its seat keeps no Sync.
fn note_birth(born: &mut Vec<bool>, syncs: &mut Syncs, child: u32, reply: &Reply)
    requires first { 1 ≤ child }
    requires marks { child ≤ length born.old.items }
    requires seats { child ≤ length syncs.old }
    ensures born { born_of born.new.items ≡ born_after (born_of born.old.items) child reply.now }
    ensures syncs { syncs.new ≡ starts_after syncs.old child reply.now }
    // What stays.
    ensures marks { length born.new.items ≡ length born.old.items }
{
    if let Reply::Done = *reply {
        let place = child as usize - 1;
        born[place] = true;
        syncs.set(child - 1, None);
    }
}

// Whether a process's parent by the set-up is this one.
fn is_child(parents: &[u32], process: u32, child: u32) -> bool
    ensures { IsTrue result ↔ (process_parent parents.now child ≡ Some process) }
{
    match child.checked_sub(1) {
        Some(place) if (place as usize) < parents.len() => parents[place as usize] == process,
        _ => false,
    }
}

// Whether a process was ever alive.
fn was_born(born: &[bool], process: u32) -> bool
    ensures { result ≡ set.contains (born_of born.now) process }
{
    match process.checked_sub(1) {
        Some(place) if (place as usize) < born.len() => born[place as usize],
        _ => false,
    }
}

impl<D: Disk> VmState<D> {
    /// Whether a process may fork a child: it is the child's parent, and the child was never alive. Constant time.
    pub fn may_bear(&self, process: u32, child: u32) -> bool
        ensures { IsTrue result ↔ MayBear self.now process (Fork child) }
    {
        is_child(self.parents.as_slice(), process, child) && !was_born(self.born.as_slice(), child)
    }

    // A Fork is done or refused, and its entry made.
    pub(crate) fn fork(
        &mut self,
        seat: u32,
        process: u32,
        child: u32,
        call: &Call,
    ) -> Result<Attempt, AllocError>
        requires fork { call.now ≡ Fork child }
        requires fits { FitsAt self.old seat None }
        requires formed { IsWellFormed call.now }
        requires may { CanTry self.old seat process call.now }
        // It is answered at once, with its entry; the error is want of memory, and nothing changed then.
        ensures answers { IfOk result (λ attempt. AnswersCall self.old self.new seat process
            call.now attempt) }
        ensures slots { IfOk result (λ attempt. SlotsAfterCall self.old.memory
            self.new.memory.world process call.now attempt) }
        ensures event { IsEvent seat self.old None self.new None }
        ensures marks { self.new.marks ≡ self.old.marks }
        ensures err { OnErr result (self.new ≡ self.old) }
    {
        let reply = self.bear(process, child)?;
        Ok(self.conclude(seat, process, call, Attempt::Done(reply)))
    }

    // The reply to a Fork, before its entry is made.
    fn bear(&mut self, process: u32, child: u32) -> Result<Reply, AllocError>
        requires fits { MemoryFits self.old.memory }
        requires alive { IsSome (finite.get self.old.memory.spaces process) }
        requires absent { finite.get self.old.memory.spaces child ≡ None }
        requires number { process_parent self.old.parents child ≡ Some process }
        ensures done { IfOk result (IsForked self.old.memory self.new.memory process child) }
        ensures counted { IfOk result (IsCountedFork self.old.memory
            self.new.memory.world.anon.counts process) }
        ensures modified { ModifiesNone self.old.memory.world self.new.memory.world }
        ensures placed { child ≤ length self.old.syncs }
        // What stays.
        ensures rest { IfOk result (λ reply. self.new
            ≡ after_fork self.old self.new.memory child reply) }
        ensures err { OnErr result (self.new ≡ self.old) }
    {
        let reply = proc_calls::fork(
            &mut self.world,
            &mut self.spaces,
            process,
            child,
            self.alloc,
        )?;
        note_birth(&mut self.born, &mut self.syncs, child, &reply);
        Ok(reply)
    }
}
