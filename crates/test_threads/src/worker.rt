//! A caller that goes on with its process: what a test may ask of it at any time.
ghost use Rattle.std.specs.Prelude.{◌≡◌, ◌≤◌, false, Some, IfSome, IsTrue};
ghost use Rattle.kernel_lock.specs.Seats.{newcomer};
ghost use Rattle.vm_core.specs.flat_model.Births.{is_done};
ghost use Rattle.vm_core.specs.vm_types.declared.call.Call.TheVariants.{Fork};
ghost use Rattle.vm_core.specs.vm_world.State.{process_parent, room_of};
ghost use Rattle.vm_kernel.specs.Turns.{IsForCall, MayCall};
ghost use Rattle.test_threads.specs.Workers.{IsTurnCall, IsWorker, IsWorkerAt};

use block_device::Disk;
use std::sync::Wait;
use vm_kernel::caller::Caller;
use vm_kernel::kernel::VmKernel;
use vm_kernel::turn::{Turn, Why};
use vm_types::{Call, Reply};

/// What is told of what a caller was to do.
#[derive(Clone, Copy, PartialEq, Eq)]
pub enum Told {
    /// A turn or a call came to this reply.
    Done(Reply),
    /// A turn came to no reply.
    Again(Why),
    /// There was no memory for it.
    NoMemory,
    /// It was made, and has no answer.
    Made,
    /// The process may not make it: it isn't alive, or has no entry left.
    Barred,
}

/// A caller of a process, with what the process needs from call to call.
#[derive(Drop)]
pub struct Worker<D: Disk> {
    pub caller: Caller<D>,
    pub process: u32,
    /// 0 where it has none.
    pub parent: u32,
    /// How many entries it may still make.
    pub left: u32,
    pub is_alive: bool,
    pub has_forked: bool,
    /// The call that it tried last.
    pub last: Option<Call>,
}

fn is_done(reply: &Reply) -> bool
    ensures { result ≡ is_done reply.now }
{
    match *reply {
        Reply::Done => true,
        _ => false,
    }
}

impl<D: Disk> Worker<D> {
    /// The caller of a process, before its first call.
    pub fn new(
        kernel: &VmKernel<D>,
        caller: Caller<D>,
        process: u32,
        parent: u32,
        entries: u32,
    ) -> Worker<D>
        requires caller { (k : _) × (caller ≡ record {
          seat = newcomer kernel.now k;
          process = process;
        }) }
        requires parent { process_parent kernel.now.opening.parents process ≡ Some parent }
        requires room { entries ≤ room_of kernel.now.opening.entries process }
        ensures works { IsWorker kernel.now result }
        ensures caller { result.caller ≡ caller }
    {
        let _ = kernel;
        Worker {
            caller,
            process,
            parent,
            left: entries,
            is_alive: parent == 0,
            has_forked: false,
            last: None,
        }
    }

    /// The call that is in hand; where none is, this one.
    fn call_in_hand(&self, kernel: &VmKernel<D>, call: &Call) -> Call
        requires works { IsWorker kernel.now self.now }
        requires call { IsTurnCall call.now }
        ensures call { IsTurnCall result }
        ensures hand { IsForCall self.now.process result self.now.caller.seat.note }
    {
        let _ = kernel;
        if self.caller.is_free() {
            return *call;
        }
        match self.last {
            Some(last) => last,
            None => *call,
        }
    }

    /// The call that is made next: the one in hand, or else this one. `None` where the process may make none: it isn't alive, or has no entry left.
    fn next_call(&self, kernel: &VmKernel<D>, call: &Call) -> Option<Call>
        requires works { IsWorker kernel.now self.now }
        requires call { IsTurnCall call.now }
        ensures { IfSome result (λ next. IsTurnCall next
            × MayCall kernel.now self.now.caller next) }
    {
        let next = self.call_in_hand(kernel, call);
        if !self.is_alive || self.left == 0 || !next.is_well_formed() {
            return None;
        }
        Some(next)
    }

    /// One turn at a call, or at the one that is in hand.
    pub fn turn(&mut self, kernel: &VmKernel<D>, call: &Call) -> Told
        requires works { IsWorker kernel.now self.old }
        requires call { IsTurnCall call.now }
        ensures works { IsWorkerAt kernel.now self.old.caller.seat.number self.new }
    {
        let Some(next) = self.next_call(kernel, call) else {
            return Told::Barred;
        };
        self.last = Some(next);
        let Ok(turn) = kernel.turn(&mut self.caller, &next) else {
            return Told::NoMemory;
        };
        match turn {
            Turn::Done(reply) => {
                self.left = self.left.saturating_sub(1);
                Told::Done(reply)
            }
            Turn::Again(why) => Told::Again(why),
        }
    }

    /// The same, and a rest where another caller holds it up.
    pub fn turn_and_rest<R: Wait>(&mut self, rt: &R, kernel: &VmKernel<D>, call: &Call) -> Told
        requires works { IsWorker kernel.now self.old }
        requires call { IsTurnCall call.now }
        ensures works { IsWorkerAt kernel.now self.old.caller.seat.number self.new }
    {
        let Some(next) = self.next_call(kernel, call) else {
            return Told::Barred;
        };
        self.last = Some(next);
        let Ok(turn) = kernel.turn_and_rest(rt, &mut self.caller, &next) else {
            return Told::NoMemory;
        };
        match turn {
            Turn::Done(reply) => {
                self.left = self.left.saturating_sub(1);
                Told::Done(reply)
            }
            Turn::Again(why) => Told::Again(why),
        }
    }

    /// A call, or the one that is in hand, to its end.
    pub fn call<R: Wait>(&mut self, rt: &R, kernel: &VmKernel<D>, call: &Call) -> Told
        requires works { IsWorker kernel.now self.old }
        requires call { IsTurnCall call.now }
        ensures works { IsWorkerAt kernel.now self.old.caller.seat.number self.new }
    {
        let Some(next) = self.next_call(kernel, call) else {
            return Told::Barred;
        };
        self.last = Some(next);
        let Ok(reply) = kernel.call(rt, &mut self.caller, &next) else {
            return Told::NoMemory;
        };
        self.left = self.left.saturating_sub(1);
        Told::Done(reply)
    }

    /// Whether it may fork this child's process: it is alive, has an entry left and nothing in hand, and bore no child yet.
    fn may_fork(&self, kernel: &VmKernel<D>, child: &Worker<D>) -> bool
        requires works { IsWorker kernel.now self.now × IsWorker kernel.now child.now }
        ensures { IsTrue result → (self.now.has_forked ≡ false)
            × MayCall kernel.now self.now.caller (Fork child.now.caller.process) }
    {
        let _ = kernel;
        let call = Call::Fork {
            child: child.process,
        };
        if !self.is_alive || self.left == 0 || self.has_forked || child.parent != self.process {
            return false;
        }
        self.caller.is_free() && call.is_well_formed()
    }

    /// Forks a child's process, where it bore no child yet.
    pub fn fork<R: Wait>(&mut self, rt: &R, kernel: &VmKernel<D>, child: &mut Worker<D>) -> Told
        requires works { IsWorker kernel.now self.old × IsWorker kernel.now child.old }
        ensures works { IsWorkerAt kernel.now self.old.caller.seat.number self.new }
        ensures child { IsWorkerAt kernel.now child.old.caller.seat.number child.new }
    {
        if !self.may_fork(kernel, child) {
            return Told::Barred;
        }
        let Ok(reply) = kernel.fork(rt, &mut self.caller, &mut child.caller) else {
            return Told::NoMemory;
        };
        let is_born = is_done(&reply);
        self.left = self.left.saturating_sub(1);
        self.has_forked = is_born;
        child.is_alive = is_born;
        Told::Done(reply)
    }

    /// It sees what a child has seen.
    pub fn wait_for(&mut self, kernel: &VmKernel<D>, child: &mut Worker<D>)
        requires works { IsWorker kernel.now self.old × IsWorker kernel.now child.old }
        ensures works { IsWorkerAt kernel.now self.old.caller.seat.number self.new }
        ensures child { IsWorkerAt kernel.now child.old.caller.seat.number child.new }
    {
        kernel.wait_for(&mut child.caller, &mut self.caller);
    }
}
