//! Loads and stores that are hits.
ghost use Rattle.std.specs.Prelude.{◌≡◌, ◌<◌, ◌≤◌, ◌-◌, None, IfSome, IfNone, IsSome, length, slice_set};
ghost use Rattle.std.specs.FinMap as finite;
ghost use Rattle.fault_entry.specs.Accesses.{IsAccess};
ghost use Rattle.fault_entry.specs.Answers.{attempt_of, IsHitAnswer};
ghost use Rattle.fault_entry.specs.flat_model.Told.{entries_of};
ghost use Rattle.fault_entry.specs.seg_vn.Serves.{Serves};
ghost use Rattle.fault_entry.specs.seg_vn.declared.attempt.Attempt.TheVariants.{Done};
ghost use Rattle.fault_entry.specs.vm_types.declared.call.Call.TheVariants.{Load, Store};
ghost use Rattle.fault_entry.specs.vm_types.declared.call.Reply.TheVariants as reply;
ghost use Rattle.fault_entry.specs.vm_world.CallSteps.{StaysAlive};
ghost use Rattle.fault_entry.specs.vm_world.Events.{IsEvent, CanTry};
ghost use Rattle.fault_entry.specs.vm_world.MemoryFits.{MemoryFits};
ghost use Rattle.fault_entry.specs.vm_world.State.{room_of, seat_of};
ghost use Rattle.vm_core.specs.Answered.{MarksAfterCall};
ghost use Rattle.vm_core.specs.Calls.{AnswersCall, IsOwnReply, IsShownAfterCall, SlotsAfterCall, IsHitAfterCall, with_memory, after_answer};
ghost use Rattle.vm_core.specs.Fits.{FitsAt};

use crate::kept::forget;
use crate::state::VmState;
use fault_entry::{Answer, Call, Disk, answer_hit};

impl<D: Disk> VmState<D> {
    /// Tries a load or a store of a process at its seat, where its page has its translation: a hit, which `try_access` would answer, too.
    /// None where it is no hit, and then nothing has changed.
    #[inline(always)]
    pub fn try_hit(&mut self, seat: u32, process: u32, call: &Call) -> Option<Answer>
        requires access { IsAccess call.now }
        requires fits { FitsAt self.old seat None }
        requires may { CanTry self.old seat process call.now }
        // A hit: what it answers and leaves, as of any call that is tried.
        ensures answers { IfSome result (λ answer. AnswersCall self.old self.new seat process
            call.now (attempt_of answer)) }
        ensures shown { IfSome result (λ answer. IsShownAfterCall self.new.memory process call.now
            (attempt_of answer)) }
        ensures slots { IfSome result (λ answer. SlotsAfterCall self.old.memory
            self.new.memory.world process call.now (attempt_of answer)) }
        ensures hit { IfSome result (λ answer. IsHitAfterCall self.old.memory
            self.new.memory.world process call.now (attempt_of answer)) }
        ensures event { IfSome result (λ _answer. IsEvent seat self.old None self.new None) }
        ensures marks { IfSome result (λ answer. MarksAfterCall self.old self.new process call.now
            (attempt_of answer)) }
        ensures kind { IfSome result (IsHitAnswer call.now) }
        // No hit.
        ensures none { IfNone result (self.new ≡ self.old) }
    {
        let Some(answer) = self.hit(process, call) else {
            return None;
        };
        self.settle_hit(seat, process, call, answer);
        Some(answer)
    }

    // The entry of a hit is made, in an arm for each kind, so that the entry is made in the history at once.
    #[inline(always)]
    fn settle_hit(&mut self, seat: u32, process: u32, call: &Call, answer: Answer)
        requires kind { IsHitAnswer call.now answer }
        requires room { length (entries_of self.old.history process)
            < room_of self.old.entries process }
        requires own { seat_of process ≡ seat }
        ensures new { self.new
            ≡ after_answer self.old seat process call.now (attempt_of answer) }
        ensures seated { seat < length self.old.syncs }
    {
        match *call {
            Call::Load { addr, size } => {
                let Answer::Word(word) = answer else {
                    unreachable!();
                };
                self.conclude_load(seat, process, addr, size, word);
            }
            Call::Store { addr, size, value } => {
                let _ = answer;
                self.conclude_store(seat, process, addr, size, value);
            }
            _ => unreachable!(),
        }
    }

    // The entry of a load is made.
    #[inline(always)]
    fn conclude_load(&mut self, seat: u32, process: u32, addr: u32, size: u32, word: u32)
        requires room { length (entries_of self.old.history process)
            < room_of self.old.entries process }
        requires own { seat_of process ≡ seat }
        ensures new { self.new
            ≡ after_answer self.old seat process (Load addr size) (Done (reply.Word word)) }
        ensures seated { seat < length self.old.syncs }
    {
        self.seated(seat, process);
        forget(&mut self.plan);
        let cleared = self.world.pending;
        self.ledger.push_load(process, addr, size, word, cleared);
        self.end_hit(process);
    }

    // The entry of a store is made.
    #[inline(always)]
    fn conclude_store(&mut self, seat: u32, process: u32, addr: u32, size: u32, value: u32)
        requires room { length (entries_of self.old.history process)
            < room_of self.old.entries process }
        requires own { seat_of process ≡ seat }
        ensures new { self.new
            ≡ after_answer self.old seat process (Store addr size value) (Done reply.Done) }
        ensures seated { seat < length self.old.syncs }
    {
        self.seated(seat, process);
        forget(&mut self.plan);
        let cleared = self.world.pending;
        self.ledger.push_store(process, addr, size, value, cleared);
        self.end_hit(process);
    }

    // The entry of a hit has taken the pending tails, and no Sync of its process has begun.
    #[inline(always)]
    fn end_hit(&mut self, process: u32)
        requires { (1 ≤ process) × (process ≤ length self.old.syncs) }
        ensures { self.new ≡ record self.old {
          pending = 0;
          syncs = slice_set self.old.syncs (process - 1) None;
        } }
    {
        self.world.pending = 0;
        self.syncs.set(process - 1, None);
    }

    // What a load or a store that is a hit comes to, before its entry is made.
    #[inline(always)]
    fn hit(&mut self, process: u32, call: &Call) -> Option<Answer>
        requires access { IsAccess call.now }
        requires alive { IsSome (finite.get self.old.memory.spaces process) }
        requires fits { MemoryFits self.old.memory }
        ensures serves { IfSome result (λ answer. Serves self.old.memory self.new.memory
            self.old.pending self.new.pending self.old.calls process call.now
            (attempt_of answer)) }
        ensures shown { IfSome result (λ answer. IsShownAfterCall self.new.memory process call.now
            (attempt_of answer)) }
        ensures slots { IfSome result (λ answer. SlotsAfterCall self.old.memory
            self.new.memory.world process call.now (attempt_of answer)) }
        ensures hit { IfSome result (λ answer. IsHitAfterCall self.old.memory
            self.new.memory.world process call.now (attempt_of answer)) }
        ensures own { IfSome result (λ answer. IsOwnReply self.old process call.now
            (attempt_of answer)) }
        ensures alive { IfSome result (λ _answer. StaysAlive self.new.memory process call.now) }
        ensures kind { IfSome result (IsHitAnswer call.now) }
        // No hit.
        ensures none { IfNone result (self.new ≡ self.old) }
        // What stays.
        ensures rest { self.new ≡ with_memory self.old self.new.memory self.new.pending }
    {
        answer_hit(&mut self.world, &self.spaces, process, call)
    }
}
