//! Calls that are tried.
ghost use Rattle.std.specs.Prelude.{◌≡◌, ◌<◌, ◌≤◌, ℕ, Some, None, length, IfOk, OnErr, IsSome};
ghost use Rattle.std.specs.FinMap as finite;
ghost use Rattle.fault_entry.specs.Accesses.{IsAccess};
ghost use Rattle.fault_entry.specs.Answers.{attempt_of};
ghost use Rattle.fault_entry.specs.page_store.Notes.{Notes};
ghost use Rattle.fault_entry.specs.anon_slots.Slots.{count_at};
ghost use Rattle.fault_entry.specs.flat_model.Told.{entries_of};
ghost use Rattle.fault_entry.specs.page_store.declared.plan.Hold.TheVariants.{File};
ghost use Rattle.fault_entry.specs.seg_vn.declared.attempt.Attempt.TheVariants.{Busy, Done, Need};
ghost use Rattle.mmap_calls.specs.Calls.{ChangesMappings};
ghost use Rattle.proc_calls.specs.Ends as procs;
ghost use Rattle.fault_entry.specs.vm_types.WellFormed.{IsWellFormed};
ghost use Rattle.fault_entry.specs.vm_types.declared.call.Call.TheVariants.{Sync};
ghost use Rattle.fault_entry.specs.vm_world.CallSteps.{StaysAlive};
ghost use Rattle.fault_entry.specs.vm_world.Events.{IsEvent, CanTry};
ghost use Rattle.fault_entry.specs.vm_world.MemoryFits.{MemoryFits};
ghost use Rattle.fault_entry.specs.vm_world.NotesFit.{NotesFit};
ghost use Rattle.fault_entry.specs.vm_world.State.{room_of, seat_of};
ghost use Rattle.file_calls.specs.Locks.{IsAnothers};
ghost use Rattle.vm_core.specs.Answered.{MarksAfterCall, with_marks};
ghost use Rattle.vm_core.specs.Calls.{ConcernsMappings, TakesMemory, AnswersCall, IsOwnReply, IsShownAfterCall, SlotsAfterCall, IsHitAfterCall, with_memory, after_answer};
ghost use Rattle.vm_core.specs.Fits.{FitsAt};
ghost use Rattle.fault_entry.specs.seg_vn.Serves.{Serves};

use crate::kept::{Kept, forget};
use crate::state::VmState;
use fault_entry::{Answer, Attempt, Call, Disk, Plan, Reply};
use std::alloc::AllocError;

impl<D: Disk> VmState<D> {
    /// Tries a call of a process at its seat.
    ///
    /// `Done` adds its entry to the history. `Need` is a transfer that is needed first; `begin` begins it. `Busy` says whom the call
    /// waits for. The error is want of memory, and comes at a call that changes mappings or a Fork alone. A load or a store whose page has
    /// its translation takes constant expected time and no memory; none makes a disk call.
    #[inline(always)]
    pub fn try_call(&mut self, seat: u32, process: u32, call: &Call) -> Result<Attempt, AllocError>
        requires fits { FitsAt self.old seat None }
        requires formed { IsWellFormed call.now }
        requires may { CanTry self.old seat process call.now }
        ensures answers { IfOk result (λ attempt. AnswersCall self.old self.new seat process
            call.now attempt) }
        // Another seat that has the call of its file between two parts is waited for, whatever else is due.
        ensures waits { IfOk result (λ attempt. (t : ℕ)
            → IsAnothers self.old.calls seat call.now t → attempt ≡ Busy (File t)) }
        // The mechanisms are real.
        ensures shown { IfOk result (λ attempt. IsShownAfterCall self.new.memory process
            call.now attempt) }
        ensures slots { IfOk result (λ attempt. SlotsAfterCall self.old.memory
            self.new.memory.world process call.now attempt) }
        ensures hit { IfOk result (λ attempt. IsHitAfterCall self.old.memory
            self.new.memory.world process call.now attempt) }
        ensures event { IsEvent seat self.old None self.new None }
        ensures marks { IfOk result (MarksAfterCall self.old self.new process call.now) }
        // Want of memory comes at a call that changes mappings or a Fork alone, and nothing changed then.
        ensures memory { OnErr result (TakesMemory call.now) }
        ensures err { OnErr result (self.new ≡ self.old) }
    {
        if let Call::Load { .. } | Call::Store { .. } = *call {
            let answer = self.try_access(seat, process, call);
            return Ok(answer.into_attempt());
        }
        self.try_other(seat, process, call)
    }

    /// Tries a load or a store of a process at its seat, as `try_call` does, and answers in few bytes: an `Attempt` has room for the
    /// 64 bytes of a part of a read.
    #[inline(always)]
    pub fn try_access(&mut self, seat: u32, process: u32, call: &Call) -> Answer
        requires access { IsAccess call.now }
        requires fits { FitsAt self.old seat None }
        requires may { CanTry self.old seat process call.now }
        ensures answers { AnswersCall self.old self.new seat process call.now (attempt_of result) }
        // The mechanisms are real.
        ensures shown { IsShownAfterCall self.new.memory process call.now (attempt_of result) }
        ensures slots { SlotsAfterCall self.old.memory self.new.memory.world process call.now
            (attempt_of result) }
        ensures hit { IsHitAfterCall self.old.memory self.new.memory.world process call.now
            (attempt_of result) }
        ensures event { IsEvent seat self.old None self.new None }
        ensures marks { MarksAfterCall self.old self.new process call.now (attempt_of result) }
    {
        let answer = self.access(process, call);
        self.settle(seat, process, call, answer)
    }

    // Tries a call that is neither a load nor a store. Not inline, so that a hit's code has no room for its values.
    #[inline(never)]
    fn try_other(&mut self, seat: u32, process: u32, call: &Call) -> Result<Attempt, AllocError>
        requires other { ¬ IsAccess call.now }
        requires fits { FitsAt self.old seat None }
        requires formed { IsWellFormed call.now }
        requires may { CanTry self.old seat process call.now }
        ensures answers { IfOk result (λ attempt. AnswersCall self.old self.new seat process
            call.now attempt) }
        ensures waits { IfOk result (λ attempt. (t : ℕ)
            → IsAnothers self.old.calls seat call.now t → attempt ≡ Busy (File t)) }
        // The mechanisms are real.
        ensures shown { IfOk result (λ attempt. IsShownAfterCall self.new.memory process
            call.now attempt) }
        ensures slots { IfOk result (λ attempt. SlotsAfterCall self.old.memory
            self.new.memory.world process call.now attempt) }
        ensures hit { IfOk result (λ attempt. IsHitAfterCall self.old.memory
            self.new.memory.world process call.now attempt) }
        ensures event { IsEvent seat self.old None self.new None }
        ensures marks { IfOk result (MarksAfterCall self.old self.new process call.now) }
        // Want of memory comes at a call that changes mappings or a Fork alone, and nothing changed then.
        ensures memory { OnErr result (TakesMemory call.now) }
        ensures err { OnErr result (self.new ≡ self.old) }
    {
        if let Call::Fork { child } = *call {
            return self.fork(seat, process, child, call);
        }
        if let Call::Read { .. } | Call::Write { .. } | Call::Truncate { .. } = *call {
            let attempt = self.serve_file_marked(seat, process, call);
            return Ok(self.conclude(seat, process, call, attempt));
        }
        let attempt = self.serve(seat, process, call)?;
        Ok(self.conclude(seat, process, call, attempt))
    }

    // A load or a store is concluded with what is answered to it. A hit has arms of its own: its reply is known there, so that none is
    // moved but into the entry.
    #[inline(always)]
    fn settle(&mut self, seat: u32, process: u32, call: &Call, answer: Answer) -> Answer
        requires room { length (entries_of self.old.history process)
            < room_of self.old.entries process }
        requires own { seat_of process ≡ seat }
        ensures same { result ≡ answer }
        ensures new { self.new
            ≡ after_answer self.old seat process call.now (attempt_of result) }
        ensures seated { seat < length self.old.syncs }
    {
        match answer {
            Answer::Word(word) => self.conclude_hit(seat, process, call, Reply::Word(word)),
            Answer::Stored => self.conclude_hit(seat, process, call, Reply::Done),
            Answer::Need(plan) => self.conclude_need(seat, process, call, plan),
            other => self.settle_other(seat, process, call, other),
        }
        answer
    }

    // The entry of a load or a store that moved its word is made.
    #[inline(always)]
    fn conclude_hit(&mut self, seat: u32, process: u32, call: &Call, reply: Reply)
        requires room { length (entries_of self.old.history process)
            < room_of self.old.entries process }
        requires own { seat_of process ≡ seat }
        ensures new { self.new ≡ after_answer self.old seat process call.now (Done reply) }
        ensures seated { seat < length self.old.syncs }
    {
        self.seated(seat, process);
        forget(&mut self.plan);
        self.add_here(process, call, &reply);
    }

    // The plan is kept that a load or a store needs, without an attempt, which has room for a part of a read.
    #[inline(always)]
    fn conclude_need(&mut self, seat: u32, process: u32, call: &Call, plan: Plan)
        requires room { length (entries_of self.old.history process)
            < room_of self.old.entries process }
        requires own { seat_of process ≡ seat }
        ensures new { self.new ≡ after_answer self.old seat process call.now (Need plan) }
        ensures seated { seat < length self.old.syncs }
    {
        self.seated(seat, process);
        self.begin_call(seat, call);
        self.plan = Some(Kept {
            seat,
            plan,
            of: Some((process, *call)),
        });
    }

    // A load or a store that has a signal or has to wait is concluded. Not inline, so that a hit's code has no room for an attempt.
    #[inline(never)]
    fn settle_other(&mut self, seat: u32, process: u32, call: &Call, answer: Answer)
        requires room { length (entries_of self.old.history process)
            < room_of self.old.entries process }
        requires own { seat_of process ≡ seat }
        ensures new { self.new
            ≡ after_answer self.old seat process call.now (attempt_of answer) }
        ensures seated { seat < length self.old.syncs }
    {
        let _ = self.conclude(seat, process, call, answer.into_attempt());
    }

    // The entry of a call that is done is made; or the plan is kept that it needs, and where a Sync began. Inline, so that an attempt that is known where it is
    // concluded isn't made first.
    #[inline(always)]
    pub(crate) fn conclude(
        &mut self,
        seat: u32,
        process: u32,
        call: &Call,
        attempt: Attempt,
    ) -> Attempt
        requires room { length (entries_of self.old.history process)
            < room_of self.old.entries process }
        requires own { seat_of process ≡ seat }
        ensures same { result ≡ attempt }
        ensures new { self.new ≡ after_answer self.old seat process call.now result }
        ensures seated { seat < length self.old.syncs }
    {
        self.seated(seat, process);
        forget(&mut self.plan);
        match &attempt {
            Attempt::Done(reply) => self.add(process, call, reply),
            Attempt::Need(plan) => {
                self.begin_call(seat, call);
                self.plan = Some(Kept {
                    seat,
                    plan: *plan,
                    of: Some((process, *call)),
                });
            }
            Attempt::Busy(_) => self.begin_call(seat, call),
        }
        attempt
    }

    // What is answered to a call that concerns mappings, before its entry is made.
    fn serve(&mut self, seat: u32, process: u32, call: &Call) -> Result<Attempt, AllocError>
        requires formed { IsWellFormed call.now }
        requires served { ConcernsMappings call.now }
        requires room { length (entries_of self.old.history process)
            < room_of self.old.entries process }
        requires own { seat_of process ≡ seat }
        requires alive { IsSome (finite.get self.old.memory.spaces process) }
        requires fits { MemoryFits self.old.memory }
        ensures serves { IfOk result (λ attempt. Serves self.old.memory self.new.memory
            self.old.pending self.new.pending self.old.calls process call.now attempt) }
        ensures shown { IfOk result (λ attempt. IsShownAfterCall self.new.memory process
            call.now attempt) }
        ensures slots { IfOk result (λ attempt. SlotsAfterCall self.old.memory
            self.new.memory.world process call.now attempt) }
        ensures hit { IfOk result (λ attempt. IsHitAfterCall self.old.memory
            self.new.memory.world process call.now attempt) }
        ensures own { IfOk result (IsOwnReply self.old process call.now) }
        ensures alive { IfOk result (λ attempt. StaysAlive self.new.memory process call.now) }
        ensures marks { IfOk result (MarksAfterCall self.old self.new process call.now) }
        // What stays.
        ensures rest { self.new ≡ with_marks
            (with_memory self.old self.new.memory self.new.pending) self.new.marks }
        ensures memory { OnErr result (TakesMemory call.now) }
        ensures err { OnErr result (self.new ≡ self.old) }
    {
        match *call {
            Call::Exit => Ok(self.exit(process, call)),
            Call::Sync { addr, length } => Ok(self.sync(seat, process, addr, length)),
            _ => self.map(process, call),
        }
    }

    // What is answered to a load or a store.
    #[inline(always)]
    fn access(&mut self, process: u32, call: &Call) -> Answer
        requires access { IsAccess call.now }
        requires alive { IsSome (finite.get self.old.memory.spaces process) }
        requires fits { MemoryFits self.old.memory }
        requires noted { (notes : Notes) × NotesFit self.old.memory.world notes }
        ensures serves { Serves self.old.memory self.new.memory
            self.old.pending self.new.pending self.old.calls process call.now (attempt_of result) }
        ensures shown { IsShownAfterCall self.new.memory process call.now (attempt_of result) }
        ensures slots { SlotsAfterCall self.old.memory self.new.memory.world process
            call.now (attempt_of result) }
        ensures hit { IsHitAfterCall self.old.memory self.new.memory.world process
            call.now (attempt_of result) }
        ensures own { IsOwnReply self.old process call.now (attempt_of result) }
        ensures alive { StaysAlive self.new.memory process call.now }
        // What stays.
        ensures rest { self.new ≡ with_memory self.old self.new.memory self.new.pending }
    {
        fault_entry::answer(&mut self.world, &mut self.spaces, process, call)
    }

    // What is answered to a call that changes the mappings of a process that goes on.
    fn map(&mut self, process: u32, call: &Call) -> Result<Attempt, AllocError>
        requires formed { IsWellFormed call.now }
        requires served { ChangesMappings call.now }
        requires alive { IsSome (finite.get self.old.memory.spaces process) }
        requires fits { MemoryFits self.old.memory }
        ensures serves { IfOk result (λ attempt. Serves self.old.memory self.new.memory
            self.old.pending self.new.pending self.old.calls process call.now attempt) }
        ensures shown { IfOk result (λ attempt. IsShownAfterCall self.new.memory process
            call.now attempt) }
        ensures slots { IfOk result (λ attempt. SlotsAfterCall self.old.memory
            self.new.memory.world process call.now attempt) }
        ensures hit { IfOk result (λ attempt. IsHitAfterCall self.old.memory
            self.new.memory.world process call.now attempt) }
        ensures own { IfOk result (IsOwnReply self.old process call.now) }
        ensures alive { IfOk result (λ attempt. StaysAlive self.new.memory process call.now) }
        // What stays.
        ensures rest { self.new ≡ with_memory self.old self.new.memory self.new.pending }
        ensures memory { OnErr result (TakesMemory call.now) }
        ensures err { OnErr result (self.new ≡ self.old) }
    {
        let from = u64::from(self.ledger.length());
        mmap_calls::attempt(&mut self.world, &mut self.spaces, process, call, from)
    }

    // What is answered to a Sync of so many bytes from an address on; where it is done, the marks rise of the pages that it wants clean.
    fn sync(&mut self, seat: u32, process: u32, addr: u32, bytes: u32) -> Attempt
        requires room { length (entries_of self.old.history process)
            < room_of self.old.entries process }
        requires own { seat_of process ≡ seat }
        requires alive { IsSome (finite.get self.old.memory.spaces process) }
        requires fits { MemoryFits self.old.memory }
        ensures serves { Serves self.old.memory self.new.memory
            self.old.pending self.new.pending self.old.calls process (Sync addr bytes) result }
        ensures own { IsOwnReply self.old process (Sync addr bytes) result }
        ensures marks { MarksAfterCall self.old self.new process (Sync addr bytes) result }
        // What stays.
        ensures slots { self.new.memory.world.anon ≡ self.old.memory.world.anon }
        ensures spaces { self.new.memory.spaces ≡ self.old.memory.spaces }
        ensures rest { self.new ≡ with_marks
            (with_memory self.old self.new.memory self.new.pending) self.new.marks }
    {
        let attempt = self.clean(seat, process, addr, bytes);
        self.raise_answered(process, addr, bytes, &attempt);
        attempt
    }

    // The same, before a mark rises. It looks first at the page at which the seat's last one stopped.
    fn clean(&mut self, seat: u32, process: u32, addr: u32, bytes: u32) -> Attempt
        requires room { length (entries_of self.old.history process)
            < room_of self.old.entries process }
        requires own { seat_of process ≡ seat }
        requires alive { IsSome (finite.get self.old.memory.spaces process) }
        requires fits { MemoryFits self.old.memory }
        ensures serves { Serves self.old.memory self.new.memory
            self.old.pending self.new.pending self.old.calls process (Sync addr bytes) result }
        ensures own { IsOwnReply self.old process (Sync addr bytes) result }
        // What stays.
        ensures slots { self.new.memory.world.anon ≡ self.old.memory.world.anon }
        ensures spaces { self.new.memory.spaces ≡ self.old.memory.spaces }
        ensures rest { self.new ≡ with_memory self.old self.new.memory self.new.pending }
    {
        self.seated(seat, process);
        let from = self.sync_start(seat, addr, bytes);
        let mut cursor = self.syncs.cursor(seat);
        let attempt = mmap_calls::sync(
            &mut self.world,
            &self.spaces,
            process,
            addr,
            bytes,
            &mut cursor,
            from,
        );
        self.syncs.look_next(seat, cursor);
        attempt
    }

    // What is answered to an Exit.
    fn exit(&mut self, process: u32, call: &Call) -> Attempt
        requires served { procs.IsServedExit call.now }
        requires alive { IsSome (finite.get self.old.memory.spaces process) }
        requires fits { MemoryFits self.old.memory }
        ensures serves { Serves self.old.memory self.new.memory
            self.old.pending self.new.pending self.old.calls process call.now result }
        ensures fall { (slot : ℕ) → count_at self.new.memory.world.anon slot
            ≤ count_at self.old.memory.world.anon slot }
        ensures own { IsOwnReply self.old process call.now result }
        // What stays.
        ensures rest { self.new ≡ with_memory self.old self.new.memory self.new.pending }
    {
        let Ok(attempt) = proc_calls::attempt(&mut self.world, &mut self.spaces, process, call)
        else {
            unreachable!();
        };
        attempt
    }
}
