//! Calls on files that are tried.
ghost use Rattle.std.specs.Prelude.{◌≡◌, ◌↔◌, ◌<◌, ℕ, suc, IsSome, length};
ghost use Rattle.fault_entry.specs.flat_model.Told.{entries_of};
ghost use Rattle.fault_entry.specs.page_store.Notes.{Notes};
ghost use Rattle.fault_entry.specs.page_store.declared.plan.Hold.TheVariants.{File};
ghost use Rattle.fault_entry.specs.seg_vn.Serves.{Serves};
ghost use Rattle.fault_entry.specs.seg_vn.declared.attempt.Attempt.TheVariants.{Busy};
ghost use Rattle.fault_entry.specs.vm_types.Parts.{file_of_call};
ghost use Rattle.fault_entry.specs.vm_types.WellFormed.{IsWellFormed};
ghost use Rattle.fault_entry.specs.vm_world.MemoryFits.{MemoryFits};
ghost use Rattle.fault_entry.specs.vm_world.NotesFit.{NotesFit};
ghost use Rattle.fault_entry.specs.vm_world.State.{room_of};
ghost use Rattle.file_calls.specs.Locks.{IsAnothers, locks_answered};
ghost use Rattle.vm_core.specs.Answered.{HadPages, MarksAfterCall, length_before, marks_cut_from, with_marks};
ghost use Rattle.vm_core.specs.Calls.{IsOwnReply, with_served};

use crate::cuts::cut_marks;
use crate::state::VmState;
use fault_entry::{Attempt, Call, Disk, Reply};

impl<D: Disk> VmState<D> {
    // What is answered to a call on a file, before its entry is made. Whose call of a file is between two parts is as that entry has it.
    pub(crate) fn serve_file(&mut self, seat: u32, process: u32, call: &Call) -> Attempt
        requires file { IsSome (file_of_call call.now) }
        requires formed { IsWellFormed call.now }
        requires fits { MemoryFits self.old.memory }
        requires noted { (notes : Notes) × NotesFit self.old.memory.world notes }
        ensures serves { Serves self.old.memory self.new.memory
            self.old.pending self.new.pending self.old.calls process call.now result }
        ensures waits { (t : ℕ)
            → (result ≡ Busy (File t)) ↔ IsAnothers self.old.calls seat call.now t }
        ensures own { IsOwnReply self.old process call.now result }
        // What stays.
        ensures places { length self.old.calls ≡ 64 }
        ensures slots { self.new.memory.world.anon ≡ self.old.memory.world.anon }
        ensures spaces { self.new.memory.spaces ≡ self.old.memory.spaces }
        ensures rest { self.new ≡ with_served self.old self.new.memory self.new.pending
            (locks_answered seat call.now result self.old.calls) }
    {
        let _ = process;
        file_calls::attempt(&mut self.world, &mut self.calls, seat, call)
    }

    // The same, where the marks are then as the answer leaves them: a Truncate that makes its file shorter takes those of its pages back.
    pub(crate) fn serve_file_marked(&mut self, seat: u32, process: u32, call: &Call) -> Attempt
        requires file { IsSome (file_of_call call.now) }
        requires formed { IsWellFormed call.now }
        requires room { length (entries_of self.old.history process)
            < room_of self.old.entries process }
        requires fits { MemoryFits self.old.memory }
        requires noted { (notes : Notes) × NotesFit self.old.memory.world notes }
        ensures serves { Serves self.old.memory self.new.memory
            self.old.pending self.new.pending self.old.calls process call.now result }
        ensures waits { (t : ℕ)
            → (result ≡ Busy (File t)) ↔ IsAnothers self.old.calls seat call.now t }
        ensures own { IsOwnReply self.old process call.now result }
        ensures marks { MarksAfterCall self.old self.new process call.now result }
        // What stays.
        ensures places { length self.old.calls ≡ 64 }
        ensures slots { self.new.memory.world.anon ≡ self.old.memory.world.anon }
        ensures spaces { self.new.memory.spaces ≡ self.old.memory.spaces }
        ensures rest { self.new ≡ with_marks (with_served self.old self.new.memory
            self.new.pending (locks_answered seat call.now result self.old.calls))
            self.new.marks }
    {
        let before = self.length_before(call);
        let attempt = self.serve_file(seat, process, call);
        self.cut_answered(process, call, &attempt, before);
        attempt
    }

    // How long the file of a Truncate is; 0 where there is none.
    fn length_before(&self, call: &Call) -> u32
        ensures { result ≡ length_before self.now.memory.world.files call.now }
    {
        let Call::Truncate { file, .. } = *call else {
            return 0;
        };
        if file >= self.world.files.count() {
            return 0;
        }
        self.world.files.info(file).length
    }

    // Where a Truncate is done of a file that had so many bytes, and now has fewer, the marks of its pages are as the entry leaves
    // them that comes next.
    fn cut_answered(&mut self, process: u32, call: &Call, attempt: &Attempt, before: u32)
        requires room { length (entries_of self.old.history process)
            < room_of self.old.entries process }
        requires cut { HadPages self.old.memory.world.files call.now attempt.now before }
        ensures { self.new ≡ with_marks self.old (marks_cut_from self.old.memory.world.files
            call.now attempt.now before (suc (length self.old.history)) self.old.marks) }
    {
        let Call::Truncate { file, length } = *call else {
            return;
        };
        let Attempt::Done(Reply::Done) = *attempt else {
            return;
        };
        if length < before {
            let entries = self.ledger.next(process);
            cut_marks(
                &mut self.marks,
                &self.world.files,
                file,
                before,
                length,
                entries,
            );
        }
    }
}
