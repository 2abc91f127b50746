//! What entries do to the plain form.
ghost use Rattle.std.specs.Prelude.{◌≡◌, ◌<◌, ◌≤◌, ◌+◌, ◌^◌, ◌↔◌, IsTrue, IsFalse, IsSome, IfOk, OnErr, length};
ghost use Rattle.std.specs.FinSet as set;
ghost use Rattle.flat_model.specs.vm_types.Pages.{line_rest};
ghost use Rattle.flat_model.specs.vm_types.declared.call.Call.TheVariants as call;
ghost use Rattle.flat_model.specs.vm_types.Words.{IsWordSize, FitsWord};
ghost use Rattle.flat_model.specs.vm_types.WellFormed.{IsWellFormed};
ghost use Rattle.flat_model.specs.Flat.{IsFlat, space_of};
ghost use Rattle.flat_state.specs.Mapped.{call_of};
ghost use Rattle.flat_model.specs.Step.{IsDue, IsUnborn, after_act, tails_cleared, IsStep, step};
ghost use Rattle.flat_state.specs.FlatState.{MayStep, is_bit_set_from};

use crate::files::{clear_tail_of, put_last_page};
use crate::map_call::MapCall;
use crate::replies::{is_due, is_due_mapping};
use crate::state::{Access, FlatParts};
use flat_model::{Call, Entry, Errno, Line, Prot, Reply, is_range, page_of, pages_in};
use std::alloc::AllocError;

impl FlatParts {
    // Whether the reply to a load is due.
    fn is_due_load(&self, entry: &Entry, addr: u32, size: u32) -> bool
        requires size { IsWordSize size }
        requires call { entry.now.call ≡ call.Load addr size }
        ensures exact { IsTrue result ↔ IsDue self.now entry.now }
    {
        let may_fail = self.reaches(entry.process, Access::Load, addr, size);
        let due = self.load(entry.process, addr, size);
        is_due(&entry.reply, may_fail, &due)
    }

    // Whether the reply to a store is due.
    fn is_due_store(&self, entry: &Entry, addr: u32, size: u32, value: u32) -> bool
        requires size { IsWordSize size }
        requires call { entry.now.call ≡ call.Store addr size value }
        ensures exact { IsTrue result ↔ IsDue self.now entry.now }
    {
        let may_fail = self.reaches(entry.process, Access::Store, addr, size);
        let due = self.store_reply(entry.process, addr, size, value);
        is_due(&entry.reply, may_fail, &due)
    }

    // Whether the reply to an exit is due.
    fn is_due_exit(&self, entry: &Entry) -> bool
        requires call { entry.now.call ≡ call.Exit }
        ensures exact { IsTrue result ↔ IsDue self.now entry.now }
    {
        is_due(&entry.reply, false, &Reply::Done)
    }

    // Acts as an entry whose call is a store: false, and unchanged, where its reply isn't due.
    fn act_store(
        &mut self,
        entry: &Entry,
        addr: u32,
        size: u32,
        value: u32,
    ) -> Result<bool, AllocError>
        requires size { IsWordSize size }
        requires fits { FitsWord size value }
        requires call { entry.now.call ≡ call.Store addr size value }
        // Whether the reply is due, and flat memory then.
        ensures exact { IfOk result (λ due. IsTrue due ↔ IsDue self.old entry.now) }
        ensures next { IfOk result (λ due. IsTrue due → self.new ≡ after_act self.old entry.now) }
        ensures stays { IfOk result (λ due. IsFalse due → self.new ≡ self.old) }
        ensures err { OnErr result (self.new ≡ self.old) }
    {
        if !self.is_due_store(entry, addr, size, value) {
            return Ok(false);
        }
        if !entry.reply.is_io() {
            self.store(entry.process, addr, size, value)?;
        }
        Ok(true)
    }

    // Acts as an entry whose call is an exit: false, and unchanged, where its reply isn't due.
    fn act_exit(&mut self, entry: &Entry) -> bool
        requires call { entry.now.call ≡ call.Exit }
        ensures exact { IsTrue result ↔ IsDue self.old entry.now }
        ensures next { IsTrue result → self.new ≡ after_act self.old entry.now }
        ensures stays { IsFalse result → self.new ≡ self.old }
    {
        if !self.is_due_exit(entry) {
            return false;
        }
        if !entry.reply.is_io() {
            self.exit(entry.process);
        }
        true
    }

    // Acts as an entry whose call is a Map: false, and unchanged, where its reply isn't due.
    fn act_map(&mut self, entry: &Entry, map: &MapCall) -> Result<bool, AllocError>
        requires alive { IsSome (space_of self.old entry.now.process) }
        requires call { entry.now.call ≡ call_of map.now }
        // Whether the reply is due, and flat memory then.
        ensures exact { IfOk result (λ due. IsTrue due ↔ IsDue self.old entry.now) }
        ensures next { IfOk result (λ due. IsTrue due → self.new ≡ after_act self.old entry.now) }
        ensures stays { IfOk result (λ due. IsFalse due → self.new ≡ self.old) }
        ensures err { OnErr result (self.new ≡ self.old) }
    {
        let mapping = match self.map_result(entry.process, map)? {
            Ok(mapping) => mapping,
            Err(errno) => return Ok(is_due(&entry.reply, false, &Reply::Refused(errno))),
        };
        if !is_due_mapping(&entry.reply, mapping.first) {
            return Ok(false);
        }
        self.spaces = mapping.spaces;
        self.zeros = mapping.zeros;
        Ok(true)
    }

    // Acts as an entry whose call is an Unmap: false, and unchanged, where its reply isn't due.
    fn act_unmap(&mut self, entry: &Entry, addr: u32, length: u32) -> bool
        requires alive { IsSome (space_of self.old entry.now.process) }
        requires call { entry.now.call ≡ call.Unmap addr length }
        ensures exact { IsTrue result ↔ IsDue self.old entry.now }
        ensures next { IsTrue result → self.new ≡ after_act self.old entry.now }
        ensures stays { IsFalse result → self.new ≡ self.old }
    {
        if !is_range(addr, length) {
            return is_due(&entry.reply, false, &Reply::Refused(Errno::Invalid));
        }
        if !is_due(&entry.reply, false, &Reply::Done) {
            return false;
        }
        self.unmap(entry.process, page_of(addr), pages_in(length));
        true
    }

    // Acts as an entry whose call is a Protect: false, and unchanged, where its reply isn't due.
    fn act_protect(&mut self, entry: &Entry, addr: u32, length: u32, prot: Prot) -> bool
        requires alive { IsSome (space_of self.old entry.now.process) }
        requires call { entry.now.call ≡ call.Protect addr length prot }
        ensures exact { IsTrue result ↔ IsDue self.old entry.now }
        ensures next { IsTrue result → self.new ≡ after_act self.old entry.now }
        ensures stays { IsFalse result → self.new ≡ self.old }
    {
        if let Err(errno) = self.protect_result(entry.process, addr, length, prot) {
            return is_due(&entry.reply, false, &Reply::Refused(errno));
        }
        if !is_due(&entry.reply, false, &Reply::Done) {
            return false;
        }
        self.protect(entry.process, page_of(addr), pages_in(length), prot);
        true
    }

    // Whether the reply to a Sync is due.
    fn is_due_sync(&self, entry: &Entry, addr: u32, length: u32) -> bool
        requires alive { IsSome (space_of self.now entry.now.process) }
        requires call { entry.now.call ≡ call.Sync addr length }
        ensures exact { IsTrue result ↔ IsDue self.now entry.now }
    {
        match self.valid_range(entry.process, addr, length) {
            Ok(()) => is_due(&entry.reply, true, &Reply::Synced(0)),
            Err(errno) => is_due(&entry.reply, false, &Reply::Refused(errno)),
        }
    }

    // Whether the reply to a part of a read is due.
    fn is_due_read(&self, entry: &Entry, file: u32, offset: u32, length: u32) -> bool
        requires flat { IsFlat self.now }
        requires call { entry.now.call ≡ call.Read file offset length }
        ensures exact { IsTrue result ↔ IsDue self.now entry.now }
    {
        let Some(file) = self.files.get(file as usize) else {
            return is_due(&entry.reply, false, &Reply::Refused(Errno::NoObject));
        };
        let line = file.read_line(offset, length);
        is_due(&entry.reply, true, &Reply::Bytes(line))
    }

    // Acts as an entry whose call is a part of a write: false, and unchanged, where its reply isn't due.
    fn act_write(
        &mut self,
        entry: &Entry,
        file: u32,
        offset: u32,
        line: &Line,
        rest: u32,
    ) -> Result<bool, AllocError>
        requires flat { IsFlat self.old }
        requires one_line { length line.now ≤ line_rest offset }
        requires call { entry.now.call ≡ call.Write file offset line.now rest }
        // Whether the reply is due, and flat memory then.
        ensures exact { IfOk result (λ due. IsTrue due ↔ IsDue self.old entry.now) }
        ensures next { IfOk result (λ due. IsTrue due → self.new ≡ after_act self.old entry.now) }
        ensures stays { IfOk result (λ due. IsFalse due → self.new ≡ self.old) }
        ensures err { OnErr result (self.new ≡ self.old) }
    {
        let _rest = rest;
        let can_fail = self.writable_file(file).is_ok();
        let end = offset as u64 + line.len() as u64;
        let extents = match self.room_for(file, end)? {
            Ok(extents) => extents,
            Err(errno) => return Ok(is_due(&entry.reply, can_fail, &Reply::Refused(errno))),
        };
        if !is_due(&entry.reply, true, &Reply::Done) {
            return Ok(false);
        }
        if !entry.reply.is_io() {
            self.write_part(file, extents, offset, line)?;
        }
        Ok(true)
    }

    // Acts as an entry whose call is a Truncate: false, and unchanged, where its reply isn't due.
    fn act_truncate(&mut self, entry: &Entry, file: u32, length: u32) -> Result<bool, AllocError>
        requires flat { IsFlat self.old }
        requires call { entry.now.call ≡ call.Truncate file length }
        // Whether the reply is due, and flat memory then.
        ensures exact { IfOk result (λ due. IsTrue due ↔ IsDue self.old entry.now) }
        ensures next { IfOk result (λ due. IsTrue due → self.new ≡ after_act self.old entry.now) }
        ensures stays { IfOk result (λ due. IsFalse due → self.new ≡ self.old) }
        ensures err { OnErr result (self.new ≡ self.old) }
    {
        let can_fail = self.writable_file(file).is_ok();
        let extents = match self.room_for(file, length as u64)? {
            Ok(extents) => extents,
            Err(errno) => return Ok(is_due(&entry.reply, can_fail, &Reply::Refused(errno))),
        };
        if !is_due(&entry.reply, true, &Reply::Done) {
            return Ok(false);
        }
        if !entry.reply.is_io() {
            self.truncate(file, extents, length)?;
        }
        Ok(true)
    }

    // Acts as an entry whose call is a Fork: false, and unchanged, where its reply isn't due.
    fn act_fork(&mut self, entry: &Entry, child: u32) -> Result<bool, AllocError>
        requires alive { IsSome (space_of self.old entry.now.process) }
        requires unborn { IsFalse (set.contains self.old.born child) }
        requires call { entry.now.call ≡ call.Fork child }
        // Whether the reply is due, and flat memory then.
        ensures exact { IfOk result (λ due. IsTrue due ↔ IsDue self.old entry.now) }
        ensures next { IfOk result (λ due. IsTrue due → self.new ≡ after_act self.old entry.now) }
        ensures stays { IfOk result (λ due. IsFalse due → self.new ≡ self.old) }
        ensures err { OnErr result (self.new ≡ self.old) }
    {
        if !self.can_fork(entry.process) {
            return Ok(is_due(&entry.reply, false, &Reply::Refused(Errno::NoSwap)));
        }
        if !is_due(&entry.reply, false, &Reply::Done) {
            return Ok(false);
        }
        self.fork(entry.process, child)?;
        Ok(true)
    }

    // Acts as an entry: false, and unchanged, where its reply isn't due.
    fn act(&mut self, entry: &Entry) -> Result<bool, AllocError>
        requires flat { IsFlat self.old }
        requires alive { IsSome (space_of self.old entry.now.process) }
        requires unborn { IsUnborn self.old entry.now.call }
        requires form { IsWellFormed entry.now.call }
        // Whether the reply is due, and flat memory then.
        ensures exact { IfOk result (λ due. IsTrue due ↔ IsDue self.old entry.now) }
        ensures next { IfOk result (λ due. IsTrue due → self.new ≡ after_act self.old entry.now) }
        ensures stays { IfOk result (λ due. IsFalse due → self.new ≡ self.old) }
        ensures err { OnErr result (self.new ≡ self.old) }
    {
        match entry.call {
            Call::Load { addr, size } => Ok(self.is_due_load(entry, addr, size)),
            Call::Store { addr, size, value } => self.act_store(entry, addr, size, value),
            Call::Map {
                place,
                length,
                prot,
                kind,
                object,
                offset,
            } => {
                let map = MapCall {
                    place,
                    length,
                    prot,
                    kind,
                    object,
                    offset,
                };
                self.act_map(entry, &map)
            }
            Call::Unmap { addr, length } => Ok(self.act_unmap(entry, addr, length)),
            Call::Protect { addr, length, prot } => Ok(self.act_protect(entry, addr, length, prot)),
            Call::Sync { addr, length } => Ok(self.is_due_sync(entry, addr, length)),
            Call::Fork { child } => self.act_fork(entry, child),
            Call::Read {
                file,
                offset,
                length,
            } => Ok(self.is_due_read(entry, file, offset, length)),
            Call::Write {
                file,
                offset,
                bytes,
                rest,
            } => self.act_write(entry, file, offset, &bytes, rest),
            Call::Truncate { file, length } => self.act_truncate(entry, file, length),
            Call::Exit => Ok(self.act_exit(entry)),
        }
    }

    // Whether an entry is a step if its reply is due once its tails are zeros.
    fn may_step(&self, entry: &Entry) -> bool
        ensures { IsTrue result ↔ MayStep self.now entry.now }
    {
        self.spaces.is_alive(entry.process)
            && is_mask(entry.cleared, self.files.len())
            && self.is_unborn(&entry.call)
    }

    // Whether the call makes no child that was ever alive.
    fn is_unborn(&self, call: &Call) -> bool
        ensures { IsTrue result ↔ IsUnborn self.now call.now }
    {
        match *call {
            Call::Fork { child } => !self.born.contains_key(&child),
            Call::Load { .. }
            | Call::Store { .. }
            | Call::Map { .. }
            | Call::Unmap { .. }
            | Call::Protect { .. }
            | Call::Sync { .. }
            | Call::Read { .. }
            | Call::Write { .. }
            | Call::Truncate { .. }
            | Call::Exit => true,
        }
    }

    // Acts as an entry once the tails of those of the files from a number on are zeros whose bits of
    // a mask are set: false, and unchanged, where its reply isn't due then.
    fn act_cleared(&mut self, entry: &Entry, number: usize, mask: u64) -> Result<bool, AllocError>
        requires flat { IsFlat self.old }
        requires alive { IsSome (space_of self.old entry.now.process) }
        requires unborn { IsUnborn self.old entry.now.call }
        requires form { IsWellFormed entry.now.call }
        requires fits { number + mask < 2 ^ 64 }
        // Whether the reply is due, and flat memory then.
        ensures exact { let cleared = tails_cleared self.old (is_bit_set_from number mask) in
            IfOk result (λ due. IsTrue due ↔ IsDue cleared entry.now) }
        ensures next { let cleared = tails_cleared self.old (is_bit_set_from number mask) in
            IfOk result (λ due. IsTrue due → self.new ≡ after_act cleared entry.now) }
        ensures stays { IfOk result (λ due. IsFalse due → self.new ≡ self.old) }
        ensures err { OnErr result (self.new ≡ self.old) }
    {
        if mask == 0 {
            return self.act(entry);
        }
        if mask % 2 == 0 {
            return self.act_cleared(entry, number + 1, mask / 2);
        }
        let last_page = clear_tail_of(&mut self.files, self.alloc, number)?;
        let acts = self.act_cleared(entry, number + 1, mask / 2);
        if !matches!(acts, Ok(true)) {
            put_last_page(&mut self.files, number, last_page);
        }
        acts
    }

    /// One step of flat memory: false, and unchanged, exactly where the entry isn't a step.
    pub(crate) fn step(&mut self, entry: &Entry) -> Result<bool, AllocError>
        requires flat { IsFlat self.old }
        requires form { IsWellFormed entry.now.call }
        // Whether the reply is due, and flat memory then.
        ensures exact { IfOk result (λ is. IsTrue is ↔ IsStep self.old entry.now) }
        ensures next { IfOk result (λ is. IsTrue is → self.new ≡ step self.old entry.now) }
        ensures stays { IfOk result (λ is. IsFalse is → self.new ≡ self.old) }
        ensures err { OnErr result (self.new ≡ self.old) }
    {
        if !self.may_step(entry) {
            return Ok(false);
        }
        self.act_cleared(entry, 0, entry.cleared)
    }
}

// Whether each bit that is set names one of so many files.
fn is_mask(mask: u64, files: usize) -> bool
    ensures { IsTrue result ↔ mask < 2 ^ files }
{
    files >= 64 || mask >> files == 0
}
