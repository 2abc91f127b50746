//! Marks that rise as a Sync is answered.
ghost use Rattle.std.specs.Prelude.{◌≡◌, ◌≤◌, ◌<◌, ℕ, length, IsSome};
ghost use Rattle.std.specs.FinMap as finite;
ghost use Rattle.mmap_calls.specs.SyncRanges.{IsAliveWith, MayShowParts};
ghost use Rattle.fault_entry.specs.seg_vn.Shown.{IsAtSpot};
ghost use Rattle.fault_entry.specs.vm_world.StateMarks.{marks_risen};
ghost use Rattle.fault_entry.specs.vm_world.FramesFit.{FilesFit};
ghost use Rattle.fault_entry.specs.vm_world.Segments.{Spaces};
ghost use Rattle.fault_entry.specs.vm_world.Words.{memory};
ghost use Rattle.fault_entry.specs.vm_world.World.{file_name, world_seen};
ghost use Rattle.fault_entry.specs.vnode_files.Files.{vnode_at};
ghost use Rattle.fault_entry.specs.vnode_files.Layout.{pages_kept};
ghost use Rattle.fault_entry.specs.vm_types.Pages.{pages_in};
ghost use Rattle.fault_entry.specs.vm_types.declared.call.Call.TheVariants.{Sync};
ghost use Rattle.fault_entry.specs.vm_world.CallSteps.{RaisesPages};
ghost use Rattle.fault_entry.specs.vm_world.MemoryFits.{MemoryFits};
ghost use Rattle.fault_entry.specs.seg_vn.declared.attempt.Attempt.TheVariants.{Done};
ghost use Rattle.fault_entry.specs.vm_types.declared.call.Reply.TheVariants.{Synced};
ghost use Rattle.fault_entry.specs.vm_world.FlatMemory.{Memory};
ghost use Rattle.vm_core.specs.Answered.{MarksAfterAnswer, with_marks};
ghost use Rattle.vm_core.specs.Raises.{IsPageFrom, IsSharedAt, IsSharedIn, Raises};

use crate::state::VmState;
use disk_marks::DiskMarks;
use fault_entry::{Attempt, Disk, Ranges, Reply, VnSeg, World, page_of, pages_in};

/// The mark of a page rises that a file keeps, after so many entries: its block has it, or it is blank.
fn raise_page<D: Disk>(marks: &mut DiskMarks, world: &World<D>, file: u32, page: u32, entries: u32)
    requires file { file < length world.now.files.files }
    requires page { page < pages_kept world.now.files file }
    requires fits { FilesFit world.now.files }
    ensures { marks.new
        ≡ marks_risen (world_seen world.now) marks.old (file_name file page) entries }
{
    let files = &world.files;
    let disk = files.info(file).disk;
    let block = files.block(file, page);
    if files.blank(file, page) {
        marks.raise_blank(disk, block, file, page, entries);
    } else {
        marks.raise(disk, block, entries);
    }
}

/// So do those of a file's pages from one up to another, all below its end.
fn raise_pages<D: Disk>(
    marks: &mut DiskMarks,
    world: &World<D>,
    file: u32,
    from: u32,
    end: u32,
    entries: u32,
)
    requires file { file < length world.now.files.files }
    requires exist { end ≤ pages_in (vnode_at world.now.files file).info.length }
    requires fits { FilesFit world.now.files }
    ensures { Raises (world_seen world.now) (IsPageFrom file from end) entries
        marks.old marks.new }
{
    for page in from..end {
        raise_page(marks, world, file, page, entries);
    }
}

/// So do those of the pages of a file that a shared segment shows at its places from one up to another.
fn raise_places<D: Disk>(
    marks: &mut DiskMarks,
    world: &World<D>,
    segment: &VnSeg,
    from: u32,
    to: u32,
    entries: u32,
)
    requires range { from ≤ to }
    requires within { to ≤ segment.now.pages }
    requires fits { (at : ℕ) × IsAtSpot world.now (segment.now, at) }
    ensures { Raises (world_seen world.now) (IsSharedAt (world_seen world.now) segment.now from to)
        entries marks.old marks.new }
{
    let Some(file) = segment.shared_file() else {
        return;
    };
    let index = segment.index();
    let end = pages_in(world.files.info(file).length).min(index + to);
    raise_pages(marks, world, file, index + from, end, entries);
}

/// So do those of the pages of files that shared mappings show from a page on, up to an end or the end of the piece that has the
/// page. The page at which it stops.
fn raise_piece<D: Disk>(
    marks: &mut DiskMarks,
    world: &World<D>,
    space: &Ranges<VnSeg>,
    page: u32,
    end: u32,
    entries: u32,
) -> u32
    requires range { page < end }
    requires fits { MayShowParts world.now space.now.parts }
    ensures on { page < result }
    ensures within { result ≤ end }
    ensures raises { (spaces : Spaces) (p : ℕ) → IsAliveWith world.now spaces p space.now.parts
        → Raises (world_seen world.now) (IsSharedIn (memory world.now spaces) p page result)
        entries marks.old marks.new }
{
    let Some((begin, pages, segment)) = space.find(page) else {
        return page + 1;
    };
    let to = pages.min(end - begin);
    raise_places(marks, world, segment, page - begin, to, entries);
    begin + to
}

/// The marks rise of the pages of files that shared mappings show from one page up to another, after so many entries. Time: the
/// logarithm of the number of pieces for each piece of the range, and the pages of files that shared ones show.
fn raise_range<D: Disk>(
    marks: &mut DiskMarks,
    world: &World<D>,
    space: &Ranges<VnSeg>,
    first: u32,
    end: u32,
    entries: u32,
)
    requires fits { MayShowParts world.now space.now.parts }
    ensures { (spaces : Spaces) (p : ℕ) → IsAliveWith world.now spaces p space.now.parts
        → Raises (world_seen world.now) (IsSharedIn (memory world.now spaces) p first end)
        entries marks.old marks.new }
{
    let mut page = first;
    while page < end {
        page = raise_piece(marks, world, space, page, end, entries);
    }
}

impl<D: Disk> VmState<D> {
    // Where a Sync of so many bytes from an address on is done, the marks rise of the pages that it wants clean.
    pub(crate) fn raise_answered(&mut self, process: u32, addr: u32, bytes: u32, attempt: &Attempt)
        requires alive { IsSome (finite.get self.old.memory.spaces process) }
        requires fits { (from : ℕ) → attempt.now ≡ Done (Synced from) → MemoryFits self.old.memory }
        ensures marks { (before : Memory) → MarksAfterAnswer before self.new.memory process
            (Sync addr bytes) attempt.now (length self.old.history) self.old.marks self.new.marks }
        // What stays.
        ensures rest { self.new ≡ with_marks self.old self.new.marks }
    {
        if let Attempt::Done(Reply::Synced(_)) = *attempt {
            self.raise_synced(process, addr, bytes);
        }
    }

    // The marks rise of the pages that a Sync wants clean of so many bytes from an address on, to the entries that there are.
    fn raise_synced(&mut self, process: u32, addr: u32, bytes: u32)
        requires alive { IsSome (finite.get self.old.memory.spaces process) }
        requires fits { MemoryFits self.old.memory }
        ensures raises { RaisesPages self.old.memory process (Sync addr bytes)
            (length self.old.history) self.old.marks self.new.marks }
        // What stays.
        ensures rest { self.new ≡ with_marks self.old self.new.marks }
    {
        let Some(space) = self.spaces.get(process) else {
            unreachable!();
        };
        let first = page_of(addr);
        let end = first + pages_in(bytes);
        let entries = self.ledger.length();
        raise_range(&mut self.marks, &self.world, space, first, end, entries);
    }
}
