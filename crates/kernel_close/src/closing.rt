//! Modified pages of files go to their disks, as the kernel is closed: no seat has anything outside.
ghost use Rattle.std.specs.Prelude.{◌≡◌, ◌<◌, false, length, IfErr, OnOk};
ghost use Rattle.std.specs.Bool.{OnTrue};
ghost use Rattle.seg_ops.specs.page_hash.declared.PageName.{PageName};
ghost use Rattle.seg_ops.specs.page_lock.Rows.{row_at};
ghost use Rattle.seg_ops.specs.page_store.Laws.{SameResidence};
ghost use Rattle.seg_ops.specs.page_store.Notes.{no_notes};
ghost use Rattle.seg_ops.specs.page_store.Seen.{IsListedFrame};
ghost use Rattle.seg_ops.specs.Steps.{IsUnwritten};
ghost use Rattle.kernel_close.specs.Closing.{PushesPages, StoresPages, GoOrStay, FailsToPush, no_page};
ghost use Rattle.kernel_close.specs.Finish.{IsFilePage};
ghost use Rattle.seg_ops.specs.vm_world.NotesFit.{NotesFit};
ghost use Rattle.seg_ops.specs.vm_world.Segments.{Spaces};
ghost use Rattle.seg_ops.specs.vm_world.Wants.{IsDirtyPage};
ghost use Rattle.seg_ops.specs.vm_world.Words.{Fits, IsFit, KeepsEveryPage, OnlyStoreAndHat};
ghost use Rattle.seg_ops.specs.vm_world.World.{world_seen};

use seg_ops::{
    Disk, DiskFault, PageName, Residence, World, begin_push, end_flight, pages_in, sync,
};

/// Whether the page in a frame is modified, once the bits of its translations are gathered into it.
fn gather_modified<D: Disk>(world: &mut World<D>, frame: u32) -> bool
    requires frame { frame < length world.old.store.frames }
    requires unlisted { ¬ IsListedFrame world.old.store frame }
    requires fits { IsFit world.old }
    ensures modified { result ≡ (row_at world.new.store.rows frame).modified }
    ensures unwritten { IsUnwritten world.new.hat.places frame }
    // What stays.
    ensures rest { OnlyStoreAndHat world.old world.new }
    ensures stay { SameResidence world.old.store world.new.store }
    ensures keeps { KeepsEveryPage world.old world.new }
{
    sync(world, frame);
    let (_referenced, modified) = world.store.bits(frame);
    modified
}

/// Whether a page of a file is home and modified: its row says so, or one of its translations.
fn is_modified<D: Disk>(world: &mut World<D>, name: PageName) -> bool
    requires page { IsFilePage world.old.files name }
    requires fits { IsFit world.old }
    requires noted { NotesFit (world_seen world.old) no_notes }
    ensures dirty { OnTrue result (IsDirtyPage (world_seen world.new) name) }
    ensures stored { StoresPages (world_seen world.old) (world_seen world.new)
        (λ other. (other ≡ name) × (result ≡ false)) }
    ensures goes { GoOrStay (world_seen world.old) (world_seen world.new) no_page }
    // What stays.
    ensures pushes { (spaces : Spaces) → Fits world.old spaces
        → PushesPages (world_seen world.old) (world_seen world.new) spaces }
{
    let Residence::Home(frame) = world.store.resident(name) else {
        return false;
    };
    if world.store.listed(frame) {
        return false;
    }
    gather_modified(world, frame)
}

/// Pushes a modified page of a file to its block, in one transfer.
fn push_page<D: Disk>(world: &mut World<D>, name: PageName) -> Result<(), DiskFault>
    requires page { IsFilePage world.old.files name }
    requires dirty { IsDirtyPage (world_seen world.old) name }
    requires fits { IsFit world.old }
    requires noted { NotesFit (world_seen world.old) no_notes }
    ensures stored { OnOk result (StoresPages (world_seen world.old) (world_seen world.new)
        (λ other. other ≡ name)) }
    ensures goes { OnOk result (GoOrStay (world_seen world.old) (world_seen world.new) no_page) }
    ensures fault { IfErr result (FailsToPush (world_seen world.old) (world_seen world.new)) }
    // What stays.
    ensures pushes { (spaces : Spaces) → Fits world.old spaces
        → PushesPages (world_seen world.old) (world_seen world.new) spaces }
{
    let mut flight = begin_push(world, 0, name);
    let result = flight.perform();
    let (disk, before, after) = flight.counts();
    end_flight(world, flight);
    match result {
        Ok(()) => Ok(()),
        Err(_) => Err(DiskFault {
            disk,
            before,
            after,
        }),
    }
}

/// Pushes a page of a file where it is home and modified.
fn push_if_modified<D: Disk>(world: &mut World<D>, name: PageName) -> Result<(), DiskFault>
    requires page { IsFilePage world.old.files name }
    requires fits { IsFit world.old }
    requires noted { NotesFit (world_seen world.old) no_notes }
    ensures stored { OnOk result (StoresPages (world_seen world.old) (world_seen world.new)
        (λ other. other ≡ name)) }
    ensures goes { OnOk result (GoOrStay (world_seen world.old) (world_seen world.new) no_page) }
    ensures fault { IfErr result (FailsToPush (world_seen world.old) (world_seen world.new)) }
    // What stays.
    ensures pushes { (spaces : Spaces) → Fits world.old spaces
        → PushesPages (world_seen world.old) (world_seen world.new) spaces }
{
    if is_modified(world, name) {
        push_page(world, name)
    } else {
        Ok(())
    }
}

/// Pushes the modified pages of a file, and stops at the first failure.
fn push_file<D: Disk>(world: &mut World<D>, file: u32) -> Result<(), DiskFault>
    requires file { file < length world.old.files.files }
    requires fits { IsFit world.old }
    requires noted { NotesFit (world_seen world.old) no_notes }
    ensures stored { OnOk result (StoresPages (world_seen world.old) (world_seen world.new)
        (λ other. other.object ≡ file)) }
    ensures goes { OnOk result (GoOrStay (world_seen world.old) (world_seen world.new) no_page) }
    ensures fault { IfErr result (FailsToPush (world_seen world.old) (world_seen world.new)) }
    // What stays.
    ensures pushes { (spaces : Spaces) → Fits world.old spaces
        → PushesPages (world_seen world.old) (world_seen world.new) spaces }
{
    for page in 0..pages_in(world.files.info(file).length) {
        push_if_modified(world, PageName { object: file, page })?;
    }
    Ok(())
}

/// Pushes the modified pages of all files, and stops at the first failure. Takes no memory.
pub(crate) fn push_files<D: Disk>(world: &mut World<D>) -> Result<(), DiskFault>
    requires fits { IsFit world.old }
    requires noted { NotesFit (world_seen world.old) no_notes }
    ensures stored { OnOk result (StoresPages (world_seen world.old) (world_seen world.new)
        (λ other. Unit {0})) }
    ensures goes { OnOk result (GoOrStay (world_seen world.old) (world_seen world.new) no_page) }
    ensures fault { IfErr result (FailsToPush (world_seen world.old) (world_seen world.new)) }
    // What stays.
    ensures pushes { (spaces : Spaces) → Fits world.old spaces
        → PushesPages (world_seen world.old) (world_seen world.new) spaces }
{
    for file in 0..world.files.count() {
        push_file(world, file)?;
    }
    Ok(())
}
