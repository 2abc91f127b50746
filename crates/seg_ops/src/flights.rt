//! Transfers that begin: what goes out with a flight.
ghost use Rattle.std.specs.Prelude.{◌≡◌, ◌<◌, ◌≤◌, ℕ, length, Some, IsFalse, IsTrue, IsSome};
ghost use Rattle.page_store.specs.block_device.DiskSeen.{DiskSeen};
ghost use Rattle.vm_world.specs.hat_layer.Pool.{drop_frame};
ghost use Rattle.page_store.specs.page_hash.Names.{find};
ghost use Rattle.page_store.specs.Bays.{bay_at, home};
ghost use Rattle.page_store.specs.Flight.{note_of};
ghost use Rattle.page_store.specs.Layout.{page_place};
ghost use Rattle.page_store.specs.Seen.{IsListedFrame};
ghost use Rattle.page_store.specs.Steps.{next_frame};
ghost use Rattle.page_store.specs.Transfers.{BeginsTransfer, after_begin, frame_out};
ghost use Rattle.page_store.specs.Waits.{plan_page};
ghost use Rattle.vm_world.specs.vnode_files.Files.{vnode_at};
ghost use Rattle.vm_world.specs.vnode_files.Grow.{page_count};
ghost use Rattle.vm_world.specs.vnode_files.Vnode.{block_at, is_blank};
ghost use Rattle.vm_world.specs.Wants.{IsDirtyPage, MayReadIn};
ghost use Rattle.vm_world.specs.Words.{IsFit, KeepsEveryPage, OnlyStoreAndHat, OnlyStoreAndTails, OnlySlotsAndFiles, SameMaps, SameMapsAndTails};
ghost use Rattle.vm_world.specs.World.{world_seen, world_table, file_blocks, is_unpushed, page_exists};
ghost use Rattle.seg_ops.specs.Flights.{CanSend, IsPageReady, IsUnloaded, BeginsFor, store_synced, places_pushed};
ghost use Rattle.seg_ops.specs.Frames.{TakesNextFrame, SendsButNext};
ghost use Rattle.seg_ops.specs.Marks.{files_pushed, slots_pushed};
ghost use Rattle.seg_ops.specs.Steps.{store_gathered};

use crate::rooms::sync;
use crate::tables::add_bits;
use crate::tails::pend_tail;
use page_store::{
    Disk, Flight, PAGE_BYTES, PageName, Place, Plan, Residence, SWAP_DISK, SWAP_OBJECT,
};
use vm_world::{Files, World, bytes_before};

/// Marks a page as pushed: its slot is marked, or it stops being blank in its file.
fn set_pushed<D: Disk>(world: &mut World<D>, name: PageName)
    requires exists { IsTrue (page_exists world.old.files world.old.anon name) }
    requires fits { IsFit world.old }
    ensures files { world.new.files ≡ files_pushed world.old.files name }
    ensures anon { world.new.anon ≡ slots_pushed world.old.anon name }
    // What stays.
    ensures rest { OnlySlotsAndFiles world.old world.new }
{
    if name.object == SWAP_OBJECT {
        world.anon.set_swapped(name.page);
    } else {
        world.files.set_blank(name.object, name.page, false);
    }
}

/// Lets a page that is home and modified count as pushed, before its push begins. No page changes. Constant time.
pub fn mark_pushed<D: Disk>(world: &mut World<D>, name: PageName)
    requires dirty { IsDirtyPage (world_seen world.old) name }
    requires fits { IsFit world.old }
    ensures files { world.new.files ≡ files_pushed world.old.files name }
    ensures anon { world.new.anon ≡ slots_pushed world.old.anon name }
    ensures pushed { IsFalse (is_unpushed world.new.files world.new.anon name) }
    // What stays.
    ensures rest { OnlySlotsAndFiles world.old world.new }
    ensures keeps { KeepsEveryPage world.old world.new }
{
    set_pushed(world, name);
}

/// Drops the translations of a frame. Their bits are in its page then.
fn unload<D: Disk>(world: &mut World<D>, frame: u32)
    requires frame { frame < length world.old.store.frames }
    requires unlisted { ¬ IsListedFrame world.old.store frame }
    requires fits { IsFit world.old }
    ensures store { world.new.store ≡ store_gathered world.old frame }
    ensures places { world.new.hat.places ≡ drop_frame frame world.old.hat.places }
    // What stays.
    ensures rest { OnlyStoreAndHat world.old world.new }
    ensures keeps { KeepsEveryPage world.old world.new }
{
    let told = world.hat.page_unload(frame);
    add_bits(&mut world.store, frame, told);
}

/// Gathers the bits of a page's translations before it is pushed. Where its own frame is to go out, since no other is
/// available, the translations are dropped.
fn gather_for_push<D: Disk>(world: &mut World<D>, frame: u32)
    requires frame { frame < length world.old.store.frames }
    requires unlisted { ¬ IsListedFrame world.old.store frame }
    requires fits { IsFit world.old }
    ensures store { world.new.store ≡ store_gathered world.old frame }
    ensures places { world.new.hat.places
        ≡ places_pushed (next_frame world.old.store) (Some frame) world.old.hat.places }
    // What stays.
    ensures rest { OnlyStoreAndHat world.old world.new }
    ensures keeps { KeepsEveryPage world.old world.new }
{
    if world.store.available() {
        sync(world, frame);
    } else {
        unload(world, frame);
    }
}

/// Makes a modified page ready to be pushed: the bits of its translations are in the page, none leads to a frame that is to
/// go out, and the page counts as pushed.
#[inline(always)]
fn prepare_push<D: Disk>(world: &mut World<D>, name: PageName)
    requires dirty { IsDirtyPage (world_seen world.old) name }
    requires fits { IsFit world.old }
    ensures store { world.new.store ≡ store_synced (world_seen world.old) name }
    ensures places { world.new.hat.places ≡ places_pushed (next_frame world.old.store)
        (find world.old.store.names name) world.old.hat.places }
    ensures files { world.new.files ≡ files_pushed world.old.files name }
    ensures anon { world.new.anon ≡ slots_pushed world.old.anon name }
    ensures ready { CanSend (world_seen world.new) (Plan.Push name) }
    // What stays.
    ensures rest { SameMapsAndTails world.old world.new }
    ensures keeps { KeepsEveryPage world.old world.new }
{
    let Residence::Home(frame) = world.store.resident(name) else {
        unreachable!();
    };
    gather_for_push(world, frame);
    mark_pushed(world, name);
}

/// The page of a plan.
pub(crate) fn plan_page(plan: Plan) -> PageName
    ensures { result ≡ plan_page plan }
{
    match plan {
        Plan::Read(name) => name,
        Plan::Push(name) => name,
    }
}

/// Where a page that its file keeps lives.
fn page_place(files: &Files, file: u32, page: u32) -> Place
    requires file { file < length files.now.files }
    requires page { page < page_count (vnode_at files.now file).info.extents }
    ensures { result ≡ page_place (file_blocks (vnode_at files.now file)) page
        (is_blank (vnode_at files.now file) page)
        (block_at (vnode_at files.now file).info.extents page) }
{
    let info = files.info(file);
    Place {
        disk: info.disk,
        block: files.block(file, page),
        valid: bytes_before(info.length, page),
        blank: files.blank(file, page),
    }
}

/// Where a page that exists lives.
pub(crate) fn world_table<D: Disk>(world: &World<D>, name: PageName) -> Place
    requires exists { IsTrue (page_exists world.now.files world.now.anon name) }
    requires fits { IsFit world.now }
    ensures place { result ≡ world_table (world_seen world.now) name }
    ensures within { (d : DiskSeen) → bay_at world.now.store.bays result.disk ≡ home d
        → result.block < d.size }
    ensures valid { result.valid ≤ 4096 }
{
    if name.object != SWAP_OBJECT {
        return page_place(&world.files, name.object, name.page);
    }
    Place {
        disk: SWAP_DISK,
        block: name.page,
        valid: PAGE_BYTES,
        blank: !world.anon.swapped(name.page),
    }
}

/// A frame and the disk of a plan's page go out with a flight, for this seat.
#[inline(always)]
fn send<D: Disk>(world: &mut World<D>, seat: u32, plan: Plan) -> Flight<D>
    requires can { CanSend (world_seen world.old) plan }
    requires ready { IsPageReady (world_seen world.old) (plan_page plan) }
    requires unloaded { (frame : ℕ) → frame_out plan world.old.store ≡ Some frame
        → IsUnloaded world.old.hat.places frame }
    requires fits { IsFit world.old }
    // The flight, and the store without what went out with it.
    ensures flight { BeginsFor (world_seen world.old) seat plan result }
    ensures store { world.new.store ≡ after_begin plan world.old.store seat
        (world_table (world_seen world.old) (plan_page plan)).disk }
    ensures begins { BeginsTransfer world.old.store world.new.store plan (plan_page plan) result }
    // What the taken frame held.
    ensures taken { TakesNextFrame world.old world.new }
    // What stays.
    ensures rest { OnlyStoreAndTails world.old world.new }
    ensures pages { SendsButNext world.old world.new seat (note_of result) }
{
    let place = world_table(world, plan_page(plan));
    let lost = world.store.next_name();
    let flight = world
        .store
        .begin(seat, plan, place.disk, place.block, place.valid);
    pend_tail(world, lost);
    flight
}

/// Begins the push of a modified page, whose disk is home and that nobody holds; the page counts as pushed from now on. Where
/// a frame is available the push goes from a snapshot: the page stays home, with its translations, and the name that the
/// snapshot's frame held is cut at its valid bytes. Else the page's own frame goes out. Time: the page's translations, the
/// search for its block, and one copy of a page.
#[inline(always)]
pub fn begin_push<D: Disk>(world: &mut World<D>, seat: u32, name: PageName) -> Flight<D>
    requires dirty { IsDirtyPage (world_seen world.old) name }
    requires ready { IsPageReady (world_seen world.old) name }
    requires fits { IsFit world.old }
    // The flight, and the store without what went out with it.
    ensures flight { BeginsFor (world_seen world.old) seat (Plan.Push name) result }
    ensures store { world.new.store ≡ after_begin (Plan.Push name)
        (store_synced (world_seen world.old) name) seat
        (world_table (world_seen world.old) name).disk }
    ensures begins { BeginsTransfer (store_synced (world_seen world.old) name) world.new.store
        (Plan.Push name) name result }
    // The page's translations, and that it counts as pushed.
    ensures places { world.new.hat.places ≡ places_pushed (next_frame world.old.store)
        (find world.old.store.names name) world.old.hat.places }
    ensures files { world.new.files ≡ files_pushed world.old.files name }
    ensures anon { world.new.anon ≡ slots_pushed world.old.anon name }
    ensures pushed { IsFalse (is_unpushed world.new.files world.new.anon name) }
    // What the snapshot's frame held.
    ensures taken { TakesNextFrame world.old world.new }
    // What stays.
    ensures rest { SameMaps world.old world.new }
    ensures pages { SendsButNext world.old world.new seat (note_of result) }
{
    prepare_push(world, name);
    send(world, seat, Plan::Push(name))
}

/// Begins to read in a page that no frame has and that isn't blank, where a frame can be taken and the page's disk is home.
/// The name that the frame held is cut at its valid bytes. Time: constant expected, and the search for the page's block.
#[inline(always)]
pub fn begin_read<D: Disk>(world: &mut World<D>, seat: u32, name: PageName) -> Flight<D>
    requires missing { MayReadIn (world_seen world.old) name }
    requires available { IsSome (next_frame world.old.store) }
    requires ready { IsPageReady (world_seen world.old) name }
    requires fits { IsFit world.old }
    // The flight, and the store without what went out with it.
    ensures flight { BeginsFor (world_seen world.old) seat (Plan.Read name) result }
    ensures store { world.new.store ≡ after_begin (Plan.Read name) world.old.store seat
        (world_table (world_seen world.old) name).disk }
    ensures begins { BeginsTransfer world.old.store world.new.store
        (Plan.Read name) name result }
    // What the taken frame held.
    ensures taken { TakesNextFrame world.old world.new }
    // What stays.
    ensures rest { OnlyStoreAndTails world.old world.new }
    ensures pages { SendsButNext world.old world.new seat (note_of result) }
{
    send(world, seat, Plan::Read(name))
}
