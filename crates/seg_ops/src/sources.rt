//! The page from which a copy is made: room for the copy, which may get the page's own frame, and the bytes that it gets.
ghost use Rattle.std.specs.Prelude.{◌≡◌, ◌≢◌, ◌↔◌, ℕ, false, None, IsSome, IsTrue, IfSome};
ghost use Rattle.page_store.specs.page_hash.Names.{is_name};
ghost use Rattle.page_store.specs.page_lock.Rows.{row_at};
ghost use Rattle.page_store.specs.Seen.{IsListedFrame, residence};
ghost use Rattle.page_store.specs.Steps.{next_name};
ghost use Rattle.vm_world.specs.Words.{IsFit, IsKnown, OneIsHomeBeside};
ghost use Rattle.vm_world.specs.World.{world_seen};
ghost use Rattle.seg_ops.specs.Copies.{CanBeSpared, IsDiskHome, IsFront, IsKnownLater, bytes_kept, copied_bytes};
ghost use Rattle.seg_ops.specs.Rooms.{HasRoomUnless, MakesRoom, SameLists};
ghost use Rattle.seg_ops.specs.Steps.{IsUnwritten};

use crate::flights::world_table;
use crate::plans::disk_of;
use crate::rooms::{evict, make_room_beside, was_used};
use page_store::{Disk, PAGE_BYTES, PageName, Plan, Residence, Store};
use vm_world::World;

/// Whether the disk is home that a page lives on, which is home itself.
fn is_disk_home<D: Disk>(world: &World<D>, name: PageName) -> bool
    requires home { (frame : ℕ) × (residence world.now.store name ≡ Residence.Home frame) }
    requires fits { IsFit world.now }
    ensures { IsTrue result ↔ IsDiskHome (world_seen world.now) name }
{
    let disk = disk_of(world, name);
    world.store.ready(&Plan::Read(name), disk).is_none()
}

/// Whether a page that is home can be spared, as the bits say that are gathered into it.
fn can_be_spared<D: Disk>(world: &mut World<D>, name: PageName, frame: u32) -> bool
    requires home { residence world.old.store name ≡ Residence.Home frame }
    requires unlisted { ¬ IsListedFrame world.old.store frame }
    requires fits { IsFit world.old }
    ensures spared { IsTrue result ↔ CanBeSpared (world_seen world.old) name frame }
    ensures clean { IsTrue result → (row_at world.new.store.rows frame).modified ≡ false }
    ensures unwritten { IsUnwritten world.new.hat.places frame }
    // What stays.
    ensures lists { SameLists world.old.store world.new.store }
    ensures makes { MakesRoom world.old world.new }
{
    if was_used(world, frame) {
        return false;
    }
    let (_, modified) = world.store.bits(frame);
    if modified {
        return false;
    }
    is_disk_home(world, name)
}

/// Makes room for a copy of a page that is home, as `make_room_beside`; and where a modified page would have to be pushed for it, this one
/// gives up its own frame, if it can be spared. Time: as `make_room_beside`.
pub fn make_room_for_copy<D: Disk>(
    world: &mut World<D>,
    name: PageName,
    frame: u32,
) -> Option<PageName>
    requires source { residence world.old.store name ≡ Residence.Home frame }
    requires unlisted { ¬ IsListedFrame world.old.store frame }
    requires home { OneIsHomeBeside world.old.store frame }
    requires fits { IsFit world.old }
    requires noted { IsKnown world.old }
    // A frame can be taken, and what the page has once it is taken is known.
    ensures room { HasRoomUnless world.new result }
    ensures known { result ≡ None → IsKnownLater (world_seen world.new) name frame }
    // Another page is to be pushed only where this one can't be spared; this one is on no list then.
    ensures spared { IsSome result → ¬ CanBeSpared (world_seen world.old) name frame }
    ensures kept { IsSome result → ¬ IsListedFrame world.new.store frame }
    ensures pushed { IfSome result
        (λ victim. residence world.old.store victim ≢ Residence.Home frame) }
    // What stays.
    ensures makes { MakesRoom world.old world.new }
{
    if world.store.available() {
        return None;
    }
    let spared = can_be_spared(world, name, frame);
    let Some(victim) = make_room_beside(world, frame) else {
        return None;
    };
    if !spared {
        return Some(victim);
    }
    evict(world, frame);
    None
}

/// Whether the next frame that is taken is the one of this page.
fn is_next<D: Disk>(store: &Store<D>, name: PageName) -> bool
    ensures { result ≡ is_name (next_name store.now) name }
{
    match store.next_name() {
        Some(held) => held.object == name.object && held.page == name.page,
        None => false,
    }
}

/// The bytes of a page that is copied: the first `valid` ones of a frame that is home, and zeros after them.
#[derive(Clone, Copy, PartialEq, Eq, Debug)]
pub struct Front {
    pub frame: u32,
    pub valid: u32,
}

/// The bytes of a page that is home in a frame, as the page has them once the next frame is taken: where that is its own, those past its
/// object's end are zeros. Constant time, but for the search for its block where the next frame is its own.
pub fn front_kept<D: Disk>(world: &World<D>, name: PageName, frame: u32) -> Front
    requires home { residence world.now.store name ≡ Residence.Home frame }
    requires fits { IsFit world.now }
    ensures bytes { copied_bytes world.now.store result ≡ bytes_kept (world_seen world.now) name }
    ensures front { IsFront world.now.store result }
{
    if is_next(&world.store, name) {
        let valid = world_table(world, name).valid;
        return Front { frame, valid };
    }
    let valid = PAGE_BYTES;
    Front { frame, valid }
}
