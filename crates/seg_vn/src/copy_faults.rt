//! Stores to private pages that aren't their cell's alone: the cell gets a page of its own.
ghost use Rattle.std.specs.Prelude.{◌≡◌, ◌<◌, Option, true, Some, None, IsSome, IsTrue, IfSome};
ghost use Rattle.seg_ops.specs.core_arena.Bytes.{zeros};
ghost use Rattle.seg_ops.specs.hat_layer.Pool.{translation_at};
ghost use Rattle.seg_ops.specs.page_hash.declared.PageName.{PageName};
ghost use Rattle.seg_ops.specs.page_store.Seen.{residence};
ghost use Rattle.seg_ops.specs.page_store.Steps.{next_frame, next_name};
ghost use Rattle.seg_ops.specs.vm_world.Segments.{Spaces};
ghost use Rattle.seg_ops.specs.vm_world.Serving.{ModifiesNone};
ghost use Rattle.seg_ops.specs.vm_world.Words.{memory, Fits, IsFit, IsKnown, OneIsHome, OneIsHomeBeside, TwoAreHome, OnlyFrames, SameFiles, SameFilesAndHat};
ghost use Rattle.seg_ops.specs.vm_world.World.{world_seen, is_unpushed, page_exists};
ghost use Rattle.seg_vn.specs.FaultPlaces.{IsOwnPlace, ShowsZeros, TakesNext, IsOwnSpot, GivesOwn, ServesCopy, IsCopiedSlot, IsSharedSlot, IsSharedBlank};
ghost use Rattle.seg_ops.specs.Copies.{IsFront, KeepsBytes, copied_bytes};
ghost use Rattle.seg_ops.specs.Owners.{IsOwned};
ghost use Rattle.seg_ops.specs.Rooms.{KeepsAbsent};

use crate::segment::load_page;
use home_pages::is_unpushed;
use seg_ops::{
    Disk, Fault, Front, Hold, PageName, Plan, Residence, SWAP_OBJECT, Wants, World, ask, copy_slot,
    drop_translation, fetch, free_next, front_kept, make_copy, make_room, make_room_for_copy,
    make_zero, take_back, zero_slot,
};

/// A place of the anon map of a private mapping, and the slot that it holds, if it holds one.
#[derive(Clone, Copy)]
pub(crate) struct OwnPlace {
    pub(crate) map: u32,
    pub(crate) place: u32,
    pub(crate) slot: Option<u32>,
}

/// Makes a slot for a place of a private mapping, with the bytes of the page that it shows, in a frame that is free.
fn copy_into<D: Disk>(world: &mut World<D>, front: Front, own: OwnPlace) -> u32
    requires own { IsOwnPlace world.old.maps own }
    requires shared { IfSome own.slot
        (IsCopiedSlot world.old (copied_bytes world.old.store front)) }
    requires front { IsFront world.old.store front }
    requires available { IsSome (next_frame world.old.store) }
    requires owned { IsOwned world.old own.map own.place }
    ensures own { GivesOwn world.old world.new own (copied_bytes world.old.store front) result }
    // What stays.
    ensures rest { SameFilesAndHat world.old world.new }
{
    match own.slot {
        None => make_copy(world, front, own.map, own.place),
        Some(held) => copy_slot(world, front, own.map, own.place, held),
    }
}

/// Makes a slot for a place of a private mapping that shows zeros, in a frame that is free.
fn zeros_into<D: Disk>(world: &mut World<D>, own: OwnPlace) -> u32
    requires own { IsOwnPlace world.old.maps own }
    requires shared { IfSome own.slot (IsSharedBlank world.old) }
    requires available { IsSome (next_frame world.old.store) }
    requires owned { IsOwned world.old own.map own.place }
    ensures own { GivesOwn world.old world.new own zeros result }
    // What stays.
    ensures rest { SameFilesAndHat world.old world.new }
{
    match own.slot {
        None => make_zero(world, own.map, own.place),
        Some(held) => zero_slot(world, own.map, own.place, held),
    }
}

/// Drops the translation of a page, and frees the frame that is taken next.
fn clear_way<D: Disk>(world: &mut World<D>, space: u32, page: u32)
    requires available { IsSome (next_frame world.old.store) }
    requires fits { IsFit world.old }
    ensures gone { translation_at world.new.hat.places space page ≡ None }
    ensures available { IsSome (next_frame world.new.store) }
    ensures free { next_name world.new.store ≡ None }
    ensures takes { (spaces : Spaces) → Fits world.old spaces
        → TakesNext (memory world.old spaces) (world_seen world.new) world.old.pending
        world.new.pending }
    ensures bytes { IsKnown world.old → KeepsBytes world.old world.new }
    // What stays.
    ensures frames { world.new.store.frames ≡ world.old.store.frames }
    ensures absent { KeepsAbsent world.old.store world.new.store }
    ensures modified { ModifiesNone (world_seen world.old) (world_seen world.new) }
    ensures rest { OnlyFrames world.old world.new }
{
    drop_translation(world, space, page);
    free_next(world);
}

/// A private page that shows zeros gets a page of zeros of its own, and its translation.
pub(crate) fn own_zeros<D: Disk>(
    world: &mut World<D>,
    space: u32,
    page: u32,
    own: OwnPlace,
) -> Result<Fault, Wants>
    requires own { IsOwnPlace world.old.maps own }
    requires shared { IfSome own.slot (IsSharedBlank world.old) }
    requires home { OneIsHome world.old.store }
    requires fits { IsOwnSpot world.old space page own }
    requires noted { IsKnown world.old }
    ensures serves { (shown : Option PageName) → ShowsZeros (world_seen world.old) shown
        → ServesCopy world.old world.new space page own shown result }
    // What stays.
    ensures rest { SameFiles world.old world.new }
{
    if let Some(victim) = make_room(world) {
        return Err(ask(world, Plan::Push(victim)));
    }
    clear_way(world, space, page);
    let slot = zeros_into(world, own);
    let object = SWAP_OBJECT;
    load_page(world, space, page, PageName { object, page: slot }, true);
    Ok(Fault::Loaded)
}

/// A private page that shows a page which is home gets a copy of its own, and its translation. The copy gets that page's frame,
/// if it can be spared, where a modified page would have to be pushed first.
fn copy_page<D: Disk>(
    world: &mut World<D>,
    space: u32,
    page: u32,
    name: PageName,
    frame: u32,
    own: OwnPlace,
) -> Result<Fault, Wants>
    requires own { IsOwnPlace world.old.maps own }
    requires shared { IfSome own.slot (IsSharedSlot world.old name) }
    requires source { residence world.old.store name ≡ Residence.Home frame }
    requires home { OneIsHomeBeside world.old.store frame }
    requires fits { IsOwnSpot world.old space page own }
    requires noted { IsKnown world.old }
    ensures serves { ServesCopy world.old world.new space page own (Some name) result }
    // What stays.
    ensures rest { SameFiles world.old world.new }
{
    take_back(world, name);
    if let Some(victim) = make_room_for_copy(world, name, frame) {
        return Err(ask(world, Plan::Push(victim)));
    }
    let front = front_kept(world, name, frame);
    clear_way(world, space, page);
    let slot = copy_into(world, front, own);
    let object = SWAP_OBJECT;
    load_page(world, space, page, PageName { object, page: slot }, true);
    Ok(Fault::Loaded)
}

/// Serves a store to a private page whose page isn't its cell's alone, once that page is home or known to be zeros.
pub(crate) fn fault_copy<D: Disk>(
    world: &mut World<D>,
    space: u32,
    page: u32,
    name: PageName,
    own: OwnPlace,
) -> Result<Fault, Wants>
    requires exists { IsTrue (page_exists world.old.files world.old.anon name) }
    requires own { IsOwnPlace world.old.maps own }
    requires shared { IfSome own.slot (IsSharedSlot world.old name) }
    requires home { TwoAreHome world.old.store }
    requires fits { IsOwnSpot world.old space page own }
    requires noted { IsKnown world.old }
    ensures serves { ServesCopy world.old world.new space page own (Some name) result }
    // What stays.
    ensures rest { SameFiles world.old world.new }
{
    match world.store.resident(name) {
        Residence::Home(frame) => copy_page(world, space, page, name, frame, own),
        Residence::Moving(seat) => Err(Wants::Seat(Hold::Page(seat))),
        Residence::Absent => {
            if is_unpushed(world, name) {
                own_zeros(world, space, page, own)
            } else {
                Err(fetch(world, name))
            }
        }
    }
}
