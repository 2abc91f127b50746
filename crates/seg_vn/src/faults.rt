//! Faults at places of any mapping: pages that are shown where they are, and pages of zeros that are made.
ghost use Rattle.std.specs.Prelude.{◌≡◌, ◌<◌, Bool, length, None, IsTrue};
ghost use Rattle.seg_ops.specs.anon_map.Maps.{IsMapThere, places_of};
ghost use Rattle.seg_ops.specs.vm_world.Segments.{Spaces, Spot};
ghost use Rattle.seg_ops.specs.vm_world.Words.{Fits, IsFit, IsKnown, OneIsHome, OnlyFrames, SameFiles};
ghost use Rattle.seg_ops.specs.vm_world.World.{world_seen, slot_in, page_exists};
ghost use Rattle.seg_ops.specs.Slots.{IsNewZero};
ghost use Rattle.seg_vn.specs.FaultPlaces.{PagePlace, ZerosShown};
ghost use Rattle.seg_ops.specs.Faults.{FaultServed};

use crate::segment::{load_frame, load_page};
use home_pages::bring_page;
use seg_ops::{
    Disk, Fault, PageName, Plan, SWAP_OBJECT, Wants, World, ask, free_next, make_room, make_zero,
};

/// Loads the translation of a page that exists, once it is home, or says what that needs.
#[inline(always)]
pub(crate) fn fault_page<D: Disk>(
    world: &mut World<D>,
    space: u32,
    page: u32,
    name: PageName,
    writable: bool,
) -> Result<Fault, Wants>
    requires exists { IsTrue (page_exists world.old.files world.old.anon name) }
    requires home { OneIsHome world.old.store }
    requires fits { IsFit world.old }
    requires noted { IsKnown world.old }
    ensures serves { (spaces : Spaces) (x : Spot) (write : Bool) → Fits world.old spaces
        → PagePlace (world_seen world.old) spaces space page x name write writable
        → FaultServed world.old world.new spaces space page x write result }
    // What stays.
    ensures rest { OnlyFrames world.old world.new }
{
    let frame = bring_page(world, name)?;
    load_frame(world, space, page, name, frame, writable);
    Ok(Fault::Loaded)
}

/// Makes a slot with a page of zeros for a place of a map, and loads the translation of the page that shows it.
pub(crate) fn fault_zeros<D: Disk>(
    world: &mut World<D>,
    space: u32,
    page: u32,
    map: u32,
    place: u32,
    writable: bool,
) -> Result<Fault, Wants>
    requires there { IsMapThere world.old.maps map }
    requires within { place < length (places_of world.old.maps map) }
    requires empty { slot_in world.old.maps map place ≡ None }
    requires home { OneIsHome world.old.store }
    requires fits { (spaces : Spaces) × Fits world.old spaces × IsNewZero spaces map place }
    requires noted { IsKnown world.old }
    ensures serves { (spaces : Spaces) (x : Spot) (write : Bool) → Fits world.old spaces
        → ZerosShown (world_seen world.old) spaces space page x map place write writable
        → FaultServed world.old world.new spaces space page x write result }
    // What stays.
    ensures rest { SameFiles world.old world.new }
{
    if let Some(victim) = make_room(world) {
        return Err(ask(world, Plan::Push(victim)));
    }
    free_next(world);
    let slot = make_zero(world, map, place);
    let object = SWAP_OBJECT;
    load_page(
        world,
        space,
        page,
        PageName { object, page: slot },
        writable,
    );
    Ok(Fault::Loaded)
}
