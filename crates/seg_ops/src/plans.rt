//! What a page that isn't home needs: a transfer, or somebody who is waited for.
ghost use Rattle.std.specs.Prelude.{◌≡◌, ◌≢◌, None, IsTrue, IsFalse};
ghost use Rattle.page_store.specs.Bays.{bay_at, missing};
ghost use Rattle.page_store.specs.Seen.{residence};
ghost use Rattle.page_store.specs.Waits.{holder_of, plan_page};
ghost use Rattle.page_store.specs.declared.residence.Residence.TheVariants.{Absent};
ghost use Rattle.vm_world.specs.Segments.{Spaces};
ghost use Rattle.vm_world.specs.Words.{memory, Fits, IsFit, IsKnown, OneIsHome};
ghost use Rattle.vm_world.specs.World.{world_seen, world_table, is_unpushed, page_exists};
ghost use Rattle.seg_ops.specs.Plans.{IsAsked, FetchesPage};
ghost use Rattle.seg_ops.specs.Rooms.{ListsOneMore, MakesRoom};

use crate::flights::plan_page;
use crate::rooms::make_room;
use page_store::{Disk, PageName, Plan, SWAP_DISK, SWAP_OBJECT};
use vm_world::{Wants, World};

/// What a fault comes to, where nothing must come first.
#[derive(Clone, Copy, PartialEq, Eq, Debug)]
pub enum Fault {
    /// The page has its translation.
    Loaded,
    /// The page is past the end of its object.
    Past,
}

/// The disk that a page lives on.
pub(crate) fn disk_of<D: Disk>(world: &World<D>, name: PageName) -> u32
    requires fits { IsFit world.now }
    requires exists { IsTrue (page_exists world.now.files world.now.anon name) }
    ensures disk { result ≡ (world_table (world_seen world.now) name).disk }
    ensures there { bay_at world.now.store.bays result ≢ missing }
{
    if name.object == SWAP_OBJECT {
        return SWAP_DISK;
    }
    world.files.info(name.object).disk
}

/// A transfer that can begin, or what it waits for: the seat that holds the page's lock, or that has the disk.
pub fn ask<D: Disk>(world: &World<D>, plan: Plan) -> Wants
    requires fits { IsFit world.now }
    requires exists { IsTrue (page_exists world.now.files world.now.anon (plan_page plan)) }
    ensures { IsAsked (world_seen world.now) plan result }
{
    let name = match plan {
        Plan::Read(name) => name,
        Plan::Push(name) => name,
    };
    let disk = disk_of(world, name);
    match world.store.ready(&plan, disk) {
        None => Wants::Transfer(plan),
        Some(hold) => Wants::Seat(hold),
    }
}

/// The same of a plan whose page nobody has locked, which needs no look then.
fn ask_unlocked<D: Disk>(world: &World<D>, plan: Plan) -> Wants
    requires fits { IsFit world.now }
    requires exists { IsTrue (page_exists world.now.files world.now.anon (plan_page plan)) }
    requires unlocked { holder_of world.now.store (plan_page plan) ≡ None }
    ensures { IsAsked (world_seen world.now) plan result }
{
    let disk = disk_of(world, plan_page(plan));
    if let Some(hold) = world.store.disk_ready(disk) {
        return Wants::Seat(hold);
    }
    Wants::Transfer(plan)
}

/// What a page needs that no frame holds and that isn't blank: to be read in, where a frame can be had, else that a
/// modified page is pushed.
#[inline(always)]
pub fn fetch<D: Disk>(world: &mut World<D>, name: PageName) -> Wants
    requires home { OneIsHome world.old.store }
    requires absent { residence world.old.store name ≡ Absent }
    requires exists { IsTrue (page_exists world.old.files world.old.anon name) }
    requires pushed { IsFalse (is_unpushed world.old.files world.old.anon name) }
    requires fits { IsFit world.old }
    requires noted { IsKnown world.old }
    // What it answers to a call that wants the page home.
    ensures fetches { (spaces : Spaces) → Fits world.old spaces
        → FetchesPage (memory world.new spaces) name result }
    // What stays.
    ensures makes { MakesRoom world.old world.new }
    ensures listed { ListsOneMore world.old.store world.new.store }
{
    match make_room(world) {
        None => ask_unlocked(world, Plan::Read(name)),
        Some(page) => ask_unlocked(world, Plan::Push(page)),
    }
}
