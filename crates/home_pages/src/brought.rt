//! Pages that exist, of files and of slots, come home.
ghost use Rattle.std.specs.Prelude.{◌≡◌, IsTrue};
ghost use Rattle.seg_ops.specs.page_store.Seen.{residence};
ghost use Rattle.seg_ops.specs.page_store.declared.residence.Residence.TheVariants.{Absent};
ghost use Rattle.seg_ops.specs.vm_world.Words.{IsFit, IsKnown, OneIsHome, OnlyFrames};
ghost use Rattle.seg_ops.specs.vm_world.World.{is_unpushed, page_exists};
ghost use Rattle.home_pages.specs.Brings.{IsFrameBrought};

use seg_ops::{
    Disk, Hold, PageName, Plan, Residence, SWAP_OBJECT, Wants, World, ask, fetch, fill_page,
    make_room,
};

/// Whether a page was never pushed: a blank page of a file, or that of a slot which was never on swap. Constant time.
pub fn is_unpushed<D: Disk>(world: &World<D>, name: PageName) -> bool
    requires exists { IsTrue (page_exists world.now.files world.now.anon name) }
    requires fits { IsFit world.now }
    ensures { result ≡ is_unpushed world.now.files world.now.anon name }
{
    if name.object == SWAP_OBJECT {
        return !world.anon.swapped(name.page);
    }
    world.files.blank(name.object, name.page)
}

/// A page that was never pushed and is absent comes home as zeros, where a frame can be had for it, and the frame that holds it.
fn bring_zeros<D: Disk>(world: &mut World<D>, name: PageName) -> Result<u32, Wants>
    requires exists { IsTrue (page_exists world.old.files world.old.anon name) }
    requires blank { IsTrue (is_unpushed world.old.files world.old.anon name) }
    requires absent { residence world.old.store name ≡ Absent }
    requires home { OneIsHome world.old.store }
    requires fits { IsFit world.old }
    requires noted { IsKnown world.old }
    ensures brings { IsFrameBrought world.old world.new name result }
    // What stays.
    ensures rest { OnlyFrames world.old world.new }
{
    if let Some(victim) = make_room(world) {
        return Err(ask(world, Plan::Push(victim)));
    }
    let Some(frame) = world.store.next_frame() else {
        unreachable!();
    };
    fill_page(world, name);
    Ok(frame)
}

/// A page that exists comes home, where nothing has to be waited for or read in, and the frame that holds it; else it says what must come
/// first. Time: one look where it is home; else what `make_room` takes, and one page where it is one of zeros.
#[inline(always)]
pub fn bring_page<D: Disk>(world: &mut World<D>, name: PageName) -> Result<u32, Wants>
    requires exists { IsTrue (page_exists world.old.files world.old.anon name) }
    requires home { OneIsHome world.old.store }
    requires fits { IsFit world.old }
    requires noted { IsKnown world.old }
    ensures brings { IsFrameBrought world.old world.new name result }
    // What stays.
    ensures rest { OnlyFrames world.old world.new }
{
    match world.store.resident(name) {
        Residence::Home(frame) => Ok(frame),
        Residence::Moving(seat) => Err(Wants::Seat(Hold::Page(seat))),
        Residence::Absent => {
            if is_unpushed(world, name) {
                bring_zeros(world, name)
            } else {
                Err(fetch(world, name))
            }
        }
    }
}
