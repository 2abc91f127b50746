//! Pages that a call wants clean.
ghost use Rattle.std.specs.Prelude.{◌≡◌, ◌<◌, ◌≤◌, false, length, IsTrue};
ghost use Rattle.vm_world.specs.flat_model.Words.{pages_in};
ghost use Rattle.page_store.specs.page_lock.Rows.{row_at};
ghost use Rattle.page_store.specs.Seen.{residence, IsListedFrame};
ghost use Rattle.page_store.specs.declared.residence.Residence.TheVariants as Residence;
ghost use Rattle.vm_world.specs.vnode_files.Files.{vnode_at};
ghost use Rattle.vm_world.specs.Segments.{Spaces};
ghost use Rattle.vm_world.specs.Words.{memory, Fits, IsFit};
ghost use Rattle.vm_world.specs.World.{page_exists};
ghost use Rattle.seg_ops.specs.CleanSteps.{CleansPage, CleansPages};
ghost use Rattle.seg_ops.specs.Rooms.{MakesRoom};
ghost use Rattle.seg_ops.specs.Steps.{IsUnwritten};

use crate::plans::ask;
use crate::rooms::sync;
use page_store::{Disk, Hold, PageName, Plan, Residence};
use vm_world::{Wants, World};

// What must come first of a page that a call wants clean: None where it is clean; else its push, or whom the call waits for: who
// moves the page, or has its disk. Time: the translations of the page.
fn clean<D: Disk>(world: &mut World<D>, name: PageName) -> Option<Wants>
    requires exists { IsTrue (page_exists world.old.files world.old.anon name) }
    requires fits { IsFit world.old }
    ensures cleans { (spaces : Spaces) → Fits world.old spaces
        → CleansPage (memory world.new spaces) name result }
    // What stays.
    ensures makes { MakesRoom world.old world.new }
{
    match world.store.resident(name) {
        Residence::Absent => None,
        Residence::Moving(seat) => Some(Wants::Seat(Hold::Page(seat))),
        Residence::Home(frame) => clean_home(world, name, frame),
    }
}

// Whether a page that is home is modified. Its translations are asked only where its own bit doesn't say so: what they would tell is gathered as its
// push begins.
fn is_modified<D: Disk>(world: &mut World<D>, frame: u32) -> bool
    requires frame { frame < length world.old.store.frames }
    requires unlisted { ¬ IsListedFrame world.old.store frame }
    requires fits { IsFit world.old }
    ensures bit { result ≡ (row_at world.new.store.rows frame).modified }
    ensures unwritten { result ≡ false → IsUnwritten world.new.hat.places frame }
    // What stays.
    ensures makes { MakesRoom world.old world.new }
{
    let (_referenced, modified) = world.store.bits(frame);
    if modified {
        return true;
    }
    sync(world, frame);
    let (_referenced, told) = world.store.bits(frame);
    told
}

// The same of a page that is home.
fn clean_home<D: Disk>(world: &mut World<D>, name: PageName, frame: u32) -> Option<Wants>
    requires home { residence world.old.store name ≡ Residence.Home frame }
    requires exists { IsTrue (page_exists world.old.files world.old.anon name) }
    requires fits { IsFit world.old }
    ensures cleans { (spaces : Spaces) → Fits world.old spaces
        → CleansPage (memory world.new spaces) name result }
    // What stays.
    ensures makes { MakesRoom world.old world.new }
{
    if world.store.listed(frame) {
        return None;
    }
    if !is_modified(world, frame) {
        return None;
    }
    Some(ask(world, Plan::Push(name)))
}

/// What must come first of pages of a file that a call wants clean, from one up to another: None where all are clean; else one
/// that isn't, and its push, or whom the call waits for: who moves the page, or has its disk. Each page is looked at once, up
/// to that one. Takes no memory and makes no disk call. Time: the pages, and their translations.
pub fn clean_pages<D: Disk>(
    world: &mut World<D>,
    file: u32,
    from: u32,
    to: u32,
) -> Option<(u32, Wants)>
    requires file { file < length world.old.files.files }
    requires exist { to ≤ pages_in (vnode_at world.old.files file).info.length }
    requires fits { IsFit world.old }
    ensures cleans { (spaces : Spaces) → Fits world.old spaces
        → CleansPages (memory world.new spaces) file from to result }
    // What stays.
    ensures makes { MakesRoom world.old world.new }
{
    for page in from..to {
        if let Some(wants) = clean(world, PageName { object: file, page }) {
            return Some((page, wants));
        }
    }
    None
}
