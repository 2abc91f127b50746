//! Room for another page: a victim's bits are gathered, and it is released where it is clean.
ghost use Rattle.std.specs.Prelude.{◌≡◌, ◌≢◌, ℕ, ◌<◌, ◌++◌, ◌∷◌, [], length, false, Some, None, IsSome, IsTrue, IfSome};
ghost use Rattle.page_store.specs.core_arena.Bytes.{bytes_at};
ghost use Rattle.vm_world.specs.hat_layer.Pool.{change_frame, drop_frame, with_clear_bits};
ghost use Rattle.page_store.specs.page_lock.Rows.{row_at};
ghost use Rattle.page_store.specs.Seen.{IsListedFrame, residence};
ghost use Rattle.page_store.specs.Steps.{next_frame};
ghost use Rattle.page_store.specs.Waits.{IsVictim};
ghost use Rattle.page_store.specs.declared.residence.Residence.TheVariants.{Home};
ghost use Rattle.seg_ops.specs.Rooms.{CanGiveWay, ChoosesBeside, HasRoomUnless, ListsOneMore, MakesRoom, OneIsHomeBut, SameLists, was_used};
ghost use Rattle.seg_ops.specs.Steps.{IsUnwritten, store_gathered};
ghost use Rattle.vm_world.specs.Words.{IsFit, IsKnown, OneIsHome, OneIsHomeBeside};
ghost use Rattle.vm_world.specs.World.{world_seen};

use crate::tables::add_bits;
use page_store::{Disk, PageName, Store};
use vm_world::World;

/// Gathers the bits of a frame's translations into its page. The translations stay.
pub fn sync<D: Disk>(world: &mut World<D>, frame: u32)
    requires frame { frame < length world.old.store.frames }
    requires unlisted { ¬ IsListedFrame world.old.store frame }
    requires fits { IsFit world.old }
    // The bits are in the page.
    ensures store { world.new.store ≡ store_gathered world.old frame }
    ensures places { world.new.hat.places
        ≡ change_frame frame with_clear_bits world.old.hat.places }
    ensures unwritten { IsUnwritten world.new.hat.places frame }
    // What stays.
    ensures makes { MakesRoom world.old world.new }
{
    let told = world.hat.page_sync(frame);
    add_bits(&mut world.store, frame, told);
}

/// Drops the translations of a page that isn't modified, and puts its frame on the cache list.
pub fn evict<D: Disk>(world: &mut World<D>, frame: u32)
    requires home { IsSome (bytes_at world.old.store.frames frame) }
    requires unlisted { ¬ IsListedFrame world.old.store frame }
    requires clean { (row_at world.old.store.rows frame).modified ≡ false }
    requires unwritten { IsUnwritten world.old.hat.places frame }
    requires fits { IsFit world.old }
    requires noted { IsKnown world.old }
    // The frame can be taken.
    ensures store { world.new.store
        ≡ record world.old.store { cached = world.old.store.cached ++ frame ∷ [] } }
    ensures places { world.new.hat.places ≡ drop_frame frame world.old.hat.places }
    ensures room { IsSome (next_frame world.new.store) }
    // What stays.
    ensures makes { MakesRoom world.old world.new }
{
    world.hat.page_unload(frame);
    world.store.release(frame);
}

/// Whether the page in a frame was used since its bits of use were cleared last. Its row says so then.
pub(crate) fn was_used<D: Disk>(world: &mut World<D>, frame: u32) -> bool
    requires frame { frame < length world.old.store.frames }
    requires unlisted { ¬ IsListedFrame world.old.store frame }
    requires fits { IsFit world.old }
    ensures used { result ≡ was_used (world_seen world.old) frame }
    ensures store { world.new.store ≡ store_gathered world.old frame }
    ensures unwritten { IsUnwritten world.new.hat.places frame }
    // What stays.
    ensures makes { MakesRoom world.old world.new }
{
    sync(world, frame);
    let (referenced, _) = world.store.bits(frame);
    referenced
}

/// Whether a frame's page can give way, beside that in one frame where one is given, and wasn't used.
fn is_unused_victim<D: Disk>(world: &mut World<D>, beside: Option<u32>, frame: u32) -> bool
    requires frame { frame < length world.old.store.frames }
    requires fits { IsFit world.old }
    ensures can { IsTrue result → CanGiveWay world.new beside frame }
    // What stays.
    ensures lists { SameLists world.old.store world.new.store }
    ensures makes { MakesRoom world.old world.new }
{
    if !is_other(beside, frame) || !world.store.is_victim(frame) {
        return false;
    }
    !was_used(world, frame)
}

/// Whether a frame is another than this, where one is given.
fn is_other(beside: Option<u32>, frame: u32) -> bool
    ensures { IsTrue result → beside ≢ Some frame }
{
    match beside {
        Some(given) => given != frame,
        None => true,
    }
}

/// The first page behind the hand that can give way and wasn't used, but for that at the hand: None where all were used.
fn unused_victim<D: Disk>(world: &mut World<D>, beside: Option<u32>) -> Option<u32>
    requires fits { IsFit world.old }
    ensures can { IfSome result (CanGiveWay world.new beside) }
    // What stays.
    ensures lists { SameLists world.old.store world.new.store }
    ensures makes { MakesRoom world.old world.new }
{
    for distance in 1..world.store.frame_count() {
        let frame = world.store.frame_behind(distance);
        if is_unused_victim(world, beside, frame) {
            return Some(frame);
        }
    }
    None
}

/// The bit of use in a frame's row is cleared.
fn forget_use<D: Disk>(world: &mut World<D>, frame: u32)
    requires frame { frame < length world.old.store.frames }
    requires fits { IsFit world.old }
    // What stays.
    ensures lists { SameLists world.old.store world.new.store }
    ensures makes { MakesRoom world.old world.new }
{
    world.store.set_used(frame, false);
}

/// The bits of use in the rows of all pages are cleared. Those of the translations were gathered into them as the frames were looked at.
fn forget_all_use<D: Disk>(world: &mut World<D>)
    requires fits { IsFit world.old }
    // What stays.
    ensures lists { SameLists world.old.store world.new.store }
    ensures makes { MakesRoom world.old world.new }
{
    for frame in 0..world.store.frame_count() {
        forget_use(world, frame);
    }
}

/// A frame whose page can give way, beside that in one frame; None where there is none.
fn victim_beside<D: Disk>(store: &mut Store<D>, frame: u32) -> Option<u32>
    requires frame { frame < length store.old.frames }
    requires unkept { (row_at store.old.rows frame).keeps ≡ 0 }
    ensures chooses { ChoosesBeside store.old (Some frame) result }
    // What stays.
    ensures same { store.new ≡ store.old }
{
    store.keep(frame);
    let victim = store.victim();
    store.unkeep(frame);
    victim
}

/// The same beside a frame that is given, or any.
fn victim_but<D: Disk>(store: &mut Store<D>, beside: Option<u32>) -> Option<u32>
    requires frame { (frame : ℕ) → beside ≡ Some frame → frame < length store.old.frames }
    requires unkept { (frame : ℕ) → (row_at store.old.rows frame).keeps ≡ 0 }
    ensures chooses { ChoosesBeside store.old beside result }
    // What stays.
    ensures same { store.new ≡ store.old }
{
    match beside {
        Some(frame) => victim_beside(store, frame),
        None => store.victim(),
    }
}

/// Where all pages were used, the bits of use in their rows are cleared, and the next one behind the hand gives way.
fn next_victim<D: Disk>(world: &mut World<D>, beside: Option<u32>) -> u32
    requires beside { (frame : ℕ) → beside ≡ Some frame → frame < length world.old.store.frames }
    requires home { OneIsHomeBut world.old.store beside }
    requires none { next_frame world.old.store ≡ None }
    requires fits { IsFit world.old }
    ensures can { CanGiveWay world.new beside result }
    // What stays.
    ensures lists { SameLists world.old.store world.new.store }
    ensures makes { MakesRoom world.old world.new }
{
    forget_all_use(world);
    let Some(frame) = victim_but(&mut world.store, beside) else {
        unreachable!();
    };
    sync(world, frame);
    frame
}

/// A frame whose page can give way, beside that in one frame where one is given: the first behind the hand that wasn't used, else the
/// first behind it. Time: the frames, and the translations of those that are looked at.
fn find_victim<D: Disk>(world: &mut World<D>, beside: Option<u32>) -> u32
    requires beside { (frame : ℕ) → beside ≡ Some frame → frame < length world.old.store.frames }
    requires home { OneIsHomeBut world.old.store beside }
    requires none { next_frame world.old.store ≡ None }
    requires fits { IsFit world.old }
    ensures can { CanGiveWay world.new beside result }
    // What stays.
    ensures none { next_frame world.new.store ≡ None }
    ensures lists { SameLists world.old.store world.new.store }
    ensures makes { MakesRoom world.old world.new }
{
    match unused_victim(world, beside) {
        Some(frame) => frame,
        None => next_victim(world, beside),
    }
}

/// A page gives up its frame: None where it is clean, and the next search begins behind it; else the page, which is to be
/// pushed first.
fn give_way<D: Disk>(world: &mut World<D>, frame: u32) -> Option<PageName>
    requires victim { IsVictim world.old.store frame }
    requires unwritten { IsUnwritten world.old.hat.places frame }
    requires none { next_frame world.old.store ≡ None }
    requires fits { IsFit world.old }
    requires noted { IsKnown world.old }
    ensures room { HasRoomUnless world.new result }
    ensures pushed { IfSome result (λ name. residence world.old.store name ≡ Home frame) }
    // What stays.
    ensures lists { (other : ℕ) → other ≢ frame
        → IsListedFrame world.new.store other → IsListedFrame world.old.store other }
    ensures makes { MakesRoom world.old world.new }
    ensures listed { ListsOneMore world.old.store world.new.store }
{
    let (_, modified) = world.store.bits(frame);
    if !modified {
        evict(world, frame);
        world.store.move_hand(frame);
        return None;
    }
    let Some(name) = world.store.name_of(frame) else {
        unreachable!();
    };
    Some(name)
}

/// Makes room for another page, beside the one in a frame where one is given.
fn make_room_but<D: Disk>(world: &mut World<D>, beside: Option<u32>) -> Option<PageName>
    requires beside { (frame : ℕ) → beside ≡ Some frame → frame < length world.old.store.frames }
    requires home { OneIsHomeBut world.old.store beside }
    requires fits { IsFit world.old }
    requires noted { IsKnown world.old }
    ensures room { HasRoomUnless world.new result }
    ensures pushed { IfSome result (λ name. (frame : ℕ) → beside ≡ Some frame
        → residence world.old.store name ≢ Home frame) }
    ensures unlisted { (frame : ℕ) → beside ≡ Some frame
        → IsListedFrame world.new.store frame → IsListedFrame world.old.store frame }
    // What stays.
    ensures makes { MakesRoom world.old world.new }
    ensures listed { ListsOneMore world.old.store world.new.store }
{
    if world.store.available() {
        return None;
    }
    let frame = find_victim(world, beside);
    give_way(world, frame)
}

/// Makes room for another page, beside the one in a frame: None where a frame can be taken then, else a modified page,
/// which is to be pushed first. Neither is the page in that frame. Pages that were used give way last. Time: the frames, and the
/// translations of those that are looked at.
pub fn make_room_beside<D: Disk>(world: &mut World<D>, frame: u32) -> Option<PageName>
    requires frame { frame < length world.old.store.frames }
    requires home { OneIsHomeBeside world.old.store frame }
    requires fits { IsFit world.old }
    requires noted { IsKnown world.old }
    ensures room { HasRoomUnless world.new result }
    ensures pushed { IfSome result (λ name. residence world.old.store name ≢ Home frame) }
    ensures unlisted { IsListedFrame world.new.store frame → IsListedFrame world.old.store frame }
    // What stays.
    ensures makes { MakesRoom world.old world.new }
    ensures listed { ListsOneMore world.old.store world.new.store }
{
    make_room_but(world, Some(frame))
}

/// Makes room for another page: None where a frame can be taken then, else a modified page, which is to be pushed first. Pages
/// that were used give way last. Time: the frames, and the translations of those that are looked at.
pub fn make_room<D: Disk>(world: &mut World<D>) -> Option<PageName>
    requires home { OneIsHome world.old.store }
    requires fits { IsFit world.old }
    requires noted { IsKnown world.old }
    ensures room { HasRoomUnless world.new result }
    // What stays.
    ensures makes { MakesRoom world.old world.new }
    ensures listed { ListsOneMore world.old.store world.new.store }
{
    make_room_but(world, None)
}
