//! Words through translations: the hot path. An access is one look for the translation, in which it is noted, and one word.
ghost use Rattle.std.specs.Prelude.{◌≡◌, ◌≤◌, ℕ, ◌+◌, ◌%◌, true, false, length, IfSome, IfNone};
ghost use Rattle.page_store.specs.page_hash.declared.PageName.{PageName};
ghost use Rattle.vm_world.specs.flat_model.Words as words;
ghost use Rattle.vm_world.specs.flat_model.Words.{page, word_bytes};
ghost use Rattle.vm_world.specs.hat_layer.Pool.{IsNoted, frame_for, after_access, change_at, change_page, translation_at};
ghost use Rattle.page_store.specs.Laws.{Pokes, SameResidence};
ghost use Rattle.page_store.specs.Seen.{IsListedFrame, residence};
ghost use Rattle.page_store.specs.Steps.{with_piece};
ghost use Rattle.vm_world.specs.vm_types.Words.{IsWordSize, FitsWord};
ghost use Rattle.vm_world.specs.Segments.{Spaces};
ghost use Rattle.vm_world.specs.Serving.{ModifiesNone, ModifiesOnly};
ghost use Rattle.vm_world.specs.Words.{Fits, IsFit, KeepsEveryPage, OnlyStore, OnlyHat};
ghost use Rattle.vm_world.specs.World.{world_seen};
ghost use Rattle.seg_ops.specs.Steps.{ReadsWord, WritesWord};

use page_store::{Disk, PageName, Residence, Store};
use vm_world::{World, word_at};

/// Notes an access to a page, and answers the frame that it goes to: where the page has a translation that lets it. None
/// exactly otherwise. Constant expected time: one look for the translation.
#[inline(always)]
pub fn frame_for<D: Disk>(world: &mut World<D>, space: u32, page: u32, write: bool) -> Option<u32>
    ensures frame { result ≡ frame_for world.old.hat.places space page write }
    // The translation stays, and says that it was used, and written by a store; ..
    ensures places { IfSome result (λ _frame. world.new.hat.places
        ≡ change_at space page (after_access write) world.old.hat.places) }
    ensures noted { IfSome result (λ frame. IsNoted world.new.hat.places space page frame write) }
    ensures translation { IfSome result (λ _frame. translation_at world.new.hat.places space page
        ≡ change_page space page (after_access write)
        (translation_at world.old.hat.places space page)) }
    // .. or nothing changes.
    ensures none { IfNone result (world.new ≡ world.old) }
    // What stays.
    ensures rest { OnlyHat world.old world.new }
    ensures keeps { KeepsEveryPage world.old world.new }
    ensures modified { IfSome result (λ frame. ModifiesOnly
        (λ name. (write ≡ true) × (residence world.old.store name ≡ Residence.Home frame))
        (world_seen world.old) (world_seen world.new)) }
{
    world.hat.frame_for(space, page, write)
}

/// The word at an address of a load that was noted, in the frame that the load goes to. Constant expected time.
#[inline(always)]
pub fn read<D: Disk>(world: &World<D>, frame: u32, addr: u32, size: u32) -> u32
    requires size { IsWordSize size }
    requires aligned { addr % size ≡ 0 }
    requires noted { (space : ℕ) × IsNoted world.now.hat.places space (page addr) frame false }
    requires fits { IsFit world.now }
    ensures { (spaces : Spaces) (space : ℕ) → Fits world.now spaces
        → IsNoted world.now.hat.places space (page addr) frame false
        → ReadsWord (world_seen world.now) spaces space addr size result }
{
    word_in(world.store.frame_bytes(frame), addr, size)
}

// The word at an address, in the page that the address lies in. It is in an arm for each size, so that its bytes are read at once.
#[inline(always)]
fn word_in(page: &[u8], addr: u32, size: u32) -> u32
    requires size { IsWordSize size }
    requires aligned { addr % size ≡ 0 }
    requires whole { length page.now ≡ 4096 }
    ensures { result ≡ words.word_at page.now addr size }
{
    if size > 2 {
        word_at(page, addr, 4)
    } else if size > 1 {
        word_at(page, addr, 2)
    } else {
        word_at(page, addr, 1)
    }
}

/// Puts a word at an address of a store that was noted, into the frame that the store goes to: so the page is modified
/// when its bytes change. Constant expected time.
pub fn write<D: Disk>(world: &mut World<D>, frame: u32, addr: u32, size: u32, value: u32)
    requires size { IsWordSize size }
    requires word { FitsWord size value }
    requires aligned { addr % size ≡ 0 }
    requires noted { (space : ℕ) × IsNoted world.old.hat.places space (page addr) frame true }
    requires fits { IsFit world.old }
    ensures writes { (spaces : Spaces) (space : ℕ) → Fits world.old spaces
        → IsNoted world.old.hat.places space (page addr) frame true
        → WritesWord (world_seen world.old) (world_seen world.new) spaces space addr size
        value }
    // What stays: all but bytes of frames.
    ensures store { world.new.store
        ≡ record world.old.store { frames = world.new.store.frames } }
    ensures rest { OnlyStore world.old world.new }
    ensures stay { SameResidence world.old.store world.new.store }
    ensures modified { ModifiesNone (world_seen world.old) (world_seen world.new) }
{
    put_word(&mut world.store, frame, addr % 4096, size, value);
}

// Puts a word over the bytes of the page that is home in a frame, from byte `at` of the page on. It is in an arm for each size, so that
// its bytes are written at once.
#[inline(always)]
fn put_word<D: Disk>(store: &mut Store<D>, frame: u32, at: u32, size: u32, value: u32)
    requires size { IsWordSize size }
    requires word { FitsWord size value }
    requires within { at + size ≤ 4096 }
    requires home { (name : PageName) × (residence store.old name ≡ Residence.Home frame) }
    requires unlisted { ¬ IsListedFrame store.old frame }
    // The word's bytes are there.
    ensures new { store.new ≡ with_piece store.old frame at (word_bytes size value) false }
    ensures laws { (name : PageName) → residence store.old name ≡ Residence.Home frame
        → Pokes store.old store.new name at (word_bytes size value) }
{
    let bytes = value.to_be_bytes();
    match size {
        1 => store.poke_frame(frame, at, &bytes[3..], false),
        2 => store.poke_frame(frame, at, &bytes[2..], false),
        4 => store.poke_frame(frame, at, &bytes, false),
        _ => unreachable!(),
    }
}
