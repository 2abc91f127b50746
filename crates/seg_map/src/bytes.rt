//! Bytes that are put into a page of a file.
ghost use Rattle.std.specs.Prelude.{◌≡◌, ◌<◌, ◌≤◌, ◌+◌, ℕ, length, replicate, true, All};
ghost use Rattle.seg_ops.specs.flat_model.Words.{IsByte};
ghost use Rattle.seg_ops.specs.page_store.Laws.{SameResidence};
ghost use Rattle.seg_ops.specs.page_store.Seen.{IsListedFrame, residence};
ghost use Rattle.seg_ops.specs.page_store.Steps.{with_piece};
ghost use Rattle.seg_ops.specs.vm_world.FileSteps.{ChangesFile};
ghost use Rattle.seg_ops.specs.vm_world.Segments.{Spaces};
ghost use Rattle.seg_ops.specs.vm_world.Serving.{ModifiesOnly};
ghost use Rattle.seg_ops.specs.vm_world.Words.{memory, Fits, IsFit, OnlyStore};
ghost use Rattle.seg_ops.specs.vm_world.World.{world_seen, file_name};
ghost use Rattle.seg_map.specs.Ends.{IsReadyPage};
ghost use Rattle.seg_map.specs.Puts.{with_bytes_in};

use seg_ops::{Disk, Residence, World};

/// Puts bytes into a page of a file, from a byte of it on. The page is home in this frame, on no list, and modified then.
/// Time: the bytes.
pub fn put<D: Disk>(world: &mut World<D>, file: u32, page: u32, frame: u32, at: u32, bytes: &[u8])
    requires file { file < length world.old.files.files }
    requires home { residence world.old.store (file_name file page) ≡ Residence.Home frame }
    requires unlisted { ¬ IsListedFrame world.old.store frame }
    requires within { at + length bytes.now ≤ 4096 }
    requires octets { All IsByte bytes.now }
    requires fits { IsFit world.old }
    // The file has the bytes in flat memory.
    ensures store { world.new.store ≡ with_piece world.old.store frame at bytes.now true }
    ensures puts { (spaces : Spaces) → Fits world.old spaces
        → ChangesFile file (memory world.old spaces) (memory world.new spaces)
        (with_bytes_in page at bytes.now) }
    // The page is ready, and no other page becomes modified.
    ensures ready { IsReadyPage (world_seen world.new) (file_name file page) }
    ensures modified { ModifiesOnly (λ name. name ≡ file_name file page)
        (world_seen world.old) (world_seen world.new) }
    // What stays.
    ensures rest { OnlyStore world.old world.new }
    ensures stay { SameResidence world.old.store world.new.store }
{
    world.store.poke_frame(frame, at, bytes, true);
}

/// Puts so many zeros into a page of a file, as `put` does.
pub(crate) fn put_zeros<D: Disk>(
    world: &mut World<D>,
    file: u32,
    page: u32,
    frame: u32,
    at: u32,
    count: u32,
)
    requires file { file < length world.old.files.files }
    requires home { residence world.old.store (file_name file page) ≡ Residence.Home frame }
    requires unlisted { ¬ IsListedFrame world.old.store frame }
    requires within { at + count ≤ 4096 }
    requires fits { IsFit world.old }
    // The file has the zeros in flat memory.
    ensures store { world.new.store
        ≡ with_piece world.old.store frame at (replicate count 0) true }
    ensures puts { (spaces : Spaces) → Fits world.old spaces
        → ChangesFile file (memory world.old spaces) (memory world.new spaces)
        (with_bytes_in page at (replicate count 0)) }
    // The page is ready, and no other page becomes modified.
    ensures ready { IsReadyPage (world_seen world.new) (file_name file page) }
    ensures modified { ModifiesOnly (λ name. name ≡ file_name file page)
        (world_seen world.old) (world_seen world.new) }
    // What stays.
    ensures rest { OnlyStore world.old world.new }
    ensures stay { SameResidence world.old.store world.new.store }
{
    let zeros = [0u8; 4096];
    put(world, file, page, frame, at, &zeros[..count as usize]);
}
