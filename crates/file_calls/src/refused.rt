//! Which refusal is due to a call on a file.
ghost use Rattle.std.specs.Prelude.{◌≡◌, ◌≤◌, ◌^◌, ℕ};
ghost use Rattle.seg_vn.specs.vm_types.declared.call.Call.TheVariants.{Read};
ghost use Rattle.seg_vn.specs.vm_world.FileCalls.{file_refusal, room_refusal};

use seg_vn::{Disk, Errno, World};

/// The refusal that is due to a part of a read; None where it is served. Constant time.
pub(crate) fn read_refusal<D: Disk>(world: &World<D>, file: u32) -> Option<Errno>
    ensures { (offset asked : ℕ) → result ≡ file_refusal world.now.files (Read file offset asked) }
{
    if file < world.files.count() {
        return None;
    }
    Some(Errno::NoObject)
}

/// The refusal that is due to a call which needs room for so many bytes: NoObject, then ReadOnly, then TooBig; None where it is
/// served. Nothing changes. Time: as such a growth.
pub(crate) fn room_refusal<D: Disk>(world: &mut World<D>, file: u32, end: u64) -> Option<Errno>
    requires { end ≤ 2 ^ 32 }
    ensures due { result ≡ room_refusal world.old.files file end }
    ensures same { world.new ≡ world.old }
{
    if file >= world.files.count() {
        return Some(Errno::NoObject);
    }
    if !world.files.info(file).writable {
        return Some(Errno::ReadOnly);
    }
    let pages = ((end + 4095) / 4096) as u32;
    if world.files.can_grow(file, pages) {
        return None;
    }
    Some(Errno::TooBig)
}
