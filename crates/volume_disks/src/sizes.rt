//! The sizes of disks that are joined.
ghost use Rattle.std.specs.Prelude.{◌≡◌};
ghost use Rattle.volume_disks.specs.Volumes.{is_volume_size, size_fault};

use crate::stops::VolumeStop;
use block_device::{Disk, Unopened};

// May a volume have so many blocks?
fn is_volume_size(blocks: u32) -> bool
    ensures { result ≡ is_volume_size blocks }
{
    (2..=16384).contains(&blocks)
}

/// Why two disks can't be joined: the first size that is wrong, or the sizes differ.
pub(crate) fn size_fault<D: Disk>(first: &Unopened<D>, second: &Unopened<D>) -> Option<VolumeStop>
    ensures { result ≡ size_fault
        (first.now.number, (D.seen first.now.disk).size)
        (second.now.number, (D.seen second.now.disk).size) }
{
    if !is_volume_size(first.blocks()) {
        return Some(VolumeStop::Size {
            disk: first.number(),
        });
    }
    if !is_volume_size(second.blocks()) {
        return Some(VolumeStop::Size {
            disk: second.number(),
        });
    }
    if first.blocks() != second.blocks() {
        return Some(VolumeStop::Unequal);
    }
    None
}
