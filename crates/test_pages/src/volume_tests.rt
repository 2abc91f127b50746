//! Volumes of a rack of blank disks: disk 3, or disk 3 and disk 1 as one.

ghost use Rattle.volume_disks.specs.Volumes.{HasTwoNumbers};

use Told::{Attached, Stopped};
use block_device::{MemDisk, MemRack, Spec, Unopened};
use joined_disk::JoinedDisk;
use std::alloc::Global;
use std::test::Fail;
use volume_disks::{Single, Unattached, VolumeSpec, VolumeStop, attach_volume};

#[derive(Clone, Copy, PartialEq, Eq)]
enum Why {
    Memory,
    /// The rack failed to attach the disk of this number.
    Rack(u32),
    /// The disk of this number has too few or too many blocks.
    Size(u32),
    Unequal,
}

#[derive(Clone, Copy, PartialEq, Eq)]
enum Told {
    /// The number of the volume, and how many blocks it has.
    Attached(u32, u32),
    /// Why it wasn't attached, and the numbers of the disks that are handed back.
    Stopped(Why, Option<u32>, Option<u32>),
}

/// The blocks of disk 3; those of disk 1, where it is there, and whether the two are mirrored; and the call of the rack that fails.
type Wanted = (u32, Option<(u32, bool)>, u64);

const CASES: [(Wanted, Told); 12] = [
    ((8, None, 0), Attached(3, 8)),
    // The size of one disk is tested as its table is read.
    ((1, None, 0), Attached(3, 1)),
    ((8, Some((8, false)), 0), Attached(3, 16)),
    ((8, Some((8, true)), 0), Attached(3, 8)),
    // The rack fails: at the first disk, or at the second, where the first is handed back.
    ((8, None, 1), Stopped(Why::Rack(3), None, None)),
    ((8, Some((8, true)), 1), Stopped(Why::Rack(3), None, None)),
    (
        (8, Some((8, true)), 2),
        Stopped(Why::Rack(1), Some(3), None),
    ),
    // Sizes that don't serve, the first disk's before the second's: both are handed back.
    (
        (1, Some((1, false)), 0),
        Stopped(Why::Size(3), Some(3), Some(1)),
    ),
    (
        (2, Some((1, false)), 0),
        Stopped(Why::Size(1), Some(3), Some(1)),
    ),
    (
        (2, Some((16385, true)), 0),
        Stopped(Why::Size(1), Some(3), Some(1)),
    ),
    (
        (8, Some((9, false)), 0),
        Stopped(Why::Unequal, Some(3), Some(1)),
    ),
    // A stripe of two disks of 16,384 blocks has too many for a table; that is seen as its table is read.
    ((16384, Some((16384, false)), 0), Attached(3, 32768)),
];

fn wanted(blocks: u32, second: Option<(u32, bool)>) -> VolumeSpec
    ensures { HasTwoNumbers result }
{
    let first = Spec::Blank { number: 3, blocks };
    match second {
        Some((blocks, mirror)) => VolumeSpec::Joined {
            first,
            second: Spec::Blank { number: 1, blocks },
            mirror,
        },
        None => VolumeSpec::Plain(first),
    }
}

fn number_of(disk: &Option<Unopened<Single<MemDisk>>>) -> Option<u32> {
    match disk {
        Some(disk) => Some(disk.number()),
        None => None,
    }
}

fn stopped(back: Unattached<Single<MemDisk>>) -> Told {
    let why = match &back.why {
        VolumeStop::Memory => Why::Memory,
        VolumeStop::Failed(fault) => Why::Rack(fault.disk()),
        VolumeStop::Size { disk } => Why::Size(*disk),
        VolumeStop::Unequal => Why::Unequal,
    };
    Stopped(why, number_of(&back.first), number_of(&back.second))
}

/// What is told of a volume that is attached by a rack which fails at one call, and how many disks came of the rack.
fn attached(alloc: Global, want: Wanted) -> Result<Told, Fail> {
    let (blocks, second, fails_at) = want;
    let mut rack = MemRack::new(alloc, [fails_at].to_vec(alloc)?, Vec::new(alloc));
    let volume: Result<Unopened<JoinedDisk<Single<MemDisk>>>, Unattached<Single<MemDisk>>> =
        attach_volume(alloc, &mut rack, &wanted(blocks, second));
    Ok(match volume {
        Ok(volume) => Attached(volume.number(), volume.blocks()),
        Err(back) => stopped(back),
    })
}

#[test]
fn the_disks_of_a_volume_are_attached_or_handed_back(rt: HostRuntime) -> Result<(), Fail> {
    for (place, &(want, told)) in CASES.iter().enumerate() {
        if attached(rt.alloc(), want)? != told {
            return Err(Fail::new(format_args!("volume {place} is told something else")));
        }
    }
    Ok(())
}
