//! A disk that stands for one disk, or for two.
ghost use Rattle.std.specs.Prelude.{◌≡◌, IfOk, IfErr, OnErr};

use disk_mirror::Mirror;
use disk_stripe::{Disk, Failed, Pairing, Stripe};
use std::alloc::Global;

/// A disk as it is, or one that stands for two, which lies in a box: each transfer moves its disk, so that one should be small.
#[derive(Drop)]
pub enum JoinedDisk<D: Disk> {
    Plain(D),
    Striped(Box<Stripe<D>>),
    Mirrored(Box<Mirror<D>>),
}

impl<D: Disk> JoinedDisk<D> {
    ghost use Rattle.std.specs.Prelude.{option_map};
    ghost use Rattle.joined_disk.specs.JoinedSeen.{IsSeenBy, joined_parts, joined_seen};

    /// The disk that it is, or the two that it stands for, as they are.
    pub fn parts(self) -> (D, Option<D>)
        ensures parts { result ≡ joined_parts self }
        // What was seen of it, by what is seen of them.
        ensures seen { IsSeenBy (D.seen result.0) (option_map D.seen result.1)
            (joined_seen D.seen self) }
    {
        match self {
            JoinedDisk::Plain(disk) => (disk, None),
            JoinedDisk::Striped(stripe) => {
                let (a, b) = Box::into_inner(stripe).parts();
                (a, Some(b))
            }
            JoinedDisk::Mirrored(mirror) => {
                let (a, b) = Box::into_inner(mirror).parts();
                (a, Some(b))
            }
        }
    }
}

impl<D: Disk> Disk for JoinedDisk<D> {
    ghost use Rattle.std.specs.Prelude.{◌<◌, length};
    ghost use Rattle.disk_stripe.specs.block_device.DiskSeen.{Reads, Writes};
    ghost use Rattle.disk_stripe.specs.StripeLook.{blocks_of_stripe};
    ghost use Rattle.disk_mirror.specs.MirrorLook.{blocks_of_mirror};
    ghost use Rattle.joined_disk.specs.JoinedSeen.{AsksToRead, AsksToWrite, joined_seen};
    ghost use Rattle.joined_disk.specs.declared.joined.JoinedDisk.TheVariants.{Plain, Striped, Mirrored};

    ghost seen = { joined_seen D.seen };

    fn blocks(&self) -> u32 {
        match self {
            JoinedDisk::Plain(disk) => disk.blocks(),
            JoinedDisk::Striped(stripe) => stripe.blocks(),
            JoinedDisk::Mirrored(mirror) => mirror.blocks(),
        }
    }

    fn faults(&self) -> u64 {
        match self {
            JoinedDisk::Plain(disk) => disk.faults(),
            JoinedDisk::Striped(stripe) => stripe.faults(),
            JoinedDisk::Mirrored(mirror) => mirror.faults(),
        }
    }

    fn calls(&self) -> u64 {
        match self {
            JoinedDisk::Plain(disk) => disk.calls(),
            JoinedDisk::Striped(stripe) => stripe.calls(),
            JoinedDisk::Mirrored(mirror) => mirror.calls(),
        }
    }

    fn read(&mut self, block: u32, into: &mut [u8]) -> Result<(), Failed>
        requires block { block < (joined_seen D.seen self.old).size }
        requires size { length into.old ≡ 4096 }
        ensures reads { Reads (joined_seen D.seen self.old) (joined_seen D.seen self.new)
            block into.new result }
        // The disk is asked that it is, or of two those that a stripe or a mirror asks.
        ensures asks { AsksToRead D.seen self.old self.new block into.new result }
    {
        match self {
            JoinedDisk::Plain(disk) => disk.read(block, into),
            JoinedDisk::Striped(stripe) => stripe.read(block, into),
            JoinedDisk::Mirrored(mirror) => mirror.read(block, into),
        }
    }

    fn write(&mut self, block: u32, from: &[u8]) -> Result<(), Failed>
        requires block { block < (joined_seen D.seen self.old).size }
        requires size { length from.now ≡ 4096 }
        ensures writes { Writes (joined_seen D.seen self.old) (joined_seen D.seen self.new)
            block from.now result }
        // The disk is asked that it is, or of two those that a stripe or a mirror asks.
        ensures asks { AsksToWrite D.seen self.old self.new block from.now result }
    {
        match self {
            JoinedDisk::Plain(disk) => disk.write(block, from),
            JoinedDisk::Striped(stripe) => stripe.write(block, from),
            JoinedDisk::Mirrored(mirror) => mirror.write(block, from),
        }
    }

    ghost has_blocks = { elim [
      | Plain d ↦ D.has_blocks d
      | Striped s ↦ blocks_of_stripe D.has_blocks s.value
      | Mirrored m ↦ blocks_of_mirror D.has_blocks m.value
    ] };
}

impl<D: Disk> Pairing<D> for JoinedDisk<D> {
    ghost use Rattle.std.specs.Prelude.{false, None, IsSome};
    ghost use Rattle.disk_stripe.specs.block_device.Pairs.{CanPair};
    ghost use Rattle.joined_disk.specs.JoinedSeen.{StandsFor};

    ghost pairs = { StandsFor D.seen };

    fn pair(
        alloc: Global,
        a: D,
        b: Option<D>,
        mirror: bool,
    ) -> Result<JoinedDisk<D>, (D, Option<D>)>
        requires { CanPair D.seen a b mirror }
        ensures pair { IfOk result (StandsFor D.seen a b mirror) }
        ensures back { IfErr result (λ disks. disks ≡ (a, b)) }
        // One disk takes no memory.
        ensures two { OnErr result (IsSome b) }
    {
        let Some(b) = b else {
            return Ok(JoinedDisk::Plain(a));
        };
        if !mirror {
            return match Box::new(alloc, Stripe::new(a, b)) {
                Ok(stripe) => Ok(JoinedDisk::Striped(stripe)),
                Err(full) => {
                    let (a, b) = full.value.parts();
                    Err((a, Some(b)))
                }
            };
        }
        let mirror = match Mirror::new(alloc, a, b) {
            Ok(mirror) => mirror,
            Err((a, b)) => return Err((a, Some(b))),
        };
        match Box::new(alloc, mirror) {
            Ok(mirror) => Ok(JoinedDisk::Mirrored(mirror)),
            Err(full) => {
                let (a, b) = full.value.parts();
                Err((a, Some(b)))
            }
        }
    }

    fn alone(a: D) -> JoinedDisk<D>
        ensures { StandsFor D.seen a None false result }
    {
        JoinedDisk::Plain(a)
    }
}
