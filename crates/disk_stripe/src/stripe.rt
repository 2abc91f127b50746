//! A stripe over two disks.
ghost use Rattle.std.specs.Prelude.{◌≡◌, ◌<◌, ◌^◌};

use block_device::{Disk, Failed};

/// Two disks of as many blocks as one disk: its even blocks lie on the first, its odd ones on the second, in
/// order. A transfer asks one of the two.
#[derive(Drop)]
pub struct Stripe<D: Disk> {
    a: D,
    b: D,
    ghost equal: { (D.seen a).size ≡ (D.seen b).size },
    ghost small: { (D.seen a).size < 2 ^ 31 },
}

impl<D: Disk> Stripe<D> {
    ghost use Rattle.std.specs.Prelude.{length};
    ghost use Rattle.disk_stripe.specs.StripeSeen.{stripe_seen_by, ReadsOne, WritesOne};
    ghost use Rattle.disk_stripe.specs.StripeLook.{stripe_disks};

    /// A stripe over two disks.
    pub fn new(a: D, b: D) -> Stripe<D>
        requires equal { (D.seen a).size ≡ (D.seen b).size }
        requires small { (D.seen a).size < 2 ^ 31 }
        ensures { stripe_disks result ≡ (a, b) }
    {
        Stripe { a, b }
    }

    /// The two disks as they are.
    pub fn parts(self) -> (D, D)
        ensures { result ≡ stripe_disks self }
    {
        (self.a, self.b)
    }

    // Reads a block of the disk where it lies.
    fn read_one(&mut self, block: u32, into: &mut [u8]) -> Result<(), Failed>
        requires block { block < (stripe_seen_by D.seen (stripe_disks self.old)).size }
        requires size { length into.old ≡ 4096 }
        ensures { ReadsOne D.seen (stripe_disks self.old) (stripe_disks self.new)
            block into.new result }
    {
        if block % 2 == 0 {
            self.a.read(block / 2, into)
        } else {
            self.b.read(block / 2, into)
        }
    }

    // Writes a block of the disk where it lies.
    fn write_one(&mut self, block: u32, from: &[u8]) -> Result<(), Failed>
        requires block { block < (stripe_seen_by D.seen (stripe_disks self.old)).size }
        requires size { length from.now ≡ 4096 }
        ensures { WritesOne D.seen (stripe_disks self.old) (stripe_disks self.new)
            block from.now result }
    {
        if block % 2 == 0 {
            self.a.write(block / 2, from)
        } else {
            self.b.write(block / 2, from)
        }
    }
}

impl<D: Disk> Disk for Stripe<D> {
    ghost use Rattle.std.specs.Prelude.{length};
    ghost use Rattle.block_device.specs.DiskSeen.{Reads, Writes};
    ghost use Rattle.disk_stripe.specs.StripeSeen.{stripe_seen_by, ReadsOne, WritesOne};
    ghost use Rattle.disk_stripe.specs.StripeLook.{stripe_disks, blocks_of_stripe};

    ghost seen = { λ s. stripe_seen_by D.seen (stripe_disks s) };

    fn blocks(&self) -> u32 {
        self.a.blocks() + self.b.blocks()
    }

    fn faults(&self) -> u64 {
        self.a.faults().saturating_add(self.b.faults())
    }

    fn calls(&self) -> u64 {
        self.a.calls().saturating_add(self.b.calls())
    }

    fn read(&mut self, block: u32, into: &mut [u8]) -> Result<(), Failed>
        requires block { block < (stripe_seen_by D.seen (stripe_disks self.old)).size }
        requires size { length into.old ≡ 4096 }
        ensures reads { Reads (stripe_seen_by D.seen (stripe_disks self.old))
            (stripe_seen_by D.seen (stripe_disks self.new)) block into.new result }
        // One disk is asked.
        ensures one { ReadsOne D.seen (stripe_disks self.old) (stripe_disks self.new)
            block into.new result }
    {
        self.read_one(block, into)
    }

    fn write(&mut self, block: u32, from: &[u8]) -> Result<(), Failed>
        requires block { block < (stripe_seen_by D.seen (stripe_disks self.old)).size }
        requires size { length from.now ≡ 4096 }
        ensures writes { Writes (stripe_seen_by D.seen (stripe_disks self.old))
            (stripe_seen_by D.seen (stripe_disks self.new)) block from.now result }
        // One disk is asked.
        ensures one { WritesOne D.seen (stripe_disks self.old) (stripe_disks self.new)
            block from.now result }
    {
        self.write_one(block, from)
    }

    ghost has_blocks = { blocks_of_stripe D.has_blocks };
}
