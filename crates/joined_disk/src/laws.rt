//! The law of two disks as one. The function does nothing: its contract is the law.
ghost use Rattle.std.specs.Prelude.{IsTrue, IsFalse};
ghost use Rattle.disk_stripe.specs.block_device.DiskSeen.{DiskSeen};
ghost use Rattle.joined_disk.specs.JoinedLaws.{MirrorsBlocks, StripesBlocks, TellBlocks};

/// Each block of two disks as one is a block of one of them, where they tell: a mirror's at its own
/// number, a stripe's in turn.
pub fn joined_blocks_law()
    ensures mirror { (a b disk : DiskSeen) → (t : TellBlocks a b disk) →
        IsTrue disk.kind.mirror → MirrorsBlocks a b disk t }
    ensures stripe { (a b disk : DiskSeen) → (t : TellBlocks a b disk) →
        IsFalse disk.kind.mirror → StripesBlocks a b disk t }
{}
