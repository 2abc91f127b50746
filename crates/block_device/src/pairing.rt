//! Disks that stand for one disk or for two.
ghost use Rattle.std.specs.Prelude.{◌≡◌, Bool, false, Option, None, IfOk, IfErr};
ghost use Rattle.block_device.specs.Pairs.{CanPair};

use crate::Disk;
use std::alloc::Global;

/// A disk that stands for one disk, or for two that are striped or mirrored.
pub trait Pairing<D: Disk>: Disk {
    ghost pairs: { D → Option D → Bool → Self → Type 0 };

    /// The disk that stands for `a`, or for `a` and `b`: mirrored or striped. The error is want of memory,
    /// and gives the disks back.
    fn pair(alloc: Global, a: D, b: Option<D>, mirror: bool) -> Result<Self, (D, Option<D>)>
        requires { CanPair D.seen a b mirror }
        ensures pair { IfOk result (pairs a b mirror) }
        ensures back { IfErr result (λ disks. disks ≡ (a, b)) };

    /// The disk that stands for `a` alone. It takes no memory.
    fn alone(a: D) -> Self
        ensures { pairs a None false result };
}
