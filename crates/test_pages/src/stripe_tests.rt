//! A stripe over two disks of two blocks.

use crate::acts::Act::{self, Read, Write};
use crate::acts::Told::{self, Failed, Got, Put};
use crate::acts::{Look, look_at, make_all};
use block_device::{Disk, MemDisk};
use disk_stripe::Stripe;
use std::alloc::Global;
use std::test::Fail;

/// Block n lies on disk n % 2, in its place n / 2; the first disk fails at its third call, the second at its fourth.
const IN_TURN: [(Act, Told); 9] = [
    (Write(0, 10), Put),
    (Write(1, 11), Put),
    (Write(2, 12), Put),
    (Write(3, 13), Put),
    (Read(2), Failed),
    (Read(2), Got(12, 12)),
    (Read(3), Got(13, 13)),
    (Write(1, 21), Failed),
    (Read(1), Got(21, 11)),
];

/// What is seen of the disks of a stripe after the acts, and how many faults and calls it counted.
fn made_on_a_stripe(
    alloc: Global,
    a_fails: &[u64],
    b_fails: &[u64],
    acts: &[(Act, Told)],
) -> Result<(Look, Look, u64, u64), Fail> {
    let a = MemDisk::new(alloc, 2, a_fails.to_vec(alloc)?)?;
    let b = MemDisk::new(alloc, 2, b_fails.to_vec(alloc)?)?;
    let mut stripe = Stripe::new(a, b);
    make_all(&mut stripe, acts)?;
    let (faults, calls) = (stripe.faults(), stripe.calls());
    let (a, b) = stripe.parts();
    Ok((look_at(&a)?, look_at(&b)?, faults, calls))
}

#[test]
fn blocks_lie_on_both_disks_in_turn(rt: HostRuntime) -> Result<(), Fail> {
    let (a, b, faults, calls) = made_on_a_stripe(rt.alloc(), &[3], &[4], &IN_TURN)?;
    assert_eq!(rt; a, ([(10, 10), (12, 12)], 2, 2, 1));
    assert_eq!(rt; b, ([(21, 11), (13, 13)], 2, 3, 1));
    assert_eq!(rt; (faults, calls), (2, 9));
    Ok(())
}
