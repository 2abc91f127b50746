//! A mirror of two disks of two blocks.

use crate::acts::Act::{self, Read, Write};
use crate::acts::Told::{self, Failed, Got, Put};
use crate::acts::{Look, look_at, make_all};
use block_device::{Disk, MemDisk};
use disk_mirror::Mirror;
use std::alloc::Global;
use std::test::Fail;

/// The first disk fails at its calls 2, 4, 7 and 10, the second at its calls 3, 5 and 6.
const IN_TURNS: [(Act, Told); 13] = [
    // Both take it; then the first fails, and only the second is asked.
    (Write(0, 10), Put),
    (Write(0, 11), Put),
    (Read(0), Failed),
    (Read(0), Got(11, 11)),
    // A block that wasn't written is the first disk's, and only that is asked.
    (Read(1), Got(0, 0)),
    (Read(1), Failed),
    // The second fails; then both do, and the block is what the first has of it.
    (Write(0, 12), Put),
    (Read(0), Got(12, 12)),
    (Write(0, 13), Failed),
    (Read(0), Got(13, 12)),
    // Both take it. The first fails to read it, and the second gives it; after that the first is asked again.
    (Write(0, 14), Put),
    (Read(0), Got(14, 14)),
    (Read(0), Got(14, 14)),
];

/// Told whichever single call of either disk fails. Without a failure the first disk is called eight times, and the second four.
const WHOLE: [(Act, Told); 8] = [
    (Write(0, 10), Put),
    (Write(1, 11), Put),
    (Read(0), Got(10, 10)),
    (Write(0, 12), Put),
    (Read(0), Got(12, 12)),
    (Read(1), Got(11, 11)),
    (Write(1, 13), Put),
    (Read(1), Got(13, 13)),
];

/// What is seen of the disks of a mirror after the acts, and how many faults and calls it counted.
fn made_on_a_mirror(
    alloc: Global,
    a_fails: &[u64],
    b_fails: &[u64],
    acts: &[(Act, Told)],
) -> Result<(Look, Look, u64, u64), Fail> {
    let a = MemDisk::new(alloc, 2, a_fails.to_vec(alloc)?)?;
    let b = MemDisk::new(alloc, 2, b_fails.to_vec(alloc)?)?;
    let Ok(mut mirror) = Mirror::new(alloc, a, b) else {
        return Err(Fail::new("there is memory"));
    };
    make_all(&mut mirror, acts)?;
    let (faults, calls) = (mirror.faults(), mirror.calls());
    let (a, b) = mirror.parts();
    Ok((look_at(&a)?, look_at(&b)?, faults, calls))
}

#[test]
fn a_mirror_goes_on_while_a_disk_has_the_block(rt: HostRuntime) -> Result<(), Fail> {
    let (a, b, faults, calls) = made_on_a_mirror(
        rt.alloc(),
        &[2, 4, 7, 10],
        &[3, 5, 6],
        &IN_TURNS,
    )?;
    assert_eq!(rt; a, ([(14, 14), (0, 0)], 6, 5, 4));
    assert_eq!(rt; b, ([(14, 14), (0, 0)], 3, 5, 3));
    assert_eq!(rt; (faults, calls), (7, 19));
    Ok(())
}

#[test]
fn one_call_that_fails_is_not_told(rt: HostRuntime) -> Result<(), Fail> {
    let (_, _, faults, calls) = made_on_a_mirror(rt.alloc(), &[], &[], &WHOLE)?;
    assert_eq!(rt; (faults, calls), (0, 12));
    for call in 1..=8 {
        let (a, b, _, _) = made_on_a_mirror(rt.alloc(), &[call], &[], &WHOLE)?;
        assert_eq!(rt; (a.3, b.3), (1, 0));
    }
    for call in 1..=4 {
        let (a, b, _, _) = made_on_a_mirror(rt.alloc(), &[], &[call], &WHOLE)?;
        assert_eq!(rt; (a.3, b.3), (0, 1));
    }
    Ok(())
}
