//! Disks of a rack that stand for one disk of two blocks, or for two. Their acts are made on a thread.

use crate::acts::Act::{self, Read, Write};
use crate::acts::Told::{self, Failed, Got, Put};
use crate::acts::{Look, look_at, make_all};
use block_device::{Disk, MemDisk, MemRack, Spec, Unopened};
use joined_disk::JoinedDisk;
use std::alloc::Global;
use std::test::Fail;
use std::thread::{self, Threads};

// Disk 1 is the first of each pair and fails at its third call; disk 0 is the second, and fails at its second.

/// Disk 1 by itself.
const ON_ONE: [(Act, Told); 4] = [
    (Write(0, 10), Put),
    (Write(1, 11), Put),
    (Read(0), Failed),
    (Read(1), Got(11, 11)),
];

/// Blocks 0 and 2 lie on disk 1, blocks 1 and 3 on disk 0.
const IN_TURN: [(Act, Told); 7] = [
    (Write(0, 10), Put),
    (Write(1, 11), Put),
    (Write(2, 12), Put),
    (Read(3), Failed),
    (Read(2), Failed),
    (Read(3), Got(0, 0)),
    (Read(2), Got(12, 12)),
];

/// Both blocks lie on both disks. Disk 0 fails to take block 1, and disk 1 then to take block 0.
const ON_BOTH: [(Act, Told); 5] = [
    (Write(0, 10), Put),
    (Write(1, 11), Put),
    (Write(0, 12), Put),
    (Read(0), Got(12, 12)),
    (Read(1), Got(11, 11)),
];

fn attached(rack: &mut MemRack, number: u32) -> Result<Unopened<MemDisk>, Fail> {
    match Unopened::attach(rack, &Spec::Blank { number, blocks: 2 }) {
        Ok(disk) => Ok(disk),
        Err(_) => Err(Fail::new("there is memory")),
    }
}

/// The disk that stands for two disks of as many blocks.
fn of_two(
    alloc: Global,
    a: Unopened<MemDisk>,
    b: Unopened<MemDisk>,
    mirror: bool,
) -> Result<Unopened<JoinedDisk<MemDisk>>, Fail> {
    let blocks = a.blocks();
    if blocks != b.blocks() || blocks > 2 {
        return Err(Fail::new("each disk has two blocks"));
    }
    match a.pair(alloc, Some(b), mirror) {
        Ok(pair) => Ok(pair),
        Err(_) => Err(Fail::new("there is memory")),
    }
}

/// The disk that stands for one disk.
fn of_one(alloc: Global, a: Unopened<MemDisk>) -> Result<Unopened<JoinedDisk<MemDisk>>, Fail> {
    match a.pair(alloc, None, false) {
        Ok(pair) => Ok(pair),
        Err(_) => Err(Fail::new("one disk takes no memory")),
    }
}

/// Attaches disk 1, and disk 0 where it is to be mirrored or striped, and pairs them.
fn paired(alloc: Global, mirror: Option<bool>) -> Result<Unopened<JoinedDisk<MemDisk>>, Fail> {
    let mut fails = Vec::new(alloc);
    fails.push([2].to_vec(alloc)?)?;
    fails.push([3].to_vec(alloc)?)?;
    let mut rack = MemRack::new(alloc, Vec::new(alloc), fails);
    let first = attached(&mut rack, 1)?;
    match mirror {
        Some(mirror) => of_two(alloc, first, attached(&mut rack, 0)?, mirror),
        None => of_one(alloc, first),
    }
}

fn made(mut disk: JoinedDisk<MemDisk>, acts: &[(Act, Told)]) -> Result<JoinedDisk<MemDisk>, Fail> {
    make_all(&mut disk, acts)?;
    Ok(disk)
}

/// How many faults and calls a pair counted, and what is seen of each of its disks.
type Seen = (u64, u64, Look, Option<Look>);

/// What is seen of disk 1, or of it and disk 0 as a mirror or a stripe, after the acts, which are made on a thread.
fn made_on_a_thread(
    rt: &impl Threads,
    alloc: Global,
    mirror: Option<bool>,
    acts: &[(Act, Told)],
) -> Result<Seen, Fail> {
    let pair = paired(alloc, mirror)?;
    if pair.number() != 1 {
        return Err(Fail::new("a pair has the number of its first disk"));
    }
    let disk = pair.into_disk();
    let (disk, _) = thread::join(rt, move || made(disk, acts), || ());
    let disk = disk?;
    let (faults, calls) = (disk.faults(), disk.calls());
    match disk.parts() {
        (a, Some(b)) => Ok((faults, calls, look_at(&a)?, Some(look_at(&b)?))),
        (a, None) => Ok((faults, calls, look_at(&a)?, None)),
    }
}

#[test]
fn a_pair_is_the_disks_it_stands_for(rt: HostRuntime) -> Result<(), Fail> {
    assert_eq!(rt;
        made_on_a_thread(&rt, rt.alloc(), None, &ON_ONE)?,
        (1, 4, ([(10, 10), (11, 11)], 2, 2, 1), None)
    );
    assert_eq!(rt;
        made_on_a_thread(&rt, rt.alloc(), Some(false), &IN_TURN)?,
        (
            2,
            7,
            ([(10, 10), (12, 12)], 2, 2, 1),
            Some(([(11, 11), (0, 0)], 2, 1, 1))
        )
    );
    assert_eq!(rt;
        made_on_a_thread(&rt, rt.alloc(), Some(true), &ON_BOTH)?,
        (
            2,
            8,
            ([(12, 10), (11, 11)], 1, 3, 1),
            Some(([(12, 12), (11, 0)], 1, 3, 1))
        )
    );
    Ok(())
}
