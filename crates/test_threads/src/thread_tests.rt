//! Callers on two threads, over disks that wait for what the other thread does. What is told of each act is worked out by hand.
ghost use Rattle.std.specs.Prelude.{◌≡◌, ◌<◌, IfOk};
ghost use Rattle.block_device.specs.MemDiskLook.{look};
ghost use Rattle.block_device.specs.MemSeen.{disk_of};

use crate::acts::Act::{self, Call, Fork, Pageout, WaitFor};
use crate::acts::What::{self, Load, Map, Store, Unmap, Zero};
use crate::acts::{STORED, blocks_with, closed, make_all};
use crate::file_setups::over_files;
use crate::gated_disk::{Event, Gate, GatedDisk};
use crate::overlaps::{Wrong, call_both, turn_during_push, wait_for_page};
use crate::setups::{new_disk, over_swap};
use crate::worker::Told::{self, Done, Made};
use std::alloc::{AllocError, Global};
use std::sync::Wait;
use std::test::Fail;
use std::thread::Threads;
use vm_core::Finished;
use vm_types::Reply::{Mapped, Word};

/// A disk of 16 blocks with a gate; block n is full of n more than this.
fn gated<'a>(alloc: Global, first: u8, gate: Gate<'a>) -> Result<GatedDisk<'a>, AllocError>
    requires { first < 200 }
    ensures { IfOk result (λ disk. (disk_of (look disk.disk)).size ≡ 16) }
{
    Ok(GatedDisk {
        disk: new_disk(alloc, first, &[])?,
        gate: Some(gate),
        was_late: false,
    })
}

/// A gate at the first read.
fn at_read<'a>(begun: &'a Event, until: &'a Event, longer: u32) -> Gate<'a> {
    Gate {
        at_write: false,
        begun,
        until,
        longer,
    }
}

/// A gate at the first write.
fn at_write<'a>(begun: &'a Event, until: &'a Event) -> Gate<'a> {
    Gate {
        at_write: true,
        begun,
        until,
        longer: 0,
    }
}

/// Whether a transfer of a disk ended before what it waited for.
fn was_late(finished: &Finished<GatedDisk<'_>>) -> bool {
    for (_, disk) in finished.disks.as_slice() {
        if disk.was_late {
            return true;
        }
    }
    match &finished.swap {
        Some(disk) => disk.was_late,
        None => false,
    }
}

/// Each process maps a file of its own.
const EACH_MAPS: [(Act, Told); 2] = [
    (Call(1, Map(0x2000, 0x1000, 0)), Done(Mapped(0x2000))),
    (Call(2, Map(0x2000, 0x1000, 1)), Done(Mapped(0x2000))),
];

const FIRST_LOADS: [(What, Told); 1] = [(Load(0x2000), Done(Word(0x0101_0101)))];

const SECOND_LOADS: [(What, Told); 1] = [(Load(0x2000), Done(Word(0x1111_1111)))];

/// Each disk's first read ends once that of the other has begun.
fn overlapped<R: Threads + Wait + Sync>(
    rt: &R,
    alloc: Global,
) -> Result<((Wrong, Wrong), bool), Fail> {
    let first = Event::new();
    let second = Event::new();
    let one = gated(alloc, 0, at_read(&first, &second, 0))?;
    let other = gated(alloc, 16, at_read(&second, &first, 0))?;
    let mut trial = over_files(alloc, one, other)?;
    let mapped = make_all(rt, &mut trial, &EACH_MAPS);
    let (trial, wrong) = call_both(rt, trial, &FIRST_LOADS, &SECOND_LOADS);
    let finished = closed(trial, mapped)?;
    Ok((wrong, was_late(&finished)))
}

#[test]
fn transfers_of_two_disks_overlap(rt: HostRuntime) -> Result<(), Fail> {
    assert_eq!(rt; overlapped(&rt, rt.alloc())?, ((None, None), false));
    Ok(())
}

/// Both processes map one file.
const BOTH_MAP: [(Act, Told); 2] = [
    (Call(1, Map(0x2000, 0x1000, 0)), Done(Mapped(0x2000))),
    (Call(2, Map(0x2000, 0x1000, 0)), Done(Mapped(0x2000))),
];

/// One process reads a page in, which takes a million looks, and the other wants it meanwhile. Whether the other made fewer than 100 turns, and whether
/// the read was late.
fn page_waited_for<R: Threads + Wait + Sync>(
    rt: &R,
    alloc: Global,
) -> Result<(Wrong, bool, bool), Fail> {
    let begun = Event::new();
    let over = Event::new();
    let quiet = Event::new();
    let one = gated(alloc, 0, at_read(&begun, &over, 1_000_000))?;
    let other = gated(alloc, 16, at_read(&quiet, &quiet, 0))?;
    let mut trial = over_files(alloc, one, other)?;
    let mapped = make_all(rt, &mut trial, &BOTH_MAP);
    let (trial, (wrong, turns)) = wait_for_page(
        rt,
        trial,
        &begun,
        &over,
        &FIRST_LOADS,
        Load(0x2000),
    );
    let finished = closed(trial, mapped)?;
    Ok((wrong, turns.is_some(), was_late(&finished)))
}

#[test]
fn who_waits_for_a_page_makes_few_turns(rt: HostRuntime) -> Result<(), Fail> {
    assert_eq!(rt; page_waited_for(&rt, rt.alloc())?, (None, true, false));
    Ok(())
}

/// A private page is stored into.
const A_PAGE: [(Act, Told); 2] = [
    (Call(1, Zero(0x2000, 0x1000)), Done(Mapped(0x2000))),
    (Call(1, Store(0x2000, 0x11)), STORED),
];

/// What is looked at once a page was pushed twice.
#[derive(Clone, Copy, PartialEq, Eq, Debug)]
struct Pushed {
    wrong: Wrong,
    was_late: bool,
    writes: u64,
    /// How many blocks begin with the first word, and with the second.
    words: (u32, u32),
}

/// What is the same in both tests.
const TWICE: Pushed = Pushed {
    wrong: None,
    was_late: false,
    writes: 2,
    words: (0, 1),
};

fn look_at(finished: &Finished<GatedDisk<'_>>, wrong: Wrong) -> Result<Pushed, Fail> {
    match &finished.swap {
        Some(disk) => Ok(Pushed {
            wrong,
            was_late: disk.was_late,
            writes: disk.disk.writes(),
            words: (
                blocks_with(&disk.disk, [0, 0, 0, 0x11]),
                blocks_with(&disk.disk, [0, 0, 0, 0x22]),
            ),
        }),
        None => Err(Fail::new("the swap disk is gone")),
    }
}

/// A page is pushed over one slot; during the push process 1 makes a turn at each of its calls, and then more is done.
fn pushed_twice<R: Threads + Wait + Sync>(
    rt: &R,
    alloc: Global,
    during: &[(What, Told)],
    then: &[(Act, Told)],
) -> Result<Pushed, Fail> {
    let begun = Event::new();
    let over = Event::new();
    let swap = gated(alloc, 0, at_write(&begun, &over))?;
    let mut trial = over_swap(alloc, 1, swap, 0)?;
    let stored = make_all(rt, &mut trial, &A_PAGE);
    let (mut trial, wrong) = turn_during_push(rt, trial, &begun, &over, during);
    let made = match stored {
        Ok(()) => make_all(rt, &mut trial, then),
        Err(fail) => Err(fail),
    };
    let finished = closed(trial, made)?;
    look_at(&finished, wrong)
}

#[test]
fn a_page_is_stored_into_during_its_push(rt: HostRuntime) -> Result<(), Fail> {
    let during = [
        (Load(0x2000), Done(Word(0x11))),
        (Store(0x2000, 0x22), STORED),
    ];
    let then = [
        (Call(1, Load(0x2000)), Done(Word(0x22))),
        (Pageout(32), Made),
    ];
    assert_eq!(rt; pushed_twice(&rt, rt.alloc(), &during, &then)?, TWICE);
    Ok(())
}

/// The page goes during its push, and another takes its slot.
#[test]
fn a_slot_is_used_again_during_a_push(rt: HostRuntime) -> Result<(), Fail> {
    let during = [
        (Unmap(0x2000, 0x1000), STORED),
        (Zero(0x2000, 0x1000), Done(Mapped(0x2000))),
        (Store(0x2000, 0x22), STORED),
    ];
    let then = [
        (Pageout(96), Made),
        (Call(1, Load(0x2000)), Done(Word(0x22))),
    ];
    assert_eq!(rt; pushed_twice(&rt, rt.alloc(), &during, &then)?, TWICE);
    Ok(())
}

/// A page of a parent, whose child is born.
const A_CHILD: [(Act, Told); 3] = [
    (Call(1, Zero(0x2000, 0x1000)), Done(Mapped(0x2000))),
    (Call(1, Store(0x2000, 0x11)), STORED),
    (Fork, STORED),
];

const PARENT_STORES: [(What, Told); 2] = [
    (Store(0x2000, 0x33), STORED),
    (Load(0x2000), Done(Word(0x33))),
];

const CHILD_STORES: [(What, Told); 3] = [
    (Load(0x2000), Done(Word(0x11))),
    (Store(0x2000, 0x22), STORED),
    (Load(0x2000), Done(Word(0x22))),
];

const THEY_MEET: [(Act, Told); 3] = [
    (WaitFor, Made),
    (Call(1, Load(0x2000)), Done(Word(0x33))),
    (Call(2, Load(0x2000)), Done(Word(0x22))),
];

/// A parent and its child store on two threads, and then the parent waits for the child. How many entries there are.
fn forked<R: Threads + Wait + Sync>(
    rt: &R,
    alloc: Global,
) -> Result<((Wrong, Wrong), usize), Fail> {
    let mut trial = over_swap(alloc, 8, new_disk(alloc, 0, &[])?, 1)?;
    let born = make_all(rt, &mut trial, &A_CHILD);
    let (mut trial, wrong) = call_both(rt, trial, &PARENT_STORES, &CHILD_STORES);
    let met = match born {
        Ok(()) => make_all(rt, &mut trial, &THEY_MEET),
        Err(fail) => Err(fail),
    };
    let finished = closed(trial, met)?;
    Ok((wrong, finished.history.entries().len()))
}

#[test]
fn a_parent_and_its_child_run_on_two_threads(rt: HostRuntime) -> Result<(), Fail> {
    assert_eq!(rt; forked(&rt, rt.alloc())?, ((None, None), 10));
    Ok(())
}
