//! Forks, over few frames and slots: pages that a parent and its child share until one of them stores, a grandchild, exits, and forks that are refused. What is
//! told of each act is worked out by hand.
use crate::swap_tests::{Acts, Family, Run, closed_after, made_and_closed};
use std::test::Fail;
use test_acts::Act::{Clock, Do, Land, Plan, Try};
use test_acts::Told::{Done, Landed, Planned, Sent};
use test_acts::What::{Exit, Fork, Load, New, Store, Unmap, Zero};
use test_acts::{NO_SWAP, STORED, Trial, make_all};
use vm_types::Reply::{Mapped, Word};

/// Two private pages, one of which has a slot, and a shared page: a private one is of both until either stores, and a shared one stays so.
fn pages_are_copied_late(trial: &mut Trial) -> Result<(), Fail> {
    make_all(
        trial,
        &[
            (Do(0, Zero(0x2000, 0x2000)), Done(Mapped(0x2000))),
            (Do(0, New(0x8000, 0x1000)), Done(Mapped(0x8000))),
            (Do(0, Store(0x2000, 0x11)), STORED),
            (Do(0, Store(0x8000, 0x77)), STORED),
            (Do(0, Fork(2)), STORED),
            (Do(1, Load(0x2000)), Done(Word(0x11))),
            (Do(1, Store(0x2000, 0x22)), STORED),
            (Do(0, Load(0x2000)), Done(Word(0x11))),
            (Do(0, Store(0x2000, 0x33)), STORED),
            (Do(1, Load(0x2000)), Done(Word(0x22))),
            (Do(1, Store(0x8000, 0x88)), STORED),
            (Do(0, Load(0x8000)), Done(Word(0x88))),
            // The page that had no slot.
            (Do(1, Store(0x3000, 6)), STORED),
            (Do(0, Load(0x3000)), Done(Word(0))),
            (Do(0, Store(0x3000, 5)), STORED),
            (Do(1, Load(0x3000)), Done(Word(6))),
        ],
    )
}

/// The child forks in turn: each of the three has its own pages, also once those before it ended.
fn a_grandchild_stays(trial: &mut Trial) -> Result<(), Fail> {
    make_all(
        trial,
        &[
            (Do(1, Fork(3)), STORED),
            (Do(2, Load(0x2000)), Done(Word(0x22))),
            (Do(2, Load(0x3000)), Done(Word(6))),
            (Do(2, Store(0x2000, 0x44)), STORED),
            (Do(1, Load(0x2000)), Done(Word(0x22))),
            (Do(0, Load(0x2000)), Done(Word(0x33))),
            (Do(0, Exit), STORED),
            (Do(1, Exit), STORED),
            (Do(2, Load(0x2000)), Done(Word(0x44))),
            (Do(2, Load(0x3000)), Done(Word(6))),
            (Do(2, Store(0x3000, 7)), STORED),
            (Do(2, Load(0x8000)), Done(Word(0x88))),
            // All slots but its own are free again: two are of its private pages, and one of the shared one.
            (Do(2, Zero(0x20000, 0x6000)), NO_SWAP),
            (Do(2, Zero(0x20000, 0x5000)), Done(Mapped(0x20000))),
        ],
    )
}

pub(crate) fn share_pages(trial: &mut Trial) -> Result<(), Fail> {
    pages_are_copied_late(trial)?;
    a_grandchild_stays(trial)
}

/// Five private pages and eight slots: a Fork reserves as many more as its process has private pages. A child that is refused may be born later.
pub(crate) fn forks_are_refused(trial: &mut Trial) -> Result<(), Fail> {
    make_all(
        trial,
        &[
            (Do(0, Zero(0x2000, 0x5000)), Done(Mapped(0x2000))),
            (Do(0, Store(0x3000, 9)), STORED),
            (Do(0, Fork(2)), NO_SWAP),
            (Do(0, Unmap(0x2000, 0x1000)), STORED),
            (Do(0, Fork(2)), STORED),
            (Do(0, Fork(3)), NO_SWAP),
            (Do(1, Store(0x3000, 8)), STORED),
            (Do(1, Exit), STORED),
            (Do(0, Fork(3)), STORED),
            (Do(2, Load(0x3000)), Done(Word(9))),
            (Do(0, Exit), STORED),
            (Do(2, Store(0x3000, 7)), STORED),
            (Do(2, Load(0x3000)), Done(Word(7))),
        ],
    )
}

/// Seven private pages through five frames. The search for a victim begins behind the hand, which is at frame 0, and all pages were used: so the page in frame 1, which was
/// stored second, gives way first, and is in swap alone. The child reads it in while the parent, who stored it, ends.
fn a_parent_ends_during_a_read(trial: &mut Trial) -> Result<(), Fail> {
    make_all(
        trial,
        &[
            (Do(0, Zero(0x2000, 0x7000)), Done(Mapped(0x2000))),
            (Do(0, Store(0x2000, 1)), STORED),
            (Do(0, Store(0x3000, 2)), STORED),
            (Do(0, Store(0x4000, 3)), STORED),
            (Do(0, Store(0x5000, 4)), STORED),
            (Do(0, Store(0x6000, 5)), STORED),
            (Do(0, Store(0x7000, 6)), STORED),
            (Do(0, Store(0x8000, 7)), STORED),
            (Do(0, Fork(2)), STORED),
            // A page goes out to make room, and then the page comes in.
            (Try(1, Load(0x3000)), Sent),
            (Land(1), Landed),
            (Try(1, Load(0x3000)), Sent),
            (Do(0, Exit), STORED),
            (Land(1), Landed),
            (Try(1, Load(0x3000)), Done(Word(2))),
            (Do(1, Load(0x2000)), Done(Word(1))),
            (Do(1, Load(0x8000)), Done(Word(7))),
        ],
    )
}

/// A page goes out while its process forks: parent and child both show it then, and each stores into its own.
fn a_page_is_pushed_during_a_fork(trial: &mut Trial) -> Result<(), Fail> {
    make_all(
        trial,
        &[
            (Do(1, Store(0x2000, 0x55)), STORED),
            (Clock(0, 64), Sent),
            (Do(1, Fork(3)), STORED),
            (Land(0), Landed),
            (Do(2, Store(0x2000, 0x66)), STORED),
            (Do(1, Load(0x2000)), Done(Word(0x55))),
            (Do(2, Load(0x2000)), Done(Word(0x66))),
            (Do(2, Load(0x8000)), Done(Word(7))),
        ],
    )
}

/// Six pages through five frames, of which four at most have another page than the one that nobody uses: so each load brings one in, and the tenth at the latest takes the
/// frame of that one.
fn six_pages_are_used(trial: &mut Trial) -> Result<(), Fail> {
    make_all(
        trial,
        &[
            (Do(1, Load(0x2000)), Done(Word(0x55))),
            (Do(1, Load(0x4000)), Done(Word(3))),
            (Do(1, Load(0x5000)), Done(Word(4))),
            (Do(1, Load(0x6000)), Done(Word(5))),
            (Do(1, Load(0x7000)), Done(Word(6))),
            (Do(1, Load(0x8000)), Done(Word(7))),
        ],
    )
}

/// A page of a parent is in swap alone, so that a load needs it. The child, a grandchild of who stored it, stores there: it gets a page of its own.
fn a_grandchild_stores_into_a_page_in_swap(trial: &mut Trial) -> Result<(), Fail> {
    six_pages_are_used(trial)?;
    six_pages_are_used(trial)?;
    make_all(
        trial,
        &[
            (Plan(1, Load(0x3000)), Planned),
            (Do(2, Store(0x3000, 0x77)), STORED),
            (Do(1, Load(0x3000)), Done(Word(2))),
            (Do(2, Load(0x3000)), Done(Word(0x77))),
        ],
    )
}

pub(crate) fn fork_during_transfers(trial: &mut Trial) -> Result<(), Fail> {
    a_parent_ends_during_a_read(trial)?;
    a_page_is_pushed_during_a_fork(trial)?;
    a_grandchild_stores_into_a_page_in_swap(trial)
}

/// Seven private pages through five frames, of which one is in swap alone. A process forks between the plan of a read of it and the read's begin: the plan is dropped,
/// and both find the page.
pub(crate) fn a_fork_drops_a_plan(trial: &mut Trial) -> Result<(), Fail> {
    make_all(
        trial,
        &[
            (Do(0, Zero(0x2000, 0x7000)), Done(Mapped(0x2000))),
            (Do(0, Store(0x2000, 1)), STORED),
            (Do(0, Store(0x3000, 2)), STORED),
            (Do(0, Store(0x4000, 3)), STORED),
            (Do(0, Store(0x5000, 4)), STORED),
            (Do(0, Store(0x6000, 5)), STORED),
            (Do(0, Store(0x7000, 6)), STORED),
            (Do(0, Store(0x8000, 7)), STORED),
            (Plan(0, Load(0x3000)), Planned),
            (Do(0, Fork(2)), STORED),
            // Its own child's load is planned as another one is born.
            (Plan(1, Load(0x3000)), Planned),
            (Do(0, Fork(3)), NO_SWAP),
            (Do(0, Unmap(0x7000, 0x2000)), STORED),
            (Do(1, Unmap(0x7000, 0x2000)), STORED),
            (Plan(1, Load(0x3000)), Planned),
            (Do(0, Fork(3)), STORED),
            (Do(2, Store(0x3000, 9)), STORED),
            (Do(1, Load(0x3000)), Done(Word(2))),
            (Do(0, Load(0x3000)), Done(Word(2))),
            (Do(2, Load(0x3000)), Done(Word(9))),
        ],
    )
}

#[test]
fn a_child_and_a_grandchild_have_their_own_pages(rt: HostRuntime) -> Result<(), Fail> {
    let run = Run {
        family: Family::Line,
        frames: 5,
        slots: 8,
        acts: Acts::SharePages,
    };
    assert_eq!(rt; made_and_closed(rt.alloc(), run)?, closed_after(30, 2, 0));
    Ok(())
}

#[test]
fn a_fork_that_is_refused_bears_nobody(rt: HostRuntime) -> Result<(), Fail> {
    let run = Run {
        family: Family::Pair,
        frames: 5,
        slots: 8,
        acts: Acts::RefuseForks,
    };
    assert_eq!(rt; made_and_closed(rt.alloc(), run)?, closed_after(13, 2, 2));
    Ok(())
}

#[test]
fn processes_fork_and_end_during_transfers(rt: HostRuntime) -> Result<(), Fail> {
    let run = Run {
        family: Family::Line,
        frames: 5,
        slots: 16,
        acts: Acts::ForkDuringTransfers,
    };
    assert_eq!(rt; made_and_closed(rt.alloc(), run)?, closed_after(34, 2, 0));
    Ok(())
}

#[test]
fn a_process_forks_between_a_plan_and_its_begin(rt: HostRuntime) -> Result<(), Fail> {
    let run = Run {
        family: Family::Pair,
        frames: 5,
        slots: 16,
        acts: Acts::DropAPlan,
    };
    assert_eq!(rt; made_and_closed(rt.alloc(), run)?, closed_after(17, 2, 1));
    Ok(())
}
