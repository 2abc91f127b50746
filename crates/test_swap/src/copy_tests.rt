//! A store that copies a page which is in swap, where each frame has a modified page: one push for the frame of the page that is read, the read, and no more, since the
//! copy gets that page's frame. What is told of each act is worked out by hand.
use crate::swap_tests::{Acts, Family, Run, closed_after, made_and_closed};
use std::test::Fail;
use test_acts::Act::{Do, Land, Try};
use test_acts::Told::{Done, Landed, Sent};
use test_acts::What::{Fork, Load, Store, Zero};
use test_acts::{STORED, Trial, make_all};
use vm_types::Reply::{Mapped, Word};

/// Seven private pages of process 1 through five frames, all of them stored. The search for a victim begins behind the hand, which is at frame 0, and all pages were
/// used as the sixth is stored: so the pages in frames 1 and 2, at 0x3000 and 0x4000, are in swap alone. The child, process 2, shares all seven.
fn fill_frames(trial: &mut Trial) -> Result<(), Fail> {
    make_all(
        trial,
        &[
            (Do(0, Zero(0x2000, 0x7000)), Done(Mapped(0x2000))),
            (Do(0, Store(0x2000, 1)), STORED),
            (Do(0, Store(0x3000, 2)), STORED),
            (Do(0, Store(0x4000, 3)), STORED),
            (Do(0, Store(0x5000, 4)), STORED),
            (Do(0, Store(0x6000, 5)), STORED),
            (Do(0, Store(0x7000, 6)), STORED),
            (Do(0, Store(0x8000, 7)), STORED),
            (Do(0, Fork(2)), STORED),
        ],
    )
}

/// The child stores to a page that is in swap: a page is pushed, the page is read in, and the store is done. Its word at 4 of the page is its parent's still, which
/// has its own page.
pub(crate) fn copy_among_modified(trial: &mut Trial) -> Result<(), Fail> {
    fill_frames(trial)?;
    make_all(
        trial,
        &[
            (Try(1, Store(0x3004, 9)), Sent),
            (Land(1), Landed),
            (Try(1, Store(0x3004, 9)), Sent),
            (Land(1), Landed),
            (Try(1, Store(0x3004, 9)), STORED),
            (Try(1, Load(0x3004)), Done(Word(9))),
            (Try(1, Load(0x3000)), Done(Word(2))),
            (Do(0, Load(0x3004)), Done(Word(0))),
            (Do(0, Load(0x3000)), Done(Word(2))),
            (Do(1, Load(0x3004)), Done(Word(9))),
        ],
    )
}

#[test]
fn a_store_that_copies_a_page_makes_two_transfers(rt: HostRuntime) -> Result<(), Fail> {
    let run = Run {
        family: Family::Line,
        frames: 5,
        slots: 16,
        acts: Acts::CopyAmongModified,
    };
    assert_eq!(rt; made_and_closed(rt.alloc(), run)?, closed_after(15, 1, 0));
    Ok(())
}
