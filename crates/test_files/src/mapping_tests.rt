//! Syncs, and mappings that change, beside another process's stores and transfers: two processes over two files on two disks in memory, of which one fails
//! twice. What is told of each act is worked out by hand.
use crate::tests::{Acts, Outcome, made_and_closed};
use seg_ops::Hold;
use std::test::Fail;
use test_acts::Act::{Clock, Do, Land, Plan, Try};
use test_acts::Told::{Busy, Done, Landed, Planned, Sent, Still};
use test_acts::What::{Load, Map, Protect, Store, Sync, Unmap};
use test_acts::{
    FAILS_AGAIN, INVALID, NO_MAP, NOT_MAPPED, PAST, PROT, READ_FAILS, STORED, Trial, make_all,
};
use vm_types::Reply::{Mapped, Synced, Word};

/// The first push of a Sync fails, and the next Sync makes it again. The other process's Sync of the page waits for the disk.
fn a_push_of_a_sync_fails(trial: &mut Trial) -> Result<(), Fail> {
    make_all(
        trial,
        &[
            (
                Do(0, Map(0x1_0000, 0x8000, true, 0, 0)),
                Done(Mapped(0x1_0000)),
            ),
            (Do(1, Map(0x2000, 0x8000, true, 0, 0)), Done(Mapped(0x2000))),
            (Do(0, Load(0x1_0000)), READ_FAILS),
            (Do(0, Store(0x1_0000, 5)), STORED),
            (Do(0, Store(0x1_1000, 6)), STORED),
            (Try(0, Sync(0x1_0000, 0x2000)), Sent),
            (Land(0), FAILS_AGAIN),
            (Try(0, Sync(0x1_0000, 0x2000)), Sent),
            (Try(1, Sync(0x2000, 0x1000)), Busy(Hold::Disk(0))),
            (Land(0), Landed),
        ],
    )
}

/// The other process stores into the first page while it is the first that isn't clean, and again while the second page is
/// pushed. The Sync is done where both are clean, and began before these stores, behind six entries.
fn another_process_stores_beside_a_sync(trial: &mut Trial) -> Result<(), Fail> {
    make_all(
        trial,
        &[
            (Try(1, Store(0x2000, 7)), STORED),
            (Try(0, Sync(0x1_0000, 0x2000)), Sent),
            (Land(0), Landed),
            (Try(0, Sync(0x1_0000, 0x2000)), Sent),
            (Try(1, Store(0x2000, 8)), STORED),
            (Land(0), Landed),
            (Try(0, Sync(0x1_0000, 0x2000)), Sent),
            (Land(0), Landed),
            (Try(0, Sync(0x1_0000, 0x2000)), Done(Synced(6))),
        ],
    )
}

/// A page of the range is being read in for the other process; pages past the file's end, and what isn't mapped.
fn syncs_wait_and_are_refused(trial: &mut Trial) -> Result<(), Fail> {
    make_all(
        trial,
        &[
            (Try(1, Load(0x4000)), Sent),
            (Try(0, Sync(0x1_0000, 0x3000)), Busy(Hold::Page(1))),
            (Land(1), Landed),
            (Try(0, Sync(0x1_0000, 0x3000)), Done(Synced(9))),
            (Try(1, Load(0x4000)), Done(Word(0x0303_0303))),
            (Do(0, Sync(0x1_0001, 0x1000)), INVALID),
            (Do(0, Sync(0x1_7000, 0x2000)), NOT_MAPPED),
            (
                Do(0, Map(0x3_0000, 0x9000, true, 0, 0)),
                Done(Mapped(0x3_0000)),
            ),
            (Try(0, Sync(0x3_0000, 0x9000)), Done(Synced(14))),
        ],
    )
}

/// Both hands come by twice while the page is pushed. They clear what was said of its use, and it doesn't count as stored into for it.
fn hands_pass_beside_a_sync(trial: &mut Trial) -> Result<(), Fail> {
    make_all(
        trial,
        &[
            (Do(0, Store(0x1_0000, 9)), STORED),
            (Try(0, Sync(0x1_0000, 0x1000)), Sent),
            (Clock(1, 48), Still),
            (Land(0), Landed),
            (Try(0, Sync(0x1_0000, 0x1000)), Done(Synced(16))),
        ],
    )
}

/// A Sync that has to wait is given up. The one that its process makes then is of another range, so it begins where it is made, and so
/// does the first range's when that is synced again.
fn a_sync_that_is_given_up_lends_no_start(trial: &mut Trial) -> Result<(), Fail> {
    make_all(
        trial,
        &[
            (Try(1, Load(0x5000)), Sent),
            (Try(0, Sync(0x1_0000, 0x4000)), Busy(Hold::Page(1))),
            (Land(1), Landed),
            (Try(1, Load(0x5000)), Done(Word(0x0404_0404))),
            (Try(0, Sync(0x1_0000, 0x2000)), Done(Synced(18))),
            (Try(0, Sync(0x1_0000, 0x4000)), Done(Synced(19))),
        ],
    )
}

pub(crate) fn sync_pages(trial: &mut Trial) -> Result<(), Fail> {
    a_push_of_a_sync_fails(trial)?;
    another_process_stores_beside_a_sync(trial)?;
    syncs_wait_and_are_refused(trial)?;
    hands_pass_beside_a_sync(trial)?;
    a_sync_that_is_given_up_lends_no_start(trial)
}

/// The second file is laid over the middle of a mapping, while a page that it shows there is read in for the other process.
fn a_mapping_is_replaced_during_a_read(trial: &mut Trial) -> Result<(), Fail> {
    make_all(
        trial,
        &[
            (
                Do(0, Map(0x1_0000, 0x8000, true, 0, 0)),
                Done(Mapped(0x1_0000)),
            ),
            (Do(1, Map(0x2000, 0x8000, true, 0, 0)), Done(Mapped(0x2000))),
            (Do(0, Load(0x1_0000)), READ_FAILS),
            (Try(1, Load(0x4000)), Sent),
            (
                Do(0, Map(0x1_1000, 0x3000, false, 1, 0)),
                Done(Mapped(0x1_1000)),
            ),
            (Try(0, Load(0x1_2000)), Sent),
            (Land(1), Landed),
            (Land(0), Landed),
            (Try(1, Load(0x4000)), Done(Word(0x0303_0303))),
            (Try(0, Load(0x1_2000)), Done(Word(0x1212_1212))),
            (Do(0, Load(0x1_3000)), PAST),
            (Do(0, Load(0x1_4000)), Done(Word(0x0505_0505))),
            (Do(0, Load(0x1_0000)), FAILS_AGAIN),
            (Do(0, Load(0x1_0000)), Done(Word(0x0101_0101))),
        ],
    )
}

/// A page loses the right to be written between the plan to read it in for a store and the transfer's begin; and the other process
/// takes the right from itself before a load of the page goes on.
fn a_page_is_protected_before_its_read(trial: &mut Trial) -> Result<(), Fail> {
    make_all(
        trial,
        &[
            (Plan(0, Store(0x1_5000, 9)), Planned),
            (Do(0, Protect(0x1_5000, 0x1000, false)), STORED),
            (Try(0, Store(0x1_5000, 9)), PROT),
            (Plan(0, Load(0x1_5000)), Planned),
            (Do(1, Protect(0x7000, 0x1000, false)), STORED),
            (Try(0, Load(0x1_5000)), Sent),
            (Land(0), Landed),
            (Try(0, Load(0x1_5000)), Done(Word(0x0606_0606))),
            (Try(1, Store(0x7000, 9)), PROT),
            (Try(1, Load(0x7000)), Done(Word(0x0606_0606))),
        ],
    )
}

/// A page that was stored into is unmapped while the other process's Sync has it pushed, from a copy in the frame that is free. Nobody
/// stored into it since its push began, so the Sync is done as the push ends.
fn a_page_is_unmapped_during_a_sync(trial: &mut Trial) -> Result<(), Fail> {
    make_all(
        trial,
        &[
            (Do(0, Store(0x1_0000, 3)), STORED),
            (Try(1, Sync(0x2000, 0x1000)), Sent),
            (Do(0, Unmap(0x1_0000, 0x1000)), STORED),
            (Do(0, Load(0x1_0000)), NO_MAP),
            (Land(1), Landed),
            (Try(1, Sync(0x2000, 0x1000)), Done(Synced(17))),
        ],
    )
}

/// The six frames have pages 2, 4, 0, 5 and 7 of the first file and page 1 of the second: so a page goes out in its own frame, and
/// the other process's Sync of it waits for the seat that moves it.
fn a_frame_is_out_for_a_sync(trial: &mut Trial) -> Result<(), Fail> {
    make_all(
        trial,
        &[
            (Do(1, Load(0x9000)), Done(Word(0x0808_0808))),
            (Do(1, Store(0x2000, 4)), STORED),
            (Try(1, Sync(0x2000, 0x1000)), Sent),
            (
                Do(0, Map(0x3_0000, 0x1000, true, 0, 0)),
                Done(Mapped(0x3_0000)),
            ),
            (Try(0, Sync(0x3_0000, 0x1000)), Busy(Hold::Page(1))),
            (Land(1), Landed),
            (Try(1, Sync(0x2000, 0x1000)), Done(Synced(22))),
            (Try(0, Sync(0x3_0000, 0x1000)), Done(Synced(23))),
        ],
    )
}

pub(crate) fn change_mappings(trial: &mut Trial) -> Result<(), Fail> {
    a_mapping_is_replaced_during_a_read(trial)?;
    a_page_is_protected_before_its_read(trial)?;
    a_page_is_unmapped_during_a_sync(trial)?;
    a_frame_is_out_for_a_sync(trial)
}

/// No fault at the close, and two of disk 0 before it.
fn closed_after(entries: usize) -> Outcome {
    Outcome {
        fault: None,
        entries,
        faults: (Some(2), Some(0)),
        wrong: None,
    }
}

#[test]
fn pages_are_synced_beside_another_process(rt: HostRuntime) -> Result<(), Fail> {
    let made = made_and_closed(rt.alloc(), Acts::SyncPages)?;
    assert_eq!(rt; made, closed_after(20));
    Ok(())
}

#[test]
fn mappings_change_beside_transfers(rt: HostRuntime) -> Result<(), Fail> {
    let made = made_and_closed(rt.alloc(), Acts::ChangeMappings)?;
    assert_eq!(rt; made, closed_after(25));
    Ok(())
}
