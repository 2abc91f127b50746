//! Parts of reads and writes, and Truncates, while pages of the file are read in or pushed: two processes over two files on two disks in memory, of which one
//! fails twice. What is told of each act is worked out by hand.
use crate::file_tests::bytes;
use crate::tests::{Acts, Outcome, made_and_closed};
use seg_ops::Hold;
use std::test::Fail;
use test_acts::Act::{Clock, Do, Land, Try};
use test_acts::Told::{Busy, Done, Landed, Sent, Still};
use test_acts::What::{Load, Map, Read, Store, Sync, Truncate, Write};
use test_acts::{FAILS_AGAIN, PAST, READ_FAILS, STORED, Trial, make_all};
use vm_types::Reply::{Mapped, Synced, Word};

/// The old last page of a file that gets longer, page 7 with five bytes, is on its disk, and then away with another seat; its first read fails.
fn the_last_page_is_away(trial: &mut Trial) -> Result<(), Fail> {
    make_all(
        trial,
        &[
            (Try(0, Truncate(0, 28680)), Sent),
            (Try(1, Truncate(0, 28690)), Busy(Hold::Page(0))),
            (Land(0), READ_FAILS),
            (Try(0, Truncate(0, 28680)), Sent),
            (Land(0), Landed),
            (Try(0, Truncate(0, 28680)), STORED),
            (Try(1, Read(0, 28672, 16)), bytes(&[8, 8, 8, 8, 8, 0, 0, 0])),
        ],
    )
}

/// It is home, and then its push is out, as the file gets longer. What was stored behind the old end doesn't come back, and the page goes out once more.
fn the_last_page_is_pushed(trial: &mut Trial) -> Result<(), Fail> {
    make_all(
        trial,
        &[
            (
                Do(0, Map(0x1_0000, 0x9000, true, 0, 0)),
                Done(Mapped(0x1_0000)),
            ),
            (Try(0, Store(0x1_7008, 0x1111_1111)), STORED),
            (Try(1, Truncate(0, 28684)), STORED),
            (Try(0, Load(0x1_7008)), Done(Word(0))),
            (Try(0, Store(0x1_700c, 0x2222_2222)), STORED),
            (Try(0, Sync(0x1_7000, 0x1000)), Sent),
            (Try(1, Write(0, 28688, 1, 0x5a)), STORED),
            (Try(1, Read(0, 28684, 8)), bytes(&[0, 0, 0, 0, 0x5a])),
            (Land(0), Landed),
            (Try(0, Sync(0x1_7000, 0x1000)), Sent),
            (Land(0), FAILS_AGAIN),
            (Try(0, Sync(0x1_7000, 0x1000)), Sent),
            (Land(0), Landed),
            (Try(0, Sync(0x1_7000, 0x1000)), Done(Synced(11))),
        ],
    )
}

/// The hands let go of it, and it is found on its list; and then the last page is a new one, which is blank and in no frame.
fn the_last_page_is_listed_or_blank(trial: &mut Trial) -> Result<(), Fail> {
    make_all(
        trial,
        &[
            (Clock(2, 48), Still),
            (Try(1, Truncate(0, 28700)), STORED),
            (
                Try(1, Read(0, 28672, 64)),
                bytes(&[
                    8, 8, 8, 8, 8, 0, 0, 0, 0, 0, 0, 0, 0, 0, 0, 0, 0x5a, 0, 0, 0, 0, 0, 0, 0, 0,
                    0, 0, 0,
                ]),
            ),
            (Try(1, Truncate(0, 32771)), STORED),
            (Try(1, Truncate(0, 32777)), STORED),
            (
                Try(1, Read(0, 32768, 64)),
                bytes(&[0, 0, 0, 0, 0, 0, 0, 0, 0]),
            ),
        ],
    )
}

/// Page 3 is read in. A Truncate that cuts it waits for it; one that takes it away doesn't, and the page that comes in its place is zeros.
fn a_file_is_cut_during_a_read(trial: &mut Trial) -> Result<(), Fail> {
    make_all(
        trial,
        &[
            (Do(1, Map(0x2000, 0x9000, true, 0, 0)), Done(Mapped(0x2000))),
            (Try(1, Load(0x5000)), Sent),
            (Try(0, Truncate(0, 12290)), Busy(Hold::Page(1))),
            (Try(0, Write(0, 12288, 2, 9)), Busy(Hold::Page(1))),
            (Try(0, Truncate(0, 12288)), STORED),
            (Try(0, Load(0x1_3000)), PAST),
            (Try(0, Truncate(0, 16384)), STORED),
            (Try(0, Load(0x1_3000)), Done(Word(0))),
            (Land(1), Landed),
            (Try(1, Load(0x5000)), Done(Word(0))),
        ],
    )
}

/// Page 3 is pushed from a copy of it. A Truncate cuts it, another one takes it away, and the page that comes in its place is zeros, whatever its block has.
fn a_file_is_cut_during_a_push(trial: &mut Trial) -> Result<(), Fail> {
    make_all(
        trial,
        &[
            (Try(1, Store(0x5000, 0x3333_3333)), STORED),
            (Try(1, Sync(0x5000, 0x1000)), Sent),
            (Try(0, Truncate(0, 12290)), STORED),
            (Try(0, Load(0x1_3000)), Done(Word(0x3333_0000))),
            (Try(0, Truncate(0, 8192)), STORED),
            (Try(0, Truncate(0, 16384)), STORED),
            (Try(0, Read(0, 12288, 4)), bytes(&[0, 0, 0, 0])),
            (Land(1), Landed),
            (Try(1, Sync(0x5000, 0x1000)), Done(Synced(24))),
            (Try(0, Load(0x1_3000)), Done(Word(0))),
        ],
    )
}

/// All six frames have pages that were stored into, so page 3 is pushed in its own frame, and a part of it waits, as does a Truncate that cuts it. One that
/// takes it away doesn't.
fn a_file_is_cut_with_no_frame_free(trial: &mut Trial) -> Result<(), Fail> {
    make_all(
        trial,
        &[
            (Do(0, Truncate(0, 24580)), STORED),
            (Do(0, Store(0x1_0000, 0x0a0a_0a0a)), STORED),
            (Do(0, Store(0x1_1000, 0x0b0b_0b0b)), STORED),
            (Do(0, Store(0x1_2000, 0x0c0c_0c0c)), STORED),
            (Do(0, Store(0x1_3000, 0x0d0d_0d0d)), STORED),
            (Do(0, Store(0x1_4000, 0x0e0e_0e0e)), STORED),
            (Do(0, Store(0x1_5000, 0x0f0f_0f0f)), STORED),
            (Try(1, Sync(0x5000, 0x1000)), Sent),
            (Try(0, Read(0, 12288, 4)), Busy(Hold::Page(1))),
            (Try(0, Truncate(0, 12290)), Busy(Hold::Page(1))),
            (Try(0, Truncate(0, 12288)), STORED),
            (Land(1), Landed),
            (Try(1, Sync(0x5000, 0x1000)), Done(Synced(38))),
            (Try(1, Load(0x5000)), PAST),
        ],
    )
}

/// A part of a write takes a new page, and wants the old last one home, as all frames have pages that were stored into. What was stored behind the old end
/// doesn't come back.
fn a_part_wants_two_pages(trial: &mut Trial) -> Result<(), Fail> {
    make_all(
        trial,
        &[
            (Do(0, Truncate(0, 24580)), STORED),
            (Do(0, Store(0x1_6000, 0x0101_0101)), STORED),
            (Do(0, Store(0x1_6004, 0x2222_2222)), STORED),
            (Do(0, Sync(0x1_6000, 0x1000)), Done(Synced(44))),
            (Do(0, Store(0x1_3000, 0x0d0d_0d0d)), STORED),
            (Do(0, Store(0x1_4000, 0x0e0e_0e0e)), STORED),
            (Do(0, Store(0x1_5000, 0x0f0f_0f0f)), STORED),
            (Do(0, Write(0, 28680, 2, 0x66)), STORED),
            (Do(0, Load(0x1_6000)), Done(Word(0x0101_0101))),
            (Do(0, Load(0x1_6004)), Done(Word(0))),
            (Do(0, Load(0x1_7008)), Done(Word(0x6666_0000))),
            (Do(0, Load(0x1_0000)), Done(Word(0x0a0a_0a0a))),
            (Do(0, Load(0x1_5000)), Done(Word(0x0f0f_0f0f))),
        ],
    )
}

pub(crate) fn move_pages(trial: &mut Trial) -> Result<(), Fail> {
    the_last_page_is_away(trial)?;
    the_last_page_is_pushed(trial)?;
    the_last_page_is_listed_or_blank(trial)?;
    a_file_is_cut_during_a_read(trial)?;
    a_file_is_cut_during_a_push(trial)?;
    a_file_is_cut_with_no_frame_free(trial)?;
    a_part_wants_two_pages(trial)
}

#[test]
fn files_change_while_their_pages_move(rt: HostRuntime) -> Result<(), Fail> {
    let due = Outcome {
        fault: None,
        entries: 54,
        faults: (Some(2), Some(0)),
        wrong: None,
    };
    assert_eq!(rt; made_and_closed(rt.alloc(), Acts::MovePages)?, due);
    Ok(())
}
