//! Reads, writes and truncates of one part, beside mappings of the same files: two processes over two files on two disks in memory, of which one fails twice. What
//! is told of each act is worked out by hand.
ghost use Rattle.std.specs.Prelude.{◌≤◌, length};

use crate::tests::{Acts, Outcome, made_and_closed};
use seg_ops::Hold;
use std::test::Fail;
use test_acts::Act::{Do, Land, Try};
use test_acts::Told::{self, Busy, Done, Landed, Sent};
use test_acts::What::{Load, Map, Read, Store, Truncate, Write};
use test_acts::{FAILS_AGAIN, NO_OBJECT, PAST, READ_FAILS, STORED, Trial, make_all};
use vm_types::Reply::{self, Mapped, Word};
use vm_types::{Errno, Line};

const READ_ONLY: Told = Done(Reply::Refused(Errno::ReadOnly));

const TOO_BIG: Told = Done(Reply::Refused(Errno::TooBig));

/// These bytes.
pub(crate) fn bytes(from: &[u8]) -> Told
    requires { length from.now ≤ 64 }
{
    Done(Reply::Bytes(Line::new(from)))
}

/// A part that meets a device error leaves all as it was, and the next one is done. What one process writes the mapping of the other shows, and what
/// that stores a part reads. Page k of file 0 is full of bytes k + 1.
fn parts_and_mappings_show_one_file(trial: &mut Trial) -> Result<(), Fail> {
    make_all(
        trial,
        &[
            (Do(0, Read(0, 0, 4)), READ_FAILS),
            (Do(0, Read(0, 0, 4)), bytes(&[1, 1, 1, 1])),
            (
                Do(0, Map(0x1_0000, 0x9000, true, 0, 0)),
                Done(Mapped(0x1_0000)),
            ),
            (Try(0, Load(0x1_0000)), Done(Word(0x0101_0101))),
            (Try(1, Write(0, 1, 2, 0x61)), STORED),
            (Try(0, Load(0x1_0000)), Done(Word(0x0161_6101))),
            (Try(0, Store(0x1_0004, 0x7778_797a)), STORED),
            (
                Try(1, Read(0, 3, 5)),
                bytes(&[0x01, 0x77, 0x78, 0x79, 0x7a]),
            ),
        ],
    )
}

/// What was stored behind the end of file 0, at byte 5 of its last page, doesn't come back as the file gets longer; page 8 comes to be.
fn a_file_gets_longer(trial: &mut Trial) -> Result<(), Fail> {
    make_all(
        trial,
        &[
            (Do(0, Load(0x1_7004)), Done(Word(0x0800_0000))),
            (Do(1, Read(0, 4096, 1)), FAILS_AGAIN),
            (Do(1, Read(0, 4096, 1)), bytes(&[2])),
            (Do(0, Store(0x1_7008, 0x1111_1111)), STORED),
            (Do(0, Load(0x1_7008)), Done(Word(0x1111_1111))),
            // A short part ends at the end of the file.
            (Do(1, Read(0, 28672, 16)), bytes(&[8, 8, 8, 8, 8])),
            (Do(1, Read(0, 28677, 16)), bytes(&[])),
            (Do(1, Write(0, 28684, 1, 0x5a)), STORED),
            (Do(0, Load(0x1_7004)), Done(Word(0x0800_0000))),
            (Do(0, Load(0x1_7008)), Done(Word(0))),
            (Do(0, Load(0x1_700c)), Done(Word(0x5a00_0000))),
            (Do(0, Load(0x1_8000)), PAST),
            (Do(1, Write(0, 32771, 2, 0x5b)), STORED),
            (Do(0, Load(0x1_8000)), Done(Word(0x0000_005b))),
            (Do(0, Load(0x1_8004)), Done(Word(0x5b00_0000))),
            (Do(0, Read(0, 32768, 64)), bytes(&[0, 0, 0, 0x5b, 0x5b])),
        ],
    )
}

/// The pages past the end are gone, also for the mapping, and what was behind it is zeros as the file gets longer, whatever its blocks have.
fn a_file_gets_shorter(trial: &mut Trial) -> Result<(), Fail> {
    make_all(
        trial,
        &[
            (Do(1, Truncate(0, 2)), STORED),
            (Do(0, Load(0x1_1000)), PAST),
            (Do(0, Load(0x1_0000)), Done(Word(0x0161_0000))),
            (Do(0, Store(0x1_0004, 0x2222_2222)), STORED),
            (Do(1, Read(0, 0, 64)), bytes(&[0x01, 0x61])),
            (Do(1, Truncate(0, 8192)), STORED),
            (Do(0, Load(0x1_0000)), Done(Word(0x0161_0000))),
            (Do(0, Load(0x1_0004)), Done(Word(0))),
            (Do(0, Load(0x1_1000)), Done(Word(0))),
            (Do(0, Load(0x1_2000)), PAST),
        ],
    )
}

/// Each refusal before those that come later, and nothing changed. Disk 0 has 15 blocks for the pages of its one file.
fn calls_on_files_are_refused(trial: &mut Trial) -> Result<(), Fail> {
    make_all(
        trial,
        &[
            (Do(0, Read(2, 0, 1)), NO_OBJECT),
            (Do(0, Write(2, 0, 1, 1)), NO_OBJECT),
            (Do(0, Truncate(2, 0)), NO_OBJECT),
            (Do(0, Write(1, 0xffff_ffc0, 64, 1)), READ_ONLY),
            (Do(0, Truncate(1, 0)), READ_ONLY),
            (Do(0, Write(0, 0xffff_ffc0, 64, 1)), TOO_BIG),
            (Do(0, Truncate(0, 61441)), TOO_BIG),
            (Do(0, Write(0, 61440, 1, 1)), TOO_BIG),
            (Do(0, Load(0x1_2000)), PAST),
            (Do(0, Write(0, 61439, 1, 0x7f)), STORED),
            (Do(0, Read(0, 61436, 64)), bytes(&[0, 0, 0, 0x7f])),
            (Do(0, Load(0x1_2000)), Done(Word(0))),
        ],
    )
}

/// Parts of two processes want one page, and one disk.
fn parts_want_one_page(trial: &mut Trial) -> Result<(), Fail> {
    make_all(
        trial,
        &[
            (Try(1, Read(1, 0, 4)), Sent),
            (Try(0, Read(1, 8, 4)), Busy(Hold::Page(1))),
            (Try(0, Read(1, 4096, 9)), Busy(Hold::Disk(1))),
            (Try(0, Read(1, 4101, 9)), bytes(&[])),
            (Land(1), Landed),
            (Try(0, Read(1, 8, 4)), bytes(&[0x11, 0x11, 0x11, 0x11])),
            (
                Do(0, Read(1, 4096, 9)),
                bytes(&[0x12, 0x12, 0x12, 0x12, 0x12]),
            ),
        ],
    )
}

pub(crate) fn change_files(trial: &mut Trial) -> Result<(), Fail> {
    parts_and_mappings_show_one_file(trial)?;
    a_file_gets_longer(trial)?;
    a_file_gets_shorter(trial)?;
    calls_on_files_are_refused(trial)?;
    parts_want_one_page(trial)
}

#[test]
fn two_processes_change_files(rt: HostRuntime) -> Result<(), Fail> {
    let due = Outcome {
        fault: None,
        entries: 49,
        faults: (Some(2), Some(0)),
        wrong: None,
    };
    assert_eq!(rt; made_and_closed(rt.alloc(), Acts::ChangeFiles)?, due);
    Ok(())
}
