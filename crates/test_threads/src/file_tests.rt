//! Callers over two files, on one thread, turn by turn. What is told of each act is worked out by hand.
use crate::acts::Act::{self, Call, Turn};
use crate::acts::What::{Load, Map};
use crate::acts::{MOVED, maker, played};
use crate::file_setups::over_files;
use crate::setups::new_disk;
use crate::worker::Told::{self, Done};
use block_device::Disk;
use std::alloc::Global;
use std::sync::Wait;
use std::test::Fail;
use vm_core::Finished;
use vm_types::Reply::{Io, Mapped, Word};

/// How often the disk at this place was called.
fn calls<D: Disk>(finished: &Finished<D>, place: usize) -> u64 {
    match finished.disks.get(place) {
        Some((_, disk)) => disk.calls(),
        None => 0,
    }
}

/// Both processes map the first file. One reads a page in, the other finds it, and then the first does.
const ONE_PAGE: [(Act, Told); 5] = [
    (Call(1, Map(0x2000, 0x8000, 0)), Done(Mapped(0x2000))),
    (Call(2, Map(0x2000, 0x8000, 0)), Done(Mapped(0x2000))),
    (Turn(1, Load(0x3000)), MOVED),
    (Turn(2, Load(0x3000)), Done(Word(0x0202_0202))),
    (Turn(1, Load(0x3000)), Done(Word(0x0202_0202))),
];

/// Who made the last two entries, and the calls of disk 0.
fn one_page_read<R: Wait>(rt: &R, alloc: Global) -> Result<(u32, u32, u64), Fail> {
    let trial = over_files(alloc, new_disk(alloc, 0, &[])?, new_disk(alloc, 16, &[])?)?;
    let finished = played(rt, trial, &ONE_PAGE)?;
    Ok((
        maker(&finished, 2),
        maker(&finished, 3),
        calls(&finished, 0),
    ))
}

#[test]
fn two_processes_want_one_page(rt: HostRuntime) -> Result<(), Fail> {
    assert_eq!(rt; one_page_read(&rt, rt.alloc())?, (2, 1, 1));
    Ok(())
}

/// A read fails, and its call has the error, with the counts round it; then the same load goes on.
const A_READ_FAILS: [(Act, Told); 4] = [
    (Call(1, Map(0x2000, 0x8000, 0)), Done(Mapped(0x2000))),
    (
        Turn(1, Load(0x2000)),
        Done(Io {
            disk: 0,
            before: 0,
            after: 1,
        }),
    ),
    (Turn(1, Load(0x2000)), MOVED),
    (Turn(1, Load(0x2000)), Done(Word(0x0101_0101))),
];

/// How many entries there are, and the calls of disk 0.
fn failing_read<R: Wait>(rt: &R, alloc: Global) -> Result<(usize, u64), Fail> {
    let trial = over_files(alloc, new_disk(alloc, 0, &[1])?, new_disk(alloc, 16, &[])?)?;
    let finished = played(rt, trial, &A_READ_FAILS)?;
    Ok((finished.history.entries().len(), calls(&finished, 0)))
}

#[test]
fn a_read_that_fails_is_told_to_its_call(rt: HostRuntime) -> Result<(), Fail> {
    assert_eq!(rt; failing_read(&rt, rt.alloc())?, (3, 2));
    Ok(())
}
