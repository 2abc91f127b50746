//! Acts of a test on a kernel, and what is told of each.
ghost use Rattle.test_threads.specs.Workers.{IsTurnCall};

use crate::trial::Trial;
use crate::worker::Told;
use block_device::{Disk, MemDisk};
use std::sync::Wait;
use std::test::Fail;
use vm_core::Finished;
use vm_kernel::turn::Why;
use vm_types::{Call, Kind, Object, Place, Prot, Reply};

/// An act, of process 1 or 2 where it names one.
#[derive(Clone, Copy)]
pub(crate) enum Act {
    /// One turn at a call.
    Turn(u32, What),
    /// A call, to its end.
    Call(u32, What),
    /// Process 1 forks process 2.
    Fork,
    /// Process 1 sees what process 2 has seen.
    WaitFor,
    /// The hands of the clock make so many moves.
    Pageout(u32),
}

#[derive(Clone, Copy)]
pub(crate) enum What {
    Load(u32),
    Store(u32, u32),
    /// Maps so many bytes of a file from its start, shared, to be read.
    Map(u32, u32, u32),
    /// Maps so many bytes of private zero memory at an address.
    Zero(u32, u32),
    Unmap(u32, u32),
    /// So many bytes may be read, and no more written.
    Protect(u32, u32),
}

pub(crate) const STORED: Told = Told::Done(Reply::Done);

pub(crate) const MOVED: Told = Told::Again(Why::Moved);

pub(crate) fn call_of(what: What) -> Call
    ensures { IsTurnCall result }
{
    match what {
        What::Load(addr) => Call::Load { addr, size: 4 },
        What::Store(addr, value) => Call::Store {
            addr,
            size: 4,
            value,
        },
        What::Map(addr, length, file) => Call::Map {
            place: Place::At(addr),
            length,
            prot: Prot::READ,
            kind: Kind::Shared,
            object: Object::File(file),
            offset: 0,
        },
        What::Zero(addr, length) => Call::Map {
            place: Place::At(addr),
            length,
            prot: Prot::READ | Prot::WRITE,
            kind: Kind::Private,
            object: Object::NewZero,
            offset: 0,
        },
        What::Unmap(addr, length) => Call::Unmap { addr, length },
        What::Protect(addr, length) => Call::Protect {
            addr,
            length,
            prot: Prot::READ,
        },
    }
}

fn make<R: Wait, D: Disk>(rt: &R, trial: &mut Trial<D>, act: Act) -> Told {
    match act {
        Act::Turn(process, what) => trial.turn(process, &call_of(what)),
        Act::Call(process, what) => trial.call(rt, process, &call_of(what)),
        Act::Fork => trial.fork(rt),
        Act::WaitFor => trial.wait_for(),
        Act::Pageout(turns) => trial.pageout(rt, turns),
    }
}

/// Makes an act; where it finds no memory, it is made once more.
fn make_twice<R: Wait, D: Disk>(rt: &R, trial: &mut Trial<D>, act: Act) -> Told {
    match make(rt, trial, act) {
        Told::NoMemory => make(rt, trial, act),
        told => told,
    }
}

/// Makes the acts. It fails at the first of which something else is told.
pub(crate) fn make_all<R: Wait, D: Disk>(
    rt: &R,
    trial: &mut Trial<D>,
    acts: &[(Act, Told)],
) -> Result<(), Fail> {
    for (place, &(act, told)) in acts.iter().enumerate() {
        let made = make_twice(rt, trial, act);
        if made != told {
            return Err(Fail::new(format_args!("act {place} is told something else")));
        }
    }
    Ok(())
}

/// What a kernel left that was closed after these acts.
pub(crate) fn closed<D: Disk>(
    trial: Trial<D>,
    made: Result<(), Fail>,
) -> Result<Finished<D>, Fail> {
    let finished = trial.close();
    made?;
    match finished {
        Some(finished) => Ok(finished),
        None => Err(Fail::new("a process has a transfer in hand")),
    }
}

/// Makes the acts and closes the kernel.
pub(crate) fn played<R: Wait, D: Disk>(
    rt: &R,
    mut trial: Trial<D>,
    acts: &[(Act, Told)],
) -> Result<Finished<D>, Fail> {
    let made = make_all(rt, &mut trial, acts);
    closed(trial, made)
}

/// The process of an entry; 0 past the last one.
pub(crate) fn maker<D: Disk>(finished: &Finished<D>, place: usize) -> u32 {
    let entries = finished.history.entries();
    if place < entries.len() {
        entries.at(place).process()
    } else {
        0
    }
}

/// How many blocks of a disk begin with this word.
pub(crate) fn blocks_with(disk: &MemDisk, word: [u8; 4]) -> u32 {
    let mut count = 0u32;
    for block in disk.content() {
        let bytes = &block.bytes;
        if [bytes[0], bytes[1], bytes[2], bytes[3]] == word {
            count = count.saturating_add(1);
        }
    }
    count
}
