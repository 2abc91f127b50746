//! Acts on a state, for tables of them: what a seat does, and what it is told.
ghost use Rattle.test_acts.specs.Trials.{LiesInOneLine};

use crate::trial::Told::{self, Done};
use crate::trial::Trial;
use std::test::Fail;
use vm_types::{Call, Errno, Kind, Line, Object, Place, Prot, Reply, Signal, line_rest};

#[derive(Clone, Copy)]
pub enum Act {
    /// A seat makes a call.
    Do(u32, What),
    /// A seat tries a call once; a transfer that it needs stays out.
    Try(u32, What),
    /// A seat tries a call once; a transfer that it needs doesn't begin.
    Plan(u32, What),
    /// A seat's transfer is made and ends.
    Land(u32),
    /// The hands move for a seat until a push is out, so many times at most.
    Clock(u32, u32),
}

#[derive(Clone, Copy)]
pub enum What {
    Load(u32),
    Store(u32, u32),
    /// Maps so many bytes at an address, to be read and, where this says so, written: a file from an offset on.
    Map(u32, u32, bool, u32, u32),
    /// Maps so many bytes of private zero memory at an address.
    Zero(u32, u32),
    /// The same, of a new zero object, which is shared.
    New(u32, u32),
    /// Unmaps so many bytes from an address on.
    Unmap(u32, u32),
    /// Protects so many bytes from an address on: they may be read and, where this says so, written.
    Protect(u32, u32, bool),
    /// Forks this child.
    Fork(u32),
    /// Syncs so many bytes from an address on.
    Sync(u32, u32),
    /// Reads so many bytes of a file from an offset on, in its line of 64.
    Read(u32, u32, u32),
    /// Writes so many bytes of this value into a file from an offset on, in its line of 64.
    Write(u32, u32, u32, u8),
    /// Gives a file this length.
    Truncate(u32, u32),
    Exit,
}

fn rights(writable: bool) -> Prot {
    if writable {
        Prot::READ | Prot::WRITE
    } else {
        Prot::READ
    }
}

fn zeros(addr: u32, length: u32, kind: Kind) -> Call
    ensures { LiesInOneLine result }
{
    Call::Map {
        place: Place::At(addr),
        length,
        prot: Prot::READ | Prot::WRITE,
        kind,
        object: Object::NewZero,
        offset: 0,
    }
}

/// So many bytes of this value, 64 at most.
fn line_of(count: u32, byte: u8) -> Line {
    let bytes = [byte; 64];
    Line::new(&bytes[..count.min(64) as usize])
}

pub fn call_of(what: What) -> Call
    ensures { LiesInOneLine result }
{
    match what {
        What::Load(addr) => Call::Load { addr, size: 4 },
        What::Store(addr, value) => Call::Store {
            addr,
            size: 4,
            value,
        },
        What::Map(addr, length, writable, file, offset) => Call::Map {
            place: Place::At(addr),
            length,
            prot: rights(writable),
            kind: Kind::Shared,
            object: Object::File(file),
            offset,
        },
        What::Zero(addr, length) => zeros(addr, length, Kind::Private),
        What::New(addr, length) => zeros(addr, length, Kind::Shared),
        What::Unmap(addr, length) => Call::Unmap { addr, length },
        What::Protect(addr, length, writable) => Call::Protect {
            addr,
            length,
            prot: rights(writable),
        },
        What::Fork(child) => Call::Fork { child },
        What::Sync(addr, length) => Call::Sync { addr, length },
        What::Read(file, offset, length) => Call::Read {
            file,
            offset,
            length: length.min(line_rest(offset)),
        },
        What::Write(file, offset, count, byte) => Call::Write {
            file,
            offset,
            bytes: line_of(count, byte),
            rest: 0,
        },
        What::Truncate(file, length) => Call::Truncate { file, length },
        What::Exit => Call::Exit,
    }
}

pub fn make(trial: &mut Trial, act: Act) -> Result<Told, Fail> {
    match act {
        Act::Do(seat, what) => trial.call(seat, &call_of(what)),
        Act::Try(seat, what) => trial.try_call(seat, &call_of(what), true),
        Act::Plan(seat, what) => trial.try_call(seat, &call_of(what), false),
        Act::Land(seat) => trial.land(seat),
        Act::Clock(seat, moves) => trial.clock(seat, moves),
    }
}

pub const STORED: Told = Done(Reply::Done);

pub const NO_MAP: Told = Done(Reply::Signal(Signal::NoMap));

pub const ALIGN: Told = Done(Reply::Signal(Signal::Align));

pub const PAST: Told = Done(Reply::Signal(Signal::Past));

pub const PROT: Told = Done(Reply::Signal(Signal::Prot));

pub const INVALID: Told = Done(Reply::Refused(Errno::Invalid));

pub const NO_OBJECT: Told = Done(Reply::Refused(Errno::NoObject));

pub const ACCESS: Told = Done(Reply::Refused(Errno::Access));

pub const NOT_MAPPED: Told = Done(Reply::Refused(Errno::NotMapped));

pub const TOO_LARGE: Told = Done(Reply::Refused(Errno::TooLarge));

pub const NO_SWAP: Told = Done(Reply::Refused(Errno::NoSwap));

pub const READ_FAILS: Told = Done(Reply::Io {
    disk: 0,
    before: 0,
    after: 1,
});

/// The second fault of disk 0.
pub const FAILS_AGAIN: Told = Done(Reply::Io {
    disk: 0,
    before: 1,
    after: 2,
});

/// Makes an act, whatever is told of it but that a transfer failed, which none does.
pub fn make_any(trial: &mut Trial, act: Act) -> Result<(), Fail> {
    let made = make(trial, act)?;
    if let Done(Reply::Io { .. }) = made {
        return Err(Fail::new("a transfer failed"));
    }
    Ok(())
}

/// Makes the acts. It fails at the first of which something else is told.
pub fn make_all(trial: &mut Trial, acts: &[(Act, Told)]) -> Result<(), Fail> {
    for (place, &(act, told)) in acts.iter().enumerate() {
        let made = make(trial, act)?;
        if made != told {
            return Err(Fail::new(format_args!("act {place} is told something else")));
        }
    }
    Ok(())
}
