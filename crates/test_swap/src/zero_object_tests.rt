//! Zero objects by number, which two processes share over few frames and slots. What is told of each act is worked out by hand.
ghost use Rattle.test_acts.specs.Trials.{LiesInOneLine};

use crate::swap_tests::{Acts, Family, Run, closed_after, made_and_closed};
use What::{Exit, Load, New, Private, Shared, Store};
use std::test::Fail;
use test_acts::Told::{self, Done};
use test_acts::{NO_OBJECT, NO_SWAP, PAST, STORED, Trial};
use vm_types::Reply::{Mapped, Word};
use vm_types::{Call, Kind, Object, Place, Prot};

#[derive(Clone, Copy)]
enum What {
    /// Maps so many bytes at an address, of a new zero object.
    New(u32, u32),
    /// The same of the zero object of this number, from an offset on.
    Shared(u32, u32, u32, u32),
    /// The same, private.
    Private(u32, u32, u32, u32),
    Load(u32),
    Store(u32, u32),
    Exit,
}

fn map(addr: u32, length: u32, kind: Kind, object: Object, offset: u32) -> Call
    ensures { LiesInOneLine result }
{
    Call::Map {
        place: Place::At(addr),
        length,
        prot: Prot::READ | Prot::WRITE,
        kind,
        object,
        offset,
    }
}

fn call_of(what: What) -> Call
    ensures { LiesInOneLine result }
{
    match what {
        What::New(addr, length) => map(addr, length, Kind::Shared, Object::NewZero, 0),
        What::Shared(addr, length, number, offset) => {
            map(addr, length, Kind::Shared, Object::Zero(number), offset)
        }
        What::Private(addr, length, number, offset) => {
            map(addr, length, Kind::Private, Object::Zero(number), offset)
        }
        What::Load(addr) => Call::Load { addr, size: 4 },
        What::Store(addr, value) => Call::Store {
            addr,
            size: 4,
            value,
        },
        What::Exit => Call::Exit,
    }
}

/// Makes the calls. It fails at the first of which something else is told.
fn make_all(trial: &mut Trial, calls: &[(u32, What, Told)]) -> Result<(), Fail> {
    for (place, &(seat, what, told)) in calls.iter().enumerate() {
        let made = trial.call(seat, &call_of(what))?;
        if made != told {
            return Err(Fail::new(format_args!("act {place} is told something else")));
        }
    }
    Ok(())
}

/// One process maps an object of the other by its number, and each reads what the other stored.
fn an_object_is_shared(trial: &mut Trial) -> Result<(), Fail> {
    make_all(
        trial,
        &[
            (0, New(0x2000, 0x2000), Done(Mapped(0x2000))),
            (1, Shared(0x5000, 0x3000, 0, 0), Done(Mapped(0x5000))),
            (1, Load(0x5000), Done(Word(0))),
            (0, Store(0x2000, 0x11), STORED),
            (1, Load(0x5000), Done(Word(0x11))),
            (1, Store(0x6000, 0x22), STORED),
            (0, Load(0x3000), Done(Word(0x22))),
            // Behind its end.
            (1, Load(0x7000), PAST),
            (1, Store(0x7000, 1), PAST),
            // The same process maps it once more.
            (0, Shared(0x8000, 0x1000, 0, 0x1000), Done(Mapped(0x8000))),
            (0, Load(0x8000), Done(Word(0x22))),
            (0, Shared(0xa000, 0x1000, 1, 0), NO_OBJECT),
        ],
    )
}

/// A private mapping shows it page by page until it stores there itself. No slots are left for a longer object.
fn a_private_mapping_shows_it(trial: &mut Trial) -> Result<(), Fail> {
    make_all(
        trial,
        &[
            (1, Private(0x9000, 0x1000, 0, 0), Done(Mapped(0x9000))),
            (1, Load(0x9000), Done(Word(0x11))),
            (1, Store(0x9000, 0x33), STORED),
            (0, Load(0x2000), Done(Word(0x11))),
            (1, Load(0x9000), Done(Word(0x33))),
            (0, New(0xa000, 0x6000), NO_SWAP),
            (1, Shared(0x9000, 0x1000, 0, 0), Done(Mapped(0x9000))),
            (1, Load(0x9000), Done(Word(0x11))),
        ],
    )
}

/// Objects 0 and 1 have two and six pages, as many as there are slots: pages of the first go out for those of the second.
fn its_pages_go_to_swap(trial: &mut Trial) -> Result<(), Fail> {
    make_all(
        trial,
        &[
            (0, New(0xa000, 0x7000), NO_SWAP),
            (0, New(0xa000, 0x6000), Done(Mapped(0xa000))),
            (0, Store(0xa000, 1), STORED),
            (0, Store(0xb000, 2), STORED),
            (0, Store(0xc000, 3), STORED),
            (0, Store(0xd000, 4), STORED),
            (0, Store(0xe000, 5), STORED),
            (0, Store(0xf000, 6), STORED),
            (1, Load(0x5000), Done(Word(0x11))),
            (1, Load(0x6000), Done(Word(0x22))),
            (0, Load(0xa000), Done(Word(1))),
        ],
    )
}

/// The other process still names it. A mapping of it is laid over all that names it there, and it keeps its pages.
fn it_stays_while_it_is_named(trial: &mut Trial) -> Result<(), Fail> {
    make_all(
        trial,
        &[
            (0, New(0x2000, 0x2000), NO_SWAP),
            (0, Shared(0x2000, 0x2000, 1, 0x4000), Done(Mapped(0x2000))),
            (0, Load(0x2000), Done(Word(5))),
            (0, Shared(0x8000, 0x1000, 1, 0), Done(Mapped(0x8000))),
            (1, Shared(0x9000, 0x1000, 1, 0), Done(Mapped(0x9000))),
            (1, Shared(0x5000, 0x3000, 0, 0x1000), Done(Mapped(0x5000))),
            (1, Load(0x5000), Done(Word(0x22))),
            (1, Load(0x6000), PAST),
            (1, Shared(0x4000, 0x4000, 0, 0), Done(Mapped(0x4000))),
            (1, Load(0x4000), Done(Word(0x11))),
            (1, Load(0x9000), Done(Word(1))),
            (1, Exit, STORED),
        ],
    )
}

/// It went with the last mapping that named it: its slots are free, and the next object has its number.
fn it_is_gone(trial: &mut Trial) -> Result<(), Fail> {
    make_all(
        trial,
        &[
            (0, Private(0x4000, 0x2000, 0, 0), NO_OBJECT),
            (0, New(0x8000, 0x2000), Done(Mapped(0x8000))),
            (0, Load(0x8000), Done(Word(0))),
            (0, Store(0x9000, 7), STORED),
            (0, Shared(0x4000, 0x1000, 0, 0x1000), Done(Mapped(0x4000))),
            (0, Load(0x4000), Done(Word(7))),
            (0, Exit, STORED),
        ],
    )
}

pub(crate) fn share_zero_objects(trial: &mut Trial) -> Result<(), Fail> {
    an_object_is_shared(trial)?;
    a_private_mapping_shows_it(trial)?;
    its_pages_go_to_swap(trial)?;
    it_stays_while_it_is_named(trial)?;
    it_is_gone(trial)
}

#[test]
fn two_processes_share_zero_objects(rt: HostRuntime) -> Result<(), Fail> {
    let run = Run {
        family: Family::Apart,
        frames: 6,
        slots: 8,
        acts: Acts::ShareZeroObjects,
    };
    assert_eq!(rt; made_and_closed(rt.alloc(), run)?, closed_after(50, 0, 0));
    Ok(())
}
