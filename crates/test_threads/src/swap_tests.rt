//! Callers over swap, on one thread: the hands of the clock, forks, and calls that take memory. What is told of each act is worked out by hand.
use crate::acts::Act::{self, Call, Fork, Pageout, WaitFor};
use crate::acts::What::{Load, Protect, Store, Unmap, Zero};
use crate::acts::{STORED, blocks_with, maker, played};
use crate::setups::{new_disk, over_swap};
use crate::worker::Told::{self, Done, Made};
use std::alloc::Global;
use std::sync::Wait;
use std::test::Fail;
use vm_types::Errno::NoSwap;
use vm_types::Reply::{Mapped, Refused, Signal, Word};
use vm_types::Signal::Prot;

/// A private page is stored into, and the hands go round.
const A_PAGE_GOES_OUT: [(Act, Told); 4] = [
    (Call(1, Zero(0x2000, 0x1000)), Done(Mapped(0x2000))),
    (Call(1, Store(0x2000, 0x11)), STORED),
    (Pageout(64), Made),
    (Call(1, Load(0x2000)), Done(Word(0x11))),
];

/// How many writes the swap disk counted, and how many of its blocks begin with the word.
fn page_gone_out<R: Wait>(rt: &R, alloc: Global) -> Result<(u64, u32), Fail> {
    let trial = over_swap(alloc, 16, new_disk(alloc, 0, &[])?, 0)?;
    let finished = played(rt, trial, &A_PAGE_GOES_OUT)?;
    match &finished.swap {
        Some(disk) => Ok((disk.writes(), blocks_with(disk, [0, 0, 0, 0x11]))),
        None => Err(Fail::new("the swap disk is gone")),
    }
}

#[test]
fn moves_of_the_hands_push_a_page(rt: HostRuntime) -> Result<(), Fail> {
    assert_eq!(rt; page_gone_out(&rt, rt.alloc())?, (1, 1));
    Ok(())
}

/// Five private pages and eight slots: a Fork would need five more. With one page it needs one. The child has the parent's word, and then its own.
const A_CHILD: [(Act, Told); 14] = [
    (Call(1, Zero(0x2000, 0x5000)), Done(Mapped(0x2000))),
    (Call(1, Store(0x2000, 0x11)), STORED),
    (Fork, Done(Refused(NoSwap))),
    (Call(1, Unmap(0x3000, 0x4000)), STORED),
    (Fork, STORED),
    (Call(2, Load(0x2000)), Done(Word(0x11))),
    (Call(2, Store(0x2000, 0x22)), STORED),
    (Call(1, Load(0x2000)), Done(Word(0x11))),
    (WaitFor, Made),
    (Call(1, Store(0x2000, 0x33)), STORED),
    (Call(1, Protect(0x2000, 0x1000)), STORED),
    (Call(1, Store(0x2000, 0x44)), Done(Signal(Prot))),
    (Call(1, Load(0x2000)), Done(Word(0x33))),
    (Call(2, Load(0x2000)), Done(Word(0x22))),
];

/// Who made the entries behind the Fork, and the last one, and how many there are.
fn child_born<R: Wait>(rt: &R, alloc: Global) -> Result<(u32, u32, usize), Fail> {
    let trial = over_swap(alloc, 8, new_disk(alloc, 0, &[])?, 1)?;
    let finished = played(rt, trial, &A_CHILD)?;
    let count = finished.history.entries().len();
    Ok((maker(&finished, 5), maker(&finished, 12), count))
}

#[test]
fn a_child_is_born_where_there_are_slots(rt: HostRuntime) -> Result<(), Fail> {
    assert_eq!(rt; child_born(&rt, rt.alloc())?, (2, 2, 13));
    Ok(())
}
