use anon_slots::{AnonSlots, NoSwap};
use std::alloc::Global;
use std::test::Fail;

// Each call where its condition holds, and None where it doesn't.
fn make(slots: &mut AnonSlots) -> Option<u32> {
    if slots.in_use() < slots.reserved() {
        Some(slots.make())
    } else {
        None
    }
}

fn dup(slots: &mut AnonSlots, slot: u32) -> Option<u32> {
    if slot < slots.slots() && 0 < slots.count(slot) && slots.count(slot) < u32::MAX {
        slots.dup(slot);
        Some(slots.in_use())
    } else {
        None
    }
}

fn drop_one(slots: &mut AnonSlots, slot: u32) -> Option<bool> {
    if slot < slots.slots() && 0 < slots.count(slot) {
        Some(slots.drop_one(slot))
    } else {
        None
    }
}

fn unreserve(slots: &mut AnonSlots, n: u32) -> Option<u32> {
    if n <= slots.reserved().saturating_sub(slots.in_use()) {
        slots.unreserve(n);
        Some(slots.reserved())
    } else {
        None
    }
}

fn set_swapped(slots: &mut AnonSlots, slot: u32) {
    if slot < slots.slots() {
        slots.set_swapped(slot);
    }
}

// The count of a slot, and whether it was pushed.
fn state(slots: &AnonSlots, slot: u32) -> Option<(u32, bool)> {
    if slot < slots.slots() {
        Some((slots.count(slot), slots.swapped(slot)))
    } else {
        None
    }
}

#[derive(Clone, Copy)]
enum Act {
    Reserve(u32),
    Unreserve(u32),
    Make,
    Dup(u32),
    DropOne(u32),
    SetSwapped(u32),
    /// The count of a slot, and whether it was pushed.
    State(u32),
    /// How many slots there are, are reserved, and are in use.
    Totals,
}

#[derive(Clone, Copy, PartialEq, Eq)]
enum Told {
    /// Whether so many could be reserved, and the reservation then.
    Reserved(bool, u32),
    Number(Option<u32>),
    /// Whether the holder was the last.
    Last(Option<bool>),
    State(Option<(u32, bool)>),
    Totals(u32, u32, u32),
    Done,
}

fn tell(slots: &mut AnonSlots, act: Act) -> Told {
    match act {
        Act::Reserve(n) => {
            let is_reserved = slots.reserve(n) == Ok(());
            Told::Reserved(is_reserved, slots.reserved())
        }
        Act::Unreserve(n) => Told::Number(unreserve(slots, n)),
        Act::Make => Told::Number(make(slots)),
        Act::Dup(slot) => Told::Number(dup(slots, slot)),
        Act::DropOne(slot) => Told::Last(drop_one(slots, slot)),
        Act::SetSwapped(slot) => {
            set_swapped(slots, slot);
            Told::Done
        }
        Act::State(slot) => Told::State(state(slots, slot)),
        Act::Totals => Told::Totals(slots.slots(), slots.reserved(), slots.in_use()),
    }
}

/// Makes the acts. It fails at the first of which something else is told.
fn make_all(slots: &mut AnonSlots, acts: &[(Act, Told)]) -> Result<(), Fail> {
    for (place, &(act, told)) in acts.iter().enumerate() {
        let made = tell(slots, act);
        if made != told {
            return Err(Fail::new(format_args!("act {place} is told something else")));
        }
    }
    Ok(())
}

fn make_in_new_slots(alloc: Global, acts: &[(Act, Told)]) -> Result<(), Fail> {
    let mut slots = AnonSlots::new(alloc, 4)?;
    make_all(&mut slots, acts)
}

#[test]
fn counts_and_reserves(rt: HostRuntime) -> Result<(), Fail> {
    make_in_new_slots(
        rt.alloc(),
        &[
            (Act::Totals, Told::Totals(4, 0, 0)),
            (Act::Reserve(5), Told::Reserved(false, 0)),
            (Act::Reserve(3), Told::Reserved(true, 3)),
            (Act::Reserve(2), Told::Reserved(false, 3)),
            (Act::Reserve(1), Told::Reserved(true, 4)),
            (Act::Reserve(0), Told::Reserved(true, 4)),
            (Act::Reserve(u32::MAX), Told::Reserved(false, 4)),
            (Act::Unreserve(1), Told::Number(Some(3))),
            (Act::Make, Told::Number(Some(0))),
            (Act::Make, Told::Number(Some(1))),
            (Act::Make, Told::Number(Some(2))),
            (Act::Make, Told::Number(None)),
            (Act::Unreserve(1), Told::Number(None)),
            // A slot of two places is free when the second drops it, and the least again.
            (Act::Dup(1), Told::Number(Some(3))),
            (Act::State(1), Told::State(Some((2, false)))),
            (Act::SetSwapped(1), Told::Done),
            (Act::DropOne(1), Told::Last(Some(false))),
            (Act::State(1), Told::State(Some((1, true)))),
            (Act::DropOne(1), Told::Last(Some(true))),
            (Act::DropOne(1), Told::Last(None)),
            (Act::Totals, Told::Totals(4, 3, 2)),
            (Act::Make, Told::Number(Some(1))),
            (Act::State(1), Told::State(Some((1, false)))),
            (Act::State(0), Told::State(Some((1, false)))),
        ],
    )
}

#[test]
fn no_swap_has_its_text(rt: HostRuntime) -> Result<(), Fail> {
    assert_eq!(rt;
        format!(in rt.alloc(); "{NoSwap}")?.as_str(),
        "no swap space is left to reserve"
    );
    Ok(())
}
