//! Slots are taken, the least first, and given back: acts on a new area, and what is told of each.
ghost use Rattle.std.specs.Prelude.{◌≡◌, length};

use std::alloc::Global;
use std::test::Fail;
use swap_slots::SwapSlots;

/// An area, and how many slots it has.
#[derive(Drop)]
struct Area {
    swap: SwapSlots,
    slots: u32,
    ghost as_many: { length swap ≡ slots },
}

#[derive(Clone, Copy)]
enum Act {
    /// Takes a slot.
    Take,
    /// Takes the slots below this one, which have to come in their order.
    TakeBelow(u32),
    /// Gives a slot back.
    Free(u32),
}

#[derive(Clone, Copy, PartialEq, Eq)]
enum Told {
    Slot(Option<u32>),
    Yes,
    /// Another slot came, or the slot wasn't in use, or is still.
    No,
}

impl Area {
    fn take(&mut self) -> Option<u32> {
        self.swap.alloc()
    }

    fn take_below(&mut self, end: u32) -> Told {
        for slot in 0..end {
            if self.take() != Some(slot) {
                return Told::No;
            }
        }
        Told::Yes
    }

    fn is_in_use(&self, slot: u32) -> bool {
        slot < self.slots && self.swap.is_in_use(slot)
    }

    fn free(&mut self, slot: u32) -> Told {
        if slot >= self.slots || !self.swap.is_in_use(slot) {
            return Told::No;
        }
        self.swap.free(slot);
        if self.is_in_use(slot) {
            return Told::No;
        }
        Told::Yes
    }

    fn make(&mut self, act: Act) -> Told {
        match act {
            Act::Take => Told::Slot(self.take()),
            Act::TakeBelow(end) => self.take_below(end),
            Act::Free(slot) => self.free(slot),
        }
    }
}

/// Makes the acts. It fails at the first of which something else is told.
fn make_all(area: &mut Area, acts: &[(Act, Told)]) -> Result<(), Fail> {
    for (place, &(act, told)) in acts.iter().enumerate() {
        let made = area.make(act);
        if made != told {
            return Err(Fail::new(format_args!("act {place} is told something else")));
        }
    }
    Ok(())
}

fn make_in_new_area(alloc: Global, slots: u32, acts: &[(Act, Told)]) -> Result<(), Fail> {
    let mut area = Area {
        swap: SwapSlots::new(alloc, slots)?,
        slots,
    };
    make_all(&mut area, acts)
}

#[test]
fn takes_the_least_slot_and_gives_it_back(rt: HostRuntime) -> Result<(), Fail> {
    for slots in [0, 1, 64, 65, 4096, 4225] {
        make_in_new_area(
            rt.alloc(),
            slots,
            &[
                (Act::TakeBelow(slots), Told::Yes),
                (Act::Take, Told::Slot(None)),
            ],
        )?;
    }
    make_in_new_area(
        rt.alloc(),
        130,
        &[
            (Act::Free(0), Told::No),
            (Act::TakeBelow(130), Told::Yes),
            (Act::Free(129), Told::Yes),
            (Act::Free(64), Told::Yes),
            (Act::Free(3), Told::Yes),
            (Act::Free(63), Told::Yes),
            (Act::Free(63), Told::No),
            (Act::Take, Told::Slot(Some(3))),
            (Act::Take, Told::Slot(Some(63))),
            (Act::Take, Told::Slot(Some(64))),
            (Act::Take, Told::Slot(Some(129))),
            (Act::Take, Told::Slot(None)),
        ],
    )
}
