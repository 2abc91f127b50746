//! Lanes that take turns in a given order, with what is done behind each stretch of it. What is told is worked out by hand.
use crate::lanes::{Driven, Standing};
use crate::tests::opened;
use std::alloc::Global;
use std::test::Fail;
use test_acts::What::{self, Load, Map};
use test_acts::call_of;
use vm_types::Call;

/// A stretch of an order, and how the lanes stand behind it: the calls that are done of each, and the entries of the history.
type Stretch<'a> = (&'a [u32], (usize, usize), u64);

/// Calls of both lanes, and an order in stretches.
#[derive(Clone, Copy)]
struct Row<'a> {
    first: &'a [What],
    second: &'a [What],
    order: &'a [Stretch<'a>],
}

fn calls_of(alloc: Global, whats: &[What]) -> Result<Vec<Call>, Fail> {
    let mut calls = Vec::new(alloc);
    for what in whats {
        calls.push(call_of(*what))?;
    }
    Ok(calls)
}

fn go_through(driven: &mut Driven, order: &[Stretch]) -> Result<(), Fail> {
    for (place, &(numbers, done, entries)) in order.iter().enumerate() {
        driven.drive(numbers)?;
        let told = driven.standing();
        let due = Standing {
            first: done.0,
            second: done.1,
            entries,
        };
        if told != due {
            return Err(Fail::new(format_args!("{place}: {told:?}")));
        }
    }
    Ok(())
}

fn make_row(alloc: Global, row: Row) -> Result<(), Fail> {
    let first = calls_of(alloc, row.first)?;
    let second = calls_of(alloc, row.second)?;
    let mut driven = Driven::new(opened(alloc, &[1, 4])?, first, second)?;
    go_through(&mut driven, row.order)
}

/// Both lanes want the page; the second has to wait for the first one's transfer, and is done before it.
fn two_lanes_want_one_page(alloc: Global) -> Result<(), Fail> {
    make_row(
        alloc,
        Row {
            first: &[Map(0x1_0000, 0x1000, false, 1, 0), Load(0x1_0000)],
            second: &[Map(0x2_0000, 0x1000, false, 1, 0), Load(0x2_0000)],
            order: &[
                (&[0, 1], (1, 1), 2),
                (&[0, 1, 0, 1], (1, 2), 3),
                (&[0], (2, 2), 4),
                (&[1, 0, 0], (2, 2), 4),
            ],
        },
    )
}

/// A load of a page that isn't home is tried, has its transfer made, and is tried again.
fn a_read_takes_three_numbers(alloc: Global) -> Result<(), Fail> {
    make_row(
        alloc,
        Row {
            first: &[Map(0x1_0000, 0x1000, false, 1, 0), Load(0x1_0000)],
            second: &[],
            order: &[(&[0], (1, 0), 1), (&[0, 0], (1, 0), 1), (&[0], (2, 0), 2)],
        },
    )
}

/// The transfer fails, which is the load's reply; for the next load it is made again.
fn a_read_fails(alloc: Global) -> Result<(), Fail> {
    make_row(
        alloc,
        Row {
            first: &[
                Map(0x1_0000, 0x1000, false, 0, 0),
                Load(0x1_0000),
                Load(0x1_0000),
            ],
            second: &[],
            order: &[
                (&[0, 0, 0], (2, 0), 2),
                (&[0, 0], (2, 0), 2),
                (&[0], (3, 0), 3),
            ],
        },
    )
}

#[test]
fn lanes_take_turns_in_a_given_order(rt: HostRuntime) -> Result<(), Fail> {
    let alloc = rt.alloc();
    two_lanes_want_one_page(alloc)?;
    a_read_takes_three_numbers(alloc)?;
    a_read_fails(alloc)
}
