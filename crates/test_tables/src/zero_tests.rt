//! Zero objects come and go, each under the least free number.
use std::alloc::{AllocError, Global};
use std::test::Fail;
use zero_objects::ZeroObjects;

#[derive(Clone, Copy)]
enum Act {
    /// A new object with this map.
    Add(u32),
    /// The object is gone, if there was one.
    Remove(u32),
    /// Looks at a number.
    Map(u32),
    /// Counts the numbers.
    Tally,
}

#[derive(Clone, Copy, PartialEq, Eq)]
enum Told {
    Number(u32),
    Map(Option<u32>),
    Numbers(usize),
    Done,
}

fn add(zeros: &mut ZeroObjects, map: u32) -> Result<u32, AllocError> {
    zeros.reserve()?;
    Ok(zeros.add(map))
}

fn remove(zeros: &mut ZeroObjects, number: u32) {
    if zeros.map(number).is_some() {
        zeros.remove(number);
    }
}

fn make(zeros: &mut ZeroObjects, act: Act) -> Result<Told, AllocError> {
    Ok(match act {
        Act::Add(map) => Told::Number(add(zeros, map)?),
        Act::Remove(number) => {
            remove(zeros, number);
            Told::Done
        }
        Act::Map(number) => Told::Map(zeros.map(number)),
        Act::Tally => Told::Numbers(zeros.tally()?.len()),
    })
}

/// Makes the acts. It fails at the first of which something else is told.
fn make_all(zeros: &mut ZeroObjects, acts: &[(Act, Told)]) -> Result<(), Fail> {
    for (place, &(act, told)) in acts.iter().enumerate() {
        let made = make(zeros, act)?;
        if made != told {
            return Err(Fail::new(format_args!("act {place} is told something else")));
        }
    }
    Ok(())
}

fn make_in_new_list(alloc: Global, acts: &[(Act, Told)]) -> Result<(), Fail> {
    let mut zeros = ZeroObjects::new(alloc);
    make_all(&mut zeros, acts)
}

#[test]
fn a_new_object_gets_the_least_free_number(rt: HostRuntime) -> Result<(), Fail> {
    make_in_new_list(
        rt.alloc(),
        &[
            (Act::Map(0), Told::Map(None)),
            (Act::Add(7), Told::Number(0)),
            (Act::Add(5), Told::Number(1)),
            (Act::Add(9), Told::Number(2)),
            (Act::Map(0), Told::Map(Some(7))),
            (Act::Map(1), Told::Map(Some(5))),
            // A number that was given up is free again, and its place counts on.
            (Act::Remove(1), Told::Done),
            (Act::Remove(0), Told::Done),
            (Act::Remove(3), Told::Done),
            (Act::Map(0), Told::Map(None)),
            (Act::Map(1), Told::Map(None)),
            (Act::Map(2), Told::Map(Some(9))),
            (Act::Tally, Told::Numbers(3)),
            (Act::Add(4), Told::Number(0)),
            (Act::Add(6), Told::Number(1)),
            (Act::Add(8), Told::Number(3)),
            (Act::Map(3), Told::Map(Some(8))),
            (Act::Tally, Told::Numbers(4)),
        ],
    )
}
