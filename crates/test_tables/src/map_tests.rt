use anon_map::AnonMaps;
use std::alloc::{AllocError, Global};
use std::test::Fail;

// Each call where its conditions hold, and None where one doesn't.
fn hold(maps: &mut AnonMaps, map: u32) -> Option<u32> {
    if !maps.is_there(map) || maps.holders(map) == u32::MAX {
        return None;
    }
    maps.hold(map);
    Some(maps.holders(map))
}

fn release(maps: &mut AnonMaps, map: u32) -> Option<bool> {
    if !maps.is_there(map) {
        return None;
    }
    if maps.holders(map) > 1 {
        return Some(maps.release(map));
    }
    if maps.pages(map) == 0 {
        return Some(maps.release(map));
    }
    None
}

fn get(maps: &AnonMaps, map: u32, i: u32) -> Option<Option<u32>> {
    if maps.is_there(map) && i < maps.pages(map) {
        Some(maps.get(map, i))
    } else {
        None
    }
}

fn set(maps: &mut AnonMaps, map: u32, i: u32, slot: Option<u32>) -> bool {
    if maps.is_there(map) && i < maps.pages(map) {
        maps.set(map, i, slot);
        true
    } else {
        false
    }
}

fn copy_range(maps: &mut AnonMaps, map: u32, from: u32, pages: u32) -> Result<u32, AllocError> {
    if maps.is_there(map) && from <= maps.pages(map) && pages <= maps.pages(map) - from {
        maps.copy_range(map, from, pages)
    } else {
        Ok(u32::MAX)
    }
}

fn cut(maps: &mut AnonMaps, map: u32, at: u32) -> Result<u32, AllocError> {
    if maps.is_there(map) && maps.holders(map) == 1 && at <= maps.pages(map) {
        maps.cut(map, at)
    } else {
        Ok(u32::MAX)
    }
}

fn put(maps: &mut AnonMaps, pages: u32) -> Result<u32, AllocError> {
    maps.reserve(1)?;
    let places = maps.no_slots(pages)?;
    Ok(maps.put(places))
}

fn cut_into(maps: &mut AnonMaps, map: u32, at: u32) -> Result<u32, AllocError> {
    maps.reserve(1)?;
    if maps.is_there(map) && maps.holders(map) == 1 && at <= maps.pages(map) {
        let room = maps.room(maps.pages(map) - at)?;
        Ok(maps.cut_into(map, at, room))
    } else {
        Ok(u32::MAX)
    }
}

// How many places and holders a map has, and its first two places.
type Shape = Option<(u32, u32, Option<Option<u32>>, Option<Option<u32>>)>;

fn shape(maps: &AnonMaps, map: u32) -> Shape {
    if maps.is_there(map) {
        Some((
            maps.pages(map),
            maps.holders(map),
            get(maps, map, 0),
            get(maps, map, 1),
        ))
    } else {
        None
    }
}

#[derive(Clone, Copy)]
enum Act {
    Make(u32),
    Hold(u32),
    Release(u32),
    Set(u32, u32, Option<u32>),
    CopyRange(u32, u32, u32),
    Cut(u32, u32),
    Reserve(u32),
    Put(u32),
    CutInto(u32, u32),
    /// Looks at a map.
    Shape(u32),
    /// How many places a map has.
    Pages(u32),
}

#[derive(Clone, Copy, PartialEq, Eq)]
enum Told {
    Number(u32),
    Holders(Option<u32>),
    /// Whether the holder was the last.
    Last(Option<bool>),
    Set(bool),
    Shape(Shape),
    Pages(Option<u32>),
    Done,
}

fn make(maps: &mut AnonMaps, act: Act) -> Result<Told, AllocError> {
    Ok(match act {
        Act::Make(pages) => Told::Number(maps.make(pages)?),
        Act::Hold(map) => Told::Holders(hold(maps, map)),
        Act::Release(map) => Told::Last(release(maps, map)),
        Act::Set(map, i, slot) => Told::Set(set(maps, map, i, slot)),
        Act::CopyRange(map, from, pages) => Told::Number(copy_range(maps, map, from, pages)?),
        Act::Cut(map, at) => Told::Number(cut(maps, map, at)?),
        Act::Reserve(numbers) => {
            maps.reserve(numbers)?;
            Told::Done
        }
        Act::Put(pages) => Told::Number(put(maps, pages)?),
        Act::CutInto(map, at) => Told::Number(cut_into(maps, map, at)?),
        Act::Shape(map) => Told::Shape(shape(maps, map)),
        Act::Pages(map) => Told::Pages(shape(maps, map).map(|seen| seen.0)),
    })
}

/// Makes the acts. It fails at the first of which something else is told.
fn make_all(maps: &mut AnonMaps, acts: &[(Act, Told)]) -> Result<(), Fail> {
    for (place, &(act, told)) in acts.iter().enumerate() {
        let made = make(maps, act)?;
        if made != told {
            return Err(Fail::new(format_args!("act {place} is told something else")));
        }
    }
    Ok(())
}

fn make_in_new_maps(alloc: Global, acts: &[(Act, Told)]) -> Result<(), Fail> {
    let mut maps = AnonMaps::new(alloc);
    make_all(&mut maps, acts)
}

/// A map of so many places with one holder, and its first two places.
const fn alone(pages: u32, first: Option<Option<u32>>, second: Option<Option<u32>>) -> Told {
    Told::Shape(Some((pages, 1, first, second)))
}

#[test]
fn makes_copies_cuts_and_gives_up_maps(rt: HostRuntime) -> Result<(), Fail> {
    make_in_new_maps(
        rt.alloc(),
        &[
            (Act::Shape(0), Told::Shape(None)),
            (Act::Make(3), Told::Number(0)),
            (Act::Shape(0), alone(3, Some(None), Some(None))),
            (Act::Set(0, 1, Some(7)), Told::Set(true)),
            (Act::Set(0, 2, Some(9)), Told::Set(true)),
            (Act::Set(0, 3, Some(9)), Told::Set(false)),
            (Act::Hold(0), Told::Holders(Some(2))),
            (Act::Release(0), Told::Last(Some(false))),
            (Act::Shape(0), alone(3, Some(None), Some(Some(7)))),
            (Act::CopyRange(0, 1, 2), Told::Number(1)),
            (Act::Shape(1), alone(2, Some(Some(7)), Some(Some(9)))),
            (Act::Cut(0, 2), Told::Number(2)),
            (Act::Shape(0), alone(2, Some(None), Some(Some(7)))),
            (Act::Shape(2), alone(1, Some(Some(9)), None)),
            (Act::Cut(1, 0), Told::Number(3)),
            (Act::Shape(1), alone(0, None, None)),
            (Act::Shape(3), alone(2, Some(Some(7)), Some(Some(9)))),
            (Act::Cut(3, 2), Told::Number(4)),
            (Act::Shape(3), alone(2, Some(Some(7)), Some(Some(9)))),
            (Act::Shape(4), alone(0, None, None)),
            // The numbers of maps that are gone come again before a new one.
            (Act::Release(4), Told::Last(Some(true))),
            (Act::Release(1), Told::Last(Some(true))),
            (Act::Shape(1), Told::Shape(None)),
            (Act::Make(1), Told::Number(1)),
            (Act::Make(1), Told::Number(4)),
            (Act::Make(1), Told::Number(5)),
        ],
    )
}

#[test]
fn puts_and_cuts_where_all_room_was_taken_before(rt: HostRuntime) -> Result<(), Fail> {
    make_in_new_maps(
        rt.alloc(),
        &[
            (Act::Put(3), Told::Number(0)),
            (Act::Shape(0), alone(3, Some(None), Some(None))),
            (Act::Set(0, 1, Some(7)), Told::Set(true)),
            (Act::Set(0, 2, Some(9)), Told::Set(true)),
            (Act::CutInto(0, 1), Told::Number(1)),
            (Act::Shape(0), alone(1, Some(None), None)),
            (Act::Shape(1), alone(2, Some(Some(7)), Some(Some(9)))),
            (Act::CutInto(1, 2), Told::Number(2)),
            (Act::Shape(2), alone(0, None, None)),
            // Numbers that are free already are enough, and one that was given up is free: 2 to 5, the last first.
            (Act::Reserve(3), Told::Done),
            (Act::Release(2), Told::Last(Some(true))),
            (Act::Put(1), Told::Number(2)),
            (Act::Pages(2), Told::Pages(Some(1))),
            (Act::Put(0), Told::Number(5)),
            (Act::Pages(5), Told::Pages(Some(0))),
            (Act::Put(4), Told::Number(4)),
            (Act::Pages(4), Told::Pages(Some(4))),
            (Act::Put(2), Told::Number(3)),
            (Act::Pages(3), Told::Pages(Some(2))),
            (Act::Put(0), Told::Number(6)),
        ],
    )
}
