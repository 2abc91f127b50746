//! Steps of flat memory over stores and loads of a mapped file.
ghost use Rattle.std.specs.Prelude.{◌≤◌};

use crate::numbers::number;
use bitflags::Flags;
use flat_model::{Call, Entry, Kind, Object, Place, Prot, Reply};
use flat_state::FlatState;
use std::alloc::{AllocError, Global};
use std::env::Args;

// Where the file is mapped.
const FIRST: u32 = 0x1000_0000;

// The most pages that are mapped: what a process may have.
const MOST_PAGES: u32 = 65536;

// Process 1 over an empty file that may be written and keeps so many pages.
fn opened(alloc: Global, pages: u32) -> Result<FlatState, AllocError> {
    let mut state = FlatState::new(alloc, 0);
    state.disk(0, MOST_PAGES + 1)?;
    state.file(0, 0, &[(1, pages)], true, b"")?;
    state.root(1)?;
    Ok(state)
}

// Whether the call of process 1 with this reply is a step.
fn steps(state: &mut FlatState, call: Call, reply: Reply) -> Result<bool, AllocError> {
    if !call.is_well_formed() {
        return Ok(false);
    }
    state.step(&Entry {
        process: 1,
        call,
        reply,
        cleared: 0,
    })
}

// The file has so many pages, and they are mapped.
fn map_pages(state: &mut FlatState, pages: u32) -> Result<bool, AllocError>
    requires { pages ≤ 65536 }
{
    let length = pages * 4096;
    let long = steps(state, Call::Truncate { file: 0, length }, Reply::Done)?;
    let map = Call::Map {
        place: Place::At(FIRST),
        length,
        prot: Prot::READ | Prot::WRITE,
        kind: Kind::Shared,
        object: Object::File(0),
        offset: 0,
    };
    Ok(long && steps(state, map, Reply::Mapped(FIRST))?)
}

// The address of a word of one of so many pages: each number goes far from the one before.
fn address_at(number: u32, pages: u32) -> u32
    requires { pages ≤ 65536 }
{
    let words = pages as u64 * 1024;
    let word = match (number as u64 * 1_000_003).checked_rem(words) {
        Some(word) => word,
        None => 0,
    };
    FIRST + word as u32 * 4
}

// How many of so many pairs of a store and a load of what was stored are steps.
fn step_over(state: &mut FlatState, pairs: u32, pages: u32) -> Result<u64, AllocError>
    requires { pages ≤ 65536 }
{
    let mut count: u64 = 0;
    for number in 0..pairs {
        let addr = address_at(number, pages);
        let store = Call::Store {
            addr,
            size: 4,
            value: number,
        };
        let stored = steps(state, store, Reply::Done)?;
        let loaded = steps(state, Call::Load { addr, size: 4 }, Reply::Word(number))?;
        count = count.wrapping_add(stored as u64 + loaded as u64);
    }
    Ok(count)
}

/// Whether the file's mapping is a step, and how many of the stores and loads are.
pub(crate) fn step_each(alloc: Global, words: &mut Args) -> Result<(bool, u64), AllocError> {
    let entries = number(words, 200_000);
    let pages = number(words, 4096).min(MOST_PAGES);
    let mut state = opened(alloc, pages)?;
    let mapped = map_pages(&mut state, pages)?;
    let count = step_over(&mut state, entries / 2, pages)?;
    Ok((mapped, count))
}
