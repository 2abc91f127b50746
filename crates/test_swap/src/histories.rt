//! What a history tells beside flat memory.
use crate::swap_tests::{Family, Run};
use flat_state::FlatState;
use std::alloc::{AllocError, Global};
use test_acts::acts;
use vm_types::{Call, Entry, Errno, Reply};

/// What a history counts.
#[derive(Clone, Copy, PartialEq, Eq, Debug)]
pub(crate) struct Counts {
    /// Entries that are steps of flat memory, from the first on, each behind those before it.
    pub(crate) legal: usize,
    /// Entries.
    pub(crate) all: usize,
    /// Forks that are done, and that are refused.
    pub(crate) born: u32,
    pub(crate) refused: u32,
}

fn steps(flat: &mut FlatState, entries: &[Entry]) -> Result<usize, AllocError> {
    for (place, entry) in entries.iter().enumerate() {
        if !acts(flat, entry)? {
            return Ok(place);
        }
    }
    Ok(entries.len())
}

/// How many of the entries are Forks with this reply.
fn forks_with(entries: &[Entry], reply: Reply) -> u32 {
    let mut count: u32 = 0;
    for entry in entries {
        if let Call::Fork { .. } = entry.call
            && entry.reply == reply
        {
            count = count.wrapping_add(1);
        }
    }
    count
}

/// Flat memory as process 1 begins alone.
fn opened(alloc: Global, slots: u32) -> Result<FlatState, AllocError> {
    let mut flat = FlatState::new(alloc, slots);
    flat.root(1)?;
    Ok(flat)
}

/// Flat memory as three processes begin.
fn opened_apart(alloc: Global, slots: u32) -> Result<FlatState, AllocError> {
    let mut flat = FlatState::new(alloc, slots);
    flat.root(1)?;
    flat.root(2)?;
    flat.root(3)?;
    Ok(flat)
}

fn opened_for(alloc: Global, run: Run) -> Result<FlatState, AllocError> {
    match run.family {
        Family::Apart => opened_apart(alloc, run.slots),
        _ => opened(alloc, run.slots),
    }
}

pub(crate) fn counts_of(alloc: Global, run: Run, entries: &[Entry]) -> Result<Counts, AllocError> {
    let mut flat = opened_for(alloc, run)?;
    Ok(Counts {
        legal: steps(&mut flat, entries)?,
        all: entries.len(),
        born: forks_with(entries, Reply::Done),
        refused: forks_with(entries, Reply::Refused(Errno::NoSwap)),
    })
}
