//! Histories of one process beside flat memory, entry by entry.
use flat_state::FlatState;
use std::alloc::AllocError;
use vm_types::{Entry, Reply};

/// Takes the entry, and says whether it is a step of flat memory.
pub fn acts(flat: &mut FlatState, entry: &Entry) -> Result<bool, AllocError> {
    if !entry.call.is_well_formed() {
        return Ok(false);
    }
    flat.step(entry)
}

// Whether an entry that stands behind so many others, all of its process, begins there, if it is a Sync's.
fn begins_behind(entry: &Entry, entries: usize) -> bool {
    match entry.reply {
        Reply::Synced(from) => from == entries as u64,
        _ => true,
    }
}

/// Whether the entries are steps of flat memory, one behind the other, and each Sync began where it stands.
pub fn replays(flat: &mut FlatState, entries: &[Entry]) -> Result<bool, AllocError> {
    for (place, entry) in entries.iter().enumerate() {
        if !begins_behind(entry, place) || !acts(flat, entry)? {
            return Ok(false);
        }
    }
    Ok(true)
}
