//! An entry of a history beside flat memory.
use flat_state::FlatState;
use std::alloc::AllocError;
use vm_types::Entry;

pub fn acts(flat: &mut FlatState, entry: &Entry) -> Result<bool, AllocError> {
    if !entry.call.is_well_formed() {
        return Ok(false);
    }
    flat.step(entry)
}
