//! What the kernel's state means: the world below the segments, the flat memory that it stands for, and what holds between them.
#![tactic(auto)]

mod laws;
mod segment;
mod sync_start;
mod wants;
mod world;

pub use addr_space::Ranges;
pub use anon_map::AnonMaps;
pub use anon_slots::AnonSlots;
pub use flat_model::{
    Call, Entry, Errno, Files, Kind, Line, Object, PAGE_SIZE, Place, Prot, Reply, Signal,
    bytes_before, is_range, line_rest, page_of, pages_in, part_file, word_at, word_bytes,
};
pub use hat_layer::{Dropped, Hat};
pub use laws::{
    busy_law, call_law, counts_law, crowded_law, entry_law, event_law, failure_law, file_calls_law,
    file_law, file_locks_law, fork_law, frame_law, gap_law, opening_law, protect_law, reserved_law,
    seat_law, segment_cells_law, segment_law, serving_law, start_law, state_entries_law,
    state_failures_law, state_law, state_marks_law, state_raise_law, state_sync_law,
};
pub use segment::Segment;
pub use sync_start::SyncStart;
pub use wants::Wants;
pub use world::World;
pub use zero_objects::ZeroObjects;
