//! Flat memory: what the kernel's calls do, without frames, disks or translations.
#![tactic(auto)]

mod history_laws;
mod laws;
mod mapping_laws;
mod page_laws;
mod step_laws;
mod words;

pub use history_laws::{
    counted_histories_law, joined_histories_law, open_calls_law, spellings_law, sync_starts_law,
};
pub use laws::{
    file_bytes_law, fork_law, lowest_gap_law, map_then_unmap_law, named_zeros_law, one_more_law,
    private_store_law, quiet_law, ranges_law, reservation_law, stays_flat_law, store_then_load_law,
};
pub use mapping_laws::{cleared_tails_law, protects_law, stays_reached_law};
pub use page_laws::{grown_pages_law, lines_in_pages_law, one_cache_law, shared_store_law};
pub use step_laws::{births_law, keeps_shape_law, steps_keep_law};
pub use vm_types::{
    Call, END_PAGE, Entry, Errno, Kind, Line, Object, PAGE_SIZE, Place, Prot, Reply, Signal,
    bytes_before, ends_call, is_range, line_rest, page_of, pages_in, part_file, word_bytes,
    word_value,
};
pub use vnode_files::{Extent, Files, MOST_EXTENTS};
pub use words::{word_at, word_put};
