//! Flat memory, kept plainly: it steps over the entries of a history, for tests and for checking traces.
#![tactic(auto)]

mod cells;
mod file_pages;
mod files;
mod flat_state;
mod growth;
mod map_call;
mod object_pages;
mod page_bytes;
mod pages;
mod replies;
mod spaces;
mod state;
mod state_calls;
mod state_fork;
mod state_map;
mod state_parts;
mod state_ranges;
mod state_step;
mod zeros;

pub use flat_state::FlatState;
