//! Calls that change the mappings of a process.
#![tactic(auto)]

mod calls;
mod counts;
mod cuts;
mod gaps;
mod maps;
mod protects;
mod refusals;
mod syncs;
mod unmaps;

pub use calls::attempt;
pub use syncs::sync;
