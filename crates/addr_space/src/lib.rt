//! Address spaces: pieces of pages, each found by any of its pages.
#![tactic(auto)]

mod laws;
mod ranges;

pub use laws::pages_law;
pub use ranges::Ranges;
