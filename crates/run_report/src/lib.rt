//! A run's tables and its report are written, once its files were closed.
#![tactic(auto)]

mod closed_files;
mod reporting;

pub use closed_files::{report, tell_fault};
