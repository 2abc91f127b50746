//! Checks a trace: whether the history that it tells is legal.
#![tactic(auto)]

mod check_laws;
mod checking;
mod judge;
mod opened;
mod verdict;

pub use check_laws::{no_bad_line_law, one_answer_law, one_meaning_law};
pub use checking::{MOST_TRACE_BYTES, check};
pub use opened::flat_opened;
pub use verdict::{TraceFault, Verdict};
