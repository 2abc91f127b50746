//! The text of traces, read back line by line, and what a text tells.
#![tactic(auto)]

mod argument_words;
mod call_words;
mod cutting;
mod entry_lines;
mod entry_words;
mod line_telling;
mod numbers;
mod opening;
mod opening_lines;
mod opening_words;
mod printing;
mod reply_words;
mod so_far;
mod splitting;
mod telling;
mod trace_laws;
mod traced_file;

pub use cutting::cut_line;
pub use entry_lines::entry_of_line;
pub use opening::{TraceOpening, read_opening};
pub use opening_lines::opening_of_line;
pub use opening_words::{FileHead, OpeningLine};
pub use trace_laws::{one_entry_law, one_opening_line_law, one_trace_law, reading_law};
pub use traced_file::TracedFile;
