//! How a run may end: the endings, the status and the fault of each, and the line that is printed last.
#![tactic(auto)]

mod ending;
mod fault;
mod inquiry_end;
mod last_line;

pub use ending::{Ending, TraceAnswer, TraceEnd};
pub use fault::RunFault;
pub use inquiry_end::InquiryEnd;
pub use last_line::tell_ending;
