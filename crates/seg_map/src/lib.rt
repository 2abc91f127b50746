//! Files through kernel windows: bytes that are put into their pages, and files that get longer and shorter.
#![tactic(auto)]

mod bytes;
mod frames;
mod given;
mod laws;
mod lengths;
mod longer;
mod parts;
mod ready;
mod records;
mod shorter;
mod written;

pub use bytes::put;
pub use given::void_page;
pub use laws::{cut_law, ends_law, part_law, wholes_law};
pub use lengths::truncate;
pub use longer::make_longer;
pub use parts::read_line;
pub use ready::ready_last;
pub use records::set_end;
pub use shorter::make_shorter;
pub use written::write_line;
