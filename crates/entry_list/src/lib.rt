//! Lists of entries, in which most entries are short.
//!
//! An `Entry` is as long as the longest call and the longest reply, since either may hold the bytes of a part of a read or a write. Most entries of
//! a long history are loads that gave a word and stores that were done, which a list keeps as rows of a few numbers.
#![tactic(auto)]

mod entries;
mod recording;
mod row;
mod slice;

pub use entries::Entries;
pub use recording::Recording;
pub use row::EntryAt;
pub use slice::EntrySlice;
pub use vm_types::{Call, Entry, Reply};
