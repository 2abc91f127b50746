//! System V segments: what a line of a script asks for, what it is answered, and what the answers
//! mean.
//!
//! A segment is a zero object under a key from 1 to 2^32 - 1. Ids, permissions and counts of
//! attachments are left out.
#![tactic(auto)]

mod acts;
mod entries;
mod laws;

pub use acts::{How, ShmAct, ShmAnswer, ShmEntry, ShmFault};
pub use entries::{attached, note};
pub use flat_model::{Call, Entry, Errno, Kind, Object, PAGE_SIZE, Place, Prot, Reply, pages_in};
pub use laws::{keys_law, lives_law, tied_law};
