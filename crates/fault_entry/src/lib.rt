//! Loads and stores: hits through translations, and faults.
#![tactic(auto)]

mod access;
mod answers;
mod entry;

pub use answers::Answer;
pub use entry::{answer, answer_hit};
pub use seg_vn::{
    AnonMaps, AnonSlots, Attempt, Call, Disk, DiskFault, Entry, Files, Flight, Hat, Hold, PageName,
    Pick, Plan, Ranges, Reply, Residence, Spaces, Store, VnSeg, Wants, World, ZeroObjects, ask,
    begin_push, begin_read, end_flight, evict, page_of, pages_in, part_file, sync, write_block,
};
