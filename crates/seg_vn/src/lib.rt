//! Segments: mappings of files and of zero memory, and the spaces that they make up.
#![tactic(auto)]

mod attempt;
mod cleans;
mod clears;
mod copy_faults;
mod cuts;
mod dups;
mod faults;
mod leaves;
mod protections;
mod segment;
mod segment_faults;
mod shown;
mod spaces;
mod unmaps;

pub use attempt::Attempt;
pub use clears::clear;
pub use seg_ops::{
    AnonMaps, AnonSlots, Call, Disk, DiskFault, Entry, Errno, Fault, Files, Flight, Hat, Hold,
    Kind, Object, PAGE_SIZE, PageName, Pick, Place, Plan, Prot, Ranges, Reply, Residence, Segment,
    Signal, Store, Wants, World, ZeroObjects, ask, begin_push, begin_read, end_flight, evict,
    frame_for, is_range, page_of, pages_in, part_file, read, sync, write, write_block,
};
pub use segment::VnSeg;
pub use spaces::Spaces;
