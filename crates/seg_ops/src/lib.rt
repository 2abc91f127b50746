//! Small steps of the world below the segments: each keeps it fit, takes no memory and makes no disk call.
#![tactic(auto)]

mod accesses;
mod anon;
mod blank;
mod cleans;
mod copies;
mod drops;
mod empties;
mod flights;
mod frees;
mod installs;
mod landings;
mod objects;
mod plans;
mod protects;
mod ranges;
mod rooms;
mod sources;
mod tables;
mod tails;

pub use accesses::{frame_for, read, write};
pub use anon::{make_copy, make_zero, places_law};
pub use blank::{fill, fill_page};
pub use cleans::clean_pages;
pub use copies::{copy_slot, zero_slot};
pub use drops::drop_translation;
pub use empties::{drop_slot, leave_slot, own_pages_law, own_shown_law};
pub use flights::{begin_push, begin_read, mark_pushed};
pub use frees::free_next;
pub use installs::{install, show, take_back};
pub use landings::end_flight;
pub use objects::drop_object;
pub use page_store::{
    Disk, DiskFault, Flight, Hold, PageName, Pick, Plan, Residence, SWAP_OBJECT, Store, write_block,
};
pub use plans::{Fault, ask, fetch};
pub use protects::protect;
pub use ranges::drop_places;
pub use rooms::{evict, make_room, make_room_beside, sync};
pub use sources::{Front, front_kept, make_room_for_copy};
pub use vm_world::{
    AnonMaps, AnonSlots, Call, Entry, Errno, Files, Hat, Kind, Line, Object, PAGE_SIZE, Place,
    Prot, Ranges, Reply, Segment, Signal, Wants, World, ZeroObjects, bytes_before, is_range,
    line_rest, page_of, pages_in, part_file,
};
