//! Pages by vnode and offset: named pages in frames, in flight, or on disks that may be out in the hands of callers.
#![tactic(auto)]

mod bays;
mod flight;
mod frames;
mod landing;
mod laws;
mod order;
mod pages;
mod place;
mod plan;
mod residence;
mod setup;
mod store;
mod transfers;

pub use block_device::{Disk, DiskFault, write_block};
pub use flight::Flight;
pub use laws::{away_law, table_law};
pub use page_clock::Pick;
pub use page_hash::PageName;
pub use place::{PAGE_BYTES, Place, SWAP_DISK, SWAP_OBJECT, layout_law};
pub use plan::{Hold, Plan};
pub use residence::Residence;
pub use store::Store;
