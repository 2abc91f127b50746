//! Vnodes as records: the files, with their extents on the disks, their lengths, and the pages that were never written.
#![tactic(auto)]

mod extent;
mod files;
mod growth;
mod laws;
mod name;
mod vnode;

pub use extent::{Extent, Extents, MOST_EXTENTS};
pub use files::Files;
pub use laws::{file_layout_law, growth_law};
pub use name::FileName;
pub use vnode::FileInfo;
