//! A disk's table of files: the grammar of its block 0, both ways.
#![tactic(auto)]

mod bytes;
mod reading;
mod rules;
mod table;
mod writing;

pub use reading::decode;
pub use rules::BadVolume;
pub use table::Table;
pub use vnode_files::{Extent, Extents, FileInfo, FileName, Files, MOST_EXTENTS};
pub use writing::encode;
