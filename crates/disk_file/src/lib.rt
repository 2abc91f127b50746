//! Disks over files.
#![tactic(auto)]

mod block_file;
mod file_disk;
mod mem_file;
mod opening;

pub use block_device::{Block, Disk, Failed, HostSink, HostSource, Rack, RackFault, Spec};
pub use block_file::BlockFile;
pub use file_disk::FileDisk;
pub use mem_file::{Flaw, MemFile};
pub use opening::open;
