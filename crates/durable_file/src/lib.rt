//! Files whose writes are answered once the host's disk has them.
#![tactic(auto)]

mod durable;
mod flushed_file;
mod mem_flushed;

pub use disk_file::{BlockFile, MemFile};
pub use durable::DurableFile;
pub use flushed_file::FlushedFile;
pub use mem_flushed::MemFlushed;
