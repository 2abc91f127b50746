//! The files of a script as their disks have them: read back, shown page by page, and closed with their tables. No kernel is known
//! here, nor how the disks came.
#![tactic(auto)]

mod closing;
mod disk_tables;
mod page_disk;
mod page_lines;
mod showing;
mod tracing;

pub use closing::{TableStop, write_tables};
pub use page_disk::PageDisk;
pub use showing::{Heading, ShowStop, show_files};
pub use tracing::trace_opening;
