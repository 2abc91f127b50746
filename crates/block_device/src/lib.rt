//! The outside world: block devices, sources of bytes, sinks for text, and racks of disks.
#![tactic(auto)]

mod block;
mod disk;
mod disk_fault;
mod failing;
mod host;
mod mem_disk;
mod mem_rack;
mod mem_sink;
mod mem_source;
mod numbered;
mod open_fault;
mod pairing;
mod path_text;
mod rack;
mod reading;
mod stream;
mod unopened;
mod untold;

pub use block::Block;
pub use disk::{Disk, Failed};
pub use disk_fault::DiskFault;
pub use host::{HostSink, HostSource};
pub use mem_disk::MemDisk;
pub use mem_rack::MemRack;
pub use mem_sink::MemSink;
pub use mem_source::MemSource;
pub use numbered::{NumberedDisk, read_block, write_block};
pub use open_fault::OpenFault;
pub use pairing::Pairing;
pub use path_text::PathText;
pub use rack::{Rack, RackFault, Spec};
pub use reading::{ReadFault, read_to_limit, write_all};
pub use stream::{Sink, Source};
pub use unopened::{AttachFault, Unopened};
pub use untold::Untold;
