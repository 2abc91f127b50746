//! A disk of the program.
use crate::blank_disk::BlankDisk;
use disk_file::{Disk, Failed, FileDisk};
use std::fs::File;

/// A disk in memory, which is lost as the program ends, or one over a file. That in memory is boxed: a disk moves with each
/// flight.
#[derive(Drop)]
pub enum HostDisk {
    Blank(Box<BlankDisk>),
    Path(FileDisk<File>),
}

impl Disk for HostDisk {
    ghost use Rattle.sunvm.specs.HostSeen.{host_disk_seen, host_disk_has_blocks};

    ghost seen = { host_disk_seen };

    fn blocks(&self) -> u32 {
        match self {
            HostDisk::Blank(disk) => disk.blocks(),
            HostDisk::Path(disk) => disk.blocks(),
        }
    }

    fn faults(&self) -> u64 {
        match self {
            HostDisk::Blank(disk) => disk.faults(),
            HostDisk::Path(disk) => disk.faults(),
        }
    }

    fn calls(&self) -> u64 {
        match self {
            HostDisk::Blank(disk) => disk.calls(),
            HostDisk::Path(disk) => disk.calls(),
        }
    }

    fn read(&mut self, block: u32, into: &mut [u8]) -> Result<(), Failed> {
        match self {
            HostDisk::Blank(disk) => disk.read(block, into),
            HostDisk::Path(disk) => disk.read(block, into),
        }
    }

    fn write(&mut self, block: u32, from: &[u8]) -> Result<(), Failed> {
        match self {
            HostDisk::Blank(disk) => disk.write(block, from),
            HostDisk::Path(disk) => disk.write(block, from),
        }
    }

    ghost has_blocks = { host_disk_has_blocks };
}
