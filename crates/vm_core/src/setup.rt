//! What a state is made of.
use fault_entry::{Disk, Files};

/// What a state is made of.
#[derive(Drop)]
pub struct Setup<D: Disk> {
    /// Frames of memory.
    pub frames: u32,
    /// Translations that the hardware holds at a time.
    pub translations: u32,
    /// Swap slots.
    pub slots: u32,
    /// The disks of the files by number, from 0 to 7.
    pub disks: Vec<(u32, D)>,
    /// The swap disk, a block for each slot; none where there are no slots.
    pub swap: Option<D>,
    pub files: Files,
    /// Of each process from 1 on its parent, or 0 where it is alive from the start.
    pub parents: Vec<u32>,
    /// Of each process from 1 on the most entries that it may make.
    pub entries: Vec<u32>,
    /// How many seats there are: that of process p is p - 1.
    pub seats: u32,
}
