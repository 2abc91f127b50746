//! How a run ended.
use run_endings::RunFault;
use vm_core::KernelHistory;
use volume_files::Disk;

/// How a run ended, what its kernel kept, and its disks.
#[derive(Drop)]
pub struct Outcome<D: Disk> {
    /// 0, or 2 to 9.
    pub status: u8,
    /// The fault that the status 7 names.
    pub fault: Option<RunFault>,
    pub history: KernelHistory,
    /// The disks that were attached, those of a joined disk among them, in rising number.
    pub disks: Vec<D>,
    /// The swap disk, where one was attached.
    pub swap: Option<D>,
}
