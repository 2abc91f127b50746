//! The fault of a device that ended a run.
use volume_files::{DiskFault, OpenFault};

/// A fault of a device that ended a run.
#[derive(Debug, Drop)]
pub enum RunFault {
    /// It came before the processes ran.
    Opening(OpenFault),
    /// It came as the files were closed.
    Closing(DiskFault),
    /// It came as a file was read back for the report.
    Showing(DiskFault),
}
