//! Opens a file as a disk.
ghost use Rattle.std.specs.Prelude.{◌≡◌, true, None, IfOk, IfSome};
ghost use Rattle.std.specs.Fs.{new_options, with_read, with_write};
ghost use Rattle.block_device.specs.Counts.{CountsFailures};
ghost use Rattle.disk_file.specs.FileDiskLook.{file_disk_seen};
ghost use Rattle.disk_file.specs.FileDiskSeen.{fresh_file_disk};

use crate::FileDisk;
use block_device::{Failed, PathText};
use std::fs::{File, OpenOptions};
use std::rt::Files;

// How a disk's file is opened: for reading and writing, as it is. Nothing is made, cut or made longer.
fn as_it_is() -> OpenOptions
    ensures { result ≡ with_write (with_read new_options true) true }
{
    let mut options = OpenOptions::new();
    options.read(true).write(true);
    options
}

// The disk over the file at a path, unless the path isn't text, leads to no regular file that may be read
// and written, or the file has 2^32 blocks or more.
fn found_at<R: Files<File = File>>(files: &R, path: &PathText) -> Option<FileDisk<File>>
    ensures { IfSome result (λ disk.
        file_disk_seen disk ≡ fresh_file_disk None (file_disk_seen disk).size) }
{
    let path = str::from_utf8(path.bytes()).ok()?;
    let file = as_it_is().open(files, path).ok()?;
    let found = file.metadata().ok()?;
    if !found.is_file() {
        return None;
    }
    FileDisk::over(file, found.len())
}

/// Opens the file at a path, which has to be there, as a disk, for reading and writing. The disk's blocks
/// are the whole blocks that the file has now. It fails, and counts the failure in `faults`, where the path
/// isn't UTF-8 or leads to no regular file, where the file may not be read and written, and where it has
/// 2^32 blocks or more. It takes no memory.
pub fn open<R: Files<File = File>>(
    files: &R,
    path: &PathText,
    faults: &mut u64,
) -> Result<FileDisk<File>, Failed>
    ensures disk { IfOk result (λ disk.
        file_disk_seen disk ≡ fresh_file_disk None (file_disk_seen disk).size) }
    ensures cause { CountsFailures faults.old faults.new result }
{
    match found_at(files, path) {
        Some(disk) => Ok(disk),
        None => {
            *faults = faults.saturating_add(1);
            Err(Failed)
        }
    }
}
