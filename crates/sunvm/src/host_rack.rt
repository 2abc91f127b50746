//! The rack of the program.
ghost use Rattle.std.specs.Prelude.{◌≡◌, IfSome};
ghost use Rattle.sunvm.specs.BlankDisks.{blank_disk_seen, fresh_blank_disk};
ghost use Rattle.sunvm.specs.HostSeen.{HostRackSeen};

use crate::blank_disk::BlankDisk;
use crate::explaining::Unopened;
use crate::host_disk::HostDisk;
use block_device::{PathText, Rack, RackFault, Spec};
use std::alloc::Global;
use std::fs::{File, OpenFile, OpenOptions};
use std::marker::Model;
use std::rt::Files;

/// A rack that makes blank disks in memory, and opens the file at a path as a disk. Contracts see its count of faults
/// and of the disks that it attached. Once it attached 2^64 - 1 disks it fails.
#[derive(Drop)]
pub struct HostRack<'a, R: Files<File = File>> {
    alloc: Global,
    files: &'a R,
    faults: u64,
    attached: u64,
    unopened: Option<Unopened>,
}

impl<'a, R: Files<File = File>> Model for HostRack<'a, R> {
    ghost use Rattle.sunvm.specs.HostSeen.{HostRackSeen};

    ghost Value = { HostRackSeen };

    ghost view = { λ rack. record { faults = rack.faults; attached = rack.attached } };
}

impl<'a, R: Files<File = File>> HostRack<'a, R> {
    /// A rack with no fault and no disk yet.
    pub fn new(alloc: Global, files: &'a R) -> HostRack<'a, R>
        ensures { result ≡ record { faults = 0; attached = 0 } }
    {
        HostRack {
            alloc,
            files,
            faults: 0,
            attached: 0,
            unopened: None,
        }
    }

    /// Why the file of the last disk that it didn't attach couldn't be opened.
    pub fn unopened(&self) -> Option<Unopened> {
        self.unopened
    }
}

// Why the file at a path couldn't be opened as a disk: it is tried once more.
fn why_unopened<R: Files<File = File>>(files: &R, path: &PathText) -> Unopened {
    let Ok(path) = str::from_utf8(path.bytes()) else {
        return Unopened::Other;
    };
    match OpenOptions::new().read(true).write(true).open(files, path) {
        Ok(file) => match file.metadata() {
            Ok(found) if found.is_file() => Unopened::Other,
            _ => Unopened::NoFile,
        },
        Err(error) => Unopened::Refused(error.kind()),
    }
}

/// A disk of so many blank blocks, in a box.
fn boxed(alloc: Global, blocks: u32) -> Option<Box<BlankDisk>>
    ensures { IfSome result (λ disk. blank_disk_seen disk.value ≡ fresh_blank_disk blocks) }
{
    let Ok(disk) = BlankDisk::new(alloc, blocks) else {
        return None;
    };
    match Box::new(alloc, disk) {
        Ok(boxed) => Some(boxed),
        Err(_) => None,
    }
}

impl<R: Files<File = File>> Rack for HostRack<'_, R> {
    ghost use Rattle.std.specs.Prelude.{None};

    type D = HostDisk;

    ghost seen = { λ rack. record { holds = λ spec. None; faults = rack.faults; attached = rack.attached } };

    fn faults(&self) -> u64 {
        self.faults
    }

    fn attach(&mut self, spec: &Spec) -> Result<HostDisk, RackFault> {
        let Some(attached) = self.attached.checked_add(1) else {
            self.faults = self.faults.saturating_add(1);
            return Err(RackFault::Failed);
        };
        match spec {
            Spec::Blank { blocks, .. } => {
                match boxed(self.alloc, *blocks) {
                    Some(disk) => {
                        self.attached = attached;
                        Ok(HostDisk::Blank(disk))
                    }
                    None => Err(RackFault::Memory),
                }
            }
            Spec::Path { path, .. } => {
                match disk_file::open(self.files, path, &mut self.faults) {
                    Ok(disk) => {
                        self.attached = attached;
                        Ok(HostDisk::Path(disk))
                    }
                    Err(_) => {
                        self.unopened = Some(why_unopened(self.files, path));
                        Err(RackFault::Failed)
                    }
                }
            }
        }
    }
}
