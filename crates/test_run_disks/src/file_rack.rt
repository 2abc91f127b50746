//! A rack whose disks by path lie over files in memory, and what a run over it leaves in the files.
ghost use Rattle.std.specs.Prelude.{◌≡◌, ◌≤◌, map, IfOk, IfSome};
ghost use Rattle.block_device.specs.MemSeen.{one_more};
ghost use Rattle.disk_file.specs.MemFileLook.{mem_file_bytes};
ghost use Rattle.test_run_disks.specs.FileImages.{image_of};

use block_device::{Disk, Failed, Rack, RackFault, Spec};
use disk_file::{FileDisk, Flaw, MemFile};
use std::alloc::{AllocError, Global};
use std::marker::Model;
use std::sync::Wait;
use std::thread::Threads;
use test_run::{NEVER, NO_WORDS, run_over};

/// What goes wrong in the calls of a file, one after another.
pub type FileFlaws = Vec<Option<Flaw>>;

/// A disk over a file in memory.
#[derive(Drop)]
pub struct MemFileDisk {
    disk: FileDisk<MemFile>,
}

impl Disk for MemFileDisk {
    ghost use Rattle.disk_file.specs.FileDiskLook.{file_disk_seen, file_disk_has_blocks};
    ghost use Rattle.disk_file.specs.FileDiskSeen.{file_disk_as_disk};
    ghost use Rattle.disk_file.specs.MemFileLook.{mem_file_are_bytes};

    ghost seen = { λ d. file_disk_as_disk (file_disk_seen d.disk) };

    fn blocks(&self) -> u32 {
        self.disk.blocks()
    }

    fn faults(&self) -> u64 {
        self.disk.faults()
    }

    fn calls(&self) -> u64 {
        self.disk.calls()
    }

    fn read(&mut self, block: u32, into: &mut [u8]) -> Result<(), Failed> {
        self.disk.read(block, into)
    }

    fn write(&mut self, block: u32, from: &[u8]) -> Result<(), Failed> {
        self.disk.write(block, from)
    }

    ghost has_blocks = { λ d. file_disk_has_blocks mem_file_are_bytes d.disk };
}

/// A rack that gives, by any path, the disk over a file in memory: the file of the disk's number has the bytes of that place, and
/// its calls that place's flaws. It makes no blank disk.
#[derive(Drop)]
pub struct FileRack {
    alloc: Global,
    files: Vec<Vec<u8>>,
    flaws: Vec<FileFlaws>,
    faults: u64,
    attached: u64,
}

impl Model for FileRack {
    ghost use Rattle.std.specs.Prelude.{map};
    ghost use Rattle.test_run_disks.specs.FileImages.{FileRackSeen};

    ghost Value = { FileRackSeen };

    ghost view = { λ rack. record { files = map (λ file. file.items) rack.files.items; faults = rack.faults; attached = rack.attached } };
}

impl FileRack {
    /// A rack of these files, whose calls have these flaws.
    pub fn new(alloc: Global, files: Vec<Vec<u8>>, flaws: Vec<FileFlaws>) -> FileRack
        ensures { result ≡ record
            { files = map (λ file. file.items) files.items; faults = 0; attached = 0 } }
    {
        FileRack {
            alloc,
            files,
            flaws,
            faults: 0,
            attached: 0,
        }
    }

    // The file of this number; none where the rack has none.
    fn file_of(&self, number: u32) -> Result<Option<MemFile>, AllocError>
        ensures { IfOk result (λ given. IfSome given (λ file.
            mem_file_bytes file ≡ image_of self.now.files number)) }
    {
        let number = number as usize;
        if number >= self.files.len() {
            return Ok(None);
        }
        let bytes = Vec::from_slice(self.alloc, self.files[number].as_slice())?;
        let flaws = match self.flaws.get(number) {
            Some(flaws) => Vec::from_slice(self.alloc, flaws.as_slice())?,
            None => Vec::new(self.alloc),
        };
        Ok(Some(MemFile::new(bytes, flaws)))
    }

    // Counts a fault.
    fn fail(&mut self) -> RackFault
        ensures fault { result ≡ RackFault.Failed }
        ensures new { self.new ≡ record self.old { faults = one_more self.old.faults } }
        ensures later { self.old.faults ≤ self.new.faults }
    {
        self.faults = self.faults.saturating_add(1);
        RackFault::Failed
    }
}

impl Rack for FileRack {
    ghost use Rattle.test_run_disks.specs.FileImages.{file_rack_as_rack};

    type D = MemFileDisk;

    ghost seen = { file_rack_as_rack };

    fn faults(&self) -> u64 {
        self.faults
    }

    fn attach(&mut self, spec: &Spec) -> Result<MemFileDisk, RackFault> {
        let Spec::Path { number, .. } = spec else {
            return Err(self.fail());
        };
        let Some(attached) = self.attached.checked_add(1) else {
            return Err(self.fail());
        };
        let Ok(file) = self.file_of(*number) else {
            return Err(RackFault::Memory);
        };
        let Some(file) = file else {
            return Err(self.fail());
        };
        let size = file.bytes().len() as u64;
        match FileDisk::over(file, size) {
            Some(disk) => {
                self.attached = attached;
                Ok(MemFileDisk { disk })
            }
            None => Err(self.fail()),
        }
    }
}

/// What a run over files left: its status, its text, and the bytes of each file.
#[derive(Drop)]
pub struct LeftFiles {
    pub status: u8,
    pub text: Vec<u8>,
    pub files: Vec<Vec<u8>>,
}

/// Runs a script over files in memory.
pub fn run_over_files(
    rt: &(impl Threads + Wait + Sync),
    alloc: Global,
    script: &[u8],
    files: Vec<Vec<u8>>,
    flaws: Vec<FileFlaws>,
) -> Result<LeftFiles, AllocError> {
    let mut rack = FileRack::new(alloc, files, flaws);
    let (outcome, text) = run_over(rt, alloc, NO_WORDS, script, &NEVER, &mut rack)?;
    let mut files = Vec::new(alloc);
    let status = outcome.status;
    for disk in outcome.disks {
        files.push(Vec::from_slice(alloc, disk.disk.into_file().bytes())?)?;
    }
    Ok(LeftFiles {
        status,
        text,
        files,
    })
}
