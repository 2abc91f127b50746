//! The plan of a script.
ghost use Rattle.std.specs.Prelude.{◌≡◌, ◌<◌, ◌^◌, length};
ghost use Rattle.vm_script.specs.FileNames.{with_files};
ghost use Rattle.vm_script.specs.Processes.{kernel_parents};

use crate::byte_text::ByteText;
use crate::file_names::set_line_file;
use crate::plan_call::PlanCall;
use std::marker::Model;

/// What a set-up line gives.
#[derive(Drop)]
pub enum SetupAct {
    /// The number of page frames.
    Frames(u32),
    /// The number of swap slots, each of a page.
    Swap(u32),
    /// The number of translations.
    Translations(u32),
    /// A disk of so many blocks of zeros, 4096 bytes each.
    Blank {
        disk: u32,
        blocks: u32,
    },
    /// A disk that lies under a path.
    Path {
        disk: u32,
        path: ByteText,
    },
    /// Two disks that stand for one: mirrored, or else striped.
    Join {
        disk: u32,
        other: u32,
        mirror: bool,
    },
    /// A file of at most so many pages, and the bytes that it begins with.
    File {
        name: ByteText,
        writable: bool,
        disk: u32,
        pages: u32,
        bytes: ByteText,
    },
}

/// A set-up line, with its number in the script.
#[derive(Drop)]
pub struct SetupLine {
    pub line: u32,
    pub act: SetupAct,
}

/// What a line of a block does.
#[derive(Drop)]
pub enum PlanAct {
    /// A call that names no file.
    Call(PlanCall),
    /// A call of the file of this name.
    Named {
        name: ByteText,
        call: PlanCall,
    },
    /// A write of these bytes to the file of this name, done in parts.
    Write {
        name: ByteText,
        file: u32,
        offset: u32,
        bytes: ByteText,
    },
    /// Waits for the children.
    Wait,
}

/// A line of a block, with its number in the script and the block's process.
#[derive(Drop)]
pub struct PlanLine {
    pub line: u32,
    pub process: u32,
    pub act: PlanAct,
}

/// What a script says. Processes are numbered from 1 in the order in which their blocks begin.
///
/// It is seen as three lists: the set-up lines, the lines of all blocks in the order of the script,
/// and at place p - 1 the parent of process p, 0 for a top block.
#[derive(Drop)]
pub struct Plan {
    setup: Vec<SetupLine>,
    lines: Vec<PlanLine>,
    parents: Vec<u32>,
}

impl Model for Plan {
    ghost use Rattle.vm_script.specs.PlanSeen.{PlanSeen};

    ghost Value = { PlanSeen };

    ghost view = { λ p.
        record { setup = p.setup.items; lines = p.lines.items; parents = p.parents.items } };
}

impl Plan {
    // The plan of these lists.
    pub(crate) fn new(setup: Vec<SetupLine>, lines: Vec<PlanLine>, parents: Vec<u32>) -> Plan
        ensures { result ≡
            record { setup = setup.items; lines = lines.items; parents = parents.items } }
    {
        Plan {
            setup,
            lines,
            parents,
        }
    }

    /// The set-up lines.
    pub fn setup(&self) -> &[SetupLine]
        ensures { result.now ≡ self.now.setup }
    {
        &self.setup
    }

    /// The lines of all blocks.
    pub fn lines(&self) -> &[PlanLine]
        ensures { result.now ≡ self.now.lines }
    {
        &self.lines
    }

    /// The parents of the blocks.
    pub fn parents(&self) -> &[u32]
        ensures { result.now ≡ self.now.parents }
    {
        &self.parents
    }

    /// The parents of the kernel's processes, which are the blocks.
    pub fn kernel_parents(&self) -> &[u32]
        ensures { result.now ≡ kernel_parents self.now }
    {
        self.parents()
    }

    /// Makes each file number the place of the line's name in these names, fewer than 2^32, the first
    /// one where a name stands there twice. The number of a name that isn't there stays. It takes no
    /// memory.
    #[tactic(auto, using(std::proofs::lemmas::List::Edits::map_over_more))]
    pub fn set_files(&mut self, names: &[ByteText])
        requires few { length names.now < 2 ^ 32 }
        ensures new { self.new ≡ with_files names.now self.old }
    {
        for line in self.lines.iter_mut() {
            set_line_file(names, line);
        }
    }
}
