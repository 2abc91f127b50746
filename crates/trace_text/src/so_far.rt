//! What the lines before the entries tell that were read so far.
ghost use Rattle.std.specs.Prelude.{ℕ, List, ◌≡◌, ◌≤◌, ◌+◌, ◌&&◌, [], IfOk, IfSome, option_map, length, map as over, nat_eq, nat_le};
ghost use Rattle.std.specs.List.{list_any};
ghost use Rattle.vm_report.specs.flat_model.Words.{with_bytes};
ghost use Rattle.trace_text.specs.LineOrder.{AtDisks, file_place, may_be_piece, place_after};
ghost use Rattle.trace_text.specs.LinesRead.{untold, tell};
ghost use Rattle.trace_text.specs.OpeningSeen.{head_seen, padded, traced_file_seen, files_seen, least_offset, place_seen, stage_seen, trace_seen, opening_line_seen};
ghost use Rattle.trace_text.specs.OpeningTaken.{entries_at};
ghost use Rattle.trace_text.specs.TraceLines.{Slots, Disk, Root, File, Piece, Entries};

use crate::opening_words::{FileHead, OpeningLine};
use crate::traced_file::TracedFile;
use std::alloc::{AllocError, Global};

/// Which lines may come next: a disk, or a top process, whose number is at least this; bytes of the
/// last file; or so many entries. With it stand the files.
#[derive(Drop)]
pub enum Stage {
    Disks(u64),
    Roots(u64),
    InFile(Vec<TracedFile>, TracedFile),
    Entries(Vec<TracedFile>, u64),
}

/// What is told, and which lines may come next.
#[derive(Drop)]
pub struct OpeningSoFar {
    pub slots: u32,
    pub disks: Vec<(u32, u32)>,
    pub roots: Vec<u32>,
    pub stage: Stage,
}

// A file of which only its line is told.
fn new_file(alloc: Global, head: FileHead) -> TracedFile
    ensures head { result.head ≡ head }
    ensures bytes { result.bytes.items ≡ [] }
{
    TracedFile {
        head,
        bytes: Vec::new(alloc),
    }
}

// Whether so many bytes of a file may come at this offset.
fn may_have(file: &TracedFile, offset: u32, count: usize) -> bool
    ensures { result ≡ (nat_le (least_offset file.now) offset
        && may_be_piece file.now.head.len offset count) }
{
    let least = (file.bytes.len() as u64 + 31) / 32 * 32;
    least <= u64::from(offset)
        && offset % 32 == 0
        && offset < file.head.len
        && count == (file.head.len - offset).min(32) as usize
}

// The file with bytes at this offset, which is behind those that it has.
#[tactic(auto, using(crate::proofs::Padded::put_behind))]
fn with_piece(file: TracedFile, offset: u32, bytes: &[u8]) -> Result<TracedFile, AllocError>
    requires behind { length file.bytes.items ≤ offset }
    requires inside { offset + length bytes.now ≤ file.head.len }
    ensures head { IfOk result (λ f. f.head ≡ file.head) }
    ensures length { IfOk result (λ f. length f.bytes.items ≡ offset + length bytes.now) }
    ensures bytes { IfOk result (λ f. padded f.head.len f.bytes.items
        ≡ with_bytes (padded file.head.len file.bytes.items) offset bytes.now) }
{
    let TracedFile {
        head,
        bytes: mut all,
    } = file;
    all.resize(offset as usize, 0)?;
    all.extend_from_slice(bytes)?;
    Ok(TracedFile { head, bytes: all })
}

// The files, where another one or the number of entries may come.
fn open_files(alloc: Global, stage: Stage) -> Result<Option<Vec<TracedFile>>, AllocError>
    ensures place { (numbers : List ℕ) → IfOk result (λ r.
        option_map (λ files. (numbers, length files.items)) r
        ≡ file_place (stage_seen stage numbers)) }
    ensures files { IfOk result (λ r. IfSome r (λ files.
        over traced_file_seen files.items ≡ files_seen stage)) }
{
    match stage {
        Stage::Disks(_) | Stage::Roots(_) => Ok(Some(Vec::new(alloc))),
        Stage::InFile(mut before, file) => {
            before.push(file)?;
            Ok(Some(before))
        }
        Stage::Entries(_, _) => Ok(None),
    }
}

fn has_disk(disks: &[(u32, u32)], disk: u32) -> bool
    ensures { result ≡ list_any (λ d. nat_eq disk d.0) disks.now }
{
    disks.iter().any(|d| disk == d.0)
}

impl OpeningSoFar {
    /// The first line is read, which tells the swap slots.
    pub fn new(alloc: Global, slots: u32) -> Self
        ensures place { place_seen result ≡ AtDisks 0 [] }
        ensures trace { trace_seen result ≡ tell untold (Slots slots) }
    {
        OpeningSoFar {
            slots,
            disks: Vec::new(alloc),
            roots: Vec::new(alloc),
            stage: Stage::Disks(0),
        }
    }

    /// How many entries may come, where entries may.
    pub fn entries(&self) -> Option<u64>
        ensures { result ≡ entries_at (place_seen self.now) }
    {
        match &self.stage {
            Stage::Entries(_, count) => Some(*count),
            _ => None,
        }
    }

    // Each function below takes a line, and answers nothing where it may not come.

    fn take_disk(mut self, disk: u32, blocks: u32) -> Result<Option<Self>, AllocError>
        ensures place { IfOk result (λ r. option_map place_seen r
            ≡ place_after (place_seen self) (Disk (disk, blocks))) }
        ensures trace { IfOk result (λ r. IfSome r (λ new.
            trace_seen new ≡ tell (trace_seen self) (Disk (disk, blocks)))) }
    {
        let Stage::Disks(least) = &self.stage else {
            return Ok(None);
        };
        if u64::from(disk) < *least {
            return Ok(None);
        }
        self.disks.push((disk, blocks))?;
        self.stage = Stage::Disks(u64::from(disk) + 1);
        Ok(Some(self))
    }

    fn take_root(mut self, process: u32) -> Result<Option<Self>, AllocError>
        ensures place { IfOk result (λ r. option_map place_seen r
            ≡ place_after (place_seen self) (Root process)) }
        ensures trace { IfOk result (λ r. IfSome r (λ new.
            trace_seen new ≡ tell (trace_seen self) (Root process))) }
    {
        let least = match &self.stage {
            Stage::Disks(_) => 1,
            Stage::Roots(least) => *least,
            _ => return Ok(None),
        };
        if u64::from(process) < least {
            return Ok(None);
        }
        self.roots.push(process)?;
        self.stage = Stage::Roots(u64::from(process) + 1);
        Ok(Some(self))
    }

    fn take_file(self, alloc: Global, head: FileHead) -> Result<Option<Self>, AllocError>
        ensures place { IfOk result (λ r. option_map place_seen r
            ≡ place_after (place_seen self) (File (head_seen head))) }
        ensures trace { IfOk result (λ r. IfSome r (λ new.
            trace_seen new ≡ tell (trace_seen self) (File (head_seen head)))) }
    {
        let OpeningSoFar {
            slots,
            disks,
            roots,
            stage,
        } = self;
        let Some(files) = open_files(alloc, stage)? else {
            return Ok(None);
        };
        if head.file as usize != files.len() {
            return Ok(None);
        }
        if !has_disk(&disks, head.disk) {
            return Ok(None);
        }
        let stage = Stage::InFile(files, new_file(alloc, head));
        Ok(Some(OpeningSoFar {
            slots,
            disks,
            roots,
            stage,
        }))
    }

    fn take_piece(self, offset: u32, bytes: &[u8]) -> Result<Option<Self>, AllocError>
        ensures place { IfOk result (λ r. option_map place_seen r
            ≡ place_after (place_seen self) (Piece offset bytes.now)) }
        ensures trace { IfOk result (λ r. IfSome r (λ new.
            trace_seen new ≡ tell (trace_seen self) (Piece offset bytes.now))) }
    {
        let OpeningSoFar {
            slots,
            disks,
            roots,
            stage,
        } = self;
        let Stage::InFile(before, file) = stage else {
            return Ok(None);
        };
        if !may_have(&file, offset, bytes.len()) {
            return Ok(None);
        }
        let stage = Stage::InFile(before, with_piece(file, offset, bytes)?);
        Ok(Some(OpeningSoFar {
            slots,
            disks,
            roots,
            stage,
        }))
    }

    fn take_count(self, alloc: Global, count: u64) -> Result<Option<Self>, AllocError>
        ensures place { IfOk result (λ r. option_map place_seen r
            ≡ place_after (place_seen self) (Entries count)) }
        ensures trace { IfOk result (λ r. IfSome r (λ new. trace_seen new ≡ trace_seen self)) }
    {
        let OpeningSoFar {
            slots,
            disks,
            roots,
            stage,
        } = self;
        let Some(files) = open_files(alloc, stage)? else {
            return Ok(None);
        };
        let stage = Stage::Entries(files, count);
        Ok(Some(OpeningSoFar {
            slots,
            disks,
            roots,
            stage,
        }))
    }

    /// What is told with a line more; nothing where the line may not come.
    pub fn take(self, alloc: Global, line: OpeningLine) -> Result<Option<Self>, AllocError>
        ensures place { IfOk result (λ r. option_map place_seen r
            ≡ place_after (place_seen self) (opening_line_seen line)) }
        ensures trace { IfOk result (λ r. IfSome r (λ new.
            trace_seen new ≡ tell (trace_seen self) (opening_line_seen line))) }
    {
        match line {
            OpeningLine::Slots(_) => Ok(None),
            OpeningLine::Disk(disk, blocks) => self.take_disk(disk, blocks),
            OpeningLine::Root(process) => self.take_root(process),
            OpeningLine::File(head) => self.take_file(alloc, head),
            OpeningLine::Piece(offset, bytes) => self.take_piece(offset, &bytes),
            OpeningLine::Entries(count) => self.take_count(alloc, count),
        }
    }
}
