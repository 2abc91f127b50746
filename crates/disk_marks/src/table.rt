//! The marks of all blocks, and the pushes of all seats.
ghost use Rattle.std.specs.Prelude.{◌≡◌, ◌↔◌, ◌<◌, IsTrue, None, length, map, replicate, IfOk};
ghost use Rattle.disk_marks.specs.Marks.{HasRow, unused_row, mark_row, push_of, with_mark_row, with_push};
ghost use Rattle.disk_marks.specs.Changes.{marks_begun, marks_written, marks_spoiled, marks_raised, marks_taken, marks_unpushed, push_cut, pushes_cut, push_dropped, pushes_dropped, marks_emptied};

use crate::marks::{MarkRow, Pushing};
use crate::row::Row;
use std::alloc::{AllocError, Global};
use std::marker::Model;

/// A row for each block of each disk of files, by the disk's number, in 24 bytes each; and of each seat the push of a file's
/// page that it has out. Each number of entries fits 32 bits.
#[derive(Drop)]
pub struct DiskMarks {
    rows: Vec<Vec<Row>>,
    pushes: Vec<Option<Pushing>>,
}

impl Model for DiskMarks {
    ghost use Rattle.std.specs.Prelude.{map};
    ghost use Rattle.disk_marks.specs.Marks.{MarksSeen};

    ghost Value = { MarksSeen };

    ghost view = { λ m. record { rows = map (λ rows. rows.items) m.rows.items; pushes = m.pushes.items } };
}

/// Unused rows for the blocks of each disk.
fn unused_rows(alloc: Global, blocks: &[u32]) -> Result<Vec<Vec<Row>>, AllocError>
    ensures { IfOk result (λ rows. map (λ row. row.items) rows.items
        ≡ map (λ count. replicate count unused_row) blocks.now) }
{
    let mut rows = Vec::new(alloc);
    for count in blocks {
        rows.push(vec![in alloc; Row::blank(0, false); *count as usize]?)?;
    }
    Ok(rows)
}

/// A push once its file was cut to so many pages.
fn cut(push: Option<Pushing>, file: u32, pages: u32) -> Option<Pushing>
    ensures { result ≡ push_cut file pages push }
{
    match push {
        Some(push) if push.file == file => {
            (push.page < pages).then_some(Pushing {
                whole: false,
                ..push
            })
        }
        _ => push,
    }
}

/// A push once a page is known to be blank: none where it is of that page.
fn dropped(push: Option<Pushing>, file: u32, page: u32) -> Option<Pushing>
    ensures { result ≡ push_dropped file page push }
{
    match push {
        Some(push) if push.file == file && push.page == page => None,
        _ => push,
    }
}

impl DiskMarks {
    /// The marks of disks with so many blocks, by number, and of so many seats: nothing is known, and no push is out. The only
    /// error is want of memory. The time grows with the blocks.
    pub fn new(alloc: Global, blocks: &[u32], seats: u32) -> Result<DiskMarks, AllocError>
        ensures { IfOk result (λ marks. marks ≡ record {
          rows = map (λ count. replicate count unused_row) blocks.now;
          pushes = replicate seats None;
        }) }
    {
        Ok(DiskMarks {
            rows: unused_rows(alloc, blocks)?,
            pushes: vec![in alloc; None; seats as usize]?,
        })
    }

    /// The row of a block; that of an unused one where there is no such block. Constant time.
    pub fn row(&self, disk: u32, block: u32) -> MarkRow
        ensures { result ≡ mark_row self.now disk block }
    {
        if disk as usize >= self.rows.len() {
            return MarkRow::UNUSED;
        }
        let rows = &self.rows[disk as usize];
        if block as usize >= rows.len() {
            return MarkRow::UNUSED;
        }
        rows[block as usize].seen()
    }

    /// The push that a seat has out. Constant time.
    pub fn push(&self, seat: u32) -> Option<Pushing>
        ensures { result ≡ push_of self.now seat }
    {
        *self.pushes.get(seat as usize)?
    }

    /// Whether the block of a disk has a row. Constant time.
    pub fn has_row(&self, disk: u32, block: u32) -> bool
        ensures { IsTrue result ↔ HasRow self.now disk block }
    {
        if disk as usize >= self.rows.len() {
            return false;
        }
        let rows = &self.rows[disk as usize];
        (block as usize) < rows.len()
    }

    /// How many seats there are. Constant time.
    pub fn seats(&self) -> usize
        ensures { result ≡ length self.now.pushes }
    {
        self.pushes.len()
    }

    /// A push of a file's page begins, after so many entries. Constant time.
    pub fn begin(&mut self, seat: u32, file: u32, page: u32, from: u32)
        ensures { self.new ≡ marks_begun self.old seat file page from }
    {
        let push = Pushing {
            file,
            page,
            from,
            whole: true,
        };
        self.keep(seat, Some(push));
    }

    /// The push of a seat to a block ends, and went well. Where its page was taken away meanwhile, the block's row stays.
    /// Constant time.
    pub fn end(&mut self, seat: u32, disk: u32, block: u32)
        ensures { self.new ≡ marks_written self.old seat disk block }
    {
        if let Some(push) = self.push(seat) {
            self.set(disk, block, Row::held(push.from, push.whole));
        }
        self.keep(seat, None);
    }

    /// The push of a seat to a block ends, and failed: after so many entries, with the disk's counts of faults before it and
    /// now. Constant time.
    pub fn fail(&mut self, seat: u32, disk: u32, block: u32, entries: u32, before: u64, after: u64)
        ensures { self.new ≡ marks_spoiled self.old seat disk block entries before after }
    {
        self.set(disk, block, Row::unsure(entries, before, after));
        self.keep(seat, None);
    }

    /// The mark of a page rises that isn't modified, and isn't blank: after so many entries its block has it. Constant time.
    pub fn raise(&mut self, disk: u32, block: u32, entries: u32)
        ensures { self.new ≡ marks_raised self.old disk block entries }
    {
        let pushed = self.row(disk, block).pushed;
        self.set(disk, block, Row::held(entries, pushed));
    }

    /// The mark of a blank page rises: after so many entries it is zeros, whatever its block has; and a push of it is none any
    /// more. Time: the seats.
    pub fn raise_blank(&mut self, disk: u32, block: u32, file: u32, page: u32, entries: u32)
        ensures { self.new ≡ marks_emptied self.old disk block file page entries }
    {
        self.take_away(disk, block, entries);
        self.drop_pushes(file, page);
    }

    /// The page of a block is taken away from its file, with the entry that makes it so many. Constant time.
    pub fn take_away(&mut self, disk: u32, block: u32, entries: u32)
        ensures { self.new ≡ marks_taken self.old disk block entries }
    {
        self.set(disk, block, Row::blank(entries, false));
    }

    /// The file of a block was made shorter: that zeros stand past its end isn't known any more. Constant time.
    pub fn forget_zeros(&mut self, disk: u32, block: u32)
        ensures { self.new ≡ marks_unpushed self.old disk block }
    {
        if self.has_row(disk, block) {
            let row = self.rows[disk as usize][block as usize].without_zeros();
            self.set(disk, block, row);
        }
    }

    /// A file was made shorter, and keeps so many pages: a push of another of its pages is none any more, and those of its pages
    /// that are out began before the cut. Time: the seats.
    pub fn cut_pushes(&mut self, file: u32, pages: u32)
        ensures { self.new ≡ pushes_cut self.old file pages }
    {
        for push in self.pushes.iter_mut() {
            *push = cut(*push, file, pages);
        }
    }

    // Each push of the page is none any more.
    fn drop_pushes(&mut self, file: u32, page: u32)
        ensures { self.new ≡ pushes_dropped self.old file page }
    {
        for push in self.pushes.iter_mut() {
            *push = dropped(*push, file, page);
        }
    }

    // The row of a block becomes this; nothing changes where there is no such block.
    fn set(&mut self, disk: u32, block: u32, row: Row)
        ensures { self.new ≡ with_mark_row self.old disk block row }
    {
        if self.has_row(disk, block) {
            self.rows[disk as usize][block as usize] = row;
        }
    }

    // The push of a seat becomes this, or none; nothing changes where there is no such seat.
    fn keep(&mut self, seat: u32, push: Option<Pushing>)
        ensures { self.new ≡ with_push self.old seat push }
    {
        if (seat as usize) < self.pushes.len() {
            self.pushes[seat as usize] = push;
        }
    }
}
