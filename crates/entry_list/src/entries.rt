//! A list of entries.
ghost use Rattle.std.specs.Prelude.{◌≡◌, ◌<◌, ◌≤◌, ◌+◌, ◌==◌, ◌++◌, ◌∷◌, [], Some, length, take, drop, slice_get, IfOk, OnOk};
ghost use Rattle.entry_list.specs.Rows.{entry_seen, part_entry, row_entries, AreRowsWithin};

use crate::row::{EntryAt, ReadPart, Row, short_row};
use crate::slice::EntrySlice;
use std::alloc::{AllocError, Global};
use std::marker::Model;
use vm_types::{Call, Entry, Reply};

/// A list of entries. A load that gave a word and a store that was done take 20 bytes, and a part of a read that got bytes takes 100, where no tail
/// became zeros for them; every other entry takes 20 bytes more than itself.
///
/// It is seen as the list.
#[derive(Drop)]
pub struct Entries {
    rows: Vec<Row>,
    whole: Vec<Entry>,
    reads: Vec<ReadPart>,
}

impl Model for Entries {
    ghost use Rattle.std.specs.Prelude.{List, length};
    ghost use Rattle.entry_list.specs.vm_types.declared.call.Entry.{Entry as EntrySeen};
    ghost use Rattle.entry_list.specs.Rows.{row_entries, AreRowsWithin};

    ghost Value = { List EntrySeen };

    ghost view = { λ l. row_entries l.whole.items l.reads.items l.rows.items };

    ghost invariant = { λ l. AreRowsWithin (length l.whole.items) (length l.reads.items) l.rows.items };
}

impl Entries {
    /// No entry. It takes no memory.
    pub fn new(alloc: Global) -> Entries
        ensures { result ≡ [] }
    {
        Entries {
            rows: Vec::new(alloc),
            whole: Vec::new(alloc),
            reads: Vec::new(alloc),
        }
    }

    // The list of these rows.
    pub(crate) fn of(rows: Vec<Row>, whole: Vec<Entry>, reads: Vec<ReadPart>) -> Entries
        requires { AreRowsWithin (length whole.items) (length reads.items) rows.items }
        ensures { result ≡ row_entries whole.items reads.items rows.items }
    {
        Entries { rows, whole, reads }
    }

    /// How many entries there are.
    #[inline(always)]
    pub fn len(&self) -> usize
        ensures { result ≡ length self.now }
    {
        self.rows.len()
    }

    pub fn is_empty(&self) -> bool
        ensures { result ≡ (length self.now == 0) }
    {
        self.rows.len() == 0
    }

    /// The entry at a place.
    #[inline(always)]
    pub fn at(&self, place: usize) -> EntryAt<'_>
        requires { place < length self.now }
        ensures { slice_get self.now place ≡ Some (entry_seen result) }
    {
        match self.rows[place] {
            Row::Load {
                process,
                addr,
                size,
                word,
            } => EntryAt::Load {
                process,
                addr,
                size,
                word,
            },
            Row::Store {
                process,
                addr,
                size,
                value,
            } => EntryAt::Store {
                process,
                addr,
                size,
                value,
            },
            Row::Read { process, place } => {
                let part = &self.reads[place as usize];
                EntryAt::Read {
                    process,
                    file: part.file,
                    offset: part.offset,
                    length: part.length,
                    bytes: &part.bytes,
                }
            }
            Row::Whole(whole) => EntryAt::Whole(&self.whole[whole as usize]),
        }
    }

    /// All entries.
    #[inline(always)]
    pub fn all(&self) -> EntrySlice<'_>
        ensures { result ≡ self.now }
    {
        EntrySlice::of(self, 0, self.rows.len())
    }

    /// So many entries from a place on.
    #[inline(always)]
    pub fn slice(&self, first: usize, count: usize) -> EntrySlice<'_>
        requires { first + count ≤ length self.now }
        ensures { result ≡ take count (drop first self.now) }
    {
        let _len = self.rows.len();
        EntrySlice::of(self, first, count)
    }

    /// Adds an entry. The only error is want of memory, or of numbers for 2^32 entries that are kept whole, or for as many parts of reads.
    pub fn push(&mut self, entry: &Entry) -> Result<(), AllocError>
        ensures { OnOk result (self.new ≡ self.old ++ entry.now ∷ []) }
    {
        if let Some(row) = short_row(entry.process, &entry.call, &entry.reply, entry.cleared) {
            self.rows.push(row)?;
            return Ok(());
        }
        match (&entry.call, &entry.reply) {
            (
                &Call::Read {
                    file,
                    offset,
                    length,
                },
                &Reply::Bytes(bytes),
            ) if entry.cleared == 0 => self.push_read(
                entry.process,
                ReadPart {
                    file,
                    offset,
                    length,
                    bytes,
                },
            ),
            _ => self.push_whole(entry),
        }
    }

    // Adds the entry of a part of a read.
    fn push_read(&mut self, process: u32, part: ReadPart) -> Result<(), AllocError>
        ensures { OnOk result (self.new ≡ self.old ++ part_entry process part ∷ []) }
    {
        let place = self.reads.len();
        if place > u32::MAX as usize {
            return Err(AllocError);
        }
        self.reads.push(part)?;
        self.rows.push(Row::Read {
            process,
            place: place as u32,
        })?;
        Ok(())
    }

    // Adds an entry, and keeps it whole.
    fn push_whole(&mut self, entry: &Entry) -> Result<(), AllocError>
        ensures { OnOk result (self.new ≡ self.old ++ entry.now ∷ []) }
    {
        let place = self.whole.len();
        if place > u32::MAX as usize {
            return Err(AllocError);
        }
        // It is taken apart and made again: no proof is found of a call that moves an entry and names no call and no reply.
        let Entry {
            process,
            call,
            reply,
            cleared,
        } = *entry;
        self.whole.push(Entry {
            process,
            call,
            reply,
            cleared,
        })?;
        self.rows.push(Row::Whole(place as u32))?;
        Ok(())
    }

    /// A list of these entries. The errors are those of `push`.
    pub fn from_slice(alloc: Global, from: &[Entry]) -> Result<Entries, AllocError>
        ensures { IfOk result (λ entries. entries ≡ from.now) }
    {
        let mut entries = Entries::new(alloc);
        for entry in from {
            entries.push(entry)?;
        }
        Ok(entries)
    }

    /// Adds the entries to a vector, one behind another.
    pub fn push_to(&self, to: &mut Vec<Entry>) -> Result<(), AllocError>
        ensures { OnOk result (to.new.items ≡ to.old.items ++ self.now) }
    {
        // Each is taken apart and made again: a loop that carries entries gets no proof where it names no call and no reply.
        for place in 0..self.rows.len() {
            let Entry {
                process,
                call,
                reply,
                cleared,
            } = self.at(place).entry();
            to.push(Entry {
                process,
                call,
                reply,
                cleared,
            })?;
        }
        Ok(())
    }
}
