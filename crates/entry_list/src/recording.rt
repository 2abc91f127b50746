//! A list of entries while it grows within room that was taken at once.
ghost use Rattle.std.specs.Prelude.{◌≡◌, ◌<◌, ◌≤◌, ◌^◌, ◌++◌, ◌∷◌, [], length, vec_len, vec_capacity, IfOk};
ghost use Rattle.entry_list.specs.vm_types.declared.call.Call.TheVariants.{Load, Store};
ghost use Rattle.entry_list.specs.vm_types.declared.call.Reply.TheVariants as reply;
ghost use Rattle.entry_list.specs.Rows.{part_entry};

use crate::entries::Entries;
use crate::row::{ReadPart, Row, short_row};
use std::alloc::{AllocError, Global};
use std::marker::Model;
use vm_types::{Call, Entry, Reply};

/// A list of entries to which more are added, within room that was taken at once: what of it isn't written to yet takes no page of the host.
///
/// It is seen as the entries, and how many there is room for.
#[derive(Drop)]
pub struct Recording {
    rows: Vec<Row>,
    whole: Vec<Entry>,
    reads: Vec<ReadPart>,
    room: usize,
}

impl Model for Recording {
    ghost use Rattle.std.specs.Prelude.{vec_capacity};
    ghost use Rattle.entry_list.specs.Recorded.{RecordingSeen, IsSoundRecording};
    ghost use Rattle.entry_list.specs.Rows.{row_entries};

    ghost Value = { RecordingSeen };

    ghost view = { λ r. record { entries = row_entries r.whole.items r.reads.items r.rows.items; room = r.room } };

    ghost invariant = { λ r. IsSoundRecording r.rows.items r.whole.items r.reads.items r.room (vec_capacity r.rows) (vec_capacity r.whole) (vec_capacity r.reads) };
}

impl Recording {
    /// No entry yet, and room for so many. The only error is want of memory.
    pub fn with_room(alloc: Global, room: u32) -> Result<Recording, AllocError>
        ensures entries { IfOk result (λ recording. recording.entries ≡ []) }
        ensures room { IfOk result (λ recording. recording.room ≡ room) }
    {
        let room = room as usize;
        Ok(Recording {
            rows: Vec::with_capacity(alloc, room)?,
            whole: Vec::with_capacity(alloc, room)?,
            reads: Vec::with_capacity(alloc, room)?,
            room,
        })
    }

    /// How many entries there are.
    #[inline(always)]
    pub fn len(&self) -> usize
        ensures { result ≡ length self.now.entries }
    {
        self.rows.len()
    }

    /// Adds an entry where there is room for it. Takes no memory.
    #[inline(always)]
    pub fn push(&mut self, process: u32, call: &Call, reply: &Reply, cleared: u64)
        requires { length self.old.entries < self.old.room }
        ensures entries { self.new.entries ≡ self.old.entries ++ record {
          process = process;
          call = call.now;
          reply = reply.now;
          cleared = cleared;
        } ∷ [] }
        ensures room { self.new.room ≡ self.old.room }
    {
        match short_row(process, call, reply, cleared) {
            Some(row) => self.rows.push_reserved(row),
            None => self.push_long(process, call, reply, cleared),
        }
    }

    /// The same of the entry of a load that gave a word.
    #[inline(always)]
    pub fn push_load(&mut self, process: u32, addr: u32, size: u32, word: u32, cleared: u64)
        requires { length self.old.entries < self.old.room }
        ensures entries { self.new.entries ≡ self.old.entries ++ record {
          process = process;
          call = Load addr size;
          reply = reply.Word word;
          cleared = cleared;
        } ∷ [] }
        ensures room { self.new.room ≡ self.old.room }
    {
        if cleared == 0 {
            self.rows.push_reserved(Row::Load {
                process,
                addr,
                size,
                word,
            });
        } else {
            self.push_whole(
                process,
                &Call::Load { addr, size },
                &Reply::Word(word),
                cleared,
            );
        }
    }

    /// The same of the entry of a store that was done.
    #[inline(always)]
    pub fn push_store(&mut self, process: u32, addr: u32, size: u32, value: u32, cleared: u64)
        requires { length self.old.entries < self.old.room }
        ensures entries { self.new.entries ≡ self.old.entries ++ record {
          process = process;
          call = Store addr size value;
          reply = reply.Done;
          cleared = cleared;
        } ∷ [] }
        ensures room { self.new.room ≡ self.old.room }
    {
        if cleared == 0 {
            self.rows.push_reserved(Row::Store {
                process,
                addr,
                size,
                value,
            });
        } else {
            self.push_whole(
                process,
                &Call::Store { addr, size, value },
                &Reply::Done,
                cleared,
            );
        }
    }

    // The same of any entry, of which more than a row is kept. Not inline, so that a hit's code has no room for copies.
    #[inline(never)]
    fn push_long(&mut self, process: u32, call: &Call, reply: &Reply, cleared: u64)
        requires { length self.old.entries < self.old.room }
        ensures entries { self.new.entries ≡ self.old.entries ++ record {
          process = process;
          call = call.now;
          reply = reply.now;
          cleared = cleared;
        } ∷ [] }
        ensures room { self.new.room ≡ self.old.room }
    {
        match (call, reply) {
            (
                &Call::Read {
                    file,
                    offset,
                    length,
                },
                &Reply::Bytes(bytes),
            ) if cleared == 0 => self.push_read(
                process,
                ReadPart {
                    file,
                    offset,
                    length,
                    bytes,
                },
            ),
            _ => self.push_whole(process, call, reply, cleared),
        }
    }

    // The same of the entry of a part of a read.
    #[inline(always)]
    fn push_read(&mut self, process: u32, part: ReadPart)
        requires { length self.old.entries < self.old.room }
        ensures entries { self.new.entries ≡ self.old.entries ++ part_entry process part ∷ [] }
        ensures room { self.new.room ≡ self.old.room }
    {
        let place = self.reads.len() as u32;
        self.reads.push_reserved(part);
        self.rows.push_reserved(Row::Read { process, place });
    }

    // The same of any entry, which is kept whole.
    #[inline(never)]
    fn push_whole(&mut self, process: u32, call: &Call, reply: &Reply, cleared: u64)
        requires { length self.old.entries < self.old.room }
        ensures entries { self.new.entries ≡ self.old.entries ++ record {
          process = process;
          call = call.now;
          reply = reply.now;
          cleared = cleared;
        } ∷ [] }
        ensures room { self.new.room ≡ self.old.room }
    {
        let place = self.whole.len() as u32;
        self.whole.push_reserved(Entry {
            process,
            call: *call,
            reply: *reply,
            cleared,
        });
        self.rows.push_reserved(Row::Whole(place));
    }

    /// The list of the entries.
    pub fn into_entries(self) -> Entries
        ensures { result ≡ self.entries }
    {
        Entries::of(self.rows, self.whole, self.reads)
    }
}
