//! One entry of a list: a row of a few numbers, which may have a part of a read beside it, or an entry that is kept whole.
ghost use Rattle.std.specs.Prelude.{◌≡◌, ℕ, List, IfSome};
ghost use Rattle.entry_list.specs.Rows.{entry_seen, row_entry, IsRowWithin};
ghost use Rattle.entry_list.specs.declared.row.ReadPart.{ReadPart as ReadPartSeen};
ghost use Rattle.entry_list.specs.vm_types.declared.call.Entry.{Entry as EntrySeen};

use vm_types::{Call, Entry, Line, Reply};

/// How a list keeps an entry.
#[derive(Clone, Copy)]
pub enum Row {
    /// A load that gave a word, and for which no tail became zeros.
    Load {
        process: u32,
        addr: u32,
        size: u32,
        word: u32,
    },
    /// A store that was done, and for which no tail became zeros.
    Store {
        process: u32,
        addr: u32,
        size: u32,
        value: u32,
    },
    /// A part of a read that got bytes, and for which no tail became zeros: the one at this place among those that are kept.
    Read {
        process: u32,
        place: u32,
    },
    /// The entry at this place among those that are kept whole.
    Whole(u32),
}

/// A part of a read, and the bytes that it got.
#[derive(Clone, Copy)]
pub struct ReadPart {
    pub file: u32,
    pub offset: u32,
    pub length: u32,
    pub bytes: Line,
}

/// The row of an entry for which nothing is kept beside it.
#[inline(always)]
pub fn short_row(process: u32, call: &Call, reply: &Reply, cleared: u64) -> Option<Row>
    ensures entry { IfSome result (λ row. (whole : List EntrySeen) (reads : List ReadPartSeen)
        → row_entry whole reads row ≡ record {
          process = process;
          call = call.now;
          reply = reply.now;
          cleared = cleared;
        }) }
    ensures within { IfSome result (λ row. (whole reads : ℕ) → IsRowWithin whole reads row) }
{
    if cleared != 0 {
        return None;
    }
    match (call, reply) {
        (&Call::Load { addr, size }, &Reply::Word(word)) => Some(Row::Load {
            process,
            addr,
            size,
            word,
        }),
        (&Call::Store { addr, size, value }, Reply::Done) => Some(Row::Store {
            process,
            addr,
            size,
            value,
        }),
        _ => None,
    }
}

/// An entry of a list, as it is read there.
#[derive(Clone, Copy)]
pub enum EntryAt<'a> {
    /// A load that gave a word, and for which no tail became zeros.
    Load {
        process: u32,
        addr: u32,
        size: u32,
        word: u32,
    },
    /// A store that was done, and for which no tail became zeros.
    Store {
        process: u32,
        addr: u32,
        size: u32,
        value: u32,
    },
    /// A part of a read that got bytes, and for which no tail became zeros.
    Read {
        process: u32,
        file: u32,
        offset: u32,
        length: u32,
        bytes: &'a Line,
    },
    /// An entry that is kept whole. It may be any.
    Whole(&'a Entry),
}

impl<'a> EntryAt<'a> {
    /// Whose entry it is.
    #[inline(always)]
    pub fn process(self) -> u32
        ensures { result ≡ (entry_seen self.entry).process }
    {
        match self {
            EntryAt::Load { process, .. }
            | EntryAt::Store { process, .. }
            | EntryAt::Read { process, .. } => process,
            EntryAt::Whole(entry) => entry.process,
        }
    }

    /// The entry itself, a copy.
    pub fn entry(self) -> Entry
        ensures { result ≡ entry_seen self.entry }
    {
        match self {
            EntryAt::Load {
                process,
                addr,
                size,
                word,
            } => Entry {
                process,
                call: Call::Load { addr, size },
                reply: Reply::Word(word),
                cleared: 0,
            },
            EntryAt::Store {
                process,
                addr,
                size,
                value,
            } => Entry {
                process,
                call: Call::Store { addr, size, value },
                reply: Reply::Done,
                cleared: 0,
            },
            EntryAt::Read {
                process,
                file,
                offset,
                length,
                bytes,
            } => Entry {
                process,
                call: Call::Read {
                    file,
                    offset,
                    length,
                },
                reply: Reply::Bytes(*bytes),
                cleared: 0,
            },
            EntryAt::Whole(entry) => *entry,
        }
    }
}
