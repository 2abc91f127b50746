//! A block's row as it is kept.
ghost use Rattle.std.specs.Prelude.{◌≡◌, false};
ghost use Rattle.disk_marks.specs.declared.marks.Mark.TheVariants.{Held, Blank, Unsure};

use crate::marks::{Mark, MarkRow};
use std::marker::Model;
use std::mem::size_of;

/// Which mark a row has.
#[derive(Clone, Copy)]
enum Kind {
    Held,
    Blank,
    Unsure,
}

/// A row in 24 bytes. It is seen as the row that it stands for; the counts are 0 where the mark names none.
#[derive(Clone, Copy)]
pub struct Row {
    before: u64,
    after: u64,
    entries: u32,
    kind: Kind,
    pushed: bool,
}

const _: () = prove!(size_of::<Row>() == 24);

impl Model for Row {
    ghost use Rattle.disk_marks.specs.declared.marks.MarkRow.{MarkRow};

    ghost Value = { MarkRow };

    ghost use Rattle.disk_marks.specs.KeptRow.{row_of, HasCounts, row_fields, row_fields-row_of};

    ghost view = { row_of };

    ghost invariant = { λ r. HasCounts r.kind r.before r.after };

    ghost inverse = { row_fields };

    ghost inverse_ok = { row_fields-row_of };
}

impl Row {
    /// The block has its page as it was after so many entries.
    pub fn held(entries: u32, pushed: bool) -> Row
        ensures { result ≡ record { mark = Held entries; pushed = pushed } }
    {
        Row {
            before: 0,
            after: 0,
            entries,
            kind: Kind::Held,
            pushed,
        }
    }

    /// The page was zeros after so many entries.
    pub fn blank(entries: u32, pushed: bool) -> Row
        ensures { result ≡ record { mark = Blank entries; pushed = pushed } }
    {
        Row {
            before: 0,
            after: 0,
            entries,
            kind: Kind::Blank,
            pushed,
        }
    }

    /// A write of the block failed, with these counts.
    pub fn unsure(entries: u32, before: u64, after: u64) -> Row
        ensures { result ≡ record { mark = Unsure entries before after; pushed = false } }
    {
        Row {
            before,
            after,
            entries,
            kind: Kind::Unsure,
            pushed: false,
        }
    }

    /// The row, of which it isn't known that zeros stand past the file's end.
    pub fn without_zeros(&self) -> Row
        ensures { result ≡ record self.now { pushed = false } }
    {
        Row {
            pushed: false,
            ..*self
        }
    }

    /// The row that it stands for.
    pub fn seen(&self) -> MarkRow
        ensures { result ≡ self.now }
    {
        let entries = self.entries as u64;
        let mark = match self.kind {
            Kind::Held => Mark::Held(entries),
            Kind::Blank => Mark::Blank(entries),
            Kind::Unsure => Mark::Unsure {
                entries,
                before: self.before,
                after: self.after,
            },
        };
        MarkRow {
            mark,
            pushed: self.pushed,
        }
    }
}
