//! The locks, the keeps and the bits of three frames: acts on their rows, and what is told of each.
ghost use Rattle.std.specs.Prelude.{◌≡◌, length};

use page_lock::{PageLocks, Row};
use std::alloc::Global;
use std::test::Fail;

/// The rows of three frames.
#[derive(Drop)]
struct Rows {
    locks: PageLocks,
    ghost three: { length locks ≡ 3 },
}

#[derive(Clone, Copy)]
enum Act {
    /// Locks a frame that nobody holds, for a seat.
    Lock(u32, u32),
    Unlock(u32),
    /// Gives up the page of a frame that is held.
    Abort(u32),
    Keep(u32),
    Unkeep(u32),
    SetRow(u32, Row),
    /// Notes whether a frame's page was used, and whether it was modified.
    SetBits(u32, bool, bool),
    /// Notes whether a frame's page was used, and nothing else.
    SetUsed(u32, bool),
    /// Adds what translations told of a frame's page: that it was used, and stored into.
    AddBits(u32, bool, bool),
    Clear(u32),
    /// Looks at a frame's row.
    Row(u32),
    /// Who holds a frame.
    Holder(u32),
    /// Whether somebody keeps a frame.
    Kept(u32),
    /// Both bits of a frame.
    Bits(u32),
}

#[derive(Clone, Copy, PartialEq)]
enum Told {
    Yes,
    /// The call's condition doesn't hold.
    No,
    /// Whether the page was given up while its lock was held.
    Gone(bool),
    Row(Row),
    Holder(Option<u32>),
    Kept(bool),
    Bits(bool, bool),
}

impl Rows {
    fn lock(&mut self, frame: u32, seat: u32) -> Told {
        if frame >= 3 || self.locks.holder(frame).is_some() {
            return Told::No;
        }
        self.locks.lock(frame, seat);
        Told::Yes
    }

    fn unlock(&mut self, frame: u32) -> Told {
        if frame >= 3 || self.locks.holder(frame).is_none() {
            return Told::No;
        }
        Told::Gone(self.locks.unlock(frame))
    }

    fn abort(&mut self, frame: u32) -> Told {
        if frame >= 3 || self.locks.holder(frame).is_none() {
            return Told::No;
        }
        self.locks.abort(frame);
        Told::Yes
    }

    fn keep(&mut self, frame: u32) -> Told {
        if frame >= 3 || self.locks.row(frame).keeps == u32::MAX {
            return Told::No;
        }
        self.locks.keep(frame);
        Told::Yes
    }

    fn unkeep(&mut self, frame: u32) -> Told {
        if frame >= 3 || !self.locks.kept(frame) {
            return Told::No;
        }
        self.locks.unkeep(frame);
        Told::Yes
    }

    fn set(&mut self, frame: u32, row: Row) -> Told {
        if frame >= 3 {
            return Told::No;
        }
        self.locks.set_row(frame, row);
        Told::Yes
    }

    fn set_bits(&mut self, frame: u32, referenced: bool, modified: bool) -> Told {
        if frame >= 3 {
            return Told::No;
        }
        self.locks.set_bits(frame, referenced, modified);
        Told::Yes
    }

    fn set_used(&mut self, frame: u32, referenced: bool) -> Told {
        if frame >= 3 {
            return Told::No;
        }
        self.locks.set_used(frame, referenced);
        Told::Yes
    }

    fn add_bits(&mut self, frame: u32, referenced: bool, modified: bool) -> Told {
        if frame >= 3 {
            return Told::No;
        }
        self.locks.add_bits(frame, referenced, modified);
        Told::Yes
    }

    fn clear(&mut self, frame: u32) -> Told {
        if frame >= 3 {
            return Told::No;
        }
        self.locks.clear(frame);
        Told::Yes
    }

    fn row(&self, frame: u32) -> Told {
        if frame >= 3 {
            return Told::No;
        }
        Told::Row(self.locks.row(frame))
    }

    fn holder(&self, frame: u32) -> Told {
        if frame >= 3 {
            return Told::No;
        }
        Told::Holder(self.locks.holder(frame))
    }

    fn kept(&self, frame: u32) -> Told {
        if frame >= 3 {
            return Told::No;
        }
        Told::Kept(self.locks.kept(frame))
    }

    fn bits(&self, frame: u32) -> Told {
        if frame >= 3 {
            return Told::No;
        }
        let (referenced, modified) = self.locks.bits(frame);
        Told::Bits(referenced, modified)
    }

    fn make(&mut self, act: Act) -> Told {
        match act {
            Act::Lock(frame, seat) => self.lock(frame, seat),
            Act::Unlock(frame) => self.unlock(frame),
            Act::Abort(frame) => self.abort(frame),
            Act::Keep(frame) => self.keep(frame),
            Act::Unkeep(frame) => self.unkeep(frame),
            Act::SetRow(frame, row) => self.set(frame, row),
            Act::SetBits(frame, referenced, modified) => self.set_bits(frame, referenced, modified),
            Act::SetUsed(frame, referenced) => self.set_used(frame, referenced),
            Act::AddBits(frame, referenced, modified) => self.add_bits(frame, referenced, modified),
            Act::Clear(frame) => self.clear(frame),
            Act::Row(frame) => self.row(frame),
            Act::Holder(frame) => self.holder(frame),
            Act::Kept(frame) => self.kept(frame),
            Act::Bits(frame) => self.bits(frame),
        }
    }
}

/// Makes the acts. It fails at the first of which something else is told.
fn make_all(rows: &mut Rows, acts: &[(Act, Told)]) -> Result<(), Fail> {
    for (place, &(act, told)) in acts.iter().enumerate() {
        let made = rows.make(act);
        if made != told {
            return Err(Fail::new(format_args!("act {place} is told something else")));
        }
    }
    Ok(())
}

fn make_in_new_rows(alloc: Global, acts: &[(Act, Told)]) -> Result<(), Fail> {
    let mut rows = Rows {
        locks: PageLocks::new(alloc, 3)?,
    };
    make_all(&mut rows, acts)
}

const HELD: Row = Row {
    holder: Some(7),
    ..Row::CLEAR
};

const GIVEN_UP: Row = Row {
    holder: Some(3),
    gone: true,
    ..Row::CLEAR
};

#[test]
fn a_lock_is_given_and_taken_back(rt: HostRuntime) -> Result<(), Fail> {
    make_in_new_rows(
        rt.alloc(),
        &[
            (Act::Holder(1), Told::Holder(None)),
            (Act::Unlock(1), Told::No),
            (Act::Lock(1, 7), Told::Yes),
            (Act::Lock(1, 8), Told::No),
            (Act::Holder(1), Told::Holder(Some(7))),
            (Act::Row(1), Told::Row(HELD)),
            (Act::Row(2), Told::Row(Row::CLEAR)),
            (Act::SetRow(2, HELD), Told::Yes),
            (Act::Row(2), Told::Row(HELD)),
            (Act::Unlock(1), Told::Gone(false)),
            (Act::Row(1), Told::Row(Row::CLEAR)),
        ],
    )
}

#[test]
fn whoever_unlocks_a_page_that_was_given_up_is_told_once(rt: HostRuntime) -> Result<(), Fail> {
    make_in_new_rows(
        rt.alloc(),
        &[
            (Act::Lock(0, 3), Told::Yes),
            (Act::Abort(0), Told::Yes),
            (Act::Row(0), Told::Row(GIVEN_UP)),
            (Act::Unlock(0), Told::Gone(true)),
            (Act::Holder(0), Told::Holder(None)),
            (Act::Lock(0, 4), Told::Yes),
            (Act::Unlock(0), Told::Gone(false)),
        ],
    )
}

#[test]
fn keeps_are_counted(rt: HostRuntime) -> Result<(), Fail> {
    make_in_new_rows(
        rt.alloc(),
        &[
            (Act::Kept(0), Told::Kept(false)),
            (Act::Unkeep(0), Told::No),
            (Act::Keep(0), Told::Yes),
            (Act::Keep(0), Told::Yes),
            (Act::Unkeep(0), Told::Yes),
            (Act::Kept(0), Told::Kept(true)),
            (Act::Kept(1), Told::Kept(false)),
            (Act::Unkeep(0), Told::Yes),
            (Act::Kept(0), Told::Kept(false)),
        ],
    )
}

#[test]
fn both_bits_are_set_and_cleared(rt: HostRuntime) -> Result<(), Fail> {
    make_in_new_rows(
        rt.alloc(),
        &[
            (Act::SetBits(0, true, false), Told::Yes),
            (Act::Bits(0), Told::Bits(true, false)),
            (Act::Clear(0), Told::Yes),
            (Act::Row(0), Told::Row(Row::CLEAR)),
            (Act::SetBits(0, false, true), Told::Yes),
            (Act::Bits(0), Told::Bits(false, true)),
            (Act::Clear(0), Told::Yes),
            (Act::Row(0), Told::Row(Row::CLEAR)),
            (Act::SetBits(0, true, true), Told::Yes),
            (Act::Bits(0), Told::Bits(true, true)),
            (Act::Bits(1), Told::Bits(false, false)),
            (Act::Clear(0), Told::Yes),
            (Act::Row(0), Told::Row(Row::CLEAR)),
            (Act::SetBits(0, false, false), Told::Yes),
            (Act::Bits(0), Told::Bits(false, false)),
            (Act::Clear(0), Told::Yes),
            (Act::Row(0), Told::Row(Row::CLEAR)),
        ],
    )
}

/// The row of a page whose snapshot is on its way.
const SENT: Row = Row {
    modified: true,
    ..Row::CLEAR
};

const USED: Row = Row {
    referenced: true,
    ..SENT
};

const REWRITTEN: Row = Row {
    rewritten: true,
    ..SENT
};

#[test]
fn a_page_that_was_sent_counts_as_rewritten_where_a_store_is_told(
    rt: HostRuntime,
) -> Result<(), Fail> {
    make_in_new_rows(
        rt.alloc(),
        &[
            (Act::SetRow(0, SENT), Told::Yes),
            (Act::AddBits(0, true, false), Told::Yes),
            (Act::Row(0), Told::Row(USED)),
            (Act::SetUsed(0, false), Told::Yes),
            (Act::Row(0), Told::Row(SENT)),
            (Act::SetUsed(0, true), Told::Yes),
            (Act::Row(0), Told::Row(USED)),
            (Act::SetUsed(0, false), Told::Yes),
            (Act::AddBits(0, false, false), Told::Yes),
            (Act::Row(0), Told::Row(SENT)),
            (Act::AddBits(0, false, true), Told::Yes),
            (Act::Row(0), Told::Row(REWRITTEN)),
            (Act::Row(1), Told::Row(Row::CLEAR)),
        ],
    )
}
