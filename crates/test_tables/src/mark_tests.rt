//! Marks of blocks as pushes begin and end, as marks rise, and as a file is cut: acts on the marks of two disks and two seats, and
//! what is told of each.
use disk_marks::{DiskMarks, Mark, MarkRow, Pushing};
use std::alloc::Global;
use std::test::Fail;

#[derive(Clone, Copy)]
enum Act {
    /// A push of a seat begins: of this page of a file, after so many entries.
    Begin(u32, u32, u32, u32),
    /// The push of a seat to a block ends well.
    End(u32, u32, u32),
    /// The push of a seat to a block fails, after so many entries, with the counts 4 and 5.
    Fail(u32, u32, u32, u32),
    /// The mark of a block's page, which isn't blank, rises after so many entries.
    Raise(u32, u32, u32),
    /// That of a blank page of a file does.
    RaiseBlank(u32, u32, u32, u32, u32),
    /// The page of a block is taken away, after so many entries.
    TakeAway(u32, u32, u32),
    /// The file of a block was made shorter.
    ForgetZeros(u32, u32),
    /// A file keeps so many pages.
    CutPushes(u32, u32),
    /// Looks at the row of a block.
    Row(u32, u32),
    /// Looks at the push of a seat.
    Push(u32),
}

#[derive(Clone, Copy, PartialEq, Eq)]
enum Told {
    Yes,
    /// The call's condition doesn't hold.
    No,
    Row(Mark, bool),
    Push(Option<Pushing>),
}

fn begin(marks: &mut DiskMarks, seat: u32, file: u32, page: u32, from: u32) -> Told {
    if seat as usize >= marks.seats() {
        return Told::No;
    }
    marks.begin(seat, file, page, from);
    Told::Yes
}

fn end(marks: &mut DiskMarks, seat: u32, disk: u32, block: u32) -> Told {
    if seat as usize >= marks.seats() || !marks.has_row(disk, block) {
        return Told::No;
    }
    marks.end(seat, disk, block);
    Told::Yes
}

fn fail(marks: &mut DiskMarks, seat: u32, disk: u32, block: u32, entries: u32) -> Told {
    if seat as usize >= marks.seats() || !marks.has_row(disk, block) {
        return Told::No;
    }
    marks.fail(seat, disk, block, entries, 4, 5);
    Told::Yes
}

fn raise(marks: &mut DiskMarks, disk: u32, block: u32, entries: u32) -> Told {
    if !marks.has_row(disk, block) {
        return Told::No;
    }
    marks.raise(disk, block, entries);
    Told::Yes
}

fn raise_blank(
    marks: &mut DiskMarks,
    disk: u32,
    block: u32,
    file: u32,
    page: u32,
    entries: u32,
) -> Told {
    if !marks.has_row(disk, block) {
        return Told::No;
    }
    marks.raise_blank(disk, block, file, page, entries);
    Told::Yes
}

fn take_away(marks: &mut DiskMarks, disk: u32, block: u32, entries: u32) -> Told {
    if !marks.has_row(disk, block) {
        return Told::No;
    }
    marks.take_away(disk, block, entries);
    Told::Yes
}

fn forget_zeros(marks: &mut DiskMarks, disk: u32, block: u32) -> Told {
    if !marks.has_row(disk, block) {
        return Told::No;
    }
    marks.forget_zeros(disk, block);
    Told::Yes
}

fn row(marks: &DiskMarks, disk: u32, block: u32) -> Told {
    let MarkRow { mark, pushed } = marks.row(disk, block);
    Told::Row(mark, pushed)
}

fn make(marks: &mut DiskMarks, act: Act) -> Told {
    match act {
        Act::Begin(seat, file, page, from) => begin(marks, seat, file, page, from),
        Act::End(seat, disk, block) => end(marks, seat, disk, block),
        Act::Fail(seat, disk, block, entries) => fail(marks, seat, disk, block, entries),
        Act::Raise(disk, block, entries) => raise(marks, disk, block, entries),
        Act::RaiseBlank(disk, block, file, page, entries) => {
            raise_blank(marks, disk, block, file, page, entries)
        }
        Act::TakeAway(disk, block, entries) => take_away(marks, disk, block, entries),
        Act::ForgetZeros(disk, block) => forget_zeros(marks, disk, block),
        Act::CutPushes(file, pages) => {
            marks.cut_pushes(file, pages);
            Told::Yes
        }
        Act::Row(disk, block) => row(marks, disk, block),
        Act::Push(seat) => Told::Push(marks.push(seat)),
    }
}

/// Makes the acts. It fails at the first of which something else is told.
fn make_all(marks: &mut DiskMarks, acts: &[(Act, Told)]) -> Result<(), Fail> {
    for (place, &(act, told)) in acts.iter().enumerate() {
        let made = make(marks, act);
        if made != told {
            return Err(Fail::new(format_args!("act {place} is told something else")));
        }
    }
    Ok(())
}

fn make_in_new_marks(alloc: Global, acts: &[(Act, Told)]) -> Result<(), Fail> {
    let mut marks = DiskMarks::new(alloc, &[3, 2], 2)?;
    make_all(&mut marks, acts)
}

const NO_PUSH: Told = Told::Push(None);

const fn pushing(file: u32, page: u32, from: u32, whole: bool) -> Told {
    Told::Push(Some(Pushing {
        file,
        page,
        from,
        whole,
    }))
}

const fn unsure(entries: u64) -> Told {
    let mark = Mark::Unsure {
        entries,
        before: 4,
        after: 5,
    };
    Told::Row(mark, false)
}

#[test]
fn a_push_leaves_the_mark_of_its_begin(rt: HostRuntime) -> Result<(), Fail> {
    make_in_new_marks(
        rt.alloc(),
        &[
            (Act::Row(0, 2), Told::Row(Mark::Blank(0), false)),
            (Act::Row(0, 3), Told::Row(Mark::Blank(0), false)),
            (Act::Row(2, 0), Told::Row(Mark::Blank(0), false)),
            (Act::Push(0), NO_PUSH),
            (Act::Push(2), NO_PUSH),
            // Both seats have a push out; the first ends well, the other fails.
            (Act::Begin(0, 7, 1, 10), Told::Yes),
            (Act::Begin(1, 8, 0, 12), Told::Yes),
            (Act::Begin(2, 8, 0, 12), Told::No),
            (Act::Push(0), pushing(7, 1, 10, true)),
            (Act::End(0, 0, 3), Told::No),
            (Act::End(0, 0, 2), Told::Yes),
            (Act::Row(0, 2), Told::Row(Mark::Held(10), true)),
            (Act::Push(0), NO_PUSH),
            (Act::Push(1), pushing(8, 0, 12, true)),
            (Act::Fail(1, 2, 0, 15), Told::No),
            (Act::Fail(1, 1, 1, 15), Told::Yes),
            (Act::Row(1, 1), unsure(15)),
            (Act::Row(1, 0), Told::Row(Mark::Blank(0), false)),
            (Act::Push(1), NO_PUSH),
            // A mark that rises keeps what is known of zeros past the end.
            (Act::Raise(0, 2, 20), Told::Yes),
            (Act::Row(0, 2), Told::Row(Mark::Held(20), true)),
            (Act::Raise(1, 2, 20), Told::No),
        ],
    )
}

#[test]
fn a_file_is_cut_while_its_pages_are_pushed(rt: HostRuntime) -> Result<(), Fail> {
    make_in_new_marks(
        rt.alloc(),
        &[
            (Act::Begin(0, 7, 1, 10), Told::Yes),
            (Act::End(0, 0, 1), Told::Yes),
            (Act::Begin(0, 7, 0, 30), Told::Yes),
            (Act::Begin(1, 7, 1, 31), Told::Yes),
            // Another file's cut changes neither push; the file's own drops that of the page that goes.
            (Act::CutPushes(8, 0), Told::Yes),
            (Act::Push(0), pushing(7, 0, 30, true)),
            (Act::Push(1), pushing(7, 1, 31, true)),
            (Act::CutPushes(7, 1), Told::Yes),
            (Act::TakeAway(0, 1, 33), Told::Yes),
            (Act::ForgetZeros(0, 0), Told::Yes),
            (Act::Push(0), pushing(7, 0, 30, false)),
            (Act::Push(1), NO_PUSH),
            (Act::Row(0, 1), Told::Row(Mark::Blank(33), false)),
            // The push of the page that went leaves the row as it is; the other doesn't vouch for zeros past the end.
            (Act::End(1, 0, 1), Told::Yes),
            (Act::Row(0, 1), Told::Row(Mark::Blank(33), false)),
            (Act::End(0, 0, 0), Told::Yes),
            (Act::Row(0, 0), Told::Row(Mark::Held(30), false)),
            (Act::TakeAway(0, 3, 33), Told::No),
            (Act::ForgetZeros(1, 2), Told::No),
        ],
    )
}

#[test]
fn a_blank_page_is_raised_and_its_pushes_are_dropped(rt: HostRuntime) -> Result<(), Fail> {
    make_in_new_marks(
        rt.alloc(),
        &[
            (Act::Begin(0, 7, 1, 10), Told::Yes),
            (Act::End(0, 1, 1), Told::Yes),
            (Act::Row(1, 1), Told::Row(Mark::Held(10), true)),
            (Act::Begin(0, 7, 1, 12), Told::Yes),
            (Act::Begin(1, 7, 2, 13), Told::Yes),
            // Nothing is known of zeros past the end then. Another page's push stays, and so does another file's.
            (Act::RaiseBlank(1, 1, 7, 1, 21), Told::Yes),
            (Act::Row(1, 1), Told::Row(Mark::Blank(21), false)),
            (Act::Push(0), NO_PUSH),
            (Act::Push(1), pushing(7, 2, 13, true)),
            (Act::RaiseBlank(1, 0, 8, 2, 22), Told::Yes),
            (Act::Row(1, 0), Told::Row(Mark::Blank(22), false)),
            (Act::Push(1), pushing(7, 2, 13, true)),
            (Act::RaiseBlank(1, 2, 7, 2, 23), Told::No),
        ],
    )
}
