//! Marks beside the blocks of a file's pages: two processes, of which one syncs while the other stores on, over a disk that fails at one call and, from a later one
//! on, at each. The close writes nothing then but half of one block, so the blocks are those that the marks speak of. Each mark is compared with flat memory
//! after so many entries.
ghost use Rattle.std.specs.Prelude.{◌≡◌, ◌≤◌, ◌<◌, IfOk, length};

use crate::tests::started;
use block_device::MemDisk;
use flat_state::FlatState;
use std::alloc::{AllocError, Global};
use std::test::Fail;
use test_acts::Act::{self, Clock, Do, Land, Try};
use test_acts::Told::Done;
use test_acts::What::{self, Load, Map, Store, Sync, Truncate};
use test_acts::{Trial, acts, make};
use vm_core::{Finished, Mark};
use vm_types::{Call, Entry, Line, Reply};

/// The bytes of the file at the opening: page k is full of bytes k + 1.
const LENGTH: u32 = 28677;

/// A Sync of all that process 2 maps of the file.
const ALL: What = Sync(0x2000, 0x8000);

/// What is stored lies in the second half of its page, and no cut comes before that: so a write that is torn, of which the first half is new, leaves a block of a page
/// that it had as it was.
const ACTS: [Act; 36] = [
    Do(0, Map(0x1_0000, 0x8000, true, 0, 0)),
    Do(1, Map(0x2000, 0x8000, true, 0, 0)),
    Do(0, Store(0x1_0800, 0x11)),
    Do(0, Store(0x1_1800, 0x12)),
    Do(0, Store(0x1_2800, 0x13)),
    // A page is stored into while its push is out, and then the next one.
    Try(1, ALL),
    Do(0, Store(0x1_0804, 0x14)),
    Land(1),
    Try(1, ALL),
    Do(0, Store(0x1_1804, 0x15)),
    Land(1),
    Do(1, ALL),
    Do(1, ALL),
    // A page is taken away while its push is out, and another one cut.
    Do(0, Store(0x1_3800, 0x16)),
    Do(0, Store(0x1_1808, 0x17)),
    Try(1, Sync(0x5000, 0x1000)),
    Do(0, Truncate(0, 6148)),
    Land(1),
    Do(0, Store(0x1_1800, 0x18)),
    Try(1, Sync(0x3000, 0x1000)),
    Do(0, Truncate(0, 6146)),
    Land(1),
    // Pages come that are blank; one of them is stored into.
    Do(1, Truncate(0, 20000)),
    Do(1, ALL),
    Do(1, ALL),
    Do(0, Store(0x1_2800, 0x19)),
    Do(0, Load(0x1_3000)),
    Clock(2, 48),
    Land(2),
    Clock(2, 48),
    Land(2),
    Do(1, Sync(0x4000, 0x1000)),
    Do(0, Store(0x1_1804, 0x1a)),
    Clock(2, 48),
    Land(2),
    Do(0, Store(0x1_0808, 0x1b)),
];

/// Makes an act; a transfer that didn't begin doesn't end. No call is refused, whatever else is told of it.
fn make_one(trial: &mut Trial, act: Act) -> Result<(), Fail> {
    if let Land(seat) = act
        && !trial.has_out(seat)
    {
        return Ok(());
    }
    let made = make(trial, act)?;
    if let Done(Reply::Refused(_)) = made {
        return Err(Fail::new("a call is refused"));
    }
    Ok(())
}

fn make_each(trial: &mut Trial, acts: &[Act]) -> Result<(), Fail> {
    for &act in acts {
        make_one(trial, act)?;
    }
    Ok(())
}

/// What is known of each page that the file had at the opening.
fn marks_of(trial: &Trial) -> [Option<Mark>; 8] {
    let mut marks = [None; 8];
    for page in 0..8u32 {
        marks[page as usize] = trial.mark(0, page);
    }
    marks
}

/// So many bytes, of which each page is full of its number and 1.
fn page_bytes(alloc: Global, count: u32) -> Result<Vec<u8>, AllocError>
    ensures { IfOk result (λ bytes. length bytes.items ≡ count) }
{
    let mut bytes = vec![in alloc; 0u8; count as usize]?;
    for place in 0..count {
        bytes[place as usize] = ((place / 4096) % 255) as u8 + 1;
    }
    Ok(bytes)
}

/// Flat memory as the two processes begin, and a third, which only reads.
fn opened(alloc: Global) -> Result<FlatState, AllocError> {
    let mut flat = FlatState::new(alloc, 0);
    flat.disk(0, 16)?;
    flat.file(LENGTH, 0, &[(1, 8)], true, &page_bytes(alloc, LENGTH)?)?;
    flat.root(1)?;
    flat.root(2)?;
    flat.root(3)?;
    Ok(flat)
}

/// Flat memory after these entries.
fn opened_after(alloc: Global, entries: &[Entry]) -> Result<FlatState, Fail> {
    let mut flat = opened(alloc)?;
    for (place, entry) in entries.iter().enumerate() {
        if !acts(&mut flat, entry)? {
            return Err(Fail::new(format_args!("entry {place} is no step: {entry:?}")));
        }
    }
    Ok(flat)
}

/// How long the file is after these entries.
fn length_after(entries: &[Entry]) -> u32 {
    let mut length = LENGTH;
    for entry in entries {
        if let Call::Truncate { length: now, .. } = entry.call
            && entry.reply == Reply::Done
        {
            length = now;
        }
    }
    length
}

/// Whether the file has these bytes from an offset on, up to 64.
fn has_line(flat: &mut FlatState, offset: u32, bytes: &[u8]) -> Result<bool, AllocError>
    requires { length bytes.now ≤ 64 }
{
    let entry = Entry {
        process: 3,
        call: Call::Read {
            file: 0,
            offset,
            length: 64,
        },
        reply: Reply::Bytes(Line::new(bytes)),
        cleared: 0,
    };
    acts(flat, &entry)
}

/// Whether a page of a file of this length has these bytes, up to the file's end.
fn has_page(
    flat: &mut FlatState,
    length: u32,
    page: u32,
    bytes: &[u8; 4096],
) -> Result<bool, AllocError>
    requires { page < 8 }
{
    for line in 0..64u32 {
        let offset = 4096 * page + 64 * line;
        let first = 64 * line as usize;
        let count = length.saturating_sub(offset).min(64) as usize;
        if count > 0 && !has_line(flat, offset, &bytes[first..first + count])? {
            return Ok(false);
        }
    }
    Ok(true)
}

/// Whether the page had these bytes after so many entries.
fn had_page(
    alloc: Global,
    entries: &[Entry],
    front: u64,
    page: u32,
    bytes: &[u8; 4096],
) -> Result<bool, Fail>
    requires { page < 8 }
{
    if front > entries.len() as u64 {
        return Ok(false);
    }
    let front = &entries[..front as usize];
    let mut flat = opened_after(alloc, front)?;
    Ok(has_page(&mut flat, length_after(front), page, bytes)?)
}

/// Whether a mark is true of its block: the page was so after so many entries, or zeros, or the disk counted a failure.
fn is_true(
    alloc: Global,
    finished: &Finished<MemDisk>,
    page: u32,
    mark: Mark,
    bytes: &[u8; 4096],
) -> Result<bool, Fail>
    requires { page < 8 }
{
    let mut entries = Vec::new(alloc);
    finished.history.entries().push_to(&mut entries)?;
    match mark {
        Mark::Held(front) => had_page(alloc, &entries, front, page, bytes),
        Mark::Blank(front) => had_page(alloc, &entries, front, page, &[0; 4096]),
        Mark::Unsure {
            entries: front,
            before,
            after,
        } => {
            let counted = finished.history.faults(0).unwrap_or(0);
            Ok(front <= entries.len() as u64 && before < after && after <= counted)
        }
    }
}

/// Whether a mark reaches as far as a Sync that was answered with this start, as this entry.
fn reaches(mark: Mark, place: u64, start: u64) -> bool {
    match mark {
        Mark::Held(front) | Mark::Blank(front) => start <= front,
        Mark::Unsure { entries, .. } => place < entries,
    }
}

/// Whether an entry is a Sync of all the file's pages that was answered, and with which start.
fn whole_sync(entry: &Entry) -> Option<u64> {
    match (entry.call, entry.reply) {
        (Call::Sync { addr: 0x2000, .. }, Reply::Synced(start)) => Some(start),
        _ => None,
    }
}

/// Whether a mark of a page reaches as far as each such Sync that was answered while the file had the page.
fn reaches_all(entries: &[Entry], page: u32, mark: Mark) -> bool
    requires { page < 8 }
{
    for (place, entry) in entries.iter().enumerate() {
        if let Some(start) = whole_sync(entry)
            && 4096 * page < length_after(&entries[..place])
            && !reaches(mark, place as u64, start)
        {
            return false;
        }
    }
    true
}

/// Which kinds of marks there are: one that a Sync has raised, one of a page that is blank, and one that isn't sure.
#[derive(Clone, Copy, PartialEq, Eq, Debug)]
struct Kinds {
    raised: bool,
    blank: bool,
    unsure: bool,
}

const NO_KIND: Kinds = Kinds {
    raised: false,
    blank: false,
    unsure: false,
};

const ALL_KINDS: Kinds = Kinds {
    raised: true,
    blank: true,
    unsure: true,
};

fn with_mark(kinds: Kinds, mark: Option<Mark>) -> Kinds {
    match mark {
        Some(Mark::Held(front)) => Kinds {
            raised: kinds.raised || front > 0,
            ..kinds
        },
        Some(Mark::Blank(_)) => Kinds {
            blank: true,
            ..kinds
        },
        Some(Mark::Unsure { .. }) => Kinds {
            unsure: true,
            ..kinds
        },
        None => kinds,
    }
}

/// The kinds of these marks, and those that were there.
fn with_marks(kinds: Kinds, marks: &[Option<Mark>; 8]) -> Kinds {
    let mut kinds = kinds;
    for mark in marks {
        kinds = with_mark(kinds, *mark);
    }
    kinds
}

/// What is looked at: the marks; how many faults the disk had counted as the kernel was closed; and the first of the five pages that the acts are about with a mark
/// that isn't true.
#[derive(Clone, Copy)]
struct Looked {
    marks: [Option<Mark>; 8],
    faults: u64,
    wrong: Option<(u32, Mark)>,
}

fn wrong_mark(
    alloc: Global,
    marks: &[Option<Mark>; 8],
    finished: &Finished<MemDisk>,
) -> Result<Option<(u32, Mark)>, Fail> {
    let Some((0, disk)) = finished.disks.first() else {
        return Err(Fail::new("disk 0 came back"));
    };
    let mut entries = Vec::new(alloc);
    finished.history.entries().push_to(&mut entries)?;
    for page in 0..5u32 {
        let (Some(mark), Some(block)) = (
            marks[page as usize],
            disk.content().get(1 + page as usize),
        ) else {
            return Err(Fail::new("the page has a mark and a block"));
        };
        if !is_true(alloc, finished, page, mark, &block.bytes)?
            || !reaches_all(&entries, page, mark)
        {
            return Ok(Some((page, mark)));
        }
    }
    Ok(None)
}

fn look_at(
    alloc: Global,
    marks: &[Option<Mark>; 8],
    finished: &Finished<MemDisk>,
) -> Result<Looked, Fail> {
    Ok(Looked {
        marks: *marks,
        faults: finished.history.faults(0).unwrap_or(0),
        wrong: wrong_mark(alloc, marks, finished)?,
    })
}

// The owner of a state calls little, as in `tests`.
fn made_and_looked_at(alloc: Global, fails: &[u64]) -> Result<Looked, Fail> {
    let mut trial = started(alloc, fails)?;
    make_each(&mut trial, &ACTS)?;
    let marks = marks_of(&trial);
    let finished = trial.finish()?;
    look_at(alloc, &marks, &finished)
}

/// A call that fails, and from a later one on each.
fn failing(alloc: Global, once: u64, dead: u64) -> Result<Vec<u64>, AllocError>
    requires { dead ≤ 60 }
{
    let mut fails = Vec::new(alloc);
    fails.push(once)?;
    for call in dead..dead + 60 {
        fails.push(call)?;
    }
    Ok(fails)
}

// Both calls that fail were made before the close, and each mark is true. The kinds of marks that were seen.
fn look_for_failures(alloc: Global, once: u64, dead: u64, kinds: Kinds) -> Result<Kinds, Fail> {
    let looked = made_and_looked_at(alloc, &failing(alloc, once, dead.min(60))?)?;
    if looked.faults < 2 {
        return Err(Fail::new(format_args!("{once}, {dead}: the disk still serves")));
    }
    if let Some((page, mark)) = looked.wrong {
        return Err(Fail::new(format_args!("{once}, {dead}: page {page} isn't {mark:?}")));
    }
    Ok(with_marks(kinds, &looked.marks))
}

#[test]
fn marks_are_true_of_their_blocks(rt: HostRuntime) -> Result<(), Fail> {
    let mut kinds = NO_KIND;
    for dead in 3..14u64 {
        for once in [1, dead / 2, dead - 1] {
            kinds = look_for_failures(rt.alloc(), once, dead, kinds)?;
        }
    }
    assert_eq!(rt; kinds, ALL_KINDS);
    Ok(())
}
