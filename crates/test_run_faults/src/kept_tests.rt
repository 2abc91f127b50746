//! What a mounted disk holds where a run ends early, block by block; and a disk that fails is told of while memory is there.
use block_device::Block;
use std::alloc::{AllocError, Global};
use std::sync::Wait;
use std::test::Fail;
use std::thread::Threads;
use test_run::{
    FIRST, Fails, Left, NEVER, NO_WORDS, OLD_TABLE, REPORT, TABLE, blocks_of, put_words, run_kept,
    run_trial,
};

// Somebody's volume of eight blocks: a table of version 1 with a file of two pages, whose first page begins with bytes, and no
// block of zeros.
fn volume(alloc: Global) -> Result<Vec<Block>, AllocError> {
    let mut blocks = blocks_of(alloc, 1, 0, &OLD_TABLE)?;
    blocks.append(&mut blocks_of(alloc, 1, 6, &[(0, 0x4a656c6c)])?)?;
    blocks.append(&mut blocks_of(alloc, 6, 7, &[])?)?;
    Ok(blocks)
}

// Whether these blocks are the same, but for those of these numbers.
fn are_kept(before: &[Block], after: &[Block], but: &[usize]) -> bool {
    if before.len() != after.len() {
        return false;
    }
    for i in 0..before.len() {
        if !but.contains(&i) && before[i].bytes != after[i].bytes {
            return false;
        }
    }
    true
}

// A run over that volume: how it ends, and that its blocks are as they were, but for those of these numbers.
#[derive(Clone, Copy)]
struct Early {
    name: &'static str,
    words: &'static str,
    script: &'static [u8],
    fails: Fails,
    status: u8,
    fault: &'static str,
    but: &'static [usize],
}

const PLACED: &[u8] = b"disk 0 path v\nfile b rw 0 1 62\nprocess\nend\n";

const SECOND: &[u8] = b"\
disk 0 path v
disk 1 blank 4
file c rw 1 1 63
process
map 0x2000 4096 rw shared a 0
store 0x2000 1 0x4b
end
";

const SECOND_FAILS: Early = Early {
    name: "the second disk's table isn't written",
    words: NO_WORDS,
    script: SECOND,
    fails: Fails { disk_1: 3, ..NEVER },
    status: 7,
    fault: "closing",
    but: &[0, 1],
};

// The pages of both files are modified, and go out in the order of the files: that of a to block 1, and that of b to block 3.
const PAGES: &[u8] = b"\
disk 0 path v
file b rw 0 1 62
process
map 0x2000 4096 rw shared a 0
map 0x4000 4096 rw shared b 0
store 0x2000 1 0x4b
store 0x4000 1 0x63
end
";

const PAGE_FAILS: Early = Early {
    name: "the second page isn't pushed as the files are closed",
    words: NO_WORDS,
    script: PAGES,
    fails: Fails { disk_0: 6, ..NEVER },
    status: 7,
    fault: "closing",
    but: &[1, 3],
};

// The file of the script's line gets block 3.
const EARLY: [Early; 7] = [
    Early {
        name: "the trace isn't taken",
        words: "--trace",
        script: PLACED,
        fails: Fails { sink: 3, ..NEVER },
        status: 6,
        fault: "none",
        but: &[3],
    },
    Early {
        name: "the page of a line isn't written",
        words: NO_WORDS,
        script: PLACED,
        fails: Fails { disk_0: 2, ..NEVER },
        status: 7,
        fault: "opening",
        but: &[3],
    },
    Early {
        name: "a page isn't read for the trace",
        words: "--trace",
        script: PLACED,
        fails: Fails { disk_0: 3, ..NEVER },
        status: 7,
        fault: "opening",
        but: &[3],
    },
    Early {
        name: "block 0 isn't read",
        words: NO_WORDS,
        script: PLACED,
        fails: Fails { disk_0: 1, ..NEVER },
        status: 7,
        fault: "opening",
        but: &[],
    },
    Early {
        name: "a name is there already",
        words: NO_WORDS,
        script: b"\
disk 0 path v
file b rw 0 1 62
file a rw 0 1 -
process
end
",
        fails: NEVER,
        status: 4,
        fault: "none",
        but: &[],
    },
    PAGE_FAILS,
    SECOND_FAILS,
];

fn end_early(
    rt: &(impl Threads + Wait + Sync),
    alloc: Global,
    early: &Early,
) -> Result<Left, Fail> {
    let name = early.name;
    let before = volume(alloc)?;
    let left = run_kept(rt, alloc, early.words, early.script, &early.fails, &before)?;
    if (left.status, left.fault) != (early.status, early.fault) {
        let (status, fault) = (left.status, left.fault);
        return Err(Fail::new(format_args!("{name}: {status}, {fault}")));
    }
    match left.disks.first() {
        Some(after) if are_kept(&before, after, early.but) => Ok(left),
        _ => Err(Fail::new(format_args!("{name}: a block changed"))),
    }
}

fn end_each(rt: &(impl Threads + Wait + Sync), alloc: Global, cases: &[Early]) -> Result<(), Fail> {
    for early in cases {
        end_early(rt, alloc, early)?;
    }
    Ok(())
}

#[test]
fn a_run_that_ends_early_leaves_the_other_blocks(rt: HostRuntime) -> Result<(), Fail> {
    end_each(&rt, rt.alloc(), &EARLY)
}

// The first page was stored before the second one failed; the table of before is still there.
#[test]
fn a_page_is_stored_before_the_next_one_fails(rt: HostRuntime) -> Result<(), Fail> {
    let left = end_early(&rt, rt.alloc(), &PAGE_FAILS)?;
    match left.disks.first() {
        Some(blocks) if blocks.len() == 8 => {
            assert_eq!(rt; &blocks[1].bytes[..5], b"Kell\x06".as_slice());
            Ok(())
        }
        _ => Err(Fail::new("the disk came back")),
    }
}

// The first disk was closed before the second one failed: it has its page and its table.
#[test]
fn a_disk_is_closed_before_the_next_one_fails(rt: HostRuntime) -> Result<(), Fail> {
    let left = end_early(&rt, rt.alloc(), &SECOND_FAILS)?;
    let mut table = [0; 4096];
    put_words(&mut table, &TABLE);
    match left.disks.first() {
        Some(blocks) if blocks.len() == 8 => {
            assert!(rt; blocks[0].bytes == table, "the table");
            assert_eq!(rt; &blocks[1].bytes[..5], b"Kell\x06".as_slice());
            Ok(())
        }
        _ => Err(Fail::new("the disk came back")),
    }
}

// A disk that fails at each of its calls in turn, while memory is there: it is told of, or a call of the script met it.
#[test]
fn a_disk_that_fails_is_no_want_of_memory(rt: HostRuntime) -> Result<(), Fail> {
    for disk_0 in 1..400 {
        let fails = Fails { disk_0, ..NEVER };
        let left = run_trial(&rt, rt.alloc(), "--trace", FIRST, &fails)?;
        assert!(rt; left.status == 7 || left.status == 0, "call {disk_0}");
        if left.text.ends_with(REPORT) {
            assert!(rt; disk_0 > 6, "the first path makes calls");
            return Ok(());
        }
    }
    Err(Fail::new("the disk has fewer calls"))
}
