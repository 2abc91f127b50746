//! What the blocks of files' pages hold where a disk fails: the page as it was after a front of the history, which no sync that was
//! answered began behind.
ghost use Rattle.std.specs.Prelude.{◌<◌, ◌≤◌, length};

use block_device::Block;
use flat_state::FlatState;
use std::alloc::{AllocError, Global};
use std::sync::Wait;
use std::test::Fail;
use std::thread::Threads;
use test_run::{
    Fails, Left, NEVER, NO_WORDS, OLD_TABLE, acts, blocks_of, run_failing, run_trial,
    script_of_file,
};
use vm_types::{Call, Entry, Line, Reply};

// A run whose disks fail at these calls and at each later one, 0 standing for none: how it ends, how its text begins and ends, and
// what blocks 1 and 2 of disk 0 begin with; nothing is said of a block whose write failed.
#[derive(Clone, Copy)]
struct Failing {
    script: &'static [u8],
    disk_0: u64,
    disk_1: u64,
    text: &'static [u8],
    end: &'static [u8],
    first: &'static [u8],
    second: &'static [u8],
}

const SYNCED: &[u8] = b"\
disk 0 blank 8
file a rw 0 2 68656c6c6f
process
map 0x2000 4096 rw shared a 0
store 0x2000 1 0x4a
sync 0x2000 4096
end
";

const STORED: &[u8] = b"\
process 1
4 map 0x00002000
5 store ok
6 sync ok
7 exit ok
";

// Disk 0 at each of its calls: the table is read, the opening bytes are written, the page is read, the sync has it pushed, the table
// is written, and the page is read back.
const SYNC_FAULTS: [Failing; 6] = [
    Failing {
        script: SYNCED,
        disk_0: 1,
        disk_1: 0,
        text: b"",
        end: b"fault: disk 0 0 1\n",
        first: b"\0\0\0\0\0",
        second: b"\0",
    },
    Failing {
        script: SYNCED,
        disk_0: 2,
        disk_1: 0,
        text: b"",
        end: b"fault: disk 0 0 1\n",
        first: b"",
        second: b"\0",
    },
    Failing {
        script: SYNCED,
        disk_0: 3,
        disk_1: 0,
        text: b"\
process 1
4 map 0x00002000
5 store BUS io 0 0 1
6 sync ok
7 exit ok
",
        end: b"fault: disk 0 1 2\n",
        first: b"hello",
        second: b"\0",
    },
    Failing {
        script: SYNCED,
        disk_0: 4,
        disk_1: 0,
        text: b"\
process 1
4 map 0x00002000
5 store ok
6 sync error io 0 0 1
7 exit ok
",
        end: b"fault: disk 0 1 2\n",
        first: b"",
        second: b"\0",
    },
    Failing {
        script: SYNCED,
        disk_0: 5,
        disk_1: 0,
        text: STORED,
        end: b"fault: disk 0 0 1\n",
        first: b"Jello",
        second: b"\0",
    },
    Failing {
        script: SYNCED,
        disk_0: 6,
        disk_1: 0,
        text: STORED,
        end: b"fault: disk 0 0 1\n",
        first: b"Jello",
        second: b"\0",
    },
];

// The first disk's page is pushed before the second one fails. A page that is blank is all zeros to the processes, and a sync of it
// pushes nothing: its block may hold what it did, until zeros are written at the close; so it is of a page that was cut off and came
// again.
const PUSHED: [Failing; 3] = [
    Failing {
        script: b"\
disk 0 blank 8
disk 1 blank 4
file a rw 0 1 6161
file b rw 1 1 6262
process
map 0x2000 4096 rw shared a 0
map 0x3000 4096 rw shared b 0
store 0x2000 1 0x4a
store 0x3000 1 0x4b
sync 0x2000 8192
end
",
        disk_0: 0,
        disk_1: 4,
        text: b"\
process 1
6 map 0x00002000
7 map 0x00003000
8 store ok
9 store ok
10 sync error io 1 0 1
11 exit ok
",
        end: b"fault: disk 1 1 2\n",
        first: b"Ja\0",
        second: b"\0",
    },
    Failing {
        script: b"\
disk 0 path v
process
truncate a 8192
map 0x2000 8192 rw shared a 0
load 0x3000 1
sync 0x2000 8192
end
",
        disk_0: 2,
        disk_1: 0,
        text: b"\
process 1
3 truncate ok
4 map 0x00002000
5 load 0x00
6 sync ok
7 exit ok
",
        end: b"fault: disk 0 0 1\n",
        first: b"",
        second: b"\x07",
    },
    Failing {
        script: b"\
disk 0 path v
process
truncate a 8192
map 0x2000 8192 rw shared a 0
store 0x2000 1 0x4a
store 0x3000 1 0x4b
sync 0x2000 8192
truncate a 4096
truncate a 8192
sync 0x2000 8192
load 0x3000 1
store 0x2001 1 0x4c
end
",
        disk_0: 4,
        disk_1: 0,
        text: b"\
process 1
3 truncate ok
4 map 0x00002000
5 store ok
6 store ok
7 sync ok
8 truncate ok
9 truncate ok
10 sync ok
11 load 0x00
12 store ok
13 exit ok
",
        end: b"fault: disk 0 0 1\n",
        first: b"",
        second: b"K\0",
    },
];

fn begins(block: Option<&Block>, bytes: &[u8]) -> bool {
    match block {
        Some(block) => block.bytes.starts_with(bytes),
        None => false,
    }
}

// A volume of eight blocks with a file of no bytes, for two pages; no block of it is zeros.
fn volume(alloc: Global) -> Result<Vec<Block>, AllocError> {
    let mut table = OLD_TABLE;
    table[6] = (48, 0);
    let mut blocks = blocks_of(alloc, 1, 0, &table)?;
    blocks.append(&mut blocks_of(alloc, 7, 7, &[])?)?;
    Ok(blocks)
}

fn fail_each(
    rt: &(impl Threads + Wait + Sync),
    alloc: Global,
    cases: &[Failing],
) -> Result<(), Fail> {
    for case in cases {
        let (disk_0, disk_1) = (case.disk_0.min(1000), case.disk_1.min(1000));
        let left = run_failing(rt, alloc, case.script, &volume(alloc)?, disk_0, disk_1)?;
        let text = left.text.as_slice();
        if left.status != 7 || !text.starts_with(case.text) || !text.ends_with(case.end) {
            let status = left.status;
            return Err(Fail::new(format_args!("calls {disk_0}, {disk_1}: {status}, or the text")));
        }
        let Some(blocks) = left.disks.first() else {
            return Err(Fail::new("the disk came back"));
        };
        if !begins(blocks.get(1), case.first) || !begins(blocks.get(2), case.second) {
            return Err(Fail::new(format_args!("calls {disk_0}, {disk_1}: a block")));
        }
    }
    Ok(())
}

#[test]
fn a_sync_that_is_answered_has_its_page_on_the_disk(rt: HostRuntime) -> Result<(), Fail> {
    fail_each(&rt, rt.alloc(), &SYNC_FAULTS)
}

#[test]
fn a_sync_has_the_pages_of_a_disk_that_serves(rt: HostRuntime) -> Result<(), Fail> {
    fail_each(&rt, rt.alloc(), &PUSHED)
}

const BYTES: [u8; 8192] = [0x41; 8192];

// Flat memory as two processes begin, with a file of two pages, and a third, which only reads.
fn opened(alloc: Global) -> Result<FlatState, AllocError> {
    let mut flat = FlatState::new(alloc, 64);
    flat.disk(0, 8)?;
    flat.file(8192, 0, &[(1, 2)], true, &BYTES)?;
    flat.root(1)?;
    flat.root(2)?;
    flat.root(3)?;
    Ok(flat)
}

// Whether a line of the file has these bytes.
fn has_line(flat: &mut FlatState, line: u32, bytes: &[u8]) -> Result<bool, AllocError>
    requires line { line < 128 }
    requires bytes { length bytes.now ≤ 64 }
{
    let entry = Entry {
        process: 3,
        call: Call::Read {
            file: 0,
            offset: 64 * line,
            length: 64,
        },
        reply: Reply::Bytes(Line::new(bytes)),
        cleared: 0,
    };
    acts(flat, &entry)
}

// Whether a page of the file has these bytes.
fn has_page(flat: &mut FlatState, page: u32, block: &Block) -> Result<bool, AllocError>
    requires { page < 2 }
{
    for line in 0..64u32 {
        let first = 64 * line as usize;
        if !has_line(flat, 64 * page + line, &block.bytes[first..first + 64])? {
            return Ok(false);
        }
    }
    Ok(true)
}

// After how many entries the page was as this block has it, the last time; none where it never was. The entries are steps.
fn last_front(
    flat: FlatState,
    entries: &[Entry],
    page: u32,
    block: &Block,
) -> Result<Option<usize>, Fail>
    requires { page < 2 }
{
    let mut flat = flat;
    let mut last = if has_page(&mut flat, page, block)? {
        Some(0)
    } else {
        None
    };
    for (place, entry) in entries.iter().enumerate() {
        if !acts(&mut flat, entry)? {
            return Err(Fail::new(format_args!("entry {place} is no step")));
        }
        if has_page(&mut flat, page, block)? {
            last = Some(place + 1);
        }
    }
    Ok(last)
}

// Where the last sync that was answered began.
fn last_start(entries: &[Entry]) -> u64 {
    let mut start = 0;
    for entry in entries {
        if let Reply::Synced(from) = entry.reply {
            start = from.max(start);
        }
    }
    start
}

// How many of the file's two pages aren't on the disk as they were after a front of the history that is no shorter than where the
// last sync began.
fn count_others(alloc: Global, left: &Left) -> Result<u32, Fail> {
    let entries = left.entries.as_slice();
    let start = last_start(entries);
    let Some(blocks) = left.disks.first() else {
        return Err(Fail::new("the disk came back"));
    };
    if blocks.len() != 8 {
        return Err(Fail::new("the disk has its blocks"));
    }
    let mut others = 0;
    for page in 0..2u32 {
        match last_front(opened(alloc)?, entries, page, &blocks[1 + page as usize])? {
            Some(front) if start <= front as u64 => {}
            _ => others = if others == 0 { 1 } else { 2 },
        }
    }
    Ok(others)
}

// A process that stores into both pages, and one that syncs them.
fn two_processes(alloc: Global) -> Result<String, AllocError> {
    let mut script = script_of_file(alloc, BYTES.len())?;
    script.push_str("map 0x2000 8192 rw shared c 0\n")?;
    for word in 1..13u32 {
        script.push_str(&format!(in alloc; "store 0x{:x} 1 {word}\n", 0x2000 + word)?)?;
        script.push_str(&format!(in alloc; "store 0x{:x} 1 {word}\n", 0x3000 + word)?)?;
    }
    script.push_str("end\nprocess\nmap 0x2000 8192 rw shared c 0\n")?;
    for _ in 0..6 {
        script.push_str("sync 0x2000 8192\n")?;
    }
    script.push_str("end\n")?;
    Ok(script)
}

// Each call of the disk fails in turn, once. Only a block whose write failed as the files were closed may hold anything else.
fn fail_in_turn(rt: &(impl Threads + Wait + Sync), alloc: Global, words: &str) -> Result<(), Fail> {
    let script = two_processes(alloc)?;
    for disk_0 in 4..40 {
        let fails = Fails { disk_0, ..NEVER };
        let left = run_trial(rt, alloc, words, script.as_bytes(), &fails)?;
        let others = count_others(alloc, &left)?;
        let most = if left.fault == "closing" { 1 } else { 0 };
        if others > most {
            return Err(Fail::new(format_args!("call {disk_0}: {others} blocks")));
        }
    }
    Ok(())
}

#[test]
fn one_process_syncs_while_another_stores(rt: HostRuntime) -> Result<(), Fail> {
    fail_in_turn(&rt, rt.alloc(), NO_WORDS)?;
    fail_in_turn(&rt, rt.alloc(), "--pageout\n300")
}
