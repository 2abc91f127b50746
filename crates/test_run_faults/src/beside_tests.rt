//! Faults of scripts, of volumes, of set-up, of the source, the sink and the rack, where two processes would run beside the pageout daemon: the texts are those of one
//! process alone, since these faults come before the processes run or after them.
use block_device::Block;
use std::alloc::{AllocError, Global};
use std::sync::Wait;
use std::test::Fail;
use std::thread::Threads;
use test_run::{
    BROKEN, Broken, Fails, MORE, NEVER, Word, blocks_of, many_files, put_words, run_kept, run_trial,
};

/// Turns of the pageout daemon, beside the processes.
const DAEMON: &str = "--pageout\n1000";

/// The block of a second process, behind the script.
const SECOND: &[u8] = b"process\nload 0x2000 1\nend\n";

// Runs a script with a second process behind it, beside the daemon, and looks at what it says.
fn hear(
    rt: &(impl Threads + Wait + Sync),
    alloc: Global,
    script: &[u8],
    status: u8,
    text: &[u8],
) -> Result<(), Fail> {
    let mut script = Vec::from_slice(alloc, script)?;
    script.append(&mut Vec::from_slice(alloc, SECOND)?)?;
    let left = run_trial(rt, alloc, DAEMON, script.as_slice(), &NEVER)?;
    if left.status != status || left.text.as_slice() != text {
        let status = left.status;
        return Err(Fail::new(format_args!("{status} for {text:?}")));
    }
    Ok(())
}

fn hear_all(
    rt: &(impl Threads + Wait + Sync),
    alloc: Global,
    scripts: &[Broken],
) -> Result<(), Fail> {
    for broken in scripts {
        hear(rt, alloc, broken.script, broken.status, broken.text)?;
    }
    Ok(())
}

// So many lines.
fn lines(alloc: Global, count: u32, line: &str) -> Result<String, AllocError> {
    let mut script = String::new(alloc);
    for _ in 0..count {
        script.push_str(line)?;
    }
    Ok(script)
}

#[test]
fn faults_of_scripts_are_told_of_two_processes(rt: HostRuntime) -> Result<(), Fail> {
    let alloc = rt.alloc();
    hear_all(&rt, alloc, &BROKEN)?;
    hear_all(&rt, alloc, &MORE)?;
    let long = lines(alloc, 1_048_577, " ")?;
    hear(&rt, alloc, long.as_bytes(), 3, b"script: line 0: long\n")?;
    // With the block behind them 65 processes.
    let many = lines(alloc, 64, "process\nend\n")?;
    hear(&rt, alloc, many.as_bytes(), 4, b"setup: rule 7\n")?;
    // A read of 65,536 bytes at 1 touches 1025 lines of 64 bytes.
    let mut reads = lines(alloc, 1, "process\n")?;
    reads.push_str(&lines(alloc, 1024, "read a 1 65536\n")?)?;
    reads.push_str("end\n")?;
    hear(&rt, alloc, reads.as_bytes(), 4, b"setup: rule 8\n")?;
    let files = many_files(alloc, 65)?;
    hear(&rt, alloc, files.as_bytes(), 4, b"setup: rule 10\n")
}

// The file `a` of 5 bytes in blocks 1 and 2, and `b` of 8192 bytes in blocks 3 and 5.
const TWO_FILES: [Word; 20] = [
    (0, 0x53554e56),
    (4, 0x4d564f4c),
    (8, 2),
    (12, 8),
    (16, 2),
    (20, 3),
    (32, 0x61000000),
    (48, 5),
    (56, 1),
    (60, 1),
    (64, 0x62000000),
    (80, 8192),
    (84, 1),
    (88, 2),
    (2080, 1),
    (2084, 2),
    (2088, 3),
    (2092, 1),
    (2096, 5),
    (2100, 1),
];

// The same `a`, and `b` of 4096 bytes in block 3, in version 1.
const TWO_OLD_FILES: [Word; 14] = [
    (0, 0x53554e56),
    (4, 0x4d564f4c),
    (8, 1),
    (12, 8),
    (16, 2),
    (32, 0x61000000),
    (48, 5),
    (52, 1),
    (56, 2),
    (60, 1),
    (64, 0x62000000),
    (80, 4096),
    (84, 3),
    (88, 1),
];

// Each rule of volumes, and the number that breaks it in a table of version 2.
const BAD: [(u32, Word); 17] = [
    (1, (0, 0x53554e57)),
    (2, (8, 3)),
    (3, (12, 9)),
    (4, (16, 65)),
    (14, (20, 253)),
    (5, (24, 1)),
    (6, (64, 0x41000000)),
    (7, (92, 2)),
    (15, (84, 0)),
    (16, (2096, 8)),
    (17, (2096, 2)),
    (18, (2096, 4)),
    (9, (80, 8193)),
    (10, (2080, 6)),
    (11, (64, 0x61000000)),
    (19, (20, 4)),
    (12, (96, 1)),
];

// The same for version 1.
const OLD_BAD: [(u32, Word); 12] = [
    (1, (0, 0x53554e57)),
    (2, (8, 3)),
    (3, (12, 9)),
    (4, (16, 65)),
    (5, (20, 1)),
    (6, (64, 0x41000000)),
    (7, (92, 2)),
    (8, (84, 8)),
    (9, (80, 4097)),
    (10, (84, 2)),
    (11, (64, 0x61000000)),
    (12, (96, 1)),
];

// Eight blocks, the first of which has these words and then this one.
fn volume(alloc: Global, words: &[Word], word: Word) -> Result<Vec<Block>, AllocError> {
    let mut table = [0; 4096];
    put_words(&mut table, words);
    put_words(&mut table, &[word]);
    let mut blocks = vec![in alloc; Block::new(table); 1]?;
    blocks.append(&mut blocks_of(alloc, 7, 0, &[])?)?;
    Ok(blocks)
}

const MOUNTED: &[u8] = b"\
disk 0 path v
process
read a 0 8
end
process
read b 0 8
end
";

// Each of these volumes is refused by its rule, with one process and with two beside the daemon.
fn refuse_all(
    rt: &(impl Threads + Wait + Sync),
    alloc: Global,
    words: &[Word],
    bad: &[(u32, Word)],
) -> Result<(), Fail> {
    let one: &[u8] = b"disk 0 path v\nprocess\nread a 0 8\nend\n";
    for &(rule, word) in bad {
        let blocks = volume(alloc, words, word)?;
        let text = format!(in alloc; "setup: rule 9 disk 0 volume {rule}\n")?;
        for (words, script) in [("", one), (DAEMON, MOUNTED)] {
            let left = run_kept(rt, alloc, words, script, &NEVER, &blocks)?;
            if left.status != 4 || left.text.as_slice() != text.as_bytes() {
                return Err(Fail::new(format_args!("volume {rule}")));
            }
        }
    }
    Ok(())
}

#[test]
fn volumes_are_refused_by_each_of_their_rules(rt: HostRuntime) -> Result<(), Fail> {
    refuse_all(&rt, rt.alloc(), &TWO_FILES, &BAD)?;
    refuse_all(&rt, rt.alloc(), &TWO_OLD_FILES, &OLD_BAD)
}

// A disk of one block, which is too few.
#[test]
fn a_volume_of_one_block_is_refused_for_two_processes(rt: HostRuntime) -> Result<(), Fail> {
    let blocks = blocks_of(rt.alloc(), 1, 0, &[])?;
    let left = run_kept(&rt, rt.alloc(), DAEMON, MOUNTED, &NEVER, &blocks)?;
    let text: &[u8] = b"setup: rule 9 disk 0 volume 0\n";
    assert_eq!(rt; (left.status, left.text.as_slice()), (4, text));
    Ok(())
}

// Two processes, each with a file on a disk of its own.
const PAIR: &[u8] = b"\
disk 0 blank 8
disk 1 blank 8
file a rw 0 2 68656c6c6f
file b rw 1 1 776f726c64
process
map 0x2000 4096 rw shared a 0
load 0x2001 1
store 0x2000 1 0x4a
end
process
map 0x2000 4096 rw shared b 0
load 0x2001 1
store 0x2000 1 0x57
end
";

const PAIR_REPORT: &[u8] = b"\
process 1
6 map 0x00002000
7 load 0x65
8 store ok
9 exit ok
process 2
11 map 0x00002000
12 load 0x6f
13 store ok
14 exit ok
file a 5
00000000 4a656c6c6f
file b 5
00000000 576f726c64
";

// A run of both beside the daemon, with an outside that fails, and how it ends.
const ENDS: [(Fails, u8, &str, &[u8]); 11] = [
    (NEVER, 0, "none", PAIR_REPORT),
    (
        Fails { source: 1, ..NEVER },
        5,
        "none",
        b"script: read fault\n",
    ),
    (
        Fails { source: 2, ..NEVER },
        5,
        "none",
        b"script: read fault\n",
    ),
    (Fails { rack: 1, ..NEVER }, 7, "opening", b"fault: rack 8\n"),
    (Fails { rack: 2, ..NEVER }, 7, "opening", b"fault: rack 0\n"),
    (Fails { rack: 3, ..NEVER }, 7, "opening", b"fault: rack 1\n"),
    (Fails { rack: 4, ..NEVER }, 0, "none", PAIR_REPORT),
    (
        Fails { disk_0: 1, ..NEVER },
        7,
        "opening",
        b"fault: disk 0 0 1\n",
    ),
    (
        Fails { disk_0: 2, ..NEVER },
        7,
        "opening",
        b"fault: disk 0 0 1\n",
    ),
    (
        Fails { disk_1: 1, ..NEVER },
        7,
        "opening",
        b"fault: disk 1 0 1\n",
    ),
    (
        Fails { disk_1: 2, ..NEVER },
        7,
        "opening",
        b"fault: disk 1 0 1\n",
    ),
];

fn end_all(
    rt: &(impl Threads + Wait + Sync),
    alloc: Global,
    ends: &[(Fails, u8, &str, &[u8])],
) -> Result<(), Fail> {
    for (place, &(fails, status, fault, text)) in ends.iter().enumerate() {
        let left = run_trial(rt, alloc, DAEMON, PAIR, &fails)?;
        if (left.status, left.fault) != (status, fault) || left.text.as_slice() != text {
            let status = left.status;
            return Err(Fail::new(format_args!("{place}: {status}, or the text")));
        }
    }
    Ok(())
}

#[test]
fn an_outside_that_fails_is_told_of_two_processes(rt: HostRuntime) -> Result<(), Fail> {
    end_all(&rt, rt.alloc(), &ENDS)
}

#[test]
fn a_sink_that_fails_has_a_front_of_what_two_processes_tell(rt: HostRuntime) -> Result<(), Fail> {
    for sink in 1..100 {
        let fails = Fails { sink, ..NEVER };
        let left = run_trial(&rt, rt.alloc(), DAEMON, PAIR, &fails)?;
        let text = left.text.as_slice();
        assert!(rt; PAIR_REPORT.starts_with(text), "call {sink}");
        if left.status == 0 {
            assert_eq!(rt; text.len(), PAIR_REPORT.len(), "all was taken");
            assert!(rt; sink > PAIR_REPORT.len() as u64 / 5, "5 bytes a call");
            return Ok(());
        }
        assert_eq!(rt; (left.status, left.disks.len()), (6, 2), "call {sink}");
        assert!(rt; text.len() < 5 * sink as usize, "call {sink}");
    }
    Err(Fail::new("the text has fewer calls"))
}
