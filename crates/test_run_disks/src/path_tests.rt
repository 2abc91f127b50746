//! Whole runs over disks by path that tell what they hold: files in memory that are mounted, grown and joined, and whose calls fail or move too few bytes.
use crate::file_rack::{LeftFiles, run_over_files};
use disk_file::Flaw;
use std::alloc::{AllocError, Global};
use std::process::Abort;
use std::sync::Wait;
use std::test::Fail;
use std::thread::Threads;
use test_run::{TABLE, Word, put_words};

// A block that is full of this byte, but for these words.
#[derive(Clone, Copy)]
struct Filled {
    byte: u8,
    words: &'static [Word],
}

const ZEROS: Filled = Filled {
    byte: 0,
    words: &[],
};

// A block that no process writes.
const UNTOUCHED: Filled = Filled {
    byte: 0x11,
    words: &[],
};

fn bytes_of(alloc: Global, blocks: &[Filled]) -> Result<Vec<u8>, AllocError> {
    let mut bytes = Vec::new(alloc);
    for block in blocks {
        let mut page = [block.byte; 4096];
        put_words(&mut page, block.words);
        bytes.extend_from_slice(&page)?;
    }
    Ok(bytes)
}

// Each file of the run has these blocks.
fn compares(
    rt: &impl Abort,
    alloc: Global,
    what: &str,
    left: &LeftFiles,
    files: &[&[Filled]],
) -> Result<(), AllocError> {
    assert_eq!(rt; left.files.len(), files.len(), "{what}");
    for (file, blocks) in left.files.iter().zip(files) {
        assert!(rt;
            file.as_slice() == bytes_of(alloc, blocks)?.as_slice(),
            "{what}"
        );
    }
    Ok(())
}

// A file of five bytes, which keeps two blocks. Behind its end its block has other bytes.
const MOUNTED: [Filled; 8] = [
    Filled {
        byte: 0,
        words: &TABLE,
    },
    Filled {
        byte: 0x11,
        words: &[(0, 0x68656c6c), (4, 0x6f111111)],
    },
    UNTOUCHED,
    UNTOUCHED,
    UNTOUCHED,
    UNTOUCHED,
    UNTOUCHED,
    UNTOUCHED,
];

const GROW: &[u8] = b"\
swap 0
disk 0 path v
process
write a 8190 414243
map 0x2000 4096 rw shared a 0
store 0x2000 1 0x4a
sync 0x2000 4096
read a 0 5
end
";

const GROWN_TEXT: &[u8] = b"\
process 1
4 write 3
5 map 0x00002000
6 store ok
7 sync ok
8 read 5 4a656c6c6f
9 exit ok
file a 8193
00000000 4a656c6c6f000000000000000000000000000000000000000000000000000000
00001fe0 0000000000000000000000000000000000000000000000000000000000004142
00002000 43
";

// The file keeps a block more.
const GROWN_TABLE: [Word; 12] = [
    (0, 0x53554e56),
    (4, 0x4d564f4c),
    (8, 2),
    (12, 8),
    (16, 1),
    (20, 1),
    (32, 0x61000000),
    (48, 8193),
    (56, 1),
    (60, 1),
    (2080, 1),
    (2084, 3),
];

const GROWN: [Filled; 8] = [
    Filled {
        byte: 0,
        words: &GROWN_TABLE,
    },
    Filled {
        byte: 0,
        words: &[(0, 0x4a656c6c), (4, 0x6f000000)],
    },
    Filled {
        byte: 0,
        words: &[(4092, 0x4142)],
    },
    Filled {
        byte: 0,
        words: &[(0, 0x43000000)],
    },
    UNTOUCHED,
    UNTOUCHED,
    UNTOUCHED,
    UNTOUCHED,
];

#[test]
fn a_file_that_grows_lies_in_the_file_of_its_disk(rt: HostRuntime) -> Result<(), Fail> {
    let alloc = rt.alloc();
    let files = vec![in alloc; bytes_of(alloc, &MOUNTED)?]?;
    let left = run_over_files(&rt, alloc, GROW, files, Vec::new(alloc))?;
    assert_eq!(rt; left.status, 0);
    assert_eq!(rt; left.text.as_slice(), GROWN_TEXT);
    compares(&rt, alloc, "grown", &left, &[&GROWN])?;
    Ok(())
}

const JOINED_TEXT: &[u8] = b"\
process 1
7 write 1
8 write 1
9 write 1
10 exit ok
file a 8193
00000000 4a00000000000000000000000000000000000000000000000000000000000000
00001000 4b00000000000000000000000000000000000000000000000000000000000000
00002000 4c
";

const STRIPED_TABLE: [Word; 12] = [
    (0, 0x53554e56),
    (4, 0x4d564f4c),
    (8, 2),
    (12, 8),
    (16, 1),
    (20, 1),
    (32, 0x61000000),
    (48, 8193),
    (56, 1),
    (60, 1),
    (2080, 1),
    (2084, 3),
];

const MIRRORED_TABLE: [Word; 12] = [
    (0, 0x53554e56),
    (4, 0x4d564f4c),
    (8, 2),
    (12, 4),
    (16, 1),
    (20, 1),
    (32, 0x61000000),
    (48, 8193),
    (56, 1),
    (60, 1),
    (2080, 1),
    (2084, 3),
];

const J: Filled = Filled {
    byte: 0,
    words: &[(0, 0x4a000000)],
};

const K: Filled = Filled {
    byte: 0,
    words: &[(0, 0x4b000000)],
};

const L: Filled = Filled {
    byte: 0,
    words: &[(0, 0x4c000000)],
};

// Two blank files of four blocks are joined so; the blocks of each behind the run.
#[derive(Clone, Copy)]
struct Joined {
    how: &'static str,
    first: [Filled; 4],
    second: [Filled; 4],
}

const JOINED: [Joined; 2] = [
    Joined {
        how: "stripe",
        first: [
            Filled {
                byte: 0,
                words: &STRIPED_TABLE,
            },
            K,
            ZEROS,
            ZEROS,
        ],
        second: [J, L, ZEROS, ZEROS],
    },
    Joined {
        how: "mirror",
        first: [
            Filled {
                byte: 0,
                words: &MIRRORED_TABLE,
            },
            J,
            K,
            L,
        ],
        second: [
            Filled {
                byte: 0,
                words: &MIRRORED_TABLE,
            },
            J,
            K,
            L,
        ],
    },
];

#[test]
fn the_blocks_of_joined_disks_lie_in_both_files(rt: HostRuntime) -> Result<(), Fail> {
    let alloc = rt.alloc();
    for joined in &JOINED {
        let how = joined.how;
        let script = format!(in alloc;
            "swap 0\ndisk 0 path v\ndisk 1 path w\njoin 0 {how} 1\nfile a rw 0 3 -\nprocess\nwrite a 0 4a\nwrite a 4096 4b\nwrite a 8192 4c\nend\n"
        )?;
        let blank = [ZEROS; 4];
        let files = vec![in alloc; bytes_of(alloc, &blank)?, bytes_of(alloc, &blank)?]?;
        let left = run_over_files(&rt, alloc, script.as_bytes(), files, Vec::new(alloc))?;
        assert_eq!(rt; left.status, 0, "{how}");
        assert_eq!(rt; left.text.as_slice(), JOINED_TEXT, "{how}");
        compares(&rt, alloc, how, &left, &[&joined.first, &joined.second])?;
    }
    Ok(())
}

// A file of two pages. Each page is stored into, the first one is synced.
const SYNC: &[u8] = b"\
swap 0
disk 0 path v
process
map 0x2000 8192 rw shared a 0
store 0x2fa0 1 0x4a
sync 0x2000 4096
store 0x3fa0 1 0x4b
end
";

const TWO_PAGES: [Word; 12] = [
    (0, 0x53554e56),
    (4, 0x4d564f4c),
    (8, 2),
    (12, 4),
    (16, 1),
    (20, 1),
    (32, 0x61000000),
    (48, 8192),
    (56, 1),
    (60, 1),
    (2080, 1),
    (2084, 2),
];

// What comes of a run whose disk fails at one call: what is told of the process, how much of the file is shown (nothing, its first
// line, that and the first page, all of it), and the first byte at 4000 of each page's block; none where its write failed.
#[derive(Clone, Copy)]
struct Failing {
    calls: &'static str,
    shown: u8,
    first: u8,
    second: Option<u8>,
}

// Call 1 reads the table, call 2 the first page, call 3 writes it, call 4 reads the second page, call 5 writes it, call 6 the table,
// and calls 7 and 8 read the pages again.
const FAILING: [Failing; 9] = [
    Failing {
        calls: "",
        shown: 0,
        first: 0x11,
        second: Some(0x11),
    },
    Failing {
        calls: "\
process 1
4 map 0x00002000
5 store BUS io 0 0 1
6 sync ok
7 store ok
8 exit ok
",
        shown: 3,
        first: 0x11,
        second: Some(0x4b),
    },
    Failing {
        calls: "\
process 1
4 map 0x00002000
5 store ok
6 sync error io 0 0 1
7 store ok
8 exit ok
",
        shown: 3,
        first: 0x4a,
        second: Some(0x4b),
    },
    Failing {
        calls: "\
process 1
4 map 0x00002000
5 store ok
6 sync ok
7 store BUS io 0 0 1
8 exit ok
",
        shown: 3,
        first: 0x4a,
        second: Some(0x11),
    },
    Failing {
        calls: WHOLE,
        shown: 0,
        first: 0x4a,
        second: None,
    },
    Failing {
        calls: WHOLE,
        shown: 0,
        first: 0x4a,
        second: Some(0x4b),
    },
    Failing {
        calls: WHOLE,
        shown: 1,
        first: 0x4a,
        second: Some(0x4b),
    },
    Failing {
        calls: WHOLE,
        shown: 2,
        first: 0x4a,
        second: Some(0x4b),
    },
    Failing {
        calls: WHOLE,
        shown: 3,
        first: 0x4a,
        second: Some(0x4b),
    },
];

const WHOLE: &str = "process 1\n4 map 0x00002000\n5 store ok\n6 sync ok\n7 store ok\n8 exit ok\n";

// The text of such a run.
fn text_of(alloc: Global, failing: &Failing) -> Result<String, AllocError> {
    let mut text = String::from_str(alloc, failing.calls)?;
    if 0 < failing.shown {
        text.push_str("file a 8192\n")?;
    }
    let zeros = "00000000000000000000000000000000000000000000000000000000";
    if 1 < failing.shown {
        text.push_str(&format!(in alloc; "00000fa0 {:02x}111111{zeros}\n", failing.first)?)?;
    }
    if failing.shown < 3 {
        text.push_str("fault: disk 0 0 1\n")?;
    } else if let Some(second) = failing.second {
        text.push_str(&format!(in alloc; "00001fa0 {second:02x}111111{zeros}\n")?)?;
    }
    Ok(text)
}

// A disk of this table and two pages with these bytes at 4000.
fn two_pages(alloc: Global, first: u8, second: u8) -> Result<Vec<u8>, AllocError> {
    let mut bytes = bytes_of(
        alloc,
        &[Filled {
            byte: 0,
            words: &TWO_PAGES,
        }],
    )?;
    for byte in [first, second] {
        let mut page = [0; 4096];
        put_words(&mut page, &[(4000, 0x00111111)]);
        page[4000] = byte;
        bytes.extend_from_slice(&page)?;
    }
    bytes.append(&mut bytes_of(alloc, &[UNTOUCHED])?)?;
    Ok(bytes)
}

// The run whose disk has this flaw at the call of this number, from 0 on. A write that it spoils leaves this byte.
fn fails_at(
    rt: &(impl Threads + Wait + Sync + Abort),
    alloc: Global,
    call: usize,
    failing: &Failing,
    (flaw, spoiled): (Flaw, u8),
) -> Result<(), AllocError> {
    let mut flaws = Vec::new(alloc);
    for _ in 0..call {
        flaws.push(None)?;
    }
    flaws.push(Some(flaw))?;
    let files = vec![in alloc; two_pages(alloc, 0x11, 0x11)?]?;
    let left = run_over_files(rt, alloc, SYNC, files, vec![in alloc; flaws]?)?;
    assert_eq!(rt;
        left.status,
        if failing.shown == 3 { 0 } else { 7 },
        "call {call}"
    );
    let text = text_of(alloc, failing)?;
    assert_eq!(rt; left.text.as_slice(), text.as_bytes(), "call {call}");
    let second = failing.second.unwrap_or(spoiled);
    let wanted = two_pages(alloc, failing.first, second)?;
    assert_eq!(rt; left.files.len(), 1);
    for file in &left.files {
        assert!(rt; file.as_slice() == wanted.as_slice(), "call {call}");
    }
    Ok(())
}

#[test]
fn a_disk_by_path_fails_at_each_of_its_calls(rt: HostRuntime) -> Result<(), Fail> {
    for (call, failing) in FAILING.iter().enumerate() {
        for spoiling in [(Flaw::Short(2048), 0x11), (Flaw::Fails(4095), 0x4b)] {
            fails_at(&rt, rt.alloc(), call, failing, spoiling)?;
        }
    }
    Ok(())
}
