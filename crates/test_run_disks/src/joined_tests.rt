//! Whole runs over joined disks: a stripe and a mirror without a fault, and either member, or both, failing at each call in turn.
use std::alloc::Global;
use std::sync::Wait;
use std::test::Fail;
use std::thread::Threads;
use test_run::{Fails, NEVER, NO_WORDS, run_trial};

// The first path, over two disks as one.
const STRIPE: &[u8] = b"\
disk 0 blank 4
disk 1 blank 4
join 0 stripe 1
file a rw 0 2 68656c6c6f
process
map 0x2000 4096 rw shared a 0
load 0x2001 1
store 0x2000 1 0x4a
end
";

const MIRROR: &[u8] = b"\
disk 0 blank 8
disk 1 blank 8
join 0 mirror 1
file a rw 0 2 68656c6c6f
process
map 0x2000 4096 rw shared a 0
load 0x2001 1
store 0x2000 1 0x4a
end
";

const REPORT: &[u8] = b"\
process 1
6 map 0x00002000
7 load 0x65
8 store ok
9 exit ok
file a 5
00000000 4a656c6c6f
";

const UNREAD: &[u8] = b"\
process 1
6 map 0x00002000
7 load BUS io 0 0 1
8 store ok
9 exit ok
file a 5
00000000 4a656c6c6f
";

const UNCLOSED: &[u8] = b"\
process 1
6 map 0x00002000
7 load 0x65
8 store ok
9 exit ok
fault: disk 0 0 1
";

const UNSHOWN: &[u8] = b"\
process 1
6 map 0x00002000
7 load 0x65
8 store ok
9 exit ok
file a 5
fault: disk 0 0 1
";

// Two files on a mirror, each read once.
const SURVIVES: &[u8] = b"\
disk 0 blank 8
disk 1 blank 8
join 0 mirror 1
file a rw 0 1 68656c6c6f
file b rw 0 1 776f726c64
process
map 0x2000 4096 r shared a 0
map 0x4000 4096 r shared b 0
load 0x2000 1
load 0x4000 1
load 0x4000 1
end
";

// A run whose disks fail at one call each, 0 for none: how it ends, and the reads and writes of each.
#[derive(Clone, Copy)]
struct Case {
    name: &'static str,
    script: &'static [u8],
    disk_0: u64,
    disk_1: u64,
    status: u8,
    fault: &'static str,
    text: &'static [u8],
    first: (u64, u64),
    second: (u64, u64),
}

// Block 0 is on disk 0, and the page of the file, in block 1, on disk 1.
const STRIPED: Case = Case {
    name: "a stripe",
    script: STRIPE,
    disk_0: 0,
    disk_1: 0,
    status: 0,
    fault: "none",
    text: REPORT,
    first: (1, 1),
    second: (2, 2),
};

// A block is read from disk 0, as long as its last write there was served, and each write goes to both.
const MIRRORED: Case = Case {
    name: "a mirror",
    script: MIRROR,
    disk_0: 0,
    disk_1: 0,
    status: 0,
    fault: "none",
    text: REPORT,
    first: (3, 3),
    second: (0, 3),
};

const CASES: [Case; 20] = [
    STRIPED,
    Case {
        name: "block 0 of a stripe isn't read",
        disk_0: 1,
        status: 7,
        fault: "opening",
        text: b"fault: disk 0 0 1\n",
        first: (1, 0),
        second: (0, 0),
        ..STRIPED
    },
    Case {
        name: "the table of a stripe isn't written",
        disk_0: 2,
        status: 7,
        fault: "closing",
        text: UNCLOSED,
        first: (1, 1),
        second: (1, 2),
        ..STRIPED
    },
    Case {
        name: "the page isn't written to a stripe",
        disk_1: 1,
        status: 7,
        fault: "opening",
        text: b"fault: disk 0 0 1\n",
        first: (1, 0),
        second: (0, 1),
        ..STRIPED
    },
    Case {
        name: "the page isn't brought in from a stripe, and then is",
        disk_1: 2,
        text: UNREAD,
        first: (1, 1),
        second: (3, 2),
        ..STRIPED
    },
    Case {
        name: "the page isn't pushed to a stripe",
        disk_1: 3,
        status: 7,
        fault: "closing",
        text: UNCLOSED,
        first: (1, 0),
        second: (1, 2),
        ..STRIPED
    },
    Case {
        name: "the page isn't read back from a stripe",
        disk_1: 4,
        status: 7,
        fault: "showing",
        text: UNSHOWN,
        first: (1, 1),
        second: (2, 2),
        ..STRIPED
    },
    MIRRORED,
    Case {
        name: "block 0 is fresh on the first disk alone, which fails",
        disk_0: 1,
        status: 7,
        fault: "opening",
        text: b"fault: disk 0 0 1\n",
        first: (1, 0),
        second: (0, 0),
        ..MIRRORED
    },
    Case {
        name: "the page is written to the second disk, and read from there",
        disk_0: 2,
        first: (2, 3),
        second: (1, 3),
        ..MIRRORED
    },
    Case {
        name: "the page is read from the second disk",
        disk_0: 3,
        second: (1, 3),
        ..MIRRORED
    },
    Case {
        name: "the page is pushed to the second disk, and read back from there",
        disk_0: 4,
        first: (2, 3),
        second: (1, 3),
        ..MIRRORED
    },
    Case {
        name: "the table is written to the second disk",
        disk_0: 5,
        ..MIRRORED
    },
    Case {
        name: "the page is read back from the second disk",
        disk_0: 6,
        second: (1, 3),
        ..MIRRORED
    },
    Case {
        name: "the page isn't written to the second disk",
        disk_1: 1,
        ..MIRRORED
    },
    Case {
        name: "the page isn't pushed to the second disk",
        disk_1: 2,
        ..MIRRORED
    },
    Case {
        name: "the table isn't written to the second disk",
        disk_1: 3,
        ..MIRRORED
    },
    Case {
        name: "both fail as the page is written",
        disk_0: 2,
        disk_1: 1,
        status: 7,
        fault: "opening",
        text: b"fault: disk 0 0 2\n",
        first: (1, 1),
        second: (0, 1),
        ..MIRRORED
    },
    Case {
        name: "both fail as the page is read, and then don't",
        disk_0: 3,
        disk_1: 2,
        text: b"\
process 1
6 map 0x00002000
7 load BUS io 0 0 2
8 store ok
9 exit ok
file a 5
00000000 4a656c6c6f
",
        first: (4, 3),
        second: (1, 3),
        ..MIRRORED
    },
    Case {
        name: "a mirror survives",
        script: SURVIVES,
        disk_0: 5,
        text: b"\
process 1
7 map 0x00002000
8 map 0x00004000
9 load 0x68
10 load 0x77
11 load 0x77
12 exit ok
file a 5
00000000 68656c6c6f
file b 5
00000000 776f726c64
",
        first: (5, 3),
        second: (1, 3),
        ..MIRRORED
    },
];

fn fails_of(case: &Case) -> Fails {
    Fails {
        disk_0: case.disk_0,
        disk_1: case.disk_1,
        ..NEVER
    }
}

// Runs each of these, and looks at how it ended.
fn look_at(rt: &(impl Threads + Wait + Sync), alloc: Global, cases: &[Case]) -> Result<(), Fail> {
    for case in cases {
        let left = run_trial(rt, alloc, NO_WORDS, case.script, &fails_of(case))?;
        let name = case.name;
        if (left.status, left.fault) != (case.status, case.fault) {
            let (status, fault) = (left.status, left.fault);
            return Err(Fail::new(format_args!("{name}: {status}, {fault}")));
        }
        if left.text.as_slice() != case.text {
            return Err(Fail::new(format_args!("{name}: the text")));
        }
        if (left.first, left.second) != (case.first, case.second) {
            return Err(Fail::new(format_args!("{name}: the transfers")));
        }
    }
    Ok(())
}

#[test]
fn joined_disks_fail_as_their_members_do(rt: HostRuntime) -> Result<(), Fail> {
    look_at(&rt, rt.alloc(), &CASES)
}
