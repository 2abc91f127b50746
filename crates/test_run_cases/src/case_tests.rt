//! Whole runs over memory forms, with a fault in each place: what each prints, and how it ends.
use std::alloc::Global;
use std::sync::Wait;
use std::test::Fail;
use std::thread::Threads;
use test_run::{BROKEN, Broken, FIRST, Fails, MORE, NEVER, NO_WORDS, REPORT, TRACE, run_trial};

const TAIL: &[u8] = b"\
disk 0 blank 8
file a rw 0 2 68656c6c6f
process
map 0x2000 8192 rw shared a 0
load 0x2005 1
load 0x3000 1
end
";

const TWO: &[u8] = b"\
swap 0
disk 1 blank 4
disk 0 blank 8
file b ro 1 1 00ff
file a rw 0 2 -
process
end
";

const FOUR: &[u8] = b"\
swap 0
disk 0 blank 8
disk 3 blank 8
file d rw 3 1 44
file c rw 0 1 43
file b rw 3 2 42
file a ro 0 1 41
process
map 0x2000 4096 rw shared b 0
store 0x2000 1 0x62
end
";

const BESIDE: &[u8] = b"\
disk 0 blank 8
file a rw 0 2 68656c6c6f
process
map 0x2000 4096 rw shared a 0
map 0x4000 4096 rw private a 0
load 0x4000 1
store 0x2000 1 0x41
load 0x4000 1
store 0x4001 1 0x42
store 0x2000 1 0x43
load 0x4000 1
load 0x2001 1
end
";

const OWN: &[u8] = b"\
swap 3
disk 0 blank 8
file a ro 0 2 68656c6c6f
process
map 0x2000 12288 rw private a 0
store 0x2000 1 0x4a
store 0x2005 1 0x77
load 0x2000 4
load 0x2004 2
store 0x3000 1 1
map 0x6000 4096 r shared a 0
load 0x6000 1
end
";

const ENDS: &[u8] = b"\
process
load 0x2002 4
map 0x7ffff000 4096 rw private zero 0
store 0x7ffffffc 4 0x01020304
load 0x7ffffffc 4
load 0x7ffffffe 2
load 0x7ffffffc 1
map 0x7ffff000 8192 rw private zero 0
map 0 4096 rw private zero 0
end
";

// A private mapping is laid over the middle of another, with no slot to spare.
const OVER: &[u8] = b"\
swap 4
process
map 0x2000 16384 rw private zero 0
store 0x2000 1 1
store 0x3000 1 2
store 0x5000 1 4
map 0x3000 8192 rw private zero 0
load 0x2000 1
load 0x3000 1
load 0x5000 1
map 0x7000 4096 rw private zero 0
map 0x3000 12288 r private zero 0
load 0x5000 1
end
";

// A file and a second zero object are laid over parts of the first.
const SHARED: &[u8] = b"\
disk 0 blank 8
file a rw 0 1 68656c6c6f
process
map 0x2000 16384 rw shared zero 0
store 0x2000 1 1
store 0x5000 1 4
load 0x3000 1
map 0x3000 8192 r shared a 0
load 0x2000 1
load 0x3000 1
load 0x4000 1
load 0x5000 1
store 0x3000 1 1
map 0x5000 4096 rw shared zero 0
load 0x5000 1
load 0x2000 1
map 0x2000 4096 rw shared zero 4096
end
";

// A zero object of four pages reserves four slots as long as one of them is shown.
const HELD: &[u8] = b"\
swap 4
disk 0 blank 8
file a ro 0 1 68656c6c6f
process
map 0x2000 20480 rw shared zero 0
map 0x2000 16384 rw shared zero 0
store 0x2000 1 1
map 0x2000 16384 rw shared zero 0
load 0x2000 1
store 0x5000 1 4
map 0x2000 12288 r shared a 0
map 0x7000 4096 rw private zero 0
load 0x5000 1
map 0x5000 4096 r shared a 0
map 0x7000 16384 rw private zero 0
load 0x7000 1
end
";

// A run, and how it ends. A call that fails has its number, and 0 stands for none.
#[derive(Clone, Copy)]
struct Case {
    name: &'static str,
    script: &'static [u8],
    words: &'static str,
    source: u64,
    sink: u64,
    rack: u64,
    disk_0: u64,
    disk_1: u64,
    status: u8,
    fault: &'static str,
    text: &'static [u8],
}

const WHOLE: Case = Case {
    name: "the first path",
    script: FIRST,
    words: NO_WORDS,
    source: 0,
    sink: 0,
    rack: 0,
    disk_0: 0,
    disk_1: 0,
    status: 0,
    fault: "none",
    text: REPORT,
};

const CASES: [Case; 34] = [
    WHOLE,
    Case {
        name: "a trace",
        words: "--trace",
        text: TRACE,
        ..WHOLE
    },
    Case {
        name: "the tail and the end",
        script: TAIL,
        text: b"\
process 1
4 map 0x00002000
5 load 0x00
6 load BUS past
7 exit ok
file a 5
00000000 68656c6c6f
",
        ..WHOLE
    },
    Case {
        name: "the tail isn't the file's",
        script: b"\
disk 0 blank 8
file a rw 0 2 68656c6c6f
process
map 0x2000 4096 rw shared a 0
store 0x2005 1 0x77
load 0x2005 1
end
",
        text: b"\
process 1
4 map 0x00002000
5 store ok
6 load 0x77
7 exit ok
file a 5
00000000 68656c6c6f
",
        ..WHOLE
    },
    Case {
        name: "private beside shared",
        script: BESIDE,
        text: b"\
process 1
4 map 0x00002000
5 map 0x00004000
6 load 0x68
7 store ok
8 load 0x41
9 store ok
10 store ok
11 load 0x41
12 load 0x65
13 exit ok
file a 5
00000000 43656c6c6f
",
        ..WHOLE
    },
    Case {
        name: "private pages of a file that can't be written",
        script: OWN,
        text: b"\
process 1
5 map 0x00002000
6 store ok
7 store ok
8 load 0x4a656c6c
9 load 0x6f77
10 store BUS past
11 map 0x00006000
12 load 0x68
13 exit ok
file a 5
00000000 68656c6c6f
",
        ..WHOLE
    },
    Case {
        name: "nothing is mapped",
        script: b"process\nload 0x2002 4\nload 0x2004 4\nend\n",
        text: b"\
process 1
2 load BUS align
3 load SEGV nomap
4 exit ok
",
        ..WHOLE
    },
    Case {
        name: "calls are refused",
        script: b"\
disk 0 blank 4
file a ro 0 1 68656c6c6f
process
map 0x1000 0x10001000 r shared a 0
map 0x1000 0x10000000 r shared a 0
map any 1 r shared a 0
map 0x1000 4096 r shared a 0
write a 0 58
map 0x2000 4096 rw shared a 0
map 0x2000 4096 r shared q 0
read q 0 4
map 0x2000 0 r shared a 0
unmap 0x2001 4096
protect 0x20000000 4096 r
end
",
        text: b"\
process 1
4 map error 5 TooLarge
5 map 0x00001000
6 map error 5 TooLarge
7 map 0x00001000
8 write 0 error 7 ReadOnly
9 map error 2 Access
10 map error 9 NoObject
11 read 0 error 9 NoObject
12 map error 1 Invalid
13 unmap error 1 Invalid
14 protect error 6 NotMapped
15 exit ok
file a 5
00000000 68656c6c6f
",
        ..WHOLE
    },
    Case {
        name: "a page isn't brought in at first, with another beside it",
        script: b"\
disk 0 blank 8
file a rw 0 1 68656c6c6f
file b rw 0 1 776f726c64
process
map 0x2000 4096 r shared a 0
map 0x4000 4096 r shared b 0
load 0x2000 1
load 0x4000 1
load 0x4000 1
end
",
        disk_0: 5,
        text: b"\
process 1
5 map 0x00002000
6 map 0x00004000
7 load 0x68
8 load BUS io 0 0 1
9 load 0x77
10 exit ok
file a 5
00000000 68656c6c6f
file b 5
00000000 776f726c64
",
        ..WHOLE
    },
    Case {
        name: "two disks, a file on each",
        script: TWO,
        text: b"process 1\n7 exit ok\nfile b 2\n00000000 00ff\nfile a 0\n",
        ..WHOLE
    },
    Case {
        name: "two disks, with a trace and no swap",
        script: TWO,
        words: "--trace",
        text: b"\
trace swap 0
disk 0 8
disk 1 4
root 1
file 0 b ro 1 2 1+1
00000000 00ff
file 1 a rw 0 0 1+2
entries 1
1 0000000000000000 exit = ok
process 1
7 exit ok
file b 2
00000000 00ff
file a 0
",
        ..WHOLE
    },
    Case {
        name: "two files on each of two disks",
        script: FOUR,
        text: b"\
process 1
9 map 0x00002000
10 store ok
11 exit ok
file d 1
00000000 44
file c 1
00000000 43
file b 1
00000000 62
file a 1
00000000 41
",
        ..WHOLE
    },
    Case {
        name: "nothing",
        script: b"",
        text: b"",
        ..WHOLE
    },
    Case {
        name: "block 0 isn't read",
        disk_0: 1,
        status: 7,
        fault: "opening",
        text: b"fault: disk 0 0 1\n",
        ..WHOLE
    },
    Case {
        name: "the file's page isn't written",
        disk_0: 2,
        status: 7,
        fault: "opening",
        text: b"fault: disk 0 0 1\n",
        ..WHOLE
    },
    Case {
        name: "the page isn't brought in, and then is",
        disk_0: 3,
        text: b"\
process 1
4 map 0x00002000
5 load BUS io 0 0 1
6 store ok
7 exit ok
file a 5
00000000 4a656c6c6f
",
        ..WHOLE
    },
    Case {
        name: "the page isn't pushed",
        disk_0: 4,
        status: 7,
        fault: "closing",
        text: b"\
process 1
4 map 0x00002000
5 load 0x65
6 store ok
7 exit ok
fault: disk 0 0 1
",
        ..WHOLE
    },
    Case {
        name: "the table isn't written",
        disk_0: 5,
        status: 7,
        fault: "closing",
        text: b"\
process 1
4 map 0x00002000
5 load 0x65
6 store ok
7 exit ok
fault: disk 0 0 1
",
        ..WHOLE
    },
    Case {
        name: "the page isn't read back",
        disk_0: 6,
        status: 7,
        fault: "showing",
        text: b"\
process 1
4 map 0x00002000
5 load 0x65
6 store ok
7 exit ok
file a 5
fault: disk 0 0 1
",
        ..WHOLE
    },
    Case {
        name: "the page isn't read for the trace",
        words: "--trace",
        disk_0: 3,
        status: 7,
        fault: "opening",
        text: b"\
trace swap 64
disk 0 8
root 1
file 0 a rw 0 5 1+2
fault: disk 0 0 1
",
        ..WHOLE
    },
    Case {
        name: "the other disk's table isn't written",
        script: TWO,
        disk_1: 3,
        status: 7,
        fault: "closing",
        text: b"process 1\n7 exit ok\nfault: disk 1 0 1\n",
        ..WHOLE
    },
    Case {
        name: "the other disk's page isn't read back",
        script: TWO,
        disk_1: 4,
        status: 7,
        fault: "showing",
        text: b"process 1\n7 exit ok\nfile b 2\nfault: disk 1 0 1\n",
        ..WHOLE
    },
    Case {
        name: "the swap disk isn't attached",
        rack: 1,
        status: 7,
        fault: "opening",
        text: b"fault: rack 8\n",
        ..WHOLE
    },
    Case {
        name: "the disk isn't attached",
        rack: 2,
        status: 7,
        fault: "opening",
        text: b"fault: rack 0\n",
        ..WHOLE
    },
    Case {
        name: "the second disk isn't attached",
        script: TWO,
        rack: 2,
        status: 7,
        fault: "opening",
        text: b"fault: rack 1\n",
        ..WHOLE
    },
    Case {
        name: "the script isn't read",
        source: 1,
        status: 5,
        text: b"script: read fault\n",
        ..WHOLE
    },
    Case {
        name: "the report isn't taken",
        sink: 1,
        status: 6,
        text: b"",
        ..WHOLE
    },
    Case {
        name: "a word that isn't taken",
        words: "--pageout\nx",
        status: 2,
        text: b"usage: sunvm [--trace] [--pageout N] [--make N]\n",
        ..WHOLE
    },
    Case {
        name: "a line with no such word",
        script: b"process\nlaod 0x2000 1\nend\n",
        status: 3,
        text: b"script: line 2: word\n",
        ..WHOLE
    },
    Case {
        name: "a block that is open at the end",
        script: b"process\n",
        status: 3,
        text: b"script: line 2: place\n",
        ..WHOLE
    },
    Case {
        name: "a child",
        script: b"process\nfork\nend\nend\n",
        text: b"process 1\n2 fork 2\n4 exit ok\nprocess 2\n3 exit ok\n",
        ..WHOLE
    },
    Case {
        name: "two top blocks",
        script: b"process\nend\nprocess\nend\n",
        text: b"process 1\n2 exit ok\nprocess 2\n4 exit ok\n",
        ..WHOLE
    },
    Case {
        name: "joined disks",
        script: b"\
disk 0 blank 8
disk 1 blank 8
join 0 stripe 1
process
end
",
        text: b"process 1\n5 exit ok\n",
        ..WHOLE
    },
    Case {
        name: "a read",
        script: b"process\nread a 0 4\nend\n",
        text: b"process 1\n2 read 0 error 9 NoObject\n3 exit ok\n",
        ..WHOLE
    },
];

// Zero memory, over swap.
const ZERO_CASES: [Case; 5] = [
    Case {
        name: "swap's boundary",
        script: b"\
swap 4
process
map 0x2000 20480 rw private zero 0
map 0x2000 16384 rw private zero 0
end
",
        text: b"\
process 1
3 map error 3 NoSwap
4 map 0x00002000
5 exit ok
",
        ..WHOLE
    },
    Case {
        name: "a private mapping over a private one",
        script: OVER,
        text: b"\
process 1
3 map 0x00002000
4 store ok
5 store ok
6 store ok
7 map 0x00003000
8 load 0x01
9 load 0x00
10 load 0x04
11 map error 3 NoSwap
12 map 0x00003000
13 load 0x00
14 exit ok
",
        ..WHOLE
    },
    Case {
        name: "alignment and ends",
        script: ENDS,
        text: b"\
process 1
2 load BUS align
3 map 0x7ffff000
4 store ok
5 load 0x01020304
6 load 0x0304
7 load 0x01
8 map error 1 Invalid
9 map error 1 Invalid
10 exit ok
",
        ..WHOLE
    },
    Case {
        name: "shared new zero memory",
        script: SHARED,
        text: b"\
process 1
4 map 0x00002000
5 store ok
6 store ok
7 load 0x00
8 map 0x00003000
9 load 0x01
10 load 0x68
11 load BUS past
12 load 0x04
13 store SEGV prot
14 map 0x00005000
15 load 0x00
16 load 0x01
17 map error 1 Invalid
18 exit ok
file a 5
00000000 68656c6c6f
",
        ..WHOLE
    },
    Case {
        name: "a zero object's reservation",
        script: HELD,
        text: b"\
process 1
5 map error 3 NoSwap
6 map 0x00002000
7 store ok
8 map 0x00002000
9 load 0x00
10 store ok
11 map 0x00002000
12 map error 3 NoSwap
13 load 0x04
14 map 0x00005000
15 map 0x00007000
16 load 0x00
17 exit ok
file a 5
00000000 68656c6c6f
",
        ..WHOLE
    },
];

fn fails_of(case: &Case) -> Fails {
    Fails {
        source: case.source,
        sink: case.sink,
        rack: case.rack,
        disk_0: case.disk_0,
        disk_1: case.disk_1,
        swap: 0,
    }
}

// Runs each of these, and looks at how it ended.
fn look_at(rt: &(impl Threads + Wait + Sync), alloc: Global, cases: &[Case]) -> Result<(), Fail> {
    for case in cases {
        let left = run_trial(rt, alloc, case.words, case.script, &fails_of(case))?;
        let name = case.name;
        if (left.status, left.fault) != (case.status, case.fault) {
            let (status, fault) = (left.status, left.fault);
            return Err(Fail::new(format_args!("{name}: {status}, {fault}")));
        }
        if left.text.as_slice() != case.text {
            return Err(Fail::new(format_args!("{name}: the text")));
        }
    }
    Ok(())
}

#[test]
fn runs_end_as_the_rules_say(rt: HostRuntime) -> Result<(), Fail> {
    look_at(&rt, rt.alloc(), &CASES)?;
    look_at(&rt, rt.alloc(), &ZERO_CASES)
}

// Runs each of these, and looks at what it says.
fn hear(rt: &(impl Threads + Wait + Sync), alloc: Global, scripts: &[Broken]) -> Result<(), Fail> {
    for broken in scripts {
        let left = run_trial(rt, alloc, NO_WORDS, broken.script, &NEVER)?;
        if left.status != broken.status || left.text.as_slice() != broken.text {
            let (status, text) = (left.status, broken.text);
            return Err(Fail::new(format_args!("{status} for {text:?}")));
        }
    }
    Ok(())
}

#[test]
fn what_is_wrong_with_a_script_is_told(rt: HostRuntime) -> Result<(), Fail> {
    hear(&rt, rt.alloc(), &BROKEN)?;
    hear(&rt, rt.alloc(), &MORE)
}
