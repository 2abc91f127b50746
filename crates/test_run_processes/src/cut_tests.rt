//! Whole runs in which a process cuts a file that others show and read: what each finds behind its wait doesn't hang on the threads' order.
use crate::tree_tests::look_at_trace;
use std::test::Fail;
use test_run::{NEVER, NO_WORDS, run_trial};

// A child cuts a file under its parent's mappings, and the parent makes it longer again.
const UNDER_PARENT: &[u8] = b"\
disk 0 blank 8
file a rw 0 2 68656c6c6f
process
map 0x2000 8192 rw shared a 0
map 0x6000 8192 rw private a 0
write a 4096 5a
store 0x6000 1 0x11
fork
truncate a 2
load 0x3000 1
load 0x2002 1
end
wait
load 0x2001 1
load 0x3000 1
load 0x7000 1
load 0x6000 1
read a 0 8
write a 4 58
load 0x2002 1
load 0x2004 1
truncate a 4097
load 0x3000 1
end
";

// Two children beside each other: one cuts a file and writes behind its end, the other makes one longer and cuts it.
const TWO_CHILDREN: &[u8] = b"\
disk 0 blank 8
file a rw 0 1 6162636465
file b rw 0 1 6162636465
process
map 0x2000 4096 rw shared a 0
map 0x4000 4096 rw shared b 0
fork
truncate a 1
write a 3 5a
store 0x2001 1 0x77
end
fork
truncate b 8
store 0x4007 1 0x66
truncate b 3
end
wait
read a 0 16
read b 0 16
load 0x2000 4
load 0x4002 1
end
";

// The mapped page of a process that waits isn't there once its child has cut the file, and is zeros once it is longer, by whoever makes it so.
const GROWN_BY_CHILD: &[u8] = b"\
disk 0 blank 8
file a rw 0 1 61
process
map 0x2000 8192 rw shared a 0
store 0x2000 1 0x62
fork
truncate a 0
end
wait
load 0x2000 1
read a 0 1
fork
truncate a 4097
end
wait
load 0x2000 1
load 0x3000 1
store 0x3000 1 0x63
end
";

// Each script beside its report, and what a check says of its trace.
const RUNS: [(&str, &[u8], &[u8], &[u8]); 3] = [
    (
        "cut under its parent",
        UNDER_PARENT,
        b"\
process 1
4 map 0x00002000
5 map 0x00006000
6 write 1
7 store ok
8 fork 2
14 load 0x65
15 load BUS past
16 load BUS past
17 load 0x11
18 read 2 6865
19 write 1
20 load 0x00
21 load 0x58
22 truncate ok
23 load 0x00
24 exit ok
process 2
9 truncate ok
10 load BUS past
11 load 0x00
12 exit ok
file a 4097
00000000 6865000058000000000000000000000000000000000000000000000000000000
",
        b"trace: legal 20\n",
    ),
    (
        "two children",
        TWO_CHILDREN,
        b"\
process 1
5 map 0x00002000
6 map 0x00004000
7 fork 2
12 fork 3
18 read 4 6177005a
19 read 3 616263
20 load 0x6177005a
21 load 0x63
22 exit ok
process 2
8 truncate ok
9 write 1
10 store ok
11 exit ok
process 3
13 truncate ok
14 store ok
15 truncate ok
16 exit ok
file a 4
00000000 6177005a
file b 3
00000000 616263
",
        b"trace: legal 17\n",
    ),
    (
        "grown by a child",
        GROWN_BY_CHILD,
        b"\
process 1
4 map 0x00002000
5 store ok
6 fork 2
10 load BUS past
11 read 0
12 fork 3
16 load 0x00
17 load 0x00
18 store ok
19 exit ok
process 2
7 truncate ok
8 exit ok
process 3
13 truncate ok
14 exit ok
file a 4097
00001000 63
",
        b"trace: legal 14\n",
    ),
];

#[test]
fn a_file_is_cut_beside_other_processes(rt: HostRuntime) -> Result<(), Fail> {
    for (name, script, text, verdict) in RUNS {
        let left = run_trial(&rt, rt.alloc(), NO_WORDS, script, &NEVER)?;
        assert_eq!(rt; left.status, 0, "{name}");
        assert_eq!(rt; left.text.as_slice(), text, "{name}");
        look_at_trace(&rt, rt.alloc(), script, text, verdict)?;
    }
    Ok(())
}
