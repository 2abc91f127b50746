//! Whole runs of map, unmap, protect and sync: what each prints, and what the disk was asked for.
use std::test::Fail;
use test_run::{NEVER, NO_WORDS, run_trial};

// A page in the middle goes, and once more.
const CUT: &[u8] = b"\
process
map 0x2000 12288 rw private zero 0
store 0x2000 1 1
store 0x4000 1 3
unmap 0x3000 4096
load 0x3000 1
load 0x2000 1
load 0x4000 1
unmap 0x3000 4096
unmap 0x3001 4096
unmap 0x3000 0
unmap 0x1000 0x7ffff000
load 0x2000 1
end
";

// What an unmap gives up can be reserved anew.
const GIVEN_BACK: &[u8] = b"\
swap 4
process
map 0x2000 16384 rw private zero 0
map any 4096 rw private zero 0
unmap 0x3000 4096
map any 4096 rw private zero 0
map any 4096 rw private zero 0
load 0x1000 1
end
";

// A zero object goes with the last page that shows it.
const OBJECT_GOES: &[u8] = b"\
swap 2
process
map 0x2000 8192 rw shared zero 0
unmap 0x2000 4096
map any 4096 rw private zero 0
unmap 0x3000 4096
map any 8192 rw private zero 0
end
";

const PROTECTION: &[u8] = b"\
disk 0 blank 8
file a rw 0 1 68656c6c6f
file b ro 0 1 68656c6c6f
process
map 0x2000 4096 rw shared a 0
protect 0x2000 4096 r
store 0x2000 1 1
map 0x4000 4096 r shared b 0
protect 0x4000 4096 rw
map 0x6000 4096 r private b 0
protect 0x6000 4096 rw
store 0x6000 1 1
end
";

// Rights go and come back, over parts of a piece and over two pieces; and each refusal before those that come later.
const RIGHTS: &[u8] = b"\
process
map 0x2000 12288 rw private zero 0
store 0x3000 1 7
protect 0x3000 4096 none
load 0x3000 1
load 0x2000 1
protect 0x3000 8192 r
load 0x3000 1
store 0x4000 1 1
protect 0x2000 12288 rw
store 0x3000 1 8
load 0x3000 1
protect 0x4000 8192 r
protect 0x2001 4096 r
protect 0x2000 0 r
store 0x4000 1 1
end
";

const GAP: &[u8] = b"\
process
map 0x1000 4096 none private zero 0
map 0x3000 4096 none private zero 0
map 0x6000 4096 none private zero 0
map any 8192 r private zero 0
map any 0 r private zero 0
map any 4096 r shared b 0
end
";

// A page at each multiple of 0x8000000.
const NO_ROOM: &[u8] = b"\
disk 0 blank 8
file a ro 0 1 68656c6c6f
process
map 0x8000000 4096 r shared a 0
map 0x10000000 4096 r shared a 0
map 0x18000000 4096 r shared a 0
map 0x20000000 4096 r shared a 0
map 0x28000000 4096 r shared a 0
map 0x30000000 4096 r shared a 0
map 0x38000000 4096 r shared a 0
map 0x40000000 4096 r shared a 0
map 0x48000000 4096 r shared a 0
map 0x50000000 4096 r shared a 0
map 0x58000000 4096 r shared a 0
map 0x60000000 4096 r shared a 0
map 0x68000000 4096 r shared a 0
map 0x70000000 4096 r shared a 0
map 0x78000000 4096 r shared a 0
map any 0x8000000 r shared a 0
map any 0x8000000 rw private zero 0
map any 0x8000000 rw shared a 0
map any 0x7fff000 rw private zero 0
map any 0x7fff000 r shared a 0
map any 0xffffffff r shared a 0
end
";

// A page is pushed by the sync that its store is followed by.
const SYNC: &[u8] = b"\
disk 0 blank 8
file a rw 0 2 68656c6c6f
process
map 0x2000 4096 rw shared a 0
store 0x2000 1 0x4a
sync 0x2000 4096
sync 0x9000 4096
sync 0x2001 4096
end
";

const SYNCED: &[u8] = b"\
process 1
4 map 0x00002000
5 store ok
6 sync ok
7 sync error 6 NotMapped
8 sync error 1 Invalid
9 exit ok
file a 5
00000000 4a656c6c6f
";

// A private copy is no page of the file, and a page that may no longer be touched is synced all the same.
const SYNC_OF_BOTH: &[u8] = b"\
disk 0 blank 8
file a rw 0 2 68656c6c6f
process
map 0x2000 4096 rw shared a 0
map 0x3000 4096 rw private a 0
store 0x3000 1 0x4a
sync 0x2000 8192
store 0x2000 1 0x59
protect 0x2000 4096 none
sync 0x1000 8192
sync 0x2000 8192
sync 0x2000 0
load 0x3000 1
load 0x2000 1
end
";

// Each script beside its report.
const RUNS: [(&[u8], &[u8]); 8] = [
    (
        CUT,
        b"\
process 1
2 map 0x00002000
3 store ok
4 store ok
5 unmap ok
6 load SEGV nomap
7 load 0x01
8 load 0x03
9 unmap ok
10 unmap error 1 Invalid
11 unmap error 1 Invalid
12 unmap ok
13 load SEGV nomap
14 exit ok
",
    ),
    (
        GIVEN_BACK,
        b"\
process 1
3 map 0x00002000
4 map error 3 NoSwap
5 unmap ok
6 map 0x00001000
7 map error 3 NoSwap
8 load 0x00
9 exit ok
",
    ),
    (
        OBJECT_GOES,
        b"\
process 1
3 map 0x00002000
4 unmap ok
5 map error 3 NoSwap
6 unmap ok
7 map 0x00001000
8 exit ok
",
    ),
    (
        PROTECTION,
        b"\
process 1
5 map 0x00002000
6 protect ok
7 store SEGV prot
8 map 0x00004000
9 protect error 2 Access
10 map 0x00006000
11 protect ok
12 store ok
13 exit ok
file a 5
00000000 68656c6c6f
file b 5
00000000 68656c6c6f
",
    ),
    (
        RIGHTS,
        b"\
process 1
2 map 0x00002000
3 store ok
4 protect ok
5 load SEGV prot
6 load 0x00
7 protect ok
8 load 0x07
9 store SEGV prot
10 protect ok
11 store ok
12 load 0x08
13 protect error 6 NotMapped
14 protect error 1 Invalid
15 protect error 1 Invalid
16 store ok
17 exit ok
",
    ),
    (
        GAP,
        b"\
process 1
2 map 0x00001000
3 map 0x00003000
4 map 0x00006000
5 map 0x00004000
6 map error 1 Invalid
7 map error 9 NoObject
8 exit ok
",
    ),
    (
        NO_ROOM,
        b"\
process 1
4 map 0x08000000
5 map 0x10000000
6 map 0x18000000
7 map 0x20000000
8 map 0x28000000
9 map 0x30000000
10 map 0x38000000
11 map 0x40000000
12 map 0x48000000
13 map 0x50000000
14 map 0x58000000
15 map 0x60000000
16 map 0x68000000
17 map 0x70000000
18 map 0x78000000
19 map error 4 NoRoom
20 map error 4 NoRoom
21 map error 2 Access
22 map error 3 NoSwap
23 map 0x00001000
24 map error 5 TooLarge
25 exit ok
file a 5
00000000 68656c6c6f
",
    ),
    (
        SYNC_OF_BOTH,
        b"\
process 1
4 map 0x00002000
5 map 0x00003000
6 store ok
7 sync ok
8 store ok
9 protect ok
10 sync error 6 NotMapped
11 sync ok
12 sync error 1 Invalid
13 load 0x4a
14 load SEGV prot
15 exit ok
file a 5
00000000 59656c6c6f
",
    ),
];

#[test]
fn mappings_change_as_the_rules_say(rt: HostRuntime) -> Result<(), Fail> {
    for (script, text) in RUNS {
        let left = run_trial(&rt, rt.alloc(), NO_WORDS, script, &NEVER)?;
        assert_eq!(rt; left.status, 0);
        assert_eq!(rt; left.text.as_slice(), text);
    }
    Ok(())
}

#[test]
fn a_sync_has_the_page_pushed(rt: HostRuntime) -> Result<(), Fail> {
    let left = run_trial(&rt, rt.alloc(), NO_WORDS, SYNC, &NEVER)?;
    assert_eq!(rt; (left.status, left.first), (0, (3, 3)));
    assert_eq!(rt; left.text.as_slice(), SYNCED);
    Ok(())
}
