//! Whole runs of lines that read, write and truncate files: what each prints, and which bytes and blocks the files have at the end.
use std::test::Fail;
use test_run::{Fails, NEVER, NO_WORDS, run_kept, run_trial};

// What is stored behind the end of a file isn't the file's.
const TAIL: &[u8] = b"\
disk 0 blank 8
file a rw 0 2 68656c6c6f
process
map 0x2000 4096 rw shared a 0
store 0x2005 1 0x77
load 0x2005 1
read a 0 16
end
";

// A file grows into its second page, and one within its first.
const GROWTH: &[u8] = b"\
disk 0 blank 8
file a rw 0 2 68656c6c6f
file b rw 0 2 68656c6c6f
process
map 0x2000 8192 rw shared a 0
load 0x3000 1
write a 4096 5a
load 0x3000 1
write b 8 58
read b 0 16
end
";

// No block is free for a second page.
const LIMIT: &[u8] = b"\
disk 0 blank 2
file a rw 0 1 -
process
write a 4095 01
write a 4096 02
write a 4090 03030303030303
end
";

const CUT_AND_GROWN: &[u8] = b"\
disk 0 blank 3
file a rw 0 2 68656c6c6f
process
map 0x2000 8192 rw shared a 0
map 0x6000 4096 rw private a 4096
write a 4096 5a
store 0x6000 1 0x11
truncate a 2
load 0x3000 1
load 0x6000 1
load 0x2002 1
truncate a 8193
truncate a 4
truncate q 0
end
";

const TRUNCATE_REFUSED: &[u8] = b"\
disk 0 blank 2
file a ro 0 1 68
process
truncate a 0
end
";

// The one free block is taken by the file that asks first.
const FREE_BLOCK: &[u8] = b"\
disk 0 blank 4
file a rw 0 1 -
file b rw 0 1 -
process
write a 4096 5a
write b 4096 5a
write b 4095 01
end
";

// A write and a read that go over an aligned line's end, reads that come to the file's end, and one behind it.
const PARTS: &[u8] = b"\
disk 0 blank 4
file a rw 0 1 61626364
process
write a 62 0102030405
read a 60 8
read a 60 65536
read a 67 4
read a 4000 1
write a 0 58
read a 0 5
end
";

// Two processes wait for each other's calls: each reads and writes lines of its own.
const TWO: &[u8] = b"\
disk 0 blank 4
file a rw 0 1 -
process
write a 60 0102030405060708
read a 60 8
end
process
read b 0 8
truncate b 4
end
";

// Each script beside its report.
const RUNS: [(&str, &[u8], &[u8]); 8] = [
    (
        "the tail isn't the file's",
        TAIL,
        b"\
process 1
4 map 0x00002000
5 store ok
6 load 0x77
7 read 5 68656c6c6f
8 exit ok
file a 5
00000000 68656c6c6f
",
    ),
    (
        "growth",
        GROWTH,
        b"\
process 1
5 map 0x00002000
6 load BUS past
7 write 1
8 load 0x5a
9 write 1
10 read 9 68656c6c6f00000058
11 exit ok
file a 4097
00000000 68656c6c6f000000000000000000000000000000000000000000000000000000
00001000 5a
file b 9
00000000 68656c6c6f00000058
",
    ),
    (
        "the limit of a file",
        LIMIT,
        b"\
process 1
4 write 1
5 write 0 error 8 TooBig
6 write 6 error 8 TooBig
7 exit ok
file a 4096
00000fe0 0000000000000000000000000000000000000000000000000000030303030303
",
    ),
    (
        "cut and grown",
        CUT_AND_GROWN,
        b"\
process 1
4 map 0x00002000
5 map 0x00006000
6 write 1
7 store ok
8 truncate ok
9 load BUS past
10 load 0x11
11 load 0x00
12 truncate error 8 TooBig
13 truncate ok
14 truncate error 9 NoObject
15 exit ok
file a 4
00000000 68650000
",
    ),
    (
        "a truncate that is refused",
        TRUNCATE_REFUSED,
        b"\
process 1
4 truncate error 7 ReadOnly
5 exit ok
file a 1
00000000 68
",
    ),
    (
        "growth from free blocks",
        FREE_BLOCK,
        b"\
process 1
5 write 1
6 write 0 error 8 TooBig
7 write 1
8 exit ok
file a 4097
00001000 5a
file b 4096
00000fe0 0000000000000000000000000000000000000000000000000000000000000001
",
    ),
    (
        "calls of several parts",
        PARTS,
        b"\
process 1
4 write 5
5 read 7 00000102030405
6 read 7 00000102030405
7 read 0
8 read 0
9 write 1
10 read 5 5862636400
11 exit ok
file a 67
00000000 5862636400000000000000000000000000000000000000000000000000000000
00000020 0000000000000000000000000000000000000000000000000000000000000102
00000040 030405
",
    ),
    (
        "a second process without its file",
        TWO,
        b"\
process 1
4 write 8
5 read 8 0102030405060708
6 exit ok
process 2
8 read 0 error 9 NoObject
9 truncate error 9 NoObject
10 exit ok
file a 68
00000020 0000000000000000000000000000000000000000000000000000000001020304
00000040 05060708
",
    ),
];

#[test]
fn files_change_as_the_rules_say(rt: HostRuntime) -> Result<(), Fail> {
    for (name, script, text) in RUNS {
        for words in [NO_WORDS, "--pageout\n100"] {
            let left = run_trial(&rt, rt.alloc(), words, script, &NEVER)?;
            assert_eq!(rt; left.status, 0, "{name}");
            assert_eq!(rt; left.text.as_slice(), text, "{name}");
        }
    }
    Ok(())
}

// The files that took the last free block, with their blocks, and what they have where their disk is mounted again. The part of the second read that
// fills its line is followed by one behind the file's end.
const MOUNTED: &[u8] = b"\
disk 0 path v
process
read a 4096 16
read b 4095 16
end
";

const MOUNTED_TRACE: &[u8] = b"\
trace swap 64
disk 0 4
root 1
file 0 a rw 0 4097 1+1,3+1
00001000 5a
file 1 b rw 0 4096 2+1
00000fe0 0000000000000000000000000000000000000000000000000000000000000001
entries 4
1 0000000000000000 read 0 4096 16 = bytes 1 5a
1 0000000000000000 read 1 4095 16 = bytes 1 01
1 0000000000000000 read 1 4096 15 = bytes 0
1 0000000000000000 exit = ok
process 1
3 read 1 5a
4 read 1 01
5 exit ok
file a 4097
00001000 5a
file b 4096
00000fe0 0000000000000000000000000000000000000000000000000000000000000001
";

#[test]
fn a_file_has_its_new_blocks_where_its_disk_is_mounted_again(rt: HostRuntime) -> Result<(), Fail> {
    let first = run_trial(&rt, rt.alloc(), NO_WORDS, FREE_BLOCK, &NEVER)?;
    assert_eq!(rt; (first.status, first.disks.len()), (0, 1));
    let blocks = first.disks[0].as_slice();
    let left = run_kept(&rt, rt.alloc(), "--trace", MOUNTED, &NEVER, blocks)?;
    assert_eq!(rt; left.status, 0);
    assert_eq!(rt; left.text.as_slice(), MOUNTED_TRACE);
    Ok(())
}

// Two parts of a read whose second page isn't read: what was read stands before the error. The disk gives the table, the first page
// and the second in that order.
const BROKEN: &[u8] = b"\
disk 0 blank 8
file a rw 0 2 -
process
write a 8191 01
end
";

#[test]
fn a_part_that_meets_a_device_error_ends_its_call(rt: HostRuntime) -> Result<(), Fail> {
    let first = run_trial(&rt, rt.alloc(), NO_WORDS, BROKEN, &NEVER)?;
    assert_eq!(rt; (first.status, first.disks.len()), (0, 1));
    let script = b"\
disk 0 path v
process
read a 4092 8
read a 4092 8
end
";
    let fails = Fails { disk_0: 3, ..NEVER };
    let left = run_kept(
        &rt,
        rt.alloc(),
        NO_WORDS,
        script,
        &fails,
        first.disks[0].as_slice(),
    )?;
    assert_eq!(rt; left.status, 0);
    let text: &[u8] = b"\
process 1
3 read 4 00000000 error io 0 0 1
4 read 8 0000000000000000
5 exit ok
file a 8192
00001fe0 0000000000000000000000000000000000000000000000000000000000000001
";
    assert_eq!(rt; left.text.as_slice(), text);
    Ok(())
}

// The generated script of a number: 8 processes and their children store and load, and write to one file.
const GENERATED: [(&str, &[u8]); 2] = [
    (
        "--make\n0",
        b"make 0 entries 16832 signals 0 refusals 0 sum 4024256\n",
    ),
    (
        "--make\n1\n--pageout\n1000",
        b"make 1 entries 16832 signals 0 refusals 0 sum 4024264\n",
    ),
];

#[test]
fn generated_scripts_run_to_their_sums(rt: HostRuntime) -> Result<(), Fail> {
    for (words, text) in GENERATED {
        let left = run_trial(&rt, rt.alloc(), words, b"", &NEVER)?;
        assert_eq!(rt; left.status, 0);
        assert_eq!(rt; left.text.as_slice(), text);
        assert_eq!(rt; left.entries.len(), 16832);
    }
    Ok(())
}
